//! What readings of grammars with the same content agree on, and the histories of readings.

#![tactic(auto)]

pub mod answer;
pub mod call;
pub mod play;

ghost use Rattle.std.specs.Prelude.{◌≡◌, true, false};
ghost use Rattle.reading.specs.Readings.{words};
ghost use Rattle.agreement.specs.Agreement.{Agreement};

use reading::reading::Reading;
use scales::Semiring;

// Whether the same kinds stand in both readings. Whatever their histories, readings of grammars with the same content in which
// the same kinds stand agree on every put and on every score of the scale.
pub fn agree<S: Semiring>(one: &Reading, other: &Reading) -> bool
    ensures yes { result ≡ true → words one.now ≡ words other.now }
    ensures no { result ≡ false → ¬ (words one.now ≡ words other.now) }
    ensures agreement { Agreement S.Semiring.scale }
{
    one.words() == other.words()
}
