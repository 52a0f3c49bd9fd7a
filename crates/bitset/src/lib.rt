//! Sets of small numbers, as bits of a number, as cells of 64 bits, and relations between such numbers, as rows of bits.

#![tactic(auto)]

ghost use Rattle.std.specs.Prelude.{◌≡◌, ℕ, ◌^◌, ◌<◌, ◌≤◌, true, false, ◌⊎◌, ◌↔◌, bit_or};
ghost use Rattle.bitset.specs.Bits.{Has};

use bits::Bits;

pub mod bits;
pub mod cells;
pub mod choosing;
pub mod growing;
pub mod rows;

// Whether x is in the set.
pub fn contains<S: Bits>(set: S, x: usize) -> bool
    ensures yes { result ≡ true → Has (S.number set) x }
    ensures no { result ≡ false → ¬ Has (S.number set) x }
{
    let wide = set.widened();
    x < 64 && (wide >> x) & 1 == 1
}

// The set with x in it.
pub fn with<S: Bits>(set: S, x: usize) -> S
    requires { x < S.width }
    ensures holds { (y : ℕ) → Has (S.number result) y ↔ (Has (S.number set) y ⊎ (y ≡ x)) }
    ensures grows { S.number set ≤ S.number result }
    ensures bits { S.number result ≡ bit_or (S.number set) (2 ^ x) }
{
    S::narrowed(set.widened() | (1 << x))
}
