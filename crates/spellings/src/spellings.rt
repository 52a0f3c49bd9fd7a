ghost use Rattle.std.specs.Prelude.{◌≡◌, ℕ, ◌≤◌, length};
ghost use Rattle.spellings.specs.Stored.{Distinct};

use syntax::spelling::Spelling;

mod methods;

// The spellings of the kinds from 16 on, in order of declaration, at most 32. (An array with a count: this is `Copy`, which the
// kit's `ArrayVec` is not.)
#[derive(Clone, Copy)]
pub struct Spellings {
    words: [Spelling; 32],
    count: usize,
    ghost room: { length words ≡ 32 },
    ghost few: { count ≤ 32 },
    ghost once: { Distinct words count },
}
