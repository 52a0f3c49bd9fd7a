ghost use Rattle.std.specs.Prelude.{◌≡◌, ℕ, ◌^◌, ◌<◌, ◌≤◌, true, false};
ghost use Rattle.bitset.specs.Bits.{Has};

use crate::bits::Bits;
use crate::with;
use std::ops::Range;

// The set of the numbers of the range that pass the test.
pub fn chosen<S: Bits, F: Fn(usize) -> bool>(numbers: Range<usize>, test: F) -> S
    requires fits { numbers.end ≤ S.width }
    requires callable { (x : ℕ) → numbers.start ≤ x → x < numbers.end → F.pre test x }
    ensures passed { (x : ℕ) → Has (S.number result) x → (numbers.start ≤ x) × (x < numbers.end) × F.post test x true }
    ensures failed { (x : ℕ) → numbers.start ≤ x → x < numbers.end → ¬ Has (S.number result) x → F.post test x false }
{
    let mut set = S::narrowed(0);
    for x in numbers {
        if test(x) {
            set = with(set, x);
        }
    }
    set
}
