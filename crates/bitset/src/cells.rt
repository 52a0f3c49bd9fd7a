//! Sets of numbers below 128 in cells of 64 bits: the set of number x has the cells 2x and 2x + 1.

ghost use Rattle.std.specs.Prelude.{◌≡◌, ◌+◌, ◌*◌, ◌/◌, ◌%◌, ◌^◌, ◌<◌, true, false, length, not, nat_eq, bit_or, slice_index, slice_set};
ghost use Rattle.bitset.specs.Cells.{Marked};
ghost use Rattle.bitset.specs.Steps.{Adds};

use crate::contains;

// Adds bits to the cell `at`, and tells whether that changed it.
pub fn join(cells: &mut [u64], at: usize, bits: u64) -> bool
    requires { at < length cells.old }
    ensures same { cells.new ≡ slice_set cells.old at (bit_or (slice_index cells.old at) bits) }
    ensures value { result ≡ not (nat_eq (bit_or (slice_index cells.old at) bits) (slice_index cells.old at)) }
{
    let old = cells[at];
    let new = old | bits;
    cells[at] = new;
    new != old
}

// Puts d into the set of number x, and tells whether it was not there before.
pub fn mark(cells: &mut [u64], x: usize, d: usize) -> bool
    requires { (2 * x + 1 < length cells.old) × (d < 128) }
    ensures adds { Adds (Marked cells.old) (Marked cells.new) (λ y e. (y ≡ x) × (e ≡ d)) }
    ensures yes { result ≡ true → ¬ Marked cells.old x d }
    ensures no { result ≡ false → cells.new ≡ cells.old }
    ensures same { cells.new
        ≡ slice_set cells.old (2 * x + d / 64) (bit_or (slice_index cells.old (2 * x + d / 64)) (2 ^ (d % 64))) }
{
    join(cells, 2 * x + d / 64, 1 << (d % 64))
}

// Whether d is in the set of number x.
pub fn is_marked(cells: &[u64], x: usize, d: usize) -> bool
    requires { (2 * x + 1 < length cells.now) × (d < 128) }
    ensures yes { result ≡ true → Marked cells.now x d }
    ensures no { result ≡ false → ¬ Marked cells.now x d }
{
    contains(cells[2 * x + d / 64], d % 64)
}
