ghost use Rattle.std.specs.Prelude.{◌≡◌, ◌+◌, ◌*◌, ◌<◌, ◌≤◌, true, false, length};
ghost use Rattle.bitset.specs.Bits.{Has};
ghost use Rattle.derivations.specs.Steps.{Adds};
ghost use Rattle.tables.specs.Sets.{Marked};

use bitset::cells::mark;
use bitset::contains;

// Puts the place d into the sets of all these numbers.
pub(crate) fn mark_each(cells: &mut [u64; 64], numbers: u32, d: usize)
    requires { d < 128 }
    ensures { Adds (Marked cells.old) (Marked cells.new) (λ x e. Has numbers x × (e ≡ d)) }
{
    for x in 0..32 {
        if contains(numbers, x) {
            mark(cells, x, d);
        }
    }
}
