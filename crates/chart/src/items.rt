//! Items in the cells of a chart, by origin, end and place, and sets of places.
//!
//! Origins and ends are numbers here, as in the public contract of `has`, so their bounds stand in each contract.

ghost use Rattle.std.specs.Prelude.{◌≡◌, ℕ, ◌+◌, ◌*◌, ◌<◌, ◌≤◌, true, false, ◌⊎◌, ◌↔◌, length};
ghost use Rattle.chart.specs.Chart.{cell_of, Marked};
ghost use Rattle.chart.specs.Cells.{IsSet, Added, Joined, Advanced, Cleared, Gathered, Meets};

use crate::Cells;
use bitset::cells::{is_marked, join, mark};

// A set of places: the place d is bit d.
pub(crate) type Places = u128;

// The number of the set of the items with origin i and end j.
fn set_of(i: usize, j: usize) -> usize
    requires { (i ≤ 48) × (j ≤ 48) }
    ensures { result ≡ 49 * j + i }
{
    49 * j + i
}

// The set of number x in the cells.
pub(crate) fn places_of(cells: &[u64], x: usize) -> Places
    requires { 2 * x + 1 < length cells.now }
    ensures { IsSet result cells.now x }
{
    u128::from(cells[2 * x]) | (u128::from(cells[2 * x + 1]) << 64)
}

// The places of the items with origin i and end j.
pub(crate) fn places_at(cells: &Cells, i: usize, j: usize) -> Places
    requires { (i ≤ 48) × (j ≤ 48) }
    ensures { IsSet result cells.now (49 * j + i) }
{
    places_of(cells, set_of(i, j))
}

// Adds the places to the set of number x in the cells, and tells whether that changed them.
fn join_places(cells: &mut Cells, x: usize, places: Places) -> bool
    requires { x < 2401 }
    ensures { Joined (2 * x) places cells.old cells.new result }
{
    let one = join(cells, 2 * x, (places & u128::from(u64::MAX)) as u64);
    let two = join(cells, 2 * x + 1, (places >> 64) as u64);
    one | two
}

// Whether the item with origin i, end j and the place d is in the chart.
pub fn has(cells: &[u64], i: usize, j: usize, d: usize) -> bool
    requires long { 4802 ≤ length cells.now }
    requires inside { (i ≤ 48) × ((j ≤ 48) × (d < 128)) }
    ensures yes { result ≡ true → Marked cells.now i j d }
    ensures no { result ≡ false → ¬ Marked cells.now i j d }
{
    is_marked(cells, set_of(i, j), d)
}

// Adds the item with origin i, end j and the place d, and tells whether that changed the cells.
pub(crate) fn add(cells: &mut Cells, i: usize, j: usize, d: usize) -> bool
    requires inside { (i ≤ 48) × ((j ≤ 48) × (d < 128)) }
    ensures { Added (cell_of i j) d cells.old cells.new result }
{
    mark(cells, set_of(i, j), d)
}

// Moves the dot over one symbol: for each item with origin i and end s whose place is in the mask, adds the item with end j
// and the next place. Tells whether that changed the cells.
pub(crate) fn advance(cells: &mut Cells, i: usize, s: usize, j: usize, mask: Places) -> bool
    requires inside { (i ≤ 48) × ((s ≤ 48) × (j ≤ 48)) }
    ensures { Advanced (cell_of i j) (cell_of i s) mask cells.old cells.new result }
{
    let moved = places_at(cells, i, s) & mask;
    moved != 0 && join_places(cells, set_of(i, j), moved << 1)
}

// The places of the items of column j, of any origin. (Not `..=`: each step over a closed range tests besides whether it is used up, and
// this loop is most of what a refused word costs.)
pub(crate) fn gather(cells: &Cells, j: usize) -> Places
    requires inside { j ≤ 48 }
    ensures { Gathered cells.now j (j + 1) result }
{
    (0..j + 1).fold(0, |all, i| all | places_at(cells, i, j))
}

// Empties the cells from `start` to `end`.
pub(crate) fn clear(cells: &mut Cells, start: usize, end: usize)
    requires { (start ≤ end) × (end ≤ 4802) }
    ensures { Cleared start end cells.old cells.new }
{
    cells[start..end].fill(0);
}
