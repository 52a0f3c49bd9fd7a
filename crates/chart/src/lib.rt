//! The Earley chart of a grammar, as sets of bits in cells that the caller lends.
//!
//! The item with origin i, end j and the place d is bit d % 64 of the cell 2 * (49 * j + i) + d / 64, and the bit is 1
//! exactly if the item is derivable from the words. The first 4802 cells are the chart, and no other cell is written: the
//! steps work on the array (`Cells`) that the public functions take out of the lent cells. Kinds are numbered from 0 here:
//! the kind k is the symbol 16 + k. (That there are so many is asked of the caller, so that there always is an array to take.)

#![tactic(auto)]

ghost use Rattle.std.specs.Prelude.{◌≡◌, ℕ, ◌+◌, ◌*◌, ◌<◌, ◌≤◌, true, false, ◌↔◌, List, [], ◌∷◌, ◌++◌, length};
ghost use Rattle.bitset.specs.Bits.{Has};
ghost use Rattle.grammar.specs.Grammar.{Grammar};
ghost use Rattle.tables.specs.declared.tables.Tables.{Tables};
ghost use Rattle.tables.specs.Meaning.{Means, first_of};
ghost use Rattle.theory.specs.Claims.{Awaited, Accepted};
ghost use Rattle.chart.specs.Chart.{Marked, Charted, WhereCharted, RestKept};
ghost use Rattle.chart.specs.Columns.{Moves, Scanned, Ends};

mod column;
pub mod items;

use bitset::choosing::chosen;
use bitset::contains;
use column::closing::close_column;
use items::{add, advance, clear, gather, has, places_of};
use tables::tables::Tables;

// How many cells a chart has: two for each origin and each end.
pub const CELL_COUNT: usize = 4802;

pub type Cells = [u64; CELL_COUNT];

// Adds the first item of the production p, if p is a live production of the start symbol.
fn add_start(t: &Tables, cells: &mut Cells, p: usize) -> bool
    requires inside { p < t.now.count }
    ensures moved { Moves t.now 0 cells.old cells.new result }
    ensures makes { Has t.now.starts p → Marked cells.new 0 0 (first_of t.now p) }
{
    contains(t.starts, p) && add(cells, 0, 0, usize::from(t.first[p]))
}

// Makes the cells the chart of no words.
pub fn open_chart(t: &Tables, cells: &mut [u64])
    requires { 4802 ≤ length cells.old }
    ensures charted { (g : Grammar) → Means t.now g → Charted t.now g [] cells.new }
    ensures rest { RestKept cells.old cells.new }
{
    let Some(cells) = cells.first_chunk_mut::<CELL_COUNT>() else {
        return;
    };
    clear(cells, 0, CELL_COUNT);
    for p in 0..t.count {
        add_start(t, cells, p);
    }
    close_column(t, cells, 0);
}

// Moves the items of column j that wait for the kind into column j + 1. (A loop of its own, as in `open_chart`: whether a step changed
// the cells is not asked, as it is in a column's `pass`.)
fn scan(t: &Tables, cells: &mut Cells, j: usize, kind: usize)
    requires inside { (j < 48) × (kind < 32) }
    ensures { Scanned t.now j kind (j + 1) cells.old cells.new }
{
    let waiting = places_of(&t.before, kind);
    for i in 0..=j {
        advance(cells, i, j, j + 1, waiting);
    }
}

// Adds a word of the kind to the chart of n words, if an item waits for the kind. Else the cells stay as they are.
pub fn put(t: &Tables, cells: &mut [u64], n: usize, kind: usize) -> bool
    requires long { 4802 ≤ length cells.old }
    requires inside { (n < 48) × (kind < 32) }
    ensures taken { result ≡ true →
        WhereCharted t.now n cells.old
        (λ g ws. Awaited g ws (16 + kind) × Charted t.now g (ws ++ (16 + kind) ∷ []) cells.new) }
    ensures refused { result ≡ false →
        (cells.new ≡ cells.old)
        × WhereCharted t.now n cells.old (λ g ws. ¬ Awaited g ws (16 + kind)) }
    ensures rest { RestKept cells.old cells.new }
{
    let Some(cells) = cells.first_chunk_mut::<CELL_COUNT>() else {
        return false;
    };
    if gather(cells, n) & places_of(&t.before, kind) == 0 {
        return false;
    }
    scan(t, cells, n, kind);
    close_column(t, cells, n + 1);
    true
}

// Takes the last of n words out of the chart: empties column n, which is 98 cells.
pub fn take_back(cells: &mut [u64], n: usize)
    requires long { 4802 ≤ length cells.old }
    requires inside { n ≤ 48 }
    ensures charted { (t : Tables) (g : Grammar) (ws : List ℕ) (a : ℕ) →
        Means t g →
        length ws + 1 ≡ n →
        Charted t g (ws ++ a ∷ []) cells.old →
        Charted t g ws cells.new }
    ensures rest { RestKept cells.old cells.new }
{
    let Some(cells) = cells.first_chunk_mut::<CELL_COUNT>() else {
        return;
    };
    clear(cells, 98 * n, 98 * (n + 1));
}

// Whether the production q, of the start symbol, has a complete item that spans the n words.
fn spans(t: &Tables, cells: &Cells, n: usize, q: usize) -> bool
    requires inside { (n ≤ 48) × (q < t.now.count) }
    ensures yes { result ≡ true → Ends t.now n cells.now q }
    ensures no { result ≡ false → ¬ Ends t.now n cells.now q }
{
    contains(t.starts, q) && has(cells, 0, n, usize::from(t.last[q]))
}

// Whether the n words of the chart are a sentence, on the chart's array.
fn is_accepted(t: &Tables, cells: &Cells, n: usize) -> bool
    requires inside { n ≤ 48 }
    ensures yes { result ≡ true → WhereCharted t.now n cells.now Accepted }
    ensures no { result ≡ false → WhereCharted t.now n cells.now (λ g ws. ¬ Accepted g ws) }
{
    (0..t.count).any(|q| spans(t, cells, n, q))
}

// Whether the n words of the chart are a sentence.
pub fn accepts(t: &Tables, cells: &[u64], n: usize) -> bool
    requires long { 4802 ≤ length cells.now }
    requires inside { n ≤ 48 }
    ensures yes { result ≡ true → WhereCharted t.now n cells.now Accepted }
    ensures no { result ≡ false → WhereCharted t.now n cells.now (λ g ws. ¬ Accepted g ws) }
{
    let Some(cells) = cells.first_chunk::<CELL_COUNT>() else {
        return false;
    };
    is_accepted(t, cells, n)
}

// The set of the kinds that an item behind the n words of the chart waits for, on the chart's array.
fn kinds_behind(t: &Tables, cells: &Cells, n: usize) -> u32
    requires inside { n ≤ 48 }
    ensures { WhereCharted t.now n cells.now
        (λ g ws. (b : ℕ) → b < 32 → Has result b ↔ Awaited g ws (16 + b)) }
{
    let places = gather(cells, n);
    chosen(0..32, |kind| places & places_of(&t.before, kind) != 0)
}

// The set of the kinds that an item behind the n words of the chart waits for.
pub fn expected_kinds(t: &Tables, cells: &[u64], n: usize) -> u32
    requires long { 4802 ≤ length cells.now }
    requires inside { n ≤ 48 }
    ensures { WhereCharted t.now n cells.now
        (λ g ws. (b : ℕ) → b < 32 → Has result b ↔ Awaited g ws (16 + b)) }
{
    let Some(cells) = cells.first_chunk::<CELL_COUNT>() else {
        return 0;
    };
    kinds_behind(t, cells, n)
}
