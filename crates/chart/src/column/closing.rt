//! Prediction and completion in a column, until nothing changes.
//!
//! Each call tells whether it changed the cells. They are a parameter, since a struct that holds lent cells would have to say in
//! every contract that it keeps its other fields.

ghost use Rattle.std.specs.Prelude.{◌≡◌, ℕ, ◌+◌, ◌<◌, ◌≤◌, Bool, false};
ghost use Rattle.tables.specs.Meaning.{last_of};
ghost use Rattle.chart.specs.Chart.{Marked};
ghost use Rattle.chart.specs.Cells.{Seen};
ghost use Rattle.chart.specs.Columns.{Moves, Moved, Since, Quiet, AllMoved, ProductionDone, OriginDone, Completed, Begun, Predicted, Closes};

use super::Column;
use crate::Cells;
use crate::items::{Places, add, advance, gather, has, places_at, places_of};
use bitset::contains;
use tables::tables::Tables;

impl<'t> Column<'t> {
    // Makes the steps of all numbers below the count, and tells whether one of them changed the cells. (`any` would stop at the
    // first change. Of lent cells that a closure of `fold` changes, a proof knows nothing.)
    fn pass<F: Fn(&mut Cells, usize) -> bool>(
        &self,
        cells: &mut Cells,
        count: usize,
        step: F,
    ) -> bool
        requires callable { (a : _) (k : ℕ) → Since self.now cells.old a.now → k < count → F.pre step a k }
        requires moves { (a : _) (k : ℕ) (r : Bool) (b : _) →
            Since self.now cells.old a.now → k < count → F.post step a k r b → Moved self.now a.now b.now r }
        ensures moved { Moved self.now cells.old cells.new result }
        ensures done { result ≡ false → (k : ℕ) → k < count → Quiet (F.post step) cells.new k }
    {
        let mut changed = false;
        for k in 0..count {
            changed |= step(cells, k);
        }
        changed
    }

    // Completes the production q, which has a complete item from s to the end: the items that wait for it at s move on to the end.
    fn complete(&self, cells: &mut Cells, s: usize, q: usize) -> bool
        requires inside { (s ≤ self.now.end) × (q < self.now.tables.now.count) }
        requires whole { Marked cells.old s self.now.end (last_of self.now.tables.now q) }
        ensures moved { Moved self.now cells.old cells.new result }
        ensures done { result ≡ false → AllMoved self.now s q cells.new }
    {
        let waiting = places_of(&self.tables.waits, q);
        self.pass(
            cells,
            s + 1,
            |cells, i| advance(cells, i, s, self.end, waiting),
        )
    }

    // Completes the production q, if it has a complete item from s to the end.
    fn complete_if_whole(&self, cells: &mut Cells, s: usize, q: usize) -> bool
        requires inside { (s ≤ self.now.end) × (q < self.now.tables.now.count) }
        ensures moved { Moved self.now cells.old cells.new result }
        ensures done { result ≡ false → ProductionDone self.now s cells.new q }
    {
        has(cells, s, self.end, usize::from(self.tables.last[q])) && self.complete(cells, s, q)
    }

    // Completes the productions that have a complete item from s to the end.
    fn complete_origin(&self, cells: &mut Cells, s: usize) -> bool
        requires inside { s ≤ self.now.end }
        ensures moved { Moved self.now cells.old cells.new result }
        ensures done { result ≡ false → OriginDone self.now cells.new s }
    {
        if places_at(cells, s, self.end) == 0 {
            return false;
        }
        self.pass(
            cells,
            self.tables.count,
            |cells, q| self.complete_if_whole(cells, s, q),
        )
    }

    // Completes every production that has a complete item in the column, the latest origins first.
    fn complete_column(&self, cells: &mut Cells) -> bool
        ensures moved { Moved self.now cells.old cells.new result }
        ensures done { result ≡ false → Completed self.now cells.new }
    {
        self.pass(
            cells,
            self.end + 1,
            |cells, back| self.complete_origin(cells, self.end - back),
        )
    }

    // Predicts the production q at the end, if it is live and one of the places waits for it.
    fn predict(&self, cells: &mut Cells, places: Places, q: usize) -> bool
        requires inside { q < self.now.tables.now.count }
        requires seen { Seen cells.old self.now.end (self.now.end + 1) places }
        ensures moved { Moved self.now cells.old cells.new result }
        ensures done { Begun self.now places cells.new q }
    {
        contains(self.tables.live, q)
            && places & places_of(&self.tables.waits, q) != 0
            && add(cells, self.end, self.end, usize::from(self.tables.first[q]))
    }

    // Predicts every live production that an item of the column waits for.
    fn predict_column(&self, cells: &mut Cells) -> bool
        ensures moved { Moved self.now cells.old cells.new result }
        ensures done { result ≡ false → Predicted self.now cells.new }
    {
        let places = gather(cells, self.end);
        self.pass(
            cells,
            self.tables.count,
            |cells, q| self.predict(cells, places, q),
        )
    }

    // Completes and predicts in the column once.
    fn step(&self, cells: &mut Cells) -> bool
        ensures moved { Moved self.now cells.old cells.new result }
        ensures done { result ≡ false → Completed self.now cells.new × Predicted self.now cells.new }
    {
        let completed = self.complete_column(cells);
        let predicted = self.predict_column(cells);
        completed | predicted
    }
}

// Completes and predicts in the column until nothing changes. (No call of bitset's `grown`: the step changes lent cells, and that
// function steps a number.)
pub(crate) fn close_column(tables: &Tables, cells: &mut Cells, end: usize)
    requires inside { end ≤ 48 }
    ensures moved { (r : Bool) × Moves tables.now end cells.old cells.new r }
    ensures closed { Closes tables.now end cells.old cells.new }
{
    let column = Column { tables, end };
    while column.step(cells) {}
}
