ghost use Rattle.std.specs.Prelude.{◌≡◌, ◌+◌, ◌<◌, ◌≤◌, true, false, length};
ghost use Rattle.listing.specs.Asked.{right_in, Whole, rank_in, weight as weight_of, RowsFrom};

use super::Node;
use crate::slot::Slot;
use bitset::with;
use chart::items::has;

impl<'a> Node<'a> {
    // The right side of its production.
    pub(crate) fn right(&self) -> &'a [u8]
        ensures is { result.now ≡ right_in self.now.sources self.now.production }
        ensures short { length result.now ≤ 6 }
    {
        self.sources.productions[self.production].right()
    }

    // Whether the chart has it: the complete item of its production over its words.
    pub(crate) fn is_whole(&self) -> bool
        ensures yes { result ≡ true → Whole self.now.sources self.now.production self.now.start self.now.end }
        ensures no { result ≡ false → ¬ Whole self.now.sources self.now.production self.now.start self.now.end }
    {
        let last = self.sources.tables.last[self.production] as usize;
        let cells = self.sources.cells;
        has(cells, self.start, self.end, last)
    }

    // The rank of the left side of its production, at most 16. (`list` asks nothing of left sides and ranks: a left side that is out
    // of range has rank 0.)
    fn rank(&self) -> usize
        ensures { result ≡ rank_in self.now.sources self.now.production }
    {
        let left = usize::from(self.sources.productions[self.production].left());
        self.sources
            .tables
            .ranks
            .get(left)
            .map_or(0, |rank| usize::from(*rank).min(16))
    }

    // What falls from a node to its children: the number of its words, then its rank.
    pub(crate) fn weight(&self) -> usize
        ensures { result ≡ weight_of self.now.sources self.now.production self.now.start self.now.end }
    {
        (self.end - self.start) * 17 + self.rank()
    }

    // The rows of the node: for each position of its right side where the symbols from there on can begin.
    pub(crate) fn rows(&self) -> [u64; 7]
        ensures { RowsFrom self.now 0 result }
    {
        let mut rows = [0; 7];
        let size = self.right().len();
        rows[size] = with(0u64, self.end);
        // By index: each row is made from the next one.
        for place in (0..size).rev() {
            let slot = Slot {
                node: *self,
                place,
                next: rows[place + 1],
            };
            rows[place] = slot.row();
        }
        rows
    }
}
