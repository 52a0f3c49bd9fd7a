ghost use Rattle.std.specs.Prelude.{◌≡◌, ◌+◌, ◌<◌, ◌≤◌, true, false, MatchOption};
ghost use Rattle.tables.specs.Meaning.{first_of};
ghost use Rattle.listing.specs.Asked.{tables_in, symbol_in, IsNode, Fits, CanBe, FirstEnd, NoEnd, NoChild, FirstChoice, NoChoice, Begun, Opens, InRow, RowIs};

use super::Slot;
use crate::node::Node;
use bitset::cells::is_marked;
use bitset::choosing::chosen;
use bitset::contains;
use chart::items::has;

impl<'a> Slot<'a> {
    // The number of the place, counted over all productions, if a chart has it. (`list` asks nothing of the tables' first places: a
    // place that is out of range fits nothing and is never reached.)
    fn number(&self) -> Option<usize>
        ensures { MatchOption result (128 ≤ first_of (tables_in self.now.node.sources) self.now.node.production + self.now.place)
            (λ n. (n ≡ first_of (tables_in self.now.node.sources) self.now.node.production + self.now.place) × (n < 128)) }
    {
        let number = self.node.sources.tables.first[self.node.production] as usize + self.place;
        (number < 128).then_some(number)
    }

    // The symbol at the place.
    pub(crate) fn symbol(&self) -> u8
        ensures { result ≡ symbol_in self.now.node.sources self.now.node.production self.now.place }
    {
        self.node.right()[self.place]
    }

    // Whether by the tables the production q may stand at the place. (That q is a production's number stands here, in the contracts
    // below and at `Sources::root_of`: a number that held its sources would have to be shown to be one of these sources'.)
    fn fits(&self, q: usize) -> bool
        requires { q < (tables_in self.now.node.sources).count }
        ensures yes { result ≡ true → Fits self.now.node.sources self.now.node.production self.now.place q }
        ensures no { result ≡ false → ¬ Fits self.now.node.sources self.now.node.production self.now.place q }
    {
        self.number().is_some_and(|number| is_marked(&self.node.sources.tables.waits, q, number))
    }

    // The node of the production q from `start` to `end`, if the chart has it whole, it ends where the symbols behind
    // the place can begin, and it weighs less than the node.
    fn child(&self, q: usize, start: usize, end: usize) -> Option<Node<'a>>
        requires { (q < (tables_in self.now.node.sources).count) × ((start ≤ end) × (end ≤ self.now.node.end)) }
        ensures { MatchOption result (¬ CanBe self.now.node self.now.next q start end)
            (λ n. IsNode n self.now.node.sources q start × (n.end ≡ end) × CanBe self.now.node self.now.next q start end) }
    {
        let child = Node {
            sources: self.node.sources,
            production: q,
            start,
            end,
        };
        // (`% 64`, which `end` is below: so the test asks no more than the one bit)
        let can_be = contains(self.next, end % 64)
            && child.is_whole()
            && child.weight() < self.node.weight();
        can_be.then_some(child)
    }

    // The node of the production q from `start` on, of the smallest end that it can have.
    fn first_end(&self, q: usize, start: usize) -> Option<Node<'a>>
        requires { q < (tables_in self.now.node.sources).count }
        ensures { MatchOption result (NoEnd self.now.node start self.now.next q)
            (λ n. IsNode n self.now.node.sources q start × FirstEnd self.now.node start self.now.next q n.end) }
    {
        // Not `..=`: of a run over a closed range a proof would have to know besides that the range is not used up.
        (start..self.node.end + 1).find_map(|end| self.child(q, start, end))
    }

    // The child of the production q from `start` on, of the smallest end.
    fn child_of(&self, q: usize, start: usize) -> Option<Node<'a>>
        requires { q < (tables_in self.now.node.sources).count }
        ensures { MatchOption result (NoChild self.now.node self.now.place start self.now.next q)
            (λ n. IsNode n self.now.node.sources q start × Fits self.now.node.sources self.now.node.production self.now.place q
            × FirstEnd self.now.node start self.now.next q n.end) }
    {
        if self.fits(q) {
            self.first_end(q, start)
        } else {
            None
        }
    }

    // The child from `start` on, of the smallest production, and for it of the smallest end.
    pub(crate) fn next_child(&self, start: usize) -> Option<Node<'a>>
        ensures { MatchOption result (NoChoice self.now.node self.now.place start self.now.next)
            (λ n. IsNode n self.now.node.sources n.production start × FirstChoice self.now.node self.now.place start self.now.next n.production n.end) }
    {
        (0..self.node.sources.tables.count).find_map(|q| self.child_of(q, start))
    }

    // Whether the symbol at the place can stand from `start` on.
    fn opens(&self, start: usize) -> bool
        ensures yes { result ≡ true → Opens self.now.node self.now.place start self.now.next }
        ensures no { result ≡ false → ¬ Opens self.now.node self.now.place start self.now.next }
    {
        let symbol = self.symbol();
        if symbol < 16 {
            return self.next_child(start).is_some();
        }
        start < self.node.end
            && self.node.sources.words[start] == symbol
            && contains(self.next, start + 1)
    }

    // Whether the chart has the symbols before the place over the words from the node's start to `end`.
    fn is_reached(&self, end: usize) -> bool
        requires { end ≤ 48 }
        ensures yes { result ≡ true → Begun self.now.node.sources self.now.node.production self.now.place self.now.node.start end }
        ensures no { result ≡ false → ¬ Begun self.now.node.sources self.now.node.production self.now.place self.now.node.start end }
    {
        let node = self.node;
        self.number()
            .is_some_and(|number| has(node.sources.cells, node.start, end, number))
    }

    // Whether the position is in the row of the place.
    fn in_row(&self, position: usize) -> bool
        requires { (self.now.node.start ≤ position) × (position ≤ self.now.node.end) }
        ensures yes { result ≡ true → InRow self.now.node self.now.place self.now.next position }
        ensures no { result ≡ false → ¬ InRow self.now.node self.now.place self.now.next position }
    {
        self.is_reached(position) && self.opens(position)
    }

    // The row of the place: the positions where the symbols from there on can begin.
    pub(crate) fn row(&self) -> u64
        ensures { RowIs self.now.node self.now.place self.now.next result }
    {
        chosen(
            self.node.start..self.node.end + 1,
            |position| self.in_row(position),
        )
    }
}
