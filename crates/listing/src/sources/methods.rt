ghost use Rattle.std.specs.Prelude.{◌≡◌, ◌<◌, length, MatchOption};
ghost use Rattle.listing.specs.Asked.{tables_in, words_in, Root, FirstRoot, NoRoot};

use super::Sources;
use crate::node::Node;

impl<'a> Sources<'a> {
    // The node of the production over all the words, if it is the root of a tree by the chart. (That its number is a production's is
    // asked here as it is at `Slot::fits`.)
    fn root_of(&self, production: usize) -> Option<Node<'a>>
        requires { production < (tables_in self.now).count }
        ensures { MatchOption result (¬ Root self.now production)
            (λ n. (n.sources ≡ self.now) × (n.production ≡ production) × (n.start ≡ 0) × (n.end ≡ length (words_in self.now)) × Root self.now production) }
    {
        let root = Node {
            sources: *self,
            production,
            start: 0,
            end: self.words.len(),
        };
        let is_root = bitset::contains(self.tables.starts, production) && root.is_whole();
        is_root.then_some(root)
    }

    // The root of the smallest production.
    pub(crate) fn root(&self) -> Option<Node<'a>>
        ensures { MatchOption result (NoRoot self.now)
            (λ n. (n.sources ≡ self.now) × (n.start ≡ 0) × (n.end ≡ length (words_in self.now)) × FirstRoot self.now n.production) }
    {
        (0..self.tables.count).find_map(|production| self.root_of(production))
    }
}
