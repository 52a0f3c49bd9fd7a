ghost use Rattle.std.specs.Prelude.{◌<◌};

use super::Forest;
use crate::position::{Position, Span};
use crate::trees::Trees;
use std::alloc::AllocError;

// How many steps the count of trees may go down. Where no nonterminal leads to itself, a way down a tree of n words has
// at most 16 × (n + 1) nodes: its spans have at most n + 1 lengths, and on spans of one length each nonterminal stands
// at most once. At a node the count passes at most six symbols before it goes down. A line has at most 48 words.
const STEPS: u32 = 7 * 16 * 49;

// (position, span and steps go apart: each call in the cycle changes one of them at least, and would rebuild a struct of
// the three)
impl<'b> Forest<'b> {
    // The trees of the productions over the span; none where those of one of them are not known. (all by one look into the
    // map, since nearly every question is asked again)
    fn known_trees(&self, productions: &[u8], span: Span) -> Option<Trees> {
        let known = self.known.get(&span)?;
        productions.iter().try_fold(Trees::NONE, |all, production| {
            let trees = known.get(usize::from(*production)).copied().flatten()?;
            Some(all.or(trees))
        })
    }

    // Keeps the trees of the production over the span. (Apart, so that a new entry of the map takes no room in the frames of the
    // recursion.)
    #[inline(never)]
    fn keep(&mut self, production: u8, span: Span, trees: Trees) -> Result<(), AllocError> {
        let known = self.known.entry(span)?.or_insert([None; 33]);
        if let Some(slot) = known.get_mut(usize::from(production)) {
            *slot = Some(trees);
        }
        Ok(())
    }

    // The trees of the production over the span.
    #[cycle(trees)]
    fn trees_of(&mut self, production: u8, span: Span, steps: u32) -> Result<Trees, AllocError> {
        if let Some(trees) = self.known_trees(&[production], span) {
            return Ok(trees);
        }
        let trees = self.trees_from(Position::first(production), span, steps)?;
        self.keep(production, span, trees)?;
        Ok(trees)
    }

    // The trees of the productions over the span. (a loop, as below: each step may lack memory)
    #[cycle(trees)]
    fn trees_of_each(
        &mut self,
        productions: &[u8],
        span: Span,
        steps: u32,
    ) -> Result<Trees, AllocError> {
        if let Some(trees) = self.known_trees(productions, span) {
            return Ok(trees);
        }
        let mut all = Trees::NONE;
        for production in productions {
            all = all.or(self.trees_of(*production, span, steps)?);
        }
        Ok(all)
    }

    // The ways in which the nonterminal at the position and the symbols behind it stand over the span, at the price of
    // the production.
    #[cycle(trees)]
    fn trees_split(&mut self, at: Position, span: Span, steps: u32) -> Result<Trees, AllocError>
        requires { at.index < 6 }
    {
        let book = self.book;
        let mut all = Trees::NONE;
        let Some(fewest) = book.fewest_from(at.next()) else {
            return Ok(all);
        };
        let children = book.children(at);
        for middle in span.from..=span.to {
            // the symbols behind stand over no fewer words than that
            if fewest <= span.to - middle {
                let first = self.trees_of_each(children, span.ending(middle), steps)?;
                if !first.is_none() {
                    let rest = self.trees_from(at.next(), span.starting(middle), steps)?;
                    all = all.or(first.and(rest));
                }
            }
        }
        Ok(all)
    }

    // The ways in which the symbols at the position and behind it stand over the span, at the price of the production.
    #[cycle(trees)]
    fn trees_from(&mut self, at: Position, span: Span, steps: u32) -> Result<Trees, AllocError> {
        if steps == 0 {
            return Ok(Trees::NONE);
        }
        match self.book.symbol(at) {
            None if span.from == span.to => {
                let price = self.book.price(at.production);
                Ok(price.map_or(Trees::NONE, Trees::one))
            }
            None => Ok(Trees::NONE),
            Some(nonterminal) if nonterminal < 16 => self.trees_split(at, span, steps - 1),
            Some(kind) if span.from < span.to && self.has(span.from, kind) => {
                self.trees_from(at.next(), span.starting(span.from + 1), steps - 1)
            }
            Some(_) => Ok(Trees::NONE),
        }
    }

    // Whether there is a tree over the span that may stand at the position.
    pub(crate) fn can_stand(&mut self, at: Position, span: Span) -> Result<bool, AllocError> {
        let book = self.book;
        let trees = self.trees_of_each(book.children(at), span, STEPS)?;
        Ok(!trees.is_none())
    }

    // The trees of the grammar over the words.
    pub(crate) fn trees(&mut self) -> Result<Trees, AllocError> {
        let book = self.book;
        let span = self.span();
        self.trees_of_each(book.roots(), span, STEPS)
    }
}
