ghost use Rattle.std.specs.Prelude.{◌<◌};

use crate::forest::Forest;
use crate::position::{Position, Span};
use std::alloc::{AllocError, Global};
use std::collections::HashSet;

// How many steps the trial of trees may go down: it tries each of at most 32 productions at each of at most 49 places
// once, and passes at most six symbols before it goes down.
const STEPS: u32 = 7 * 32 * 49;

// The trial of trees that words begin: the words, and which production was tried at which place.
#[derive(Drop)]
struct Trial<'f, 'b> {
    forest: &'f mut Forest<'b>,
    tried: HashSet<(u8, usize)>,
}

// (position, span and steps go apart: each call in the cycle changes one of them at least, and would rebuild a struct of
// the three)
impl<'f, 'b> Trial<'f, 'b> {
    // Whether the words of the span begin the words of a tree of the production. Where the production is being tried at
    // this place, or was tried in vain, a second try finds nothing new.
    #[cycle(prefixes)]
    fn begins(&mut self, production: u8, span: Span, steps: u32) -> Result<bool, AllocError> {
        let is_new = self.tried.insert((production, span.from))?;
        Ok(is_new && self.begins_from(Position::first(production), span, steps)?)
    }

    // Whether the words of the span begin the words of a tree of one of the productions. (a loop, as below: each step may
    // lack memory)
    #[cycle(prefixes)]
    fn begins_any(
        &mut self,
        productions: &[u8],
        span: Span,
        steps: u32,
    ) -> Result<bool, AllocError> {
        for production in productions {
            if self.begins(*production, span, steps)? {
                return Ok(true);
            }
        }
        Ok(false)
    }

    // Whether the words of the span begin words that the nonterminal at the position and the symbols behind it may stand
    // over, with the words of a tree at the position first.
    #[cycle(prefixes)]
    fn begins_behind(&mut self, at: Position, span: Span, steps: u32) -> Result<bool, AllocError>
        requires { at.index < 6 }
    {
        for middle in span.from..=span.to {
            if self.forest.can_stand(at, span.ending(middle))?
                && self.begins_from(at.next(), span.starting(middle), steps)?
            {
                return Ok(true);
            }
        }
        Ok(false)
    }

    // Whether the words of the span begin words that the symbols at the position and behind it may stand over.
    #[cycle(prefixes)]
    fn begins_from(&mut self, at: Position, span: Span, steps: u32) -> Result<bool, AllocError> {
        let book = self.forest.book;
        if steps == 0 {
            return Ok(false);
        }
        if span.from >= span.to {
            return Ok(book.can_end(at));
        }
        match book.symbol(at) {
            // the words end inside the nonterminal, or behind it
            Some(nonterminal) if nonterminal < 16 => {
                Ok(
                    book.can_end(at.next()) && self.begins_any(book.children(at), span, steps - 1)?
                        || self.begins_behind(at, span, steps - 1)?,
                )
            }
            Some(kind) if self.forest.has(span.from, kind) => {
                self.begins_from(at.next(), span.starting(span.from + 1), steps - 1)
            }
            _ => Ok(false),
        }
    }
}

// Whether the words begin the words of a tree of the grammar.
pub(crate) fn some_begins(heap: Global, forest: &mut Forest) -> Result<bool, AllocError> {
    let book = forest.book;
    let span = forest.span();
    let mut trial = Trial {
        forest,
        tried: HashSet::new(heap),
    };
    trial.begins_any(book.roots(), span, STEPS)
}
