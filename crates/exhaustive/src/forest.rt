use crate::book::Book;
use crate::position::{Position, Span};
use crate::trees::Trees;
use std::alloc::{AllocError, Global};
use std::collections::HashMap;

mod counting;

// What is known already of the trees of each production over one span. Productions go by their numbers, from 1 to 32.
type Known = [Option<Trees>; 33];

// The words of a line, by their kinds, and what is known already over each span of them, by the book that says what they
// mean.
#[derive(Drop)]
pub struct Forest<'b> {
    pub book: &'b Book,
    words: Vec<u8>,
    known: HashMap<Span, Known>,
}

impl<'b> Forest<'b> {
    // No words.
    pub(crate) fn new(heap: Global, book: &'b Book) -> Forest<'b> {
        Forest {
            book,
            words: Vec::new(heap),
            known: HashMap::new(heap),
        }
    }

    // Adds a word of a kind.
    pub(crate) fn push(&mut self, kind: u8) -> Result<(), AllocError> {
        self.words.push(kind)?;
        Ok(())
    }

    // The span of all words.
    pub(crate) fn span(&self) -> Span {
        Span {
            from: 0,
            to: self.words.len(),
        }
    }

    // Whether the word at the place is of the kind.
    pub(crate) fn has(&self, place: usize, kind: u8) -> bool {
        self.words.get(place).is_some_and(|word| *word == kind)
    }
}
