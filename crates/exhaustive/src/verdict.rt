use crate::book::Book;
use crate::fault::{LineError, Refusal};
use crate::forest::Forest;
use crate::prefixes::some_begins;
use crate::trees::Trees;
use crate::words::{Words, kind_of};
use std::alloc::Global;

// The most bytes of a line, the most words of one, and the most entries of a table of scores.
const LINE_BYTES: usize = 16384;

const LINE_WORDS: usize = 48;

const TABLE_ENTRIES: usize = 8000;

// Puts a word of a kind, which stands at the place.
fn put_word(heap: Global, forest: &mut Forest, kind: u8, place: usize) -> Result<(), LineError> {
    if forest.span().to >= LINE_WORDS {
        return Err(LineError::refused(Refusal::LineFull, place));
    }
    forest.push(kind)?;
    if some_begins(heap, forest)? {
        return Ok(());
    }
    Err(LineError::refused(Refusal::NothingBegins, place))
}

// The trees of the words, which are those of a line of this length.
fn trees_of_words(forest: &mut Forest, length: usize) -> Result<Trees, LineError> {
    let trees = forest.trees()?;
    if trees.is_none() {
        return Err(LineError::refused(Refusal::NoSentence, length));
    }
    let side = forest.span().to.saturating_add(1);
    let entries = side
        .saturating_mul(side)
        .saturating_mul(forest.book.place_count());
    if entries > TABLE_ENTRIES {
        return Err(LineError::refused(Refusal::ShortTable, 0));
    }
    Ok(trees)
}

// The trees of a line.
pub(crate) fn verdict_of(heap: Global, book: &Book, line: &[u8]) -> Result<Trees, LineError> {
    if line.len() > LINE_BYTES {
        return Err(LineError::refused(Refusal::UnknownWord, LINE_BYTES));
    }
    let mut forest = Forest::new(heap, book);
    for (word, place) in Words::of(line) {
        let unknown = LineError::refused(Refusal::UnknownWord, place);
        let kind = kind_of(book.spellings(), word).ok_or(unknown)?;
        put_word(heap, &mut forest, kind, place)?;
    }
    trees_of_words(&mut forest, line.len())
}
