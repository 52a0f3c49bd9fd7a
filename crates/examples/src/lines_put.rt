use crate::readings::BOOK;
use draft::sealed::Grammar;
use files::spelled::SpelledDraft;
use grammar::refusals::LineRefusal::UnknownWord;
use grammar::refusals::ReadingRefusal::{LineFull, NothingBegins};
use grammar::refusals::Refusal;
use lines::fault::LineFault;
use lines::next::next_word;
use lines::put_line;
use lines::word::Word;
use reading::reading::Reading;
use spellings::spellings::Spellings;
use std::process::Abort;

// A grammar with the spellings of its kinds.
#[derive(Drop)]
struct Book {
    grammar: Grammar,
    spellings: Spellings,
}

fn sample(rt: &impl Abort) -> Book {
    let mut book = SpelledDraft::new();
    assert_eq!(rt; book.read(BOOK), Ok(1));
    let SpelledDraft { draft, spellings } = book;
    Book {
        grammar: draft.seal(),
        spellings,
    }
}

// What putting the line into a new reading answers.
fn put(book: &Book, line: &[u8]) -> Result<usize, LineFault> {
    let mut chart = [0u64; 4802];
    let mut reading = Reading::open(&book.grammar, &mut chart);
    put_line(&mut reading, &book.spellings, line)
}

fn unknown(place: usize) -> Result<usize, LineFault> {
    Err(LineFault {
        refusal: Refusal::Line(UnknownWord),
        place,
    })
}

#[test]
fn sample_lines(rt: HostRuntime) {
    let book = sample(&rt);
    assert_eq!(rt; put(&book, b"lamp and not wet or key"), Ok(6));
    assert_eq!(rt; put(&book, b"( lamp"), Ok(2));
    assert_eq!(rt; put(&book, b"(lamp)or key"), Ok(5));
    assert_eq!(rt; put(&book, b""), Ok(0));
    assert_eq!(rt;
        put(&book, b"lamp wet"),
        Err(LineFault {
            refusal: Refusal::Reading(NothingBegins),
            place: 5,
        })
    );
}

// No mark, no number and no byte outside 32 to 126 has a kind in the sample.
#[test]
fn unknown_words(rt: HostRuntime) {
    let book = sample(&rt);
    assert_eq!(rt; put(&book, b"lamp + wet"), unknown(5));
    assert_eq!(rt; put(&book, b"7"), unknown(0));
    assert_eq!(rt; put(&book, b" 3a"), unknown(1));
    assert_eq!(rt; put(&book, b"lamp\tand"), unknown(4));
    assert_eq!(rt; put(&book, b"lamp \xc3\xa9"), unknown(5));
    assert_eq!(rt; put(&book, b"lamp or\n"), unknown(7));
}

#[test]
fn long_lines(rt: HostRuntime) {
    let book = sample(&rt);
    assert_eq!(rt; put(&book, &[b' '; 16384]), Ok(0));
    assert_eq!(rt; put(&book, &[b' '; 16385]), unknown(16384));
    assert_eq!(rt; put(&book, &[b'('; 16385]), unknown(16384));
}

// Forty-eight brackets are taken; one more is refused as full, and one unknown word more as unknown.
#[test]
fn full_lines(rt: HostRuntime) {
    let book = sample(&rt);
    assert_eq!(rt; put(&book, &[b'('; 48]), Ok(48));
    assert_eq!(rt;
        put(&book, &[b'('; 49]),
        Err(LineFault {
            refusal: Refusal::Reading(LineFull),
            place: 48,
        })
    );
    let mut line = [b'('; 49];
    line[48] = b'+';
    assert_eq!(rt; put(&book, &line), unknown(48));
}

// The place of a word, and 1000 more for a number, 2000 for a mark and 3000 for a byte of no word.
fn sort_of(found: Option<(Word, usize)>) -> usize {
    match found {
        None => 9999,
        Some((Word::Name(_), place)) => place,
        Some((Word::Number(_), place)) => place.saturating_add(1000),
        Some((Word::Mark(_), place)) => place.saturating_add(2000),
        Some((Word::Stray(_), place)) => place.saturating_add(3000),
    }
}

#[test]
fn words_cut(rt: HostRuntime) {
    let line = b" _a1 22 3a(\x7f";
    assert_eq!(rt; sort_of(next_word(line, 0)), 1);
    assert_eq!(rt; sort_of(next_word(line, 4)), 1005);
    assert_eq!(rt; sort_of(next_word(line, 7)), 2008);
    assert_eq!(rt; sort_of(next_word(line, 10)), 2010);
    assert_eq!(rt; sort_of(next_word(line, 11)), 3011);
    assert_eq!(rt; sort_of(next_word(line, 12)), 9999);
    assert_eq!(rt; sort_of(next_word(line, 99)), 9999);
}
