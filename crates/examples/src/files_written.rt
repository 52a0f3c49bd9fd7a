use crate::readings::BOOK;
use crate::same::same_book;
use files::spelled::SpelledDraft;
use grammar::refusals::FileRefusal;
use std::process::Abort;
use std::test::Fail;
use syntax::spelling::Spelling;

// The book that the text is.
fn book_of(rt: &impl Abort, text: &[u8]) -> SpelledDraft {
    let mut book = SpelledDraft::new();
    assert_eq!(rt; book.read(text), Ok(1));
    book
}

// Whether the bytes are those of the text, and then only question marks.
fn holds(bytes: &[u8], text: &[u8]) -> bool {
    bytes
        .strip_prefix(text)
        .is_some_and(|rest| rest.iter().all(|byte| *byte == b'?'))
}

// Writes the book into the first bytes of a text.
fn write_into(book: &SpelledDraft, out: &mut [u8], room: usize) -> Result<usize, FileRefusal> {
    let end = room.min(out.len());
    book.write(&mut out[..end])
}

// Whether writing the book into that much room, at most 256 bytes, gives the answer and these bytes.
fn writes(
    book: &SpelledDraft,
    room: usize,
    answer: Result<usize, FileRefusal>,
    text: &[u8],
) -> bool {
    let mut out = [b'?'; 256];
    write_into(book, &mut out, room) == answer && holds(&out, text)
}

#[test]
fn written_and_read_back(rt: HostRuntime) -> Result<(), Fail> {
    let book = book_of(&rt, BOOK);
    assert_eq!(rt; book.draft.start(), 2);
    assert_eq!(rt; book.draft.production_count(), 5);
    assert_eq!(rt; book.draft.rule_count(), 4);
    assert!(rt; writes(&book, 256, Ok(BOOK.len()), BOOK));
    let mut out = [0; 256];
    let n = book.write(&mut out)?;
    assert!(rt; n <= 256);
    assert!(rt; same_book(&book, &book_of(&rt, &out[..n])));
    Ok(())
}

#[test]
fn words_then_productions_then_rules(rt: HostRuntime) {
    let mixed =
        b"RBK 1\nstart P\nA = ; 0\n1 R 1\nword NUM\nA = NUM B ; 65535\nword \"=\"\n2 > 1\nB = \"=\" ; 10\n";
    let sorted =
        b"RBK 1\nstart P\nword NUM\nword \"=\"\nA = ; 0\nA = NUM B ; 65535\nB = \"=\" ; 10\n1 R 1\n2 > 1\n";
    assert!(rt; writes(&book_of(&rt, mixed), 256, Ok(sorted.len()), sorted));
}

#[test]
fn room_for_the_text(rt: HostRuntime) {
    let book = book_of(&rt, BOOK);
    let n = BOOK.len();
    assert!(rt; writes(&book, n, Ok(n), BOOK));
    assert!(rt; writes(&book, n - 1, Err(FileRefusal::ShortText), &BOOK[..n - 1]));
    assert!(rt; writes(&book, 0, Err(FileRefusal::ShortText), b""));
}

#[test]
fn kinds_without_spelling(rt: HostRuntime) {
    let mut book = SpelledDraft::new();
    assert_eq!(rt; book.draft.add_production(0, &[17], 0), Ok(1));
    assert_eq!(rt; book.spellings.declare(Spelling::Name), Ok(16));
    assert!(rt; writes(&book, 256, Err(FileRefusal::Undeclared), b""));
    assert!(rt; writes(&book, 2, Err(FileRefusal::Undeclared), b""));
    assert_eq!(rt; book.spellings.declare(Spelling::Num), Ok(17));
    let text = b"RBK 1\nstart A\nword NAME\nword NUM\nA = NUM ; 0\n";
    assert!(rt; writes(&book, 256, Ok(text.len()), text));
}
