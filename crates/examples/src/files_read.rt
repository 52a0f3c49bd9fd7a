use crate::same::same_book;
use files::spelled::SpelledDraft;
use grammar::refusals::FileRefusal;
use grammar::rule::{Relation, Rule};
use spellings::spellings::Spellings;
use std::alloc::{AllocError, Global};
use std::process::Abort;
use std::test::Fail;
use syntax::spelling::{Literal, Spelling};

// The version, or the refusal's number and the line.
type Answer = Result<u16, (u8, usize)>;

// A text, or a line of one, with the answer to reading it.
#[derive(Clone, Copy)]
struct Case<'a>(&'a [u8], Answer);

// Reads the text into the book.
fn read_into(book: &mut SpelledDraft, text: &[u8]) -> Answer {
    book.read(text)
        .map_err(|fault| (fault.refusal.number(), fault.line))
}

// Reads the text into a new book.
fn read(text: &[u8]) -> Answer {
    read_into(&mut SpelledDraft::new(), text)
}

// Reads each text by itself, and answers how many.
fn read_texts(rt: &impl Abort, cases: &[Case]) -> usize {
    for (i, Case(text, answer)) in cases.iter().enumerate() {
        assert_eq!(rt; read(text), *answer, "text {i}");
    }
    cases.len()
}

// Reads each line as line 4, and answers how many; there A is the start symbol and NAME is declared.
fn read_lines(rt: &impl Abort, heap: Global, cases: &[Case]) -> Result<usize, Fail> {
    for (i, Case(line, answer)) in cases.iter().enumerate() {
        let mut text = Vec::from_slice(heap, b"RBK 1\nstart A\nword NAME\n")?;
        text.extend_from_slice(line)?;
        text.push(b'\n')?;
        assert_eq!(rt; read(text.as_slice()), *answer, "line {i}");
    }
    Ok(cases.len())
}

// The mark and the start symbol A, and then bytes without a line end, `len` bytes in all.
fn filled(heap: Global, len: usize) -> Result<Vec<u8>, AllocError> {
    let mut text = Vec::from_slice(heap, b"RBK 1\nstart A\n")?;
    for _ in 14..len {
        text.push(b'x')?;
    }
    Ok(text)
}

// The mark and the start symbol A, and then lines that declare `count` spellings of one byte.
fn with_words(heap: Global, count: u8) -> Result<Vec<u8>, AllocError> {
    let mut text = Vec::from_slice(heap, b"RBK 1\nstart A\n")?;
    for byte in b'A'..b'A' + count.min(50) {
        text.extend_from_slice(&[b'w', b'o', b'r', b'd', b' ', b'"', byte, b'"', b'\n'])?;
    }
    Ok(text)
}

#[test]
fn first_two_lines(rt: HostRuntime) {
    let cases = [
        Case(b"RBK 1\nstart A\n", Ok(1)),
        Case(b"RBK 1\nstart P\n", Ok(1)),
        Case(b"", Err((17, 1))),
        Case(b"\n", Err((17, 1))),
        Case(b"RBK 1", Err((17, 1))),
        Case(b"RBL 1\nstart A\n", Err((17, 1))),
        Case(b"rbk 1\nstart A\n", Err((17, 1))),
        Case(b"RBK 2\nstart A\n", Err((17, 1))),
        Case(b"RBK 01\nstart A\n", Err((17, 1))),
        Case(b"RBK  1\nstart A\n", Err((17, 1))),
        Case(b"RBK 1\r\nstart A\n", Err((17, 1))),
        Case(b"RBK 1\n", Err((18, 2))),
        Case(b"RBK 1\n\nstart A\n", Err((18, 2))),
        Case(b"RBK 1\nstart A", Err((18, 2))),
        Case(b"RBK 1\nstart Q\n", Err((18, 2))),
        Case(b"RBK 1\nstart a\n", Err((18, 2))),
        Case(b"RBK 1\nstart  A\n", Err((18, 2))),
        Case(b"RBK 1\nword NAME\n", Err((18, 2))),
    ];
    assert_eq!(rt; read_texts(&rt, &cases), cases.len());
}

#[test]
fn lengths(rt: HostRuntime) -> Result<(), Fail> {
    let heap = rt.alloc();
    assert_eq!(rt; read(filled(heap, 16384)?.as_slice()), Err((18, 3)));
    assert_eq!(rt; read(filled(heap, 16385)?.as_slice()), Err((18, 0)));
    Ok(())
}

#[test]
fn word_lines(rt: HostRuntime) -> Result<(), Fail> {
    let cases = [
        Case(b"word NUM", Ok(1)),
        Case(b"word \"!\"", Ok(1)),
        Case(b"word \"NAME\"", Ok(1)),
        Case(b"word \"abcdef~8\"", Ok(1)),
        Case(b"word \"abcdef~89\"", Err((18, 4))),
        Case(b"word \"\"", Err((18, 4))),
        Case(b"word \"\"\"", Err((18, 4))),
        Case(b"word \"a\"b\"", Err((18, 4))),
        Case(b"word \"a b\"", Err((18, 4))),
        Case(b"word \"a\x7f\"", Err((18, 4))),
        Case(b"word \"a", Err((18, 4))),
        Case(b"word a", Err((18, 4))),
        Case(b"word A", Err((18, 4))),
        Case(b"word  NUM", Err((18, 4))),
        Case(b"word NUM ", Err((18, 4))),
        Case(b"word", Err((18, 4))),
        Case(b"word NAME", Err((19, 4))),
    ];
    assert_eq!(rt; read_lines(&rt, rt.alloc(), &cases)?, cases.len());
    Ok(())
}

#[test]
fn production_lines(rt: HostRuntime) -> Result<(), Fail> {
    let cases = [
        Case(b"A = ; 0", Ok(1)),
        Case(b"P = NAME A ; 65535", Ok(1)),
        Case(b"A = NAME ; 65536", Err((18, 4))),
        Case(b"A = NAME ; 100000", Err((18, 4))),
        Case(b"A = NAME ; 01", Err((18, 4))),
        Case(b"A = NAME ; x", Err((18, 4))),
        Case(b"A = NAME ; ", Err((18, 4))),
        Case(b"A = NAME ;", Err((18, 4))),
        Case(b"A = NAME", Err((18, 4))),
        Case(b"A =  ; 0", Err((18, 4))),
        Case(b"A = NAME  NAME ; 0", Err((18, 4))),
        Case(b" A = NAME ; 0", Err((18, 4))),
        Case(b"A = NAME ; 0 ", Err((18, 4))),
        Case(b"a = NAME ; 0", Err((18, 4))),
        Case(b"A = a ; 0", Err((18, 4))),
        Case(b"Q = NAME ; 0", Err((18, 4))),
        Case(b"A = Q ; 0", Err((18, 4))),
        Case(b"A = \"\" ; 0", Err((18, 4))),
        Case(b"", Err((18, 4))),
    ];
    assert_eq!(rt; read_lines(&rt, rt.alloc(), &cases)?, cases.len());
    Ok(())
}

#[test]
fn rule_lines(rt: HostRuntime) -> Result<(), Fail> {
    let cases = [
        Case(b"1 > 65535", Err((6, 4))),
        Case(b"0 L 0", Err((6, 4))),
        Case(b"1 > 65536", Err((18, 4))),
        Case(b"1 > 01", Err((18, 4))),
        Case(b"01 > 1", Err((18, 4))),
        Case(b"1  > 1", Err((18, 4))),
        Case(b"1 l 1", Err((18, 4))),
        Case(b"1 LL 1", Err((18, 4))),
        Case(b"1 > 1 ", Err((18, 4))),
        Case(b"1 >", Err((18, 4))),
    ];
    assert_eq!(rt; read_lines(&rt, rt.alloc(), &cases)?, cases.len());
    Ok(())
}

#[test]
fn form_then_spellings_then_draft(rt: HostRuntime) -> Result<(), Fail> {
    let cases = [
        Case(b"A = NUM ; 0", Err((20, 4))),
        Case(b"A = \"NAME\" ; 0", Err((20, 4))),
        Case(b"A = NUM ; 65536", Err((18, 4))),
        Case(b"A = NUM NAME  NAME ; 0", Err((18, 4))),
        Case(b"A = NAME NAME NAME NAME NAME NAME ; 0", Ok(1)),
        Case(b"A = NAME NAME NAME NAME NAME NAME NAME ; 0", Err((2, 4))),
        Case(b"A = NAME NAME NAME NAME NAME NAME NUM ; 0", Err((20, 4))),
        Case(b"A = NUM NAME NAME NAME NAME NAME NAME ; 0", Err((20, 4))),
        Case(b"A = A ; 0", Err((5, 4))),
    ];
    assert_eq!(rt; read_lines(&rt, rt.alloc(), &cases)?, cases.len());
    Ok(())
}

#[test]
fn faults_and_their_lines(rt: HostRuntime) {
    let cases = [
        Case(b"RBK 1\nstart A\nA = B A ; 0\nB = ; 0\n", Err((5, 4))),
        Case(b"RBK 1\nstart A\nA = ; 0\nA = ; 1\n", Err((4, 4))),
        Case(b"RBK 1\nstart A\nA = ; 0\n1 N 1\n1 N 1\n", Err((4, 5))),
        Case(b"RBK 1\nstart A\nA = ; 0\n1 R 1\n1 > 1\n", Err((8, 5))),
        Case(b"RBK 1\nstart A\nA = B B B B B B B ; 0\n", Err((2, 3))),
        Case(b"RBK 1\nstart A\nA = NAME ; 0\nword NAME\n", Err((20, 3))),
        Case(b"RBK 1\nstart A\nA = ; 0\nB = ; 0", Err((18, 4))),
        Case(b"RBK 1\nstart A\nA = ; 0\n\n", Err((18, 4))),
    ];
    assert_eq!(rt; read_texts(&rt, &cases), cases.len());
}

#[test]
fn thirty_two_spellings(rt: HostRuntime) -> Result<(), Fail> {
    let heap = rt.alloc();
    assert_eq!(rt; read(with_words(heap, 32)?.as_slice()), Ok(1));
    assert_eq!(rt; read(with_words(heap, 33)?.as_slice()), Err((19, 35)));
    let mut spellings = Spellings::new();
    for k in 0..32 {
        let Some(literal) = Literal::new(&[b'A' + k]) else {
            return Err(Fail::new("no literal"));
        };
        assert_eq!(rt; spellings.declare(Spelling::Literal(literal)), Ok(16 + k));
        assert_eq!(rt;
            spellings.declare(Spelling::Literal(literal)),
            Err(FileRefusal::Declared)
        );
    }
    assert_eq!(rt;
        spellings.declare(Spelling::Name),
        Err(FileRefusal::Declared)
    );
    assert_eq!(rt; spellings.count(), 32);
    Ok(())
}

#[test]
fn half_read(rt: HostRuntime) -> Result<(), Fail> {
    let mut book = SpelledDraft::new();
    let half = b"RBK 1\nstart B\nword NAME\nA = NAME B ; 7\n1 L 1\n";
    let whole = b"RBK 1\nstart B\nword NAME\nA = NAME B ; 7\n1 L 1\nA = A ; 0\nB = NAME ; 0\n";
    assert_eq!(rt; read_into(&mut book, whole), Err((5, 6)));
    assert_eq!(rt; book.draft.start(), 1);
    assert_eq!(rt; book.draft.production_count(), 1);
    assert_eq!(rt;
        book.draft.rule(1),
        Some(Rule {
            upper: 1,
            relation: Relation::Left,
            lower: 1,
        })
    );
    let Some(production) = book.draft.production(1) else {
        return Err(Fail::new("no production"));
    };
    assert!(rt;
        production.left() == 0
            && production.right() == [16, 1].as_slice()
            && production.price() == 7
    );
    let mut other = SpelledDraft::new();
    assert_eq!(rt; read_into(&mut other, half), Ok(1));
    assert!(rt; same_book(&book, &other));
    assert_eq!(rt; read_into(&mut book, b"RBK 1\n"), Err((18, 2)));
    assert!(rt; same_book(&book, &SpelledDraft::new()));
    Ok(())
}
