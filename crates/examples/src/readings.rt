use draft::draft::Draft;
use draft::sealed::Grammar;
use files::spelled::SpelledDraft;
use grammar::refusals::ReadingRefusal;
use grammar::refusals::ReadingRefusal::{LineFull, NoKind, NoWord, NothingBegins, ShortChart};
use reading::chart_fits;
use reading::reading::Reading;
use std::process::Abort;

pub(crate) const BOOK: &[u8] = b"RBK 1\nstart C\n\
word \"or\"\nword \"and\"\nword \"not\"\nword \"(\"\nword \")\"\nword NAME\n\
C = C \"or\" C ; 2\nC = C \"and\" C ; 3\nC = \"not\" C ; 1\nC = \"(\" C \")\" ; 0\nC = NAME ; 1\n\
3 > 2\n2 > 1\n1 L 1\n2 L 2\n";

// The grammar of the book.
pub(crate) fn conditions(rt: &impl Abort) -> Grammar {
    let mut book = SpelledDraft::new();
    assert_eq!(rt; book.read(BOOK), Ok(1));
    let SpelledDraft {
        draft,
        spellings: _,
    } = book;
    draft.seal()
}

// The grammar of A = "a" A and A = "a".
pub(crate) fn rows(rt: &impl Abort) -> Grammar {
    let mut draft = Draft::new();
    assert_eq!(rt; draft.add_production(0, &[16, 0], 1), Ok(1));
    assert_eq!(rt; draft.add_production(0, &[16], 1), Ok(2));
    draft.seal()
}

// Puts the kinds one by one, and answers the last answer.
pub(crate) fn put_all(reading: &mut Reading, kinds: &[u8]) -> Result<u8, ReadingRefusal> {
    let mut count = 0;
    for kind in kinds {
        count = reading.put(*kind)?;
    }
    Ok(count)
}

// The sum of the cells.
fn sum_of(cells: &[u64]) -> u64 {
    cells
        .iter()
        .fold(0, |sum: u64, cell| sum.saturating_add(*cell))
}

// What the first look after these kinds answers.
fn look_after(grammar: &Grammar, kinds: &[u8]) -> Result<(bool, u32), ReadingRefusal> {
    let mut chart = [7u64; 4802];
    let mut reading = Reading::open(grammar, &mut chart);
    put_all(&mut reading, kinds)?;
    reading.look()
}

#[test]
fn conditions_looked_at(rt: HostRuntime) {
    let grammar = conditions(&rt);
    assert_eq!(rt; look_after(&grammar, &[]), Ok((false, 44)));
    assert_eq!(rt; look_after(&grammar, &[21]), Ok((true, 3)));
    assert_eq!(rt; look_after(&grammar, &[19, 21]), Ok((false, 19)));
    assert_eq!(rt;
        look_after(&grammar, &[21, 17, 18, 21, 16, 21]),
        Ok((true, 3))
    );
    assert_eq!(rt; look_after(&grammar, &[21, 21]), Err(NothingBegins));
    assert_eq!(rt; look_after(&grammar, &[20]), Err(NothingBegins));
}

#[test]
fn words_put_and_taken_back(rt: HostRuntime) {
    let grammar = conditions(&rt);
    let mut chart = [0u64; 4802];
    let mut reading = Reading::open(&grammar, &mut chart);
    assert_eq!(rt; reading.take_back(), Err(NoWord));
    assert_eq!(rt; reading.put(15), Err(NoKind));
    assert_eq!(rt; reading.put(48), Err(NoKind));
    assert_eq!(rt; reading.put(16), Err(NothingBegins));
    assert_eq!(rt; reading.put(21), Ok(1));
    assert_eq!(rt; reading.put(16), Ok(2));
    assert_eq!(rt; reading.look(), Ok((false, 44)));
    assert_eq!(rt; reading.take_back(), Ok(1));
    assert_eq!(rt; reading.look(), Ok((true, 3)));
    assert_eq!(rt; reading.take_back(), Ok(0));
    assert_eq!(rt; reading.look(), Ok((false, 44)));
}

#[test]
fn forty_eight_words(rt: HostRuntime) {
    let grammar = rows(&rt);
    let mut chart = [0u64; 4802];
    let mut reading = Reading::open(&grammar, &mut chart);
    assert_eq!(rt; put_all(&mut reading, &[16; 47]), Ok(47));
    assert_eq!(rt; reading.look(), Ok((true, 1)));
    assert_eq!(rt; reading.put(16), Ok(48));
    assert_eq!(rt; reading.look(), Ok((true, 0)));
    assert_eq!(rt; reading.put(16), Err(LineFull));
    assert_eq!(rt; reading.put(0), Err(LineFull));
    assert_eq!(rt; reading.take_back(), Ok(47));
}

#[test]
fn short_charts(rt: HostRuntime) {
    let grammar = rows(&rt);
    let mut chart = [7u64; 4801];
    assert!(rt; !chart_fits(&chart));
    let mut reading = Reading::open(&grammar, &mut chart);
    assert_eq!(rt; reading.put(0), Err(ShortChart));
    assert_eq!(rt; reading.take_back(), Err(ShortChart));
    assert_eq!(rt; reading.look(), Err(ShortChart));
    assert_eq!(rt; sum_of(reading.end()), 7 * 4801);
}

// The places of A = "a" A are 0, 1 and 2, those of A = "a" are 3 and 4. On nothing both begin at 0; after one word both
// have moved on from 0 to 1, and both begin at 1.
#[test]
fn cells(rt: HostRuntime) {
    let grammar = rows(&rt);
    let mut chart = [7u64; 4803];
    assert!(rt; chart_fits(&chart));
    let mut reading = Reading::open(&grammar, &mut chart);
    assert_eq!(rt; reading.put(16), Ok(1));
    let cells = reading.end();
    assert!(rt; cells.len() == 4803);
    assert_eq!(rt; cells[0], 9);
    assert_eq!(rt; cells[98], 18);
    assert_eq!(rt; cells[100], 9);
    assert_eq!(rt; cells[4802], 7);
    assert_eq!(rt; sum_of(cells), 9 + 18 + 9 + 7);
}
