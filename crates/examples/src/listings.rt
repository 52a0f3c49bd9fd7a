use crate::readings::{conditions, put_all};
use draft::draft::Draft;
use draft::sealed::Grammar;
use grammar::refusals::ReadingRefusal;
use grammar::refusals::ReadingRefusal::{NoSentence, ShortChart, ShortListing};
use listing_theory::record::Record;
use reading::reading::Reading;

fn record(production: u8, start: u8, end: u8) -> Record {
    Record {
        production,
        start,
        end,
    }
}

// Lists the tree of the kinds.
fn list_after(
    grammar: &Grammar,
    kinds: &[u8],
    records: &mut [Record],
) -> Result<usize, ReadingRefusal> {
    let mut chart = [0u64; 4802];
    let mut reading = Reading::open(grammar, &mut chart);
    put_all(&mut reading, kinds)?;
    reading.list(records)
}

pub(crate) const UNTOUCHED: Record = Record {
    production: 99,
    start: 98,
    end: 97,
};

// NAME or NAME and NAME: "and" binds tighter.
#[test]
fn conditions_listed(rt: HostRuntime) {
    let grammar = conditions(&rt);
    let mut records = [UNTOUCHED; 6];
    assert_eq!(rt;
        list_after(&grammar, &[21, 16, 21, 17, 21], &mut records),
        Ok(5)
    );
    assert!(rt; records[0] == record(1, 0, 5));
    assert!(rt; records[1] == record(5, 0, 1));
    assert!(rt; records[2] == record(2, 2, 5));
    assert!(rt; records[3] == record(5, 2, 3));
    assert!(rt; records[4] == record(5, 4, 5));
    assert!(rt; records[5] == UNTOUCHED);
}

// Five records are enough, four are not, and hold the first four.
#[test]
fn short_listings(rt: HostRuntime) {
    let grammar = conditions(&rt);
    let words = [21, 16, 21, 17, 21];
    let mut five = [UNTOUCHED; 5];
    assert_eq!(rt; list_after(&grammar, &words, &mut five), Ok(5));
    assert!(rt; five[4] == record(5, 4, 5));
    let mut four = [UNTOUCHED; 4];
    assert_eq!(rt; list_after(&grammar, &words, &mut four), Err(ShortListing));
    assert!(rt; four[0] == record(1, 0, 5));
    assert!(rt; four[3] == record(5, 2, 3));
    assert_eq!(rt; list_after(&grammar, &words, &mut []), Err(ShortListing));
}

#[test]
fn no_sentences(rt: HostRuntime) {
    let grammar = conditions(&rt);
    let mut records = [UNTOUCHED; 2];
    assert_eq!(rt;
        list_after(&grammar, &[21, 16], &mut records),
        Err(NoSentence)
    );
    assert!(rt; records[0] == UNTOUCHED && records[1] == UNTOUCHED);
    assert_eq!(rt; list_after(&grammar, &[], &mut []), Err(NoSentence));
}

#[test]
fn listing_on_a_short_chart(rt: HostRuntime) {
    let grammar = conditions(&rt);
    let mut records = [UNTOUCHED; 2];
    let mut chart = [0u64; 4801];
    let reading = Reading::open(&grammar, &mut chart);
    assert_eq!(rt; reading.list(&mut records), Err(ShortChart));
    assert!(rt; records[0] == UNTOUCHED && records[1] == UNTOUCHED);
}

// A = B "a" B, where B is nothing or "b".
#[test]
fn empty_nodes_listed(rt: HostRuntime) {
    let mut draft = Draft::new();
    assert_eq!(rt; draft.add_production(0, &[1, 16, 1], 0), Ok(1));
    assert_eq!(rt; draft.add_production(1, &[], 0), Ok(2));
    assert_eq!(rt; draft.add_production(1, &[17], 0), Ok(3));
    let grammar = draft.seal();
    let mut records = [UNTOUCHED; 4];
    assert_eq!(rt; list_after(&grammar, &[16], &mut records), Ok(3));
    assert!(rt; records[0] == record(1, 0, 1));
    assert!(rt; records[1] == record(2, 0, 0));
    assert!(rt; records[2] == record(2, 1, 1));
    assert!(rt; records[3] == UNTOUCHED);
    assert_eq!(rt; list_after(&grammar, &[17, 16], &mut records), Ok(3));
    assert!(rt; records[1] == record(3, 0, 1));
    assert!(rt; records[2] == record(2, 2, 2));
}

// "a" "b" by the first production costs more than by the second, and is listed all the same.
#[test]
fn smallest_not_cheapest(rt: HostRuntime) {
    let mut draft = Draft::new();
    assert_eq!(rt; draft.add_production(0, &[16, 17], 5), Ok(1));
    assert_eq!(rt; draft.add_production(0, &[1, 2], 1), Ok(2));
    assert_eq!(rt; draft.add_production(1, &[16], 1), Ok(3));
    assert_eq!(rt; draft.add_production(2, &[17], 1), Ok(4));
    let grammar = draft.seal();
    let mut records = [UNTOUCHED; 3];
    assert_eq!(rt; list_after(&grammar, &[16, 17], &mut records), Ok(1));
    assert!(rt; records[0] == record(1, 0, 2));
}

// Each nonterminal but the last is six of the next one, and the last is nothing: the tree of no words has 6 to the power of
// 14 leaves. The first path down is listed before the records are full.
#[test]
fn more_nodes_than_memory(rt: HostRuntime) {
    let mut draft = Draft::new();
    for left in 0..14 {
        let next = left + 1;
        assert_eq!(rt; draft.add_production(left, &[next; 6], 0), Ok(next));
    }
    assert_eq!(rt; draft.add_production(14, &[], 0), Ok(15));
    let grammar = draft.seal();
    let mut records = [UNTOUCHED; 17];
    assert_eq!(rt; list_after(&grammar, &[], &mut records), Err(ShortListing));
    assert!(rt; records[0] == record(1, 0, 0));
    assert!(rt; records[13] == record(14, 0, 0));
    assert!(rt; records[14] == record(15, 0, 0));
    assert!(rt; records[15] == record(15, 0, 0));
    assert!(rt; records[16] == record(15, 0, 0));
}

// A = A A, A = "a": below the root of three words the first child can be a pair or a word, and the pair has the smaller
// production.
#[test]
fn smallest_grouping(rt: HostRuntime) {
    let mut draft = Draft::new();
    assert_eq!(rt; draft.add_production(0, &[0, 0], 1), Ok(1));
    assert_eq!(rt; draft.add_production(0, &[16], 1), Ok(2));
    let grammar = draft.seal();
    let mut records = [UNTOUCHED; 5];
    assert_eq!(rt; list_after(&grammar, &[16, 16, 16], &mut records), Ok(5));
    assert!(rt; records[0] == record(1, 0, 3));
    assert!(rt; records[1] == record(1, 0, 2));
    assert!(rt; records[2] == record(2, 0, 1));
    assert!(rt; records[3] == record(2, 1, 2));
    assert!(rt; records[4] == record(2, 2, 3));
}
