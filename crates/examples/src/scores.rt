use crate::readings::{conditions, put_all, rows};
use draft::draft::Draft;
use draft::sealed::Grammar;
use grammar::refusals::ReadingRefusal;
use grammar::refusals::ReadingRefusal::{ShortChart, ShortTable};
use grammar::rule::Relation;
use reading::reading::Reading;
use scales::Semiring;
use scales::values::{Count, Price, YesNo};
use std::process::Abort;

// The score of the kinds on the scale of the table's values.
fn score_after<S: Semiring>(
    grammar: &Grammar,
    kinds: &[u8],
    table: &mut [S],
) -> Result<S, ReadingRefusal> {
    let mut chart = [0u64; 4802];
    let mut reading = Reading::open(grammar, &mut chart);
    put_all(&mut reading, kinds)?;
    reading.score(table)
}

// The grammar of A = A A and A = "a".
fn pairs(rt: &impl Abort) -> Draft {
    let mut draft = Draft::new();
    assert_eq!(rt; draft.add_production(0, &[0, 0], 1), Ok(1));
    assert_eq!(rt; draft.add_production(0, &[16], 1), Ok(2));
    draft
}

#[test]
fn conditions_scored(rt: HostRuntime) {
    let grammar = conditions(&rt);
    let mut counts = [Count { value: 7 }; 1000];
    let mut prices = [Price { value: 7 }; 1000];
    let words = [21, 16, 21, 17, 21];
    assert_eq!(rt;
        score_after(&grammar, &words, &mut counts),
        Ok(Count { value: 1 })
    );
    assert_eq!(rt;
        score_after(&grammar, &words, &mut prices),
        Ok(Price { value: 8 })
    );
    let line = [21, 17, 18, 21, 16, 21];
    assert_eq!(rt;
        score_after(&grammar, &line, &mut counts),
        Ok(Count { value: 1 })
    );
    assert_eq!(rt;
        score_after(&grammar, &line, &mut prices),
        Ok(Price { value: 9 })
    );
    assert_eq!(rt;
        score_after(&grammar, &[21, 16], &mut counts),
        Ok(Count { value: 0 })
    );
    assert_eq!(rt;
        score_after(&grammar, &[21, 16], &mut prices),
        Ok(Price {
            value: 4_294_967_295
        })
    );
}

// The numbers of groupings are those of Catalan: 5 for four words, 1,767,263,190 for twenty, and past 32 bits for
// twenty-one.
#[test]
fn groupings(rt: HostRuntime) {
    let grammar = pairs(&rt).seal();
    let mut table = [Count { value: 7 }; 2420];
    assert_eq!(rt;
        score_after(&grammar, &[16; 4], &mut table),
        Ok(Count { value: 5 })
    );
    assert_eq!(rt;
        score_after(&grammar, &[16; 20], &mut table),
        Ok(Count {
            value: 1_767_263_190
        })
    );
    assert_eq!(rt;
        score_after(&grammar, &[16; 21], &mut table),
        Ok(Count {
            value: 4_294_967_295
        })
    );
}

#[test]
fn one_grouping_to_the_left(rt: HostRuntime) {
    let mut draft = pairs(&rt);
    assert_eq!(rt; draft.add_rule(1, Relation::Left, 1), Ok(1));
    let grammar = draft.seal();
    let mut table = [Count { value: 7 }; 125];
    assert_eq!(rt;
        score_after(&grammar, &[16; 4], &mut table),
        Ok(Count { value: 1 })
    );
}

// The second way is cheaper: 1 for A = B C, B = "a" and C = "b" each, in place of 5.
#[test]
fn cheapest_tree(rt: HostRuntime) {
    let mut draft = Draft::new();
    assert_eq!(rt; draft.add_production(0, &[16, 17], 5), Ok(1));
    assert_eq!(rt; draft.add_production(0, &[1, 2], 1), Ok(2));
    assert_eq!(rt; draft.add_production(1, &[16], 1), Ok(3));
    assert_eq!(rt; draft.add_production(2, &[17], 1), Ok(4));
    let grammar = draft.seal();
    let mut table = [Price { value: 7 }; 90];
    assert_eq!(rt;
        score_after(&grammar, &[16, 17], &mut table),
        Ok(Price { value: 3 })
    );
}

// The places of A = "a" A are 0, 1 and 2, those of A = "a" are 3 and 4. With one word the entry of the place d, the origin i
// and the end j is 4d + 2i + j. No symbols cover no words, once at each end; "a" covers the word, from 0 to 1.
#[test]
fn entries(rt: HostRuntime) {
    let grammar = rows(&rt);
    let mut table = [Count { value: 7 }; 21];
    assert_eq!(rt;
        score_after(&grammar, &[16], &mut table),
        Ok(Count { value: 1 })
    );
    let expected = [
        1, 0, 0, 1, 0, 1, 0, 0, 0, 0, 0, 0, 1, 0, 0, 1, 0, 1, 0, 0, 7,
    ];
    for (entry, value) in table.iter().zip(&expected) {
        assert_eq!(rt; entry.value, *value);
    }
    assert_eq!(rt; table.len(), 21);
}

// Five places and one word take twenty entries.
#[test]
fn short_tables(rt: HostRuntime) {
    let grammar = rows(&rt);
    let mut enough = [Count { value: 7 }; 20];
    assert_eq!(rt;
        score_after(&grammar, &[16], &mut enough),
        Ok(Count { value: 1 })
    );
    let mut short = [Count { value: 7 }; 19];
    assert_eq!(rt; score_after(&grammar, &[16], &mut short), Err(ShortTable));
    for entry in &short {
        assert_eq!(rt; entry.value, 7);
    }
    assert_eq!(rt;
        score_after(&grammar, &[], &mut short),
        Ok(Count { value: 0 })
    );
}

#[test]
fn score_on_a_short_chart(rt: HostRuntime) {
    let grammar = rows(&rt);
    let mut table = [YesNo { yes: true }; 1];
    let mut chart = [0u64; 4801];
    let reading = Reading::open(&grammar, &mut chart);
    assert_eq!(rt; reading.score(&mut table), Err(ShortChart));
    assert!(rt; table[0].yes);
}

// A = B B, B = C, B = "b", C = with nothing: no words have one tree, and "b" has two.
#[test]
fn empty_productions_scored(rt: HostRuntime) {
    let mut draft = Draft::new();
    assert_eq!(rt; draft.add_production(0, &[1, 1], 1), Ok(1));
    assert_eq!(rt; draft.add_production(1, &[2], 1), Ok(2));
    assert_eq!(rt; draft.add_production(1, &[16], 1), Ok(3));
    assert_eq!(rt; draft.add_production(2, &[], 1), Ok(4));
    let grammar = draft.seal();
    let mut counts = [Count { value: 7 }; 72];
    let mut prices = [Price { value: 7 }; 72];
    assert_eq!(rt;
        score_after(&grammar, &[], &mut counts),
        Ok(Count { value: 1 })
    );
    assert_eq!(rt;
        score_after(&grammar, &[], &mut prices),
        Ok(Price { value: 5 })
    );
    assert_eq!(rt;
        score_after(&grammar, &[16], &mut counts),
        Ok(Count { value: 2 })
    );
    assert_eq!(rt;
        score_after(&grammar, &[16], &mut prices),
        Ok(Price { value: 4 })
    );
}
