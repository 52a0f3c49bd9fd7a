use crate::same::{copy_of, same_draft};
use draft::draft::Draft;
use grammar::refusals::DraftRefusal;
use grammar::refusals::DraftRefusal::{
    AboveItself, Full, LeadsToItself, LongRight, NoProduction, Repeated, RulesFull, Symbol,
};
use grammar::rule::Relation;
use grammar::rule::Relation::{Left, NonAssoc, Priority, Right};
use std::process::Abort;

// The answer to a call: a number, or the refusal.
type Answer = Result<u8, DraftRefusal>;

// A production by its two sides, with the answer to it.
#[derive(Clone, Copy)]
struct Added<'a>(u8, &'a [u8], Answer);

// A rule with the answer to it.
#[derive(Clone, Copy)]
struct Ruled(u16, Relation, u16, Answer);

// Adds each production in turn, and answers how many. A refused one leaves the draft as it was.
fn add_productions(rt: &impl Abort, draft: &mut Draft, cases: &[Added]) -> usize {
    for Added(left, right, answer) in cases {
        let before = copy_of(rt, draft);
        assert_eq!(rt;
            draft.add_production(*left, right, 1),
            *answer,
            "{left} = {right:?}"
        );
        assert!(rt; answer.is_ok() || same_draft(&before, draft));
    }
    cases.len()
}

// Adds each rule in turn, and answers how many. A refused one leaves the draft as it was.
fn add_rules(rt: &impl Abort, draft: &mut Draft, cases: &[Ruled]) -> usize {
    for Ruled(upper, relation, lower, answer) in cases {
        let before = copy_of(rt, draft);
        assert_eq!(rt;
            draft.add_rule(*upper, *relation, *lower),
            *answer,
            "{upper} {lower}"
        );
        assert!(rt; answer.is_ok() || same_draft(&before, draft));
    }
    cases.len()
}

// Adds productions of nonterminal 0, each with one kind on its right, until there are `count`.
fn with_productions(rt: &impl Abort, count: u8) -> Draft {
    let mut draft = Draft::new();
    for k in 0..count.min(32) {
        assert_eq!(rt; draft.add_production(0, &[16 + k], 1), Ok(k + 1));
    }
    draft
}

#[test]
fn start_symbols(rt: HostRuntime) {
    let mut draft = Draft::new();
    assert_eq!(rt; draft.start(), 0);
    assert_eq!(rt; draft.set_start(15), Ok(15));
    assert_eq!(rt; draft.set_start(16), Err(Symbol));
    assert_eq!(rt; draft.start(), 15);
}

#[test]
fn symbols_and_right_sides(rt: HostRuntime) {
    let cases = [
        Added(15, &[47], Ok(1)),
        Added(16, &[47], Err(Symbol)),
        Added(15, &[48], Err(Symbol)),
        Added(0, &[16, 16, 16, 16, 16, 16], Ok(2)),
        Added(0, &[16, 16, 16, 16, 16, 16, 16], Err(LongRight)),
        Added(0, &[16, 16, 16, 16, 16, 16, 48], Err(Symbol)),
        Added(16, &[16, 16, 16, 16, 16, 16, 16], Err(Symbol)),
    ];
    assert_eq!(rt;
        add_productions(&rt, &mut Draft::new(), &cases),
        cases.len()
    );
}

#[test]
fn same_sides_again(rt: HostRuntime) {
    let cases = [
        Added(0, &[16, 17], Ok(1)),
        Added(0, &[16, 17], Err(Repeated)),
        Added(1, &[16, 17], Ok(2)),
        Added(0, &[17, 16], Ok(3)),
        Added(0, &[16], Ok(4)),
        Added(0, &[], Ok(5)),
        Added(0, &[], Err(Repeated)),
    ];
    let mut draft = Draft::new();
    add_productions(&rt, &mut draft, &cases);
    assert_eq!(rt; draft.add_production(0, &[16, 17], 2), Err(Repeated));
}

#[test]
fn nonterminals_that_lead_to_themselves(rt: HostRuntime) {
    let cases = [
        Added(0, &[1, 0], Ok(1)),
        Added(1, &[], Err(LeadsToItself)),
        Added(0, &[0], Err(LeadsToItself)),
    ];
    add_productions(&rt, &mut Draft::new(), &cases);
    let chain = [
        Added(0, &[1], Ok(1)),
        Added(1, &[2], Ok(2)),
        Added(2, &[16], Ok(3)),
        Added(2, &[0, 0], Ok(4)),
        Added(2, &[0], Err(LeadsToItself)),
        Added(1, &[3, 0, 3], Ok(5)),
        Added(3, &[], Err(LeadsToItself)),
    ];
    assert_eq!(rt;
        add_productions(&rt, &mut Draft::new(), &chain),
        chain.len()
    );
}

#[test]
fn places(rt: HostRuntime) {
    let mut draft = Draft::new();
    for k in 0..18 {
        assert_eq!(rt;
            draft.add_production(0, &[16, 16, 16, 16, 16, 16 + k], 1),
            Ok(k + 1)
        );
    }
    assert_eq!(rt; draft.place_count(), 126);
    let cases = [
        Added(0, &[16, 17], Err(Full)),
        Added(0, &[16, 16, 16, 16, 16, 16], Err(Full)),
        Added(0, &[17], Ok(19)),
        Added(1, &[], Err(Full)),
    ];
    add_productions(&rt, &mut draft, &cases);
    assert_eq!(rt; draft.place_count(), 128);
}

#[test]
fn thirty_two_productions(rt: HostRuntime) {
    let cases = [
        Added(1, &[], Ok(32)),
        Added(2, &[], Err(Full)),
        Added(1, &[], Err(Full)),
        Added(0, &[0], Err(Full)),
        Added(0, &[16, 16, 16, 16, 16, 16, 16], Err(LongRight)),
        Added(0, &[48], Err(Symbol)),
    ];
    assert_eq!(rt;
        add_productions(&rt, &mut with_productions(&rt, 31), &cases),
        cases.len()
    );
}

#[test]
fn rules_again(rt: HostRuntime) {
    let cases = [
        Ruled(1, Priority, 2, Ok(1)),
        Ruled(1, Priority, 2, Err(Repeated)),
        Ruled(2, Priority, 1, Err(AboveItself)),
        Ruled(1, Left, 2, Ok(2)),
        Ruled(1, Left, 2, Err(Repeated)),
        Ruled(2, Left, 1, Err(Repeated)),
        Ruled(2, Right, 1, Ok(3)),
        Ruled(1, Right, 2, Err(Repeated)),
        Ruled(2, NonAssoc, 2, Ok(4)),
        Ruled(2, NonAssoc, 2, Err(Repeated)),
        Ruled(2, NonAssoc, 1, Ok(5)),
        Ruled(1, NonAssoc, 2, Err(Repeated)),
    ];
    assert_eq!(rt;
        add_rules(&rt, &mut with_productions(&rt, 2), &cases),
        cases.len()
    );
}

#[test]
fn rules_between_productions(rt: HostRuntime) {
    let cases = [
        Ruled(0, Left, 1, Err(NoProduction)),
        Ruled(1, Left, 0, Err(NoProduction)),
        Ruled(4, Left, 1, Err(NoProduction)),
        Ruled(1, Left, 4, Err(NoProduction)),
        Ruled(1, Left, 257, Err(NoProduction)),
        Ruled(4, Priority, 4, Err(NoProduction)),
        Ruled(1, Priority, 1, Err(AboveItself)),
        Ruled(1, Priority, 2, Ok(1)),
        Ruled(2, Priority, 3, Ok(2)),
        Ruled(3, Priority, 1, Err(AboveItself)),
        Ruled(1, Priority, 3, Ok(3)),
        Ruled(3, Left, 3, Ok(4)),
    ];
    assert_eq!(rt;
        add_rules(&rt, &mut with_productions(&rt, 3), &cases),
        cases.len()
    );
}

#[test]
fn sixty_four_rules(rt: HostRuntime) {
    let mut draft = with_productions(&rt, 32);
    for k in 1..33 {
        assert_eq!(rt; draft.add_rule(1, Left, k), Ok(2 * k as u8 - 1));
        if k < 32 {
            assert_eq!(rt; draft.add_rule(1, Right, k), Ok(2 * k as u8));
        }
    }
    let cases = [
        Ruled(2, Priority, 3, Ok(64)),
        Ruled(3, Priority, 4, Err(RulesFull)),
        Ruled(2, Priority, 3, Err(Repeated)),
        Ruled(2, Left, 1, Err(Repeated)),
        Ruled(33, Left, 1, Err(NoProduction)),
        Ruled(3, Priority, 2, Err(RulesFull)),
    ];
    assert_eq!(rt; add_rules(&rt, &mut draft, &cases), cases.len());
}
