use draft::draft::Draft;
use files::spelled::SpelledDraft;
use grammar::production::Production;
use spellings::spellings::Spellings;
use std::process::Abort;

// Whether the two answers give a production with the same sides and the same price, or both none.
fn same_production(a: Option<Production>, b: Option<Production>) -> bool {
    match (a, b) {
        (Some(p), Some(q)) => {
            p.left() == q.left() && p.right() == q.right() && p.price() == q.price()
        }
        (None, None) => true,
        _ => false,
    }
}

// Whether every reader gives the same answers for the two drafts.
pub(crate) fn same_draft(a: &Draft, b: &Draft) -> bool {
    if a.start() != b.start() || a.place_count() != b.place_count() {
        return false;
    }
    if a.production_count() != b.production_count() || a.rule_count() != b.rule_count() {
        return false;
    }
    (0..34).all(|number| same_production(a.production(number), b.production(number)))
        && (0..66).all(|number| a.rule(number) == b.rule(number))
}

// A draft that every reader gives the same answers for.
pub(crate) fn copy_of(rt: &impl Abort, draft: &Draft) -> Draft {
    let mut copy = Draft::new();
    assert_eq!(rt; copy.set_start(draft.start()), Ok(draft.start()));
    for p in draft.productions() {
        assert!(rt; copy.add_production(p.left(), p.right(), p.price()).is_ok());
    }
    for rule in draft.rules() {
        assert!(rt;
            copy.add_rule(u16::from(rule.upper), rule.relation, u16::from(rule.lower))
                .is_ok()
        );
    }
    copy
}

// Whether the kind has the same spelling in both, or none in either.
fn same_spelling(a: &Spellings, b: &Spellings, kind: u8) -> bool {
    a.spelling_of(kind) == b.spelling_of(kind)
}

// Whether every reader gives the same answers for the two spelled drafts.
pub(crate) fn same_book(a: &SpelledDraft, b: &SpelledDraft) -> bool {
    (0..49).all(|kind| same_spelling(&a.spellings, &b.spellings, kind))
        && a.spellings.count() == b.spellings.count()
        && same_draft(&a.draft, &b.draft)
}
