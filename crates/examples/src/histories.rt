use crate::listings::UNTOUCHED;
use crate::readings::conditions;
use agreement::agree;
use agreement::answer::Answer;
use agreement::call::Call;
use agreement::play::play;
use draft::draft::Draft;
use draft::sealed::Grammar;
use grammar::refusals::ReadingRefusal::{NoSentence, NoWord, NothingBegins};
use grammar::rule::Relation;
use reading::reading::Reading;
use scales::values::Count;
use std::process::Abort;

// The productions of the sample, accepted in another order, with their rules, one of them mirrored.
fn shuffled(rt: &impl Abort) -> Grammar {
    let mut draft = Draft::new();
    assert_eq!(rt; draft.set_start(2), Ok(2));
    assert_eq!(rt; draft.add_production(2, &[21], 1), Ok(1));
    assert_eq!(rt; draft.add_production(2, &[2, 17, 2], 3), Ok(2));
    assert_eq!(rt; draft.add_production(2, &[18, 2], 1), Ok(3));
    assert_eq!(rt; draft.add_production(2, &[2, 16, 2], 2), Ok(4));
    assert_eq!(rt; draft.add_production(2, &[19, 2, 20], 0), Ok(5));
    assert_eq!(rt; draft.add_rule(2, Relation::Left, 2), Ok(1));
    assert_eq!(rt; draft.add_rule(4, Relation::Left, 4), Ok(2));
    assert_eq!(rt; draft.add_rule(2, Relation::Priority, 4), Ok(3));
    assert_eq!(rt; draft.add_rule(3, Relation::Priority, 2), Ok(4));
    draft.seal()
}

// The answers to what the editor's author types, and one place that no call reaches.
fn typed_answers() -> [Answer<Count>; 12] {
    [
        Answer::TakenBack(Err(NoWord)),
        Answer::Put(Ok(1)),
        Answer::Looked(Ok((true, 3))),
        Answer::Put(Ok(2)),
        Answer::Listed(Err(NoSentence)),
        Answer::TakenBack(Ok(1)),
        Answer::Put(Ok(2)),
        Answer::Put(Err(NothingBegins)),
        Answer::Put(Ok(3)),
        Answer::Listed(Ok(3)),
        Answer::Scored(Ok(Count { value: 1 })),
        Answer::Listed(Ok(77)),
    ]
}

// The editor's author types NAME or ) and mends it; the cartridge reads NAME or NAME. Both stand at the same words, refuse
// the same next word and score the same.
#[test]
fn editor_and_cartridge(rt: HostRuntime) {
    let editor_grammar = conditions(&rt);
    let mut editor_chart = [7u64; 4802];
    let mut editor = Reading::open(&editor_grammar, &mut editor_chart);
    let typed = [
        Call::TakeBack,
        Call::Put(21),
        Call::Look,
        Call::Put(17),
        Call::List,
        Call::TakeBack,
        Call::Put(16),
        Call::Put(20),
        Call::Put(21),
        Call::List,
        Call::Score,
    ];
    let mut records = [UNTOUCHED; 4];
    let mut table = [Count { value: 7 }; 272];
    let mut answers = [Answer::Listed(Ok(77)); 12];
    assert_eq!(rt;
        play(&mut editor, &typed, &mut records, &mut table, &mut answers),
        11
    );
    for (answer, expected) in answers.iter().zip(&typed_answers()) {
        assert_eq!(rt; *answer, *expected);
    }
    let cartridge_grammar = shuffled(&rt);
    let mut cartridge_chart = [0u64; 4802];
    let mut cartridge = Reading::open(&cartridge_grammar, &mut cartridge_chart);
    let burned = [Call::Put(21), Call::Put(16), Call::Put(21), Call::Score];
    assert_eq!(rt;
        play(
            &mut cartridge,
            &burned,
            &mut records,
            &mut table,
            &mut answers,
        ),
        4
    );
    assert_eq!(rt; answers[2], Answer::Put(Ok(3)));
    assert_eq!(rt; answers[3], Answer::Scored(Ok(Count { value: 1 })));
    assert!(rt; agree::<Count>(&editor, &cartridge));
    assert_eq!(rt; editor.put(21), Err(NothingBegins));
    assert_eq!(rt; cartridge.put(21), Err(NothingBegins));
    assert_eq!(rt; editor.put(17), Ok(4));
    assert!(rt; !agree::<Count>(&editor, &cartridge));
}

// Only as many calls are played as there are answers for.
#[test]
fn fewer_answers_than_calls(rt: HostRuntime) {
    let grammar = conditions(&rt);
    let mut chart = [0u64; 4802];
    let mut reading = Reading::open(&grammar, &mut chart);
    let calls = [Call::Put(21), Call::Put(16), Call::Put(21)];
    let mut table = [Count { value: 7 }; 1];
    let mut answers = [Answer::Listed(Ok(77)); 2];
    assert_eq!(rt;
        play(&mut reading, &calls, &mut [], &mut table, &mut answers),
        2
    );
    assert_eq!(rt; answers[1], Answer::Put(Ok(2)));
    assert_eq!(rt; reading.put(21), Ok(3));
}
