ghost use Rattle.std.specs.Prelude.{◌≡◌, ℕ, min, List, ◌++◌, map, length, take, drop};
ghost use Rattle.agreement.specs.Histories.{Plain, plain, lent, ListsInto, ScoresInto, Step, Played, History};

use crate::answer::Answer;
use crate::call::Call;
use listing_theory::record::Record;
use reading::reading::Reading;
use scales::Semiring;

// Makes one call on the reading. The records and the table are two buffers of the caller's, as `list` and `score` take them: a struct of both
// would be there for this function alone.
fn make<S: Semiring>(
    reading: &mut Reading,
    call: Call,
    records: &mut [Record],
    table: &mut [S],
) -> Answer<S>
    ensures { Step ListsInto (ScoresInto S.Semiring.scale) reading.old (lent records.old table.old) call result reading.new (lent records.new table.new) }
{
    match call {
        Call::Put(kind) => Answer::Put(reading.put(kind)),
        Call::TakeBack => Answer::TakenBack(reading.take_back()),
        Call::Look => Answer::Looked(reading.look()),
        Call::List => Answer::Listed(reading.list(records)),
        Call::Score => Answer::Scored(reading.score(table)),
    }
}

// Makes the calls one after the other, as many as there are answers for, writes what they answered, and answers how many it made.
// A history of the reading goes on with these calls and answers. Written by index: of what is written through an adapter of
// `iter_mut` a proof knows nothing.
pub fn play<S: Semiring>(
    reading: &mut Reading,
    calls: &[Call],
    records: &mut [Record],
    table: &mut [S],
    answers: &mut [Answer<S>],
) -> usize
    ensures count { result ≡ min (length calls.now) (length answers.old) }
    ensures played { Played ListsInto (ScoresInto S.Semiring.scale) reading.old (lent records.old table.old) (take result calls.now) (take result answers.new) reading.new (lent records.new table.new) }
    ensures later { drop result answers.new ≡ drop result answers.old }
    ensures history { (cs : List Call) (xs : List Plain) → History cs xs reading.old → History (cs ++ take result calls.now) (xs ++ map plain (take result answers.new)) reading.new }
{
    let count = calls.len().min(answers.len());
    for (i, call) in calls[..count].iter().enumerate() {
        answers[i] = make(reading, *call, records, table);
    }
    count
}
