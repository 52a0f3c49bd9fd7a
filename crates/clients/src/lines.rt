//! Whole lines: the kinds are put one by one, and what they list or score is answered.

ghost use Rattle.std.specs.Prelude.{◌≡◌, ℕ, ◌+◌, ◌*◌, ◌≤◌, List, ◌++◌, length, take, drop, Ok, Err};
ghost use Rattle.grammar.specs.declared.refusals.ReadingRefusal.TheVariants.{ShortChart};
ghost use Rattle.grammar.specs.Grammar.{places};
ghost use Rattle.draft.specs.Sealed.{sealed_model};
ghost use Rattle.theory.specs.Claims.{Sentence};
ghost use Rattle.score_theory.specs.Scores.{Score};
ghost use Rattle.small_grammars.specs.Parses.{Lists};
ghost use Rattle.reading.specs.Readings.{Long};
ghost use Rattle.clients.specs.Lines.{PutAll};

use draft::sealed::Grammar;
use grammar::refusals::ReadingRefusal;
use listing_theory::record::Record;
use reading::reading::Reading;
use scales::Semiring;

// Puts the kinds one by one, up to the first refusal.
fn put_words(reading: &mut Reading, kinds: &[u8]) -> Result<(), ReadingRefusal>
    ensures { PutAll reading.old kinds.now result reading.new }
{
    for kind in kinds {
        reading.put(*kind)?;
    }
    Ok(())
}

// Puts the kinds one by one and lists the smallest tree of them.
pub fn list_words(
    grammar: &Grammar,
    kinds: &[u8],
    chart: &mut [u64],
    records: &mut [Record],
) -> Result<usize, ReadingRefusal>
    ensures listed { (xs : List Record) →
        Long chart.old →
        length kinds.now ≤ 48 →
        Lists (sealed_model grammar.now) kinds.now xs →
        length xs ≤ length records.old →
        (result ≡ Ok (length xs)) × (records.new ≡ xs ++ drop (length xs) records.old) }
    ensures only { (n : ℕ) →
        Long chart.old →
        result ≡ Ok n →
        Lists (sealed_model grammar.now) kinds.now (take n records.new) }
    ensures short { (¬ Long chart.old) → (result ≡ Err ShortChart) × (records.new ≡ records.old) }
{
    let mut reading = Reading::open(grammar, chart);
    put_words(&mut reading, kinds)?;
    reading.list(records)
}

// Puts the kinds one by one and scores them, on the scale of the table's values.
pub fn score_words<S: Semiring>(
    grammar: &Grammar,
    kinds: &[u8],
    chart: &mut [u64],
    table: &mut [S],
) -> Result<S, ReadingRefusal>
    ensures scored { (v : S) →
        Long chart.old →
        length kinds.now ≤ 48 →
        Sentence (sealed_model grammar.now) kinds.now →
        places (sealed_model grammar.now).productions * ((length kinds.now + 1) * (length kinds.now + 1)) ≤ length table.old →
        Score S.Semiring.scale (sealed_model grammar.now) kinds.now v →
        result ≡ Ok v }
    ensures only { (v : S) →
        Long chart.old →
        result ≡ Ok v →
        Score S.Semiring.scale (sealed_model grammar.now) kinds.now v }
    ensures short { (¬ Long chart.old) → result ≡ Err ShortChart }
{
    let mut reading = Reading::open(grammar, chart);
    put_words(&mut reading, kinds)?;
    reading.score(table)
}
