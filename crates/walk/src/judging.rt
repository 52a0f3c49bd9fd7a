ghost use Rattle.std.specs.Prelude.{ℕ, length};
ghost use Rattle.spellings.specs.Model.{words};
ghost use Rattle.reading.specs.Readings.{Long, Marks, cells};
ghost use Rattle.walk.specs.Verdicts.{WordsJudged, LineJudged};

use crate::score_tables::ScoreTables;
use crate::scores::Scores;
use draft::sealed::Grammar;
use grammar::refusals::ReadingRefusal;
use lines::fault::LineFault;
use lines::put_line;
use reading::reading::Reading;
use spellings::spellings::Spellings;

// What the words that stand are, of a line that ends at the place.
fn judge_words(reading: &Reading, tables: &mut ScoreTables, end: usize) -> Result<Scores, LineFault>
    ensures { (Long (cells reading.now) → Marks reading.now) → WordsJudged reading.now end result }
{
    let (sentence, _) = reading
        .look()
        .map_err(|refusal| LineFault::of_words(refusal, 0))?;
    if !sentence {
        return Err(LineFault::of_words(ReadingRefusal::NoSentence, end));
    }
    tables
        .scores(reading)
        .map_err(|refusal| LineFault::of_words(refusal, 0))
}

// What the line is, read by the grammar and the spellings of its kinds. (The parts of a session one by one: a method of it would also
// have to say what of the session stays.)
#[tactic(auto, using(crate::proofs::Putting::judged_put, crate::proofs::Putting::judged_refused))]
pub(crate) fn verdict_of(
    grammar: &Grammar,
    spellings: &Spellings,
    chart: &mut [u64],
    tables: &mut ScoreTables,
    line: &[u8],
) -> Result<Scores, LineFault>
    ensures { LineJudged grammar.now (words spellings.now) chart.old line.now result }
{
    let mut reading = Reading::open(grammar, chart);
    put_line(&mut reading, spellings, line)?;
    judge_words(&reading, tables, line.len())
}
