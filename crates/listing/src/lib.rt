//! Lists the smallest tree of words from their chart.

#![tactic(auto)]

ghost use Rattle.std.specs.Prelude.{◌≡◌, ◌<◌, ◌≤◌, length};
ghost use Rattle.grammar.specs.Grammar.{Grammar};
ghost use Rattle.grammar.specs.Model.{productions as productions_of};
ghost use Rattle.grammar.specs.Sound.{WellFormed};
ghost use Rattle.tables.specs.Meaning.{Means};
ghost use Rattle.chart.specs.Chart.{Charted};
ghost use Rattle.listing.specs.Calls.{Listed};

mod node;
mod slot;
mod sources;

use chart::CELL_COUNT;
use grammar::production::Production;
use grammar::refusals::ReadingRefusal;
use listing_theory::record::Record;
use sources::Sources;
use tables::tables::Tables;

// Lists the smallest tree of the words into the records and answers how many records it has. Where the words have no tree
// nothing is written; where the records are too few, as many are written as there are.
pub fn list(
    tables: &Tables,
    productions: &[Production],
    words: &[u8],
    cells: &[u64],
    records: &mut [Record],
) -> Result<usize, ReadingRefusal>
    requires long { 4802 ≤ length cells.now }
    requires few { length words.now ≤ 48 }
    requires counted { tables.now.count ≡ length productions.now }
    ensures size { length records.new ≡ length records.old }
    ensures listed { (g : Grammar) →
        Means tables.now g →
        g.productions ≡ productions_of productions.now →
        WellFormed g →
        Charted tables.now g words.now cells.now →
        Listed g words.now records.old result records.new }
{
    let Some(cells) = cells.first_chunk::<CELL_COUNT>() else {
        return Err(ReadingRefusal::NoSentence);
    };
    let sources = Sources {
        tables,
        productions,
        words,
        cells,
    };
    let root = sources.root().ok_or(ReadingRefusal::NoSentence)?;
    root.list(records)
}
