ghost use Rattle.std.specs.Prelude.{◌≡◌, ◌+◌, ◌<◌, length, MatchOption, MatchResult};
ghost use Rattle.grammar.specs.Grammar.{Kind};
ghost use Rattle.grammar.specs.declared.refusals.ReadingRefusal.TheVariants.{ShortChart};
ghost use Rattle.reading.specs.Readings.{Put, TakenFromEnd, Looked, Opened, Listed, Scored, ScoreRefused, Long, without_value, words, cells};

use super::Reading;
use crate::chart_fits;
use chart::{accepts, expected_kinds, open_chart};
use draft::sealed::Grammar;
use grammar::bytes::Bytes;
use grammar::refusals::ReadingRefusal;
use listing_theory::record::Record;
use scales::Semiring;

// The number of the kind as the chart counts kinds, from 0; none where the symbol is no kind.
fn index_of(kind: u8) -> Option<usize>
    ensures { MatchOption result (¬ Kind kind) (λ index. (index < 32) × (16 + index ≡ kind)) }
{
    match kind {
        16..=47 => Some(usize::from(kind - 16)),
        _ => None,
    }
}

impl<'b, 'c> Reading<'b, 'c> {
    // A reading of the grammar with no words, on the lent chart. A chart that is too short stays as it is.
    pub fn open(grammar: &'b Grammar, chart: &'c mut [u64]) -> Reading<'b, 'c>
        ensures opened { Opened chart.old result }
        ensures grammar { result.grammar.now ≡ grammar.now }
        ensures lent { result.chart.ghost_name ≡ chart.entry.ghost_name }
    {
        if chart_fits(chart) {
            open_chart(grammar.tables(), chart);
        }
        let line = Bytes::empty();
        Reading {
            grammar,
            chart,
            line,
        }
    }

    // Puts a word of the kind behind the words that stand, and answers how many then stand.
    pub fn put(&mut self, kind: u8) -> Result<u8, ReadingRefusal>
        ensures { Put self.old kind result self.new }
    {
        self.cells()?;
        if self.line.is_full() {
            return Err(ReadingRefusal::LineFull);
        }
        let count = self.line.len();
        let index = index_of(kind).ok_or(ReadingRefusal::NoKind)?;
        if !chart::put(self.grammar.tables(), self.chart, count, index) {
            return Err(ReadingRefusal::NothingBegins);
        }
        self.line.push(kind);
        Ok((count + 1) as u8)
    }

    // Takes the last word back, and answers how many then stand.
    pub fn take_back(&mut self) -> Result<u8, ReadingRefusal>
        ensures { TakenFromEnd self.old result self.new }
    {
        self.cells()?;
        let count = self.line.len();
        self.line.pop().ok_or(ReadingRefusal::NoWord)?;
        chart::take_back(self.chart, count);
        Ok((count - 1) as u8)
    }

    // The cells of the chart, if there are enough.
    fn cells(&self) -> Result<&[u64], ReadingRefusal>
        ensures { MatchResult result (λ chart. Long (cells self.now) × (chart.now ≡ cells self.now)) (λ e. (e ≡ ShortChart) × ¬ Long (cells self.now)) }
    {
        if chart_fits(self.chart) {
            Ok(self.chart)
        } else {
            Err(ReadingRefusal::ShortChart)
        }
    }

    // Whether the words that stand are a sentence, and the kinds that may come next: bit b for the kind 16 + b, none where 48 words
    // stand. A plain pair is this project's form for it.
    pub fn look(&self) -> Result<(bool, u32), ReadingRefusal>
        ensures { Looked self.now result }
    {
        let cells = self.cells()?;
        let tables = self.grammar.tables();
        let count = self.line.len();
        let sentence = accepts(tables, cells, count);
        if self.line.is_full() {
            return Ok((sentence, 0));
        }
        let kinds = expected_kinds(tables, cells, count);
        Ok((sentence, kinds))
    }

    // Lists the smallest tree of the words that stand into the records, and answers how many records it has.
    pub fn list(&self, records: &mut [Record]) -> Result<usize, ReadingRefusal>
        ensures { Listed self.now records.old result records.new }
    {
        let cells = self.cells()?;
        let tables = self.grammar.tables();
        let productions = self.grammar.draft().productions();
        listing::list(tables, productions, self.words(), cells, records)
    }

    // The sum of the products of all trees of the words that stand, on the scale of the table's values. The table is filled with the
    // sums over all ways.
    pub fn score<S: Semiring>(&self, table: &mut [S]) -> Result<S, ReadingRefusal>
        ensures scored { Scored S.Semiring.scale self.now table.old result table.new }
        ensures refused { ScoreRefused self.now (length table.old) (without_value result) }
    {
        self.cells()?;
        let draft = self.grammar.draft();
        let words = self.words();
        let width = words.len() + 1;
        if table.len() < draft.place_count() * (width * width) {
            return Err(ReadingRefusal::ShortTable);
        }
        let tables = self.grammar.tables();
        let productions = draft.productions();
        Ok(score::score(tables, productions, draft.start(), words, table))
    }

    // The words that stand, by their kinds.
    pub fn words(&self) -> &[u8]
        ensures { result.now ≡ words self.now }
    {
        self.line.as_slice()
    }

    // Ends the reading, and gives the chart back as it is.
    pub fn end(self) -> &'c mut [u64]
        ensures same { result.now ≡ self.entry.chart.now }
        ensures lent { result.ghost_name ≡ self.entry.chart.ghost_name }
    {
        let Reading {
            grammar: _,
            chart,
            line: _,
        } = self;
        chart
    }
}
