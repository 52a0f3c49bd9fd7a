ghost use Rattle.std.specs.Prelude.{◌≡◌, OnOk};
ghost use Rattle.files.specs.Model.{model};
ghost use Rattle.walk.specs.Sessions.{Starts, EndsLine, Reported, Took, Finished};

use super::Session;
use crate::judging::verdict_of;
use crate::line_buffer::LineBuffer;
use crate::score_tables::ScoreTables;
use crate::scores::LineReport;
use chart::CELL_COUNT;
use files::spelled::SpelledDraft;
use std::io;
use std::io::Write;

impl Session {
    // A session by the book, which is sealed, with no lines.
    pub(crate) fn new(book: SpelledDraft) -> Session
        ensures { Starts (model book) result }
    {
        let SpelledDraft { draft, spellings } = book;
        Session {
            grammar: draft.seal(),
            spellings,
            chart: [0; CELL_COUNT],
            tables: ScoreTables::new(),
            buffer: LineBuffer::new(),
            count: 0,
        }
    }

    // How many lines there were.
    pub(crate) fn count(&self) -> u64
        ensures { result ≡ self.now.count }
    {
        self.count
    }

    // Ends the line that is being read, and answers what it is.
    fn end_line(&mut self) -> LineReport
        ensures { EndsLine self.old result self.new }
    {
        let verdict = verdict_of(
            &self.grammar,
            &self.spellings,
            &mut self.chart,
            &mut self.tables,
            self.buffer.line(),
        );
        self.buffer.clear();
        self.count = self.count.saturating_add(1);
        LineReport {
            line: self.count,
            verdict,
        }
    }

    // Ends the line that is being read, and writes what it is.
    fn report_line<W: io::Write>(&mut self, out: &mut W) -> io::Result<()>
        ensures { OnOk result (Reported self.old self.new (W.contents out.old) (W.contents out.new)) }
    {
        let report = self.end_line();
        writeln!(out, "{report}")
    }

    // Takes a part of the input, and writes what each line is that ends in it.
    pub(crate) fn take<W: io::Write>(&mut self, part: &[u8], out: &mut W) -> io::Result<()>
        ensures { OnOk result (Took self.old part.now self.new (W.contents out.old) (W.contents out.new)) }
    {
        // (by what is left of the part: the buffer takes the rest only when the line before it has ended)
        let mut rest = part;
        while let Some(behind) = self.buffer.take(rest) {
            rest = behind;
            self.report_line(out)?;
        }
        Ok(())
    }

    // Ends the input: bytes behind the last line feed are a line.
    pub(crate) fn finish<W: io::Write>(&mut self, out: &mut W) -> io::Result<()>
        ensures { OnOk result (Finished self.old self.new (W.contents out.old) (W.contents out.new)) }
    {
        if !self.buffer.line().is_empty() {
            self.report_line(out)?;
        }
        Ok(())
    }
}
