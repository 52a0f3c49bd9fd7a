ghost use Rattle.std.specs.Prelude.{◌≡◌, length};

use crate::line_buffer::LineBuffer;
use crate::score_tables::ScoreTables;
use chart::CELL_COUNT;
use draft::sealed::Grammar;
use spellings::spellings::Spellings;

mod methods;

// Lines as they are read: by what they are judged, the one that is being read, and how many there were.
#[derive(Drop)]
pub struct Session {
    grammar: Grammar,
    spellings: Spellings,
    chart: [u64; CELL_COUNT],
    tables: ScoreTables,
    buffer: LineBuffer,
    count: u64,
    ghost long: { length chart ≡ 4802 },
}
