//! The reader as one call for C programs.

#![tactic(auto)]

ghost use Rattle.std.specs.Prelude.{◌≡◌, ◌*◌, ◌≤◌, length};
ghost use Rattle.files.specs.Model.{model};
ghost use Rattle.reading.specs.Readings.{Long, Marks, cells, grammar_of, words};
ghost use Rattle.engine.specs.Answers.{packed, room, written, Lists, ReadsBy, Answers};

use chart::CELL_COUNT;
use files::spelled::SpelledDraft;
use grammar::refusals::ReadingRefusal;
use lines::put_line;
use listing_theory::record::Record;
use reading::reading::Reading;

// The number of a refusal, or 0, with 256 times a count, a line or a place: a C program gets one number.
fn pack(number: u8, more: usize) -> u32
    requires { more ≤ 65535 }
    ensures { result ≡ packed number more }
{
    u32::from(number) + 256 * more as u32
}

// Writes the records over the first bytes of the output. (By index, byte by byte: of what is written through an adapter of `iter_mut` a
// proof knows nothing, and a part that is lent to a copy would have to be shown to come back into the output as it was.)
fn write_records(records: &[Record], output: &mut [u8])
    requires { 3 * length records.now ≤ length output.old }
    ensures { output.new ≡ written records.now output.old }
{
    for (i, record) in records.iter().enumerate() {
        output[3 * i] = record.production;
        output[3 * i + 1] = record.start;
        output[3 * i + 2] = record.end;
    }
}

// Lists the smallest tree of the words that stand into the records and from there into the output; `size` is the length of their
// line.
fn list_through(reading: &Reading, size: usize, records: &mut [Record], output: &mut [u8]) -> u32
    requires small { size ≤ 65535 }
    requires long { Long (cells reading.now) }
    requires marks { Marks reading.now }
    requires space { length records.old ≡ room output.old }
    ensures { Lists (grammar_of reading.now) (words reading.now) size output.old result output.new }
{
    match reading.list(records) {
        Ok(count) => {
            write_records(&records[0..count], output);
            pack(0, count)
        }
        // (as one pattern with the `Ok`, the cases' answers lose what `list` says of them)
        Err(refusal) => match refusal {
            ReadingRefusal::ShortListing => {
                write_records(records, output);
                pack(refusal.number(), 0)
            }
            _ => pack(refusal.number(), size),
        },
    }
}

// Lists the smallest tree of the words that stand into the output, by 65535 records of its own.
fn write_listing(reading: &Reading, size: usize, output: &mut [u8]) -> u32
    requires small { size ≤ 65535 }
    requires long { Long (cells reading.now) }
    requires marks { Marks reading.now }
    ensures { Lists (grammar_of reading.now) (words reading.now) size output.old result output.new }
{
    let mut records = [Record {
        production: 0,
        start: 0,
        end: 0,
    }; 65535];
    let room = (output.len() / 3).min(65535);
    list_through(reading, size, &mut records[0..room], output)
}

// Reads the line by a book that was read.
fn read_by(book: SpelledDraft, line: &[u8], output: &mut [u8]) -> u32
    ensures { ReadsBy (model book) line.now output.old result output.new }
{
    let SpelledDraft { draft, spellings } = book;
    let grammar = draft.seal();
    let mut chart = [0u64; CELL_COUNT];
    let mut reading = Reading::open(&grammar, &mut chart);
    match put_line(&mut reading, &spellings, line) {
        Ok(_) => write_listing(&reading, line.len(), output),
        Err(fault) => pack(fault.refusal.number(), fault.place),
    }
}

// Reads a line by the text of a book, and writes the listing of its smallest tree into the output, three bytes to a record.
#[unsafe(no_mangle)]
pub extern "C" fn wembatogy_read(book: &[u8], line: &[u8], output: &mut [u8]) -> u32
    ensures { Answers book.now line.now output.old result output.new }
{
    let mut draft = SpelledDraft::new();
    match draft.read(book) {
        Ok(_) => read_by(draft, line, output),
        Err(fault) => pack(fault.refusal.number(), fault.line),
    }
}
