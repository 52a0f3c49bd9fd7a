ghost use Rattle.std.specs.Prelude.{◌≡◌, IfOk};
ghost use Rattle.reports.specs.Reports.{Printed};

use crate::summary::read_book;
use files::spelled::SpelledDraft;
use std::io;
use std::io::Write;

// The name of the grammar file.
pub const BOOK: &str = "book.rbk";

// Hands on what was read; where that is an error, says on standard error what can't be read.
pub fn reported<T>(rt: &HostRuntime, name: &str, read: io::Result<T>) -> io::Result<T>
    ensures { result ≡ read }
{
    read.inspect_err(|error| {
        let _ = eprintln!(rt; "{name} can't be read: {error}");
    })
}

// Reads the text as a grammar file, and writes what it is; none where it is refused.
pub fn print_book<W: io::Write>(out: &mut W, text: &[u8]) -> io::Result<Option<SpelledDraft>>
    ensures { IfOk result (λ book. Printed text.now book (W.contents out.old) (W.contents out.new)) }
{
    let mut book = SpelledDraft::new();
    match read_book(&mut book, text) {
        Ok(summary) => {
            writeln!(out, "{summary}")?;
            Ok(Some(book))
        }
        Err(fault) => {
            writeln!(out, "{fault}")?;
            Ok(None)
        }
    }
}
