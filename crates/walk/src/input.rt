ghost use Rattle.std.specs.Prelude.{IfSome, OnOk};
ghost use Rattle.files.specs.Model.{model};
ghost use Rattle.walk.specs.Outputs.{LinesOutput, Output, Writes};
ghost use Rattle.walk.specs.Sessions.{TookAll};

use crate::session::Session;
use files::spelled::SpelledDraft;
use reports::input::{print_book, reported};
use std::io;
use std::io::{Read, Write};

// Reads the input part by part, and writes what each line is. (The runtime, the input and the output, here and below, are three things
// that `main` lends.)
fn read_lines<R: io::Read, W: io::Write>(
    rt: &HostRuntime,
    session: &mut Session,
    input: &mut R,
    out: &mut W,
) -> io::Result<()>
    ensures { OnOk result (IfSome (R.remaining input.old) (λ text.
        TookAll session.old text session.new (W.contents out.old) (W.contents out.new))) }
{
    let mut part = [0u8; 8192];
    // (a bound, since input may never end and a loop must)
    for _ in 0..u64::MAX {
        let count = reported(rt, "standard input", input.read(&mut part))?;
        if count == 0 {
            return session.finish(out);
        }
        session.take(&part[..count], out)?;
    }
    Err(io::Error::other("the input does not end"))
}

// Writes what each line of the input is by the book, and then how many lines there were.
fn judge_lines<R: io::Read, W: io::Write>(
    rt: &HostRuntime,
    book: SpelledDraft,
    input: &mut R,
    out: &mut W,
) -> io::Result<()>
    ensures { OnOk result (IfSome (R.remaining input.old) (λ text.
        Writes (LinesOutput (model book) text) (W.contents out.old) (W.contents out.new))) }
{
    let mut session = Session::new(book);
    read_lines(rt, &mut session, input, out)?;
    let count = session.count();
    writeln!(out, "lines {count}")
}

// Writes what the text is as a grammar file and, where it is one, what each line of the input is by it. The line of the book is written
// out before the input is read.
pub(crate) fn walk<R: io::Read, W: io::Write>(
    rt: &HostRuntime,
    text: &[u8],
    input: &mut R,
    out: &mut W,
) -> io::Result<()>
    ensures { OnOk result (IfSome (R.remaining input.old) (λ lines.
        Writes (Output text.now lines) (W.contents out.old) (W.contents out.new))) }
{
    match print_book(out, text)? {
        Some(book) => {
            out.flush()?;
            judge_lines(rt, book, input, out)
        }
        None => Ok(()),
    }
}
