//! Reads the grammar file `book.rbk` in the current folder and lines from standard input, and prints what each line is.

#![tactic(auto)]

mod input;
mod input_laws;
mod judging;
mod line_buffer;
mod score_tables;
mod scores;
mod session;

use input::walk;
use reports::input::{BOOK, reported};
use std::io::{BufWriter, Write};
use std::{fs, io};

fn main(rt: HostRuntime) -> io::Result<()> {
    let text = reported(&rt, BOOK, fs::read(&rt, BOOK))?;
    let mut out = BufWriter::new(rt.alloc(), rt.stdout())?;
    walk(&rt, text.as_slice(), &mut rt.stdin(), &mut out)?;
    out.flush()
}
