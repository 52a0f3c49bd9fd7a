//! Reads the grammar file `book.rbk` in the current folder and lines from standard input, and prints what each line is,
//! found by trying all trees. How it reads its input, cuts words, counts trees, tells faults and prints is apart from the
//! reader's crates: this program is compared with it.

#![tactic(auto)]

mod book;
mod conflicts;
mod fault;
mod forest;
mod position;
mod prefixes;
mod trees;
mod verdict;
mod words;

use book::Book;
use fault::LineError;
use files::spelled::SpelledDraft;
use std::io::Read;
use std::{fs, io};
use verdict::verdict_of;

// All that standard input has.
fn read_input(rt: &HostRuntime) -> io::Result<Vec<u8>> {
    let mut input = Vec::new(rt.alloc());
    rt.stdin().read_to_end(&mut input)?;
    Ok(input)
}

// Prints a line's number and what the line is.
fn print_verdict(rt: &HostRuntime, book: &Book, number: usize, line: &[u8]) -> io::Result<()> {
    match verdict_of(rt.alloc(), book, line) {
        Ok(trees) => println!(rt; "{number} {trees}"),
        Err(LineError::Refused(fault)) => println!(rt; "{number} {fault}"),
        Err(LineError::Memory(error)) => Err(io::Error::from(error)),
    }
}

// Prints what each line of the input is, and how many lines there are. The last one may lack its line feed.
fn print_lines(rt: &HostRuntime, book: &Book, input: &[u8]) -> io::Result<()> {
    // (counted here, since the number of lines is printed behind them)
    let mut count = 0;
    for line in input.split_inclusive(|byte| *byte == b'\n') {
        count += 1;
        let line = line.strip_suffix(b"\n").unwrap_or(line);
        print_verdict(rt, book, count, line)?;
    }
    println!(rt; "lines {count}")
}

// Prints what the book is and, where it is read, what each line of the input is.
fn run(rt: &HostRuntime) -> io::Result<()> {
    let text = fs::read(rt, "book.rbk")?;
    let mut spelled = SpelledDraft::new();
    if let Err(fault) = spelled.read(text.as_slice()) {
        let number = fault.refusal.number();
        let line = fault.line;
        return println!(rt; "book refused {number} line {line}");
    }
    let productions = spelled.draft.production_count();
    let rules = spelled.draft.rule_count();
    println!(rt; "RBK 1 productions {productions} rules {rules}")?;
    let book = Book::new(rt.alloc(), spelled)?;
    let input = read_input(rt)?;
    print_lines(rt, &book, input.as_slice())
}

fn main(rt: HostRuntime) -> io::Result<()> {
    run(&rt)
}
