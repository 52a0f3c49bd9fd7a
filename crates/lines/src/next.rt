ghost use Rattle.std.specs.Prelude.{◌≡◌, ℕ, ◌-◌, ◌≤◌, Bool, length};
ghost use Rattle.std.specs.Iterator.{at_most};
ghost use Rattle.std.specs.List.{prefix_len};
ghost use Rattle.lines.specs.Cuts.{word_of_run};
ghost use Rattle.lines.specs.Model.{word_of, Next, Within};

use crate::bytes::{all_digits, of_run, starts_name, visible};
use crate::word::Word;

// How many bytes at the front of the text pass the test. (by `for` with an index: this project's form where words are cut)
fn front<F: Fn(u8) -> bool>(text: &[u8], passes: F) -> usize
    requires { F.IsAlwaysCallable passes }
    ensures count { (p : ℕ → Bool) →
        ((byte : ℕ) (passed : Bool) → F.post passes byte passed → passed ≡ p byte) →
        result ≡ prefix_len p text.now }
    ensures within { result ≤ length text.now }
{
    for (i, byte) in text.iter().enumerate() {
        if !passes(*byte) {
            return i;
        }
    }
    text.len()
}

// The word that a run is.
fn run_word<'a>(run: &'a [u8]) -> Word<'a>
    ensures { word_of result ≡ word_of_run run.now }
{
    if starts_name(run) {
        Word::Name(run)
    } else if all_digits(run) {
        Word::Number(run)
    } else {
        Word::Mark(run)
    }
}

// The next word of the line from `from` on, with its place; none where only blanks are left.
pub fn next_word<'a>(line: &'a [u8], from: usize) -> Option<(Word<'a>, usize)>
    ensures next { Next line.now from result }
    ensures within { Within line.now from result }
{
    let rest = line.get(from..)?;
    let start = from + front(rest, |byte| byte == b' ');
    if start >= line.len() {
        return None;
    }
    let end = start + front(&line[start..], |byte| of_run(byte));
    if end > start {
        return Some((run_word(&line[start..end]), start));
    }
    let byte = &line[start..start + 1];
    if visible(line[start]) {
        Some((Word::Mark(byte), start))
    } else {
        Some((Word::Stray(byte), start))
    }
}

// The words of a line from a place on, each with its place.
#[derive(Drop)]
pub struct Words<'a> {
    line: &'a [u8],
    from: usize,
}

impl<'a> Words<'a> {
    ghost use Rattle.lines.specs.Iterating.{Continues};

    // All words of the line.
    pub fn of(line: &'a [u8]) -> Words<'a>
        ensures { Continues line.now 0 result }
    {
        Words { line, from: 0 }
    }
}

impl<'a> Iterator for Words<'a> {
    ghost use Rattle.lines.specs.Iterating.{TakesWord};

    type Item = (Word<'a>, usize);

    ghost next_gives = { TakesWord };

    ghost remaining = { λ w. at_most (length w.line.now - w.from) };

    fn next(&mut self) -> Option<(Word<'a>, usize)> {
        let (word, place) = next_word(self.line, self.from)?;
        self.from = place + word.bytes().len();
        Some((word, place))
    }
}
