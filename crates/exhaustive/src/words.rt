ghost use Rattle.std.specs.Prelude.{◌-◌, ◌≤◌, length};
ghost use Rattle.std.specs.Iterator.{at_most};

use spellings::spellings::Spellings;
use syntax::spelling::{Literal, Spelling};

// How many bytes at the front of the text pass the test.
fn front<F: Fn(u8) -> bool>(text: &[u8], passes: F) -> usize
    requires { F.IsAlwaysCallable passes }
    ensures { result ≤ length text.now }
{
    text.iter()
        .position(|byte| !passes(*byte))
        .unwrap_or(text.len())
}

// Whether the byte may stand in a run.
fn in_run(byte: u8) -> bool {
    byte.is_ascii_alphanumeric() || byte == b'_'
}

// The words of a line from a place on, each with its place.
#[derive(Drop)]
pub struct Words<'a> {
    line: &'a [u8],
    from: usize,
    ghost within: { from ≤ length line.now },
}

impl<'a> Words<'a> {
    // The words of the line.
    pub(crate) fn of(line: &'a [u8]) -> Words<'a> {
        Words { line, from: 0 }
    }
}

impl<'a> Iterator for Words<'a> {
    type Item = (&'a [u8], usize);

    ghost remaining = { λ w. at_most (length w.line.now - w.from) };

    // A word is a run of letters, digits and underscores, as long as it can be, or one other byte; spaces part words.
    fn next(&mut self) -> Option<(&'a [u8], usize)> {
        let line = self.line;
        let place = self.from + front(&line[self.from..], |byte| byte == b' ');
        if place == line.len() {
            return None;
        }
        let run = front(&line[place..], in_run);
        let end = if run == 0 { place + 1 } else { place + run };
        self.from = end;
        Some((&line[place..end], place))
    }
}

// Whether each byte is a digit.
fn is_number(word: &[u8]) -> bool {
    word.iter().all(|byte| byte.is_ascii_digit())
}

// Whether the word begins as a name does.
fn is_name(word: &[u8]) -> bool {
    word.first()
        .is_some_and(|byte| byte.is_ascii_alphabetic() || *byte == b'_')
}

// The kind of the literal with the word's bytes.
fn literal_kind(spellings: &Spellings, word: &[u8]) -> Option<u8> {
    let literal = Literal::new(word)?;
    spellings.kind_of(&Spelling::Literal(literal))
}

// The kind of a word: its literal's, else that of `NUM` for a number and of `NAME` for a name.
pub(crate) fn kind_of(spellings: &Spellings, word: &[u8]) -> Option<u8> {
    if let Some(kind) = literal_kind(spellings, word) {
        return Some(kind);
    }
    if is_number(word) {
        return spellings.kind_of(&Spelling::Num);
    }
    if is_name(word) {
        return spellings.kind_of(&Spelling::Name);
    }
    None
}
