ghost use Rattle.std.specs.Prelude.{◌≤◌, length};
ghost use Rattle.syntax.specs.Reading.{
  FirstFound,
  CutsAt,
  ReadsDigits,
  ReadsNumber,
  Quoted,
  ReadsSpelling,
  ReadsSymbol,
  ReadsLetter,
  ReadsRelation,
};

use crate::spelling::{Literal, Spelling, Symbol};
use grammar::rule::Relation;

// The first index where the byte stands; none where it stands nowhere. (by `for` with an index: this project's form where words are cut)
fn first_index(bytes: &[u8], byte: u8) -> Option<usize>
    ensures { FirstFound bytes.now byte result }
{
    for (i, other) in bytes.iter().enumerate() {
        if *other == byte {
            return Some(i);
        }
    }
    None
}

// What stands before the first such byte, and what stands behind it; none where the byte does not stand in the text.
pub fn cut_at(text: &[u8], byte: u8) -> Option<(&[u8], &[u8])>
    ensures { CutsAt byte text.now result }
{
    let end = first_index(text, byte)?;
    Some((&text[..end], &text[end + 1..]))
}

// The number that at most five digits write; none where some byte is no digit.
fn digits_value(digits: &[u8]) -> Option<u32>
    requires { length digits.now ≤ 5 }
    ensures { ReadsDigits digits.now result }
{
    let mut n: u32 = 0;
    // (`try_fold` would hide that the number stays below 100,000)
    for byte in digits {
        if !byte.is_ascii_digit() {
            return None;
        }
        n = 10 * n + u32::from(*byte - b'0');
    }
    Some(n)
}

// The number up to 65535 that the part writes in decimal, with no leading zero.
pub fn read_number(part: &[u8]) -> Option<u16>
    ensures { ReadsNumber part.now result }
{
    if part.is_empty() || part.len() > 5 {
        return None;
    }
    if part[0] == b'0' && part.len() > 1 {
        return None;
    }
    let n = digits_value(part)?;
    u16::try_from(n).ok()
}

// What stands between the quotes that the part begins and ends with.
fn quoted(part: &[u8]) -> Option<&[u8]>
    ensures { Quoted part.now result }
{
    match part {
        [b'"', inner @ .., b'"'] => Some(inner),
        _ => None,
    }
}

// The spelling that the part writes.
pub fn read_spelling(part: &[u8]) -> Option<Spelling>
    ensures { ReadsSpelling part.now result }
{
    match part {
        b"NAME" => Some(Spelling::Name),
        b"NUM" => Some(Spelling::Num),
        _ => {
            let inner = quoted(part)?;
            let literal = Literal::new(inner)?;
            Some(Spelling::Literal(literal))
        }
    }
}

// The symbol that the part writes.
pub fn read_symbol(part: &[u8]) -> Option<Symbol>
    ensures { ReadsSymbol part.now result }
{
    match read_letter(part) {
        Some(s) => Some(Symbol::Nonterminal(s)),
        None => Some(Symbol::Spelled(read_spelling(part)?)),
    }
}

// The nonterminal whose letter the part is.
pub fn read_letter(part: &[u8]) -> Option<u8>
    ensures { ReadsLetter part.now result }
{
    match part {
        [letter @ b'A'..=b'P'] => Some(*letter - b'A'),
        _ => None,
    }
}

// The relation whose sign the byte is. (Not of Relation itself: signs belong to files. The sign is matched as a char, which is this
// project's form for it.)
pub fn read_relation(sign: u8) -> Option<Relation>
    ensures { ReadsRelation sign result }
{
    match sign as char {
        '>' => Some(Relation::Priority),
        'L' => Some(Relation::Left),
        'R' => Some(Relation::Right),
        'N' => Some(Relation::NonAssoc),
        _ => None,
    }
}
