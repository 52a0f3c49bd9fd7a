ghost use Rattle.std.specs.Prelude.{◌≡◌, true, false};
ghost use Rattle.file_lines.specs.Reading.{ReadsMark, ReadsStart, CutsWord, CutsLeft, CutsSign, ReadsRule, SemicolonAt};

use grammar::rule::Relation;
use syntax::reading::{cut_at, read_number, read_relation};

// What follows the first line, with its mark and version; none where the text does not begin with that line.
pub fn read_mark(text: &[u8]) -> Option<&[u8]>
    ensures { ReadsMark text.now result }
{
    text.strip_prefix(b"RBK 1\n")
}

// The start symbol that the second line gives, and what follows the line; none where the text does not begin with such a line.
pub fn read_start(text: &[u8]) -> Option<(u8, &[u8])>
    ensures { ReadsStart text.now result }
{
    match text.strip_prefix(b"start ")? {
        [letter @ b'A'..=b'P', b'\n', rest @ ..] => Some((*letter - b'A', rest)),
        _ => None,
    }
}

// What stands behind the `word` of a word line and its space; none where the line does not begin so.
pub fn cut_word(line: &[u8]) -> Option<&[u8]>
    ensures { CutsWord line.now result }
{
    line.strip_prefix(b"word ")
}

// The left nonterminal of a production line and what stands behind its sign =; none where the line does not begin so.
pub fn cut_left(line: &[u8]) -> Option<(u8, &[u8])>
    ensures { CutsLeft line.now result }
{
    match line {
        [left @ b'A'..=b'P', b' ', b'=', b' ', rest @ ..] => Some((*left - b'A', rest)),
        _ => None,
    }
}

// The sign byte before a space and what follows the space; none where the text does not begin so.
fn cut_sign(text: &[u8]) -> Option<(u8, &[u8])>
    ensures { CutsSign text.now result }
{
    match text {
        [sign, b' ', rest @ ..] => Some((*sign, rest)),
        _ => None,
    }
}

// The two numbers of a rule line and the relation between them; none where the line is no rule line. (as they are written: there is no
// `Rule` before the numbers are known to name productions)
pub fn read_rule(line: &[u8]) -> Option<(u16, Relation, u16)>
    ensures { ReadsRule line.now result }
{
    let (first, rest) = cut_at(line, b' ')?;
    let (sign, last) = cut_sign(rest)?;
    let upper = read_number(first)?;
    let relation = read_relation(sign)?;
    let lower = read_number(last)?;
    Some((upper, relation, lower))
}

// Whether the text begins with the semicolon of a production line and its space.
pub fn at_semicolon(text: &[u8]) -> bool
    ensures yes { result ≡ true → SemicolonAt text.now 0 }
    ensures no { result ≡ false → ¬ SemicolonAt text.now 0 }
{
    text.starts_with(b"; ")
}
