ghost use Rattle.std.specs.Prelude.{◌<◌, [], ◌∷◌, ◌++◌, decimal};
ghost use Rattle.grammar.specs.Model.{rule as rule_of};
ghost use Rattle.syntax.specs.Syntax.{word_line, sign, letter, render, mark_line, start_line};
ghost use Rattle.syntax.specs.Model.{spelling};
ghost use Rattle.syntax.specs.Writing.{Writes};
ghost use Rattle.file_model.specs.Files.{rule_form, ended};

use grammar::refusals::FileRefusal;
use grammar::rule::{Relation, Rule};
use syntax::spelling::Spelling;
use syntax::text::TextWriter;

// Writes the first two lines: the mark with the version, and the start symbol.
pub fn put_head(out: &mut TextWriter, start: u8) -> Result<(), FileRefusal>
    requires { start < 16 }
    ensures { Writes out.old (ended mark_line ++ ended (start_line start)) result out.new }
{
    out.put_bytes(b"RBK 1\nstart ")?;
    out.put_letter(start)?;
    out.put_bytes(b"\n")
}

// Writes the line that declares a kind's spelling.
pub fn put_word_line(out: &mut TextWriter, word: &Spelling) -> Result<(), FileRefusal>
    ensures { Writes out.old (ended (render (word_line (spelling word.now)))) result out.new }
{
    out.put_bytes(b"word ")?;
    out.put_spelling(word)?;
    out.put_bytes(b"\n")
}

// Writes the number that ends a line, and the line feed.
fn put_last_number(out: &mut TextWriter, n: u16) -> Result<(), FileRefusal>
    ensures { Writes out.old (ended (decimal n)) result out.new }
{
    out.put_number(n)?;
    out.put_bytes(b"\n")
}

// Writes the sign of the relation with a space before and behind it.
fn put_spaced_relation(out: &mut TextWriter, relation: Relation) -> Result<(), FileRefusal>
    ensures { Writes out.old (32 ∷ sign relation ∷ 32 ∷ []) result out.new }
{
    out.put_bytes(b" ")?;
    out.put_relation(relation)?;
    out.put_bytes(b" ")
}

// Writes the line of a rule, whose numbers count from 1.
pub fn put_rule_line(out: &mut TextWriter, rule: Rule) -> Result<(), FileRefusal>
    requires upper { 0 < rule.upper }
    requires lower { 0 < rule.lower }
    ensures { Writes out.old (ended (render (rule_form (rule_of rule)))) result out.new }
{
    out.put_number(u16::from(rule.upper))?;
    put_spaced_relation(out, rule.relation)?;
    put_last_number(out, u16::from(rule.lower))
}

// Writes the left nonterminal of a production, and the sign `=` between spaces.
pub fn put_left(out: &mut TextWriter, left: u8) -> Result<(), FileRefusal>
    requires { left < 16 }
    ensures { Writes out.old (letter left ++ 32 ∷ 61 ∷ 32 ∷ []) result out.new }
{
    out.put_letter(left)?;
    out.put_bytes(b" = ")
}

// Writes the semicolon and the price that end a production's line.
pub fn put_price(out: &mut TextWriter, price: u16) -> Result<(), FileRefusal>
    ensures { Writes out.old (59 ∷ 32 ∷ ended (decimal price)) result out.new }
{
    out.put_bytes(b"; ")?;
    put_last_number(out, price)
}
