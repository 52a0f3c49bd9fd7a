ghost use Rattle.std.specs.Prelude.{◌+◌, ◌<◌, ◌≤◌, List, ◌∷◌, length};
ghost use Rattle.syntax.specs.Syntax.{Symbol, ValidSymbols, production_line};
ghost use Rattle.file_model.specs.Files.{Does, ReadsLine, Reads, ReadsFrom};
ghost use Rattle.spellings.specs.Model.{words};
ghost use Rattle.spellings.specs.Reading.{Gathers};
ghost use Rattle.files.specs.Model.{model};
ghost use Rattle.files.specs.Reading.{IsWord, IsProduction, IsRule, ReadsAs};

use crate::spelled::SpelledDraft;
use file_lines::reading::{cut_left, cut_word, read_mark, read_rule, read_start};
use file_model::fault::Fault;
use grammar::refusals::{FileRefusal, Refusal};
use spellings::reading::read_right;
use spellings::right::PricedRight;
use syntax::reading::{cut_at, read_spelling};

impl SpelledDraft {
    // Declares the spelling of a word line, from what stands behind `word` and its space.
    fn read_word(&mut self, part: &[u8]) -> Result<(), Refusal>
        ensures { ReadsAs IsWord (model self.old) (119 ∷ 111 ∷ 114 ∷ 100 ∷ 32 ∷ part.now) result (model self.new) }
    {
        let word = read_spelling(part).ok_or(FileRefusal::Form)?;
        self.spellings.declare(word)?;
        Ok(())
    }

    // Adds the production of a production line whose right side and price were read.
    fn add_line(&mut self, left: u8, priced: PricedRight) -> Result<(), Refusal>
        requires { left < 16 }
        ensures { (ss : List Symbol) →
            ValidSymbols ss →
            Gathers (words self.old.spellings) ss priced.right →
            Does (model self.old) (production_line left ss priced.price) result (model self.new) }
    {
        let symbols = priced.right?;
        self.draft
            .add_production(left, symbols.as_slice(), priced.price)?;
        Ok(())
    }

    // Adds the production of a production line, from its left nonterminal and what stands behind its sign =.
    fn read_production(&mut self, left: u8, text: &[u8]) -> Result<(), Refusal>
        requires { left < 16 }
        ensures { ReadsAs IsProduction (model self.old) ((65 + left) ∷ 32 ∷ 61 ∷ 32 ∷ text.now) result (model self.new) }
    {
        let priced = read_right(text, &self.spellings).ok_or(FileRefusal::Form)?;
        self.add_line(left, priced)
    }

    // Adds the rule of a line that can only be a rule line.
    fn read_rule_line(&mut self, line: &[u8]) -> Result<(), Refusal>
        ensures { ReadsAs IsRule (model self.old) line.now result (model self.new) }
    {
        let (upper, relation, lower) = read_rule(line).ok_or(FileRefusal::Form)?;
        self.draft.add_rule(upper, relation, lower)?;
        Ok(())
    }

    // Does what a line behind the second says.
    fn read_line(&mut self, line: &[u8]) -> Result<(), Refusal>
        ensures { ReadsLine (model self.old) line.now result (model self.new) }
    {
        if let Some(part) = cut_word(line) {
            return self.read_word(part);
        }
        if let Some((left, rest)) = cut_left(line) {
            return self.read_production(left, rest);
        }
        self.read_rule_line(line)
    }

    // Does what the lines behind the second say, one after the other, and answers the version. (Where a value holds a part of the
    // text, `let .. else` tells it by itself; after `ok_or(..)?` the proof lacks that it is that part.)
    fn read_lines(&mut self, text: &[u8]) -> Result<u16, Fault>
        requires { length text.now ≤ 16384 }
        ensures { ReadsFrom 3 (model self.old) text.now result (model self.new) }
    {
        let mut rest = text;
        let mut line = 3;
        // (a loop: the lines end with the text, and each may refuse it)
        while !rest.is_empty() {
            let Some((form, behind)) = cut_at(rest, b'\n') else {
                return Err(Fault::in_file(FileRefusal::Form, line));
            };
            // (by `map_err(..)?` it stays open what the line left)
            if let Err(refusal) = self.read_line(form) {
                return Err(Fault { refusal, line });
            }
            rest = behind;
            line += 1;
        }
        Ok(1)
    }

    // Empties the spelled draft, reads a grammar file into it, and answers the file's version. (Into a draft that there is, since the clause
    // also says what a refusal leaves.)
    pub fn read(&mut self, text: &[u8]) -> Result<u16, Fault>
        ensures { Reads text.now result (model self.new) }
    {
        *self = SpelledDraft::new();
        if text.len() > 16384 {
            return Err(Fault::in_file(FileRefusal::Form, 0));
        }
        // (`let .. else`, as in `read_lines`)
        let Some(rest) = read_mark(text) else {
            return Err(Fault::in_file(FileRefusal::Mark, 1));
        };
        let Some((symbol, body)) = read_start(rest) else {
            return Err(Fault::in_file(FileRefusal::Form, 2));
        };
        // (a letter from A to P: a nonterminal, which is never refused)
        let _ = self.draft.set_start(symbol);
        self.read_lines(body)
    }
}
