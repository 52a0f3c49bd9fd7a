ghost use Rattle.std.specs.Prelude.{◌≡◌, ◌+◌, ◌<◌, true, false, map, length};
ghost use Rattle.grammar.specs.Model.{production as production_of};
ghost use Rattle.syntax.specs.Syntax.{word_line, symbol_text, render};
ghost use Rattle.syntax.specs.Writing.{Writes};
ghost use Rattle.file_model.specs.Spelled.{written};
ghost use Rattle.file_model.specs.Files.{production_form, ended, rendered};
ghost use Rattle.spellings.specs.Model.{words};
ghost use Rattle.spellings.specs.Writing.{AllSpelled, SomeUnspelled, symbol_parts};

use crate::spellings::Spellings;
use file_lines::writing::{put_left, put_price, put_word_line};
use grammar::production::Production;
use grammar::refusals::FileRefusal;
use syntax::text::TextWriter;

impl Spellings {
    // Whether every kind of the right side has a spelling.
    pub fn spells(&self, right: &[u8]) -> bool
        ensures yes { result ≡ true → AllSpelled (words self.now) right.now }
        ensures no { result ≡ false → SomeUnspelled (words self.now) right.now }
    {
        right
            .iter()
            .all(|symbol| usize::from(*symbol) < 16 + self.count())
    }

    // Writes a symbol: a kind by its spelling, a nonterminal by its letter.
    fn put_symbol(&self, out: &mut TextWriter, symbol: u8) -> Result<(), FileRefusal>
        requires { symbol < 16 + length (words self.now) }
        ensures { Writes out.old (symbol_text (written (words self.now) symbol)) result out.new }
    {
        match self.spelling_of(symbol) {
            Some(word) => out.put_spelling(&word),
            None => out.put_letter(symbol),
        }
    }

    // Writes the symbols of a right side, each with a space behind it.
    fn put_symbols(&self, out: &mut TextWriter, right: &[u8]) -> Result<(), FileRefusal>
        requires { AllSpelled (words self.now) right.now }
        ensures { Writes out.old (symbol_parts (map (written (words self.now)) right.now)) result out.new }
    {
        for symbol in right {
            self.put_symbol(out, *symbol)?;
            out.put_bytes(b" ")?;
        }
        Ok(())
    }

    // Writes the line of a production.
    pub fn put_production_line(
        &self,
        out: &mut TextWriter,
        production: &Production,
    ) -> Result<(), FileRefusal>
        requires nonterminal { (production_of production.now).left < 16 }
        requires spelled { AllSpelled (words self.now) (production_of production.now).right }
        ensures { Writes out.old (ended (render (production_form (words self.now) (production_of production.now))))
            result out.new }
    {
        put_left(out, production.left())?;
        self.put_symbols(out, production.right())?;
        put_price(out, production.price())
    }

    // Writes a line for each spelling, in order of declaration.
    pub fn put_words(&self, out: &mut TextWriter) -> Result<(), FileRefusal>
        ensures { Writes out.old (rendered (map word_line (words self.now))) result out.new }
    {
        for word in self.words() {
            put_word_line(out, word)?;
        }
        Ok(())
    }
}
