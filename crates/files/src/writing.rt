ghost use Rattle.std.specs.Prelude.{◌≡◌, true, false, map};
ghost use Rattle.syntax.specs.Writing.{Writes};
ghost use Rattle.file_model.specs.Spelled.{Unspelled};
ghost use Rattle.file_model.specs.Files.{production_form, rule_form, rendered, text_of, WritesFile, WritesBack};
ghost use Rattle.files.specs.Model.{model};

use crate::spelled::SpelledDraft;
use file_lines::writing::{put_head, put_rule_line};
use grammar::refusals::FileRefusal;
use syntax::text::TextWriter;

impl SpelledDraft {
    // Whether every kind that a production uses has a spelling. (With `all` both clauses stay open.)
    fn is_spelled(&self) -> bool
        ensures yes { result ≡ true → ¬ Unspelled (model self.now) }
        ensures no { result ≡ false → Unspelled (model self.now) }
    {
        for production in self.draft.productions() {
            if !self.spellings.spells(production.right()) {
                return false;
            }
        }
        true
    }

    // Writes a line for each production, in order of acceptance.
    fn put_productions(&self, out: &mut TextWriter) -> Result<(), FileRefusal>
        requires { ¬ Unspelled (model self.now) }
        ensures { Writes out.old (rendered (map (production_form (model self.now).spellings) (model self.now).draft.productions))
            result out.new }
    {
        for production in self.draft.productions() {
            self.spellings.put_production_line(out, production)?;
        }
        Ok(())
    }

    // Writes a line for each rule, in order of acceptance.
    fn put_rules(&self, out: &mut TextWriter) -> Result<(), FileRefusal>
        ensures { Writes out.old (rendered (map rule_form (model self.now).draft.rules)) result out.new }
    {
        for rule in self.draft.rules() {
            put_rule_line(out, *rule)?;
        }
        Ok(())
    }

    // Writes the lines of the grammar file one after the other.
    fn put_lines(&self, out: &mut TextWriter) -> Result<(), FileRefusal>
        requires { ¬ Unspelled (model self.now) }
        ensures { Writes out.old (text_of (model self.now)) result out.new }
    {
        put_head(out, self.draft.start())?;
        self.spellings.put_words(out)?;
        self.put_productions(out)?;
        self.put_rules(out)
    }

    // Writes the grammar file of the draft, and answers its length in bytes. Where a kind that a production uses has
    // no spelling, nothing is written; where the text is too short for the file, it holds the file's first bytes.
    // What was written is read back as this spelled draft.
    pub fn write(&self, out: &mut [u8]) -> Result<usize, FileRefusal>
        ensures written { WritesFile (model self.now) out.old result out.new }
        ensures back { WritesBack (model self.now) result out.new }
    {
        if !self.is_spelled() {
            return Err(FileRefusal::Undeclared);
        }
        let mut writer = TextWriter::new(out);
        self.put_lines(&mut writer)?;
        Ok(writer.written())
    }
}
