ghost use Rattle.std.specs.Prelude.{Some};
ghost use Rattle.files.specs.Model.{model};
ghost use Rattle.reports.specs.Reports.{report, OutcomeOf};

use file_model::fault::Fault;
use files::spelled::SpelledDraft;
use std::fmt;

// How much a grammar file has.
#[derive(Clone, Copy, PartialEq, Eq, Debug)]
pub struct Summary {
    pub version: u16,
    pub productions: usize,
    pub rules: usize,
}

impl fmt::Display for Summary {
    ghost output = { λ s. Some (report s) };

    fn fmt<W: fmt::Write>(&self, f: &mut fmt::Formatter<W>) -> fmt::Result {
        let Summary {
            version,
            productions,
            rules,
        } = self;
        write!(f, "RBK {version} productions {productions} rules {rules}")
    }
}

// Reads the text as a grammar file into the book, and answers how much that has.
pub fn read_book(book: &mut SpelledDraft, text: &[u8]) -> Result<Summary, Fault>
    ensures { OutcomeOf text.now (model book.new) result }
{
    let version = book.read(text)?;
    Ok(Summary {
        version,
        productions: book.draft.production_count(),
        rules: book.draft.rule_count(),
    })
}
