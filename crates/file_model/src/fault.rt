ghost use Rattle.std.specs.Prelude.{◌≡◌, Some};
ghost use Rattle.file_model.specs.Files.{fault};
ghost use Rattle.file_model.specs.Faults.{refusal_report};

use grammar::refusals::{FileRefusal, Refusal};
use std::fmt;

// Why a text is no grammar file: the refusal, with its layer, and the line, counted from 1; 0 speaks of the whole text (no
// option: the C call packs that 0 and the programs print it).
#[derive(Clone, Copy, PartialEq, Eq, Debug)]
pub struct Fault {
    pub refusal: Refusal,
    pub line: usize,
}

impl Fault {
    // A refusal of the file's layer in the line.
    pub fn in_file(refusal: FileRefusal, line: usize) -> Fault
        ensures { result ≡ fault (Refusal.File refusal) line }
    {
        Fault {
            refusal: refusal.into(),
            line,
        }
    }
}

impl fmt::Display for Fault {
    ghost output = { λ f. Some (refusal_report f) };

    fn fmt<W: fmt::Write>(&self, f: &mut fmt::Formatter<W>) -> fmt::Result {
        let number = self.refusal.number();
        let line = self.line;
        write!(f, "book refused {number} line {line}")
    }
}
