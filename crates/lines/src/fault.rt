use grammar::refusals::{LineRefusal, ReadingRefusal, Refusal};
use std::fmt;

// Why a line is refused: the refusal, with its layer, and the place in bytes, counted from 0. (It is 0 also where the refusal speaks
// of no place, and no option: `walk` prints that 0.)
#[derive(Clone, Copy, PartialEq, Eq, Debug)]
pub struct LineFault {
    pub refusal: Refusal,
    pub place: usize,
}

impl LineFault {
    ghost use Rattle.std.specs.Prelude.{◌≡◌};
    ghost use Rattle.grammar.specs.declared.refusals.LineRefusal.TheVariants.{UnknownWord};
    ghost use Rattle.grammar.specs.declared.refusals.Refusal.TheVariants.{Line, Reading};
    ghost use Rattle.lines.specs.Lines.{fault};

    // The line has no word at the place that its spellings know.
    pub fn unknown_word(place: usize) -> LineFault
        ensures { result ≡ fault (Line UnknownWord) place }
    {
        LineFault {
            refusal: LineRefusal::UnknownWord.into(),
            place,
        }
    }

    // The reading refuses the line's words at the place.
    pub fn of_words(refusal: ReadingRefusal, place: usize) -> LineFault
        ensures { result ≡ fault (Reading refusal) place }
    {
        LineFault {
            refusal: refusal.into(),
            place,
        }
    }
}

impl fmt::Display for LineFault {
    ghost use Rattle.std.specs.Prelude.{Some};
    ghost use Rattle.lines.specs.Lines.{fault_report};

    ghost output = { λ f. Some (fault_report f) };

    fn fmt<W: fmt::Write>(&self, f: &mut fmt::Formatter<W>) -> fmt::Result {
        let number = self.refusal.number();
        let place = self.place;
        write!(f, "refused {number} at {place}")
    }
}
