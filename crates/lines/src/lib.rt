//! Lines of text: how a line is cut into words, what kind each word has, and how a line is put into a reading.

#![tactic(auto)]

mod bytes;
pub mod fault;
pub mod kinds;
pub mod next;
pub mod word;

ghost use Rattle.spellings.specs.Model.{words};
ghost use Rattle.agreement.specs.Histories.{Stands};
ghost use Rattle.lines.specs.Cuts.{OneCut};
ghost use Rattle.lines.specs.Model.{word_of};
ghost use Rattle.lines.specs.Lines.{PutsWord, PutsLine, PutsKinds, LeavesLine};

use crate::fault::LineFault;
use crate::kinds::kind_of;
use crate::next::Words;
use crate::word::Word;
use reading::reading::Reading;
use spellings::spellings::Spellings;

// The most bytes of a line.
const LINE_BYTES: usize = 16384;

// Every line has exactly one cut into words.
pub fn cuts_are_unique()
    ensures { OneCut }
{}

// Puts one word of a line, which stands at the place.
fn put_word(
    reading: &mut Reading,
    spellings: &Spellings,
    word: Word,
    place: usize,
) -> Result<(), LineFault>
    ensures { PutsWord (words spellings.now) reading.old (word_of word.entry, place) result reading.new }
{
    let kind = kind_of(spellings, word).ok_or(LineFault::unknown_word(place))?;
    reading
        .put(kind)
        .map_err(|refusal| LineFault::of_words(refusal, place))?;
    Ok(())
}

// Puts the words of a line one by one behind those that stand, and answers how many then stand. The first refusal ends the line; the
// words before it stay.
pub fn put_line(
    reading: &mut Reading,
    spellings: &Spellings,
    line: &[u8],
) -> Result<usize, LineFault>
    ensures put { PutsLine (words spellings.now) line.now reading.old result reading.new }
    ensures leaves { LeavesLine (words spellings.now) line.now reading.old result reading.new }
    ensures kinds { PutsKinds reading.old reading.new }
    ensures stands { Stands reading.old → Stands reading.new }
{
    if line.len() > LINE_BYTES {
        return Err(LineFault::unknown_word(LINE_BYTES));
    }
    for (word, place) in Words::of(line) {
        put_word(reading, spellings, word, place)?;
    }
    Ok(reading.words().len())
}
