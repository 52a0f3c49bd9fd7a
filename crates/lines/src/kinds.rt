ghost use Rattle.std.specs.Option.{MatchOption};
ghost use Rattle.syntax.specs.Syntax.{literal};
ghost use Rattle.syntax.specs.Model.{spelling};
ghost use Rattle.file_model.specs.Spelled.{Declared};
ghost use Rattle.spellings.specs.Model.{words};
ghost use Rattle.lines.specs.Model.{word_of};
ghost use Rattle.lines.specs.Kinds.{KindBy, FindsRunKind, FindsKind};

use crate::word::Word;
use spellings::spellings::Spellings;
use syntax::spelling::{Literal, Spelling};

// The kind of the literal with these bytes; none where it is not declared.
fn literal_kind(spellings: &Spellings, bytes: &[u8]) -> Option<u8>
    ensures { MatchOption result (¬ Declared (words spellings.now) (literal bytes.now))
        (KindBy (words spellings.now) (literal bytes.now)) }
{
    let literal = Literal::new(bytes)?;
    spellings.kind_of(&Spelling::Literal(literal))
}

// The kind of a run: that of the literal with its bytes, else that of the spelling for any such run.
fn run_kind(spellings: &Spellings, bytes: &[u8], any: Spelling) -> Option<u8>
    ensures { FindsRunKind (words spellings.now) bytes.now (spelling any) result }
{
    // a match, since a proof can't reach what the closure of an `or_else` answers
    match literal_kind(spellings, bytes) {
        Some(kind) => Some(kind),
        None => spellings.kind_of(&any),
    }
}

// The kind of a word by the spellings; none where it has none.
pub fn kind_of(spellings: &Spellings, word: Word) -> Option<u8>
    ensures { FindsKind (words spellings.now) (word_of word.entry) result }
{
    match word {
        Word::Name(bytes) => run_kind(spellings, bytes, Spelling::Name),
        Word::Number(bytes) => run_kind(spellings, bytes, Spelling::Num),
        Word::Mark(bytes) => literal_kind(spellings, bytes),
        Word::Stray(_) => None,
    }
}
