ghost use Rattle.std.specs.Prelude.{◌≡◌, ◌<◌, [], ◌∷◌, decimal};
ghost use Rattle.syntax.specs.Syntax.{letter, spelling_text, sign};
ghost use Rattle.syntax.specs.Model.{spelling};
ghost use Rattle.syntax.specs.Writing.{Writes};

use super::TextWriter;
use crate::spelling::Spelling;
use grammar::refusals::FileRefusal;
use grammar::rule::Relation;

// The sign of the relation. (Not of Relation itself: signs belong to files.)
fn sign_of(relation: Relation) -> u8
    ensures { result ≡ sign relation }
{
    match relation {
        Relation::Priority => b'>',
        Relation::Left => b'L',
        Relation::Right => b'R',
        Relation::NonAssoc => b'N',
    }
}

impl TextWriter<'_> {
    // Writes the bytes; where they have no room, those that have.
    pub fn put_bytes(&mut self, bytes: &[u8]) -> Result<(), FileRefusal>
        ensures { Writes self.old bytes.now result self.new }
    {
        let at = self.end;
        let room = self.out.len() - at;
        if bytes.len() > room {
            self.end = self.out.len();
            self.out[at..].copy_from_slice(&bytes[..room]);
            return Err(FileRefusal::ShortText);
        }
        self.end = at + bytes.len();
        self.out[at..at + bytes.len()].copy_from_slice(bytes);
        Ok(())
    }

    // Writes the number in decimal. (digit by digit: the clause says which bytes a text gets that is too short, and of what a `write!`
    // leaves that fails nothing is known)
    pub fn put_number(&mut self, n: u16) -> Result<(), FileRefusal>
        ensures { Writes self.old (decimal n) result self.new }
    {
        let last = [b'0' + (n % 10) as u8];
        if n < 10 {
            return self.put_bytes(&last);
        }
        self.put_number(n / 10)?;
        self.put_bytes(&last)
    }

    // Writes the spelling.
    pub fn put_spelling(&mut self, word: &Spelling) -> Result<(), FileRefusal>
        ensures { Writes self.old (spelling_text (spelling word.now)) result self.new }
    {
        match word {
            Spelling::Literal(literal) => {
                self.put_bytes(b"\"")?;
                self.put_bytes(literal.bytes())?;
                self.put_bytes(b"\"")
            }
            Spelling::Name => self.put_bytes(b"NAME"),
            Spelling::Num => self.put_bytes(b"NUM"),
        }
    }

    // Writes the letter of the nonterminal.
    pub fn put_letter(&mut self, s: u8) -> Result<(), FileRefusal>
        requires { s < 16 }
        ensures { Writes self.old (letter s) result self.new }
    {
        self.put_bytes(&[b'A' + s])
    }

    // Writes the sign of the relation.
    pub fn put_relation(&mut self, relation: Relation) -> Result<(), FileRefusal>
        ensures { Writes self.old (sign relation ∷ []) result self.new }
    {
        self.put_bytes(&[sign_of(relation)])
    }
}
