ghost use Rattle.std.specs.Prelude.{◌≡◌, true, false, MatchOption};
ghost use Rattle.syntax.specs.Syntax.{literal, LiteralByte, ValidSpelling};
ghost use Rattle.syntax.specs.Model.{bytes_of, spelling};

use super::{Literal, Spelling};
use grammar::bytes::Bytes;

// Whether the byte may stand in a literal.
fn may_stand(byte: u8) -> bool
    ensures yes { result ≡ true → LiteralByte byte }
    ensures no { result ≡ false → ¬ LiteralByte byte }
{
    byte.is_ascii_graphic() && byte != b'"'
}

impl Literal {
    // The literal of these bytes; none where they are not one to eight bytes that may stand in a literal.
    pub fn new(bytes: &[u8]) -> Option<Literal>
        ensures { MatchOption result (¬ ValidSpelling (literal bytes.now)) (λ l. bytes_of l ≡ bytes.now) }
    {
        // The length is asked first, so that of a long text no byte is looked at.
        let literal = Bytes::from_slice(bytes)?;
        if bytes.is_empty() {
            return None;
        }
        if !bytes.iter().all(|byte| may_stand(*byte)) {
            return None;
        }
        Some(Literal { bytes: literal })
    }

    // The bytes of the literal.
    pub fn bytes(&self) -> &[u8]
        ensures { result.now ≡ bytes_of self.now }
    {
        self.bytes.as_slice()
    }
}

impl Spelling {
    // Whether the two spellings stand for the same. (It is their `==`, and there for its clause: that of `==` says nothing of what spellings
    // stand for.)
    pub fn same(&self, other: &Spelling) -> bool
        ensures yes { result ≡ true → spelling self.now ≡ spelling other.now }
        ensures no { result ≡ false → ¬ (spelling self.now ≡ spelling other.now) }
    {
        self == other
    }
}
