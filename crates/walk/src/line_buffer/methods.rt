ghost use Rattle.std.specs.Prelude.{◌≡◌, []};
ghost use Rattle.walk.specs.Buffers.{held, TakesOn};

use super::LineBuffer;
use grammar::bytes::Bytes;
use syntax::reading::cut_at;

impl LineBuffer {
    // A buffer that holds no bytes.
    pub(crate) fn new() -> LineBuffer
        ensures { held result ≡ [] }
    {
        LineBuffer {
            bytes: Bytes::empty(),
        }
    }

    // The bytes that it holds.
    pub(crate) fn line(&self) -> &[u8]
        ensures { result.now ≡ held self.now }
    {
        self.bytes.as_slice()
    }

    // Forgets the bytes.
    pub(crate) fn clear(&mut self)
        ensures { held self.new ≡ [] }
    {
        self.bytes.clear();
    }

    // Takes bytes of the line up to a line feed. Where one comes the line ends, and the answer is the rest of the part, behind it.
    pub(crate) fn take<'p>(&mut self, part: &'p [u8]) -> Option<&'p [u8]>
        ensures { TakesOn (held self.old) part.now result (held self.new) }
    {
        let Some((line, rest)) = cut_at(part, b'\n') else {
            self.bytes.extend(part);
            return None;
        };
        self.bytes.extend(line);
        Some(rest)
    }
}
