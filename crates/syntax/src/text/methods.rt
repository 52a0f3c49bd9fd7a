ghost use Rattle.std.specs.Prelude.{◌≡◌};

use super::TextWriter;

impl<'o> TextWriter<'o> {
    // A writer of the text, with nothing written.
    pub fn new(out: &'o mut [u8]) -> TextWriter<'o>
        ensures lent { result.out.ghost_name ≡ out.entry.ghost_name }
        ensures text { result.out.now ≡ out.old }
        ensures start { result.end ≡ 0 }
    {
        TextWriter { out, end: 0 }
    }

    // How many bytes are written.
    pub fn written(&self) -> usize
        ensures { result ≡ self.now.end }
    {
        self.end
    }
}
