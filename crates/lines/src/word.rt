ghost use Rattle.std.specs.Prelude.{◌≡◌};
ghost use Rattle.lines.specs.Cuts.{bytes_of};
ghost use Rattle.lines.specs.Model.{word_of};

// What stands in a line: a word of one of three sorts, or a byte that no word has.
#[derive(Clone, Copy)]
pub enum Word<'a> {
    Name(&'a [u8]),
    Number(&'a [u8]),
    Mark(&'a [u8]),
    Stray(&'a [u8]),
}

impl<'a> Word<'a> {
    // The bytes of the word.
    pub fn bytes(self) -> &'a [u8]
        ensures { result.now ≡ bytes_of (word_of self.entry) }
    {
        match self {
            Word::Name(bytes) | Word::Number(bytes) | Word::Mark(bytes) | Word::Stray(bytes) =>
                bytes,
        }
    }
}
