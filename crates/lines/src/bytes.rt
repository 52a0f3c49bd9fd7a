ghost use Rattle.std.specs.Prelude.{◌≡◌};
ghost use Rattle.std.specs.List.{list_all};
ghost use Rattle.lines.specs.Bytes.{is_letter, is_digit, in_run, is_visible, begins};

// Whether the byte is a letter or an underscore.
pub(crate) fn letter(byte: u8) -> bool
    ensures { result ≡ is_letter byte }
{
    byte.is_ascii_alphabetic() || byte == b'_'
}

// Whether the byte is a digit.
pub(crate) fn digit(byte: u8) -> bool
    ensures { result ≡ is_digit byte }
{
    byte.is_ascii_digit()
}

// Whether the byte can stand in a run.
pub(crate) fn of_run(byte: u8) -> bool
    ensures { result ≡ in_run byte }
{
    letter(byte) || digit(byte)
}

// Whether a word can have the byte.
pub(crate) fn visible(byte: u8) -> bool
    ensures { result ≡ is_visible byte }
{
    byte.is_ascii_graphic()
}

// Whether the bytes start with a letter or an underscore.
pub(crate) fn starts_name(bytes: &[u8]) -> bool
    ensures { result ≡ begins is_letter bytes.now }
{
    bytes.first().is_some_and(|byte| letter(*byte))
}

// Whether all the bytes are digits.
pub(crate) fn all_digits(bytes: &[u8]) -> bool
    ensures { result ≡ list_all is_digit bytes.now }
{
    bytes.iter().all(|byte| digit(*byte))
}
