mod methods;

use grammar::bytes::Bytes;

// The first bytes of a line that is being read, at most 16,385: a line that has more than 16,384 is refused whatever follows them. So
// a line may have any length.
#[derive(Drop)]
pub struct LineBuffer {
    bytes: Bytes<16385>,
}
