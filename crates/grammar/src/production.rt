ghost use Rattle.std.specs.Prelude.{◌≤◌};

use crate::bytes::Bytes;

mod methods;

pub use methods::place_count;

// A production: its right side of at most six symbols, its left nonterminal, and its price. (Symbols are bytes, as in the public
// interface: nonterminals below 16, and kinds from there on. The right side comes first, since fields lie in order: so a production
// takes 24 bytes.)
#[derive(Clone, Copy)]
pub struct Production {
    right: Bytes<6>,
    left: u8,
    price: u16,
    ghost priced: { price ≤ 65535 },
}
