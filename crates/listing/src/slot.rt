//! Where the symbols of a node can begin so that they end with it, and which child is the next.

ghost use Rattle.std.specs.Prelude.{◌<◌, length};
ghost use Rattle.listing.specs.Asked.{right_in};

mod methods;

use crate::node::Node;

// A place in the right side of a node, and the positions in the words where the symbols behind it can begin.
#[derive(Clone, Copy)]
pub(crate) struct Slot<'a> {
    pub(crate) node: Node<'a>,
    pub(crate) place: usize,
    pub(crate) next: u64,
    ghost small: { place < 6 },
    ghost inside: { place < length (right_in node.sources node.production) },
}
