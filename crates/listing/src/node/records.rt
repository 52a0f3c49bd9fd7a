ghost use Rattle.std.specs.Prelude.{◌≡◌};
ghost use Rattle.listing_theory.specs.Listings.{entry};

use super::Node;
use listing_theory::record::Record;

impl From<Node<'_>> for Record {
    // The record of the node.
    fn from(node: Node<'_>) -> Record
        ensures { result ≡ entry node.entry.production node.entry.start node.entry.end }
    {
        Record {
            production: (node.production + 1) as u8,
            start: node.start as u8,
            end: node.end as u8,
        }
    }
}
