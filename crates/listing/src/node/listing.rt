ghost use Rattle.std.specs.Prelude.{◌≡◌, ◌<◌, ◌≤◌, length, IfOk};
ghost use Rattle.grammar.specs.Grammar.{Grammar};
ghost use Rattle.listing.specs.Written.{ListsNode};

use super::Node;
use crate::slot::Slot;
use grammar::refusals::ReadingRefusal;
use listing_theory::record::Record;

impl Node<'_> {
    // Lists the smallest tree of the node into the records, as far as there is room, and answers how many records it has.
    pub(crate) fn list(&self, records: &mut [Record]) -> Result<usize, ReadingRefusal>
        ensures size { length records.new ≡ length records.old }
        ensures room { IfOk result (λ n. n ≤ length records.old) }
        ensures listed { (g : Grammar) → ListsNode g self.now records.old result records.new }
    {
        if records.is_empty() {
            return Err(ReadingRefusal::ShortListing);
        }
        records[0] = Record::from(*self);
        let rows = self.rows();
        let mut count = 1;
        let mut start = self.start;
        // A loop and no fold: each step moves `start`, and a child also `count`, or it ends the listing.
        for (place, symbol) in self.right().iter().enumerate() {
            if *symbol >= 16 {
                start += 1;
                continue;
            }
            let slot = Slot {
                node: *self,
                place,
                next: rows[place + 1],
            };
            if let Some(child) = slot.next_child(start) {
                count += child.list(&mut records[count..])?;
                start = child.end;
            }
        }
        Ok(count)
    }
}
