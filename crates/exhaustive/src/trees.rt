use std::fmt;

// How many trees there are, stopping at 4,294,967,295, and the smallest of their prices, stopping there too.
#[derive(Clone, Copy)]
pub struct Trees {
    pub count: u32,
    pub price: u32,
}

impl Trees {
    // No trees (no option: these are the neutral element of `or`).
    pub const NONE: Trees = Trees {
        count: 0,
        price: u32::MAX,
    };

    // One tree, or one part of a tree, of this price.
    pub(crate) fn one(price: u32) -> Trees {
        Trees { count: 1, price }
    }

    // Whether there is none.
    pub(crate) fn is_none(self) -> bool {
        self.count == 0
    }

    // These trees and the others.
    pub(crate) fn or(self, others: Trees) -> Trees {
        Trees {
            count: self.count.saturating_add(others.count),
            price: self.price.min(others.price),
        }
    }

    // Each of these parts of trees with each of the others.
    pub(crate) fn and(self, others: Trees) -> Trees {
        Trees {
            count: self.count.saturating_mul(others.count),
            price: self.price.saturating_add(others.price),
        }
    }
}

impl fmt::Display for Trees {
    fn fmt<W: fmt::Write>(&self, f: &mut fmt::Formatter<W>) -> fmt::Result {
        let Trees { count, price } = self;
        write!(f, "ok trees {count} price {price}")
    }
}
