ghost use Rattle.std.specs.Prelude.{◌≡◌};
ghost use Rattle.scales.specs.ThreeScales.{price};
ghost use Rattle.scales.specs.Laws.{price_laws};

use crate::Semiring;
use crate::values::Price;

// The smallest price of a tree: a sum is the smaller of the two, and a product adds them up to 4,294,967,295.
#[tactic(auto, using(crate::specs::Laws::same_price))]
impl Semiring for Price {
    ghost scale = { price };

    ghost laws = { price_laws };

    fn none() -> Price {
        Price { value: u32::MAX }
    }

    fn one() -> Price {
        Price { value: 0 }
    }

    fn plus(self, other: Price) -> Price {
        Price {
            value: self.value.min(other.value),
        }
    }

    fn times(self, other: Price) -> Price {
        Price {
            value: self.value.saturating_add(other.value),
        }
    }

    fn value(price: u16) -> Price {
        Price {
            value: u32::from(price),
        }
    }
}
