ghost use Rattle.std.specs.Prelude.{◌≡◌};
ghost use Rattle.scales.specs.ThreeScales.{count};
ghost use Rattle.scales.specs.Laws.{count_laws};

use crate::Semiring;
use crate::values::Count;

// How many trees there are: sums and products stop at 4,294,967,295.
#[tactic(auto, using(crate::specs::Laws::same_count))]
impl Semiring for Count {
    ghost scale = { count };

    ghost laws = { count_laws };

    fn none() -> Count {
        Count { value: 0 }
    }

    fn one() -> Count {
        Count { value: 1 }
    }

    fn plus(self, other: Count) -> Count {
        Count {
            value: self.value.saturating_add(other.value),
        }
    }

    fn times(self, other: Count) -> Count {
        Count {
            value: self.value.saturating_mul(other.value),
        }
    }

    fn value(_price: u16) -> Count {
        Count::one()
    }
}
