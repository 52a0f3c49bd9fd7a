ghost use Rattle.std.specs.Prelude.{◌≡◌};
ghost use Rattle.scales.specs.ThreeScales.{yes_no};
ghost use Rattle.scales.specs.Laws.{yes_no_laws};

use crate::Semiring;
use crate::values::YesNo;

// Whether there is a tree: a sum is yes where one of the two is, a product where both are.
impl Semiring for YesNo {
    ghost scale = { yes_no };

    ghost laws = { yes_no_laws };

    fn none() -> YesNo {
        YesNo { yes: false }
    }

    fn one() -> YesNo {
        YesNo { yes: true }
    }

    fn plus(self, other: YesNo) -> YesNo {
        YesNo {
            yes: self.yes | other.yes,
        }
    }

    fn times(self, other: YesNo) -> YesNo {
        YesNo {
            yes: self.yes & other.yes,
        }
    }

    fn value(_price: u16) -> YesNo {
        YesNo::one()
    }
}
