ghost use Rattle.std.specs.Prelude.{◌≡◌};
ghost use Rattle.spellings.specs.Faults.{refusal};

use grammar::bytes::Bytes;
use grammar::refusals::{DraftRefusal, FileRefusal, Refusal};

// Why a right side is no list of symbols for a production: a spelling that is not declared, or more than six symbols.
#[derive(Clone, Copy, PartialEq, Eq, Debug)]
pub enum RightFault {
    Undeclared,
    Long,
}

// What stands behind a production line's sign =: the symbols of the right side, or why there are none, and the price.
#[derive(Clone, Copy)]
pub struct PricedRight {
    pub right: Result<Bytes<6>, RightFault>,
    pub price: u16,
}

impl From<RightFault> for Refusal {
    ghost from_gives = { λ fault r. r ≡ refusal fault };

    fn from(fault: RightFault) -> Refusal
        ensures { result ≡ refusal fault }
    {
        match fault {
            RightFault::Undeclared => FileRefusal::Undeclared.into(),
            RightFault::Long => DraftRefusal::LongRight.into(),
        }
    }
}
