//! Scales: semirings on which the trees of words are weighed.

#![tactic(auto)]

ghost use Rattle.std.specs.Prelude.{◌≡◌};
ghost use Rattle.scales.specs.Scales.{Scale, SemiringLaws};

pub mod count;
pub mod price;
pub mod values;
pub mod yes_no;

// A scale that keeps the laws of a semiring. Equal arguments get equal values, and none of its functions refuses.
pub trait Semiring: Copy {
    ghost scale: { Scale Self };

    // The sum of nothing.
    fn none() -> Self
        ensures { result ≡ scale.none };

    // The product of nothing.
    fn one() -> Self
        ensures { result ≡ scale.one };

    fn plus(self, other: Self) -> Self
        ensures { result ≡ scale.plus self other };

    fn times(self, other: Self) -> Self
        ensures { result ≡ scale.times self other };

    // What a price is on the scale.
    fn value(price: u16) -> Self
        ensures { result ≡ scale.value price };

    ghost laws: { SemiringLaws scale };
}
