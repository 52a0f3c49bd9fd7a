//! Grammars with the same content in any order: each function's contract is a theorem, and its body does nothing.

#![tactic(auto)]

ghost use Rattle.sameness.specs.Claims.{Sameness, SameReading, MoreReading, SameScores};

use scales::Semiring;

// To be the same is an equivalence of well-formed grammars, and the same grammar has more.
pub fn sameness_holds()
    ensures { Sameness }
{}

// Grammars with the same content have the same sentences, and the same kinds may come next.
pub fn same_reading()
    ensures { SameReading }
{}

// A grammar with more productions has the sentences of the other, and at least the same kinds may come next.
pub fn more_reading()
    ensures { MoreReading }
{}

// Grammars with the same content have the same scores.
pub fn same_scores<S: Semiring>()
    ensures { SameScores S.Semiring.scale }
{}
