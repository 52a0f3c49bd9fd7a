//! The theory of scores: each function's contract is a theorem, and its body does nothing.

#![tactic(auto)]

ghost use Rattle.score_theory.specs.Scores.{Scored};
ghost use Rattle.score_theory.specs.Totals.{OneTotal};

use scales::Semiring;

// The total over a list without repeats does not turn on the order.
pub fn one_total<A, M>()
    ensures { OneTotal A M }
{}

// Every list of words has a score in every well-formed grammar, and only one.
pub fn scored<S: Semiring>()
    ensures { Scored S.Semiring.scale }
{}
