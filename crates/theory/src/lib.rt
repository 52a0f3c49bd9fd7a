//! The theory of grammars and their items: each function's contract is a theorem, and its body does nothing.

#![tactic(auto)]

ghost use Rattle.theory.specs.Claims.{LiveRoots, Sentences, ViableKinds};
ghost use Rattle.theory.specs.Decided.{ConflictsDecided, LiveDecided, ItemsDecided};

// A production is live exactly if some conflict-free tree has it at its root.
pub fn live_roots()
    ensures { LiveRoots }
{}

// Items accept exactly the words of the conflict-free trees.
pub fn sentences()
    ensures { Sentences }
{}

// Items wait for exactly the kinds with which some conflict-free tree goes on.
pub fn viable_kinds()
    ensures { ViableKinds }
{}

// Conflicts are decided.
pub fn conflicts_decided()
    ensures { ConflictsDecided }
{}

// Live productions are decided.
pub fn live_decided()
    ensures { LiveDecided }
{}

// Items are decided.
pub fn items_decided()
    ensures { ItemsDecided }
{}
