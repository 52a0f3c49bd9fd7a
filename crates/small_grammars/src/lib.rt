//! What may come next after given words of small grammars, and the listings, numbers of trees and costs of whole lines.

#![tactic(auto)]

ghost use Rattle.small_grammars.specs.Examples.{LineExamples, SmallGrammars};

// The examples of what may come next hold.
pub fn small_grammars()
    ensures { SmallGrammars }
{}

// The examples of whole lines hold.
pub fn small_lines()
    ensures { LineExamples }
{}
