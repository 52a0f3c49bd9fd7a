//! Examples: tests at the edges of every refusal, of readings, listings, scores and histories; and the proved examples, under one
//! statement.

#![tactic(auto)]

#[cfg(test)]
mod drafts;
#[cfg(test)]
mod files_read;
#[cfg(test)]
mod files_written;
#[cfg(test)]
mod histories;
#[cfg(test)]
mod lines_put;
#[cfg(test)]
mod listings;
#[cfg(test)]
mod readings;
#[cfg(test)]
mod same;
#[cfg(test)]
mod scores;

ghost use Rattle.examples.specs.Examples.{LeadingToItselfRefused, ProvedExamples};

// With A = B A accepted, B = with nothing is refused: A would lead to itself.
pub fn leading_to_itself_is_refused()
    ensures { LeadingToItselfRefused }
{}

// The examples of small grammars hold: what may come next, what lines list, how many trees they have and what they cost, and
// that with A = B A accepted, B = with nothing is refused, since A would lead to itself.
pub fn proved_examples()
    ensures { ProvedExamples }
{}
