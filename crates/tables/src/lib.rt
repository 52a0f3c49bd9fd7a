//! The tables of a sealed grammar, by which a reader works: places, conflicts and live productions as sets of bits.

#![tactic(auto)]

ghost use Rattle.grammar.specs.Sound.{WellFormed};
ghost use Rattle.derivations.specs.Ranges.{Numbers};
ghost use Rattle.tables.specs.Meaning.{Means};
ghost use Rattle.tables.specs.Stored.{grammar_of};

use grammar::production::Production;
use grammar::rule::Rule;
use source::Source;
use tables::Tables;

mod conflicts;
mod kinds;
mod liveness;
mod marking;
mod placing;
mod ranking;
mod source;
pub mod tables;
mod waiting;

// The tables of the grammar with this start symbol, these productions and these rules.
pub fn build(start: u8, productions: &[Production], rules: &[Rule]) -> Tables
    requires formed { WellFormed (grammar_of start productions.now rules.now) }
    requires numbers { Numbers rules.now }
    ensures { Means result (grammar_of start productions.now rules.now) }
{
    let source = Source::new(productions, rules);
    let waits = source.waits();
    let live = source.live(&waits);
    Tables {
        count: productions.len(),
        first: source.first,
        last: source.lasts(),
        waits,
        before: source.before(),
        live,
        starts: source.starts(live, start),
        ranks: source.ranks(),
    }
}
