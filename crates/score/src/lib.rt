//! The score of words: the sum, on a scale, of the products of all their conflict-free trees, each tree once.
//!
//! A table that the caller lends takes the sum over the ways of each production, dot, origin and end. Each entry is
//! filled in once, from entries that are filled in before it.

#![tactic(auto)]

ghost use Rattle.std.specs.Prelude.{◌≡◌, ◌+◌, ◌*◌, ◌≤◌, length};
ghost use Rattle.grammar.specs.Grammar.{Grammar, places};
ghost use Rattle.grammar.specs.Model.{productions as productions_of};
ghost use Rattle.grammar.specs.Sound.{WellFormed};
ghost use Rattle.derivations.specs.Ranges.{Lefts};
ghost use Rattle.tables.specs.Meaning.{Means};
ghost use Rattle.tables.specs.Places.{Firsts};
ghost use Rattle.score_theory.specs.Scores.{Score};
ghost use Rattle.score.specs.Filled.{Filled};

use grammar::production::Production;
use input::Input;
use scales::Semiring;
use sums::Sums;
use tables::tables::Tables;
use tails::tails;

mod entry;
mod input;
mod sums;
mod tails;
mod total;

// The score of the words. The table is left with the sums over all ways.
pub fn score<S: Semiring>(
    tables: &Tables,
    productions: &[Production],
    start: u8,
    words: &[u8],
    table: &mut [S],
) -> S
    requires few_words { length words.now ≤ 48 }
    requires few { length (productions_of productions.now) ≤ 32 }
    requires small { places (productions_of productions.now) ≤ 128 }
    requires lefts { Lefts (productions_of productions.now) }
    requires firsts { Firsts (productions_of productions.now) tables.now.first }
    requires room { places (productions_of productions.now) * ((length words.now + 1) * (length words.now + 1)) ≤ length table.old }
    ensures { (g : Grammar) →
        Means tables.now g →
        g.productions ≡ productions_of productions.now →
        g.start ≡ start →
        WellFormed g →
        Score S.Semiring.scale g words.now result × Filled S.Semiring.scale g words.now table.old table.new }
{
    let input = Input {
        tables,
        productions,
        words,
        tails: tails(productions),
    };
    let mut sums = Sums {
        input: &input,
        table,
    };
    sums.fill();
    sums.roots(start)
}
