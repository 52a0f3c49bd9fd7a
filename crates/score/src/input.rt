ghost use Rattle.std.specs.Prelude.{◌≤◌, length};
ghost use Rattle.grammar.specs.Grammar.{places};
ghost use Rattle.grammar.specs.Model.{productions as productions_of};
ghost use Rattle.derivations.specs.Ranges.{Lefts};
ghost use Rattle.tables.specs.Places.{Firsts};
ghost use Rattle.score.specs.Tails.{Tails};

use grammar::production::Production;
use tables::tables::Tables;

mod methods;

// What the sums are taken over, with the position in each right side from which on every symbol may be empty. The sizes are
// in range, and the tables place the productions as they stand. (Not listing's `Sources`: those hold a chart, and less is known of
// them.)
#[derive(Clone, Copy)]
pub(crate) struct Input<'a> {
    pub(crate) tables: &'a Tables,
    pub(crate) productions: &'a [Production],
    pub(crate) words: &'a [u8],
    pub(crate) tails: [u8; 32],
    ghost few_words: { length words.now ≤ 48 },
    ghost few: { length (productions_of productions.now) ≤ 32 },
    ghost small: { places (productions_of productions.now) ≤ 128 },
    ghost lefts: { Lefts (productions_of productions.now) },
    ghost firsts: { Firsts (productions_of productions.now) tables.now.first },
    ghost ends: { ∥ Tails (productions_of productions.now) tails ∥₁ },
}
