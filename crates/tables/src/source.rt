ghost use Rattle.std.specs.Prelude.{◌≡◌, ℕ, ◌≤◌, length, slice_index};
ghost use Rattle.grammar.specs.Grammar.{places};
ghost use Rattle.grammar.specs.Model.{productions as productions_of, rules as rules_of};
ghost use Rattle.grammar.specs.Sound.{SymbolsInRange, Acyclic, Named};
ghost use Rattle.derivations.specs.Ranges.{Lefts};
ghost use Rattle.tables.specs.Conflicts.{OrderOf};
ghost use Rattle.tables.specs.Places.{Firsts};
ghost use Rattle.tables.specs.Stored.{grammar_of};

use bitset::rows::Rows;
use grammar::production::Production;
use grammar::rule::Rule;

// What tables are built from: the productions and the rules of a grammar, the closed order of the rules, and the first
// place of each production.
#[derive(Clone, Copy)]
pub(crate) struct Source<'p, 'r> {
    pub(crate) productions: &'p [Production],
    pub(crate) rules: &'r [Rule],
    pub(crate) order: Rows,
    pub(crate) first: [u8; 32],
    ghost few: { length productions.now ≤ 32 },
    ghost small: { places (productions_of productions.now) ≤ 128 },
    ghost lefts: { Lefts (productions_of productions.now) },
    ghost symbols: { SymbolsInRange (productions_of productions.now) },
    ghost acyclic: { Acyclic (productions_of productions.now) },
    ghost named: { Named (grammar_of 0 productions.now rules.now) },
    ghost ordered: { ∥ OrderOf order (rules_of rules.now) ∥₁ },
    ghost whole: { length first ≡ 32 },
    ghost begins: { Firsts (productions_of productions.now) first },
}
