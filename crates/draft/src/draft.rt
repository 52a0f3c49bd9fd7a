ghost use Rattle.std.specs.Prelude.{◌≤◌, length};
ghost use Rattle.draft.specs.Stored.{grammar, Numbers};
ghost use Rattle.grammar.specs.Sound.{Small, SidesInRange, SymbolsInRange, PricesInRange, Apart, Named, RulesApart, Acyclic, Ordered};

use arrayvec::ArrayVec;
use grammar::production::Production;
use grammar::rule::Rule;

mod adding;
mod reading;
mod sealing;

// A grammar that is being written: a start symbol, at most 32 productions and at most 64 rules.
#[derive(Drop)]
pub struct Draft {
    start: u8,
    productions: ArrayVec<Production, 32>,
    rules: ArrayVec<Rule, 64>,
    ghost numbers: { Numbers rules.items (length rules.items) (length productions.items) },
    ghost small: { Small (grammar start productions.items rules.items) },
    ghost starts: { start ≤ 15 },
    ghost sides: { SidesInRange (grammar start productions.items rules.items).productions },
    ghost symbols: { SymbolsInRange (grammar start productions.items rules.items).productions },
    ghost prices: { PricesInRange (grammar start productions.items rules.items).productions },
    ghost apart: { Apart (grammar start productions.items rules.items).productions },
    ghost named: { Named (grammar start productions.items rules.items) },
    ghost unrepeated: { RulesApart (grammar start productions.items rules.items).rules },
    ghost acyclic: { Acyclic (grammar start productions.items rules.items).productions },
    ghost ordered: { Ordered (grammar start productions.items rules.items).rules },
}
