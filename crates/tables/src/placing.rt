ghost use Rattle.std.specs.Prelude.{◌≡◌, ℕ, ◌<◌, ◌≤◌, length, slice_index};
ghost use Rattle.grammar.specs.Grammar.{places};
ghost use Rattle.grammar.specs.Model.{productions as productions_of};
ghost use Rattle.grammar.specs.Sound.{WellFormed};
ghost use Rattle.derivations.specs.Ranges.{Numbers};
ghost use Rattle.tables.specs.Places.{Firsts, Lasts, last_place};
ghost use Rattle.tables.specs.Stored.{grammar_of};

use crate::source::Source;
use derivations::above;
use grammar::production::Production;
use grammar::rule::Rule;

// The first place of each production.
fn firsts(productions: &[Production]) -> [u8; 32]
    requires few { length productions.now ≤ 32 }
    requires small { places (productions_of productions.now) ≤ 128 }
    ensures zero { slice_index result 0 ≡ 0 }
    ensures each { Firsts (productions_of productions.now) result }
{
    let mut first = [0u8; 32];
    let mut place = 0;
    // (a running sum, written by index: of what is written through an adapter of `iter_mut` a proof knows nothing)
    for (i, p) in productions.iter().enumerate() {
        first[i] = place as u8;
        place += p.places();
    }
    first
}

impl<'p, 'r> Source<'p, 'r> {
    // The source of the tables of a grammar.
    pub(crate) fn new(productions: &'p [Production], rules: &'r [Rule]) -> Source<'p, 'r>
        requires formed { (start : ℕ) × WellFormed (grammar_of start productions.now rules.now) }
        requires numbers { Numbers rules.now }
        ensures productions { result.productions.now ≡ productions.now }
        ensures rules { result.rules.now ≡ rules.now }
        ensures zero { slice_index result.first 0 ≡ 0 }
    {
        Source {
            productions,
            rules,
            order: above(rules),
            first: firsts(productions),
        }
    }

    // The last place of the production p, or 0 where there is none: it is asked of each number of an array.
    fn last(&self, p: usize) -> u8
        ensures { p < length (productions_of self.now.productions.now) →
            result ≡ last_place (productions_of self.now.productions.now) p }
    {
        // (the `match` proves with no answer; of `map_or` it would have to be shown by hand which production its closure was called with)
        match self.productions.get(p) {
            Some(production) => self.first[p] + production.right().len() as u8,
            None => 0,
        }
    }

    // The last place of each production.
    pub(crate) fn lasts(&self) -> [u8; 32]
        ensures { Lasts (productions_of self.now.productions.now) result }
    {
        std::array::from_fn(|p| self.last(p))
    }
}
