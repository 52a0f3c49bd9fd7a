ghost use Rattle.std.specs.Prelude.{◌≡◌, ◌+◌, ◌<◌, ◌≤◌, [], length, MatchOption};
ghost use Rattle.grammar.specs.Grammar.{no_production, places};
ghost use Rattle.grammar.specs.Model.{production, productions as model};

use super::Production;
use crate::bytes::Bytes;

impl Production {
    // The production of this nonterminal with nothing on its right.
    pub fn empty(left: u8, price: u16) -> Production
        ensures { production result ≡ record { left = left; right = []; price = price } }
    {
        Production {
            left,
            right: Bytes::empty(),
            price,
        }
    }

    // The production with these two sides and this price; none where the right side has more than six symbols.
    pub fn new(left: u8, right: &[u8], price: u16) -> Option<Production>
        ensures { MatchOption result (6 < length right.now)
            (λ p. production p ≡ record { left = left; right = right.now; price = price }) }
    {
        let right = Bytes::from_slice(right)?;
        Some(Production { left, right, price })
    }

    // The left nonterminal.
    pub fn left(&self) -> u8
        ensures { result ≡ (production self.now).left }
    {
        self.left
    }

    // The symbols of the right side.
    pub fn right(&self) -> &[u8]
        ensures { result.now ≡ (production self.now).right }
    {
        self.right.as_slice()
    }

    // The price.
    pub fn price(&self) -> u16
        ensures { result ≡ (production self.now).price }
    {
        self.price
    }

    // How many places for the dot the right side has: one more than symbols.
    pub fn places(&self) -> usize
        ensures value { result ≡ length (production self.now).right + 1 }
        ensures few { result ≤ 7 }
    {
        self.right.len() + 1
    }
}

// What stands in the free places of a list of productions.
impl Default for Production {
    ghost is_default = { λ p. production p ≡ no_production };

    fn default() -> Production {
        Production::empty(0, 0)
    }
}

// How many places the productions have.
pub fn place_count(productions: &[Production]) -> usize
    ensures { result ≡ places (model productions.now) }
{
    productions.iter().map(|p| p.places()).sum()
}
