ghost use Rattle.std.specs.Prelude.{◌≡◌, ℕ, ◌+◌, ◌<◌, ◌≤◌, true, false, ◌⊎◌, ◌↔◌, length};
ghost use Rattle.grammar.specs.Grammar.{left_at};
ghost use Rattle.grammar.specs.Items.{Live};
ghost use Rattle.grammar.specs.Model.{productions as productions_of};
ghost use Rattle.bitset.specs.Bits.{Has};
ghost use Rattle.tables.specs.Filling.{Filled, FillableAt, WhereWaits};

use crate::source::Source;
use bitset::cells::is_marked;
use bitset::choosing::chosen;
use bitset::growing::grown;
use bitset::{contains, with};

// Whether a production of the set may stand behind the place d. (The table and the set go apart: no contract asks
// anything of the two together.)
fn is_filled(waits: &[u64; 64], set: u32, d: usize) -> bool
    requires { d < 128 }
    ensures yes { result ≡ true → Filled waits.now set d }
    ensures no { result ≡ false → ¬ Filled waits.now set d }
{
    (0..32).any(|q| contains(set, q) && is_marked(waits, q, d))
}

impl Source<'_, '_> {
    // Whether each symbol of the right side of the production p is a kind or filled by the set.
    fn fillable(&self, waits: &[u64; 64], set: u32, p: usize) -> bool
        requires { p < length self.now.productions.now }
        ensures yes { result ≡ true → FillableAt (productions_of self.now.productions.now) waits.now set p }
        ensures no { result ≡ false → ¬ FillableAt (productions_of self.now.productions.now) waits.now set p }
    {
        let first = self.first[p] as usize;
        let right = self.productions[p].right();
        right.iter().enumerate().all(|(k, symbol)| *symbol >= 16
            || is_filled(waits, set, first + k))
    }

    // The set with the production p, if the set fills its right side.
    fn with_filled(&self, waits: &[u64; 64], set: u32, p: usize) -> u32
        requires { p < length self.now.productions.now }
        ensures holds { (q : ℕ) →
            Has result q ↔ (Has set q ⊎ ((q ≡ p) × FillableAt (productions_of self.now.productions.now) waits.now set p)) }
        ensures grows { set ≤ result }
    {
        if self.fillable(waits, set, p) {
            with(set, p)
        } else {
            set
        }
    }

    // The live productions.
    pub(crate) fn live(&self, waits: &[u64; 64]) -> u32
        ensures { WhereWaits (productions_of self.now.productions.now) waits.now (λ g. (q : ℕ) → Has result q ↔ Live g q) }
    {
        grown(
            self.productions.len(),
            |set, p| self.with_filled(waits, set, p),
        )
    }

    // The live productions whose left side is the start symbol.
    pub(crate) fn starts(&self, live: u32, start: u8) -> u32
        ensures { (p : ℕ) →
            Has result p
            ↔ ((p < length (productions_of self.now.productions.now))
            × Has live p
            × (left_at (productions_of self.now.productions.now) p ≡ start)) }
    {
        chosen(0..self.productions.len(), |p| {
            self.productions[p].left() == start && contains(live, p)
        })
    }
}
