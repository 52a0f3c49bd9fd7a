ghost use Rattle.std.specs.Prelude.{◌≡◌, ℕ, ◌<◌, ◌≤◌, true, false, ◌↔◌, length};
ghost use Rattle.grammar.specs.Grammar.{right_at};
ghost use Rattle.grammar.specs.Model.{productions as productions_of, rules as rules_of};
ghost use Rattle.bitset.specs.Bits.{Has};
ghost use Rattle.bitset.specs.Cells.{Marked};
ghost use Rattle.bitset.specs.Steps.{Adds};
ghost use Rattle.tables.specs.Entries.{AnyStart, Admits, Row, Tabulates, WaitsFor};

use crate::marking::mark_each;
use crate::source::Source;
use bitset::choosing::chosen;

impl Source<'_, '_> {
    // Whether the production q may stand at position k of the production p: its left side does, and there is no conflict.
    // (p and k alone: only `admits` and `admitted` ask that there is such a position, two contracts)
    fn admits(&self, p: usize, k: usize, q: usize) -> bool
        requires parent { p < length self.now.productions.now }
        requires position { k < length (right_at (productions_of self.now.productions.now) p) }
        requires child { q < length self.now.productions.now }
        ensures yes { result ≡ true →
            AnyStart (productions_of self.now.productions.now) (rules_of self.now.rules.now) (λ g. Admits g p k q) }
        ensures no { result ≡ false →
            AnyStart (productions_of self.now.productions.now) (rules_of self.now.rules.now) (λ g. ¬ Admits g p k q) }
    {
        let right = self.productions[p].right();
        right[k] == self.productions[q].left() && !self.conflict(p, right.len(), k, q)
    }

    // The productions that may stand at position k of the production p.
    fn admitted(&self, p: usize, k: usize) -> u32
        requires parent { p < length self.now.productions.now }
        requires position { k < length (right_at (productions_of self.now.productions.now) p) }
        ensures { AnyStart (productions_of self.now.productions.now) (rules_of self.now.rules.now)
            (λ g. (q : ℕ) → Has result q ↔ WaitsFor g p k q) }
    {
        chosen(0..self.productions.len(), |q| self.admits(p, k, q))
    }

    // Puts the places of the production p into the sets of the productions that may stand there.
    fn mark_production(&self, waits: &mut [u64; 64], p: usize)
        requires { p < length self.now.productions.now }
        ensures { AnyStart (productions_of self.now.productions.now) (rules_of self.now.rules.now)
            (λ g. Adds (Marked waits.old) (Marked waits.new) (Row g.productions (WaitsFor g) p)) }
    {
        let first = self.first[p] as usize;
        // `admitted` asks by position.
        for k in 0..self.productions[p].right().len() {
            mark_each(waits, self.admitted(p, k), first + k);
        }
    }

    // For each production the places whose next symbol it may be.
    pub(crate) fn waits(&self) -> [u64; 64]
        ensures { AnyStart (productions_of self.now.productions.now) (rules_of self.now.rules.now)
            (λ g. Tabulates g.productions (WaitsFor g) result) }
    {
        let mut waits = [0u64; 64];
        // `mark_production` asks by number.
        for p in 0..self.productions.len() {
            self.mark_production(&mut waits, p);
        }
        waits
    }
}
