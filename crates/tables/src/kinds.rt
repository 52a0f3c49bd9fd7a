ghost use Rattle.std.specs.Prelude.{◌≡◌, ◌+◌, ◌<◌, ◌≤◌, length};
ghost use Rattle.grammar.specs.Model.{productions as productions_of};
ghost use Rattle.bitset.specs.Cells.{Marked};
ghost use Rattle.bitset.specs.Steps.{Adds};
ghost use Rattle.tables.specs.Entries.{Row, Tabulates, KindNext};

use crate::source::Source;
use bitset::cells::mark;

// Puts the place d into the set of the symbol, if that is a kind.
fn mark_kind(before: &mut [u64; 64], symbol: u8, d: usize)
    requires { (symbol < 48) × (d < 128) }
    ensures { Adds (Marked before.old) (Marked before.new) (λ x e. (symbol ≡ 16 + x) × (e ≡ d)) }
{
    if symbol >= 16 {
        mark(before, symbol as usize - 16, d);
    }
}

impl Source<'_, '_> {
    // Puts the places of the production p into the sets of the kinds that stand there.
    fn mark_kinds(&self, before: &mut [u64; 64], p: usize)
        requires { p < length self.now.productions.now }
        ensures { Adds (Marked before.old) (Marked before.new)
            (Row (productions_of self.now.productions.now) (KindNext (productions_of self.now.productions.now)) p) }
    {
        let first = self.first[p] as usize;
        for (k, symbol) in self.productions[p].right().iter().enumerate() {
            mark_kind(before, *symbol, first + k);
        }
    }

    // For each kind the places before it.
    pub(crate) fn before(&self) -> [u64; 64]
        ensures { Tabulates (productions_of self.now.productions.now)
            (KindNext (productions_of self.now.productions.now)) result }
    {
        let mut before = [0u64; 64];
        // `mark_kinds` asks by number.
        for p in 0..self.productions.len() {
            self.mark_kinds(&mut before, p);
        }
        before
    }
}
