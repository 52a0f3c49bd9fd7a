ghost use Rattle.std.specs.Prelude.{◌≡◌, ℕ, ◌<◌, ◌≤◌, slice_index};
ghost use Rattle.grammar.specs.Derivations.{Leads};
ghost use Rattle.grammar.specs.Model.{productions as productions_of};
ghost use Rattle.tables.specs.Ranks.{count_below, row_of};

use crate::source::Source;
use bitset::rows::Rows;
use derivations::leads;

// How many nonterminals the nonterminal is related to.
fn rank(rows: &Rows, symbol: usize) -> u8
    ensures { result ≡ count_below (row_of rows.now symbol) 16 }
{
    (0..16).filter(|other| rows.has(symbol, *other)).count() as u8
}

impl Source<'_, '_> {
    // The rank of each nonterminal: the number of nonterminals that it leads to, in one step or more.
    pub(crate) fn ranks(&self) -> [u8; 16]
        ensures falls { (A B : ℕ) →
            Leads (productions_of self.now.productions.now) A B →
            slice_index result B < slice_index result A }
        ensures small { (A : ℕ) → slice_index result A ≤ 16 }
    {
        let mut rows = leads(self.productions);
        rows.close();
        std::array::from_fn(|symbol| rank(&rows, symbol))
    }
}
