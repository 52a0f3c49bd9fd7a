ghost use Rattle.std.specs.Prelude.{◌≡◌, ◌≤◌, length};
ghost use Rattle.grammar.specs.Grammar.{right_at};
ghost use Rattle.grammar.specs.Model.{productions as productions_of};
ghost use Rattle.bitset.specs.Bits.{Has};
ghost use Rattle.derivations.specs.Ranges.{Lefts};
ghost use Rattle.score.specs.Tails.{Tail, Tails};

use bitset::contains;
use derivations::nullable;
use grammar::production::Production;

// The least position from which on every symbol is in the set.
fn tail(right: &[u8], set: u32) -> u8
    requires short { length right.now ≤ 6 }
    ensures { Tail (Has set) right.now result }
{
    right
        .iter()
        .rposition(|symbol| !contains(set, usize::from(*symbol)))
        .map_or(0, |last| last as u8 + 1)
}

// The same for the right side of the production p, or 0 where there is none.
fn tail_at(productions: &[Production], p: usize, set: u32) -> u8
    ensures { Tail (Has set) (right_at (productions_of productions.now) p) result }
{
    productions
        .get(p)
        .map_or(0, |production| tail(production.right(), set))
}

// For each production the least position from which on every symbol may be empty.
pub(crate) fn tails(productions: &[Production]) -> [u8; 32]
    requires few { length productions.now ≤ 32 }
    requires lefts { Lefts (productions_of productions.now) }
    ensures { Tails (productions_of productions.now) result }
{
    let empty = nullable(productions);
    std::array::from_fn(|p| tail_at(productions, p, empty))
}
