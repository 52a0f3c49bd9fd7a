//! What a listing is made from.

ghost use Rattle.std.specs.Prelude.{◌≡◌, ◌≤◌, length};

mod methods;

use chart::Cells;
use grammar::production::Production;
use tables::tables::Tables;

// The tables and the productions of a grammar, words, and the chart of the words. (Not score's `Input`: that has no chart, and of it
// the sizes, the left sides and the first places are known besides.)
#[derive(Clone, Copy)]
pub(crate) struct Sources<'a> {
    pub(crate) tables: &'a Tables,
    pub(crate) productions: &'a [Production],
    pub(crate) words: &'a [u8],
    pub(crate) cells: &'a Cells,
    ghost few: { length words.now ≤ 48 },
    ghost counted: { tables.now.count ≡ length productions.now },
}
