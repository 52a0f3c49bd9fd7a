//! Columns of a chart.

ghost use Rattle.std.specs.Prelude.{◌≤◌};

pub(crate) mod closing;

use tables::tables::Tables;

// The column of the items that end at `end`, and the tables that it is closed by.
#[derive(Clone, Copy)]
struct Column<'t> {
    tables: &'t Tables,
    end: usize,
    ghost within: { end ≤ 48 },
}
