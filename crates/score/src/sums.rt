ghost use Rattle.std.specs.Prelude.{◌≤◌, length};
ghost use Rattle.score.specs.Inputs.{entries_in};

use crate::input::Input;

mod adding;
mod filling;
mod making;

// The caller's table, which has room for the sum over the ways of each entry.
#[derive(Drop)]
pub(crate) struct Sums<'a, 's, S> {
    pub(crate) input: &'a Input<'a>,
    pub(crate) table: &'s mut [S],
    ghost room: { entries_in input.now ≤ length table.now },
}
