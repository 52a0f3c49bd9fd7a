//! Nodes of trees, and their records.

ghost use Rattle.std.specs.Prelude.{◌<◌, ◌≤◌, length};

mod listing;
mod methods;
mod records;

use crate::sources::Sources;

// A node of a tree over the words: the index of its production, and where its words start and end.
#[derive(Clone, Copy)]
pub(crate) struct Node<'a> {
    pub(crate) sources: Sources<'a>,
    pub(crate) production: usize,
    pub(crate) start: usize,
    pub(crate) end: usize,
    ghost known: { production < sources.tables.now.count },
    ghost order: { start ≤ end },
    ghost within: { end ≤ length sources.words.now },
}
