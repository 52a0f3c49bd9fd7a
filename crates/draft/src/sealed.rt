ghost use Rattle.tables.specs.Meaning.{Meant};
ghost use Rattle.draft.specs.Model.{model};

use crate::draft::Draft;
use tables::tables::Tables;

mod methods;

// A grammar that never changes: a draft that takes no more productions and rules, with the tables by which it is read.
#[derive(Drop)]
pub struct Grammar {
    draft: Draft,
    tables: Tables,
    ghost meant: { Meant tables (model draft) },
}
