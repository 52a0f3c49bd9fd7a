ghost use Rattle.tables.specs.Meaning.{Means};
ghost use Rattle.draft.specs.Model.{model};

use super::Draft;
use tables::build;
use tables::tables::Tables;

impl Draft {
    // The tables of the draft's grammar.
    pub(crate) fn tables(&self) -> Tables
        ensures { Means result (model self.now) }
    {
        build(self.start, self.productions(), self.rules())
    }
}
