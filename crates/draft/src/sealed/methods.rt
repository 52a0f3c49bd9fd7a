ghost use Rattle.std.specs.Prelude.{◌≡◌};
ghost use Rattle.draft.specs.Model.{model};
ghost use Rattle.draft.specs.Sealed.{sealed_model};

use super::Grammar;
use crate::draft::Draft;
use tables::tables::Tables;

impl Draft {
    // Ends the draft: its grammar never changes again.
    pub fn seal(self) -> Grammar
        ensures { sealed_model result ≡ model self }
    {
        let tables = self.tables();
        Grammar {
            draft: self,
            tables,
        }
    }
}

impl Grammar {
    // The start symbol, the productions and the rules, to be read.
    pub fn draft(&self) -> &Draft
        ensures { result.now ≡ self.now.draft }
    {
        &self.draft
    }

    // The tables of the grammar.
    pub fn tables(&self) -> &Tables
        ensures { result.now ≡ self.now.tables }
    {
        &self.tables
    }
}
