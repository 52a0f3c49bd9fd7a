ghost use Rattle.std.specs.Prelude.{◌≡◌};
ghost use Rattle.file_model.specs.Files.{empty_spelled};
ghost use Rattle.files.specs.Model.{model};

use super::SpelledDraft;
use draft::draft::Draft;
use spellings::spellings::Spellings;

impl SpelledDraft {
    // An empty draft with no spellings.
    pub fn new() -> SpelledDraft
        ensures { model result ≡ empty_spelled }
    {
        SpelledDraft {
            draft: Draft::new(),
            spellings: Spellings::new(),
        }
    }
}
