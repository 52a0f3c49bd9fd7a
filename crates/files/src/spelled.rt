use draft::draft::Draft;
use spellings::spellings::Spellings;

mod methods;

// A draft with the spellings of its kinds.
#[derive(Drop)]
pub struct SpelledDraft {
    pub draft: Draft,
    pub spellings: Spellings,
}
