ghost use Rattle.std.specs.Prelude.{◌≡◌, ℕ, ◌+◌, ◌<◌, ◌≤◌, [], map, length, MatchOption, slice_index_or};
ghost use Rattle.syntax.specs.Model.{spelling, symbol};
ghost use Rattle.syntax.specs.Syntax.{name};
ghost use Rattle.file_model.specs.Spelled.{First, Declared, Declares, StandsFor, Unknown};
ghost use Rattle.spellings.specs.Model.{words};

use super::Spellings;
use grammar::refusals::FileRefusal;
use syntax::spelling::{Spelling, Symbol};

// The first index at which the spelling stands; none where it stands nowhere. (by `for` with an index: this project's form where kinds
// are found; no one function with the search for a byte, since its clause speaks of what spellings stand for)
fn first_index(words: &[Spelling], word: &Spelling) -> Option<usize>
    ensures { MatchOption result ((k : ℕ) (d : Spelling) → k < length words.now → ¬ (spelling (slice_index_or words.now k d) ≡ spelling word.now))
        (λ i. (i < length words.now) × ((d : Spelling) → spelling (slice_index_or words.now i d) ≡ spelling word.now)
        × ((k : ℕ) (d : Spelling) → k < i → ¬ (spelling (slice_index_or words.now k d) ≡ spelling word.now))) }
{
    for (i, known) in words.iter().enumerate() {
        if known == word {
            return Some(i);
        }
    }
    None
}

impl Spellings {
    // No spellings.
    pub fn new() -> Spellings
        ensures { words result ≡ [] }
    {
        Spellings {
            words: [Spelling::Name; 32],
            count: 0,
        }
    }

    // The spellings as a slice.
    pub(crate) fn words(&self) -> &[Spelling]
        ensures value { map spelling result.now ≡ words self.now }
        ensures few { length result.now ≤ 32 }
    {
        &self.words[..self.count]
    }

    // How many spellings there are.
    pub fn count(&self) -> usize
        ensures { result ≡ length (words self.now) }
    {
        self.count
    }

    // The spelling of a kind, which counts from 16; none where the kind has none.
    pub fn spelling_of(&self, kind: u8) -> Option<Spelling>
        ensures { MatchOption result ((k : ℕ) → kind ≡ 16 + k → length (words self.now) ≤ k)
            (λ w. (k : ℕ) × (kind ≡ 16 + k) × (k < length (words self.now)) × (spelling w ≡ slice_index_or (words self.now) k name)) }
    {
        let index = kind.checked_sub(16)?;
        self.words().get(usize::from(index)).copied()
    }

    // The kind that the spelling is of; none where it is not declared.
    pub fn kind_of(&self, word: &Spelling) -> Option<u8>
        ensures { MatchOption result (¬ Declared (words self.now) (spelling word.now))
            (λ kind. (k : ℕ) × First (words self.now) (spelling word.now) k × (kind ≡ 16 + k)) }
    {
        let index = first_index(self.words(), word)?;
        Some(16 + index as u8)
    }

    // The symbol that a written symbol stands for; none where its spelling is not declared.
    pub fn resolve(&self, written: &Symbol) -> Option<u8>
        ensures { MatchOption result (Unknown (words self.now) (symbol written.now))
            (λ x. StandsFor (words self.now) (symbol written.now) x) }
    {
        match written {
            Symbol::Nonterminal(s) => Some(*s),
            Symbol::Spelled(word) => self.kind_of(word),
        }
    }

    // Declares the next kind's spelling, and answers the kind.
    pub fn declare(&mut self, word: Spelling) -> Result<u8, FileRefusal>
        ensures { Declares (words self.old) (spelling word) result (words self.new) }
    {
        if self.count >= 32 {
            return Err(FileRefusal::Declared);
        }
        if self.kind_of(&word).is_some() {
            return Err(FileRefusal::Declared);
        }
        let at = self.count;
        self.words[at] = word;
        self.count = at + 1;
        Ok(16 + at as u8)
    }
}
