ghost use Rattle.std.specs.Prelude.{◌≡◌, ◌+◌, ◌*◌, ◌<◌, true, false, length};
ghost use Rattle.score.specs.Inputs.{productions_in, words_in, HasEntry, place_in, index_in, WaitsIn, level_in};

use super::Input;
use crate::entry::Entry;
use bitset::cells::is_marked;

impl<'a> Input<'a> {
    // The place of the entry.
    fn place(&self, entry: Entry) -> usize
        requires inside { HasEntry self.now entry }
        ensures is { result ≡ place_in self.now entry.production entry.dot }
        ensures low { result < 128 }
    {
        self.tables.first[entry.production] as usize + entry.dot
    }

    // How many entries a place has: one for each origin and end.
    pub(crate) fn per_place(&self) -> usize
        ensures { result ≡ (length (words_in self.now) + 1) * (length (words_in self.now) + 1) }
    {
        let wide = self.words.len() + 1;
        wide * wide
    }

    // The index of the entry in the table.
    pub(crate) fn index(&self, entry: Entry) -> usize
        requires inside { HasEntry self.now entry }
        ensures { result ≡ index_in self.now entry.production entry.dot entry.span.start entry.span.end }
    {
        let wide = self.words.len() + 1;
        self.place(entry) * self.per_place() + entry.span.start * wide + entry.span.end
    }

    // Whether the production q may stand behind the dot of the entry.
    pub(crate) fn waits(&self, entry: Entry, q: usize) -> bool
        requires inside { HasEntry self.now entry }
        requires child { q < length (productions_in self.now) }
        ensures yes { result ≡ true → WaitsIn self.now entry.production entry.dot q }
        ensures no { result ≡ false → ¬ WaitsIn self.now entry.production entry.dot q }
    {
        is_marked(&self.tables.waits, q, self.place(entry))
    }

    // The level of the entry: the rank of its left side if every symbol behind the dot may be empty, else 17 (a
    // level like the others, the one filled last; it stands for no missing value).
    pub(crate) fn level(&self, entry: Entry) -> u8
        requires inside { HasEntry self.now entry }
        ensures { result ≡ level_in self.now entry.production entry.dot }
    {
        if entry.dot < self.tails[entry.production] as usize {
            17
        } else {
            self.tables.ranks[self.productions[entry.production].left() as usize]
        }
    }
}
