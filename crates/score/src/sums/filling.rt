ghost use Rattle.std.specs.Prelude.{◌+◌, ◌-◌, ◌<◌, ◌≤◌, length};
ghost use Rattle.score.specs.Inputs.{productions_in, words_in, HasEntry, stage, stage_at, entries_in};
ghost use Rattle.score.specs.Filling.{Kept, Fills, Blank, AllRight};

use super::Sums;
use crate::entry::{Entry, Span};
use grammar::production::place_count;
use scales::Semiring;

impl<'a, 's, S: Semiring> Sums<'a, 's, S> {
    // Fills in the entry, if it is of the level. (A level is a plain number: only this function and the next two ask that it is below
    // 18, and a struct of it would be made only for the one loop over the levels.)
    fn fill_entry(&mut self, level: u8, entry: Entry)
        requires inside { HasEntry self.old.input.now entry }
        requires low { level < 18 }
        ensures kept { Kept self.old self.new }
        ensures fills { Fills S.Semiring.scale self.old.input.now self.old.table.now self.new.table.now
            (stage_at entry.span level entry.production entry.dot) (stage_at entry.span level entry.production entry.dot + 1) }
    {
        let input = self.input;
        if input.level(entry) == level {
            let sum = self.made(entry);
            self.table[input.index(entry)] = sum;
        }
    }

    // Fills in the entries of the production p over the span that are of the level.
    fn fill_row(&mut self, level: u8, p: usize, span: Span)
        requires known { p < length (productions_in self.old.input.now) }
        requires within { span.end ≤ length (words_in self.old.input.now) }
        requires low { level < 18 }
        ensures kept { Kept self.old self.new }
        ensures fills { Fills S.Semiring.scale self.old.input.now self.old.table.now self.new.table.now (stage_at span level p 0) (stage_at span level (p + 1) 0) }
    {
        for dot in 0..self.input.productions[p].places() {
            let entry = Entry {
                production: p,
                dot,
                span,
            };
            self.fill_entry(level, entry);
        }
    }

    // Fills in the entries over the span that are of the level.
    fn fill_level(&mut self, level: u8, span: Span)
        requires within { span.end ≤ length (words_in self.old.input.now) }
        requires low { level < 18 }
        ensures kept { Kept self.old self.new }
        ensures fills { Fills S.Semiring.scale self.old.input.now self.old.table.now self.new.table.now (stage_at span level 0 0) (stage_at span (level + 1) 0 0) }
    {
        // An entry is found by the number of its production, and the production itself is not needed here.
        for p in 0..self.input.productions.len() {
            self.fill_row(level, p, span);
        }
    }

    // Fills in the entries over the span.
    fn fill_span(&mut self, span: Span)
        requires within { span.end ≤ length (words_in self.old.input.now) }
        ensures kept { Kept self.old self.new }
        ensures fills { Fills S.Semiring.scale self.old.input.now self.old.table.now self.new.table.now
            (stage_at span 0 0 0) (stage (span.end - span.start) (span.start + 1) 0 0 0) }
    {
        for level in 0..18 {
            self.fill_level(level, span);
        }
    }

    // Fills in the entries for all spans of this many words.
    fn fill_length(&mut self, len: usize)
        requires within { len ≤ length (words_in self.old.input.now) }
        ensures kept { Kept self.old self.new }
        ensures fills { Fills S.Semiring.scale self.old.input.now self.old.table.now self.new.table.now (stage len 0 0 0 0) (stage (len + 1) 0 0 0 0) }
    {
        for start in 0..=self.input.words.len() - len {
            let end = start + len;
            self.fill_span(Span { start, end });
        }
    }

    // Makes all entries none.
    fn clear(&mut self)
        ensures kept { Kept self.old self.new }
        ensures blank { Blank S.Semiring.scale (entries_in self.old.input.now) self.old.table.now self.new.table.now }
    {
        let count = place_count(self.input.productions) * self.input.per_place();
        // Not by `fill`: it asks that a clone never fails, and `Copy` does not say so.
        self.table[..count].fill_with(|| S::none());
    }

    // Fills in all entries.
    pub(crate) fn fill(&mut self)
        ensures kept { Kept self.old self.new }
        ensures right { AllRight S.Semiring.scale self.old.input.now self.old.table.now self.new.table.now }
    {
        self.clear();
        for len in 0..=self.input.words.len() {
            self.fill_length(len);
        }
    }
}
