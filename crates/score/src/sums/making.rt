ghost use Rattle.std.specs.Prelude.{suc, ◌<◌, ◌≤◌, length};
ghost use Rattle.grammar.specs.Grammar.{At, right_at};
ghost use Rattle.score.specs.Inputs.{productions_in, HasEntry};
ghost use Rattle.score.specs.Filling.{Makes};

use super::Sums;
use crate::entry::{Entry, Span};
use scales::Semiring;

impl<'a, 's, S: Semiring> Sums<'a, 's, S> {
    // The sum for the dot behind that of the entry, where the kind stands between them.
    fn after_kind(&self, entry: Entry, kind: u8) -> S
        requires inside { HasEntry self.now.input.now entry }
        requires stands { At (right_at (productions_in self.now.input.now) entry.production) entry.dot kind }
        requires high { 16 ≤ kind }
        ensures { Makes S.Semiring.scale self.now.input.now self.now.table.now entry.production (suc entry.dot) entry.span.start entry.span.end result }
    {
        let span = entry.span;
        // By index: the sum that is held goes up to it, and what `last` of the span's words answers would have to be led back to it.
        if span.end <= span.start {
            return S::none();
        }
        let last = span.end - 1;
        if self.input.words[last] != kind {
            return S::none();
        }
        self.held(Entry {
            span: Span {
                start: span.start,
                end: last,
            },
            ..entry
        })
    }

    // The sum for the dot behind that of the entry.
    fn after(&self, entry: Entry) -> S
        requires inside { HasEntry self.now.input.now entry }
        requires position { entry.dot < length (right_at (productions_in self.now.input.now) entry.production) }
        ensures { Makes S.Semiring.scale self.now.input.now self.now.table.now entry.production (suc entry.dot) entry.span.start entry.span.end result }
    {
        let symbol = self.input.productions[entry.production].right()[entry.dot];
        if symbol < 16 {
            self.splits(entry)
        } else {
            self.after_kind(entry, symbol)
        }
    }

    // The sum for the entry.
    pub(super) fn made(&self, entry: Entry) -> S
        requires inside { HasEntry self.now.input.now entry }
        ensures { Makes S.Semiring.scale self.now.input.now self.now.table.now entry.production entry.dot entry.span.start entry.span.end result }
    {
        if entry.dot > 0 {
            self.after(Entry {
                dot: entry.dot - 1,
                ..entry
            })
        } else if entry.span.start == entry.span.end {
            S::one()
        } else {
            S::none()
        }
    }
}
