ghost use Rattle.std.specs.Prelude.{◌≡◌, ℕ, suc, ◌+◌, ◌-◌, ◌<◌, ◌≤◌, length};
ghost use Rattle.score_theory.specs.Weights.{sum_below};
ghost use Rattle.score.specs.Inputs.{productions_in, words_in, HasEntry};
ghost use Rattle.score.specs.Filling.{held, whole_of, Term, Terms, Root};

use super::Sums;
use crate::entry::{Entry, Span};
use crate::total::total;
use scales::Semiring;

impl<'a, 's, S: Semiring> Sums<'a, 's, S> {
    // What the table holds for the entry.
    pub(super) fn held(&self, entry: Entry) -> S
        requires inside { HasEntry self.now.input.now entry }
        ensures { result ≡ held S.Semiring.scale self.now.input.now self.now.table.now entry.production entry.dot entry.span.start entry.span.end }
    {
        self.table[self.input.index(entry)]
    }

    // The sum over the ways of the whole production q over the span, with the value of its price.
    fn whole(&self, q: usize, span: Span) -> S
        requires known { q < length (productions_in self.now.input.now) }
        requires within { span.end ≤ length (words_in self.now.input.now) }
        ensures { result ≡ whole_of S.Semiring.scale self.now.input.now self.now.table.now q span.start span.end }
    {
        let production = &self.input.productions[q];
        let ways = self.held(Entry {
            production: q,
            dot: production.right().len(),
            span,
        });
        let price = S::value(production.price());
        price.times(ways)
    }

    // What the production q adds behind the dot of the entry, from where its span ends to the end.
    fn term(&self, entry: Entry, q: usize, end: usize) -> S
        requires inside { HasEntry self.now.input.now entry }
        requires child { q < length (productions_in self.now.input.now) }
        requires span { (entry.span.end ≤ end) × (end ≤ length (words_in self.now.input.now)) }
        ensures { (v : S) →
            Term S.Semiring.scale self.now.input.now self.now.table.now entry.production entry.dot entry.span.start entry.span.end end q v →
            result ≡ v }
    {
        if self.input.waits(entry, q) {
            let before = self.held(entry);
            let last = self.whole(
                q,
                Span {
                    start: entry.span.end,
                    end,
                },
            );
            before.times(last)
        } else {
            S::none()
        }
    }

    // What all productions add behind the dot of the entry, if its span is split behind the words that are taken.
    fn split(&self, entry: Entry, taken: usize) -> S
        requires inside { HasEntry self.now.input.now entry }
        requires within { entry.span.start + taken ≤ entry.span.end }
        ensures { (f : ℕ → S) →
            Terms S.Semiring.scale self.now.input.now self.now.table.now entry.production entry.dot entry.span.start (entry.span.start + taken) entry.span.end f →
            result ≡ sum_below S.Semiring.scale (length (productions_in self.now.input.now)) f }
    {
        let before = Entry {
            span: Span {
                start: entry.span.start,
                end: entry.span.start + taken,
            },
            ..entry
        };
        total(
            self.input.productions.len(),
            |q| self.term(before, q, entry.span.end),
        )
    }

    // The sum over all splits of the entry's span at which a production stands behind its dot.
    pub(super) fn splits(&self, entry: Entry) -> S
        requires inside { HasEntry self.now.input.now entry }
        ensures { (f : ℕ → ℕ → S) →
            ((m : ℕ) → entry.span.start ≤ m → m ≤ entry.span.end →
            Terms S.Semiring.scale self.now.input.now self.now.table.now entry.production entry.dot entry.span.start m entry.span.end (f m)) →
            result
            ≡ sum_below S.Semiring.scale (suc (entry.span.end - entry.span.start))
            (λ d. sum_below S.Semiring.scale (length (productions_in self.now.input.now)) (λ q. f (entry.span.start + d) q)) }
    {
        total(
            entry.span.end - entry.span.start + 1,
            |taken| self.split(entry, taken),
        )
    }

    // What the production p adds to the score: its sum over all the words, if its left side is the start symbol.
    fn root(&self, start: u8, p: usize) -> S
        requires known { p < length (productions_in self.now.input.now) }
        ensures { (v : S) → Root S.Semiring.scale self.now.input.now self.now.table.now start p v → result ≡ v }
    {
        if self.input.productions[p].left() == start {
            self.whole(
                p,
                Span {
                    start: 0,
                    end: self.input.words.len(),
                },
            )
        } else {
            S::none()
        }
    }

    // What all productions add.
    pub(crate) fn roots(&self, start: u8) -> S
        ensures { (f : ℕ → S) →
            ((p : ℕ) → p < length (productions_in self.now.input.now) → Root S.Semiring.scale self.now.input.now self.now.table.now start p (f p)) →
            result ≡ sum_below S.Semiring.scale (length (productions_in self.now.input.now)) f }
    {
        total(self.input.productions.len(), |p| self.root(start, p))
    }
}
