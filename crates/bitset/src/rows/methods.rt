ghost use Rattle.std.specs.Prelude.{◌≡◌, ℕ, ◌<◌, true, false, ◌⊎◌, ◌↔◌};
ghost use Rattle.grammar.specs.Order.{Closure};
ghost use Rattle.bitset.specs.Bits.{Has};
ghost use Rattle.bitset.specs.Relations.{Holds};

use super::Rows;
use crate::{contains, with};

// The row, joined with the middle row if it has m. (Not by `contains`, which tests a number of 64 bits: the rows are joined four at a
// time.)
fn joined(row: u32, m: usize, middle: u32) -> u32
    requires { m < 32 }
    ensures { (q : ℕ) → Has result q ↔ (Has row q ⊎ (Has row m × Has middle q)) }
{
    if (row >> m) & 1 == 1 {
        row | middle
    } else {
        row
    }
}

impl Rows {
    // The relation between no numbers.
    pub fn empty() -> Rows
        ensures { (p q : ℕ) → ¬ Holds result p q }
    {
        Rows { rows: [0; 32] }
    }

    // Relates p to q.
    pub fn put(&mut self, p: usize, q: usize)
        requires { (p < 32) × (q < 32) }
        ensures { (x y : ℕ) → Holds self.new x y ↔ (Holds self.old x y ⊎ ((x ≡ p) × (y ≡ q))) }
    {
        self.rows[p] = with(self.rows[p], q);
    }

    // Whether p is related to q.
    pub fn has(&self, p: usize, q: usize) -> bool
        ensures yes { result ≡ true → Holds self.now p q }
        ensures no { result ≡ false → ¬ Holds self.now p q }
    {
        p < 32 && contains(self.rows[p], q)
    }

    // Relates p to q where p is related to m and m to q.
    fn join_through(&mut self, m: usize)
        requires { m < 32 }
        ensures { (p q : ℕ) →
            Holds self.new p q
            ↔ (Holds self.old p q ⊎ (Holds self.old p m × Holds self.old m q)) }
    {
        let middle = self.rows[m];
        for row in &mut self.rows {
            *row = joined(*row, m, middle);
        }
    }

    // The transitive closure, in place.
    pub fn close(&mut self)
        ensures { (p q : ℕ) → Holds self.new p q ↔ Closure (Holds self.old) p q }
    {
        for m in 0..32 {
            self.join_through(m);
        }
    }

    // Whether a number is related to itself.
    pub fn has_loop(&self) -> bool
        ensures yes { result ≡ true → ((p : ℕ) × Holds self.now p p) }
        ensures no { result ≡ false → (p : ℕ) → ¬ Holds self.now p p }
    {
        (0..32).any(|p| self.has(p, p))
    }
}
