ghost use Rattle.std.specs.Prelude.{◌≡◌, ℕ, ◌<◌};
ghost use Rattle.score_theory.specs.Weights.{sum_below};

use scales::Semiring;

// The sum of the parts of the numbers below the count.
pub(crate) fn total<S: Semiring, F: Fn(usize) -> S>(count: usize, part: F) -> S
    requires callable { (k : ℕ) → k < count → F.pre part k }
    ensures { (f : ℕ → S) →
        ((k : ℕ) (v : S) → k < count → F.post part k v → v ≡ f k) →
        result ≡ sum_below S.Semiring.scale count f }
{
    // A `fold` needs two proofs by hand, that each of its calls is allowed and what they add up to; the loop needs one invariant.
    let mut sum = S::none();
    for k in 0..count {
        sum = sum.plus(part(k));
    }
    sum
}
