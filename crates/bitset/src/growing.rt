ghost use Rattle.std.specs.Prelude.{◌≡◌, ℕ, ◌^◌, ◌<◌, ◌≤◌};
ghost use Rattle.bitset.specs.Steps.{Reached, AnyBelow};

// One pass: the step of each number below the count in turn.
fn pass<F: Fn(u32, usize) -> u32>(set: u32, count: usize, step: &F) -> u32
    requires callable { (s k : ℕ) → s < 2 ^ 32 → k < count → F.pre step.now s k }
    requires grows { (s k next : ℕ) → s < 2 ^ 32 → k < count → F.post step.now s k next → s ≤ next }
    requires begun { Reached (AnyBelow count (F.post step.now)) set }
    ensures grows { set ≤ result }
    ensures reached { Reached (AnyBelow count (F.post step.now)) result }
    ensures fixed { result ≡ set → (k : ℕ) → k < count → F.post step.now set k set }
{
    // (for a `fold` it is to be shown by hand that each of its calls is allowed, and apart from that what they come to; the loop
    // needs one invariant)
    let mut next = set;
    for k in 0..count {
        next = step(next, k);
    }
    next
}

// The set that the steps of the numbers below the count come to, beginning with no number, when none of them adds anything.
// A step only adds.
pub fn grown<F: Fn(u32, usize) -> u32>(count: usize, step: F) -> u32
    requires callable { (set k : ℕ) → set < 2 ^ 32 → k < count → F.pre step set k }
    requires grows { (set k next : ℕ) → set < 2 ^ 32 → k < count → F.post step set k next → set ≤ next }
    ensures reached { Reached (AnyBelow count (F.post step)) result }
    ensures fixed { (k : ℕ) → k < count → F.post step result k result }
{
    let mut set = 0;
    loop {
        let next = pass(set, count, &step);
        if next == set {
            return set;
        }
        set = next;
    }
}
