ghost use Rattle.std.specs.Prelude.{◌≡◌, ℕ, ◌^◌, ◌<◌, ◌≤◌};
ghost use Rattle.std.proofs.Math.Nat.{le_refl, le-add_right};

// A whole number whose bits are a set of the numbers below its width.
pub trait Bits: Copy {
    // the number, and how many bits it has
    ghost number: { Self → ℕ };

    ghost width: { ℕ };

    // The same number, 64 bits wide.
    fn widened(self) -> u64
        ensures same { result ≡ number self }
        ensures narrow { result < 2 ^ width };

    // The number with these bits, which are no more than its width.
    fn narrowed(wide: u64) -> Self
        requires { wide < 2 ^ width }
        ensures { number result ≡ wide };

    // It is no wider than 64 bits.
    ghost fits: { width ≤ 64 };
}

impl Bits for u32 {
    ghost number = { λ n. n };

    ghost width = { 32 };

    ghost fits = { le-add_right 32 32 };

    fn widened(self) -> u64 {
        self as u64
    }

    fn narrowed(wide: u64) -> u32 {
        wide as u32
    }
}

impl Bits for u64 {
    ghost number = { λ n. n };

    ghost width = { 64 };

    ghost fits = { le_refl 64 };

    fn widened(self) -> u64 {
        self
    }

    fn narrowed(wide: u64) -> u64 {
        wide
    }
}
