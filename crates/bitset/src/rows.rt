ghost use Rattle.std.specs.Prelude.{◌≡◌, ℕ, ◌^◌, ◌<◌, length, slice_index};

mod methods;

// A relation between numbers below 32: bit q of row p says whether p is related to q.
#[derive(Clone, Copy)]
pub struct Rows {
    rows: [u32; 32],
    ghost whole: { length rows ≡ 32 },
    ghost narrow: { ((k : ℕ) → slice_index rows k < 2 ^ 32) },
}
