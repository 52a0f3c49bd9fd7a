ghost use Rattle.std.specs.Prelude.{◌≡◌, ℕ, ◌<◌, ◌≤◌, length, slice_index};

// Places are numbered by production and then by the position of the dot. A set of places is two cells of 64 bits.
#[derive(Clone, Copy)]
pub struct Tables {
    // how many productions there are
    pub count: usize,
    // the first and the last place of each production (arrays of fixed size, no heap; each is asked for alone)
    pub first: [u8; 32],
    pub last: [u8; 32],
    // for each production the places whose next symbol it may be, without conflict, at the cells 2q and 2q + 1
    pub waits: [u64; 64],
    // for each kind, from 0 here, the places before it, at the cells 2a and 2a + 1
    pub before: [u64; 64],
    // the live productions
    pub live: u32,
    // the live productions of the start symbol
    pub starts: u32,
    // the rank of each nonterminal: it falls from a nonterminal to what it leads to
    pub ranks: [u8; 16],
    ghost few: { count ≤ 32 },
    ghost firsts: { length first ≡ 32 },
    ghost lasts: { length last ≡ 32 },
    ghost waiting: { length waits ≡ 64 },
    ghost kinds: { length before ≡ 64 },
    ghost ranked: { length ranks ≡ 16 },
    ghost low: { ((k : ℕ) → k < count → slice_index first k < 128) },
    ghost high: { ((k : ℕ) → k < count → slice_index last k < 128) },
}
