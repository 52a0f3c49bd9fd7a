ghost use Rattle.std.specs.Prelude.{◌≡◌, ◌<◌, ◌≤◌, ◌↔◌, [], ◌∷◌, ◌++◌, length, take, nat_eq, IsTrue, MatchOption};
ghost use Rattle.std.specs.Cmp.{on_equiv, on_per, partial_equiv_from_equiv};
ghost use Rattle.std.specs.Cmp.Lexicographic.{pointwise, nat_list_eq_equiv};
ghost use Rattle.grammar.specs.Bytes.{items};

use super::Bytes;

impl<const N: usize> Bytes<N> {
    // No bytes.
    pub fn empty() -> Self
        ensures { items result ≡ [] }
    {
        Bytes {
            bytes: [0; N],
            count: 0,
        }
    }

    // These bytes; none where there are more than `N`.
    pub fn from_slice(bytes: &[u8]) -> Option<Self>
        ensures { MatchOption result (N < length bytes.now) (λ b. items b ≡ bytes.now) }
    {
        let count = bytes.len();
        if count > N {
            return None;
        }
        let mut copy = [0; N];
        copy[..count].copy_from_slice(bytes);
        Some(Bytes { bytes: copy, count })
    }

    // The bytes as a slice.
    pub fn as_slice(&self) -> &[u8]
        ensures value { result.now ≡ items self.now }
        ensures few { length result.now ≤ N }
    {
        &self.bytes[..self.count]
    }

    // How many bytes there are.
    pub fn len(&self) -> usize
        ensures value { result ≡ length (items self.now) }
        ensures few { result ≤ N }
    {
        self.as_slice().len()
    }

    // Whether there is no room for a byte more.
    pub fn is_full(&self) -> bool
        ensures full { IsTrue result ↔ (length (items self.now) ≡ N) }
        ensures few { length (items self.now) ≤ N }
    {
        self.count == N
    }

    // A byte more, at the end.
    pub fn push(&mut self, byte: u8)
        requires { length (items self.old) < N }
        ensures { items self.new ≡ items self.old ++ byte ∷ [] }
    {
        self.bytes[self.count] = byte;
        self.count += 1;
    }

    // More bytes, at the end, as many as there is room for.
    pub fn extend(&mut self, more: &[u8])
        ensures { items self.new ≡ take N (items self.old ++ more.now) }
    {
        let at = self.count;
        let size = more.len().min(N - at);
        let bytes = &mut self.bytes[..];
        bytes[at..at + size].copy_from_slice(&more[..size]);
        self.count = at + size;
    }

    // Takes the last byte away; none where there is none.
    pub fn pop(&mut self) -> Option<u8>
        ensures { MatchOption result ((items self.old ≡ []) × (items self.new ≡ []))
            (λ byte. items self.old ≡ items self.new ++ byte ∷ []) }
    {
        if self.count == 0 {
            return None;
        }
        self.count -= 1;
        Some(self.bytes[self.count])
    }

    // Takes all bytes away.
    pub fn clear(&mut self)
        ensures { items self.new ≡ [] }
    {
        self.count = 0;
    }
}

// Lists of the same bytes are equal, whatever lies behind them.
impl<const N: usize> PartialEq for Bytes<N> {
    ghost eq = { λ a b. pointwise nat_eq (items a) (items b) };

    ghost laws = { on_per items (partial_equiv_from_equiv nat_list_eq_equiv) };

    fn eq(&self, other: &Self) -> bool {
        self.as_slice() == other.as_slice()
    }
}

impl<const N: usize> Eq for Bytes<N> {
    ghost laws = { on_equiv items nat_list_eq_equiv };
}
