ghost use Rattle.std.specs.Prelude.{◌≡◌, ◌≤◌, length};

mod methods;

// At most `N` bytes, in memory of fixed size. (Productions and spellings hold it and are copied; the kit's `ArrayVec` is not `Copy`.)
#[derive(Clone, Copy)]
pub struct Bytes<const N: usize> {
    bytes: [u8; N],
    count: usize,
    ghost whole: { length bytes ≡ N },
    ghost few: { count ≤ N },
}
