ghost use Rattle.std.specs.Prelude.{ℕ, ◌<◌, ◌≤◌, length, slice_index};
ghost use Rattle.grammar.specs.Bytes.{items};
ghost use Rattle.syntax.specs.Syntax.{LiteralByte};

use grammar::bytes::Bytes;

mod methods;

// The bytes of a literal, from one to eight.
#[derive(Clone, Copy, PartialEq, Eq)]
pub struct Literal {
    bytes: Bytes<8>,
    ghost some: { 1 ≤ length (items bytes) },
    ghost plain: { (k : ℕ) → k < length (items bytes) → LiteralByte (slice_index (items bytes) k) },
}

// How a kind is spelled: by a literal, or as any name or any number.
#[derive(Clone, Copy, PartialEq, Eq)]
pub enum Spelling {
    Literal(Literal),
    Name,
    Num,
}

// A symbol of a right side as it is written: a nonterminal by its number, or a kind by its spelling.
#[derive(Clone, Copy, PartialEq, Eq)]
pub enum Symbol {
    Nonterminal(u8),
    Spelled(Spelling),
}
