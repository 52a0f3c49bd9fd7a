ghost use Rattle.std.specs.Prelude.{◌<◌};

// The words from one place to another.
#[derive(Clone, Copy, PartialEq, Eq, Hash)]
pub struct Span {
    pub from: usize,
    pub to: usize,
}

impl Span {
    // The part of the span from a place on.
    pub(crate) fn starting(self, from: usize) -> Span {
        Span { from, ..self }
    }

    // The part of the span up to a place.
    pub(crate) fn ending(self, to: usize) -> Span {
        Span { to, ..self }
    }
}

// A position in the right side of a production, which goes by its number.
#[derive(Clone, Copy, PartialEq, Eq, Hash)]
pub struct Position {
    pub production: u8,
    pub index: usize,
}

impl Position {
    // The first position of a production.
    pub(crate) fn first(production: u8) -> Position {
        Position {
            production,
            index: 0,
        }
    }

    // The position behind this one.
    pub(crate) fn next(self) -> Position
        requires { self.index < 6 }
    {
        Position {
            index: self.index + 1,
            ..self
        }
    }
}
