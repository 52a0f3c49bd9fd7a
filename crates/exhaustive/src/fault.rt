ghost use Rattle.std.specs.Prelude.{◌≡◌};
ghost use Rattle.exhaustive.specs.Numbers.{number};

use std::alloc::{AllocError, AllocFailed};
use std::fmt;

// Why a line is refused. (With numbers of its own: what the reader says is compared with them.)
#[derive(Clone, Copy)]
pub enum Refusal {
    LineFull = 9,
    NothingBegins = 11,
    NoSentence = 13,
    ShortTable = 16,
    UnknownWord = 21,
}

impl Refusal {
    // The number that is printed of it.
    fn number(self) -> u8
        ensures { result ≡ number self }
    {
        self as u8
    }
}

// A refusal of a line at a place in bytes, counted from 0. (It is 0 also where the refusal speaks of no place, and no option: that 0
// is printed.)
#[derive(Clone, Copy)]
pub struct Fault {
    pub refusal: Refusal,
    pub place: usize,
}

impl fmt::Display for Fault {
    fn fmt<W: fmt::Write>(&self, f: &mut fmt::Formatter<W>) -> fmt::Result {
        let number = self.refusal.number();
        let place = self.place;
        write!(f, "refused {number} at {place}")
    }
}

// Why a line has no trees to print: it is refused, or there is no memory to judge it.
#[derive(Drop)]
pub enum LineError {
    Refused(Fault),
    Memory(AllocError),
}

impl LineError {
    // The line is refused at the place.
    pub(crate) fn refused(refusal: Refusal, place: usize) -> LineError {
        LineError::Refused(Fault { refusal, place })
    }
}

impl From<AllocError> for LineError {
    fn from(error: AllocError) -> LineError {
        LineError::Memory(error)
    }
}

impl<T: Drop> From<AllocFailed<T>> for LineError {
    fn from(error: AllocFailed<T>) -> LineError {
        LineError::Memory(AllocError::from(error))
    }
}
