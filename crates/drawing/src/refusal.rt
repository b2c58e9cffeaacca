//! Why a drawing is refused.
ghost use Rattle.std.specs.Prelude.{◌≡◌};
ghost use Rattle.drawing.specs.declared.refusal.Refusal.TheVariants as refusal;
ghost use Rattle.drawing.specs.declared.refusal.Refusal.TheVariants.{Memory};

use crate::MOST_BYTES;
use crate::names::MOST_PLACES;
use crate::spell::Quoted;
use crate::write::MOST_MOVES;
use std::alloc::{AllocError, AllocFailed};
use std::error::Error;
use std::fmt;

/// What is wrong with a line by itself.
#[derive(Clone, Copy, Debug, PartialEq, Eq)]
pub enum Fault {
    Form,
    Side,
    Weight,
    NoMoves,
    LongName,
    EmptyName,
    Dash,
    Quote,
    Control,
}

impl Fault {
    /// The refusal of a drawing for this fault of the line of this number.
    pub(crate) fn on(self, line: usize) -> Refusal
        ensures { result ≡ refusal.Fault line self }
    {
        Refusal::Fault { line, fault: self }
    }
}

/// Why a drawing is refused. Lines count from 1.
#[derive(Debug, Drop)]
pub enum Refusal {
    /// The line is not of the form.
    Fault { line: usize, fault: Fault },
    /// A place has this name already.
    Twice { line: usize, name: String },
    /// No place has this name.
    Unknown { line: usize, name: String },
    TooManyPlaces { line: usize },
    TooManyMoves { line: usize },
    /// The text has too many bytes.
    TooLong,
    NoPlaces,
    Memory,
}

impl Refusal {
    /// The line that it is about, if it is about one.
    pub fn line(&self) -> Option<usize> {
        match self {
            Refusal::Fault { line, .. }
            | Refusal::Twice { line, .. }
            | Refusal::Unknown { line, .. }
            | Refusal::TooManyPlaces { line }
            | Refusal::TooManyMoves { line } => Some(*line),
            Refusal::TooLong | Refusal::NoPlaces | Refusal::Memory => None,
        }
    }
}

impl From<AllocError> for Refusal {
    ghost from_gives = { λ _ r. r ≡ Memory };

    fn from(_e: AllocError) -> Refusal {
        Refusal::Memory
    }
}

impl<T: Drop> From<AllocFailed<T>> for Refusal {
    ghost from_gives = { λ _ r. r ≡ Memory };

    fn from(_e: AllocFailed<T>) -> Refusal {
        Refusal::Memory
    }
}

impl fmt::Display for Fault {
    fn fmt<W: fmt::Write>(&self, f: &mut fmt::Formatter<W>) -> fmt::Result {
        match self {
            Fault::Form => f.write_str("not a place; write NAME SIDE WEIGHT: NAME NAME .."),
            Fault::Side => f.write_str(
                "the side is neither 0 nor 1; write NAME SIDE WEIGHT: NAME NAME ..",
            ),
            Fault::Weight => f.write_str("the weight is not a number below 256"),
            Fault::NoMoves => f.write_str(
                "the place has no moves; name at least one place after the colon",
            ),
            Fault::LongName => f.write_str("a name is longer than 64 bytes"),
            Fault::EmptyName => f.write_str("a name is empty"),
            Fault::Dash => f.write_str("a bare - is not a name; write \"-\""),
            Fault::Quote => f.write_str(
                "a quote or a backslash stands wrong; write \"NAME\", and in it \\\" and \\\\",
            ),
            Fault::Control => f.write_str("a control character stands in a name"),
        }
    }
}

impl fmt::Display for Refusal {
    fn fmt<W: fmt::Write>(&self, f: &mut fmt::Formatter<W>) -> fmt::Result {
        match self {
            Refusal::Fault { line, fault } => write!(f, "line {line}: {fault}"),
            Refusal::Twice { line, name } => {
                let name = Quoted(name.as_str());
                write!(
                    f,
                    "line {line}: there is a place named {name} already; each place has a name of its own"
                )
            }
            Refusal::Unknown { line, name } => {
                let name = Quoted(name.as_str());
                write!(
                    f,
                    "line {line}: there is no place named {name}; a move names a place that has a line of its own"
                )
            }
            Refusal::TooManyPlaces { line } => write!(
                f,
                "line {line}: more than {MOST_PLACES} places"
            ),
            Refusal::TooManyMoves { line } => write!(
                f,
                "line {line}: more than {MOST_MOVES} moves in all"
            ),
            Refusal::TooLong => write!(f, "the drawing is longer than {MOST_BYTES} bytes"),
            Refusal::NoPlaces => f.write_str(
                "the drawing has no places; write a line NAME SIDE WEIGHT: NAME NAME .. for each",
            ),
            Refusal::Memory => f.write_str("out of memory"),
        }
    }
}

impl Error for Fault {}

impl Error for Refusal {}
