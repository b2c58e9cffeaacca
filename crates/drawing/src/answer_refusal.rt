//! Why an answer is refused.
ghost use Rattle.std.specs.Prelude.{◌≡◌};
ghost use Rattle.drawing.specs.declared.answer_refusal.AnswerRefusal.TheVariants.{Memory};

use crate::answer::MOST_ANSWER_BYTES;
use crate::names::MOST_PLACES;
use crate::refusal::Fault;
use crate::spell::Quoted;
use std::alloc::{AllocError, AllocFailed};
use std::error::Error;
use std::fmt;

/// Why an answer is refused. Lines count from 1.
#[derive(Debug, Drop)]
pub enum AnswerRefusal {
    /// The line is not of the form.
    Fault { line: usize, fault: Fault },
    /// No place of the game has this name.
    Unknown { line: usize, name: String },
    /// A line before this one tells of the place of this name.
    Twice { line: usize, name: String },
    /// No line tells of the place of this name.
    Missing { name: String },
    /// The text has too many bytes.
    TooLong,
    /// The game has too many places.
    TooManyPlaces,
    /// Two places of the game have this name.
    SameName { name: String },
    Memory,
}

impl AnswerRefusal {
    /// The line that it is about, if it is about one.
    pub fn line(&self) -> Option<usize> {
        match self {
            AnswerRefusal::Fault { line, .. }
            | AnswerRefusal::Unknown { line, .. }
            | AnswerRefusal::Twice { line, .. } => Some(*line),
            AnswerRefusal::Missing { .. }
            | AnswerRefusal::TooLong
            | AnswerRefusal::TooManyPlaces
            | AnswerRefusal::SameName { .. }
            | AnswerRefusal::Memory => None,
        }
    }

    /// What would be right, behind what is wrong with the place of a name.
    fn hint(&self) -> &'static str {
        match self {
            AnswerRefusal::Unknown { .. } => "; an answer names places of the game",
            AnswerRefusal::Twice { .. } => "; each place has one line",
            AnswerRefusal::Missing { .. } => "; each place has one line, NAME SIDE MOVE",
            AnswerRefusal::SameName { .. } => "; each place has a name of its own",
            AnswerRefusal::Fault { .. }
            | AnswerRefusal::TooLong
            | AnswerRefusal::TooManyPlaces
            | AnswerRefusal::Memory => "",
        }
    }
}

impl From<AllocError> for AnswerRefusal {
    ghost from_gives = { λ _ r. r ≡ Memory };

    fn from(_e: AllocError) -> AnswerRefusal {
        AnswerRefusal::Memory
    }
}

impl<T: Drop> From<AllocFailed<T>> for AnswerRefusal {
    ghost from_gives = { λ _ r. r ≡ Memory };

    fn from(_e: AllocFailed<T>) -> AnswerRefusal {
        AnswerRefusal::Memory
    }
}

/// A fault of a line of an answer: where a drawing's line would be of another form, it says which one.
#[derive(Clone, Copy)]
struct LineFault(Fault);

impl fmt::Display for LineFault {
    fn fmt<W: fmt::Write>(&self, f: &mut fmt::Formatter<W>) -> fmt::Result {
        match self.0 {
            Fault::Form => f.write_str(
                "not an answer's line; write NAME SIDE MOVE, and - for MOVE where there is none",
            ),
            Fault::Side => f.write_str(
                "the side is neither 0 nor 1; write NAME SIDE MOVE, and - for MOVE where there is none",
            ),
            fault => fault.fmt(f),
        }
    }
}

impl fmt::Display for AnswerRefusal {
    fn fmt<W: fmt::Write>(&self, f: &mut fmt::Formatter<W>) -> fmt::Result {
        if let Some(line) = self.line() {
            write!(f, "line {line}: ")?;
        }
        match self {
            AnswerRefusal::Fault { fault, .. } => LineFault(*fault).fmt(f)?,
            AnswerRefusal::Unknown { name, .. } => {
                let name = Quoted(name.as_str());
                write!(f, "there is no place named {name}")?;
            }
            AnswerRefusal::Twice { name, .. } => {
                let name = Quoted(name.as_str());
                write!(f, "there is a line of the place {name} already")?;
            }
            AnswerRefusal::Missing { name } => {
                let name = Quoted(name.as_str());
                write!(f, "there is no line of the place {name}")?;
            }
            AnswerRefusal::TooLong => write!(
                f,
                "the answer is longer than {MOST_ANSWER_BYTES} bytes"
            )?,
            AnswerRefusal::TooManyPlaces => write!(
                f,
                "the game has more than {MOST_PLACES} places"
            )?,
            AnswerRefusal::SameName { name } => {
                let name = Quoted(name.as_str());
                write!(f, "two places are named {name}")?;
            }
            AnswerRefusal::Memory => f.write_str("out of memory")?,
        }
        f.write_str(self.hint())
    }
}

impl Error for AnswerRefusal {}
