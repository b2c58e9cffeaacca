//! Why a text is refused.
ghost use Rattle.std.specs.Prelude.{◌≡◌};
ghost use Rattle.pgsolver.specs.declared.refusal.Stop.TheVariants.{At, Memory};
ghost use Rattle.pgsolver.specs.declared.refusal.Refusal.TheVariants as refusal;
ghost use Rattle.pgsolver.specs.Form.{slip};

use std::alloc::{AllocError, AllocFailed};
use std::error::Error;
use std::fmt;

/// What is not of the form.
#[derive(Clone, Copy, Debug, PartialEq, Eq)]
pub enum Fault {
    Number,
    Large,
    Owner,
    NoSuccessor,
    Quote,
    End,
    TooManyNodes,
    TooManyMoves,
}

/// Why a text is refused. Lines count from 1.
#[derive(Clone, Copy, Debug, PartialEq, Eq)]
pub enum Refusal {
    /// The text is not of the form, or too much of it.
    Fault { line: usize, fault: Fault },
    /// A node before this one has its id.
    Twice { line: usize, id: u32 },
    /// The node has a successor that is no node.
    Unknown { line: usize, id: u32 },
    /// The priority of the node gets no weight below 256.
    TooManyPriorities { line: usize },
    /// The text has too many bytes.
    TooLong,
    NoNodes,
    Memory,
}

impl Refusal {
    /// The line that it is about, if it is about one.
    pub fn line(&self) -> Option<usize> {
        match self {
            Refusal::Fault { line, .. }
            | Refusal::Twice { line, .. }
            | Refusal::Unknown { line, .. }
            | Refusal::TooManyPriorities { line } => Some(*line),
            Refusal::TooLong | Refusal::NoNodes | Refusal::Memory => None,
        }
    }
}

/// A fault, and how many bytes of the text are left from there.
#[derive(Clone, Copy, Debug, PartialEq, Eq)]
pub struct Slip {
    pub fault: Fault,
    pub left: usize,
}

impl Slip {
    /// The fault that stands where the rest of the text begins.
    pub(crate) fn at(fault: Fault, rest: &[u8]) -> Slip
        ensures { result ≡ slip fault rest.now }
    {
        Slip {
            fault,
            left: rest.len(),
        }
    }
}

/// Why reading stops.
#[derive(Clone, Copy, Debug, PartialEq, Eq)]
pub(crate) enum Stop {
    At(Slip),
    Memory,
}

impl From<AllocError> for Refusal {
    ghost from_gives = { λ _ r. r ≡ refusal.Memory };

    fn from(_e: AllocError) -> Refusal {
        Refusal::Memory
    }
}

impl From<Slip> for Stop {
    ghost from_gives = { λ s r. r ≡ At s };

    fn from(slip: Slip) -> Stop {
        Stop::At(slip)
    }
}

impl From<AllocError> for Stop {
    ghost from_gives = { λ _ r. r ≡ Memory };

    fn from(_e: AllocError) -> Stop {
        Stop::Memory
    }
}

impl<T: Drop> From<AllocFailed<T>> for Stop {
    ghost from_gives = { λ _ r. r ≡ Memory };

    fn from(_e: AllocFailed<T>) -> Stop {
        Stop::Memory
    }
}

impl Error for Fault {}

impl Error for Refusal {}

impl fmt::Display for Fault {
    fn fmt<W: fmt::Write>(&self, f: &mut fmt::Formatter<W>) -> fmt::Result {
        match self {
            Fault::Number => f.write_str(
                "a number is missing; write ID PRIORITY OWNER SUCC,SUCC,.. \"NAME\";",
            ),
            Fault::Large => f.write_str("a number is above 4294967295"),
            Fault::Owner => f.write_str(
                "the owner is neither 0 nor 1; write ID PRIORITY OWNER SUCC,SUCC,.. \"NAME\";",
            ),
            Fault::NoSuccessor => f.write_str(
                "a successor is missing; write the ids of one or more nodes behind the owner, with commas between them",
            ),
            Fault::Quote => f.write_str("a name has no closing quote"),
            Fault::End => f.write_str(
                "a semicolon is missing; write ID PRIORITY OWNER SUCC,SUCC,.. \"NAME\";",
            ),
            Fault::TooManyNodes => f.write_str("more than 16384 nodes"),
            Fault::TooManyMoves => f.write_str("more than 64000 successors in all"),
        }
    }
}

impl fmt::Display for Refusal {
    fn fmt<W: fmt::Write>(&self, f: &mut fmt::Formatter<W>) -> fmt::Result {
        match self {
            Refusal::Fault { line, fault } => write!(f, "line {line}: {fault}"),
            Refusal::Twice { line, id } => write!(
                f,
                "line {line}: there is a node {id} already; each node has an id of its own"
            ),
            Refusal::Unknown { line, id } => write!(
                f,
                "line {line}: there is no node {id}; a successor is the id of a node"
            ),
            Refusal::TooManyPriorities { line } => write!(
                f,
                "line {line}: too many priorities; in order, and odd as they are, they do not fit below 256"
            ),
            Refusal::TooLong => f.write_str("the text is longer than 1048576 bytes"),
            Refusal::NoNodes => f.write_str(
                "there are no nodes; write ID PRIORITY OWNER SUCC,SUCC,.. \"NAME\"; for each",
            ),
            Refusal::Memory => f.write_str("out of memory"),
        }
    }
}
