//! Why a solution is refused.
ghost use Rattle.std.specs.Prelude.{◌≡◌};
ghost use Rattle.pgsolver.specs.declared.solution_refusal.SolutionRefusal.TheVariants.{Memory};

use crate::MOST_BYTES;
use crate::refusal::Fault;
use crate::text::MOST_NODES;
use std::alloc::{AllocError, AllocFailed};
use std::fmt;

/// Why a solution is refused. Lines count from 1.
#[derive(Clone, Copy, Debug, PartialEq, Eq)]
pub enum SolutionRefusal {
    /// The text is not of the form.
    Fault { line: usize, fault: Fault },
    /// No node has this id.
    Unknown { line: usize, id: u32 },
    /// What is said of the node of this id was said before.
    Twice { line: usize, id: u32 },
    /// Nothing is said of the node of this id.
    Missing { id: u32 },
    /// The text has too many bytes.
    TooLong,
    /// The game has too many nodes.
    TooManyNodes,
    /// Two nodes of the game have this id.
    SameId { id: u32 },
    Memory,
}

impl From<AllocError> for SolutionRefusal {
    ghost from_gives = { λ _ r. r ≡ Memory };

    fn from(_e: AllocError) -> SolutionRefusal {
        SolutionRefusal::Memory
    }
}

impl<T: Drop> From<AllocFailed<T>> for SolutionRefusal {
    ghost from_gives = { λ _ r. r ≡ Memory };

    fn from(_e: AllocFailed<T>) -> SolutionRefusal {
        SolutionRefusal::Memory
    }
}

/// A fault of a solution: where a game's text would be of another form, it says which one.
#[derive(Clone, Copy)]
struct SolutionFault(Fault);

impl fmt::Display for SolutionFault {
    fn fmt<W: fmt::Write>(&self, f: &mut fmt::Formatter<W>) -> fmt::Result {
        match self.0 {
            Fault::Number => f.write_str(
                "a number is missing; write ID WINNER MOVE; or ID WINNER;",
            ),
            Fault::Owner => f.write_str(
                "the winner is neither 0 nor 1; write ID WINNER MOVE; or ID WINNER;",
            ),
            Fault::End => f.write_str(
                "a semicolon is missing; write ID WINNER MOVE; or ID WINNER;",
            ),
            fault => fault.fmt(f),
        }
    }
}

impl fmt::Display for SolutionRefusal {
    fn fmt<W: fmt::Write>(&self, f: &mut fmt::Formatter<W>) -> fmt::Result {
        match self {
            SolutionRefusal::Fault { line, fault } => {
                let fault = SolutionFault(*fault);
                write!(f, "line {line}: {fault}")
            }
            SolutionRefusal::Unknown { line, id } => write!(
                f,
                "line {line}: there is no node {id}; a solution names nodes of the game"
            ),
            SolutionRefusal::Twice { line, id } => write!(
                f,
                "line {line}: node {id} has a winner already; each node has one"
            ),
            SolutionRefusal::Missing { id } => write!(
                f,
                "node {id} has no winner; write ID WINNER MOVE; or ID WINNER; for each node"
            ),
            SolutionRefusal::TooLong => write!(f, "the text is longer than {MOST_BYTES} bytes"),
            SolutionRefusal::TooManyNodes => write!(f, "the game has more than {MOST_NODES} nodes"),
            SolutionRefusal::SameId { id } => write!(
                f,
                "two nodes have the id {id}; each node has an id of its own"
            ),
            SolutionRefusal::Memory => f.write_str("out of memory"),
        }
    }
}
