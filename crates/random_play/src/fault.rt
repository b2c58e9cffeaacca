//! Why the program ends before the play does.
use forms::Unread;
use std::alloc::AllocError;
use std::{fmt, io};

#[derive(Drop)]
pub enum Fault {
    Usage,
    /// The file holds no game that can be read.
    Unread(Unread),
    /// The words that were read are no game.
    NoGame,
    /// A move from the first place to the second is not as it should be.
    Wrong { from: u32, to: u32 },
    /// The arguments cannot be read, or what is told cannot be written.
    Talk(io::Error),
    Memory,
}

impl From<AllocError> for Fault {
    fn from(_error: AllocError) -> Fault {
        Fault::Memory
    }
}

impl From<Unread> for Fault {
    fn from(why: Unread) -> Fault {
        Fault::Unread(why)
    }
}

impl From<io::Error> for Fault {
    fn from(error: io::Error) -> Fault {
        Fault::Talk(error)
    }
}

impl fmt::Display for Fault {
    fn fmt<W: fmt::Write>(&self, f: &mut fmt::Formatter<W>) -> fmt::Result {
        match self {
            Fault::Usage => f.write_str("usage: random_play FILE MOVES"),
            Fault::Unread(why) => match why {
                Unread::NotText => f.write_str("the file is not UTF-8"),
                // Without the refused line: one line tells why.
                Unread::Refused { why, .. } => write!(f, "{why}"),
                other => write!(f, "{other}"),
            },
            Fault::NoGame => f.write_str("no game"),
            Fault::Wrong { from, to } => write!(
                f,
                "the move from place {from} to place {to} is not the plan's, or leaves the winner's places"
            ),
            Fault::Talk(error) => write!(f, "{error}"),
            Fault::Memory => f.write_str("out of memory"),
        }
    }
}
