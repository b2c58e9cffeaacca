//! What can go wrong while games are made and checked.
use crate::side::NoSide;
use std::alloc::{AllocError, AllocFailed};
use std::error::Error;
use std::fmt;
use std::num::TryFromIntError;

/// No memory; no game; more plans than are tried.
#[derive(Clone, Copy, PartialEq, Eq, Debug)]
pub enum Fault {
    NoMemory,
    NoGame,
    ManyPlans,
}

impl From<AllocError> for Fault {
    fn from(_e: AllocError) -> Fault {
        Fault::NoMemory
    }
}

impl<T: Drop> From<AllocFailed<T>> for Fault {
    fn from(_e: AllocFailed<T>) -> Fault {
        Fault::NoMemory
    }
}

impl From<NoSide> for Fault {
    fn from(_e: NoSide) -> Fault {
        Fault::NoGame
    }
}

impl From<TryFromIntError> for Fault {
    fn from(_e: TryFromIntError) -> Fault {
        Fault::NoGame
    }
}

impl fmt::Display for Fault {
    fn fmt<W: fmt::Write>(&self, f: &mut fmt::Formatter<W>) -> fmt::Result {
        f.write_str(match self {
            Fault::NoMemory => "no memory",
            Fault::NoGame => "what was made is no game",
            Fault::ManyPlans => "too many plans to try",
        })
    }
}

impl Error for Fault {}
