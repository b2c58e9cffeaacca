//! Why nodes are no game.
ghost use Rattle.std.specs.Prelude.{◌≡◌};
ghost use Rattle.pgsolver.specs.declared.wrong.Wrong.TheVariants.{Memory};
ghost use Rattle.pgsolver.specs.Wrongs.{unweighed};

use crate::weights::NoWeights;
use std::alloc::{AllocError, AllocFailed};

/// What is wrong with the nodes; the first number tells which node it is, from 0.
#[derive(Clone, Copy, Debug, PartialEq, Eq)]
pub(crate) enum Wrong {
    /// A node before it has its id.
    Twice(usize),
    /// It has a successor of this id, which no node has.
    Unknown(usize, u32),
    /// Its priority gets no weight below 256.
    Priority(usize),
    Memory,
}

impl From<AllocError> for Wrong {
    ghost from_gives = { λ _ r. r ≡ Memory };

    fn from(_e: AllocError) -> Wrong {
        Wrong::Memory
    }
}

impl<T: Drop> From<AllocFailed<T>> for Wrong {
    ghost from_gives = { λ _ r. r ≡ Memory };

    fn from(_e: AllocFailed<T>) -> Wrong {
        Wrong::Memory
    }
}

impl From<NoWeights> for Wrong {
    ghost from_gives = { λ e r. r ≡ unweighed e };

    fn from(e: NoWeights) -> Wrong {
        match e {
            NoWeights::TooMany(n) => Wrong::Priority(n),
            NoWeights::Memory => Wrong::Memory,
        }
    }
}
