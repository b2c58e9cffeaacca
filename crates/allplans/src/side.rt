//! The two sides of a game.
ghost use Rattle.std.specs.Prelude.{◌≡◌, ◌+◌, ◌%◌};
ghost use Rattle.allplans.specs.Sides.{NamesSide, side_word};

use std::error::Error;
use std::fmt;

/// A side: the one that wins by even weights, or the one that wins by odd ones.
// One of its own: `allplans` shares nothing with the solver but words (docs/AGREE.md).
#[derive(Clone, Copy, PartialEq, Eq, Debug)]
pub enum Side {
    Even,
    Odd,
}

impl Side {
    /// The side that wins by this weight.
    pub fn of(weight: u32) -> Side
        ensures { side_word result ≡ weight % 2 }
    {
        if weight % 2 == 0 {
            Side::Even
        } else {
            Side::Odd
        }
    }

    /// The other one.
    pub fn other(self) -> Side
        ensures { side_word self + side_word result ≡ 1 }
    {
        match self {
            Side::Even => Side::Odd,
            Side::Odd => Side::Even,
        }
    }
}

/// A word that names no side.
#[derive(Clone, Copy, PartialEq, Eq, Debug)]
pub struct NoSide(pub u32);

impl TryFrom<u32> for Side {
    type Error = NoSide;

    ghost try_from_gives = { NamesSide };

    fn try_from(word: u32) -> Result<Side, NoSide> {
        match word {
            0 => Ok(Side::Even),
            1 => Ok(Side::Odd),
            _ => Err(NoSide(word)),
        }
    }
}

impl From<Side> for u32 {
    ghost from_gives = { λ side word. word ≡ side_word side };

    fn from(side: Side) -> u32 {
        match side {
            Side::Even => 0,
            Side::Odd => 1,
        }
    }
}

impl fmt::Display for Side {
    fn fmt<W: fmt::Write>(&self, f: &mut fmt::Formatter<W>) -> fmt::Result {
        write!(f, "{}", u32::from(*self))
    }
}

impl fmt::Display for NoSide {
    fn fmt<W: fmt::Write>(&self, f: &mut fmt::Formatter<W>) -> fmt::Result {
        write!(f, "{} is no side", self.0)
    }
}

impl Error for NoSide {}
