//! The two sides of a game, and the words that stand for them.
ghost use Rattle.std.specs.Prelude.{◌≡◌, ◌%◌, Some};
ghost use Rattle.endless.specs.Games.{other};
ghost use Rattle.endless.specs.Sides.{number, digit, NamesSide, SpellsSide};

use std::error::Error;
use std::fmt;
use std::str::FromStr;

/// One of the two sides: `Even` is side 0, `Odd` is side 1.
#[derive(Clone, Copy, PartialEq, Eq, Debug)]
pub enum Side {
    Even,
    Odd,
}

impl Side {
    /// The side that wins where this weight is the heaviest that comes again
    /// and again.
    pub fn of_weight(weight: u32) -> Side
        ensures { weight % 2 ≡ number result }
    {
        if weight % 2 == 0 {
            Side::Even
        } else {
            Side::Odd
        }
    }

    /// The side against which this one plays.
    pub fn other(self) -> Side
        ensures { number result ≡ other (number self) }
    {
        match self {
            Side::Even => Side::Odd,
            Side::Odd => Side::Even,
        }
    }
}

/// A word that names no side.
#[derive(Clone, Copy, PartialEq, Eq, Debug)]
pub struct NoSide(pub u32);

impl TryFrom<u32> for Side {
    type Error = NoSide;

    ghost try_from_gives = { NamesSide };

    fn try_from(word: u32) -> Result<Side, NoSide> {
        match word {
            0 => Ok(Side::Even),
            1 => Ok(Side::Odd),
            _ => Err(NoSide(word)),
        }
    }
}

impl From<Side> for u32 {
    ghost from_gives = { λ side word. word ≡ number side };

    fn from(side: Side) -> u32 {
        match side {
            Side::Even => 0,
            Side::Odd => 1,
        }
    }
}

impl fmt::Display for Side {
    ghost output = { λ side. Some (digit side) };

    fn fmt<W: fmt::Write>(&self, f: &mut fmt::Formatter<W>) -> fmt::Result {
        f.write_str(match self {
            Side::Even => "0",
            Side::Odd => "1",
        })
    }
}

/// A text that is no side: neither `0` nor `1`.
#[derive(Clone, Copy, PartialEq, Eq, Debug)]
pub struct UnknownSide;

impl FromStr for Side {
    type Err = UnknownSide;

    ghost from_str_gives = { SpellsSide };

    // No number is parsed: `01` and `+1` are no sides.
    fn from_str(text: &str) -> Result<Side, UnknownSide> {
        match text {
            "0" => Ok(Side::Even),
            "1" => Ok(Side::Odd),
            _ => Err(UnknownSide),
        }
    }
}

impl fmt::Display for NoSide {
    fn fmt<W: fmt::Write>(&self, f: &mut fmt::Formatter<W>) -> fmt::Result {
        write!(f, "{} is no side", self.0)
    }
}

impl Error for NoSide {}

impl fmt::Display for UnknownSide {
    fn fmt<W: fmt::Write>(&self, f: &mut fmt::Formatter<W>) -> fmt::Result {
        f.write_str("a side is 0 or 1")
    }
}

impl Error for UnknownSide {}
