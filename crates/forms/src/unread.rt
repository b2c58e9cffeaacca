//! Why no game was read.
ghost use Rattle.std.specs.Prelude.{◌↔◌, IsTrue};
ghost use Rattle.forms.specs.Shown.{LacksMoves};

use std::alloc::AllocError;
use std::error::Error;
use std::{fmt, io};

/// Why a text is refused by its form.
#[derive(Debug, Drop)]
pub enum Refused {
    Drawing(drawing::Refusal),
    Pgsolver(pgsolver::Refusal),
}

/// Why no game was read.
#[derive(Debug, Drop)]
pub enum Unread {
    /// The bytes cannot be read.
    Io(io::Error),
    /// They are not UTF-8.
    NotText,
    /// They are no game in the form. `line` is the refused line as it is shown, if the refusal is about one.
    Refused { why: Refused, line: Option<String> },
    Memory,
}

impl Refused {
    /// The line that it is about, if it is about one.
    pub fn line(&self) -> Option<usize> {
        match self {
            Refused::Drawing(why) => why.line(),
            Refused::Pgsolver(why) => why.line(),
        }
    }
}

impl Unread {
    /// Whether it is a drawing that is refused for a place without moves.
    pub fn lacks_moves(&self) -> bool
        ensures { IsTrue result ↔ LacksMoves self.now }
    {
        let Unread::Refused { why, .. } = self else {
            return false;
        };
        let Refused::Drawing(why) = why else {
            return false;
        };
        let drawing::Refusal::Fault { fault, .. } = why else {
            return false;
        };
        *fault == drawing::Fault::NoMoves
    }
}

impl From<drawing::Refusal> for Refused {
    ghost use Rattle.std.specs.Prelude.{◌≡◌};
    ghost use Rattle.forms.specs.declared.unread.Refused.TheVariants.{Drawing};

    ghost from_gives = { λ e r. r ≡ Drawing e };

    fn from(why: drawing::Refusal) -> Refused {
        Refused::Drawing(why)
    }
}

impl From<pgsolver::Refusal> for Refused {
    ghost use Rattle.std.specs.Prelude.{◌≡◌};
    ghost use Rattle.forms.specs.declared.unread.Refused.TheVariants.{Pgsolver};

    ghost from_gives = { λ e r. r ≡ Pgsolver e };

    fn from(why: pgsolver::Refusal) -> Refused {
        Refused::Pgsolver(why)
    }
}

impl From<io::Error> for Unread {
    ghost use Rattle.std.specs.Prelude.{◌≡◌};
    ghost use Rattle.forms.specs.declared.unread.Unread.TheVariants.{Io};

    ghost from_gives = { λ e r. r ≡ Io e };

    fn from(error: io::Error) -> Unread {
        Unread::Io(error)
    }
}

impl From<AllocError> for Unread {
    ghost use Rattle.std.specs.Prelude.{◌≡◌};
    ghost use Rattle.forms.specs.declared.unread.Unread.TheVariants.{Memory};

    ghost from_gives = { λ _ r. r ≡ Memory };

    fn from(_e: AllocError) -> Unread {
        Unread::Memory
    }
}

impl fmt::Display for Refused {
    fn fmt<W: fmt::Write>(&self, f: &mut fmt::Formatter<W>) -> fmt::Result {
        match self {
            Refused::Drawing(why) => write!(f, "{why}"),
            Refused::Pgsolver(why) => write!(f, "{why}"),
        }
    }
}

impl fmt::Display for Unread {
    fn fmt<W: fmt::Write>(&self, f: &mut fmt::Formatter<W>) -> fmt::Result {
        match self {
            Unread::Io(error) => write!(f, "{error}"),
            Unread::NotText => f.write_str("not UTF-8"),
            Unread::Refused { why, line } => {
                write!(f, "{why}")?;
                match line {
                    Some(line) => write!(f, "\n  {line}"),
                    None => Ok(()),
                }
            }
            Unread::Memory => f.write_str("out of memory"),
        }
    }
}

impl Error for Refused {}

impl Error for Unread {}
