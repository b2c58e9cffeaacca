//! Why the program ends without a play.
use forms::Unread;
use std::alloc::{AllocError, AllocFailed};
use std::{fmt, io};

#[derive(Drop)]
pub enum Fault {
    /// There is no such option.
    Option(String),
    /// `--moves` is the last word.
    NoMoves,
    /// That is no number of moves.
    Moves(String),
    /// `--side` is the last word.
    NoSide,
    /// There is no such side.
    Side(String),
    /// No file is named.
    NoFile,
    /// A file and a place are named already.
    ThirdName(String),
    /// There is no such form of files.
    Format(String),
    /// `--format` is the last word.
    NoFormat,
    /// The file holds no game that can be read.
    Unread { file: String, why: Unread },
    /// The words that were read are no game.
    NoGame { file: String },
    /// The game has no place of that name.
    NoPlace { file: String, place: String },
    /// The person's lines cannot be read, or the play cannot be written.
    Talk(io::Error),
    Memory,
}

impl From<AllocError> for Fault {
    fn from(_error: AllocError) -> Fault {
        Fault::Memory
    }
}

impl<T: Drop> From<AllocFailed<T>> for Fault {
    fn from(_error: AllocFailed<T>) -> Fault {
        Fault::Memory
    }
}

impl From<io::Error> for Fault {
    fn from(error: io::Error) -> Fault {
        Fault::Talk(error)
    }
}

impl fmt::Display for Fault {
    fn fmt<W: fmt::Write>(&self, f: &mut fmt::Formatter<W>) -> fmt::Result {
        match self {
            Fault::Option(name) => write!(f, "there is no option {name}; --help lists them"),
            Fault::NoMoves => f.write_str("--moves wants a number behind it"),
            Fault::Moves(word) => write!(
                f,
                "{word} is no number of moves; it is 0 to 18446744073709551615"
            ),
            Fault::NoSide => f.write_str("--side wants a side behind it: 0 or 1"),
            Fault::Side(word) => write!(f, "there is no side {word}; it is 0 or 1"),
            Fault::Format(name) => write!(
                f,
                "there is no format {name}; it is drawing or pgsolver"
            ),
            Fault::NoFormat => f.write_str("--format wants a word behind it: drawing or pgsolver"),
            Fault::NoFile => f.write_str("no file is named; --help says what can be"),
            Fault::ThirdName(name) => write!(f, "{name}: one file and one place at a time"),
            Fault::Unread { file, why } => {
                write!(f, "{file}: {why}")?;
                if why.lacks_moves() {
                    f.write_str("\n  (with --ends a place may have none, and plays end there)")?;
                }
                Ok(())
            }
            Fault::NoGame { file } => write!(f, "{file}: no game"),
            Fault::NoPlace { file, place } => write!(f, "{file}: there is no place named {place}"),
            Fault::Talk(error) => write!(f, "{error}"),
            Fault::Memory => f.write_str("out of memory"),
        }
    }
}
