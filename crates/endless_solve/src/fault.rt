//! Why the program ends without an answer.
use crate::answer::NoAnswer;
use endless::Refusal;
use forms::Unread;
use std::alloc::{AllocError, AllocFailed};
use std::{fmt, io};

/// The forms of output.
const OUTPUTS: &str = "places, moves, answer, solution, dot, words, drawing, pg or summary";

/// What does not go together.
#[derive(Clone, Copy)]
pub enum Clash {
    /// An answer is to be looked at, and moves to be counted.
    TwoTasks,
    /// An answer is to be looked at, or moves to be counted, where plays may end.
    EndsTask,
    /// What is to be told is not told through the smaller game.
    MergeTask,
    /// All moves are to be told in a form that has the moves of one plan alone.
    AllMoves,
    /// Something is to be printed of a game with ends that is of games without.
    EndsOutput,
    /// An answer is to be looked at for more than one game.
    OneGame,
}

#[derive(Drop)]
pub enum Fault {
    /// There is no such option.
    Option(String),
    /// There is no such form of files.
    Format(String),
    /// `--format` is the last word.
    NoFormat,
    /// There is no such form of output.
    Output(String),
    /// `--output` is the last word.
    NoOutput,
    /// `--check` is the last word.
    NoCheck,
    /// `--reach` is the last word.
    NoReach,
    /// `--side` is the last word.
    NoSide,
    /// There is no such side.
    Side(String),
    /// What is asked for does not go together.
    Clash(Clash),
    /// The game has no place of that name.
    NoPlace { file: String, place: String },
    /// The file holds no answer that can be read.
    NoAnswer { file: String, why: NoAnswer },
    /// The file holds no game that can be read.
    Unread { file: String, why: Unread },
    /// The solver refused the game, which it never does for one that was read.
    Unsolved,
    /// What is to be printed cannot be written.
    Unwritten(io::Error),
    Memory,
}

impl From<AllocError> for Fault {
    fn from(_error: AllocError) -> Fault {
        Fault::Memory
    }
}

impl<T: Drop> From<AllocFailed<T>> for Fault {
    fn from(_error: AllocFailed<T>) -> Fault {
        Fault::Memory
    }
}

impl From<Refusal> for Fault {
    fn from(_refusal: Refusal) -> Fault {
        Fault::Unsolved
    }
}

impl From<io::Error> for Fault {
    fn from(error: io::Error) -> Fault {
        Fault::Unwritten(error)
    }
}

impl From<Clash> for Fault {
    fn from(clash: Clash) -> Fault {
        Fault::Clash(clash)
    }
}

impl fmt::Display for Clash {
    fn fmt<W: fmt::Write>(&self, f: &mut fmt::Formatter<W>) -> fmt::Result {
        f.write_str(match self {
            Clash::TwoTasks => "--check and --reach are asked for one at a time",
            Clash::EndsTask => "--check and --reach are of games without ends; leave out --ends",
            Clash::MergeTask => {
                "--merge is of a game or its answer; leave it out with --check, --reach, --output moves and --all-moves"
            }
            Clash::AllMoves => {
                "--all-moves is of --output dot; leave it out with any other output, and with --check and --reach"
            }
            Clash::EndsOutput => {
                "with --ends the output is places, answer or words, with neither --merge nor --summary"
            }
            Clash::OneGame => "--check looks at an answer to one game; name one FILE",
        })
    }
}

/// What may help where no game was read: behind why not.
fn hint(why: &Unread) -> &'static str {
    if why.lacks_moves() {
        "\n  (with --ends a place may have none, and plays end there)"
    } else {
        ""
    }
}

impl fmt::Display for Fault {
    fn fmt<W: fmt::Write>(&self, f: &mut fmt::Formatter<W>) -> fmt::Result {
        match self {
            Fault::Option(name) => write!(f, "there is no option {name}; --help lists them"),
            Fault::Format(name) => write!(
                f,
                "there is no format {name}; it is drawing or pgsolver"
            ),
            Fault::NoFormat => f.write_str("--format wants a word behind it: drawing or pgsolver"),
            Fault::Output(name) => write!(f, "there is no output {name}; it is {OUTPUTS}"),
            Fault::NoOutput => write!(f, "--output wants a word behind it: {OUTPUTS}"),
            Fault::NoCheck => f.write_str("--check wants the file of an answer behind it"),
            Fault::NoReach => f.write_str("--reach wants the name of a place behind it"),
            Fault::NoSide => f.write_str("--side wants a side behind it: 0 or 1"),
            Fault::Side(word) => write!(f, "there is no side {word}; it is 0 or 1"),
            Fault::Clash(clash) => write!(f, "{clash}"),
            Fault::NoPlace { file, place } => write!(
                f,
                "{file}: there is no place named {place}; --output places lists the names"
            ),
            Fault::NoAnswer { file, why } => write!(f, "{file}: {why}"),
            Fault::Unread { file, why } => write!(f, "{file}: {why}{}", hint(why)),
            Fault::Unsolved => f.write_str("the solver refused the game"),
            Fault::Unwritten(error) => write!(f, "{error}"),
            Fault::Memory => f.write_str("out of memory"),
        }
    }
}
