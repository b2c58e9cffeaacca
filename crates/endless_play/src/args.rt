//! What the command line asks for.
use crate::fault::Fault;
use endless::side::Side;
use forms::{Form, Kind};
use std::alloc::{AllocError, Global};
use std::env::Args;

pub const HELP: &str =
    "usage: endless_play [--moves N] [--side 0|1] [--ends] [--format FORM] FILE [PLACE]

Reads a game from FILE, solves it, and plays it with you from PLACE, or from
the first place of the game. The program plays the side that wins there, by
the answer's plan; you make the other side's moves: at each of your places
that has more than one move it lists them and reads a line from standard
input, a name or a number of the list, or a command.

  --moves N      where no choice of yours comes, go on by itself for N moves
                 and then end (1000 where nothing is said)
  --side 0|1     the program plays this side, also where it does not win
  --ends         a place of a drawing may have no moves: a play ends there, and
                 whoever is to move has lost
  --format FORM  FILE is a drawing (drawing), or in PGSolver's form (pgsolver);
                 where nothing is said its name tells: it is PGSolver's where
                 it ends in .pg
  --help         this text

  :help          what can be typed
  :status        how many moves were made, and the heaviest weight among the
                 last 1,000 places
  :back          back to before your last choice
  :quit          end the play; so does the end of the input

A FILE or PLACE that begins with - comes after --.";

/// A game to play.
#[derive(Drop)]
pub struct Job {
    pub file: String,
    /// Where the play begins, by name.
    pub place: Option<String>,
    /// How many moves it goes on by itself.
    pub moves: u64,
    /// Whether its plays may end.
    pub kind: Kind,
    /// The form of the file, where it is not told by its name.
    pub form: Option<Form>,
    /// The program's side, where it is not to be the winner's.
    pub side: Option<Side>,
}

// No `Option<Job>`: its `None` would not say that help is asked for.
/// What the program is to do.
#[derive(Drop)]
pub enum Request {
    Help,
    Play(Job),
}

/// The arguments, behind the program's own name.
pub(crate) fn parse(args: Args) -> Result<Request, Fault> {
    let mut args = args;
    let _ = args.next();
    let mut moves = 1000;
    let mut side = None;
    let mut kind = Kind::Endless;
    let mut form = None;
    let mut names = None;
    while let Some(arg) = args.next() {
        match arg.as_str() {
            "--help" => return Ok(Request::Help),
            "--moves" => moves = number(args.next().ok_or(Fault::NoMoves)?)?,
            "--side" => side = Some(side_named(args.next().ok_or(Fault::NoSide)?)?),
            "--ends" => kind = Kind::WithEnds,
            "--format" => form = Some(form_named(args.next().ok_or(Fault::NoFormat)?)?),
            "--" => break,
            _ => names = Some(with_name(names, not_option(arg)?)?),
        }
    }
    // Behind `--` each word is a name.
    for name in args {
        names = Some(with_name(names, name)?);
    }
    let Names { file, place } = names.ok_or(Fault::NoFile)?;
    Ok(Request::Play(Job {
        file,
        place,
        moves,
        kind,
        form,
        side,
    }))
}

/// The words that are no options: a file, and a place of its game.
#[derive(Drop)]
struct Names {
    file: String,
    place: Option<String>,
}

/// What is named with one name more: the first is the file's, and the second
/// the place's.
fn with_name(names: Option<Names>, name: String) -> Result<Names, Fault> {
    match names {
        None => Ok(Names {
            file: name,
            place: None,
        }),
        Some(Names { file, place: None }) => Ok(Names {
            file,
            place: Some(name),
        }),
        Some(Names { place: Some(_), .. }) => Err(Fault::ThirdName(name)),
    }
}

// Beside `file_named` of `endless_solve`, where `-` is a file, the standard input: here
// that is the person's.
fn not_option(arg: String) -> Result<String, Fault> {
    if arg.as_str().starts_with("-") {
        return Err(Fault::Option(arg));
    }
    Ok(arg)
}

fn number(arg: String) -> Result<u64, Fault> {
    arg.as_str().parse().map_err(|_| Fault::Moves(arg))
}

fn form_named(arg: String) -> Result<Form, Fault> {
    Form::try_from(arg).map_err(Fault::Format)
}

fn side_named(arg: String) -> Result<Side, Fault> {
    arg.as_str().parse().map_err(|_| Fault::Side(arg))
}
