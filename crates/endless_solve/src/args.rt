//! What the command line asks for.
use crate::fault::{Clash, Fault};
use endless::side::Side;
use forms::{Form, Kind};
use std::alloc::{AllocError, AllocFailed, Global};
use std::env::Args;

pub const HELP: &str =
    "usage: endless_solve [--format FORM] [--output FORM] [--merge] [--summary] [FILE ..]
       endless_solve [--format FORM] --output dot --all-moves [--summary] [FILE ..]
       endless_solve --ends [--format FORM] [--output FORM] [FILE ..]
       endless_solve [--format FORM] --check ANSWER [FILE]
       endless_solve [--format FORM] --reach NAME [--side 0|1] [FILE ..]

Reads a game from FILE, or from standard input where FILE is missing or -, and
tells for each place which side wins it, and by which move. Of more than one
FILE each is told behind a line # FILE, up to the first that is refused.

  --format drawing   each FILE is a drawing
  --format pgsolver  each FILE is a game in PGSolver's form; where nothing is
                     said it is one if its name ends in .pg, else a drawing

  --output places    a line for each place: NAME SIDE MOVE, the side that wins
                     it and its move there, or - where the other side moves
                     (this is the default)
  --output moves     NAME SIDE MOVE MOVE .., all the moves there that some plan
                     makes which wins for that side from all its places
  --output answer    the answer as words: for each place a side and a place
  --output solution  the answer in PGSolver's form: ID WINNER MOVE;
  --output dot       the game and its answer as a picture for Graphviz, in which
                     the moves of the winner's plan are bold
  --output words     the game as words: how many places; then a line for each
                     place: whose it is, its weight, how many moves, the moves
  --output drawing   the game as a drawing
  --output pg        the game in PGSolver's form
  --output summary   that it is a game, and how many places each side has

  --all-moves        with --output dot: all moves that --output moves tells are
                     bold
  --ends             a place of a drawing may have no moves: a play ends there,
                     and whoever is to move has lost; --output is places, answer
                     or words
  --check ANSWER     look at the answer in the file ANSWER, as --output places or
                     solution prints it: right, or what is wrong with it; the
                     status is 1 where it is wrong
  --reach NAME       tell for each place the least number of moves in which side
                     0 (with --side 1 side 1) can make sure that the play comes
                     to the place NAME: NAME NUMBER MOVE, with - for what there
                     is not
  --merge            make places one that are alike: of the same side and weight,
                     with moves to places that are alike; print the smaller game,
                     in which each place is called as the first that became it,
                     or find the answer through it
  --summary          besides, on standard error: how many places, moves and
                     different weights there are, how many places each side
                     wins, and how long that took
  --help             this text

A drawing has a line for each place: NAME SIDE WEIGHT: NAME NAME ..
PGSolver's form has, behind parity N; for each: ID PRIORITY OWNER ID,ID,.. \"NAME\";";

/// A form in which a game is printed.
#[derive(Clone, Copy)]
pub enum Game {
    Words,
    Drawing,
    Pg,
    Summary,
}

/// A form in which an answer is printed.
#[derive(Clone, Copy)]
pub enum Answer {
    Places,
    Words,
    Solution,
    Dot,
}

/// A form in which all moves are printed that some winning plan makes.
#[derive(Clone, Copy)]
pub enum Moves {
    Lines,
    Dot,
}

/// What is to be printed.
#[derive(Clone, Copy)]
pub enum Output {
    Game(Game),
    Answer(Answer),
    Moves(Moves),
}

impl Output {
    /// The same form of output with all moves in the place of one plan's, if
    /// there is one.
    fn with_all_moves(self) -> Option<Output> {
        match self {
            Output::Answer(Answer::Dot) => Some(Output::Moves(Moves::Dot)),
            Output::Answer(Answer::Places | Answer::Words | Answer::Solution)
            | Output::Game(_)
            | Output::Moves(_) => None,
        }
    }
}

/// What can be printed of a game with ends.
#[derive(Clone, Copy)]
pub enum EndsOutput {
    Places,
    Answer,
    Words,
}

impl EndsOutput {
    /// The same form of output, if it is one.
    fn of(output: Output) -> Option<EndsOutput> {
        match output {
            Output::Answer(Answer::Places) => Some(EndsOutput::Places),
            Output::Answer(Answer::Words) => Some(EndsOutput::Answer),
            Output::Game(Game::Words) => Some(EndsOutput::Words),
            Output::Answer(Answer::Solution | Answer::Dot)
            | Output::Game(Game::Drawing | Game::Pg | Game::Summary)
            | Output::Moves(_) => None,
        }
    }
}

/// A form of output by its name; a name that is none comes back.
impl TryFrom<String> for Output {
    type Error = String;

    fn try_from(name: String) -> Result<Output, String> {
        match name.as_str() {
            "places" => Ok(Output::Answer(Answer::Places)),
            "moves" => Ok(Output::Moves(Moves::Lines)),
            "answer" => Ok(Output::Answer(Answer::Words)),
            "solution" => Ok(Output::Answer(Answer::Solution)),
            "dot" => Ok(Output::Answer(Answer::Dot)),
            "words" => Ok(Output::Game(Game::Words)),
            "drawing" => Ok(Output::Game(Game::Drawing)),
            "pg" => Ok(Output::Game(Game::Pg)),
            "summary" => Ok(Output::Game(Game::Summary)),
            _ => Err(name),
        }
    }
}

/// What is asked of a game.
#[derive(Drop)]
pub enum Task {
    /// Whether the answer in this file is one.
    Check(String),
    /// How soon a side can make sure of the place of this name.
    Reach {
        target: String,
        side: Side,
    },
    /// To print it, or its answer; whether to do so through the smaller game in
    /// which places that are alike are one; and whether to tell besides how large
    /// it is, and who wins how much.
    Show {
        output: Output,
        merge: bool,
        summary: bool,
    },
    /// To print it, or its answer, where plays may end.
    ShowWithEnds(EndsOutput),
}

impl Task {
    /// Of which kind a game is of which it is asked.
    pub(crate) fn kind(&self) -> Kind {
        match self {
            Task::ShowWithEnds(_) => Kind::WithEnds,
            Task::Check(_) | Task::Reach { .. } | Task::Show { .. } => Kind::Endless,
        }
    }
}

/// Games to read, `-` for standard input, and what is asked of each.
#[derive(Drop)]
pub struct Job {
    pub files: Vec<String>,
    /// The form of all files, where it is not told by their names.
    pub form: Option<Form>,
    pub task: Task,
}

/// What the options say.
#[derive(Drop)]
struct Options {
    files: Vec<String>,
    form: Option<Form>,
    output: Output,
    all_moves: bool,
    merge: bool,
    summary: bool,
    ends: bool,
    check: Option<String>,
    reach: Option<String>,
    side: Side,
}

impl Options {
    /// What is asked for by them together.
    fn into_job(self) -> Result<Job, Fault> {
        let Options {
            files,
            form,
            output,
            all_moves,
            merge,
            summary,
            ends,
            check,
            reach,
            side,
        } = self;
        let output = if all_moves {
            output.with_all_moves().ok_or(Clash::AllMoves)?
        } else {
            output
        };
        let task = match (check, reach) {
            (Some(_), Some(_)) => return Err(Fault::Clash(Clash::TwoTasks)),
            (Some(_), None) | (None, Some(_)) if ends => return Err(Fault::Clash(Clash::EndsTask)),
            (Some(_), None) | (None, Some(_)) if merge => return Err(Fault::Clash(
                Clash::MergeTask,
            )),
            (Some(_), None) | (None, Some(_)) if all_moves => return Err(Fault::Clash(
                Clash::AllMoves,
            )),
            (Some(answer), None) => Task::Check(answer),
            (None, Some(target)) => Task::Reach { target, side },
            (None, None) if ends && (merge || summary) => return Err(Fault::Clash(
                Clash::EndsOutput,
            )),
            (None, None) if ends => {
                Task::ShowWithEnds(EndsOutput::of(output).ok_or(Clash::EndsOutput)?)
            }
            (None, None) => match output {
                Output::Moves(_) if merge => return Err(Fault::Clash(Clash::MergeTask)),
                _ => Task::Show {
                    output,
                    merge,
                    summary,
                },
            },
        };
        Ok(Job { files, form, task })
    }
}

// No `Option<Job>`: its `None` would not say that help is asked for.
/// What the program is to do.
#[derive(Drop)]
pub enum Request {
    Help,
    Read(Job),
}

/// The arguments, behind the program's own name.
pub(crate) fn parse(heap: Global, args: Args) -> Result<Request, Fault> {
    let mut options = Options {
        files: Vec::new(heap),
        form: None,
        output: Output::Answer(Answer::Places),
        all_moves: false,
        merge: false,
        summary: false,
        ends: false,
        check: None,
        reach: None,
        side: Side::Even,
    };
    let mut args = args.skip(1);
    while let Some(arg) = args.next() {
        match arg.as_str() {
            "--help" => return Ok(Request::Help),
            "--all-moves" => options.all_moves = true,
            "--merge" => options.merge = true,
            "--summary" => options.summary = true,
            "--ends" => options.ends = true,
            "--output" => {
                let name = args.next().ok_or(Fault::NoOutput)?;
                options.output = Output::try_from(name).map_err(Fault::Output)?;
            }
            "--format" => {
                let name = args.next().ok_or(Fault::NoFormat)?;
                options.form = Some(Form::try_from(name).map_err(Fault::Format)?);
            }
            "--check" => options.check = Some(args.next().ok_or(Fault::NoCheck)?),
            "--reach" => options.reach = Some(args.next().ok_or(Fault::NoReach)?),
            "--side" => options.side = side_named(args.next().ok_or(Fault::NoSide)?)?,
            _ => options.files.push(file_named(arg)?)?,
        }
    }
    if options.files.is_empty() {
        options.files.push(String::from_str(heap, "-")?)?;
    }
    Ok(Request::Read(options.into_job()?))
}

fn side_named(arg: String) -> Result<Side, Fault> {
    arg.as_str().parse().map_err(|_| Fault::Side(arg))
}

// Beside `not_option` of `endless_play`, where `-` is none: there the standard input is
// the person's.
/// A file to read, `-` among them: an option that there is not is no file.
fn file_named(name: String) -> Result<String, Fault> {
    if name.as_str() != "-" && name.as_str().starts_with("-") {
        return Err(Fault::Option(name));
    }
    Ok(name)
}
