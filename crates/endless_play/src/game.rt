//! A game to play, from its file to the end of the play.
ghost use Rattle.playing.specs.Boards.{Answered};

use crate::args::Job;
use crate::fault::Fault;
use crate::play::Play;
use crate::table::Table;
use crate::{input, show, wish};
use ends::rows::Rows;
use ends::without_ends;
use forms::Source;
use playing::Board;
use playing::board::Room;
use std::alloc::{AllocError, Global};
use std::io;
use std::io::BufReader;

/// Reads the game, solves it, and plays it.
pub(crate) fn run(rt: &HostRuntime, job: Job) -> Result<(), Fault> {
    let heap = rt.alloc();
    let Source { words, labels } = input::source(rt, job.file.as_str(), job.form, job.kind)?;
    let ends = without_moves(heap, words.as_slice())?;
    let Some(words) = made_endless(heap, words)? else {
        return Err(Fault::NoGame { file: job.file });
    };
    let mut room = Room::new(heap);
    let Some(board) = Board::solve_in(heap, words.as_slice(), &mut room)? else {
        return Err(Fault::NoGame { file: job.file });
    };
    let names = labels.into_names(heap)?;
    start(rt, job, board, ends.as_slice(), names.as_slice())
}

/// The words of the game without ends that these are made into: a board has no
/// other. `None` where they are no game.
fn made_endless(heap: Global, words: Vec<u32>) -> Result<Option<Vec<u32>>, AllocError> {
    let places = words.first().copied().unwrap_or(0) as usize;
    let mut made = vec![in heap; 0; words.len().saturating_add(places)]?;
    let Ok(len) = without_ends(words.as_slice(), made.as_mut_slice()) else {
        return Ok(None);
    };
    made.truncate(len);
    Ok(Some(made))
}

/// Whether each place is one without moves.
fn without_moves(heap: Global, words: &[u32]) -> Result<Vec<bool>, AllocError> {
    let mut ends = Vec::new(heap);
    for row in Rows::of(words) {
        ends.push(row.moves.is_empty())?;
    }
    Ok(ends)
}

/// Plays from the place that was asked for, or from the first.
fn start<'a>(
    rt: &HostRuntime,
    job: Job,
    board: Board<'a>,
    ends: &'a [bool],
    names: &'a [String],
) -> Result<(), Fault>
    requires { Answered board.game board.answer }
{
    let Job {
        file,
        place,
        moves,
        side,
        ..
    } = job;
    let first = match place {
        None => 0,
        Some(name) => match find(names, name.as_str()) {
            Some(place) => place,
            None => return Err(Fault::NoPlace { file, place: name }),
        },
    };
    if first >= board.len() {
        return Err(Fault::NoGame { file });
    }
    let side = side.unwrap_or(board.winner(first));
    let table = Table {
        board,
        ends,
        names,
        side,
        moves,
    };
    table.show_start(rt, file.as_str(), first)?;
    let mut input = BufReader::new(rt.alloc(), rt.stdin())?;
    let mut play = Play::new(rt.alloc(), table, first)?;
    play.run(rt, &mut input)
}

/// The place of this name, bare or in double quotes.
fn find(names: &[String], text: &str) -> Option<u32> {
    let index = names
        .iter()
        .position(|name| wish::is_named(name.as_str(), text))?;
    u32::try_from(index).ok()
}
