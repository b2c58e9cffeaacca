//! A game or its answer is printed.
use crate::args::{Answer, EndsOutput, Game, Moves, Output};
use crate::fault::Fault;
use crate::merged::smaller;
use crate::{all_moves, input, report, solution, summary};
use dot::{Bold, Picture};
use drawing::Sheet;
use endless::graph::Places;
use endless::words::GameWords;
use forms::{Labels, Source};
use pgsolver::{GameText, Solution};
use std::alloc::AllocError;
use std::io::{BufWriter, Write};

/// The game in a file, or its answer, in a form of output.
pub(crate) fn show(
    rt: &HostRuntime,
    file: &str,
    source: Source,
    output: Output,
    merge: bool,
    summary: bool,
) -> Result<(), Fault> {
    let heap = rt.alloc();
    let name = input::shown(file);
    match output {
        Output::Game(form) => {
            let source = if merge {
                smaller(heap, source)?
            } else {
                source
            };
            let Source { words, labels } = source;
            let words = words.as_slice();
            let game = GameWords::read(words).ok_or(Fault::Unsolved)?;
            let mut starts = vec![in heap; [0, 0]; game.len() as usize]?;
            let places = Places::new(game, starts.as_mut_slice());
            show_game(rt, name, form, words, &places, labels)?;
            if summary {
                summary::tell(rt, name, words, &solution::solve(rt, words, merge)?)?;
            }
        }
        Output::Answer(form) => {
            let Source { words, labels } = source;
            let words = words.as_slice();
            let solved = solution::solve(rt, words, merge)?;
            let game = GameWords::read(words).ok_or(Fault::Unsolved)?;
            let mut starts = vec![in heap; [0, 0]; game.len() as usize]?;
            let places = Places::new(game, starts.as_mut_slice());
            show_answer(rt, form, words, &places, labels, solved.answer.as_slice())?;
            if summary {
                summary::tell(rt, name, words, &solved)?;
            }
        }
        Output::Moves(form) => {
            let Source { words, labels } = source;
            let words = words.as_slice();
            let marks = all_moves::find(heap, words)?;
            let game = GameWords::read(words).ok_or(Fault::Unsolved)?;
            let mut starts = vec![in heap; [0, 0]; game.len() as usize]?;
            let places = Places::new(game, starts.as_mut_slice());
            match form {
                Moves::Lines => show_moves(rt, &places, labels, marks.as_slice())?,
                Moves::Dot => {
                    let solved = solution::solve(rt, words, merge)?;
                    let answer = solved.answer.as_slice();
                    show_marked(rt, &places, labels, answer, marks.as_slice())?;
                }
            }
            if summary {
                summary::tell(rt, name, words, &solution::solve(rt, words, merge)?)?;
            }
        }
    }
    Ok(())
}

/// The game with ends in a file, or its answer, in a form of output.
pub(crate) fn show_with_ends(
    rt: &HostRuntime,
    source: Source,
    output: EndsOutput,
) -> Result<(), Fault> {
    let heap = rt.alloc();
    let Source { words, labels } = source;
    let words = words.as_slice();
    let mut out = BufWriter::new(heap, rt.stdout())?;
    match output {
        EndsOutput::Words => report::words(&mut out, words)?,
        EndsOutput::Answer => {
            let answer = solution::solve_with_ends(rt, words)?;
            report::answer(&mut out, answer.as_slice())?;
        }
        EndsOutput::Places => {
            let answer = solution::solve_with_ends(rt, words)?;
            let names = labels.into_names(heap)?;
            report::places(&mut out, names.as_slice(), words, answer.as_slice())?;
        }
    }
    out.flush()?;
    Ok(())
}

/// The game, in a form of output.
fn show_game<'a>(
    rt: &HostRuntime,
    name: &str,
    form: Game,
    words: &[u32],
    places: &'a Places<'a>,
    labels: Labels,
) -> Result<(), Fault> {
    let heap = rt.alloc();
    let mut out = BufWriter::new(heap, rt.stdout())?;
    match form {
        Game::Words => report::words(&mut out, words)?,
        Game::Summary => report::summary(&mut out, name, places)?,
        Game::Drawing => {
            let names = labels.into_names(heap)?;
            let sheet = Sheet {
                places,
                names: names.as_slice(),
            };
            write!(out, "{sheet}")?;
        }
        Game::Pg => {
            let nodes = labels.into_nodes(heap)?;
            if nodes.len() != places.len() as usize {
                return Err(Fault::Unsolved);
            }
            let text = GameText {
                game: places,
                named: nodes.as_slice(),
            };
            write!(out, "{text}")?;
        }
    }
    out.flush()?;
    Ok(())
}

/// The answer to a game, in a form of output.
fn show_answer<'a>(
    rt: &HostRuntime,
    form: Answer,
    words: &[u32],
    places: &'a Places<'a>,
    labels: Labels,
    answer: &'a [u32],
) -> Result<(), Fault> {
    let heap = rt.alloc();
    let mut out = BufWriter::new(heap, rt.stdout())?;
    match form {
        Answer::Words => report::answer(&mut out, answer)?,
        Answer::Places => {
            let names = labels.into_names(heap)?;
            report::places(&mut out, names.as_slice(), words, answer)?;
        }
        Answer::Dot => {
            let names = labels.into_names(heap)?;
            let picture = Picture {
                places,
                names: names.as_slice(),
                answer,
                bold: Bold::Plan,
            };
            write!(out, "{picture}")?;
        }
        Answer::Solution => {
            let nodes = labels.into_nodes(heap)?;
            let many = places.len() as usize;
            if nodes.len() != many || answer.len() < 2 * many {
                return Err(Fault::Unsolved);
            }
            let solution = Solution {
                game: places,
                named: nodes.as_slice(),
                answer,
            };
            write!(out, "{solution}")?;
        }
    }
    out.flush()?;
    Ok(())
}

/// All moves that some winning plan makes.
fn show_moves<'a>(
    rt: &HostRuntime,
    places: &'a Places<'a>,
    labels: Labels,
    marks: &[u32],
) -> Result<(), Fault> {
    let heap = rt.alloc();
    let names = labels.into_names(heap)?;
    let mut out = BufWriter::new(heap, rt.stdout())?;
    all_moves::lines(&mut out, names.as_slice(), places, marks)?;
    out.flush()?;
    Ok(())
}

/// The game and its answer as a picture in which all moves are bold that some
/// winning plan makes.
fn show_marked<'a>(
    rt: &HostRuntime,
    places: &'a Places<'a>,
    labels: Labels,
    answer: &'a [u32],
    marks: &[u32],
) -> Result<(), Fault> {
    let heap = rt.alloc();
    let names = labels.into_names(heap)?;
    let mut out = BufWriter::new(heap, rt.stdout())?;
    let picture = Picture {
        places,
        names: names.as_slice(),
        answer,
        bold: Bold::Marks(marks),
    };
    write!(out, "{picture}")?;
    out.flush()?;
    Ok(())
}
