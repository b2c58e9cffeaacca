//! An answer from a file: as lines NAME SIDE MOVE, or in PGSolver's form of
//! solutions.
use crate::fault::Fault;
use crate::input;
use drawing::{AnswerRefusal, MOST_ANSWER_BYTES, read_answer};
use forms::{Labels, Unread, read_text_from, read_text_path};
use pgsolver::{Named, SolutionRefusal, read_solution};
use std::alloc::{AllocError, Global};
use std::fmt;

/// Why no answer was read.
#[derive(Drop)]
pub(crate) enum NoAnswer {
    /// It is no text.
    Text(Unread),
    /// It is not told by lines NAME SIDE MOVE.
    Lines(AnswerRefusal),
    /// It is no solution in PGSolver's form.
    Solution(SolutionRefusal),
}

impl fmt::Display for NoAnswer {
    fn fmt<W: fmt::Write>(&self, f: &mut fmt::Formatter<W>) -> fmt::Result {
        match self {
            NoAnswer::Text(why) => write!(f, "{why}"),
            NoAnswer::Lines(why) => write!(f, "{why}"),
            NoAnswer::Solution(why) => write!(f, "{why}"),
        }
    }
}

/// The answer in a file to the game whose places have these labels, two words
/// for each place, and what the places are called.
pub(crate) fn read(
    rt: &HostRuntime,
    file: &str,
    labels: Labels,
) -> Result<(Vec<u32>, Vec<String>), Fault> {
    let heap = rt.alloc();
    let text = told(heap, file, text(rt, file).map_err(NoAnswer::Text))?;
    let nodes = ids(heap, &labels)?;
    let names = labels.into_names(heap)?;
    let answer = if is_solution(text.as_str()) {
        read_solution(heap, text.as_bytes(), nodes.as_slice()).map_err(NoAnswer::Solution)
    } else {
        read_answer(heap, text.as_str(), names.as_slice()).map_err(NoAnswer::Lines)
    };
    Ok((told(heap, file, answer)?, names))
}

/// What was read, or why the program ends.
fn told<T: Drop>(heap: Global, file: &str, read: Result<T, NoAnswer>) -> Result<T, Fault> {
    match read {
        Ok(read) => Ok(read),
        Err(why) => Err(Fault::NoAnswer {
            file: String::from_str(heap, input::shown(file))?,
            why,
        }),
    }
}

fn text(rt: &HostRuntime, file: &str) -> Result<String, Unread> {
    if file == "-" {
        read_text_from(rt.alloc(), rt.stdin(), MOST_ANSWER_BYTES)
    } else {
        read_text_path(rt, file, MOST_ANSWER_BYTES)
    }
}

/// Whether a text is a solution in PGSolver's form: that begins with this word.
fn is_solution(text: &str) -> bool {
    text.trim_start().starts_with("paritysol")
}

/// The ids of the places, with no names: those of a drawing count from 0.
fn ids(heap: Global, labels: &Labels) -> Result<Vec<Named>, AllocError> {
    let mut ids = Vec::new(heap);
    match labels {
        Labels::Names(names) => {
            for (id, _) in (0..).zip(names.iter()) {
                ids.push(Named {
                    id,
                    name: Vec::new(heap),
                })?;
            }
        }
        Labels::Nodes(nodes) => {
            for node in nodes.iter() {
                ids.push(Named {
                    id: node.id,
                    name: Vec::new(heap),
                })?;
            }
        }
    }
    Ok(ids)
}
