//! The drawing of a parity game as text, read into words.
#![tactic(auto)]

ghost use Rattle.std.specs.Prelude.{◌≡◌, ◌≤◌, length, IfOk, IfErr};
ghost use Rattle.drawing.specs.declared.kind.Kind.TheVariants.{Endless};
ghost use Rattle.drawing.specs.Answer.{Answers, drawn_names, drawn_words};
ghost use Rattle.drawing.specs.Drawn.{Drawn};
ghost use Rattle.drawing.specs.Wrong.{Says};

use std::alloc::Global;

pub mod answer;
mod answer_refusal;
mod gather;
mod keyed;
pub mod kind;
mod line;
mod names;
pub mod refusal;
mod row;
mod scan;
pub mod sheet;
pub mod shown;
mod spell;
mod token;
mod told;
mod write;

pub use answer::{MOST_ANSWER_BYTES, read_answer};
pub use answer_refusal::AnswerRefusal;
pub use kind::Kind;
pub use names::MOST_PLACES;
pub use refusal::{Fault, Refusal};
pub use sheet::{Sheet, draw};
pub use spell::{Name, Quoted, written};
pub use token::MOST_NAME;
pub use write::MOST_MOVES;

/// The most bytes of a drawing.
pub const MOST_BYTES: usize = 1_572_864;

/// A game as words, and the names of its places in their order.
#[derive(Drop)]
pub struct Drawing {
    pub words: Vec<u32>,
    pub names: Vec<String>,
}

fn read_lines(heap: Global, text: &str, kind: Kind) -> Result<Drawing, Refusal>
    requires { length text.now ≤ 1572864 }
    ensures answers { Answers kind text.now result }
    ensures drawn { IfOk result (λ d. Drawn kind text.now (drawn_names d) (drawn_words d)) }
{
    let table = gather::gather_names(heap, text, kind)?;
    if table.len() == 0 {
        return Err(Refusal::NoPlaces);
    }
    let words = write::write_words(heap, &table, text, kind)?;
    let names = table.into_names(heap)?;
    Ok(Drawing { words, names })
}

/// Reads the drawing of a game of this kind: one line a place, NAME SIDE WEIGHT: NAME NAME ..
pub fn read_as(heap: Global, text: &str, kind: Kind) -> Result<Drawing, Refusal>
    ensures answers { Answers kind text.now result }
    ensures drawn { IfOk result (λ d. Drawn kind text.now (drawn_names d) (drawn_words d)) }
    ensures wrong { IfErr result (λ e. Says kind text.now e) }
{
    if text.len() > MOST_BYTES {
        return Err(Refusal::TooLong);
    }
    read_lines(heap, text, kind)
}

/// Reads the drawing of a game in which each place has a move.
pub fn read(heap: Global, text: &str) -> Result<Drawing, Refusal>
    ensures answers { Answers Endless text.now result }
    ensures drawn { IfOk result (λ d. Drawn Endless text.now (drawn_names d) (drawn_words d)) }
    ensures wrong { IfErr result (λ e. Says Endless text.now e) }
{
    read_as(heap, text, Kind::Endless)
}
