//! What a solution says of a node: ID WINNER MOVE;
ghost use Rattle.std.specs.Prelude.{◌≡◌};
ghost use Rattle.pgsolver.specs.Verdicts.{goal, verdict, verdicts, solution};
ghost use Rattle.pgsolver.specs.Read.{Read, ReadAll};

use crate::refusal::{Fault, Slip, Stop};
use crate::{node, scan, text};
use endless::side::Side;
use std::alloc::Global;

/// What is said of a node: its id, the side that wins it, and the id of its move, if it has one; and how many bytes of the text are left where that begins.
#[derive(Clone, Copy)]
pub(crate) struct Verdict {
    pub(crate) id: u32,
    pub(crate) winner: Side,
    pub(crate) goal: Option<u32>,
    pub(crate) left: usize,
}

/// The id of the move, if a number comes next.
fn goal(text: &[u8]) -> Result<(Option<u32>, &[u8]), Slip>
    ensures { Read (goal text.now) result }
{
    let rest = scan::skip(text);
    match rest.first() {
        Some(b) if b.is_ascii_digit() => {
            let (id, rest) = scan::digits(rest)?;
            Ok((Some(id), rest))
        }
        _ => Ok((None, rest)),
    }
}

fn read_verdict(text: &[u8]) -> Result<(Verdict, &[u8]), Slip>
    ensures { Read (verdict text.now) result }
{
    let (id, rest) = scan::number(Fault::Number, text)?;
    let (winner, rest) = node::owner(rest)?;
    let (goal, rest) = goal(rest)?;
    let (_, rest) = node::tail(rest)?;
    let left = text.len();
    Ok((
        Verdict {
            id,
            winner,
            goal,
            left,
        },
        rest,
    ))
}

fn read_verdicts(heap: Global, text: &[u8]) -> Result<Vec<Verdict>, Stop>
    ensures { ReadAll (verdicts text.now) result }
{
    let mut verdicts = Vec::new(heap);
    let mut rest = text;
    loop {
        let here = scan::skip(rest);
        if here.is_empty() {
            return Ok(verdicts);
        }
        let (verdict, after) = read_verdict(here)?;
        verdicts.push(verdict)?;
        rest = after;
    }
}

/// What the text says of nodes, behind its header.
pub(crate) fn read_text(heap: Global, text: &[u8]) -> Result<Vec<Verdict>, Stop>
    ensures { ReadAll (solution text.now) result }
{
    let rest = text::header(b"paritysol", text)?;
    read_verdicts(heap, rest)
}
