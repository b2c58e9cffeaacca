//! A node: ID PRIORITY OWNER SUCC,SUCC,.. "NAME";
ghost use Rattle.std.specs.Prelude.{◌≡◌, ◌≤◌};
ghost use Rattle.pgsolver.specs.Form.{name, ended, tail, owner, head, goals};
ghost use Rattle.pgsolver.specs.Read.{ref_now, ReadBy, Read, ReadRest, ReadOrStops};

use crate::refusal::{Fault, Slip, Stop};
use crate::scan;
use endless::side::Side;
use smallvec::SmallVec;
use std::alloc::Global;

// Each form of text has this number of its own, as neither crate knows of the other.
/// The most successors, those of all nodes together.
pub const MOST_MOVES: usize = 64_000;

/// The successors of a node: few of them lie in it.
pub(crate) type Goals = SmallVec<u32, 4>;

/// What stands first in a node.
#[derive(Clone, Copy)]
pub(crate) struct Head {
    pub(crate) id: u32,
    pub(crate) priority: u32,
    pub(crate) owner: Side,
}

pub(crate) fn owner(text: &[u8]) -> Result<(Side, &[u8]), Slip>
    ensures { Read (owner text.now) result }
{
    let (word, rest) = scan::number(Fault::Number, text)?;
    let owner = Side::try_from(word).map_err(|_| Slip::at(Fault::Owner, rest))?;
    Ok((owner, rest))
}

pub(crate) fn read_head(text: &[u8]) -> Result<(Head, &[u8]), Slip>
    ensures { Read (head text.now) result }
{
    let (id, rest) = scan::number(Fault::Number, text)?;
    let (priority, rest) = scan::number(Fault::Number, rest)?;
    let (owner, rest) = owner(rest)?;
    Ok((
        Head {
            id,
            priority,
            owner,
        },
        rest,
    ))
}

/// The successors, with a comma between them; so many are used by the nodes before.
pub(crate) fn goals(heap: Global, text: &[u8], used: usize) -> Result<(Goals, &[u8]), Stop>
    requires { used ≤ 64000 }
    ensures { ReadOrStops (λ v. v.items) (goals used text.now) result }
{
    let mut goals = SmallVec::new(heap);
    let mut rest = text;
    loop {
        let (goal, after) = scan::number(Fault::NoSuccessor, rest)?;
        if used + goals.len() >= MOST_MOVES {
            return Err(Stop::At(Slip::at(Fault::TooManyMoves, after)));
        }
        goals.push(goal)?;
        let Some(next) = scan::behind(b",", after) else {
            return Ok((goals, after));
        };
        rest = next;
    }
}

/// The name in quotes, or none.
fn name(text: &[u8]) -> Result<(&[u8], &[u8]), Slip>
    ensures { ReadBy ref_now (name text.now) result }
{
    let Some(rest) = scan::behind(b"\"", text) else {
        return Ok((&text[..0], text));
    };
    let closing = rest.iter().position(|b| *b == b'"');
    let n = closing.ok_or(Slip::at(Fault::Quote, rest))?;
    Ok((&rest[..n], &rest[n + 1..]))
}

pub(crate) fn ended(text: &[u8]) -> Result<&[u8], Slip>
    ensures { ReadRest (ended text.now) result }
{
    scan::behind(b";", text).ok_or_else(|| Slip::at(Fault::End, scan::skip(text)))
}

/// What stands last in a node: its name, and the semicolon.
pub(crate) fn tail(text: &[u8]) -> Result<(&[u8], &[u8]), Slip>
    ensures { ReadBy ref_now (tail text.now) result }
{
    let (name, rest) = name(text)?;
    let rest = ended(rest)?;
    Ok((name, rest))
}
