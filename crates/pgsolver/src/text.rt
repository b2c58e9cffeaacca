//! The nodes of a text, in their order.
ghost use Rattle.std.specs.Prelude.{◌≡◌, ◌≤◌};
ghost use Rattle.pgsolver.specs.Form.{node, nodes, header, entries};
ghost use Rattle.pgsolver.specs.Read.{ReadRest, ReadOrStops, ReadAll};

use crate::node::{Goals, Head};
use crate::refusal::{Fault, Slip, Stop};
use crate::{node, scan};
use std::alloc::Global;
use std::marker::Model;

// A number of its own, as this crate reads texts and takes no more from `endless` than a `Side`.
/// The most nodes.
pub const MOST_NODES: usize = 16_384;

/// A node: what stands first in it, how many bytes of the text are left where it begins, the ids of its successors, and its name. A contract sees what it says.
#[derive(Drop)]
pub(crate) struct Node<'a> {
    pub(crate) head: Head,
    pub(crate) left: usize,
    pub(crate) goals: Goals,
    pub(crate) name: &'a [u8],
}

impl<'a> Model for Node<'a> {
    ghost use Rattle.pgsolver.specs.Form.{Entry};

    ghost Value = { Entry };

    ghost view = { λ n. record { first = n.head; left = n.left; goes = n.goals.items; named = n.name.now } };
}

/// Reads a node; so many successors are used by the nodes before.
fn read_node(heap: Global, text: &[u8], used: usize) -> Result<(Node<'_>, &[u8]), Stop>
    requires { used ≤ 64000 }
    ensures { ReadOrStops (λ n. n) (node used text.now) result }
{
    let (head, rest) = node::read_head(text)?;
    let (goals, rest) = node::goals(heap, rest, used)?;
    let (name, rest) = node::tail(rest)?;
    let left = text.len();
    Ok((
        Node {
            head,
            left,
            goals,
            name,
        },
        rest,
    ))
}

fn read_nodes(heap: Global, text: &[u8]) -> Result<Vec<Node<'_>>, Stop>
    ensures { ReadAll (nodes text.now) result }
{
    let mut nodes = Vec::new(heap);
    let mut used = 0;
    let mut rest = text;
    loop {
        let here = scan::skip(rest);
        if here.is_empty() {
            return Ok(nodes);
        }
        if nodes.len() >= MOST_NODES {
            return Err(Stop::At(Slip::at(Fault::TooManyNodes, here)));
        }
        let (node, after) = read_node(heap, here, used)?;
        used += node.goals.len();
        nodes.push(node)?;
        rest = after;
    }
}

/// What stands behind a word, a number and a semicolon, or the text where it does not begin with the word.
pub(crate) fn header<'a>(word: &[u8], text: &'a [u8]) -> Result<&'a [u8], Slip>
    ensures { ReadRest (header word.now text.now) result }
{
    let Some(rest) = scan::behind(word, text) else {
        return Ok(text);
    };
    let (_, rest) = scan::number(Fault::Number, rest)?;
    node::ended(rest)
}

/// The nodes of the text, behind its header.
pub(crate) fn read_text(heap: Global, text: &[u8]) -> Result<Vec<Node<'_>>, Stop>
    ensures { ReadAll (entries text.now) result }
{
    let rest = header(b"parity", text)?;
    let rest = header(b"start", rest)?;
    read_nodes(heap, rest)
}
