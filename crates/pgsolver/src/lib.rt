//! PGSolver's text form of a parity game, read into words.
#![tactic(auto)]

ghost use Rattle.std.specs.Prelude.{◌≡◌, ◌≤◌, length, IfOk, IfErr, Ok};
ghost use Rattle.pgsolver.specs.Form.{priorities_in, entries};
ghost use Rattle.pgsolver.specs.Listed.{line_at, NamedAs, Assembled, Unassembled, Inside, Listed, listed_ids, listed_names, Says};
ghost use Rattle.pgsolver.specs.Read.{Stops};
ghost use Rattle.pgsolver.specs.Weights.{Fitted, Unfit};
ghost use Rattle.pgsolver.specs.Wrongs.{FineAll};

use crate::ids::Places;
use crate::refusal::{Slip, Stop};
use crate::text::Node;
use crate::weights::NoWeights;
use crate::wrong::Wrong;
use std::alloc::{AllocError, Global};

pub mod answer;
mod highest;
mod ids;
mod line;
mod names;
mod node;
pub mod refusal;
mod scan;
mod seeded;
mod solution;
mod solution_refusal;
mod text;
mod verdict;
pub mod weights;
mod words;
mod write;
mod wrong;

pub use answer::read_solution;
pub use names::called;
pub use node::MOST_MOVES;
pub use refusal::{Fault, Refusal};
pub use solution::Solution;
pub use solution_refusal::SolutionRefusal;
pub use text::MOST_NODES;
pub use weights::compress;
pub use write::GameText;

/// The most bytes of a text.
pub const MOST_BYTES: usize = 1_048_576;

/// What a node calls its place.
#[derive(Drop)]
pub struct Named {
    pub id: u32,
    // No `Option`: the form's definition (`name` in specs/Form.antt) reads a missing name as the empty one.
    /// Empty where the node has none.
    pub name: Vec<u8>,
}

/// A game as words, and what its places are called, in their order.
#[derive(Drop)]
pub struct Listing {
    pub words: Vec<u32>,
    pub places: Vec<Named>,
}

/// The weights of the nodes.
fn weigh(heap: Global, nodes: &[Node]) -> Result<Vec<u32>, NoWeights>
    ensures fitted { IfOk result (λ v. Fitted (priorities_in nodes.now) v.items) }
    ensures unfit { IfErr result (λ e. Unfit (priorities_in nodes.now) e) }
{
    let priorities: Vec<u32> = nodes.iter().map(|node| node.head.priority).collect(heap)?;
    compress(heap, &priorities)
}

/// The words of the nodes.
fn assemble(heap: Global, nodes: &[Node]) -> Result<Vec<u32>, Wrong>
    requires fine { FineAll nodes.now }
    requires few { length nodes.now ≤ 16384 }
    ensures { Assembled nodes.now result }
{
    let places = Places::of(heap, nodes)?;
    let weights = weigh(heap, nodes)?;
    words::write_words(heap, &places, nodes, &weights)
}

/// What the nodes call their places, each with a name of its own. The nodes go
/// on the way, so that their successors and the names do not stand together.
fn name_places(heap: Global, nodes: Vec<Node<'_>>) -> Result<Vec<Named>, AllocError>
    ensures { IfOk result (λ v. NamedAs nodes.entry.items v.items) }
{
    let mut places = Vec::new(heap);
    for node in nodes {
        places.push(Named {
            id: node.head.id,
            name: Vec::from_slice(heap, node.name)?,
        })?;
    }
    Ok(places)
}

/// The line in which the node begins.
fn line_of(text: &[u8], node: &Node) -> usize
    ensures { result ≡ line_at text.now node.now.left }
{
    line::line_at(text, node.left)
}

/// What is said of a text whose nodes are wrong.
fn refused(text: &[u8], nodes: &[Node], wrong: Wrong) -> Refusal
    requires { Inside nodes.now wrong }
    ensures { entries text.now ≡ Ok nodes.now → Unassembled nodes.now wrong → Says text.now result }
{
    match wrong {
        Wrong::Twice(n) => {
            let node = &nodes[n];
            Refusal::Twice {
                line: line_of(text, node),
                id: node.head.id,
            }
        }
        Wrong::Unknown(n, id) => Refusal::Unknown {
            line: line_of(text, &nodes[n]),
            id,
        },
        Wrong::Priority(n) => Refusal::TooManyPriorities {
            line: line_of(text, &nodes[n]),
        },
        Wrong::Memory => Refusal::Memory,
    }
}

/// What is said of a text that is not of the form.
fn stopped(text: &[u8], stop: Stop) -> Refusal
    ensures { Stops (entries text.now) stop → Says text.now result }
{
    match stop {
        Stop::At(Slip { fault, left }) => Refusal::Fault {
            line: line::line_at(text, left),
            fault,
        },
        Stop::Memory => Refusal::Memory,
    }
}

/// Reads PGSolver's form: ID PRIORITY OWNER SUCC,SUCC,.. "NAME"; for each node, behind `parity N;` and `start N;`, which may be missing.
pub fn read(heap: Global, text: &[u8]) -> Result<Listing, Refusal>
    ensures listed { IfOk result (λ l. Listed text.now (listed_ids l) (listed_names l) l.words.items) }
    ensures short { IfOk result (λ l. length text.now ≤ 1048576) }
    ensures says { IfErr result (λ e. Says text.now e) }
{
    if text.len() > MOST_BYTES {
        return Err(Refusal::TooLong);
    }
    let nodes = text::read_text(heap, text).map_err(|stop| stopped(text, stop))?;
    if nodes.is_empty() {
        return Err(Refusal::NoNodes);
    }
    // No `map_err`: tried, and what its closure tells of the nodes that it borrows
    // was not shown.
    let words = match assemble(heap, &nodes) {
        Ok(words) => words,
        Err(wrong) => return Err(refused(text, &nodes, wrong)),
    };
    let places = name_places(heap, nodes)?;
    Ok(Listing { words, places })
}
