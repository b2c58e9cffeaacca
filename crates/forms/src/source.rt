//! A game as it was read: its words, and what the text calls its places.
ghost use Rattle.std.specs.Prelude.{map, string_bytes, IfOk};
ghost use Rattle.forms.specs.Shown.{Numbered, NamesOf, NodesOf};

use pgsolver::Named;
use std::alloc::{AllocError, Global};

/// A game that was read.
#[derive(Drop)]
pub struct Source {
    pub words: Vec<u32>,
    pub labels: Labels,
}

/// What a text calls the places of its game, in their order.
#[derive(Drop)]
pub enum Labels {
    /// A drawing has names, each once.
    Names(Vec<String>),
    /// PGSolver's form has ids, each once, and names, which may be missing or
    /// stand more than once.
    Nodes(Vec<Named>),
}

impl Labels {
    /// What each place is called where its name is printed or typed: its name in
    /// the drawing, or the one that tells which node is meant.
    pub fn into_names(self, heap: Global) -> Result<Vec<String>, AllocError>
        ensures { IfOk result (λ v. NamesOf self (map string_bytes v.items)) }
    {
        match self {
            Labels::Names(names) => Ok(names),
            Labels::Nodes(nodes) => pgsolver::called(heap, &nodes),
        }
    }

    /// The ids and names of the places in PGSolver's form: where the text was a
    /// drawing, the ids count from 0.
    pub fn into_nodes(self, heap: Global) -> Result<Vec<Named>, AllocError>
        ensures { IfOk result (λ v. NodesOf self v.items) }
    {
        match self {
            Labels::Names(names) => numbered(heap, names),
            Labels::Nodes(nodes) => Ok(nodes),
        }
    }
}

/// A node for each name, with the ids from 0 on.
fn numbered(heap: Global, names: Vec<String>) -> Result<Vec<Named>, AllocError>
    ensures { IfOk result (λ v. Numbered (map string_bytes names.items) v.items) }
{
    let mut nodes = Vec::new(heap);
    for (i, name) in names.into_iter().enumerate() {
        let id = u32::try_from(i).unwrap_or(u32::MAX);
        let name = name.into_bytes();
        nodes.push(Named { id, name })?;
    }
    Ok(nodes)
}
