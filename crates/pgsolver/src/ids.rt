//! The places of the nodes by their ids.
ghost use Rattle.std.specs.Prelude.{◌≡◌, ◌≤◌, length, map};
ghost use Rattle.pgsolver.specs.Table.{Finds};
ghost use Rattle.pgsolver.specs.Wrongs.{Indexed};
ghost use Rattle.pgsolver.specs.Answering.{Collected};

use crate::Named;
use crate::seeded::Seeded;
use crate::solution_refusal::SolutionRefusal;
use crate::text::{MOST_NODES, Node};
use crate::wrong::Wrong;
use indexmap::IndexSet;
use std::alloc::Global;
use std::marker::Model;

/// The ids of the nodes, which all differ, each with the index of its place. A contract sees them as a list.
#[derive(Drop)]
pub(crate) struct Places {
    ids: IndexSet<u32, Seeded>,
}

impl Model for Places {
    ghost use Rattle.std.specs.Prelude.{ℕ, ◌≤◌, List, length};

    ghost Value = { List ℕ };

    ghost view = { λ p. p.ids.keys };

    ghost invariant = { λ p. length p.ids.keys ≤ 16384 };
}

impl Places {
    /// The places of all nodes.
    pub(crate) fn of(heap: Global, nodes: &[Node]) -> Result<Places, Wrong>
        requires { length nodes.now ≤ 16384 }
        ensures { Indexed nodes.now result }
    {
        let all: Vec<u32> = nodes.iter().map(|node| node.head.id).collect(heap)?;
        let mut ids = IndexSet::with_capacity_and_hasher(heap, nodes.len(), Seeded::by(&all))?;
        for (n, node) in nodes.iter().enumerate() {
            if !ids.insert(node.head.id)? {
                return Err(Wrong::Twice(n));
            }
        }
        Ok(Places { ids })
    }

    /// The places of nodes that are named, as long as their ids all differ.
    pub(crate) fn named(heap: Global, nodes: &[Named]) -> Result<Places, SolutionRefusal>
        ensures { Collected (map (λ p. p.id) nodes.now) result }
    {
        if nodes.len() > MOST_NODES {
            return Err(SolutionRefusal::TooManyNodes);
        }
        let all: Vec<u32> = nodes.iter().map(|named| named.id).collect(heap)?;
        let mut ids = IndexSet::with_hasher(heap, Seeded::by(&all));
        for named in nodes {
            if !ids.insert(named.id)? {
                return Err(SolutionRefusal::SameId { id: named.id });
            }
        }
        Ok(Places { ids })
    }

    pub(crate) fn len(&self) -> usize
        ensures { result ≡ length self.now }
    {
        self.ids.len()
    }

    /// The place of the node with this id.
    pub(crate) fn find(&self, id: u32) -> Option<u32>
        ensures { Finds self.now id result }
    {
        Some(self.ids.get_index_of(&id)? as u32)
    }
}
