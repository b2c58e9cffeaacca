//! The words of the game.
ghost use Rattle.std.specs.Prelude.{◌≡◌, ℕ, ◌≤◌, List, [], ◌∷◌, ◌++◌, length};
ghost use Rattle.endless.specs.Sides.{number};
ghost use Rattle.pgsolver.specs.Wrongs.{Went, Ready, Worded};

use crate::ids::Places;
use crate::text::Node;
use crate::wrong::Wrong;
use std::alloc::Global;

/// Adds the places that the successors of node n are.
fn write_goals(places: &Places, goals: &[u32], n: usize, words: &mut Vec<u32>) -> Result<(), Wrong>
    ensures { Went places.now goals.now n words.old.items words.new.items result }
{
    for goal in goals {
        let place = places.find(*goal).ok_or(Wrong::Unknown(n, *goal))?;
        words.push(place)?;
    }
    Ok(())
}

/// Adds the words of node n.
fn write_place(
    places: &Places,
    node: &Node,
    weight: u32,
    n: usize,
    words: &mut Vec<u32>,
) -> Result<(), Wrong>
    requires { length node.now.goes ≤ 64000 }
    ensures { Went places.now node.now.goes n (words.old.items ++ (number node.now.first.owner ∷ weight ∷ length node.now.goes ∷ [])) words.new.items result }
{
    words.push(u32::from(node.head.owner))?;
    words.push(weight)?;
    words.push(node.goals.len() as u32)?;
    write_goals(places, node.goals.as_slice(), n, words)
}

// Two lists, gone through together: the weights are what `compress` gives for priorities alone.
/// The words of the whole game.
pub(crate) fn write_words(
    heap: Global,
    places: &Places,
    nodes: &[Node],
    weights: &[u32],
) -> Result<Vec<u32>, Wrong>
    requires { Ready weights.now nodes.now }
    ensures { Worded places.now nodes.now weights.now result }
{
    let mut words = Vec::new(heap);
    words.push(nodes.len() as u32)?;
    for ((n, node), weight) in nodes.iter().enumerate().zip(weights) {
        write_place(places, node, *weight, n, &mut words)?;
    }
    Ok(words)
}
