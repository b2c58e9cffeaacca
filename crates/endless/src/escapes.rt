//! How many moves of a place lead into a set of places.
ghost use Rattle.std.specs.Prelude.{◌≡◌, ℕ, ◌*◌, ◌^◌, ◌<◌, ◌≤◌, List, length, option_copied, slice_index};
ghost use Rattle.std.specs.Iterator.{IsFinite};
ghost use Rattle.endless.specs.Sets.{Set, In, whole};
ghost use Rattle.endless.specs.Bits.{members};
ghost use Rattle.endless.specs.Graph.{moves};
ghost use Rattle.endless.specs.Ways.{ways, Counted, Recounted, RecountedAt};
ghost use Rattle.endless.specs.Parts.{Gives, Part};

use crate::bits;
use crate::graph::Graph;

/// Writes down for each place how many moves it has: all lead into the game.
pub(crate) fn count_moves(graph: &Graph, escapes: &mut [u32])
    requires { length graph.now ≤ length escapes.old }
    ensures { Counted graph.now (whole graph.now) (whole graph.now) escapes.new }
{
    for place in 0..graph.len() {
        escapes[place as usize] = graph.head(place).moves;
    }
}

/// How many moves of a place lead into the set.
fn ways_into(graph: &Graph, place: u32, set: &[u32]) -> u32
    requires place { place < length graph.now }
    requires sets { length graph.now ≤ 32 * length set.now }
    ensures { result ≡ ways (members set.now) (moves graph.now place) }
{
    let mut count = 0;
    for to in graph.moves(place) {
        count += u32::from(bits::has(set, *to));
    }
    count
}

/// Writes down for each of these places how many of its moves lead into the
/// set.
fn count_each<I: Iterator<Item = u32> + Drop>(
    graph: &Graph,
    places: I,
    set: &[u32],
    escapes: &mut [u32],
)
    requires can { I.can_next places }
    requires ends { IsFinite (I.remaining places) }
    requires inside { (list : List ℕ) × Gives I.next_gives places list × ((j : ℕ) → j < length list → slice_index list j < length graph.now) }
    requires sets { length graph.now ≤ 32 * length set.now }
    requires room { length graph.now ≤ length escapes.old }
    ensures { (list : List ℕ) → Gives I.next_gives places list → RecountedAt graph.now (members set.now) list (length list) escapes.old escapes.new }
{
    for place in places {
        escapes[place as usize] = ways_into(graph, place, set);
    }
}

/// Writes down for each place of a part of the set how many of its moves lead
/// into the set: by the list, if there is one.
pub(crate) fn count_ways(graph: &Graph, list: Option<&[u32]>, set: &[u32], escapes: &mut [u32])
    requires inside { (n : ℕ) → In (members set.now) n → n < length graph.now }
    requires part { (R : Set) × Part set.now (option_copied list) R }
    requires sets { length graph.now ≤ 32 * length set.now }
    requires small { 32 * length set.now < 2 ^ 32 }
    requires room { length graph.now ≤ length escapes.old }
    ensures { (R : Set) → Part set.now (option_copied list.entry) R → Recounted graph.now (members set.now) R escapes.old escapes.new }
{
    match list {
        Some(list) => count_each(graph, list.iter().copied(), set, escapes),
        None => count_each(graph, bits::iter(set), set, escapes),
    }
}
