//! Places put into groups, of those that the parts do not tell apart.
ghost use Rattle.std.specs.Prelude.{◌≡◌, ℕ, ◌*◌, ◌<◌, ◌≤◌, length, slice_index, MatchOption};
ghost use Rattle.endless.specs.Graph.{moves};
ghost use Rattle.quotient.specs.Gathering.{Nothing};
ghost use Rattle.quotient.specs.Groups.{SameGroups};
ghost use Rattle.quotient.specs.Refining.{part, InParts, Same, scattered, greatest, bucket, Linked, Descends, Grouped};

use crate::alike::is_same;
use endless::graph::Places;

/// The greatest of the numbers to which a factor scatters the parts that these
/// moves lead into.
fn greatest(moves: &[u32], parts: &[u32], factor: u32) -> u32
    requires places { (k : ℕ) → k < length moves.now → slice_index moves.now k < length parts.now }
    requires low { (k : ℕ) → k < length moves.now → slice_index parts.now (slice_index moves.now k) < 16384 }
    requires factor { factor < 65536 }
    ensures { result ≡ greatest (λ m. scattered factor (part parts.now m)) moves.now }
{
    let mut greatest = 0;
    for to in moves {
        greatest = (parts[*to as usize] * factor % 65521).max(greatest);
    }
    greatest
}

/// Where to look for the part of a place, of so many buckets: where to look for
/// that of each place that the parts do not tell apart from it.
fn bucket(places: &Places, parts: &[u32], many: usize, place: u32) -> usize
    requires place { place < length places.now }
    requires parted { (words : ℕ) × InParts places.now parts.now words }
    requires some { 0 < many }
    ensures is { result ≡ bucket places.now parts.now many place }
    ensures below { result < many }
{
    // Any factors would do. These scatter the parts in three ways, below a prime
    // number, so that the greatest of all three seldom agree where not all parts do.
    let moves = places.moves(place);
    let part = parts[place as usize] as usize;
    let weight = places.weight(place) as usize;
    let first = greatest(moves, parts, 40503) as usize;
    let second = greatest(moves, parts, 30011) as usize;
    let third = greatest(moves, parts, 12289) as usize;
    (31 * part + 1021 * weight + 65599 * first + 257 * second + 8191 * third) % many
}

/// The place of a chain, told by where it stands in the list, from which the
/// parts do not tell this place apart.
fn find(
    places: &Places,
    parts: &[u32],
    list: &[u32],
    place: u32,
    start: u32,
    links: &[u32],
    set: &mut [u32],
) -> Option<u32>
    requires place { place < length places.now }
    requires list { (j : ℕ) → j < length list.now → slice_index list.now j < length places.now }
    requires parted { InParts places.now parts.now (length set.old) }
    requires links { length list.now ≤ length links.now }
    requires start { start ≤ length list.now }
    requires descends { Descends links.now }
    requires empty { Nothing set.old }
    ensures found { MatchOption result ((l : ℕ) → Linked links.now start l → Same places.now parts.now place (slice_index list.now l) → ⊥) (λ l. Linked links.now start l × Same places.now parts.now place (slice_index list.now l)) }
    ensures empty { Nothing set.new }
{
    let mut link = start;
    while link != 0 {
        let lead = link - 1;
        if is_same(places, parts, place, list[lead as usize], set) {
            return Some(lead);
        }
        link = links[lead as usize];
    }
    None
}

/// What places are put into groups in: for each place of a list where the first
/// of its group stands there, these first places in chains, one for each bucket,
/// and a set of parts, which is empty before and after.
#[derive(Drop)]
pub(crate) struct Groups<'r> {
    pub(crate) made: &'r mut [u32],
    pub(crate) heads: &'r mut [u32],
    pub(crate) links: &'r mut [u32],
    pub(crate) set: &'r mut [u32],
}

/// Puts the places of a list into groups, of those that the parts do not tell
/// apart: writes for each where the first of its group stands in the list.
pub(crate) fn group(places: &Places, parts: &[u32], list: &[u32], groups: &mut Groups)
    requires parted { InParts places.now parts.now (length groups.old.set.now) }
    requires list { (j : ℕ) → j < length list.now → slice_index list.now j < length places.now }
    requires few { length list.now ≤ length places.now }
    requires made { length list.now ≤ length groups.old.made.now }
    requires heads { length list.now ≤ length groups.old.heads.now }
    requires links { length list.now ≤ length groups.old.links.now }
    requires empty { Nothing groups.old.set.now }
    ensures grouped { Grouped places.now parts.now list.now groups.new.made.now }
    ensures same { SameGroups groups.old groups.new }
    ensures empty { Nothing groups.new.set.now }
{
    let made = &mut *groups.made;
    let heads = &mut *groups.heads;
    let links = &mut *groups.links;
    let set = &mut *groups.set;
    let (heads, _) = heads.split_at_mut(list.len());
    let (links, _) = links.split_at_mut(list.len());
    heads.fill(0);
    links.fill(0);
    for i in 0..list.len() {
        let bucket = bucket(places, parts, list.len(), list[i]);
        let start = heads[bucket];
        match find(places, parts, list, list[i], start, links, set) {
            Some(lead) => made[i] = lead,
            None => {
                made[i] = i as u32;
                links[i] = start;
                heads[bucket] = i as u32 + 1;
            }
        }
    }
}
