//! Places parted in rounds, until no part is new.
ghost use Rattle.std.specs.Prelude.{◌≡◌, ℕ, ◌*◌, ◌^◌, ◌<◌, ◌≤◌, length, slice_index};
ghost use Rattle.quotient.specs.Gathering.{Nothing};
ghost use Rattle.quotient.specs.Groups.{SameGroups};
ghost use Rattle.quotient.specs.Refining.{part, Parted, Sound, Stable};
ghost use Rattle.quotient.specs.Rounds.{Firsts, ByFirst};

use crate::group::Groups;
use crate::round::{Partition, round};
use endless::graph::Graph;

/// Writes for each part its first place.
fn find_firsts(parts: &[u32], firsts: &mut [u32])
    requires few { length parts.now < 2 ^ 32 }
    requires below { (n : ℕ) → n < length parts.now → part parts.now n < length firsts.old }
    ensures { Firsts parts.now firsts.new }
{
    for place in (0..parts.len()).rev() {
        firsts[parts[place] as usize] = place as u32;
    }
}

/// Tells each place's part by the first place of it.
fn tell_by_first(parts: &[u32], firsts: &[u32], told: &mut [u32])
    requires told { length told.old ≡ length parts.now }
    requires below { (n : ℕ) → n < length parts.now → part parts.now n < length firsts.now }
    ensures { ByFirst parts.now firsts.now told.new }
{
    for place in 0..parts.len() {
        told[place] = firsts[parts[place] as usize];
    }
}

/// Parts the places by side, weight and the parts that they may move into,
/// until no part is new, and writes the first place of its part for each to
/// `told`. All else is lent, of `sizes` one word more than there are places;
/// the two sets are empty before, and that of `groups` after.
pub(crate) fn settle(
    graph: &Graph,
    told: &mut [u32],
    partition: &mut Partition,
    fresh: &mut [u32],
    list: &mut [u32],
    groups: &mut Groups,
)
    requires told { length told.old ≡ length graph.now }
    requires parts { length partition.old.parts.now ≡ length graph.now }
    requires sizes { length graph.now < length partition.old.sizes.now }
    requires fresh { length graph.now ≤ length fresh.old }
    requires list { length graph.now ≤ length list.old }
    requires made { length graph.now ≤ length groups.old.made.now }
    requires heads { length graph.now ≤ length groups.old.heads.now }
    requires links { length graph.now ≤ length groups.old.links.now }
    requires set { length graph.now ≤ 32 * length groups.old.set.now }
    requires out { length graph.now ≤ 32 * length partition.old.out.now }
    requires empty { Nothing groups.old.set.now }
    requires none_out { Nothing partition.old.out.now }
    ensures parted { Parted graph.now told.new (length groups.new.set.now) }
    ensures sound { Sound graph.now told.new }
    ensures stable { Stable graph.now told.new }
    ensures same { SameGroups groups.old groups.new }
    ensures empty { Nothing groups.new.set.now }
{
    let parts = &mut *partition.parts;
    let sizes = &mut *partition.sizes;
    parts.fill(0);
    sizes.fill(0);
    sizes[0] = graph.len();
    list_all(graph.len(), fresh);
    let mut first = 0;
    let mut count = 1;
    let mut listed = graph.len() as usize;
    while first < count {
        let (next, many) = round(graph, partition, fresh, list, groups, count, listed);
        first = count;
        count = next;
        listed = many;
    }
    let parts = &*partition.parts;
    let firsts = &mut *groups.heads;
    find_firsts(parts, firsts);
    tell_by_first(parts, firsts, told);
}

/// Lists all places.
fn list_all(places: u32, list: &mut [u32])
    requires room { places ≤ length list.old }
    ensures { (j : ℕ) → j < places → slice_index list.new j ≡ j }
{
    for place in 0..places {
        list[place as usize] = place;
    }
}
