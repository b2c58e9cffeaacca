//! One round: only places with a move into a part that is new are looked at.
ghost use Rattle.std.specs.Prelude.{◌≡◌, ℕ, ◌+◌, ◌*◌, ◌<◌, ◌≤◌, ◌⊎◌, length, slice_index};
ghost use Rattle.endless.specs.Games.{May};
ghost use Rattle.endless.specs.Sets.{In};
ghost use Rattle.endless.specs.Bits.{members};
ghost use Rattle.quotient.specs.Gathering.{Nothing};
ghost use Rattle.quotient.specs.Groups.{SameGroups};
ghost use Rattle.quotient.specs.Refining.{part, InParts};
ghost use Rattle.quotient.specs.Partitions.{SamePartition};
ghost use Rattle.quotient.specs.Rounds.{Sized, Taken, Fresh, Named, Parting, Between};

use crate::group::{Groups, group};
use endless::bits;
use endless::graph::{Graph, Places};

/// Takes the places that may move to `place` out of their parts, and lists
/// them behind the first `many` of the list. How many then stand there.
fn take_out(
    graph: &Graph,
    place: u32,
    parts: &[u32],
    sizes: &mut [u32],
    list: &mut [u32],
    out: &mut [u32],
    many: usize,
) -> usize
    requires place { place < length graph.now }
    requires parts { length parts.now ≡ length graph.now }
    requires below { (n : ℕ) → n < length graph.now → part parts.now n < length sizes.old }
    requires list { length graph.now ≤ length list.old }
    requires out { length graph.now ≤ 32 * length out.old }
    requires taken { Taken graph.now parts.now sizes.old list.old out.old many }
    ensures taken { Taken graph.now parts.now sizes.new list.new out.new result }
    ensures came { (n : ℕ) → May graph.now n place → In (members out.new) n }
    ensures which { (n : ℕ) → In (members out.new) n → In (members out.old) n ⊎ May graph.now n place }
    ensures kept { (n : ℕ) → In (members out.old) n → In (members out.new) n }
{
    let mut many = many;
    let froms = graph.preds(place);
    for from in froms {
        if !bits::has(out, *from) {
            bits::insert(out, *from);
            sizes[parts[*from as usize] as usize] -= 1;
            list[many] = *from;
            many += 1;
        }
    }
    many
}

/// Takes the places that may move to one of `fresh` out of their parts, and
/// lists them. How many these are.
fn take_all_out(
    graph: &Graph,
    fresh: &[u32],
    parts: &[u32],
    sizes: &mut [u32],
    list: &mut [u32],
    out: &mut [u32],
) -> usize
    requires fresh { (j : ℕ) → j < length fresh.now → slice_index fresh.now j < length graph.now }
    requires parts { length parts.now ≡ length graph.now }
    requires below { (n : ℕ) → n < length graph.now → part parts.now n < length sizes.old }
    requires list { length graph.now ≤ length list.old }
    requires out { length graph.now ≤ 32 * length out.old }
    requires sized { Sized graph.now parts.now out.old sizes.old }
    requires none_out { Nothing out.old }
    ensures taken { Taken graph.now parts.now sizes.new list.new out.new result }
    ensures came { (n j : ℕ) → j < length fresh.now → May graph.now n (slice_index fresh.now j) → In (members out.new) n }
    ensures which { (n : ℕ) → In (members out.new) n → (j : ℕ) × (j < length fresh.now) × May graph.now n (slice_index fresh.now j) }
{
    let mut many = 0;
    for place in fresh {
        many = take_out(graph, *place, parts, sizes, list, out, many);
    }
    many
}

/// The number for the place at `i` of the list, whose group begins at `lead`:
/// that of the first of its group, or where it is this, that of its own part,
/// where no place is left in it, and else the next.
fn number_for(parts: &[u32], sizes: &[u32], list: &[u32], i: usize, lead: u32, next: u32) -> u32
    requires i { i < length list.now }
    requires list { (j : ℕ) → j < length list.now → slice_index list.now j < length parts.now }
    requires below { (n : ℕ) → n < length parts.now → part parts.now n < length sizes.now }
    ensures led { lead < i → result ≡ part parts.now (slice_index list.now lead) }
    ensures own { i ≤ lead → slice_index sizes.now (part parts.now (slice_index list.now i)) ≡ 0 → result ≡ part parts.now (slice_index list.now i) }
    ensures next { i ≤ lead → (slice_index sizes.now (part parts.now (slice_index list.now i)) ≡ 0 → ⊥) → result ≡ next }
{
    if (lead as usize) < i {
        return parts[list[lead as usize] as usize];
    }
    let own = parts[list[i] as usize];
    if sizes[own as usize] == 0 { own } else { next }
}

/// Places in parts: for each place its part, for each part how many of its
/// places are not out, and the set of those that are.
// Not the list of places in new parts, which `round` reads while it changes
// these: for that the borrow checker has no rule within what one reference lends.
#[derive(Drop)]
pub(crate) struct Partition<'r> {
    pub(crate) parts: &'r mut [u32],
    pub(crate) sizes: &'r mut [u32],
    pub(crate) out: &'r mut [u32],
}

/// Puts the places of the list in again, group by group, and lists those that
/// came to a part that is new. How many parts there are, and how many places
/// are listed.
fn put_in(
    places: &Places,
    partition: &mut Partition,
    fresh: &mut [u32],
    list: &[u32],
    groups: &mut Groups,
    count: u32,
) -> (u32, usize)
    requires parted { InParts places.now partition.old.parts.now (length groups.old.set.now) }
    requires sizes { length places.now < length partition.old.sizes.now }
    requires fresh { length places.now ≤ length fresh.old }
    requires out { length places.now ≤ 32 * length partition.old.out.now }
    requires made { length list.now ≤ length groups.old.made.now }
    requires heads { length list.now ≤ length groups.old.heads.now }
    requires links { length list.now ≤ length groups.old.links.now }
    requires empty { Nothing groups.old.set.now }
    requires few { length list.now ≤ length places.now }
    requires taken { Taken places.now partition.old.parts.now partition.old.sizes.now list.now partition.old.out.now (length list.now) }
    requires named { Named places.now partition.old.parts.now count }
    ensures parting { Parting places.now partition.old.parts.now list.now partition.new.parts.now count }
    ensures sized { Sized places.now partition.new.parts.now partition.new.out.now partition.new.sizes.now }
    ensures none_out { Nothing partition.new.out.now }
    ensures named { Named places.now partition.new.parts.now result.0 }
    ensures fresh { Fresh places.now partition.new.parts.now fresh.new count result.1 }
    ensures more { count ≤ result.0 }
    ensures still { SamePartition partition.old partition.new }
    ensures same { SameGroups groups.old groups.new }
    ensures empty { Nothing groups.new.set.now }
{
    let parts = &mut *partition.parts;
    let sizes = &mut *partition.sizes;
    let out = &mut *partition.out;
    group(places, parts, list, groups);
    let made = &*groups.made;
    let mut many = count;
    let mut listed = 0;
    for i in 0..list.len() {
        let place = list[i];
        let number = number_for(parts, sizes, list, i, made[i], many);
        parts[place as usize] = number;
        sizes[number as usize] += 1;
        bits::remove(out, place);
        many = many.max(number + 1);
        if number >= count {
            fresh[listed] = place;
            listed += 1;
        }
    }
    (many, listed)
}

/// One round: takes the places with a move into a part that is new out of
/// their parts, and puts them in again by the parts that they may move into.
/// How many parts there are then, and how many places are in new ones.
pub(crate) fn round(
    graph: &Graph,
    partition: &mut Partition,
    fresh: &mut [u32],
    list: &mut [u32],
    groups: &mut Groups,
    count: u32,
    listed: usize,
) -> (u32, usize)
    requires between { (first : ℕ) × Between graph.now partition.old.parts.now partition.old.sizes.now fresh.old partition.old.out.now (length groups.old.set.now) first count listed }
    requires sizes { length graph.now < length partition.old.sizes.now }
    requires fresh { length graph.now ≤ length fresh.old }
    requires list { length graph.now ≤ length list.old }
    requires made { length graph.now ≤ length groups.old.made.now }
    requires heads { length graph.now ≤ length groups.old.heads.now }
    requires links { length graph.now ≤ length groups.old.links.now }
    requires out { length graph.now ≤ 32 * length partition.old.out.now }
    requires empty { Nothing groups.old.set.now }
    ensures between { Between graph.now partition.new.parts.now partition.new.sizes.now fresh.new partition.new.out.now (length groups.new.set.now) count result.0 result.1 }
    ensures more { count ≤ result.0 }
    ensures still { SamePartition partition.old partition.new }
    ensures same { SameGroups groups.old groups.new }
    ensures empty { Nothing groups.new.set.now }
{
    let parts = &mut *partition.parts;
    let sizes = &mut *partition.sizes;
    let out = &mut *partition.out;
    let many = take_all_out(graph, &fresh[..listed], parts, sizes, list, out);
    let (list, _) = list.split_at_mut(many);
    put_in(graph.places(), partition, fresh, list, groups, count)
}
