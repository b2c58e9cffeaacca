//! Whether two places are alike, as far as the parts tell.
ghost use Rattle.std.specs.Prelude.{◌≡◌, ℕ, ◌*◌, ◌<◌, ◌≤◌, length, slice_index, IsTrue, ◌↔◌, true, false};
ghost use Rattle.endless.specs.Sets.{In};
ghost use Rattle.endless.specs.Bits.{members};
ghost use Rattle.endless.specs.Graph.{moves};
ghost use Rattle.quotient.specs.Gathering.{Into, Nothing};
ghost use Rattle.quotient.specs.Refining.{Leads, Same, InParts};

use crate::gather::{gather, release};
use endless::bits;
use endless::graph::Places;

/// Whether each of these moves leads into a part of the set.
fn all_within(moves: &[u32], parts: &[u32], set: &[u32]) -> bool
    requires places { (k : ℕ) → k < length moves.now → slice_index moves.now k < length parts.now }
    requires inside { (k : ℕ) → k < length moves.now → slice_index parts.now (slice_index moves.now k) < 32 * length set.now }
    ensures all { result ≡ true → (q : ℕ) → Into moves.now parts.now q → In (members set.now) q }
    ensures some_out { result ≡ false → (q : ℕ) × Into moves.now parts.now q × (In (members set.now) q → ⊥) }
{
    for to in moves {
        if !bits::has(set, parts[*to as usize]) {
            return false;
        }
    }
    true
}

/// Whether `other` may move into each part that `place` may move into. The set
/// is empty before and after.
fn leads(places: &Places, parts: &[u32], place: u32, other: u32, set: &mut [u32]) -> bool
    requires place { place < length places.now }
    requires other { other < length places.now }
    requires parted { InParts places.now parts.now (length set.old) }
    requires empty { Nothing set.old }
    ensures leads { (result ≡ true) ↔ Leads places.now parts.now place other }
    ensures empty { Nothing set.new }
{
    let moves = places.moves(other);
    gather(moves, parts, set);
    let leads = all_within(places.moves(place), parts, set);
    release(moves, parts, set);
    leads
}

/// Whether two places have the same side, weight and part, and may move into
/// the same parts. The set is empty before and after.
pub(crate) fn is_same(
    places: &Places,
    parts: &[u32],
    place: u32,
    other: u32,
    set: &mut [u32],
) -> bool
    requires place { place < length places.now }
    requires other { other < length places.now }
    requires parted { InParts places.now parts.now (length set.old) }
    requires empty { Nothing set.old }
    ensures same { (result ≡ true) ↔ Same places.now parts.now place other }
    ensures empty { Nothing set.new }
{
    let own = places.head(place);
    let its = places.head(other);
    own.whose == its.whose
        && own.weight == its.weight
        && parts[place as usize] == parts[other as usize]
        && leads(places, parts, place, other, set)
        && leads(places, parts, other, place, set)
}
