//! The parts that a place's moves lead into, as a set.
ghost use Rattle.std.specs.Prelude.{◌≡◌, ℕ, ◌*◌, ◌<◌, length, slice_index};
ghost use Rattle.quotient.specs.Gathering.{Gathered, Released};

use endless::bits;

/// Puts the part that each of these moves leads into into the set. How many it
/// did not have.
pub(crate) fn gather(moves: &[u32], parts: &[u32], set: &mut [u32]) -> usize
    requires places { (k : ℕ) → k < length moves.now → slice_index moves.now k < length parts.now }
    requires inside { (k : ℕ) → k < length moves.now → slice_index parts.now (slice_index moves.now k) < 32 * length set.old }
    ensures { Gathered moves.now parts.now set.old set.new result }
{
    let mut count = 0;
    for to in moves {
        let part = parts[*to as usize];
        if !bits::has(set, part) {
            bits::insert(set, part);
            count += 1;
        }
    }
    count
}

/// Takes the part that each of these moves leads into out of the set.
pub(crate) fn release(moves: &[u32], parts: &[u32], set: &mut [u32])
    requires places { (k : ℕ) → k < length moves.now → slice_index moves.now k < length parts.now }
    requires inside { (k : ℕ) → k < length moves.now → slice_index parts.now (slice_index moves.now k) < 32 * length set.old }
    ensures { Released moves.now parts.now set.old set.new }
{
    for to in moves {
        bits::remove(set, parts[*to as usize]);
    }
}
