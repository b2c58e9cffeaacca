//! The words of the smaller game.
ghost use Rattle.std.specs.Prelude.{◌≡◌, ℕ, ◌+◌, ◌*◌, ◌^◌, ◌<◌, ◌≤◌, length, slice_index};
ghost use Rattle.endless.specs.Graph.{moves};
ghost use Rattle.endless.specs.View.{words_of};
ghost use Rattle.endless.specs.Bits.{size};
ghost use Rattle.quotient.specs.Gathering.{Nothing};
ghost use Rattle.quotient.specs.Refining.{part, Parted};
ghost use Rattle.quotient.specs.Numbering.{rank, Numbered, Emptied, Put};
ghost use Rattle.quotient.specs.Writing.{Written};

use crate::gather::gather;
use endless::bits;
use endless::graph::Places;

/// Writes the members of the set from `at` on, the least first, and takes them
/// out of it. Where they end.
fn write_members(set: &mut [u32], words: &mut [u32], at: usize) -> usize
    requires room { at + size set.old ≤ length words.old }
    requires small { 32 * length set.old < 2 ^ 32 }
    ensures { Emptied set.old words.old at set.new words.new result }
{
    let mut end = at;
    let mut from = 0;
    while let Some(part) = bits::next(set, from) {
        bits::remove(set, part);
        words[end] = part;
        end += 1;
        from = part + 1;
    }
    end
}

/// Writes the place that the part of `place` is from `at` on. Where it ends.
/// The set is empty before and after.
fn write_place(
    places: &Places,
    numbers: &[u32],
    place: u32,
    set: &mut [u32],
    words: &mut [u32],
    at: usize,
) -> usize
    requires place { place < length places.now }
    requires numbers { length places.now ≤ length numbers.now }
    requires low { (n : ℕ) → n < length places.now → slice_index numbers.now n < length places.now }
    requires set { length places.now ≤ 32 * length set.old }
    requires small { 32 * length set.old < 2 ^ 32 }
    requires empty { Nothing set.old }
    requires room { at + 3 + length (moves places.now place) ≤ length words.old }
    ensures put { Put places.now numbers.now place words.old at words.new result }
    ensures empty { Nothing set.new }
{
    let head = places.head(place);
    let count = gather(places.moves(place), numbers, set);
    words[at] = u32::from(head.whose);
    words[at + 1] = head.weight;
    words[at + 2] = count as u32;
    write_members(set, words, at + 3)
}

/// Writes the words of the smaller game, of so many places, and says how many
/// they are. The set is empty before and after.
pub(crate) fn write(
    places: &Places,
    parts: &[u32],
    numbers: &[u32],
    count: u32,
    set: &mut [u32],
    words: &mut [u32],
) -> usize
    requires parted { Parted places.now parts.now (length set.old) }
    requires small { 32 * length set.old < 2 ^ 32 }
    requires numbers { length places.now ≤ length numbers.now }
    requires numbered { Numbered places.now parts.now numbers.now }
    requires count { count ≡ rank parts.now (length places.now) }
    requires room { length (words_of places.now) ≤ length words.old }
    requires empty { Nothing set.old }
    ensures written { Written places.now parts.now numbers.now words.old words.new result }
{
    words[0] = count;
    let mut at = 1;
    for place in 0..places.len() {
        if parts[place as usize] == place {
            at = write_place(places, numbers, place, set, words, at);
        }
    }
    at
}
