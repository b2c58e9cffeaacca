//! The parts, numbered by their first place.
ghost use Rattle.std.specs.Prelude.{◌≡◌, ℕ, ◌<◌, ◌≤◌, length, slice_index};
ghost use Rattle.quotient.specs.Refining.{part, Parted};
ghost use Rattle.quotient.specs.Numbering.{leads, rank, Numbered};

use endless::graph::Places;

/// Writes the number of each place's part to `numbers`, and says how many
/// parts there are.
pub(crate) fn number(places: &Places, parts: &[u32], numbers: &mut [u32]) -> u32
    requires parted { (words : ℕ) × Parted places.now parts.now words }
    requires room { length places.now ≤ length numbers.old }
    ensures numbered { Numbered places.now parts.now numbers.new }
    ensures many { result ≡ rank parts.now (length places.now) }
    ensures behind { (k : ℕ) → length places.now ≤ k → slice_index numbers.new k ≡ slice_index numbers.old k }
{
    let mut count = 0;
    for place in 0..places.len() {
        let lead = parts[place as usize];
        if lead == place {
            numbers[place as usize] = count;
            count += 1;
        } else {
            numbers[place as usize] = numbers[lead as usize];
        }
    }
    count
}
