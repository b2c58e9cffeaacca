//! How many places have each weight.
ghost use Rattle.std.specs.Prelude.{◌≡◌, ℕ, length, nat_lt, slice_index};
ghost use Rattle.endless.specs.Bits.{count};
ghost use Rattle.endless.specs.Weights.{weighing, kinds};

use crate::words::GameWords;

// Each crate that reads texts has this number of its own, as it takes no more
// from here than a `Side`, and so has `playing`, as the size of its counts.
/// How many weights a place can have.
pub const WEIGHTS: usize = 256;

// An array, and no type as `playing::Counts`: it is read once, and does not
// change after it is made.
/// For each weight how many places have it.
pub fn tally(game: &GameWords) -> [u32; WEIGHTS]
    ensures { (k : ℕ) → slice_index result k ≡ weighing game.now k }
{
    let mut counts = [0; WEIGHTS];
    for head in game.heads() {
        counts[head.weight as usize] += 1;
    }
    counts
}

/// How many weights some place has.
pub fn different(counts: &[u32]) -> usize
    ensures { result ≡ count (λ k. nat_lt 0 (slice_index counts.now k)) (length counts.now) }
{
    counts.iter().filter(|count| **count > 0).count()
}

/// How many different weights a game has.
pub fn levels(game: &GameWords) -> usize
    ensures { result ≡ kinds game.now }
{
    different(&tally(game))
}
