//! How often each weight stands among some, as a count for each of the 256.
ghost use Rattle.std.specs.Prelude.{◌≡◌, ◌+◌, ◌^◌, ◌<◌, slice_index, replicate};
ghost use Rattle.playing.specs.Windows.{more, less, GreatestIs};

use endless::weights::WEIGHTS;
use std::marker::Model;

/// How many weights there are.
pub const KINDS: usize = WEIGHTS;

/// How often each of the 256 weights stands among some.
#[derive(Drop)]
pub struct Counts {
    times: [u32; KINDS],
}

// Clauses see the 256 counts, the one of weight 0 first.
impl Model for Counts {
    ghost use Rattle.std.specs.Prelude.{ℕ, List};

    ghost Value = { List ℕ };

    ghost view = { λ c. c.times };
}

/// Any 256 numbers, the one of weight 0 first.
impl From<[u32; KINDS]> for Counts {
    ghost use Rattle.std.specs.Prelude.{◌≡◌};

    ghost from_gives = { λ times counts. counts ≡ times };

    fn from(times: [u32; KINDS]) -> Counts {
        Counts { times }
    }
}

/// The 256 numbers again.
impl From<Counts> for [u32; KINDS] {
    ghost use Rattle.std.specs.Prelude.{◌≡◌};

    ghost from_gives = { λ counts times. times ≡ counts };

    fn from(counts: Counts) -> [u32; KINDS] {
        let Counts { times } = counts;
        times
    }
}

impl Counts {
    /// No weight stands there yet.
    pub fn new() -> Counts
        ensures { result ≡ replicate 256 0 }
    {
        Counts { times: [0; KINDS] }
    }

    /// Counts one more of this weight.
    pub fn add(&mut self, weight: u8)
        requires { slice_index self.old weight + 1 < 2 ^ 32 }
        ensures { self.new ≡ more weight self.old }
    {
        self.times[usize::from(weight)] += 1;
    }

    /// Counts one less of this weight.
    pub fn remove(&mut self, weight: u8)
        requires { 0 < slice_index self.old weight }
        ensures { self.new ≡ less weight self.old }
    {
        self.times[usize::from(weight)] -= 1;
    }

    /// Counts one less of one weight, and then one more of another.
    pub fn exchange(&mut self, old: u8, new: u8)
        requires some { 0 < slice_index self.old old }
        requires fits { slice_index self.old new + 1 < 2 ^ 32 }
        ensures { self.new ≡ more new (less old self.old) }
    {
        self.remove(old);
        self.add(new);
    }

    /// The greatest weight that is counted at least once.
    pub fn greatest(&self) -> Option<u8>
        ensures { GreatestIs self.now result }
    {
        // Through `usize`: back through `0..=u8::MAX` takes three times as long.
        let weight = (0..KINDS).rev().find(|&weight| self.times[weight] > 0)?;
        Some(weight as u8)
    }
}
