//! The weights of the last 1,000 places that were come to.
ghost use Rattle.std.specs.Prelude.{◌≡◌, ◌<◌, ◌≤◌, List, [], ◌∷◌, ◌++◌, length, drop, IfOk};
ghost use Rattle.playing.specs.Windows.{Holds, HeaviestIs};

use crate::counts::Counts;
use std::alloc::{AllocError, Global};
use std::collections::VecDeque;
use std::marker::Model;

/// How many weights a window holds at most.
pub const MOST: usize = 1000;

/// The last 1,000 weights, or all where there are fewer, and how often each
/// of the 256 weights stands among them, so that the heaviest is found
/// without going through them.
#[derive(Drop)]
pub struct Window {
    weights: VecDeque<u8>,
    counts: Counts,
}

// Clauses see the weights, the oldest first.
impl Model for Window {
    ghost use Rattle.std.specs.Prelude.{ℕ, List};
    ghost use Rattle.playing.specs.Windows.{Kept};

    ghost Value = { List ℕ };

    ghost view = { λ w. w.weights.items };

    ghost invariant = { λ w. Kept w.weights w.counts };
}

impl Window {
    /// A window to which no weight has come yet.
    pub fn new(heap: Global) -> Result<Window, AllocError>
        ensures { IfOk result (λ w. w ≡ []) }
    {
        Ok(Window {
            weights: VecDeque::with_capacity(heap, MOST)?,
            counts: Counts::new(),
        })
    }

    /// A weight comes: where 1,000 are there, the oldest goes.
    pub fn push(&mut self, weight: u8)
        ensures { Holds self.new (self.old ++ weight ∷ []) }
    {
        if self.len() < MOST {
            self.add(weight);
        } else {
            self.exchange(weight);
        }
    }

    /// These weights come, one after another.
    pub fn push_all(&mut self, weights: &[u8])
        ensures { Holds self.new (self.old ++ weights.now) }
    {
        // Also where none comes, it holds 1,000 weights at most.
        let _ = &self.weights;
        for weight in weights {
            self.push(*weight);
        }
    }

    /// A weight comes while fewer than 1,000 are there.
    fn add(&mut self, weight: u8)
        requires { length self.old < 1000 }
        ensures { self.new ≡ self.old ++ weight ∷ [] }
    {
        self.counts.add(weight);
        self.weights.push_back_reserved(weight);
    }

    /// A weight comes in the place of the oldest.
    fn exchange(&mut self, weight: u8)
        requires { 1000 ≤ length self.old }
        ensures { self.new ≡ drop 1 self.old ++ weight ∷ [] }
    {
        let oldest = self.weights.pop_front().unwrap();
        self.counts.exchange(oldest, weight);
        self.weights.push_back_reserved(weight);
    }

    /// How many weights it holds: 1,000, or all that came where these are
    /// fewer.
    pub fn len(&self) -> usize
        ensures long { result ≡ length self.now }
        ensures within { result ≤ 1000 }
    {
        self.weights.len()
    }

    /// The heaviest of the last 1,000 weights that came, or of all where
    /// these are fewer.
    pub fn heaviest(&self) -> Option<u8>
        ensures { HeaviestIs self.now result }
    {
        self.counts.greatest()
    }
}
