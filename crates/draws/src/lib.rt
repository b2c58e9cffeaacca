//! Numbers at random, the same ones at each run.
#![tactic(auto)]

ghost use Rattle.std.specs.Prelude.{◌≡◌, ℕ, ◌+◌, ◌*◌, ◌/◌, ◌%◌, ◌^◌, ◌<◌};

use std::marker::{Model, PhantomData};

/// A type of numbers that count: what is drawn has the type of its bound.
pub trait Count: Copy {
    ghost number: { Self → ℕ };

    /// What is left of `n` if as much as this is taken away as often as can
    /// be; 0 where this is 0.
    fn rest_of(self, n: u64) -> Self
        ensures rest { 0 < number self → number result ≡ n % number self }
        ensures none { number self ≡ 0 → number result ≡ 0 };
}

impl Count for u32 {
    ghost number = { λ n. n };

    fn rest_of(self, n: u64) -> u32 {
        n.checked_rem(u64::from(self)).unwrap_or(0) as u32
    }
}

impl Count for usize {
    ghost number = { λ n. n };

    fn rest_of(self, n: u64) -> usize {
        (n as usize).checked_rem(self).unwrap_or(0)
    }
}

/// Goes through all numbers of 64 bits, in an order that looks like none, and
/// draws numbers of the type `N` from each. It leaves out `SHIFT` bits, the
/// lowest, which come round too soon.
#[derive(Drop)]
pub struct Random<N, const SHIFT: u32> {
    state: u64,
    drawn: PhantomData<N>,
}

// Where one stands is all that clauses see of it.
impl<N, const SHIFT: u32> Model for Random<N, SHIFT> {
    ghost Value = { ℕ };

    ghost view = { λ r. r.state };
}

impl<N: Count, const SHIFT: u32> Random<N, SHIFT> {
    /// The numbers from this start on.
    pub fn new(start: u64) -> Self
        ensures { result ≡ start }
    {
        Random {
            state: start,
            drawn: PhantomData,
        }
    }

    /// A number below `n`, or 0 where `n` is 0, of the next state's upper bits.
    pub fn below(&mut self, n: N) -> N
        ensures steps { self.new ≡ (self.old * 6364136223846793005 + 1442695040888963407) % 2 ^ 64 }
        ensures value { 0 < N.number n → N.number result ≡ self.new / 2 ^ SHIFT % N.number n }
        ensures small { 0 < N.number n → N.number result < N.number n }
        ensures none { N.number n ≡ 0 → N.number result ≡ 0 }
    {
        self.state = self
            .state
            .wrapping_mul(6364136223846793005)
            .wrapping_add(1442695040888963407);
        n.rest_of(upper(self.state, SHIFT))
    }
}

/// What `n` is without its lowest bits, so many of them.
fn upper(n: u64, shift: u32) -> u64
    ensures { result ≡ n / 2 ^ shift }
{
    n.checked_shr(shift).unwrap_or(0)
}

#[cfg(test)]
mod tests {
    use super::*;

    // The numbers wanted were worked out by a program in Python.
    #[test]
    fn draws_words(rt: HostRuntime) {
        let mut random: Random<u32, 32> = Random::new(2009);
        for (bound, want) in [
            (1000, 484),
            (2, 1),
            (u32::MAX, 278273684),
            (0, 0),
            (16384, 16202),
        ] {
            assert_eq!(rt; random.below(bound), want, "below {bound}");
        }
    }

    #[test]
    fn draws_indices(rt: HostRuntime) {
        let mut random: Random<usize, 33> = Random::new(1998);
        for (bound, want) in [
            (1000, 701),
            (2, 0),
            (1 << 40, 1270008636),
            (0, 0),
            (16384, 14708),
        ] {
            assert_eq!(rt; random.below(bound), want, "below {bound}");
        }
    }
}
