//! What is counted while games are tried.
use allplans::checker::Answer;
use allplans::side::Side;

/// How many games were tried, and what came out.
#[derive(Clone, Copy, Default)]
pub(crate) struct Tally {
    pub(crate) games: u32,
    /// What stands in the three columns between these: of a game its places,
    /// and how many of them each side wins.
    pub(crate) counts: [u32; 3],
    pub(crate) disagreed: u32,
    /// How many answers were refused after one winner or number in them was
    /// changed.
    pub(crate) refused: u32,
}

impl Tally {
    /// Counts a game by its answer: the places, by who wins them.
    pub(crate) fn count(&mut self, answer: &Answer) {
        self.games = self.games.saturating_add(1);
        for claim in answer.claims.iter() {
            self.add(match Side::try_from(claim.winner) {
                Ok(Side::Even) => [1, 1, 0],
                Ok(Side::Odd) => [1, 0, 1],
                Err(_) => [1, 0, 0],
            });
        }
    }

    /// Adds to each of the three columns.
    pub(crate) fn add(&mut self, counts: [u32; 3]) {
        for (sum, count) in self.counts.iter_mut().zip(counts) {
            *sum = sum.saturating_add(count);
        }
    }

    /// What came out of both.
    pub(crate) fn and(mut self, other: Tally) -> Tally {
        self.add(other.counts);
        Tally {
            games: self.games.saturating_add(other.games),
            counts: self.counts,
            disagreed: self.disagreed.saturating_add(other.disagreed),
            refused: self.refused.saturating_add(other.refused),
        }
    }
}
