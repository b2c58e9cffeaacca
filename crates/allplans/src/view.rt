//! What is left of a game where a side keeps to its plan.
ghost use Rattle.std.specs.Prelude.{◌≡◌, ℕ, ◌<◌, ◌≤◌, true, false, length, IfNone, ◌≢◌, slice_index};
ghost use Rattle.allplans.specs.Rounds.{Among, Falls, FallsAt, FallsBy, In, steps, weight};

use crate::claimed::Claimed;
use crate::side::Side;
use std::slice;

/// The places that are claimed for `side`, of weight at most `heaviest`:
/// there the side moves as its plan says, and the other as it likes.
#[derive(Clone, Copy)]
pub struct View<'a> {
    pub claimed: Claimed<'a>,
    pub side: Side,
    pub heaviest: u32,
}

impl<'a> View<'a> {
    /// Whether this place is among them.
    pub fn has(self, place: usize) -> bool
        ensures { In self.entry place → result ≡ true }
    {
        let Some(here) = self.claimed.places.get(place) else {
            return false;
        };
        here.weight <= self.heaviest && self.claimed.gives(place, self.side)
    }

    /// Where a play may go from this place.
    pub fn moves(self, place: usize) -> &'a [u32]
        ensures { place < length self.entry.claimed.places.now → result.now ≡ steps self.entry place }
    {
        match (
            self.claimed.places.get(place),
            self.claimed.claims.get(place),
        ) {
            (Some(here), Some(claim)) => here.steps(self.side, slice::from_ref(&claim.goes)),
            _ => &[],
        }
    }

    /// Whether this place has the weight `heaviest`.
    fn is_heavy(self, place: usize) -> bool
        ensures { place < length self.entry.claimed.places.now → weight self.entry.claimed.places.now place ≡ self.entry.heaviest → result ≡ true }
    {
        let Some(here) = self.claimed.places.get(place) else {
            return false;
        };
        here.weight == self.heaviest
    }

    /// Whether this place is among them, and has the weight `heaviest`.
    fn is_top(self, place: usize) -> bool
        ensures { In self.entry place → weight self.entry.claimed.places.now place ≡ self.entry.heaviest → result ≡ true }
    {
        self.has(place) && self.is_heavy(place)
    }

    /// Whether one of the places has the weight `heaviest`.
    pub fn is_reached(self) -> bool
        ensures { result ≡ false → (v : ℕ) → In self.entry v → weight self.entry.claimed.places.now v ≢ self.entry.heaviest }
    {
        (0..self.claimed.places.len()).any(|place| self.is_top(place))
    }

    /// The first move by which a rank does not fall as it should: it must
    /// never rise, and must fall at each place of weight `heaviest`. Where
    /// ranks do so, no round comes by such a place.
    pub fn first_rise(self, ranks: &[u32]) -> Option<Move>
        ensures { IfNone result (Falls self.entry ranks.now) }
    {
        (0..self.claimed.places.len()).find_map(|from| self.rise_at(ranks, from))
    }

    /// The first such move from this place.
    fn rise_at(self, ranks: &[u32], from: usize) -> Option<Move>
        ensures { IfNone result (FallsAt self.entry ranks.now from) }
    {
        if self.has(from) {
            self.rise_from(ranks, from, self.is_heavy(from))
        } else {
            None
        }
    }

    /// The first move from this place by which the rank does not fall, or,
    /// where it need not, rises.
    fn rise_from(self, ranks: &[u32], from: usize, falls: bool) -> Option<Move>
        ensures { IfNone result (from < length self.entry.claimed.places.now → (u : ℕ) → Among u (steps self.entry from) → In self.entry u → FallsBy ranks.now from u (falls ≡ true)) }
    {
        let rank = rank_at(ranks, from);
        self.moves(from)
            .iter()
            .map(|to| *to as usize)
            .find(|to| self.has(*to) && !is_fine(rank, rank_at(ranks, *to), falls))
            .map(|to| Move { from, to })
    }
}

/// Whether a rank may go on to the next: it must not rise, and fall if it has
/// to.
fn is_fine(rank: u32, next: u32, falls: bool) -> bool
    ensures bound { result ≡ true → next ≤ rank }
    ensures falls { result ≡ true → falls ≡ true → next < rank }
{
    if falls { next < rank } else { next <= rank }
}

/// A move from a place to a place.
#[derive(Clone, Copy, PartialEq, Eq, Debug)]
pub struct Move {
    pub from: usize,
    pub to: usize,
}

/// The rank of a place; 0 where none is told.
fn rank_at(ranks: &[u32], place: usize) -> u32
    ensures { result ≡ slice_index ranks.now place }
{
    ranks.get(place).copied().unwrap_or(0)
}
