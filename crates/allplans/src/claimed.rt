//! A game with an answer that speaks of each of its places.
ghost use Rattle.std.specs.Prelude.{◌≡◌, length};

use crate::answer::Claim;
use crate::game::Place;
use crate::side::Side;

/// The places of a game, and a claim for each.
#[derive(Clone, Copy)]
pub struct Claimed<'a> {
    pub places: &'a [Place],
    pub claims: &'a [Claim],
    ghost level: { length claims.now ≡ length places.now },
}

impl<'a> Claimed<'a> {
    ghost use Rattle.std.specs.Prelude.{◌↔◌, ◌<◌, IsTrue, IfSome, slice_index};
    ghost use Rattle.allplans.specs.Claims.{winners};
    ghost use Rattle.allplans.specs.Sides.{side_word};

    /// Both, where there are as many claims as places.
    pub fn new(places: &'a [Place], claims: &'a [Claim]) -> Option<Claimed<'a>>
        ensures { IfSome result (λ c. (c.places.now ≡ places.now) × (c.claims.now ≡ claims.now)) }
    {
        if claims.len() == places.len() {
            Some(Claimed { places, claims })
        } else {
            None
        }
    }

    /// Whether this place is claimed for `side`.
    pub fn gives(self, place: usize, side: Side) -> bool
        ensures { IsTrue result ↔ (place < length self.entry.claims.now) × (slice_index (winners self.entry.claims.now) place ≡ side_word side) }
    {
        self.claims
            .get(place)
            .is_some_and(|claim| claim.winner == u32::from(side))
    }

    /// Whether the word for the winner of this place names `side`; behind the
    /// end of the claims it is 0.
    pub fn names(self, place: usize, side: Side) -> bool
        ensures { IsTrue result ↔ (slice_index (winners self.entry.claims.now) place ≡ side_word side) }
    {
        self.claims.get(place).map_or(0, |claim| claim.winner) == u32::from(side)
    }
}
