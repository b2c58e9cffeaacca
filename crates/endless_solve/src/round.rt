//! The places of a round that a plan allows.
ghost use Rattle.std.specs.Prelude.{◌<◌, length};

use endless::answer::{PlaceId, Winner, goes_to, won_by};
use endless::graph::Places;
use endless::side::Side;
use std::alloc::{AllocError, Global};
use std::collections::VecDeque;

/// The places that an answer gives to a side, of those that are no heavier
/// than `heaviest`, and where plays by its plan go from them.
#[derive(Clone, Copy)]
pub(crate) struct Claimed<'a> {
    pub(crate) places: &'a Places<'a>,
    pub(crate) answer: &'a [u32],
    pub(crate) side: Side,
    pub(crate) heaviest: u32,
}

impl<'a> Claimed<'a> {
    fn has(self, place: u32) -> bool {
        place < self.places.len()
            && self.places.weight(place) <= self.heaviest
            && won_by(self.answer, PlaceId(place)) == Some(Winner(self.side))
    }

    /// Whether a play by the plan may go along this move of a place.
    fn allows(self, from: u32, to: u32) -> bool
        requires { from < length self.places.now }
    {
        !self.places.is_own(self.side, from)
            || goes_to(self.answer, PlaceId(from)) == Some(PlaceId(to))
    }

    /// The places of a shortest round through this one, which comes first; none
    /// where there is no round.
    pub(crate) fn round(self, heap: Global, through: u32) -> Result<Vec<u32>, AllocError> {
        let mut search = Search {
            claimed: self,
            through,
            before: vec![in heap; None; self.places.len() as usize]?,
            queue: VecDeque::new(heap),
        };
        search.queue.push_back(through)?;
        // Each place comes into the queue once.
        for _ in 0..=self.places.len() {
            let Some(place) = search.queue.pop_front() else {
                break;
            };
            if search.look_from(place)? {
                return search.way_back(heap, place);
            }
        }
        Ok(Vec::new(heap))
    }
}

/// A search for a round: for each place that was come to the one before it, and
/// the places that were not gone on from yet.
#[derive(Drop)]
struct Search<'a> {
    claimed: Claimed<'a>,
    through: u32,
    before: Vec<Option<u32>>,
    queue: VecDeque<u32>,
}

impl Search<'_> {
    /// Comes to the places that may follow this one. Whether the round is closed.
    fn look_from(&mut self, place: u32) -> Result<bool, AllocError> {
        let claimed = self.claimed;
        if place >= claimed.places.len() {
            return Ok(false);
        }
        for to in claimed.places.moves(place) {
            if !claimed.allows(place, *to) || !claimed.has(*to) {
                continue;
            }
            if *to == self.through {
                return Ok(true);
            }
            self.come(place, *to)?;
        }
        Ok(false)
    }

    /// Comes to a place from another, where it was not come to yet.
    fn come(&mut self, from: u32, to: u32) -> Result<(), AllocError> {
        if let Some(before) = self.before.get_mut(to as usize) {
            if before.is_none() {
                *before = Some(from);
                self.queue.push_back(to)?;
            }
        }
        Ok(())
    }

    /// The places from the first of the round to this one, its last.
    fn way_back(&self, heap: Global, last: u32) -> Result<Vec<u32>, AllocError> {
        let mut round = Vec::new(heap);
        let mut place = last;
        // No way is longer than there are places.
        for _ in 0..self.before.len() {
            round.push(place)?;
            if place == self.through {
                break;
            }
            match self.before.get(place as usize) {
                Some(Some(before)) => place = *before,
                _ => break,
            }
        }
        round.reverse();
        Ok(round)
    }
}
