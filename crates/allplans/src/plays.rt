//! Whether an answer to a small game is right, by trying all plays: each side
//! goes by the answer's plan, against all plans of the other.
use crate::answer::Answer;
use crate::claimed::Claimed;
use crate::fault::Fault;
use crate::game::Game;
use crate::plans::{MOST_PLANS, next_plan};
use crate::side::Side;
use std::alloc::Global;

/// Whether each place is given to a side that wins the play from it, and stays
/// among its places, whatever plan the other side goes by.
pub fn is_right(heap: Global, game: &Game, answer: &Answer) -> Result<bool, Fault> {
    let Some(claimed) = Claimed::new(game.places.as_slice(), answer.claims.as_slice()) else {
        return Ok(false);
    };
    let is_given = claimed
        .claims
        .iter()
        .all(|claim| Side::try_from(claim.winner).is_ok());
    Ok(is_given && wins(heap, game, claimed, Side::Even)? && wins(heap, game, claimed, Side::Odd)?)
}

/// Whether `side` wins from all places that are given to it, against all plans
/// of the other.
fn wins(heap: Global, game: &Game, claimed: Claimed, side: Side) -> Result<bool, Fault> {
    let mut replies = vec![in heap; 0usize; game.len()]?;
    for _ in 0..MOST_PLANS {
        let plays = Plays {
            claimed,
            side,
            replies: replies.as_slice(),
        };
        if !plays.are_won() {
            return Ok(false);
        }
        if !next_plan(game, side.other(), replies.as_mut_slice()) {
            return Ok(true);
        }
    }
    Err(Fault::ManyPlans)
}

/// The plays in which `side` goes by the answer's plan, and the other by one of
/// its own: which of the moves it takes, at each of its places.
#[derive(Clone, Copy)]
struct Plays<'a> {
    claimed: Claimed<'a>,
    side: Side,
    replies: &'a [usize],
}

impl Plays<'_> {
    /// Whether the side wins the play from each place that is given to it.
    fn are_won(self) -> bool {
        (0..self.claimed.places.len()).all(|place| !self.claimed.gives(place, self.side)
            || self.is_won(place))
    }

    /// Whether the play from `start` stays among the places of the side, and is
    /// won by it: it ends where the other is to move, or goes round. After as
    /// many moves as there are places it does so, and after as many more it has
    /// been all the way round.
    fn is_won(self, start: usize) -> bool {
        let places = self.claimed.places.len();
        let mut place = start;
        let mut heaviest = 0;
        for moved in 0..places.saturating_mul(2) {
            let Some(to) = self.next(place) else {
                return self.has_ended_well(place);
            };
            if moved >= places {
                heaviest = heaviest.max(self.weight(place));
            }
            place = to;
        }
        Side::of(heaviest) == self.side
    }

    /// The place that comes after this one, if that is by a move and is given
    /// to the side.
    fn next(self, place: usize) -> Option<usize> {
        let here = self.claimed.places.get(place)?;
        let to = if here.is_of(self.side) {
            let goes = self.claimed.claims.get(place)?.goes;
            here.moves.iter().copied().find(|to| *to == goes)?
        } else {
            here.moves.get(*self.replies.get(place)?).copied()?
        } as usize;
        self.claimed.gives(to, self.side).then_some(to)
    }

    /// Whether a play that has come here ends, and the other side was to move.
    fn has_ended_well(self, place: usize) -> bool {
        self.claimed
            .places
            .get(place)
            .is_some_and(|here| here.ends_for(self.side.other()))
    }

    fn weight(self, place: usize) -> u32 {
        self.claimed.places.get(place).map_or(0, |here| here.weight)
    }
}
