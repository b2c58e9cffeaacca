//! Distances are tried: how many moves a side needs, by the library and by the
//! definition.
use crate::answer::told_side;
use crate::tally::Tally;
use crate::trial::{Desk, Wrong};
use allplans::distances::distances;
use allplans::fault::Fault;
use allplans::game::Game;
use allplans::side::Side;
use distance::{NEVER, distances_to};
use endless::answer::PlaceId;
use std::alloc::{AllocError, Global};
use std::slice;

/// What an answer tells of a place: in how many moves the side can make sure of
/// the target, and a move.
#[derive(Clone, Copy, PartialEq, Eq, Debug)]
struct Told {
    number: u32,
    goes: u32,
}

impl Desk {
    /// Works out in how many moves a side can make sure of a place, counts the
    /// places, those from which it can and their moves, and says whether the
    /// definition has other numbers, for the game or for what the plan leaves of
    /// it; it has to have, once a number is changed.
    pub(crate) fn try_distances(
        &mut self,
        game: &Game,
        target: u32,
        side: Side,
        tally: &mut Tally,
    ) -> Result<Option<Wrong>, Fault> {
        let words = game.words(self.heap)?;
        let measured = distances_to(
            words.as_slice(),
            PlaceId(target),
            told_side(side),
            self.out.as_mut_slice(),
            self.work.as_mut_slice(),
        );
        let mut told = read(self.heap, self.answered(game.len()))?;
        let numbers = distances(self.heap, game, target as usize, side)?;
        count(numbers.as_slice(), tally)?;
        let wrong = if measured.is_err() {
            Some(Wrong::NoAnswer)
        } else if !same_numbers(numbers.as_slice(), told.as_slice()) {
            Some(Wrong::Distances { target, side })
        } else if !keeps_to(self.heap, game, target, side, told.as_slice())? {
            Some(Wrong::Slower { target, side })
        } else {
            None
        };
        if wrong.is_some() {
            tally.disagreed = tally.disagreed.saturating_add(1);
        }
        change_number(told.as_mut_slice(), tally.games);
        if !same_numbers(numbers.as_slice(), told.as_slice()) {
            tally.refused = tally.refused.saturating_add(1);
        }
        Ok(wrong)
    }
}

/// What these words tell, two for each place.
fn read(heap: Global, words: &[u32]) -> Result<Vec<Told>, AllocError> {
    let (pairs, _) = words.as_chunks::<2>();
    pairs
        .iter()
        .map(|[number, goes]| Told {
            number: *number,
            goes: *goes,
        })
        .collect(heap)
}

/// Counts a game by its numbers: the places, those that have one, and the moves
/// from these.
fn count(numbers: &[Option<usize>], tally: &mut Tally) -> Result<(), Fault> {
    tally.games = tally.games.saturating_add(1);
    for number in numbers {
        tally.add(match number {
            Some(moves) => [1, 1, u32::try_from(*moves)?],
            None => [1, 0, 0],
        });
    }
    Ok(())
}

/// Whether these are the numbers that are told.
fn same_numbers(numbers: &[Option<usize>], told: &[Told]) -> bool {
    numbers.len() == told.len()
        && numbers.iter().zip(told).all(|(number, told)| told.number as usize
            == number.unwrap_or(NEVER as usize))
}

/// Whether the plan that is told is one, and takes no more moves than it tells:
/// by the definition these are the numbers of the game in which the side has no
/// other moves.
fn keeps_to(
    heap: Global,
    game: &Game,
    target: u32,
    side: Side,
    told: &[Told],
) -> Result<bool, Fault> {
    let mut kept = Game::new(heap);
    for (here, told) in game.places.iter().zip(told) {
        if !here.moves.contains(&told.goes) {
            return Ok(false);
        }
        let moves = here.steps(side, slice::from_ref(&told.goes));
        kept.add(here.whose, here.weight, moves.to_vec(heap)?)?;
    }
    let numbers = distances(heap, &kept, target as usize, side)?;
    Ok(same_numbers(numbers.as_slice(), told))
}

/// Changes the number of one place, chosen by `turn`.
fn change_number(told: &mut [Told], turn: u32) {
    let Some(place) = (turn as usize).checked_rem(told.len()) else {
        return;
    };
    if let Some(told) = told.get_mut(place) {
        told.number = told.number.wrapping_add(1);
    }
}
