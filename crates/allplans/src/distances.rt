//! In how many moves a side can make sure that a play comes to a place, worked
//! out round by round.
ghost use Rattle.std.specs.Prelude.{◌≡◌, ◌==◌, IfOk, map, vec_items};
ghost use Rattle.std.specs.List.{list_all, list_any, zip};
ghost use Rattle.allplans.specs.Distances.{Distances, brings, later, numbered};
ghost use Rattle.allplans.specs.Sides.{side_word};

use crate::fault::Fault;
use crate::game::{Game, Place};
use crate::side::Side;
use std::alloc::{AllocError, Global};

/// For each place the least number of moves in which `side` can make sure that
/// the play comes to `target`, if it can: each round adds the places from which
/// one move more is enough, until there are none.
pub fn distances(
    heap: Global,
    game: &Game,
    target: usize,
    side: Side,
) -> Result<Vec<Option<usize>>, Fault>
    ensures { IfOk result (λ numbers. Distances game.now.places.items (side_word side) target numbers.items) }
{
    let mut numbers = vec![in heap; None; game.len()]?;
    if target < numbers.len() {
        numbers[target] = Some(0);
    }
    let mut moves = 0;
    loop {
        let next = one_more(
            heap,
            game.places.as_slice(),
            side,
            numbers.as_slice(),
            moves + 1,
        )?;
        if next.as_slice() == numbers.as_slice() {
            return Ok(numbers);
        }
        numbers = next;
        moves += 1;
    }
}

/// The numbers, and this one at each place from which one move more than before
/// is enough.
fn one_more(
    heap: Global,
    places: &[Place],
    side: Side,
    numbers: &[Option<usize>],
    moves: usize,
) -> Result<Vec<Option<usize>>, AllocError>
    ensures { IfOk result (λ next. next.items ≡ map (λ p. later (side_word side) numbers.now moves p.0 p.1) (zip places.now numbers.now)) }
{
    places
        .iter()
        .zip(numbers)
        .map(|(here, number)| number_of(here, *number, side, numbers, moves))
        .collect(heap)
}

/// The number of a place in the next round.
fn number_of(
    here: &Place,
    number: Option<usize>,
    side: Side,
    numbers: &[Option<usize>],
    moves: usize,
) -> Option<usize>
    ensures { result ≡ later (side_word side) numbers.now moves here.now number }
{
    if number.is_none() && comes(here, side, numbers) {
        Some(moves)
    } else {
        number
    }
}

/// Whether `side` can move from here to a place that has a number, or the other
/// side has to.
fn comes(here: &Place, side: Side, numbers: &[Option<usize>]) -> bool
    ensures { result ≡ brings (here.now.whose == side_word side) (numbered numbers.now) (vec_items here.now.moves) }
{
    let moves = here.moves.as_slice();
    if here.is_of(side) {
        is_one_numbered(numbers, moves)
    } else {
        are_all_numbered(numbers, moves)
    }
}

fn is_one_numbered(numbers: &[Option<usize>], moves: &[u32]) -> bool
    ensures { result ≡ list_any (numbered numbers.now) moves.now }
{
    moves.iter().any(|to| is_numbered(numbers, *to))
}

fn are_all_numbered(numbers: &[Option<usize>], moves: &[u32]) -> bool
    ensures { result ≡ list_all (numbered numbers.now) moves.now }
{
    moves.iter().all(|to| is_numbered(numbers, *to))
}

fn is_numbered(numbers: &[Option<usize>], place: u32) -> bool
    ensures { result ≡ numbered numbers.now place }
{
    numbers
        .get(place as usize)
        .is_some_and(|number| number.is_some())
}
