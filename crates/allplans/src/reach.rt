//! From where a side can bring every play to a place, worked out plainly.
use crate::fault::Fault;
use crate::game::{Game, Place};
use crate::set::PlaceSet;
use std::alloc::Global;

/// For each place whether `side` can bring every play from it to `target`:
/// places are added until nothing can change any more.
// `side` stays a word: callers may ask for any.
pub fn attractor(heap: Global, game: &Game, target: usize, side: u32) -> Result<Vec<bool>, Fault> {
    let mut taken = PlaceSet::new(heap, game.len())?;
    taken.add(target);
    for _ in game.places.iter() {
        for (place, here) in game.places.iter().enumerate() {
            if comes(here, side, &taken) {
                taken.add(place);
            }
        }
    }
    Ok(taken.into_marks())
}

/// Whether `side` can move from here to a place that is taken, or the other
/// side has to.
fn comes(here: &Place, side: u32, taken: &PlaceSet) -> bool {
    let mut moves = here.moves.iter();
    if here.whose == side {
        moves.any(|to| taken.has(*to as usize))
    } else {
        moves.all(|to| taken.has(*to as usize))
    }
}
