//! An answer in words: for each place the side that wins it, and a move.
ghost use Rattle.endless.specs.Answers.{WinnerIs, PlanIs};

use crate::side::Side;

/// A place, by its index in the game.
#[derive(Clone, Copy, PartialEq, Eq, Debug)]
pub struct PlaceId(pub u32);

/// The side that wins a place.
#[derive(Clone, Copy, PartialEq, Eq)]
pub struct Winner(pub Side);

// These two read words, two for each place, at `2 * n` and `2 * n + 1`, and no
// slice of pairs: so C has an answer, which may be short or have words behind it.

/// Who wins `place` by this answer: `None` where the answer gives it to
/// neither side.
pub fn won_by(answer: &[u32], place: PlaceId) -> Option<Winner>
    ensures { WinnerIs answer.now place.0 result }
{
    let word = answer.get(2 * place.0 as usize)?;
    let side = Side::try_from(*word).ok()?;
    Some(Winner(side))
}

/// Where the answer's plan goes from `place`: `None` where the answer is too
/// short to say.
pub fn goes_to(answer: &[u32], place: PlaceId) -> Option<PlaceId>
    ensures { PlanIs answer.now place.0 result }
{
    let word = answer.get(2 * place.0 as usize + 1)?;
    Some(PlaceId(*word))
}
