//! The call that is tried beside `solve`.
use allplans::side::Side;
use endless::Refusal;
use endless::answer::PlaceId;
use endless::reach::attract_to;

/// Writes from where a side can bring every play to a place, as an answer.
pub(crate) fn attractor(
    words: &[u32],
    target: u32,
    side: Side,
    out: &mut [u32],
    work: &mut [u32],
) -> Result<(), Refusal> {
    attract_to(words, PlaceId(target), told_side(side), out, work)
}

/// A side as the library has it.
// No `From`: both types are of other crates.
pub(crate) fn told_side(side: Side) -> endless::side::Side {
    match side {
        Side::Even => endless::side::Side::Even,
        Side::Odd => endless::side::Side::Odd,
    }
}
