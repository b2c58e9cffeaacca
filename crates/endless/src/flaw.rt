//! What can be wrong with a side's plan for the places given to it.
use crate::answer::PlaceId;

/// Why a plan does not win for its side from the places given to it.
#[derive(Clone, Copy, PartialEq, Eq, Debug)]
pub enum Flaw {
    /// From this place of the side's own the plan's move is no move.
    NoMove(PlaceId),
    /// From this place of the side's own the plan's move leads to a place
    /// that is not given to the side.
    Leaves(PlaceId),
    /// From this place the other side can move to one that is not given to
    /// the side.
    Escape { from: PlaceId, to: PlaceId },
    /// The plan allows a round through this place in which its weight, which
    /// is of the other side's kind, is the heaviest.
    LosingRound { through: PlaceId, heaviest: u32 },
}
