//! The steps of a play: one side goes by the answer's plan, the other where
//! it likes.
ghost use Rattle.std.specs.Prelude.{◌<◌, ◌↔◌, length, IsTrue};
ghost use Rattle.endless.specs.Graph.{moves};
ghost use Rattle.endless.specs.Sides.{number};
ghost use Rattle.playing.specs.Boards.{Answered, Stepped, ByPlanHere};

use crate::board::Board;
use endless::side::Side;

/// The place that comes after `place` where `side` goes by the plan: at its
/// own places that it wins the plan's move, elsewhere the move with the index
/// `choice`, counted from 0.
pub fn step(board: &Board, side: Side, place: u32, choice: usize) -> u32
    requires answered { Answered board.now.game board.now.answer }
    requires within { place < length board.now.game }
    requires listed { choice < length (moves board.now.game place) }
    ensures { Stepped board.now.game board.now.answer (number side) place choice result }
{
    if goes_by_plan(board, side, place) {
        board.plan(place)
    } else {
        board.moves(place)[choice]
    }
}

/// Whether the plan says where `side` goes from `place`: it is to move there,
/// and wins there.
pub fn goes_by_plan(board: &Board, side: Side, place: u32) -> bool
    requires answered { Answered board.now.game board.now.answer }
    requires within { place < length board.now.game }
    ensures { IsTrue result ↔ ByPlanHere board.now.game board.now.answer (number side) place }
{
    board.whose(place) == side && board.winner(place) == side
}
