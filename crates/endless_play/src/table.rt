//! What a play is played on.
ghost use Rattle.std.specs.Prelude.{◌<◌, ◌↔◌, length, IsTrue};

use endless::side::Side;
use playing::Board;
use std::marker::Model;

/// A solved game, at which of its places a play ends, what they are called,
/// which side is the program's, and how many moves it goes on where no choice
/// of the person comes.
#[derive(Drop)]
pub struct Table<'a> {
    pub board: Board<'a>,
    pub ends: &'a [bool],
    pub names: &'a [String],
    pub side: Side,
    pub moves: u64,
}

// Clauses see all but the names.
impl<'a> Model for Table<'a> {
    ghost use Rattle.endless_play.specs.Settings.{Setting};
    ghost use Rattle.playing.specs.Boards.{Answered};

    ghost Value = { Setting };

    ghost view = { λ t. record { game = t.board.game; answer = t.board.answer; ends = t.ends.now; side = t.side; most_alone = t.moves } };

    ghost invariant = { λ t. Answered t.board.game t.board.answer };
}

impl<'a> Table<'a> {
    ghost use Rattle.endless_play.specs.Settings.{HasChoice, Ends};

    /// Whether the person chooses at a place: it is his move, and there is
    /// more than one.
    pub(crate) fn has_choice(&self, place: u32) -> bool
        requires { place < length self.now.game }
        ensures { IsTrue result ↔ HasChoice self.now place }
    {
        self.board.whose(place) != self.side && self.board.moves(place).len() > 1
    }

    /// Whether a play ends at a place.
    pub(crate) fn is_end(&self, place: u32) -> bool
        ensures { IsTrue result ↔ Ends self.now place }
    {
        self.ends.get(place as usize) == Some(&true)
    }
}
