//! A game in the making.
use crate::fault::Fault;
use crate::fine::{EndsGame, FineGame};
use crate::game::Game;
use crate::side::Side;
use std::alloc::Global;

/// A game to which places are added, move by move.
#[derive(Drop)]
pub(crate) struct Builder {
    heap: Global,
    game: Game,
}

impl Builder {
    /// No places yet.
    pub(crate) fn new(heap: Global) -> Builder {
        Builder {
            heap,
            game: Game::new(heap),
        }
    }

    /// One more place, with these moves.
    pub(crate) fn place(&mut self, whose: Side, weight: u32, moves: &[u32]) -> Result<(), Fault> {
        let moves = moves.to_vec(self.heap)?;
        self.game.add(u32::from(whose), weight, moves)
    }

    /// One more move of the place that was added last.
    pub(crate) fn go(&mut self, to: u32) -> Result<(), Fault> {
        if let Some(place) = self.game.places.as_mut_slice().last_mut() {
            place.moves.push(to)?;
        }
        Ok(())
    }

    /// The game, where it is one.
    pub(crate) fn finish(self) -> Result<FineGame, Fault> {
        let Builder { game, .. } = self;
        game.checked()
    }

    /// The game, where it is one in which places may have no moves.
    pub(crate) fn finish_with_ends(self) -> Result<EndsGame, Fault> {
        let Builder { game, .. } = self;
        game.checked_with_ends()
    }
}
