//! Games that were looked at.
ghost use Rattle.allplans.specs.Games.{Fine, FineEnds};

use crate::game::Game;

/// A game that is one: each of its places is fine.
#[derive(Drop)]
pub struct FineGame {
    pub game: Game,
    ghost fine: { Fine game.places.items },
}

/// A game in which a place may have no moves: a play that comes there has
/// ended, and whoever is to move has lost it.
#[derive(Drop)]
pub struct EndsGame {
    pub game: Game,
    ghost fine: { FineEnds game.places.items },
}
