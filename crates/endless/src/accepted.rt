//! A game that can be worked on.
ghost use Rattle.std.specs.Prelude.{◌≤◌, length};
ghost use Rattle.endless.specs.Layout.{lent_for};

use crate::answer::PlaceId;
use crate::refusal::Refusal;
use crate::words::GameWords;

/// A game, and words that are lent to work on it: as many as it takes.
#[derive(Drop)]
pub struct Accepted<'a> {
    pub game: GameWords<'a>,
    pub work: &'a mut [u32],
    pub ghost enough: { lent_for game ≤ length work.now },
}

impl Accepted<'_> {
    ghost use Rattle.std.specs.Prelude.{◌≡◌, ◌<◌, MatchResult};
    ghost use Rattle.endless.specs.declared.refusal.Refusal.TheVariants.{NoPlace};

    /// The index of this place, if the game has it.
    pub fn index(&self, place: PlaceId) -> Result<u32, Refusal>
        ensures { MatchResult result (λ n. (n ≡ place.0) × (n < length self.now.game)) (λ e. (e ≡ NoPlace) × (length self.now.game ≤ place.0)) }
    {
        if place.0 >= self.game.len() {
            return Err(Refusal::NoPlace);
        }
        Ok(place.0)
    }
}
