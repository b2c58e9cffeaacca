//! Why a call does nothing.
ghost use Rattle.std.specs.Prelude.{◌≡◌};
ghost use Rattle.endless.specs.declared.refusal.Refusal.TheVariants.{OutFull};

use crate::layout::Short;

/// Why a call leaves the answer as it was.
#[derive(Clone, Copy, Debug, PartialEq, Eq)]
pub enum Refusal {
    /// Fewer words are lent than 65,536 and 4 for each word of the game.
    Few,
    /// The words are no game.
    NoGame,
    /// The target is no place of the game.
    NoPlace,
    /// The answer has no room: it takes two words for each place.
    OutFull,
}

impl From<Short> for Refusal {
    ghost from_gives = { λ _ r. r ≡ OutFull };

    fn from(_short: Short) -> Refusal {
        Refusal::OutFull
    }
}
