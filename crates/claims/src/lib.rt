//! What an answer claims of each place, while its lines are read.
#![tactic(auto)]

ghost use Rattle.std.specs.Prelude.{◌≡◌, ◌<◌, length, replicate, is_none, None, Some, IfOk, if◌then◌else◌, slice_index_or, slice_set};
ghost use Rattle.claims.specs.Tables.{Wording};
ghost use Rattle.claims.specs.declared.NoWords.TheVariants.{Memory};

use endless::side::Side;
use std::alloc::{AllocError, AllocFailed, Global};
use std::marker::Model;

/// The word of a place whose line names no move. It is the number of no place.
pub const NO_MOVE: u32 = 4_294_967_295;

/// What is claimed of a place: the side that wins it, and the place of its
/// move, if it has one.
#[derive(Clone, Copy, PartialEq, Eq, Debug)]
pub struct Claim {
    pub winner: Side,
    pub goal: Option<u32>,
}

/// For each place what is claimed of it, if anything is. A contract sees a
/// list.
#[derive(Drop)]
pub struct Claims {
    claims: Vec<Option<Claim>>,
}

impl Model for Claims {
    ghost use Rattle.std.specs.Prelude.{List, Option};
    ghost use Rattle.claims.specs.declared.Claim.{Claim};

    ghost Value = { List (Option Claim) };

    ghost view = { λ c. c.claims.items };
}

/// Why what is claimed makes no answer.
#[derive(Clone, Copy, PartialEq, Eq, Debug)]
pub enum NoWords {
    /// Nothing is claimed of this place, by its index.
    Unclaimed(usize),
    Memory,
}

impl From<AllocError> for NoWords {
    ghost from_gives = { λ _ r. r ≡ Memory };

    fn from(_e: AllocError) -> NoWords {
        NoWords::Memory
    }
}

impl<T: Drop> From<AllocFailed<T>> for NoWords {
    ghost from_gives = { λ _ r. r ≡ Memory };

    fn from(_e: AllocFailed<T>) -> NoWords {
        NoWords::Memory
    }
}

impl Claims {
    /// So many places, and nothing claimed of any.
    pub fn new(heap: Global, places: usize) -> Result<Claims, AllocError>
        ensures { IfOk result (λ c. c ≡ replicate places None) }
    {
        let claims = vec![in heap; None; places]?;
        Ok(Claims { claims })
    }

    /// Notes what is claimed of a place, and tells whether it is the first.
    pub fn insert(&mut self, place: usize, claim: Claim) -> bool
        requires { place < length self.old }
        ensures first { result ≡ is_none (slice_index_or self.old place None) }
        ensures noted { self.new ≡ (if result then slice_set self.old place (Some claim) else self.old) }
    {
        if self.claims[place].is_some() {
            return false;
        }
        self.claims[place] = Some(claim);
        true
    }

    /// The words of the answer: for each place the side and the place of the
    /// move.
    pub fn to_words(&self, heap: Global) -> Result<Vec<u32>, NoWords>
        ensures { Wording self.now result }
    {
        let mut words = Vec::new(heap);
        for (place, claim) in self.claims.iter().enumerate() {
            let claim = claim.ok_or(NoWords::Unclaimed(place))?;
            words.push(u32::from(claim.winner))?;
            words.push(claim.goal.unwrap_or(NO_MOVE))?;
        }
        Ok(words)
    }
}
