//! Whether a side holds a set of places of a subgame by a plan.
ghost use Rattle.std.specs.Prelude.{◌≡◌, MatchResult};
ghost use Rattle.endless.specs.Says.{goes};
ghost use Rattle.endless.specs.Sets.{Within};
ghost use Rattle.endless.specs.Subgames.{Holds};
ghost use Rattle.endless.specs.Sides.{number};
ghost use Rattle.endless.specs.Bits.{members};
ghost use Rattle.endless.specs.Flaws.{FlawIs};

use crate::answer::PlaceId;
use crate::examination::Examination;
use crate::flaw::Flaw;

impl Examination<'_, '_> {
    /// Whether the side holds the set in the subgame by the answer's moves, or
    /// why not.
    pub fn find_flaw(&mut self) -> Result<(), Flaw>
        ensures same { self.new.claim ≡ self.old.claim }
        ensures found { let c = self.old.claim in Within (members c.set.now) (members c.within.now) → MatchResult result (λ _. Holds c.graph.now (members c.within.now) (members c.set.now) (number c.side) (goes c.answer.now)) (λ f. FlawIs c.graph.now (members c.within.now) (members c.set.now) (number c.side) (goes c.answer.now) f) }
    {
        let claim = self.claim;
        claim.look()?;
        match self.losing_round() {
            Some(place) => Err(Flaw::LosingRound {
                through: PlaceId(place),
                heaviest: claim.graph.weight(place),
            }),
            None => Ok(()),
        }
    }
}
