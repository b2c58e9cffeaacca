//! Whether a plan allows a round that the other side wins: for each weight of
//! that side's kind ranks show that there is none, or a search back from the
//! places of that weight decides.
ghost use Rattle.std.specs.Prelude.{◌≡◌, ℕ, ◌+◌, ◌*◌, ◌<◌, false, T, ◌↔◌, length, MatchOption, ◌≢◌};
ghost use Rattle.endless.specs.Games.{whose, weight as weigh};
ghost use Rattle.endless.specs.Says.{goes};
ghost use Rattle.endless.specs.Sets.{In};
ghost use Rattle.endless.specs.Sides.{number};
ghost use Rattle.endless.specs.Bits.{members};
ghost use Rattle.endless.specs.Flaws.{Walk, NoRoundOf, RoundOf, RoundsWon, LosesRound};

use crate::bits;
use crate::claim::Claim;
use crate::examination::Examination;
use crate::search_back::SearchBack;

impl Claim<'_> {
    /// Whether the plan allows the move from `from` to `to`.
    pub(crate) fn allows(&self, from: u32, to: u32) -> bool
        requires from { from < length self.now.graph.now }
        ensures { T result ↔ (whose self.now.graph.now from ≡ number self.now.side → to ≡ goes self.now.answer.now from) }
    {
        !self.graph.is_own(self.side, from) || self.answer[2 * from as usize + 1] == to
    }

    /// Whether some place of the set has this weight.
    fn occurs(&self, weight: u32) -> bool
        ensures { result ≡ false → (n : ℕ) → In (members self.now.set.now) n → weigh self.now.graph.now n ≢ weight }
    {
        bits::iter(self.set).any(|place| self.graph.weight(place) == weight)
    }
}

impl Examination<'_, '_> {
    /// Whether a play by the plan can go from `place` through places of the set,
    /// none of them heavier than `heaviest`, back to `place`.
    fn comes_back(&mut self, heaviest: u32, place: u32) -> bool
        requires place { place < length self.old.claim.graph.now }
        ensures same { self.new.claim ≡ self.old.claim }
        ensures back { let c = self.old.claim in In (members c.set.now) place → (T result ↔ Walk c.graph.now (members c.set.now) (number c.side) (goes c.answer.now) heaviest place place) }
    {
        let mut search = SearchBack::new(self.claim, heaviest, place, self.left, self.queue);
        search.trace();
        search.has_found(place)
    }

    /// A place of weight `heaviest` from which a play by the plan can come back
    /// past none that is heavier: each is searched from.
    fn search_each(&mut self, heaviest: u32) -> Option<u32>
        ensures same { self.new.claim ≡ self.old.claim }
        ensures found { let c = self.old.claim in MatchOption result (NoRoundOf c.graph.now (members c.set.now) (number c.side) (goes c.answer.now) heaviest) (λ n. RoundOf c.graph.now (members c.set.now) (number c.side) (goes c.answer.now) heaviest n) }
    {
        let claim = self.claim;
        for place in bits::iter(claim.set) {
            if claim.graph.weight(place) == heaviest {
                if self.comes_back(heaviest, place) {
                    return Some(place);
                }
            }
        }
        None
    }

    /// A place of weight `heaviest` from which a play by the plan can come back
    /// past none that is heavier. Ranks that show that there is none are proposed
    /// and looked at first; where they do not, the place at which they fail is
    /// tried before all others.
    fn round_of_weight(&mut self, heaviest: u32) -> Option<u32>
        ensures same { self.new.claim ≡ self.old.claim }
        ensures found { let c = self.old.claim in MatchOption result (NoRoundOf c.graph.now (members c.set.now) (number c.side) (goes c.answer.now) heaviest) (λ n. RoundOf c.graph.now (members c.set.now) (number c.side) (goes c.answer.now) heaviest n) }
    {
        let claim = self.claim;
        claim.propose(heaviest, self.ranks, self.lent);
        let place = claim.first_rise(heaviest, self.ranks)?;
        if claim.graph.weight(place) == heaviest {
            if self.comes_back(heaviest, place) {
                return Some(place);
            }
        }
        self.search_each(heaviest)
    }

    /// A place of the set through which the plan allows a round that the other
    /// side wins, with that place's weight as the heaviest.
    pub fn losing_round(&mut self) -> Option<u32>
        ensures same { self.new.claim ≡ self.old.claim }
        ensures found { let c = self.old.claim in MatchOption result (RoundsWon c.graph.now (members c.set.now) (number c.side) (goes c.answer.now)) (λ n. In (members c.set.now) n × LosesRound c.graph.now (members c.set.now) (number c.side) (goes c.answer.now) n (weigh c.graph.now n)) }
    {
        let claim = self.claim;
        for weight in 0..256 {
            if weight % 2 != u32::from(claim.side) {
                if claim.occurs(weight) {
                    if let Some(place) = self.round_of_weight(weight) {
                        return Some(place);
                    }
                }
            }
        }
        None
    }
}
