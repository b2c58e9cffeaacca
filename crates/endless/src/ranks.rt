//! Ranks that show that a plan allows no round with a given heaviest weight:
//! along each move that it allows the rank does not rise, and it falls at the
//! places of that weight.
ghost use Rattle.std.specs.Prelude.{◌≡◌, ℕ, ◌+◌, ◌*◌, ◌^◌, ◌<◌, ◌≤◌, true, false, T, length, if◌then◌else◌, MatchOption, nat_le, nat_lt};
ghost use Rattle.endless.specs.Games.{whose, weight};
ghost use Rattle.endless.specs.Says.{goes};
ghost use Rattle.endless.specs.Sets.{In};
ghost use Rattle.endless.specs.Sides.{number};
ghost use Rattle.endless.specs.Bits.{members};
ghost use Rattle.endless.specs.Flaws.{Follows, FallsAt};

use crate::bits;
use crate::claim::Claim;

/// Whether a rank may follow another: it is no greater, and smaller where it
/// has to fall.
fn follows(from: u32, to: u32, falls: bool) -> bool
    ensures { result ≡ (if falls then nat_lt to from else nat_le to from) }
{
    if falls { to < from } else { to <= from }
}

// No struct of claim, weight and ranks: `first_rise` alone would make one, for
// one call, since the ranks are lent on to `propose` in between.
impl Claim<'_> {
    /// Whether a place is in the set and not heavier than `heaviest`.
    fn is_light(&self, heaviest: u32, place: u32) -> bool
        ensures place { result ≡ true → place < length self.now.graph.now }
        ensures light { result ≡ false → place < length self.now.graph.now → In (members self.now.set.now) place → weight self.now.graph.now place ≤ heaviest → ⊥ }
    {
        if place >= self.graph.len() {
            return false;
        }
        if !bits::has(self.set, place) {
            return false;
        }
        self.graph.weight(place) <= heaviest
    }

    /// Whether the ranks may follow one another along the move from `place` to
    /// `to`, which counts if the plan allows it and `to` is in the set and not
    /// heavier than `heaviest`.
    fn follows_along(&self, heaviest: u32, ranks: &[u32], place: u32, to: u32) -> bool
        requires place { place < length self.now.graph.now }
        requires ranks { length self.now.graph.now ≤ length ranks.now }
        ensures { to < length self.now.graph.now → result ≡ true → (whose self.now.graph.now place ≡ number self.now.side → to ≡ goes self.now.answer.now place) → In (members self.now.set.now) to → weight self.now.graph.now to ≤ heaviest → Follows self.now.graph.now heaviest ranks.now place to }
    {
        if !self.allows(place, to) {
            return true;
        }
        if !self.is_light(heaviest, to) {
            return true;
        }
        let falls = self.graph.weight(place) == heaviest;
        follows(ranks[place as usize], ranks[to as usize], falls)
    }

    /// Whether the ranks may follow one another along each move that the plan
    /// allows from `place` to a place of the set not heavier than `heaviest`.
    fn falls_at(&self, heaviest: u32, ranks: &[u32], place: u32) -> bool
        requires place { place < length self.now.graph.now }
        requires ranks { length self.now.graph.now ≤ length ranks.now }
        ensures { result ≡ true → FallsAt self.now.graph.now (members self.now.set.now) (number self.now.side) (goes self.now.answer.now) heaviest ranks.now place }
    {
        self.graph
            .moves(place)
            .iter()
            .all(|to| self.follows_along(heaviest, ranks, place, *to))
    }

    /// The first place of the set, not heavier than `heaviest`, at which the ranks
    /// do not follow one another.
    pub(crate) fn first_rise(&self, heaviest: u32, ranks: &[u32]) -> Option<u32>
        requires ranks { length self.now.graph.now ≤ length ranks.now }
        ensures { MatchOption result ((n : ℕ) → In (members self.now.set.now) n → weight self.now.graph.now n ≤ heaviest → FallsAt self.now.graph.now (members self.now.set.now) (number self.now.side) (goes self.now.answer.now) heaviest ranks.now n) (λ n. In (members self.now.set.now) n) }
    {
        bits::iter(self.set).find(|place| {
            self.graph.weight(*place) <= heaviest && !self.falls_at(heaviest, ranks, *place)
        })
    }
}
