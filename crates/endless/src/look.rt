//! Whether a plan stays in a set of places: each place is looked at once.
ghost use Rattle.std.specs.Prelude.{◌≡◌, ℕ, ◌+◌, ◌*◌, ◌^◌, ◌<◌, ◌≤◌, true, false, T, ◌↔◌, length, MatchOption, MatchResult, slice_index};
ghost use Rattle.endless.specs.Says.{goes};
ghost use Rattle.endless.specs.Sets.{In};
ghost use Rattle.endless.specs.Sides.{number};
ghost use Rattle.endless.specs.Bits.{members};
ghost use Rattle.endless.specs.Flaws.{StaysAt, Spotted};

use crate::answer::PlaceId;
use crate::bits;
use crate::claim::Claim;
use crate::flaw::Flaw;
use crate::graph::Places;
use crate::side::Side;

/// The first of these moves that leads into the subgame `within` and out of
/// the set.
fn first_out(moves: &[u32], within: &[u32], set: &[u32]) -> Option<u32>
    requires same { length within.now ≡ length set.now }
    requires inside { (k : ℕ) → k < length moves.now → slice_index moves.now k < 32 * length set.now }
    ensures { MatchOption result ((k : ℕ) → k < length moves.now → members within.now (slice_index moves.now k) ≡ true → members set.now (slice_index moves.now k) ≡ true) (λ m. (k : ℕ) × (k < length moves.now) × (slice_index moves.now k ≡ m) × (members within.now m ≡ true) × (members set.now m ≡ false)) }
{
    moves
        .iter()
        .copied()
        .find(|to| bits::has(within, *to) && !bits::has(set, *to))
}

/// What is wrong at a place of the set: at the side's own the plan has to
/// move within the set, at the other's no move may leave it.
fn look_at(
    places: &Places,
    side: Side,
    within: &[u32],
    set: &[u32],
    answer: &[u32],
    place: u32,
) -> Result<(), Flaw>
    requires place { place < length places.now }
    requires sets { length places.now ≤ 32 * length set.now }
    requires answers { 2 * length places.now ≤ length answer.now }
    requires same { length within.now ≡ length set.now }
    ensures { In (members set.now) place → MatchResult result (λ _. StaysAt places.now (members within.now) (members set.now) (number side) (goes answer.now) place) (λ f. Spotted places.now (members within.now) (members set.now) (number side) (goes answer.now) f) }
{
    let moves = places.moves(place);
    if places.is_own(side, place) {
        let to = answer[2 * place as usize + 1];
        if !moves.contains(&to) {
            return Err(Flaw::NoMove(PlaceId(place)));
        }
        if !bits::has(set, to) {
            return Err(Flaw::Leaves(PlaceId(place)));
        }
        return Ok(());
    }
    match first_out(moves, within, set) {
        Some(to) => Err(Flaw::Escape {
            from: PlaceId(place),
            to: PlaceId(to),
        }),
        None => Ok(()),
    }
}

/// What is wrong at the first place of the set at which something is, where
/// the side goes by the answer's moves in the subgame `within`.
pub fn look(
    places: &Places,
    side: Side,
    within: &[u32],
    set: &[u32],
    answer: &[u32],
) -> Result<(), Flaw>
    requires inside { (n : ℕ) → In (members set.now) n → n < length places.now }
    requires sets { length places.now ≤ 32 * length set.now }
    requires answers { 2 * length places.now ≤ length answer.now }
    requires same { length within.now ≡ length set.now }
    requires small { 32 * length set.now < 2 ^ 32 }
    ensures { MatchResult result (λ _. (n : ℕ) → In (members set.now) n → StaysAt places.now (members within.now) (members set.now) (number side) (goes answer.now) n) (λ f. Spotted places.now (members within.now) (members set.now) (number side) (goes answer.now) f) }
{
    bits::iter(set).try_for_each(|place| look_at(places, side, within, set, answer, place))
}

impl Claim<'_> {
    /// What is wrong at the first place of the set at which something is.
    pub fn look(&self) -> Result<(), Flaw>
        ensures { MatchResult result (λ _. (n : ℕ) → In (members self.now.set.now) n → StaysAt self.now.graph.now (members self.now.within.now) (members self.now.set.now) (number self.now.side) (goes self.now.answer.now) n) (λ f. Spotted self.now.graph.now (members self.now.within.now) (members self.now.set.now) (number self.now.side) (goes self.now.answer.now) f) }
    {
        look(
            self.graph.places(),
            self.side,
            self.within,
            self.set,
            self.answer,
        )
    }
}
