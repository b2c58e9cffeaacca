//! Whether an answer is right: a call that looks at it, and trusts nothing of
//! how it was found.
ghost use Rattle.std.specs.Prelude.{◌≡◌, ℕ, ◌*◌, ◌<◌, ◌≤◌, ◌↔◌, length, MatchOption, MatchResult};
ghost use Rattle.endless.specs.Says.{side as says, goes};
ghost use Rattle.endless.specs.Sets.{In, whole};
ghost use Rattle.endless.specs.Subgames.{Solves};
ghost use Rattle.endless.specs.Sides.{number};
ghost use Rattle.endless.specs.Bits.{members};
ghost use Rattle.endless.specs.Checked.{Tabled, ReasonIs, SideChecked, CheckedPost};
ghost use Rattle.endless.specs.declared.verdict.Reason.TheVariants as reasons;
ghost use Rattle.endless.specs.declared.verdict.Rejection.TheVariants.{Refused, Wrong};

use crate::accepted::Accepted;
use crate::answer::{PlaceId, Winner, won_by};
use crate::claim::Claim;
use crate::examination::Examination;
use crate::flaw::Flaw;
use crate::graph::Graph;
use crate::layout::{Layout, Short};
use crate::refusal::Refusal;
use crate::side::Side;
use crate::{bits, layout};

/// Why an answer is none.
#[derive(Clone, Copy, PartialEq, Eq, Debug)]
pub enum Reason {
    /// It has fewer than two words for each place.
    Short,
    /// It gives this place to neither side.
    NoSide(PlaceId),
    /// This side's plan does not win from the places given to it.
    Plan { side: Side, flaw: Flaw },
}

/// Why `check` does not say that an answer is right.
#[derive(Clone, Copy, PartialEq, Eq, Debug)]
pub enum Rejection {
    /// The words cannot be worked on.
    Refused(Refusal),
    /// The answer is wrong.
    Wrong(Reason),
}

impl From<Refusal> for Rejection {
    ghost from_gives = { λ refusal r. r ≡ Refused refusal };

    fn from(refusal: Refusal) -> Rejection {
        Rejection::Refused(refusal)
    }
}

impl From<Reason> for Rejection {
    ghost from_gives = { λ reason r. r ≡ Wrong reason };

    fn from(reason: Reason) -> Rejection {
        Rejection::Wrong(reason)
    }
}

impl From<Short> for Rejection {
    ghost from_gives = { λ _ r. r ≡ Wrong reasons.Short };

    fn from(_short: Short) -> Rejection {
        Rejection::Wrong(Reason::Short)
    }
}

/// Whether the answer is one to the game that these words are: two words for
/// each place, the side that wins it and a place, which at the winner's own
/// places is the move of a plan that wins. Words behind these do not count.
/// `work` is lent, and holds anything before and after.
pub fn check(words: &[u32], answer: &[u32], work: &mut [u32]) -> Result<(), Rejection>
    ensures { CheckedPost words.now (length work.old) answer.now result }
{
    let accepted = layout::accept(words, work)?;
    layout::out_room(accepted.game.len(), answer.len())?;
    check_game(accepted, answer)?;
    Ok(())
}

/// The first place that the answer gives to neither side.
fn first_sideless(answer: &[u32], places: u32) -> Option<u32>
    ensures { MatchOption result ((n : ℕ) → n < places → says answer.now n < 2) (λ n. (n < places) × (2 ≤ says answer.now n)) }
{
    (0..places).find(|place| won_by(answer, PlaceId(*place)).is_none())
}

/// Makes the set the places that the answer gives to `side`.
pub fn gather_given(answer: &[u32], side: Side, places: u32, set: &mut [u32])
    requires { places ≤ 32 * length set.old }
    ensures { (j : ℕ) → (In (members set.new) j ↔ ((j < places) × (says answer.now j ≡ number side))) }
{
    bits::fill(set, 0);
    for place in 0..places {
        if won_by(answer, PlaceId(place)) == Some(Winner(side)) {
            bits::insert(set, place);
        }
    }
}

/// An answer that is checked: the graph, the set of all its places, and what is
/// lent for that, two sets, a queue and ranks, and more for what proposes the
/// ranks.
#[derive(Drop)]
struct Checking<'a> {
    graph: Graph<'a>,
    answer: &'a [u32],
    all: &'a [u32],
    set: &'a mut [u32],
    left: &'a mut [u32],
    queue: &'a mut [u32],
    ranks: &'a mut [u32],
    lent: &'a mut [u32],
    ghost answers: { 2 * length graph ≤ length answer.now },
    ghost tabled: { Tabled graph all.now set.now left.now queue.now ranks.now },
}

impl Checking<'_> {
    /// Whether the plan of `winner` wins from the places given to it, or why not.
    fn check_side(&mut self, winner: Side) -> Result<(), Reason>
        ensures graph { self.new.graph ≡ self.old.graph }
        ensures answer { self.new.answer.now ≡ self.old.answer.now }
        ensures checked { SideChecked self.old.graph self.old.answer.now winner result }
    {
        let graph = &self.graph;
        let set = &mut *self.set;
        gather_given(self.answer, winner, graph.len(), set);
        let claim = Claim {
            graph,
            side: winner,
            answer: self.answer,
            set,
            within: self.all,
        };
        let mut examination = Examination {
            claim,
            left: self.left,
            queue: self.queue,
            ranks: self.ranks,
            lent: self.lent,
        };
        examination
            .find_flaw()
            .map_err(|flaw| Reason::Plan { side: winner, flaw })
    }
}

/// Whether an answer with two words for each place is one, or why not.
fn check_game<'a>(accepted: Accepted<'a>, answer: &'a [u32]) -> Result<(), Reason>
    requires { 2 * length accepted.game ≤ length answer.now }
    ensures { MatchResult result (λ _. Solves accepted.entry.game (whole accepted.entry.game) (says answer.now) (goes answer.now)) (λ reason. ReasonIs accepted.entry.game answer.now reason) }
{
    let places = accepted.game.len();
    if let Some(place) = first_sideless(answer, places) {
        return Err(Reason::NoSide(PlaceId(place)));
    }
    let Layout {
        graph,
        escapes,
        all,
        rest,
        ..
    } = layout::lay_out(accepted);
    let (set, rest) = rest.split_at_mut(all.len());
    let (left, rest) = rest.split_at_mut(all.len());
    let (queue, lent) = rest.split_at_mut(places as usize + 1);
    let mut checking = Checking {
        graph,
        answer,
        all,
        set,
        left,
        queue,
        ranks: escapes,
        lent,
    };
    checking.check_side(Side::Even)?;
    checking.check_side(Side::Odd)
}
