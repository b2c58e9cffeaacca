//! Whether an answer is right: a plain look at places and rounds.
ghost use Rattle.std.specs.Prelude.{◌≡◌, ℕ, ◌+◌, ◌%◌, ◌<◌, true, false, length, IsSome, OnOk, ◌≢◌, slice_index, slice_index_or};
ghost use Rattle.allplans.specs.Checked.{AllWon, Holds, NoWrongRound, RightAnswer};
ghost use Rattle.allplans.specs.Claims.{plan, winners};
ghost use Rattle.allplans.specs.Rounds.{NoRoundIn};
ghost use Rattle.allplans.specs.Sets.{known, unknown};
ghost use Rattle.allplans.specs.Sides.{side_word};

pub use crate::answer::{Answer, Claim};
use crate::claimed::Claimed;
use crate::components::components;
use crate::fault::Fault;
use crate::game::{Game, Place, WEIGHTS};
use crate::side::Side;
use crate::view::{Move, View};
use std::alloc::Global;
use std::collections::VecDeque;
use std::error::Error;
use std::fmt;

/// What is wrong with an answer.
#[derive(Debug, Drop)]
pub enum Wrong {
    /// The answer does not speak of each place.
    Short,
    /// The winner of this place is no side.
    NoSide(usize),
    /// The plan goes from this place where there is no move.
    NoMove(usize),
    /// A play can leave the winner's places from this place.
    Leaves(usize),
    /// By the winner's plan a play can go round these places for ever, and
    /// the other side wins it.
    WrongRound(Vec<usize>),
    /// The ranks of the places speak against the answer, and no round does.
    Unclear,
}

impl fmt::Display for Wrong {
    fn fmt<W: fmt::Write>(&self, f: &mut fmt::Formatter<W>) -> fmt::Result {
        match self {
            Wrong::Short => write!(f, "the answer is too short"),
            Wrong::NoSide(place) => write!(f, "no side wins place {place}"),
            Wrong::NoMove(place) => write!(f, "the plan has no move at place {place}"),
            Wrong::Leaves(place) => write!(f, "a play can leave from place {place}"),
            Wrong::WrongRound(round) => write!(f, "a round of the wrong kind: {round:?}"),
            Wrong::Unclear => write!(f, "the ranks do not fall"),
        }
    }
}

impl Error for Wrong {}

/// Why an answer was not found right.
#[derive(Debug, Drop)]
pub enum Refusal {
    Wrong(Wrong),
    /// It could not be looked at.
    Fault(Fault),
}

impl fmt::Display for Refusal {
    fn fmt<W: fmt::Write>(&self, f: &mut fmt::Formatter<W>) -> fmt::Result {
        match self {
            Refusal::Wrong(wrong) => write!(f, "{wrong}"),
            Refusal::Fault(fault) => write!(f, "{fault}"),
        }
    }
}

impl Error for Refusal {}

impl From<Wrong> for Refusal {
    fn from(wrong: Wrong) -> Refusal {
        Refusal::Wrong(wrong)
    }
}

impl From<Fault> for Refusal {
    fn from(fault: Fault) -> Refusal {
        Refusal::Fault(fault)
    }
}

/// Looks at each place, and then for rounds of the wrong kind.
pub fn check(heap: Global, game: &Game, answer: &Answer) -> Result<(), Refusal>
    ensures { OnOk result (RightAnswer game.now.places.items (winners answer.now.claims.items) (plan answer.now.claims.items)) }
{
    let Some(claimed) = Claimed::new(game.places.as_slice(), answer.claims.as_slice()) else {
        return Err(Refusal::Wrong(Wrong::Short));
    };
    look_at_all(claimed)?;
    check_side(heap, claimed, Side::Even)?;
    check_side(heap, claimed, Side::Odd)?;
    Ok(())
}

/// Looks at each place.
fn look_at_all(claimed: Claimed) -> Result<(), Wrong>
    ensures { OnOk result ((v : ℕ) (d : Place) → v < length claimed.entry.places.now → Holds (slice_index_or claimed.entry.places.now v d) (slice_index (plan claimed.entry.claims.now) v) (winners claimed.entry.claims.now) (slice_index (winners claimed.entry.claims.now) v)) }
{
    for (place, (here, claim)) in claimed.places.iter().zip(claimed.claims).enumerate() {
        look_at(claimed, place, here, *claim)?;
    }
    Ok(())
}

/// Looks for rounds of the wrong kind among the places of a side: by each
/// weight of the other kind.
fn check_side(heap: Global, claimed: Claimed, side: Side) -> Result<(), Refusal>
    ensures { OnOk result (NoWrongRound claimed.entry.places.now (winners claimed.entry.claims.now) (plan claimed.entry.claims.now) (side_word side)) }
{
    for heaviest in 0..WEIGHTS {
        check_weight(
            heap,
            View {
                claimed,
                side,
                heaviest,
            },
        )?;
    }
    Ok(())
}

/// Looks for a round by a place of the view's greatest weight, if that is of
/// the wrong kind.
fn check_weight(heap: Global, view: View) -> Result<(), Refusal>
    ensures { OnOk result ((view.entry.heaviest % 2 ≢ side_word view.entry.side) → NoRoundIn view.entry) }
{
    if Side::of(view.heaviest) == view.side {
        Ok(())
    } else {
        wrong_round(heap, view)
    }
}

/// Looks at a place, and at what is claimed of it.
fn look_at(claimed: Claimed, place: usize, here: &Place, claim: Claim) -> Result<(), Wrong>
    ensures { OnOk result (Holds here.now claim.goes (winners claimed.entry.claims.now) claim.winner) }
{
    let Ok(side) = Side::try_from(claim.winner) else {
        return Err(Wrong::NoSide(place));
    };
    if !here.is_of(side) {
        return if all_won(here.moves.as_slice(), claimed, side) {
            Ok(())
        } else {
            Err(Wrong::Leaves(place))
        };
    }
    if !here.moves.contains(&claim.goes) {
        return Err(Wrong::NoMove(place));
    }
    if claimed.names(claim.goes as usize, side) {
        Ok(())
    } else {
        Err(Wrong::Leaves(place))
    }
}

/// Whether each of the moves goes to where the claims name `side`.
fn all_won(moves: &[u32], claimed: Claimed, side: Side) -> bool
    ensures { result ≡ true → AllWon moves.now (winners claimed.entry.claims.now) (side_word side) }
{
    moves.iter().all(|to| claimed.names(*to as usize, side))
}

/// Looks for a round of a view by a place of its greatest weight.
fn wrong_round(heap: Global, view: View) -> Result<(), Refusal>
    ensures { OnOk result (NoRoundIn view.entry) }
{
    if !view.is_reached() {
        return Ok(());
    }
    let ranks = components(heap, view)?;
    match view.first_rise(ranks.as_slice()) {
        None => Ok(()),
        Some(rise) => Err(Refusal::Wrong(round(heap, view, rise)?)),
    }
}

/// The round by this move, where there is one.
fn round(heap: Global, view: View, along: Move) -> Result<Wrong, Fault> {
    let mut before = search(heap, view, along.to)?;
    let round = way_back(heap, before.as_mut_slice(), along)?;
    Ok(round.map_or(Wrong::Unclear, Wrong::WrongRound))
}

/// The places from the end of a move to its beginning, by the place before
/// each.
fn way_back(
    heap: Global,
    before: &mut [Option<usize>],
    along: Move,
) -> Result<Option<Vec<usize>>, Fault> {
    let mut round = vec![in heap; along.from]?;
    let mut place = along.from;
    while place != along.to {
        let Some(step) = take_step(before, place) else {
            return Ok(None);
        };
        round.push(step)?;
        place = step;
    }
    round.reverse();
    Ok(Some(round))
}

/// The place before this one. It is taken away, so that no way goes by it again.
fn take_step(before: &mut [Option<usize>], place: usize) -> Option<usize>
    ensures { IsSome result → known before.new + 1 ≡ known before.old }
{
    // No `get_mut(place)?.take()`: tried, and that one step fewer is known was not
    // shown of the slice behind the borrowed entry.
    let Some(Some(step)) = before.get(place) else {
        return None;
    };
    let step = *step;
    before[place] = None;
    Some(step)
}

/// For each place that can be reached from `start`: a place before it on a
/// shortest way.
fn search(heap: Global, view: View, start: usize) -> Result<Vec<Option<usize>>, Fault> {
    let places = view.claimed.places.len();
    let mut before = vec![in heap; None; places]?;
    let steps = before.as_mut_slice();
    let mut queue = VecDeque::new(heap);
    queue.push_back(start)?;
    while let Some(place) = queue.pop_front() {
        for to in view.moves(place) {
            let to = *to as usize;
            if view.has(to) && put_before(steps, to, place) {
                queue.push_back(to)?;
            }
        }
    }
    Ok(before)
}

/// Writes down which place comes before `to`, if none is known yet, and says
/// whether it did.
fn put_before(before: &mut [Option<usize>], to: usize, place: usize) -> bool
    ensures new { result ≡ true → unknown before.new + 1 ≡ unknown before.old }
    ensures old { result ≡ false → unknown before.new ≡ unknown before.old }
{
    let Some(None) = before.get(to) else {
        return false;
    };
    before[to] = Some(place);
    true
}

#[cfg(test)]
mod tests {
    use super::*;
    use std::test::Fail;

    // What is said of an answer to a game of one place of weight 0, by which its
    // one move is made.
    fn checked(heap: Global, whose: u32, to: u32, winner: u32) -> Result<(), Refusal> {
        let mut game = Game::new(heap);
        game.add(whose, 0, vec![in heap; to].map_err(Fault::from)?)?;
        check(heap, &game, &Answer::of_lists(heap, &[winner], &[to])?)
    }

    // Behind the end of an answer the definition of a right one reads 0: a play of
    // side 0 may go there, and one of side 1 may not.
    #[test]
    fn behind_the_end_stands_0(rt: HostRuntime) -> Result<(), Fail> {
        let heap = rt.alloc();
        checked(heap, 1, 2, 0)?;
        checked(heap, 0, 5, 0)?;
        for (whose, to) in [(0, 2), (1, 5)] {
            assert!(rt;
                matches!(
                    checked(heap, whose, to, 1),
                    Err(Refusal::Wrong(Wrong::Leaves(0)))
                )
            );
        }
        Ok(())
    }
}
