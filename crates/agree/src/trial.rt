//! A game is tried: solved, and the answer compared.
ghost use Rattle.std.specs.Prelude.{IfNone, IfOk};
ghost use Rattle.allplans.specs.Checked.{RightAnswer};
ghost use Rattle.allplans.specs.Claims.{plan, winners};

use crate::answer::attractor;
use crate::tally::Tally;
use allplans::alike::Pair;
use allplans::checker::{Answer, Claim, Refusal};
use allplans::fault::Fault;
use allplans::game::{Game, MOST_PLACES};
use allplans::plans::Winner;
use allplans::side::Side;
use allplans::{checker, plans, reach};
use endless::verdict::Rejection;
use endless::{check, solve};
use ends::solve_with_ends;
use moves::winning_moves;
use std::alloc::Global;
use std::fmt;

/// The most words that a game here has: as many places as there may be with
/// three moves each, or fewer places with more.
const MOST_WORDS: usize = 1 + MOST_PLACES * 6;

/// What was found wrong.
// In an `Option`, as no error: it is what is asked for here, and `?` passes on why it cannot be told.
#[derive(Drop)]
pub(crate) enum Wrong {
    /// The solver gave no answer.
    NoAnswer,
    /// `check` does not say that the solver's answer is right.
    Check(Rejection),
    /// Not all ways say the same of the answer with another claim of a place.
    Changed { place: usize, claim: Claim },
    /// The attractor of a place for a side is another.
    Attractor { target: u32, side: Side },
    /// The definition has other numbers of moves to a place for a side.
    Distances { target: u32, side: Side },
    /// The plan for a side takes more moves to a place than it tells, or is none.
    Slower { target: u32, side: Side },
    /// Other places became one than those that are alike by all pairs, or they
    /// are numbered otherwise.
    Map,
    /// This place became one of another side or weight, or with other moves.
    Smaller(usize),
    /// These two places of the smaller game are alike.
    Alike(Pair),
    /// All plans have another winner here than in the smaller game.
    SmallerWinner(usize),
    /// All plans have another winner here.
    Winner(usize),
    /// All plans say otherwise of the move with this index in the words.
    Mark(usize),
    /// The checker says so.
    Checker(checker::Wrong),
}

impl fmt::Display for Wrong {
    fn fmt<W: fmt::Write>(&self, f: &mut fmt::Formatter<W>) -> fmt::Result {
        match self {
            Wrong::NoAnswer => write!(f, "no answer"),
            Wrong::Check(rejection) => write!(f, "check says {rejection:?}"),
            Wrong::Changed { place, claim } => {
                write!(f, "looked at in turn with {claim:?} at place {place}")
            }
            Wrong::Attractor { target, side } => {
                write!(f, "another attractor of place {target} for side {side}")
            }
            Wrong::Distances { target, side } => {
                write!(
                    f,
                    "other numbers of moves to place {target} for side {side}"
                )
            }
            Wrong::Slower { target, side } => {
                write!(
                    f,
                    "more moves by the plan to place {target} for side {side}"
                )
            }
            Wrong::Map => write!(f, "all pairs make other places one"),
            Wrong::Smaller(place) => write!(f, "place {place} became another one"),
            Wrong::Alike(Pair { one, other }) => {
                write!(f, "places {one} and {other} of the smaller game are alike")
            }
            Wrong::SmallerWinner(place) => {
                write!(
                    f,
                    "all plans have another winner at place {place} than in the smaller game"
                )
            }
            Wrong::Winner(place) => write!(f, "all plans have another winner at place {place}"),
            Wrong::Mark(index) => write!(f, "all plans say otherwise of move {index}"),
            Wrong::Checker(wrong) => write!(f, "{wrong}"),
        }
    }
}

/// Memory for the solver, used again for each game.
#[derive(Drop)]
pub(crate) struct Desk {
    pub(crate) heap: Global,
    pub(crate) out: Vec<u32>,
    pub(crate) work: Vec<u32>,
}

impl Desk {
    pub(crate) fn new(heap: Global) -> Result<Desk, Fault> {
        let out = vec![in heap; 0; 2 * MOST_PLACES]?;
        let work = vec![in heap; 0; 8 * MOST_WORDS]?;
        Ok(Desk { heap, out, work })
    }

    /// Solves a game, counts it, and says what is wrong with the answer, if
    /// `check` or `compare` finds anything.
    pub(crate) fn try_game<F: Fn(Global, &Game, &Answer) -> Result<Option<Wrong>, Fault>>(
        &mut self,
        game: &Game,
        compare: &F,
        tally: &mut Tally,
    ) -> Result<Option<Wrong>, Fault>
        requires { F.IsAlwaysCallable compare.now }
    {
        let words = game.words(self.heap)?;
        let solved = solve(
            words.as_slice(),
            self.out.as_mut_slice(),
            self.work.as_mut_slice(),
        );
        let checked = check(
            words.as_slice(),
            self.out.as_slice(),
            self.work.as_mut_slice(),
        );
        let wrong = match (solved, checked) {
            (Err(_), _) => Some(Wrong::NoAnswer),
            (Ok(()), Err(rejection)) => Some(Wrong::Check(rejection)),
            (Ok(()), Ok(())) => None,
        };
        self.compare(game, wrong, compare, tally)
    }

    /// The same of a game in which places may have no moves, at which `check`
    /// does not look.
    pub(crate) fn try_ends(
        &mut self,
        game: &Game,
        tally: &mut Tally,
    ) -> Result<Option<Wrong>, Fault> {
        let words = game.words(self.heap)?;
        let solved = solve_with_ends(
            words.as_slice(),
            self.out.as_mut_slice(),
            self.work.as_mut_slice(),
        );
        let wrong = match solved {
            Ok(()) => None,
            Err(_) => Some(Wrong::NoAnswer),
        };
        self.compare(game, wrong, &by_all_plans, tally)
    }

    /// Counts a game by its answer, and says what is wrong with that, if it was
    /// found already or `compare` finds anything; rounds have to, once a winner
    /// is changed.
    fn compare<F: Fn(Global, &Game, &Answer) -> Result<Option<Wrong>, Fault>>(
        &self,
        game: &Game,
        wrong: Option<Wrong>,
        compare: &F,
        tally: &mut Tally,
    ) -> Result<Option<Wrong>, Fault>
        requires { F.IsAlwaysCallable compare.now }
    {
        let mut found = Answer::read(self.heap, self.answered(game.len()))?;
        tally.count(&found);
        let wrong = match wrong {
            Some(wrong) => Some(wrong),
            None => compare(self.heap, game, &found)?,
        };
        if wrong.is_some() {
            tally.disagreed = tally.disagreed.saturating_add(1);
        }
        change_winner(found.claims.as_mut_slice(), tally.games);
        if by_rounds(self.heap, game, &found)?.is_some() {
            tally.refused = tally.refused.saturating_add(1);
        }
        Ok(wrong)
    }

    /// Works out an attractor, counts its places and the others, and says
    /// whether a plain way has others; it has to have, once a place is
    /// changed.
    pub(crate) fn try_attractor(
        &mut self,
        game: &Game,
        target: u32,
        side: Side,
        tally: &mut Tally,
    ) -> Result<Option<Wrong>, Fault> {
        let words = game.words(self.heap)?;
        let solved = attractor(
            words.as_slice(),
            target,
            side,
            self.out.as_mut_slice(),
            self.work.as_mut_slice(),
        );
        let mut found = Answer::read(self.heap, self.answered(game.len()))?;
        tally.count(&found);
        let plain = reach::attractor(self.heap, game, target as usize, u32::from(side))?;
        let right = solved.is_ok() && same_places(plain.as_slice(), found.claims.as_slice(), side);
        change_winner(found.claims.as_mut_slice(), tally.games);
        if !same_places(plain.as_slice(), found.claims.as_slice(), side) {
            tally.refused = tally.refused.saturating_add(1);
        }
        if right {
            return Ok(None);
        }
        tally.disagreed = tally.disagreed.saturating_add(1);
        Ok(Some(Wrong::Attractor { target, side }))
    }

    /// The words of the answer for so many places.
    pub(crate) fn answered(&self, places: usize) -> &[u32] {
        let out = self.out.as_slice();
        out.get(..places.saturating_mul(2)).unwrap_or(out)
    }
}

/// What is wrong with an answer by trying all plans of both sides, and by
/// rounds: where they find nothing, it is right.
pub(crate) fn by_all_plans(
    heap: Global,
    game: &Game,
    answer: &Answer,
) -> Result<Option<Wrong>, Fault>
    ensures { IfOk result (λ wrong. IfNone wrong (RightAnswer game.now.places.items (winners answer.now.claims.items) (plan answer.now.claims.items))) }
{
    let winners = plans::winners(heap, game)?;
    match first_other(winners.as_slice(), answer.claims.as_slice()) {
        Some(place) => Ok(Some(Wrong::Winner(place))),
        None => by_rounds(heap, game, answer),
    }
}

/// The same of a game without ends, and what is wrong with the moves that
/// `winning_moves` marks in it.
pub(crate) fn by_all_plans_and_moves(
    heap: Global,
    game: &Game,
    answer: &Answer,
) -> Result<Option<Wrong>, Fault>
    ensures { IfOk result (λ wrong. IfNone wrong (RightAnswer game.now.places.items (winners answer.now.claims.items) (plan answer.now.claims.items))) }
{
    match other_mark(heap, game)? {
        Some(wrong) => Ok(Some(wrong)),
        None => by_all_plans(heap, game, answer),
    }
}

/// What is wrong with an answer by rounds alone: where they find nothing, it
/// is right.
pub(crate) fn by_rounds(heap: Global, game: &Game, answer: &Answer) -> Result<Option<Wrong>, Fault>
    ensures { IfOk result (λ wrong. IfNone wrong (RightAnswer game.now.places.items (winners answer.now.claims.items) (plan answer.now.claims.items))) }
{
    match checker::check(heap, game, answer) {
        Ok(()) => Ok(None),
        Err(Refusal::Wrong(wrong)) => Ok(Some(Wrong::Checker(wrong))),
        Err(Refusal::Fault(fault)) => Err(fault),
    }
}

/// The first move, in the order of the words, of which `winning_moves` says
/// otherwise than all plans whether a winning plan makes it.
fn other_mark(heap: Global, game: &Game) -> Result<Option<Wrong>, Fault> {
    let winners = plans::winners(heap, game)?;
    let made = plans::made(heap, game, winners.as_slice())?;
    let words = game.words(heap)?;
    let lent = words.len().saturating_mul(9).saturating_add(65536);
    let mut marks = vec![in heap; 0; words.len()]?;
    let mut work = vec![in heap; 0; lent]?;
    if winning_moves(words.as_slice(), marks.as_mut_slice(), work.as_mut_slice()).is_err() {
        return Ok(Some(Wrong::NoAnswer));
    }
    let marks = marks.as_slice().get(game.len()..).unwrap_or(&[]);
    let other = made
        .iter()
        .zip(marks)
        .position(|(made, mark)| *made != (*mark == 1));
    Ok(other.map(|index| Wrong::Mark(index)))
}

/// Gives one place, chosen by `turn`, to the other side.
fn change_winner(claims: &mut [Claim], turn: u32) {
    let Some(place) = (turn as usize).checked_rem(claims.len()) else {
        return;
    };
    if let Some(claim) = claims.get_mut(place) {
        let winner = Side::try_from(claim.winner).map_or(Side::Even, |side| side.other());
        claim.winner = u32::from(winner);
    }
}

/// The first place that the answer does not give to the one side that wins it.
fn first_other(winners: &[Winner], claims: &[Claim]) -> Option<usize> {
    winners.iter().enumerate().position(|(place, winner)| {
        let claimed = claims
            .get(place)
            .and_then(|claim| Side::try_from(claim.winner).ok());
        claimed.map(|side| Winner::Side(side)) != Some(*winner)
    })
}

/// Whether the answer gives `side` just the places that are taken.
fn same_places(taken: &[bool], claims: &[Claim], side: Side) -> bool {
    taken.len() == claims.len()
        && taken.iter().zip(claims).all(|(taken, claim)| *taken
            == (claim.winner == u32::from(side)))
}
