//! The winners of a small game, by trying all plans of both sides.
use crate::fault::Fault;
use crate::game::Game;
use crate::set::PlaceSet;
use crate::side::Side;
use std::alloc::Global;
use std::slice;

/// The most plans of a side that are tried: all, where a game has eight
/// places with three moves each.
pub(crate) const MOST_PLANS: u32 = 6561;

/// Who wins a place.
#[derive(Clone, Copy, PartialEq, Eq, Debug)]
pub enum Winner {
    /// This side has a plan that wins here, and the other has none.
    Side(Side),
    /// Each side has a plan that wins here: this never comes.
    Both,
    /// No side has a plan that wins here: this never comes.
    Neither,
}

/// The winner of each place of a game.
pub fn winners(heap: Global, game: &Game) -> Result<Vec<Winner>, Fault> {
    let even = won_by(heap, game, Side::Even)?;
    let odd = won_by(heap, game, Side::Odd)?;
    let winners = even
        .iter()
        .zip(odd.iter())
        .map(|(even, odd)| match (*even, *odd) {
            (true, false) => Winner::Side(Side::Even),
            (false, true) => Winner::Side(Side::Odd),
            (true, true) => Winner::Both,
            (false, false) => Winner::Neither,
        })
        .collect(heap)?;
    Ok(winners)
}

/// For each move, place by place, whether some plan makes it that wins from all
/// places of the side that wins the move's place.
pub fn made(heap: Global, game: &Game, winners: &[Winner]) -> Result<Vec<bool>, Fault> {
    let moves = game.places.iter().fold(0usize, |sum, place| {
        sum.saturating_add(place.moves.len())
    });
    let mut made = vec![in heap; false; moves]?;
    mark_made(heap, game, winners, Side::Even, made.as_mut_slice())?;
    mark_made(heap, game, winners, Side::Odd, made.as_mut_slice())?;
    Ok(made)
}

/// Marks the moves of the plans that win from all places of `side`.
fn mark_made(
    heap: Global,
    game: &Game,
    winners: &[Winner],
    side: Side,
    made: &mut [bool],
) -> Result<(), Fault> {
    try_plans(heap, game, side, |plan, lost| {
        if loses_none(winners, side, lost) {
            plan.mark(winners, made);
        }
    })
}

/// Gives all plans of `side` to `each`, one after the other, with the places
/// that a plan loses.
fn try_plans<F: FnMut(Plan, &PlaceSet)>(
    heap: Global,
    game: &Game,
    side: Side,
    mut each: F,
) -> Result<(), Fault>
    requires { F.IsAlwaysCallable each }
{
    let mut choice = vec![in heap; 0usize; game.len()]?;
    for _ in 0..MOST_PLANS {
        let plan = Plan {
            game,
            side,
            choice: choice.as_slice(),
        };
        let lost = plan.lost(heap)?;
        each(plan, &lost);
        if !next_plan(game, side, choice.as_mut_slice()) {
            return Ok(());
        }
    }
    Err(Fault::ManyPlans)
}

/// Whether none of the places of `side` is lost.
fn loses_none(winners: &[Winner], side: Side, lost: &PlaceSet) -> bool {
    winners.iter().enumerate().all(|(place, winner)| *winner != Winner::Side(side)
        || !lost.has(place))
}

/// Marks one.
fn set(made: &mut [bool], k: usize) {
    if let Some(mark) = made.get_mut(k) {
        *mark = true;
    }
}

/// For each place whether `side` wins from it by some plan.
fn won_by(heap: Global, game: &Game, side: Side) -> Result<Vec<bool>, Fault> {
    let mut won = vec![in heap; false; game.len()]?;
    try_plans(heap, game, side, |_, lost| {
        for (place, won) in won.iter_mut().enumerate() {
            *won = *won || !lost.has(place);
        }
    })?;
    Ok(won)
}

/// Counts on to the next plan of `side`: `choice` has, for each of its
/// places, which of the moves is taken. `false` after the last plan.
// No iterator over plans: one cannot lend what it changes.
pub(crate) fn next_plan(game: &Game, side: Side, choice: &mut [usize]) -> bool {
    for (place, chosen) in game.places.iter().zip(choice.iter_mut()) {
        if place.is_of(side) {
            let last = place.moves.len().saturating_sub(1);
            if *chosen < last {
                *chosen += 1;
                return true;
            }
            *chosen = 0;
        }
    }
    false
}

/// A plan of one side; the other may go anywhere.
#[derive(Clone, Copy)]
struct Plan<'a> {
    game: &'a Game,
    side: Side,
    choice: &'a [usize],
}

impl<'a> Plan<'a> {
    /// Where a play by this plan may go from `place`.
    fn moves(self, place: usize) -> &'a [u32] {
        let Some(here) = self.game.places.get(place) else {
            return &[];
        };
        let chosen = self
            .choice
            .get(place)
            .and_then(|chosen| here.moves.get(*chosen));
        here.steps(self.side, chosen.map_or(&[], |to| slice::from_ref(to)))
    }

    /// Marks the plan's moves at the places that its side wins.
    fn mark(self, winners: &[Winner], made: &mut [bool]) {
        let mut first = 0usize;
        for (place, here) in self.game.places.iter().enumerate() {
            let chosen = self
                .choice
                .get(place)
                .and_then(|chosen| here.moves.get(*chosen));
            let wins = winners.get(place) == Some(&Winner::Side(self.side));
            if wins && here.is_of(self.side) {
                for (k, to) in here.moves.iter().enumerate() {
                    if chosen == Some(to) {
                        set(made, first.saturating_add(k));
                    }
                }
            }
            first = first.saturating_add(here.moves.len());
        }
    }

    /// The places from which a play by this plan can come to a round that the
    /// other side wins, or end where the side is to move.
    fn lost(self, heap: Global) -> Result<PlaceSet, Fault> {
        let mut wrong = PlaceSet::new(heap, self.game.len())?;
        for (place, here) in self.game.places.iter().enumerate() {
            if here.ends_for(self.side)
                || Side::of(here.weight) != self.side
                    && self.reached(heap, place, here.weight)?.has(place)
            {
                wrong.add(place);
            }
        }
        let mut lost = PlaceSet::new(heap, self.game.len())?;
        for place in 0..self.game.len() {
            if wrong.has(place) || self.reached(heap, place, u32::MAX)?.meets(&wrong) {
                lost.add(place);
            }
        }
        Ok(lost)
    }

    /// The places to which a play by this plan can come from `start`, by one
    /// move or more, over places of weight at most `heaviest`.
    fn reached(self, heap: Global, start: usize, heaviest: u32) -> Result<PlaceSet, Fault> {
        let mut reached = PlaceSet::new(heap, self.game.len())?;
        let mut open = vec![in heap; start]?;
        while let Some(place) = open.pop() {
            for to in self.moves(place) {
                let to = *to as usize;
                if self.weighs_at_most(to, heaviest) && reached.add(to) {
                    open.push(to)?;
                }
            }
        }
        Ok(reached)
    }

    fn weighs_at_most(self, place: usize, heaviest: u32) -> bool {
        self.game
            .places
            .get(place)
            .is_some_and(|place| place.weight <= heaviest)
    }
}
