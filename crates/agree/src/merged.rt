//! Alike places are tried: made one by the library, and found by all pairs.
use crate::tally::Tally;
use crate::trial::{Desk, Wrong, by_all_plans};
use allplans::alike::{Pair, alike};
use allplans::checker::Answer;
use allplans::fault::Fault;
use allplans::fine::FineGame;
use allplans::game::{Game, Place};
use allplans::plans;
use quotient::{merge, solve_merged};
use std::alloc::Global;

/// What the library made of a game.
#[derive(Drop)]
struct Merged {
    smaller: FineGame,
    /// Which place of the smaller game each place became.
    to: Vec<u32>,
}

impl Desk {
    /// Makes alike places of a game one, counts its places, those of the smaller
    /// game and the moves there, and says what is wrong with these by all pairs
    /// and all plans, or with the answer that is found through them. By all
    /// pairs something has to be wrong, once the map is changed at a place.
    pub(crate) fn try_merged(
        &mut self,
        game: &Game,
        tally: &mut Tally,
    ) -> Result<Option<Wrong>, Fault> {
        let words = game.words(self.heap)?;
        let mut merged = self.merged(words.as_slice(), game.len())?;
        let pairs = alike(self.heap, game)?;
        let wrong = match &merged {
            None => Some(Wrong::NoAnswer),
            Some(merged) => match wrong_merged(self.heap, game, pairs.as_slice(), merged)? {
                Some(wrong) => Some(wrong),
                None => self.wrong_answer(words.as_slice(), game)?,
            },
        };
        tally.games = tally.games.saturating_add(1);
        if wrong.is_some() {
            tally.disagreed = tally.disagreed.saturating_add(1);
        }
        if let Some(merged) = &mut merged {
            merged.count(tally)?;
            change_map(merged.to.as_mut_slice(), tally.games);
            if !merged.is_by(pairs.as_slice()) {
                tally.refused = tally.refused.saturating_add(1);
            }
        }
        Ok(wrong)
    }

    /// The smaller game of the game that these words are, if the library makes
    /// one.
    fn merged(&mut self, words: &[u32], places: usize) -> Result<Option<Merged>, Fault> {
        let mut to = vec![in self.heap; 0; places]?;
        let mut smaller = vec![in self.heap; 0; words.len()]?;
        let made = merge(
            words,
            to.as_mut_slice(),
            smaller.as_mut_slice(),
            self.work.as_mut_slice(),
        );
        let Ok(len) = made else {
            return Ok(None);
        };
        let smaller = smaller.as_slice().get(..len).ok_or(Fault::NoGame)?;
        let smaller = Game::read(self.heap, smaller)?;
        Ok(Some(Merged { smaller, to }))
    }

    /// What is wrong with the answer through the smaller game, by all plans and
    /// by rounds.
    fn wrong_answer(&mut self, words: &[u32], game: &Game) -> Result<Option<Wrong>, Fault> {
        let solved = solve_merged(words, self.out.as_mut_slice(), self.work.as_mut_slice());
        if solved.is_err() {
            return Ok(Some(Wrong::NoAnswer));
        }
        let answer = Answer::read(self.heap, self.answered(game.len()))?;
        by_all_plans(self.heap, game, &answer)
    }
}

impl Merged {
    fn places(&self) -> &[Place] {
        self.smaller.game.places.as_slice()
    }

    /// Counts the places of the game, those of the smaller one, and its moves.
    fn count(&self, tally: &mut Tally) -> Result<(), Fault> {
        let places = u32::try_from(self.to.len())?;
        tally.add([places, u32::try_from(self.places().len())?, 0]);
        for place in self.places() {
            tally.add([0, 0, u32::try_from(place.moves.len())?]);
        }
        Ok(())
    }

    /// Whether just those places became one that are one of these pairs, and the
    /// places of the smaller game are numbered by the first that became them.
    fn is_by(&self, pairs: &[Pair]) -> bool {
        let to = self.to.as_slice();
        groups(to, pairs) && numbered(to) == Some(self.places().len())
    }

    /// Whether this place became one of its side and weight, with the moves to
    /// what its moves lead to, each once and in ascending order.
    fn is_made_of(&self, heap: Global, here: &Place, place: usize) -> Result<bool, Fault> {
        let part = self.to.as_slice().get(place).copied().unwrap_or(u32::MAX);
        let Some(part) = self.places().get(part as usize) else {
            return Ok(false);
        };
        let moves = self.moves_of(heap, here)?;
        Ok(
            part.whose == here.whose
                && part.weight == here.weight
                && part.moves.as_slice() == moves.as_slice(),
        )
    }

    /// The places of the smaller game to which the moves of this place lead.
    fn moves_of(&self, heap: Global, here: &Place) -> Result<Vec<u32>, Fault> {
        let parts = u32::try_from(self.places().len())?;
        let mut moves = Vec::new(heap);
        for part in 0..parts {
            if self.leads_to(here, part) {
                moves.push(part)?;
            }
        }
        Ok(moves)
    }

    /// Whether a move of this place leads to what became `part`.
    fn leads_to(&self, here: &Place, part: u32) -> bool {
        let to = self.to.as_slice();
        here.moves
            .iter()
            .any(|place| to.get(*place as usize) == Some(&part))
    }
}

/// What is wrong with what the library made of a game, by the pairs that are
/// alike in it, by all pairs of the smaller game, and by all plans of both.
fn wrong_merged(
    heap: Global,
    game: &Game,
    pairs: &[Pair],
    merged: &Merged,
) -> Result<Option<Wrong>, Fault> {
    if !merged.is_by(pairs) {
        return Ok(Some(Wrong::Map));
    }
    for (place, here) in game.places.iter().enumerate() {
        if !merged.is_made_of(heap, here, place)? {
            return Ok(Some(Wrong::Smaller(place)));
        }
    }
    let left = alike(heap, &merged.smaller.game)?;
    if let Some(pair) = left.iter().find(|pair| pair.one != pair.other) {
        return Ok(Some(Wrong::Alike(*pair)));
    }
    let other = other_winner(heap, game, merged)?;
    Ok(other.map(|place| Wrong::SmallerWinner(place)))
}

/// Whether just those places became one that are one of these pairs.
fn groups(to: &[u32], pairs: &[Pair]) -> bool {
    to.iter().enumerate().all(|(one, part)| {
        to.iter().enumerate().all(|(other, too)| (part == too)
            == pairs.contains(&Pair { one, other }))
    })
}

/// How many parts there are, if they are numbered by their first places.
fn numbered(to: &[u32]) -> Option<usize> {
    let mut parts = 0;
    for part in to {
        let part = *part as usize;
        if part > parts {
            return None;
        }
        parts = parts.max(part + 1);
    }
    Some(parts)
}

/// The first place that has another winner by all plans than what it became.
fn other_winner(heap: Global, game: &Game, merged: &Merged) -> Result<Option<usize>, Fault> {
    let winners = plans::winners(heap, game)?;
    let smaller = plans::winners(heap, &merged.smaller.game)?;
    let smaller = smaller.as_slice();
    Ok(
        winners.iter().zip(merged.to.iter()).position(|(winner, part)| smaller.get(*part as usize)
            != Some(winner)),
    )
}

/// Changes what one place became, chosen by `turn`.
fn change_map(to: &mut [u32], turn: u32) {
    let Some(place) = (turn as usize).checked_rem(to.len()) else {
        return;
    };
    if let Some(part) = to.get_mut(place) {
        *part = part.wrapping_add(1);
    }
}
