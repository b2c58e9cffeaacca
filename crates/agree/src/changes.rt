//! Answers of which one word is changed: all ways to look at one have to say
//! the same of it.
use crate::tally::Tally;
use crate::trial::{Desk, Wrong, by_rounds};
use allplans::checker::{Answer, Claim};
use allplans::fault::Fault;
use allplans::game::Game;
use allplans::plays;
use endless::verdict::Rejection;
use endless::{check, solve};
use ends::solve_with_ends;
use std::alloc::Global;

impl Desk {
    /// Solves a game, and changes each word of the answer, one at a time: a
    /// winner to the other side and to what is no side, a move to each place
    /// and to what is none. What is wrong, if not all ways to look at an answer
    /// say the same of one of these.
    pub(crate) fn try_changes(
        &mut self,
        game: &Game,
        tally: &mut Tally,
    ) -> Result<Option<Wrong>, Fault> {
        let words = game.words(self.heap)?;
        let solved = solve(
            words.as_slice(),
            self.out.as_mut_slice(),
            self.work.as_mut_slice(),
        );
        if solved.is_err() {
            return Ok(Some(Wrong::NoAnswer));
        }
        self.change_all(game, Some(words.as_slice()), tally)
    }

    /// The same of a game in which places may have no moves, at which `check`
    /// does not look.
    pub(crate) fn try_changes_with_ends(
        &mut self,
        game: &Game,
        tally: &mut Tally,
    ) -> Result<Option<Wrong>, Fault> {
        let words = game.words(self.heap)?;
        let solved = solve_with_ends(
            words.as_slice(),
            self.out.as_mut_slice(),
            self.work.as_mut_slice(),
        );
        if solved.is_err() {
            return Ok(Some(Wrong::NoAnswer));
        }
        self.change_all(game, None, tally)
    }

    /// Changes each word of the answer that was found.
    fn change_all(
        &mut self,
        game: &Game,
        words: Option<&[u32]>,
        tally: &mut Tally,
    ) -> Result<Option<Wrong>, Fault> {
        tally.games = tally.games.saturating_add(1);
        let answer = Answer::read(self.heap, self.answered(game.len()))?;
        let mut changes = Changes {
            heap: self.heap,
            game,
            words,
            answer,
            work: self.work.as_mut_slice(),
        };
        changes.try_all(tally)
    }
}

/// An answer to a game, of which one claim at a time is changed.
#[derive(Drop)]
struct Changes<'a, 'w> {
    heap: Global,
    game: &'a Game,
    /// The words of the game, where `check` looks at answers to it.
    words: Option<&'a [u32]>,
    answer: Answer,
    work: &'w mut [u32],
}

impl Changes<'_, '_> {
    /// Tries all changes. The last of those of which not all ways say the same.
    fn try_all(&mut self, tally: &mut Tally) -> Result<Option<Wrong>, Fault> {
        let places = u32::try_from(self.game.len())?;
        let mut wrong = None;
        for place in 0..self.game.len() {
            let Some(claim) = self.answer.claims.get(place).copied() else {
                break;
            };
            for winner in 0..3 {
                let changed = Claim { winner, ..claim };
                wrong = self.try_claim(place, claim, changed, tally)?.or(wrong);
            }
            for goes in 0..=places {
                let changed = Claim { goes, ..claim };
                wrong = self.try_claim(place, claim, changed, tally)?.or(wrong);
            }
        }
        Ok(wrong)
    }

    /// Tries the answer with another claim of this place.
    fn try_claim(
        &mut self,
        place: usize,
        claim: Claim,
        changed: Claim,
        tally: &mut Tally,
    ) -> Result<Option<Wrong>, Fault> {
        if changed == claim {
            return Ok(None);
        }
        self.put(place, changed);
        let right = plays::is_right(self.heap, self.game, &self.answer)?;
        tally.add(if right { [1, 1, 0] } else { [1, 0, 1] });
        let agreed = (right || self.means(place, claim, changed))
            && self.is_right_by_rounds()? == right
            && self.check_says(right)?;
        self.put(place, claim);
        if agreed {
            return Ok(None);
        }
        tally.disagreed = tally.disagreed.saturating_add(1);
        Ok(Some(Wrong::Changed {
            place,
            claim: changed,
        }))
    }

    /// Makes another claim of this place.
    fn put(&mut self, place: usize, claim: Claim) {
        if let Some(old) = self.answer.claims.get_mut(place) {
            *old = claim;
        }
    }

    /// Whether the change means anything: a move does only where the winner is
    /// to move.
    fn means(&self, place: usize, claim: Claim, changed: Claim) -> bool {
        changed.winner != claim.winner
            || self
                .game
                .places
                .get(place)
                .is_some_and(|here| here.whose == claim.winner)
    }

    fn is_right_by_rounds(&self) -> Result<bool, Fault> {
        Ok(by_rounds(self.heap, self.game, &self.answer)?.is_none())
    }

    /// Whether `check` says of the answer that it is right, or that it is wrong,
    /// if it looks at such.
    fn check_says(&mut self, right: bool) -> Result<bool, Fault> {
        let Some(words) = self.words else {
            return Ok(true);
        };
        let mut answer = Vec::new(self.heap);
        for claim in self.answer.claims.iter() {
            answer.extend_from_slice(&[claim.winner, claim.goes])?;
        }
        let work = &mut *self.work;
        Ok(match check(words, answer.as_slice(), work) {
            Ok(()) => right,
            Err(Rejection::Wrong(_)) => !right,
            Err(Rejection::Refused(_)) => false,
        })
    }
}
