//! An answer, as it is told.
ghost use Rattle.std.specs.Prelude.{◌≡◌, IfOk, MatchResult};
ghost use Rattle.allplans.specs.Checked.{ReadFrom};
ghost use Rattle.allplans.specs.Claims.{Paired, Unpaired, claims_of, plan, winners};

use crate::checker::{Refusal, Wrong};
use crate::fault::Fault;
use std::alloc::{AllocError, Global};

/// What an answer says of a place: the side that wins it, and where that
/// side's plan goes from it. Any words may be claimed; whether they are a side
/// and a move is for the checker to say.
#[derive(Clone, Copy, PartialEq, Eq, Debug)]
pub struct Claim {
    pub winner: u32,
    pub goes: u32,
}

/// An answer: a claim for each place.
#[derive(Drop)]
pub struct Answer {
    pub claims: Vec<Claim>,
}

impl Answer {
    /// The answer in these words, two for each place.
    pub fn read(heap: Global, words: &[u32]) -> Result<Answer, Fault>
        ensures { IfOk result (λ a. ReadFrom words.now (winners a.claims.items) (plan a.claims.items)) }
    {
        let mut claims = Vec::new(heap);
        let (pairs, _) = words.as_chunks::<2>();
        for &[winner, goes] in pairs {
            claims.push(Claim { winner, goes })?;
        }
        Ok(Answer { claims })
    }

    /// The answer in these two lists, of each place the winner and where the
    /// winner's plan goes. Lists of unequal length are none.
    pub fn of_lists(heap: Global, winners: &[u32], plan: &[u32]) -> Result<Answer, Refusal>
        ensures { MatchResult result (λ a. Paired winners.now plan.now a.claims.items) (λ e. Unpaired winners.now plan.now e) }
    {
        if winners.len() != plan.len() {
            return Err(Refusal::Wrong(Wrong::Short));
        }
        match pair(heap, winners, plan) {
            Ok(claims) => Ok(Answer { claims }),
            Err(_) => Err(Refusal::Fault(Fault::NoMemory)),
        }
    }
}

/// The claims in two lists of one length.
fn pair(heap: Global, winners: &[u32], plan: &[u32]) -> Result<Vec<Claim>, AllocError>
    ensures { IfOk result (λ claims. claims.items ≡ claims_of winners.now plan.now) }
{
    winners
        .iter()
        .zip(plan)
        .map(|(winner, goes)| Claim {
            winner: *winner,
            goes: *goes,
        })
        .collect(heap)
}

#[cfg(test)]
mod tests {
    use super::*;
    use std::test::Fail;

    #[test]
    fn two_lists_are_an_answer(rt: HostRuntime) -> Result<(), Fail> {
        let answer = Answer::of_lists(rt.alloc(), &[0, 1], &[2, 3])?;
        assert_eq!(rt;
            answer.claims.as_slice(),
            [Claim { winner: 0, goes: 2 }, Claim { winner: 1, goes: 3 }].as_slice()
        );
        Ok(())
    }

    #[test]
    fn lists_of_unequal_length_are_short(rt: HostRuntime) {
        for (winners, plan) in [([0, 1].as_slice(), [2].as_slice()), (&[], &[2])] {
            assert!(rt;
                matches!(
                    Answer::of_lists(rt.alloc(), winners, plan),
                    Err(Refusal::Wrong(Wrong::Short))
                )
            );
        }
    }
}
