//! The solution of a game in PGSolver's form, as PGSolver and Oink write it.
ghost use Rattle.std.specs.Prelude.{◌≡◌, ◌<◌, ℕ, List, length, map, Ok, IfOk, IfErr, MatchResult};
ghost use Rattle.claims.specs.Answered.{Told, Differ};
ghost use Rattle.claims.specs.Tables.{Tabled};
ghost use Rattle.pgsolver.specs.Verdicts.{solution};
ghost use Rattle.pgsolver.specs.Answering.{Tells, Says, LookedUp, Aimed, OneTold, AllTold};

use crate::ids::Places;
use crate::refusal::{Slip, Stop};
use crate::solution_refusal::SolutionRefusal;
use crate::verdict::Verdict;
use crate::{MOST_BYTES, Named, line, verdict};
use claims::{Claim, Claims, NoWords};
use std::alloc::Global;

/// The text of a solution, and the places of the nodes.
#[derive(Clone, Copy)]
struct Solution<'a> {
    text: &'a [u8],
    places: &'a Places,
}

impl<'a> Solution<'a> {
    /// The place of the node that the verdict names.
    fn find(self, verdict: Verdict, id: u32) -> Result<u32, SolutionRefusal>
        ensures { LookedUp self.entry.text.now self.entry.places.now verdict id result }
    {
        match self.places.find(id) {
            Some(place) => Ok(place),
            None => Err(SolutionRefusal::Unknown {
                line: line::line_at(self.text, verdict.left),
                id,
            }),
        }
    }

    /// The place of the node that the move names, if there is a move.
    fn find_goal(self, verdict: Verdict) -> Result<Option<u32>, SolutionRefusal>
        ensures { Aimed self.entry.text.now self.entry.places.now verdict result }
    {
        match verdict.goal {
            Some(id) => Ok(Some(self.find(verdict, id)?)),
            None => Ok(None),
        }
    }

    /// Notes what is said of a node.
    fn tell(self, verdict: Verdict, claims: &mut Claims) -> Result<(), SolutionRefusal>
        requires differ { Differ self.places.now }
        requires many { length claims.old ≡ length self.places.now }
        ensures { (ts : List (Told ℕ)) → Tabled self.entry.places.now ts claims.old → OneTold self.entry.text.now self.entry.places.now ts verdict claims.new result }
    {
        let place = self.find(verdict, verdict.id)?;
        let goal = self.find_goal(verdict)?;
        let claim = Claim {
            winner: verdict.winner,
            goal,
        };
        if !claims.insert(place as usize, claim) {
            return Err(SolutionRefusal::Twice {
                line: line::line_at(self.text, verdict.left),
                id: verdict.id,
            });
        }
        Ok(())
    }
}

/// All that is said.
fn tell_all(
    heap: Global,
    text: &[u8],
    places: &Places,
    verdicts: &[Verdict],
) -> Result<Claims, SolutionRefusal>
    requires { Differ places.now }
    ensures { AllTold text.now places.now verdicts.now result }
{
    let mut claims = Claims::new(heap, places.len())?;
    let solution = Solution { text, places };
    for verdict in verdicts {
        solution.tell(*verdict, &mut claims)?;
    }
    Ok(claims)
}

/// What the text says of nodes.
fn read_verdicts(heap: Global, text: &[u8]) -> Result<Vec<Verdict>, SolutionRefusal>
    ensures { MatchResult result (λ v. solution text.now ≡ Ok v.items) (λ e. (ids : List ℕ) → Says text.now ids e) }
{
    match verdict::read_text(heap, text) {
        Ok(verdicts) => Ok(verdicts),
        Err(Stop::At(Slip { fault, left })) => Err(SolutionRefusal::Fault {
            line: line::line_at(text, left),
            fault,
        }),
        Err(Stop::Memory) => Err(SolutionRefusal::Memory),
    }
}

/// Reads the solution of the game whose nodes have these ids: ID WINNER MOVE; for each node in any order, without MOVE where there is none, behind `paritysol N;`, which may be missing. The answer has two words for each node in the order of `nodes`, the side and the index of the node of the move; 4294967295 where there is none.
pub fn read_solution(
    heap: Global,
    text: &[u8],
    nodes: &[Named],
) -> Result<Vec<u32>, SolutionRefusal>
    ensures tells { IfOk result (λ words. Tells text.now (map (λ p. p.id) nodes.now) words.items) }
    ensures says { IfErr result (λ e. Says text.now (map (λ p. p.id) nodes.now) e) }
{
    if text.len() > MOST_BYTES {
        return Err(SolutionRefusal::TooLong);
    }
    let places = Places::named(heap, nodes)?;
    let verdicts = read_verdicts(heap, text)?;
    let claims = tell_all(heap, text, &places, &verdicts)?;
    match claims.to_words(heap) {
        Ok(words) => Ok(words),
        Err(NoWords::Unclaimed(place)) => Err(SolutionRefusal::Missing {
            id: nodes[place].id,
        }),
        Err(NoWords::Memory) => Err(SolutionRefusal::Memory),
    }
}
