//! An answer that is told by names, as `endless_solve` prints it: a line NAME SIDE MOVE for each place.
ghost use Rattle.std.specs.Prelude.{◌≡◌, List, length, map, string_bytes, IfOk, IfErr, ℕ};
ghost use Rattle.std.specs.Option.{option_map};
ghost use Rattle.claims.specs.Answered.{Told, Differ};
ghost use Rattle.claims.specs.Tables.{Tabled};
ghost use Rattle.drawing.specs.Lexed.{meant};
ghost use Rattle.drawing.specs.Telling.{said};
ghost use Rattle.drawing.specs.Answering.{Tells, Says, LookedUp, Aimed, LineTold, AllTold};

use crate::answer_refusal::AnswerRefusal;
use crate::names::Names;
use crate::token::Spelt;
use crate::told;
use claims::{Claim, Claims, NoWords};
use std::alloc::Global;

/// The most bytes of an answer: 16,384 lines with two names of 64 bytes, a side, two blanks and a line end.
pub const MOST_ANSWER_BYTES: usize = 2_162_688;

/// A line by its number, and the names of the places.
#[derive(Clone, Copy)]
struct Line<'a> {
    heap: Global,
    names: &'a Names,
    number: usize,
}

impl<'a> Line<'a> {
    /// The index of the place that the word names.
    fn find(self, word: Spelt<'_>) -> Result<u32, AnswerRefusal>
        ensures { LookedUp self.entry.number self.entry.names.now (meant word.entry) result }
    {
        let name = word.to_name(self.heap)?;
        self.names
            .find(name.as_str())
            .ok_or(AnswerRefusal::Unknown {
                line: self.number,
                name,
            })
    }

    /// The index of the place that the move names, if there is a move.
    fn find_goal(self, word: Option<Spelt<'_>>) -> Result<Option<u32>, AnswerRefusal>
        ensures { Aimed self.entry.number self.entry.names.now (option_map meant word.entry) result }
    {
        match word {
            Some(word) => Ok(Some(self.find(word)?)),
            None => Ok(None),
        }
    }

    /// Notes what the line tells, if it tells anything.
    fn tell(self, line: &str, claims: &mut Claims) -> Result<(), AnswerRefusal>
        requires differ { Differ self.names.now }
        requires many { length claims.old ≡ length self.names.now }
        ensures { (ts : List (Told (List ℕ))) → Tabled self.entry.names.now ts claims.old → LineTold self.entry.number self.entry.names.now ts (said line.now) claims.new result }
    {
        let told = told::read_line(line).map_err(|fault| AnswerRefusal::Fault {
            line: self.number,
            fault,
        })?;
        let Some(told) = told else {
            return Ok(());
        };
        let place = self.find(told.name)?;
        let goal = self.find_goal(told.goal)?;
        let claim = Claim {
            winner: told.side,
            goal,
        };
        if !claims.insert(place as usize, claim) {
            return Err(AnswerRefusal::Twice {
                line: self.number,
                name: told.name.to_name(self.heap)?,
            });
        }
        Ok(())
    }
}

/// What all lines tell.
fn tell_all(heap: Global, names: &Names, text: &str) -> Result<Claims, AnswerRefusal>
    requires { Differ names.now }
    ensures { AllTold names.now text.now result }
{
    let mut claims = Claims::new(heap, names.len() as usize)?;
    for (number, line) in (1..).zip(text.split('\n')) {
        Line {
            heap,
            names,
            number,
        }
        .tell(line, &mut claims)?;
    }
    Ok(claims)
}

/// Reads an answer to the game whose places have these names: a line for each place in any order, NAME SIDE MOVE. It has two words for each place in the order of the names, the side and the index of the place of the move; 4294967295 where a bare `-` stands for none.
pub fn read_answer(heap: Global, text: &str, names: &[String]) -> Result<Vec<u32>, AnswerRefusal>
    ensures tells { IfOk result (λ words. Tells text.now (map string_bytes names.now) words.items) }
    ensures says { IfErr result (λ e. Says text.now (map string_bytes names.now) e) }
{
    if text.len() > MOST_ANSWER_BYTES {
        return Err(AnswerRefusal::TooLong);
    }
    let places = Names::of(heap, names)?;
    let claims = tell_all(heap, &places, text)?;
    match claims.to_words(heap) {
        Ok(words) => Ok(words),
        Err(NoWords::Unclaimed(place)) => Err(AnswerRefusal::Missing {
            name: names[place].clone()?,
        }),
        Err(NoWords::Memory) => Err(AnswerRefusal::Memory),
    }
}
