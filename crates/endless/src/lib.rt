//! Games without end between two sides, on places with weights: who wins each
//! place, and with which plan.
//!
//! A game is a list of words: how many places; then for each place whose
//! move it is, its weight, how many moves it has, and these. An answer is two
//! words for each place: the side that wins it, and a move.
#![tactic(auto)]

ghost use Rattle.std.specs.Prelude.{length};
ghost use Rattle.endless.specs.Promises.{SolvedPost};

pub mod accepted;
pub mod answer;
pub mod attractor;
pub mod bits;
pub mod by_parts;
pub mod claim;
pub mod closed;
mod components;
pub mod desk;
pub mod dominion;
mod escapes;
pub mod examination;
pub mod flaw;
pub mod gather;
pub mod graph;
pub mod layout;
pub mod level;
pub mod look;
pub mod losing_rounds;
pub mod order;
pub mod place;
pub mod positions;
mod ranking;
pub mod ranks;
pub mod reach;
pub mod refusal;
mod search_back;
pub mod side;
pub mod verdict;
pub mod weights;
pub mod words;

pub use refusal::Refusal;
pub use verdict::check;
pub use words::is_game;

/// Who wins each place of the game that these words are, and with which plan:
/// writes two words for each place to `out`, the side that wins it and a
/// place, which at the winner's own places is the move of a plan that wins.
/// `work` is lent, and holds anything before and after. Where the call is
/// refused, `out` is as it was.
pub fn solve(words: &[u32], out: &mut [u32], work: &mut [u32]) -> Result<(), Refusal>
    ensures { SolvedPost words.now (length work.old) out.old out.new result }
{
    let accepted = layout::accept(words, work)?;
    layout::out_room(accepted.game.len(), out.len())?;
    layout::solve_game(accepted, out);
    Ok(())
}
