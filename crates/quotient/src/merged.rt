//! The answer of a game through that of the smaller game.
ghost use Rattle.std.specs.Prelude.{◌≡◌, ℕ, ◌+◌, ◌*◌, ◌<◌, ◌≤◌, length, nat_le, slice_index, MatchOption};
ghost use Rattle.endless.specs.Games.{Game, May};
ghost use Rattle.endless.specs.Says.{side, goes};
ghost use Rattle.endless.specs.Graph.{moves};
ghost use Rattle.quotient.specs.Gathering.{Into};
ghost use Rattle.quotient.specs.Carrying.{Carries, SolvedMergedPost};

use crate::smaller::merge;
use endless::graph::Places;
use endless::words::GameWords;
use endless::{Refusal, layout, solve};

/// Who wins each place of the game that these words are, and with which plan,
/// as `solve` tells it, through the smaller game in which places that are alike
/// are one: that is solved, and its answer carried back. `work` is lent, at
/// least 65,536 words and 6 for each word of the game, and holds anything
/// before and after. Where the call is refused, `out` is as it was.
pub fn solve_merged(words: &[u32], out: &mut [u32], work: &mut [u32]) -> Result<(), Refusal>
    ensures { SolvedMergedPost words.now (length work.old) out.old out.new result }
{
    if !is_enough(words.len(), work.len()) {
        return Err(Refusal::Few);
    }
    let Some(game) = GameWords::read(words) else {
        return Err(Refusal::NoGame);
    };
    layout::out_room(game.len(), out.len())?;
    let places = game.len() as usize;
    let (to, work) = work.split_at_mut(places);
    let (smaller, work) = work.split_at_mut(words.len());
    let (answer, work) = work.split_at_mut(2 * places);
    let len = merge(words, to, smaller, work)?;
    solve(&smaller[0..len], answer, work)?;
    let (starts, _) = work.split_at_mut(2 * places);
    let (starts, _) = starts.as_chunks_mut::<2>();
    let places = Places::new(game, starts);
    carry_back(&places, to, answer, out);
    Ok(())
}

/// Whether 65,536 words and 6 for each word of the game are lent.
fn is_enough(words: usize, lent: usize) -> bool
    ensures { result ≡ nat_le (65536 + 6 * words) lent }
{
    lent >= 65536 && (lent - 65536) / 6 >= words
}

/// Writes the answer of the smaller game for the places that became those of it:
/// the side that wins, and a move to some place that became the one that the
/// smaller game's plan names, where there is such a move.
fn carry_back(places: &Places, to: &[u32], answer: &[u32], out: &mut [u32])
    requires to { length places.now ≤ length to.now }
    requires answer { (n : ℕ) → n < length places.now → 2 * slice_index to.now n + 1 < length answer.now }
    requires out { 2 * length places.now ≤ length out.old }
    ensures { Carries places.now to.now answer.now out.old (length places.now) out.new }
{
    for place in 0..places.len() {
        let part = to[place as usize] as usize;
        let at = 2 * place as usize;
        out[at] = answer[2 * part];
        out[at + 1] = move_into(places.moves(place), to, answer[2 * part + 1]);
    }
}

/// The first of these moves to a place that became `part`, or `part` itself
/// where there is none.
fn move_into(moves: &[u32], to: &[u32], part: u32) -> u32
    requires { (k : ℕ) → k < length moves.now → slice_index moves.now k < length to.now }
    ensures { Into moves.now to.now part → (k : ℕ) × (k < length moves.now) × (slice_index moves.now k ≡ result) × (slice_index to.now result ≡ part) }
{
    for place in moves {
        if to[*place as usize] == part {
            return *place;
        }
    }
    part
}
