//! All moves that winning plans make: not one plan, but what may be gone by.
#![tactic(auto)]

ghost use Rattle.std.specs.Prelude.{◌≡◌, ℕ, ◌+◌, ◌*◌, ◌≤◌, length, nat_le, slice_index};
ghost use Rattle.endless.specs.Games.{Reads};
ghost use Rattle.endless.specs.View.{words_of};
ghost use Rattle.endless.specs.Checked.{IsAnswer};
ghost use Rattle.moves.specs.Moves.{room, lent_for_moves, Marked, MovesPost};
ghost use Rattle.moves.specs.Marking.{lent_for_tries};

mod led;
mod listing;
mod solved;
mod trying;

use endless::Refusal;
use endless::graph::Places;
use endless::side::Side;
use endless::words::GameWords;
use listing::list_moves;
use solved::{Solved, answer_to, begin};
use trying::try_moves;

/// All moves that some winning plan makes, in the game that these words are:
/// writes to `out` for each place the side that wins it, and then for each
/// move, in the order of the words, 1 where the side that wins the move's
/// place is to move there and some plan that wins for it from all its places
/// makes this move, and else 0. `work` is lent, at least 65,536 words and 9
/// for each word of the game. Where the call is refused, `out` is as it was.
///
/// A move that no plan found so far makes is tried. Where no play by the first
/// plan comes back from where it leads, the plan with this move wins. Else the
/// game in which its place has it alone is solved within the places that its
/// side wins, and the plan found makes one move at each of these. So the time is
/// that of solving the game once, and for each move that is neither made by a
/// plan found before nor avoided so, that of a pass over the game's words and of
/// solving it within these places.
pub fn winning_moves(words: &[u32], out: &mut [u32], work: &mut [u32]) -> Result<(), Refusal>
    ensures { MovesPost words.now (length work.old) out.old out.new result }
{
    if !is_enough(words.len(), work.len()) {
        return Err(Refusal::Few);
    }
    let game = GameWords::read(words).ok_or(Refusal::NoGame)?;
    if out.len() < game.len() as usize + game.move_count() {
        return Err(Refusal::OutFull);
    }
    mark_moves(words, game, out, work);
    Ok(())
}

/// Whether 65,536 words are lent, and 9 for each word of the game.
fn is_enough(words: usize, lent: usize) -> bool
    ensures { result ≡ nat_le (65536 + 9 * words) lent }
{
    lent >= 65536 && (lent - 65536) / 9 >= words
}

/// Writes the winners and the marks: solves the game, marks what the plans
/// found make, and tries the other moves.
fn mark_moves<'a>(words: &'a [u32], game: GameWords<'a>, out: &mut [u32], work: &'a mut [u32])
    requires game { Reads words.now game }
    requires lent { lent_for_moves words.now ≤ length work.old }
    requires room { room game ≤ length out.old }
    ensures marked { Marked game.entry out.new }
    ensures behind { (i : ℕ) → room game.entry ≤ i → slice_index out.new i ≡ slice_index out.old i }
{
    let places = game.len() as usize;
    let moves = game.move_count();
    let (answer, work) = work.split_at_mut(2 * places);
    let (from, work) = work.split_at_mut(moves);
    let (to, work) = work.split_at_mut(moves);
    let (starts, work) = work.split_at_mut(2 * places);
    answer_to(words, answer, work);
    let (starts, _) = starts.as_chunks_mut::<2>();
    let view = Places::new(game, starts);
    list_moves(&view, from, to);
    let solved = Solved {
        words,
        places: &view,
        answer,
        from,
        to,
    };
    mark_solved(solved, out, work);
}

/// Writes the winners and the marks for a solved game: what the answer's plans
/// make, and what is found where the other moves are tried.
fn mark_solved<'a>(solved: Solved<'a>, out: &mut [u32], work: &'a mut [u32])
    requires answer { IsAnswer solved.places.now solved.answer.now }
    requires room { room solved.places.now ≤ length out.old }
    requires lent { lent_for_tries solved.places.now ≤ length work.old }
    ensures marked { Marked solved.entry.places.now out.new }
    ensures behind { (i : ℕ) → room solved.entry.places.now ≤ i → slice_index out.new i ≡ slice_index out.old i }
{
    let places = solved.places.len() as usize;
    begin(solved.answer, places, solved.from.len(), out);
    solved.mark_plan(Side::Even, solved.answer, 0, out);
    solved.mark_plan(Side::Odd, solved.answer, 0, out);
    try_moves(solved, out, work);
}

#[cfg(test)]
mod tests {
    use crate::winning_moves;
    use endless::Refusal;
    use std::test::Fail;

    // 0 is side 0's, weight 1, to 1, 2, 3 or itself; 1 is side 1's, weight 2, to
    // 0; 2 is side 0's, weight 0, to 0 or 1; 3 is side 1's, weight 1, to itself.
    const FOUR: [u32; 21] = [
        4, 0, 1, 4, 1, 2, 3, 0, 1, 2, 1, 0, 0, 0, 2, 0, 1, 1, 1, 1, 3,
    ];

    // From 0 to 1 and back 2 is the heaviest. From 0 to 2 side 0 may go where it
    // goes on to 1 from there, and from 2 to 0 where it goes on to 1: each is by
    // some plan that wins, both are by none. At 0 staying is lost, and so is 3.
    #[test]
    fn four_places(rt: HostRuntime) -> Result<(), Fail> {
        let mut work = vec![in rt.alloc(); 7; 65725]?;
        let mut out = [9; 13];
        assert!(rt; winning_moves(&FOUR, &mut out, work.as_mut_slice()).is_ok());
        assert_eq!(rt; out, [0, 0, 0, 1, 1, 1, 0, 0, 0, 1, 1, 1, 9]);
        Ok(())
    }

    #[test]
    fn refusals_leave_the_words(rt: HostRuntime) -> Result<(), Fail> {
        let mut work = vec![in rt.alloc(); 7; 65725]?;
        let work = work.as_mut_slice();
        let mut out = [9; 11];
        assert_eq!(rt; winning_moves(&FOUR, &mut out, work), Err(Refusal::OutFull));
        assert_eq!(rt;
            winning_moves(&FOUR, &mut out, &mut work[1..]),
            Err(Refusal::Few)
        );
        assert_eq!(rt;
            winning_moves(&[1, 0, 0, 1, 1], &mut out, work),
            Err(Refusal::NoGame)
        );
        assert_eq!(rt; out, [9; 11]);
        Ok(())
    }
}
