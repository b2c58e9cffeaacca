//! Games in which a place may have no moves: whoever is to move there has
//! lost. Words and answers are of the same form as those of `endless`.
#![tactic(auto)]

ghost use Rattle.std.specs.Prelude.{◌≡◌, ◌+◌, ◌*◌, length, nat_le};
ghost use Rattle.ends.specs.Says.{told, EndsPost, WithoutPost};

mod mend;
pub mod rows;

use endless::words::MOST_PLACES;
use endless::{Refusal, is_game};
use mend::mend;

/// Who wins each place of the game that these words are, and with which plan,
/// over plays that may end, as `endless::solve` says it of plays without end.
/// `work` is lent, at least 65,536 words and 5 for each word of the game and
/// each place that the first word tells: there the places without moves are
/// given one, and the game so made is solved. Where the call is refused, `out`
/// is as it was.
pub fn solve_with_ends(words: &[u32], out: &mut [u32], work: &mut [u32]) -> Result<(), Refusal>
    ensures { EndsPost words.now (length work.old) out.old out.new result }
{
    let places = told(words);
    if !is_enough(words.len(), places, work.len()) {
        return Err(Refusal::Few);
    }
    let (made, work) = work.split_at_mut(words.len() + places);
    let Some(len) = mend(words, made) else {
        return Err(Refusal::NoGame);
    };
    endless::solve(&made[0..len], out, work)
}

/// Writes to `made` the words of a game without ends in which the same plans
/// win from the same places, and says how many they are: a place without moves
/// has one there, to itself, and a weight by which whoever is to move there
/// loses. `made` is lent, as many words as the game has and one for each place
/// that the first word tells.
pub fn without_ends(words: &[u32], made: &mut [u32]) -> Result<usize, Refusal>
    ensures { WithoutPost words.now (length made.old) made.new result }
{
    let places = told(words);
    if made.len() < places || made.len() - places < words.len() {
        return Err(Refusal::Few);
    }
    let Some(len) = mend(words, made) else {
        return Err(Refusal::NoGame);
    };
    if !is_game(&made[0..len]) {
        return Err(Refusal::NoGame);
    }
    Ok(len)
}

/// How many places the first word tells, or as many as a game may have where
/// it tells more.
fn told(words: &[u32]) -> usize
    ensures { result ≡ told words.now }
{
    words
        .first()
        .map_or(0, |places| (*places).min(MOST_PLACES) as usize)
}

// Beside `is_enough` of `endless`, which asks for 4 for each word alone: a constant
// and a summand more would be longer than the two.
/// Whether 65,536 words are lent, and 5 for each word and each place.
fn is_enough(words: usize, places: usize, lent: usize) -> bool
    ensures { result ≡ nat_le (65536 + 5 * (words + places)) lent }
{
    if lent < 65536 {
        return false;
    }
    let each = (lent - 65536) / 5;
    each >= places && each - places >= words
}
