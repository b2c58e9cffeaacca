//! The solver for C and C++: a slice is a pointer and a length.
#![tactic(auto)]

ghost use Rattle.std.specs.Prelude.{ℕ, length, ◌≡◌, Result};
ghost use Rattle.endless.specs.Promises.{SolvedPost};
ghost use Rattle.endless.specs.Reaching.{ReachPost};
ghost use Rattle.endless.specs.Checked.{CheckedPost};
ghost use Rattle.endless.specs.Sides.{number as side-number};
ghost use Rattle.endless.specs.declared.refusal.Refusal.{Refusal as Refused};
ghost use Rattle.endless.specs.declared.verdict.Rejection.{Rejection as Rejected};
ghost use Rattle.distance.specs.Distances.{DistancesPost};
ghost use Rattle.moves.specs.Moves.{MovesPost};
ghost use Rattle.quotient.specs.Promises.{MergedPost};
ghost use Rattle.quotient.specs.Carrying.{SolvedMergedPost};
ghost use Rattle.endless_c.specs.Codes.{refused, code, told, check_code, word_side};

use distance::distances_to;
use endless::answer::PlaceId;
use endless::reach::attract_to;
use endless::side::Side;
use endless::verdict::Rejection;
use endless::{Refusal, check, solve};
use moves::winning_moves;
use quotient::{merge, solve_merged};

/// The number that C gets for a refusal: 1 out full, 2 no game, 3 few, 4 no
/// such place.
fn refused(refusal: Refusal) -> u32
    ensures { result ≡ refused refusal }
{
    match refusal {
        Refusal::OutFull => 1,
        Refusal::NoGame => 2,
        Refusal::Few => 3,
        Refusal::NoPlace => 4,
    }
}

/// The number that C gets for what a call did: 0 done, else the refusal's.
fn number(done: Result<(), Refusal>) -> u32
    ensures { result ≡ code done }
{
    match done {
        Ok(()) => 0,
        Err(refusal) => refused(refusal),
    }
}

/// The side that a number of C's means: side 1 for 1, side 0 for any other.
fn side_of_word(word: u32) -> Side
    ensures { side-number result ≡ word_side word }
{
    if word == 1 { Side::Odd } else { Side::Even }
}

/// Solves a game: `uint32_t endless_solve(const uint32_t *words, size_t,
/// uint32_t *out, size_t, uint32_t *work, size_t)` answers 0 done, 1 out full,
/// 2 no game, 3 few.
#[unsafe(no_mangle)]
pub extern "C" fn endless_solve(words: &[u32], out: &mut [u32], work: &mut [u32]) -> u32
    ensures { (d : Result (Unit {0}) Refused) × (result ≡ code d) × SolvedPost words.now (length work.old) out.old out.new d }
{
    number(solve(words, out, work))
}

/// From where a side (1, or 0 for any other number) can bring every play to a
/// place: `uint32_t endless_attract_to(const uint32_t *words, size_t, uint32_t
/// target, uint32_t side, uint32_t *out, size_t, uint32_t *work, size_t)`
/// answers 0 done, 1 out full, 2 no game, 3 few, 4 no such place.
#[unsafe(no_mangle)]
pub extern "C" fn endless_attract_to(
    words: &[u32],
    target: u32,
    // C hands any number, so this is no `Side` yet.
    side: u32,
    out: &mut [u32],
    work: &mut [u32],
) -> u32
    ensures { (d : Result (Unit {0}) Refused) × (result ≡ code d) × ReachPost words.now (length work.old) (word_side side) target out.old out.new d }
{
    number(attract_to(words, PlaceId(target), side_of_word(side), out, work))
}

/// In how many moves a side (1, or 0 for any other number) can make sure that
/// the play comes to a place: `uint32_t endless_distances_to(const uint32_t
/// *words, size_t, uint32_t target, uint32_t side, uint32_t *out, size_t,
/// uint32_t *work, size_t)` answers 0 done, 1 out full, 2 no game, 3 few, 4 no
/// such place.
#[unsafe(no_mangle)]
pub extern "C" fn endless_distances_to(
    words: &[u32],
    target: u32,
    // As in `endless_attract_to`.
    side: u32,
    out: &mut [u32],
    work: &mut [u32],
) -> u32
    ensures { (d : Result (Unit {0}) Refused) × (result ≡ code d) × DistancesPost words.now (length work.old) (word_side side) target out.old out.new d }
{
    number(distances_to(words, PlaceId(target), side_of_word(side), out, work))
}

/// All moves that some winning plan makes: `uint32_t
/// endless_winning_moves(const uint32_t *words, size_t, uint32_t *out, size_t,
/// uint32_t *work, size_t)` answers 0 done, 1 out full, 2 no game, 3 few.
#[unsafe(no_mangle)]
pub extern "C" fn endless_winning_moves(words: &[u32], out: &mut [u32], work: &mut [u32]) -> u32
    ensures { (d : Result (Unit {0}) Refused) × (result ≡ code d) × MovesPost words.now (length work.old) out.old out.new d }
{
    number(winning_moves(words, out, work))
}

/// The smaller game in which alike places are one: `uint32_t
/// endless_merge(const uint32_t *words, size_t, uint32_t *to, size_t, uint32_t
/// *smaller, size_t, size_t *len, uint32_t *work, size_t)` answers 0 done, and
/// writes to `len` how many words the smaller game has, 1 out full, 2 no game,
/// 3 few.
#[unsafe(no_mangle)]
pub extern "C" fn endless_merge(
    words: &[u32],
    to: &mut [u32],
    smaller: &mut [u32],
    len: &mut usize,
    work: &mut [u32],
) -> u32
    ensures { (d : Result ℕ Refused) × (result ≡ code d) × (len.new ≡ told d len.old) × MergedPost words.now (length work.old) to.old smaller.old to.new smaller.new d }
{
    match merge(words, to, smaller, work) {
        Ok(count) => {
            *len = count;
            0
        }
        Err(refusal) => refused(refusal),
    }
}

/// Solves a game through the smaller one in which alike places are one:
/// `uint32_t endless_solve_merged(const uint32_t *words, size_t, uint32_t *out,
/// size_t, uint32_t *work, size_t)` answers 0 done, 1 out full, 2 no game, 3
/// few.
#[unsafe(no_mangle)]
pub extern "C" fn endless_solve_merged(words: &[u32], out: &mut [u32], work: &mut [u32]) -> u32
    ensures { (d : Result (Unit {0}) Refused) × (result ≡ code d) × SolvedMergedPost words.now (length work.old) out.old out.new d }
{
    number(solve_merged(words, out, work))
}

/// Whether an answer is one: `uint32_t endless_check(const uint32_t *words,
/// size_t, const uint32_t *answer, size_t, uint32_t *work, size_t)` answers 0
/// right, 1 wrong, 2 no game, 3 few.
#[unsafe(no_mangle)]
pub extern "C" fn endless_check(words: &[u32], answer: &[u32], work: &mut [u32]) -> u32
    ensures { (d : Result (Unit {0}) Rejected) × (result ≡ check_code d) × CheckedPost words.now (length work.old) answer.now d }
{
    match check(words, answer, work) {
        Ok(()) => 0,
        Err(Rejection::Wrong(_)) => 1,
        Err(Rejection::Refused(refusal)) => refused(refusal),
    }
}
