//! How large a game is, and who wins how much of it.
use crate::fault::Fault;
use crate::report::plural;
use crate::solution::Solved;
use endless::answer::{PlaceId, Winner, won_by};
use endless::side::Side;
use endless::weights;
use endless::words::GameWords;
use std::alloc::AllocError;

/// Tells on standard error how many places, moves and different weights a game
/// has, how many places each side wins, and how long it took to solve it.
pub(crate) fn tell(
    rt: &HostRuntime,
    name: &str,
    words: &[u32],
    solved: &Solved,
) -> Result<(), Fault> {
    let game = GameWords::read(words).ok_or(Fault::Unsolved)?;
    let places = game.len();
    let moves = game.move_count();
    let weights = weights::levels(&game);
    let even = won(Side::Even, places, solved.answer.as_slice());
    let odd = won(Side::Odd, places, solved.answer.as_slice());
    let (s, t, u, v) = (
        plural(places as usize),
        plural(moves),
        plural(weights),
        plural(even),
    );
    let micros = solved.took.as_micros();
    let (whole, part) = (micros / 1000, micros % 1000);
    eprintln!(rt;
        "endless_solve: {name}: {places} place{s}, {moves} move{t}, {weights} weight{u}; side 0 wins {even} place{v}, side 1 wins {odd}; solved in {whole}.{part:03} ms"
    )?;
    Ok(())
}

/// How many places the answer gives to a side.
fn won(side: Side, places: u32, answer: &[u32]) -> usize {
    (0..places)
        .filter(|place| won_by(answer, PlaceId(*place)) == Some(Winner(side)))
        .count()
}
