//! All moves that some winning plan makes.
ghost use Rattle.std.specs.Prelude.{◌<◌, length};

use crate::fault::Fault;
use crate::names::name_of;
use endless::answer::PlaceId;
use endless::graph::Places;
use endless::side::Side;
use moves::winning_moves;
use std::alloc::{AllocError, Global};
use std::io;
use std::io::Write;

/// A word for each place, who wins it, and then one for each move, 1 where some
/// winning plan makes it. The words that are lent for that are gone again when
/// they are found.
pub(crate) fn find(heap: Global, words: &[u32]) -> Result<Vec<u32>, Fault> {
    let mut marks = vec![in heap; 0; words.len()]?;
    let mut work = vec![in heap; 0; words.len().saturating_mul(9).saturating_add(65536)]?;
    winning_moves(words, marks.as_mut_slice(), work.as_mut_slice())?;
    Ok(marks)
}

/// A line for each place: its name, the side that wins it, and the names of all
/// its winning moves, or `-` where the winner is not the one to move.
pub(crate) fn lines<W: Write>(
    out: &mut W,
    names: &[String],
    places: &Places,
    marks: &[u32],
) -> io::Result<()> {
    let mut first = places.len() as usize;
    for place in 0..places.len() {
        let marked = marks.get(first..).unwrap_or(&[]);
        place_line(out, names, places, place, marks, marked)?;
        first = first.saturating_add(places.moves(place).len());
    }
    Ok(())
}

/// The line of a place, whose moves' marks stand in front of `marked`.
fn place_line<W: Write>(
    out: &mut W,
    names: &[String],
    places: &Places,
    place: u32,
    winners: &[u32],
    marked: &[u32],
) -> io::Result<()>
    requires { place < length places.now }
{
    let word = winners.get(place as usize).copied().unwrap_or(2);
    let Ok(winner) = Side::try_from(word) else {
        return Ok(());
    };
    let name = name_of(names, PlaceId(place));
    write!(out, "{name} {winner}")?;
    if !places.is_own(winner, place) {
        return writeln!(out, " -");
    }
    for (to, mark) in places.moves(place).iter().zip(marked) {
        if *mark == 1 {
            let to = name_of(names, PlaceId(*to));
            write!(out, " {to}")?;
        }
    }
    writeln!(out)
}

#[cfg(test)]
mod tests {
    use super::*;
    use endless::words::GameWords;
    use std::test::Fail;

    // well is side 0's, weight 2, to itself, pump or dry; pump is side 1's, weight
    // 1, to well; dry is side 1's, weight 1, to itself.
    const WORDS: [u32; 15] = [3, 0, 2, 3, 0, 1, 2, 1, 1, 1, 0, 1, 1, 1, 2];

    // Who stays at well, or comes back to it from pump, meets 2 again and again,
    // and nothing heavier; at dry there is 1 for ever.
    #[test]
    fn all_that_comes_back_to_the_well(rt: HostRuntime) -> Result<(), Fail> {
        let heap = rt.alloc();
        let mut names = Vec::new(heap);
        for name in ["well", "pump", "dry"] {
            names.push(String::from_str(heap, name)?)?;
        }
        let Ok(marks) = find(heap, &WORDS) else {
            return Err(Fail::new("refused"));
        };
        let Some(game) = GameWords::read(&WORDS) else {
            return Err(Fail::new("no game"));
        };
        let mut starts = vec![in heap; [0, 0]; game.len() as usize]?;
        let places = Places::new(game, starts.as_mut_slice());
        let mut out = Vec::new(heap);
        lines(&mut out, names.as_slice(), &places, marks.as_slice())?;
        assert_eq!(rt;
            out.as_slice(),
            b"well 0 well pump\npump 0 -\ndry 1 dry\n".as_slice()
        );
        Ok(())
    }
}
