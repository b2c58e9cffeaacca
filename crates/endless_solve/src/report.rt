//! What is printed of a game and its answer.
use crate::names::name_of;
use endless::answer::{PlaceId, goes_to, won_by};
use endless::graph::Places;
use endless::side::Side;
use ends::rows::Rows;
use std::io;
use std::io::Write;

/// A line for each place: its name, the side that wins it, and the name of its
/// move, or `-` where the winner is not the one to move.
pub(crate) fn places<W: Write>(
    out: &mut W,
    names: &[String],
    words: &[u32],
    answer: &[u32],
) -> io::Result<()> {
    for (place, row) in (0..).zip(Rows::of(words)) {
        place_line(out, names, PlaceId(place), row.whose, answer)?;
    }
    Ok(())
}

// At a place without moves the winner is the other side, so that no move is
// looked for there.
fn place_line<W: Write>(
    out: &mut W,
    names: &[String],
    place: PlaceId,
    whose: u32,
    answer: &[u32],
) -> io::Result<()> {
    let (Some(winner), Some(to)) = (won_by(answer, place), goes_to(answer, place)) else {
        return Ok(());
    };
    let name = name_of(names, place);
    let side = winner.0;
    if whose == u32::from(side) {
        let to = name_of(names, to);
        writeln!(out, "{name} {side} {to}")
    } else {
        writeln!(out, "{name} {side} -")
    }
}

/// The answer's words: a line for each place.
pub(crate) fn answer<W: Write>(out: &mut W, answer: &[u32]) -> io::Result<()> {
    for pair in answer.chunks(2) {
        line(out, pair)?;
    }
    Ok(())
}

/// What a game has.
#[derive(Clone, Copy, Default)]
struct Size {
    moves: usize,
    even: usize,
    odd: usize,
}

/// That the words are a game, and how many places each side has.
pub(crate) fn summary<W: Write>(out: &mut W, name: &str, places: &Places) -> io::Result<()> {
    let Size { moves, even, odd } = measure(places);
    let places = even.saturating_add(odd);
    let (s, t, u) = (plural(places), plural(moves), plural(even));
    writeln!(out, "{name} is a game: {places} place{s}, {moves} move{t}")?;
    writeln!(out, "side 0 moves at {even} place{u}, side 1 at {odd}")
}

/// What a word of one ends in where there are so many.
pub(crate) fn plural(n: usize) -> &'static str {
    if n == 1 { "" } else { "s" }
}

/// How many moves there are, and how many places of each side.
fn measure(places: &Places) -> Size {
    let mut size = Size::default();
    for place in 0..places.len() {
        let head = places.head(place);
        size.moves = size.moves.saturating_add(head.moves as usize);
        match head.whose {
            Side::Even => size.even = size.even.saturating_add(1),
            Side::Odd => size.odd = size.odd.saturating_add(1),
        }
    }
    size
}

/// The words: the first on a line of its own, then a line for each place.
pub(crate) fn words<W: Write>(out: &mut W, words: &[u32]) -> io::Result<()> {
    let many = words.first().copied().unwrap_or(0);
    writeln!(out, "{many}")?;
    for row in Rows::of(words) {
        let (whose, weight, moves) = (row.whose, row.weight, row.moves.len());
        write!(out, "{whose} {weight} {moves}")?;
        for to in row.moves {
            write!(out, " {to}")?;
        }
        writeln!(out)?;
    }
    Ok(())
}

/// Words on a line, with a blank between them.
fn line<W: Write>(out: &mut W, words: &[u32]) -> io::Result<()> {
    for (i, word) in words.iter().enumerate() {
        if i > 0 {
            out.write_all(b" ")?;
        }
        write!(out, "{word}")?;
    }
    out.write_all(b"\n")
}

#[cfg(test)]
mod tests {
    use super::*;
    use crate::solution::solve_with_ends;
    use std::test::Fail;

    // day is side 0's, weight 3, to itself or shut-down; shut-down is side 1's,
    // weight 0, and burst side 0's, weight 2, both without moves.
    const WORDS: [u32; 12] = [3, 0, 3, 2, 0, 1, 1, 0, 0, 0, 2, 0];

    #[test]
    fn where_a_play_ends_the_other_side_wins(rt: HostRuntime) -> Result<(), Fail> {
        let heap = rt.alloc();
        let mut names = Vec::new(heap);
        for name in ["day", "shut-down", "burst"] {
            names.push(String::from_str(heap, name)?)?;
        }
        let Ok(answer) = solve_with_ends(&rt, &WORDS) else {
            return Err(Fail::new("refused"));
        };
        let mut out = Vec::new(heap);
        places(&mut out, names.as_slice(), &WORDS, answer.as_slice())?;
        assert_eq!(rt;
            out.as_slice(),
            b"day 0 shut-down\nshut-down 0 -\nburst 1 -\n".as_slice()
        );
        let mut out = Vec::new(heap);
        words(&mut out, &WORDS)?;
        assert_eq!(rt; out.as_slice(), b"3\n0 3 2 0 1\n1 0 0\n0 2 0\n".as_slice());
        Ok(())
    }
}
