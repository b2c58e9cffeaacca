//! How soon a side can make sure that the play comes to a place.
ghost use Rattle.std.specs.Prelude.{◌<◌, length};

use crate::fault::Fault;
use crate::input;
use crate::names::name_of;
use distance::{NEVER, distances_to};
use endless::answer::{PlaceId, goes_to};
use endless::graph::Places;
use endless::side::Side;
use endless::words::GameWords;
use forms::Source;
use std::alloc::{AllocError, Global};
use std::io;
use std::io::{BufWriter, Write};

/// Tells for each place of a game the least number of moves in which a side can
/// make sure that the play comes to the place of this name, and by which move.
pub(crate) fn reach(
    rt: &HostRuntime,
    file: &str,
    source: Source,
    target: &str,
    side: Side,
) -> Result<(), Fault> {
    let heap = rt.alloc();
    let Source { words, labels } = source;
    let names = labels.into_names(heap)?;
    let names = names.as_slice();
    let Some(target) = place_named(names, target) else {
        return Err(Fault::NoPlace {
            file: String::from_str(heap, input::shown(file))?,
            place: String::from_str(heap, target)?,
        });
    };
    let words = words.as_slice();
    let numbers = numbers(heap, words, target, side)?;
    let game = GameWords::read(words).ok_or(Fault::Unsolved)?;
    let mut starts = vec![in heap; [0, 0]; game.len() as usize]?;
    let places = Places::new(game, starts.as_mut_slice());
    let mut out = BufWriter::new(heap, rt.stdout())?;
    for place in 0..places.len() {
        place_line(&mut out, names, &places, place, side, numbers.as_slice())?;
    }
    out.flush()?;
    Ok(())
}

/// The place of this name.
fn place_named(names: &[String], name: &str) -> Option<PlaceId> {
    let place = names.iter().position(|other| other.as_str() == name)?;
    Some(PlaceId(u32::try_from(place).ok()?))
}

/// The numbers of moves, and a move, for each place. The words that are lent for
/// that are gone again when they are found.
fn numbers(heap: Global, words: &[u32], target: PlaceId, side: Side) -> Result<Vec<u32>, Fault> {
    let places = words.first().copied().unwrap_or(0) as usize;
    let mut numbers = vec![in heap; 0; places.saturating_mul(2)]?;
    let mut work = vec![in heap; 0; words.len().saturating_mul(4).saturating_add(65536)]?;
    distances_to(
        words,
        target,
        side,
        numbers.as_mut_slice(),
        work.as_mut_slice(),
    )?;
    Ok(numbers)
}

/// A place, its number, and the side's move there, with `-` for what there is
/// not.
fn place_line<W: Write>(
    out: &mut W,
    names: &[String],
    places: &Places,
    place: u32,
    side: Side,
    numbers: &[u32],
) -> io::Result<()>
    requires { place < length places.now }
{
    let at = PlaceId(place);
    let name = name_of(names, at);
    let number = numbers.get(2 * place as usize).copied().unwrap_or(NEVER);
    if number == NEVER {
        return writeln!(out, "{name} - -");
    }
    match goes_to(numbers, at) {
        Some(to) if number > 0 && places.is_own(side, place) => {
            let to = name_of(names, to);
            writeln!(out, "{name} {number} {to}")
        }
        _ => writeln!(out, "{name} {number} -"),
    }
}
