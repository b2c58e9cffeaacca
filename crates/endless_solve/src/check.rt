//! An answer that stands in a file is looked at.
use crate::fault::Fault;
use crate::names::name_of;
use crate::round::Claimed;
use crate::{answer, input};
use endless::answer::{PlaceId, goes_to};
use endless::flaw::Flaw;
use endless::graph::Places;
use endless::side::Side;
use endless::verdict::{Reason, Rejection};
use endless::words::GameWords;
use forms::{Form, Kind, Source};
use std::alloc::{AllocError, Global};
use std::io;
use std::io::{BufWriter, Write};
use std::process::ExitCode;

/// Tells whether the answer in one file is one to the game in another, or what
/// is wrong with it. The status is that of a failure where it is wrong.
pub(crate) fn check(
    rt: &HostRuntime,
    file: &str,
    form: Option<Form>,
    answer: &str,
) -> Result<ExitCode, Fault> {
    let heap = rt.alloc();
    let Source { words, labels } = input::source(rt, file, form, Kind::Endless)?;
    let (answer, names) = answer::read(rt, answer, labels)?;
    let words = words.as_slice();
    let answer = answer.as_slice();
    let Err(reason) = look(heap, words, answer)? else {
        rt.println("right")?;
        return Ok(ExitCode::SUCCESS);
    };
    let game = GameWords::read(words).ok_or(Fault::Unsolved)?;
    let mut starts = vec![in heap; [0, 0]; game.len() as usize]?;
    let places = Places::new(game, starts.as_mut_slice());
    tell(rt, names.as_slice(), &places, answer, reason)?;
    Ok(ExitCode::FAILURE)
}

/// What the check says of the answer. The words that it is lent are gone again
/// when it is done.
fn look(heap: Global, words: &[u32], answer: &[u32]) -> Result<Result<(), Reason>, Fault> {
    let mut work = vec![in heap; 0; words.len().saturating_mul(4).saturating_add(65536)]?;
    match endless::check(words, answer, work.as_mut_slice()) {
        Ok(()) => Ok(Ok(())),
        Err(Rejection::Wrong(reason)) => Ok(Err(reason)),
        Err(Rejection::Refused(refusal)) => Err(Fault::from(refusal)),
    }
}

/// Tells what is wrong, with the names of the places.
fn tell<'a>(
    rt: &HostRuntime,
    names: &[String],
    places: &'a Places<'a>,
    answer: &'a [u32],
    reason: Reason,
) -> Result<(), Fault> {
    let heap = rt.alloc();
    let mut out = BufWriter::new(heap, rt.stdout())?;
    match reason {
        Reason::Short => writeln!(out, "wrong: it has fewer than two words for each place")?,
        Reason::NoSide(place) => {
            let name = name_of(names, place);
            writeln!(out, "wrong: it gives {name} to neither side")?;
        }
        Reason::Plan {
            side,
            flaw: Flaw::LosingRound { through, heaviest },
        } => {
            let claimed = Claimed {
                places,
                answer,
                side,
                heaviest,
            };
            let round = claimed.round(heap, through.0)?;
            tell_round(&mut out, names, side, round.as_slice(), heaviest)?;
        }
        Reason::Plan { side, flaw } => tell_flaw(&mut out, names, answer, side, flaw)?,
    }
    out.flush()?;
    Ok(())
}

/// Tells a round that the other side wins, place by place.
fn tell_round<W: Write>(
    out: &mut W,
    names: &[String],
    side: Side,
    round: &[u32],
    heaviest: u32,
) -> io::Result<()> {
    write!(out, "wrong: side {side}'s plan allows the round ")?;
    for (i, place) in round.iter().enumerate() {
        let name = name_of(names, PlaceId(*place));
        if i > 0 {
            write!(out, ", ")?;
        }
        write!(out, "{name}")?;
    }
    writeln!(out, " with {heaviest} as the heaviest")
}

/// Tells where a plan is no plan, or its side's places can be left.
fn tell_flaw<W: Write>(
    out: &mut W,
    names: &[String],
    answer: &[u32],
    side: Side,
    flaw: Flaw,
) -> io::Result<()> {
    let other = side.other();
    match flaw {
        Flaw::NoMove(place) => {
            let name = name_of(names, place);
            writeln!(
                out,
                "wrong: at {name}, where side {side} moves and is said to win, its plan names none of the moves"
            )
        }
        Flaw::Leaves(place) => {
            let to = name_of(names, goes_to(answer, place).unwrap_or(place));
            let name = name_of(names, place);
            writeln!(
                out,
                "wrong: side {side}'s plan goes from {name} to {to}, which is given to side {other}"
            )
        }
        Flaw::Escape { from, to } => {
            let (from, to) = (name_of(names, from), name_of(names, to));
            writeln!(
                out,
                "wrong: {from} is given to side {side}, and from there side {other} can go to {to}, which is given to side {other}"
            )
        }
        Flaw::LosingRound { through, heaviest } => {
            let name = name_of(names, through);
            writeln!(
                out,
                "wrong: side {side}'s plan allows a round through {name} with {heaviest} as the heaviest"
            )
        }
    }
}
