//! What is told of a play.
ghost use Rattle.std.specs.Prelude.{◌<◌, length};
ghost use Rattle.playing.specs.Boards.{Answered};

use crate::fault::Fault;
use crate::play::{Play, Tally};
use endless::side::Side;
use playing::Board;
use std::io;

pub(crate) fn start(rt: &HostRuntime, file: &str, board: &Board) -> Result<(), Fault>
    requires answered { Answered board.now.game board.now.answer }
    requires some { 0 < length board.now.game }
{
    let many = board.len();
    let side = board.winner(0);
    println!(rt;
        "{file}: {many} places; side {side} wins from the first and goes by its plan, the other side at random"
    )?;
    Ok(())
}

pub(crate) fn end(rt: &HostRuntime, play: &Play) -> Result<(), Fault> {
    let made = play.trail.made();
    let Tally {
        planned,
        free,
        chosen,
        own,
        other,
    } = play.tally;
    println!(rt; "moves made: {made}; each within the winner's places")?;
    println!(rt; "by the plan: {planned}; by the other side: {free}, {chosen} of them a choice")?;
    println!(rt;
        "windows with a heaviest weight of the winner's kind: {own}, of the other kind: {other}"
    )?;
    if let Some(weight) = play.trail.heaviest() {
        let kind = Side::of_weight(u32::from(weight));
        println!(rt; "heaviest of the last 1,000 places: {weight}, of side {kind}'s kind")?;
    }
    let place = play.place;
    let winner = play.board.winner(place);
    println!(rt; "verdict at place {place}: side {winner} wins")?;
    Ok(())
}
