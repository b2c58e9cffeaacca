//! Plays a game by its answer's plan against moves at random, and tells what
//! came.
#![tactic(auto)]

mod fault;
mod input;
mod play;
mod report;

use fault::Fault;
use std::alloc::AllocError;
use std::process::ExitCode;
use std::{env, io};

// As in the other programs: below them all is only the solver, which prints nothing,
// and a crate for these lines would be longer than they are.
fn main(rt: HostRuntime) -> ExitCode {
    match run(&rt) {
        Ok(()) => ExitCode::SUCCESS,
        Err(fault) => {
            let _ = eprintln!(rt; "random_play: {fault}");
            ExitCode::FAILURE
        }
    }
}

/// Two arguments: the file of a game, and how many moves are made.
fn run(rt: &HostRuntime) -> Result<(), Fault> {
    let mut args = env::args(rt)?.skip(1);
    let (Some(file), Some(count)) = (args.next(), args.next()) else {
        return Err(Fault::Usage);
    };
    let count = count.as_str().parse().map_err(|_| Fault::Usage)?;
    play::run(rt, file.as_str(), count)
}
