//! Plays a solved game with a person.
#![tactic(auto)]

mod args;
mod fault;
mod game;
mod input;
mod play;
mod show;
mod table;
mod wish;

use args::Request;
use fault::Fault;
use std::env;
use std::process::ExitCode;

// As in the other programs: below them all is only the solver, which prints nothing,
// and a crate for these lines would be longer than they are.
fn main(rt: HostRuntime) -> ExitCode {
    match run(&rt) {
        Ok(()) => ExitCode::SUCCESS,
        Err(fault) => {
            let _ = eprintln!(rt; "endless_play: {fault}");
            ExitCode::FAILURE
        }
    }
}

fn run(rt: &HostRuntime) -> Result<(), Fault> {
    match args::parse(env::args(rt)?)? {
        Request::Help => rt.println(args::HELP)?,
        Request::Play(job) => game::run(rt, job)?,
    }
    Ok(())
}
