//! Makes games, solves each, compares the answers with those of a second way,
//! and prints how many there were and how many disagreed.
#![tactic(auto)]

mod answer;
mod changes;
mod distances;
mod merged;
mod report;
mod tally;
mod trial;

use allplans::families;
use allplans::fault::Fault;
use allplans::fine::FineGame;
use allplans::random::Random;
use allplans::side::Side;
use report::{Error, Report};
use std::alloc::Global;
use std::process::ExitCode;
use trial::{by_all_plans_and_moves, by_rounds};

// As in the other programs: below them all is only the solver, which prints nothing,
// and a crate for these lines would be longer than they are.
fn main(rt: HostRuntime) -> ExitCode {
    match run(&rt) {
        Ok(()) => ExitCode::SUCCESS,
        Err(error) => {
            let _ = eprintln!(rt; "agree: {error}");
            ExitCode::FAILURE
        }
    }
}

fn run(rt: &HostRuntime) -> Result<(), Error> {
    let heap = rt.alloc();
    let mut report = Report::new(rt)?;
    worked(heap, &mut report)?;
    small(heap, &mut report)?;
    changed(heap, &mut report)?;
    attractors(heap, &mut report)?;
    soonest(heap, &mut report)?;
    made_one(heap, &mut report)?;
    ended(heap, &mut report)?;
    ended_changed(heap, &mut report)?;
    hard(heap, &mut report)?;
    large(heap, &mut report)?;
    report.end()
}

/// The small worked games, by all plans.
fn worked(heap: Global, report: &mut Report) -> Result<(), Error> {
    report.head("against all plans, and by rounds")?;
    report.try_game(&families::three(heap)?, &by_all_plans_and_moves)?;
    report.line("three places")?;
    for weight in [0, 1, 2, 3, 60, 61, 254, 255] {
        for side in [Side::Even, Side::Odd] {
            report.try_game(
                &families::one(heap, u32::from(side), weight)?,
                &by_all_plans_and_moves,
            )?;
        }
    }
    report.line("one place")?;
    for places in 1..9 {
        report.try_game(
            &families::all_same(heap, places, 4)?,
            &by_all_plans_and_moves,
        )?;
        report.try_game(
            &families::all_same(heap, places, 7)?,
            &by_all_plans_and_moves,
        )?;
    }
    report.line("all the same weight")
}

/// 5,000 games at random with one to eight places.
fn small(heap: Global, report: &mut Report) -> Result<(), Error> {
    let mut random = Random::new(2009);
    for places in 1..9 {
        for _ in 0..125 {
            for weights in [2, 3, 5, 12, 256] {
                report.try_game(
                    &families::at_random(heap, &mut random, places, 1, 3, weights)?,
                    &by_all_plans_and_moves,
                )?;
            }
        }
        report.sized("at random, places", places)?;
    }
    Ok(())
}

/// The same games: each answer with one word changed.
fn changed(heap: Global, report: &mut Report) -> Result<(), Error> {
    report.head_of(
        "answers with one word changed",
        ["answers", "right", "wrong"],
    )?;
    let mut random = Random::new(2009);
    for places in 1..9 {
        for _ in 0..125 {
            for weights in [2, 3, 5, 12, 256] {
                report.try_changes(&families::at_random(
                    heap,
                    &mut random,
                    places,
                    1,
                    3,
                    weights,
                )?)?;
            }
        }
        report.changed_line("at random, places", places)?;
    }
    Ok(())
}

/// The attractors of all places of 1,000 games at random, for both sides.
fn attractors(heap: Global, report: &mut Report) -> Result<(), Error> {
    report.head("attractors")?;
    let mut random = Random::new(1998);
    for places in 1..9 {
        for _ in 0..125 {
            let game = families::at_random(heap, &mut random, places, 1, 3, 2)?;
            for target in 0..places {
                report.try_attractor(&game, target, Side::Even)?;
                report.try_attractor(&game, target, Side::Odd)?;
            }
        }
        report.sized("at random, places", places)?;
    }
    Ok(())
}

/// In how many moves each side can make sure of each place of 2,000 games at
/// random.
fn soonest(heap: Global, report: &mut Report) -> Result<(), Error> {
    report.head_of("distances", ["places", "sure", "moves"])?;
    let mut random = Random::new(1959);
    for places in 1..9 {
        for _ in 0..250 {
            let game = families::at_random(heap, &mut random, places, 1, 3, 2)?;
            for target in 0..places {
                report.try_distances(&game, target, Side::Even)?;
                report.try_distances(&game, target, Side::Odd)?;
            }
        }
        report.sized("at random, places", places)?;
    }
    Ok(())
}

/// 2,000 games that are copies at random of the places of smaller ones, with the
/// alike places made one.
fn made_one(heap: Global, report: &mut Report) -> Result<(), Error> {
    report.head_of("alike places", ["places", "smaller", "moves"])?;
    let mut random = Random::new(1971);
    for places in 1..9u32 {
        for _ in 0..50 {
            for weights in [1, 2, 3, 5, 12] {
                let few = 1 + random.below(places.min(4));
                let game = families::at_random(heap, &mut random, few, 1, 2, weights)?;
                let game = families::copied(heap, &mut random, &game.game, places)?;
                report.try_merged(&game)?;
            }
        }
        report.sized("copies at random, places", places)?;
    }
    Ok(())
}

/// 2,000 games at random in which places may have no moves.
fn ended(heap: Global, report: &mut Report) -> Result<(), Error> {
    report.head("with ends, by plans and rounds")?;
    let mut random = Random::new(1913);
    for places in 1..9 {
        for _ in 0..50 {
            for weights in [2, 3, 5, 12, 256] {
                report.try_ends(&families::at_random_with_ends(
                    heap,
                    &mut random,
                    places,
                    3,
                    weights,
                )?)?;
            }
        }
        report.sized("at random, places", places)?;
    }
    Ok(())
}

/// The same games: each answer with one word changed.
fn ended_changed(heap: Global, report: &mut Report) -> Result<(), Error> {
    report.head_of(
        "with ends, with one word changed",
        ["answers", "right", "wrong"],
    )?;
    let mut random = Random::new(1913);
    for places in 1..9 {
        for _ in 0..50 {
            for weights in [2, 3, 5, 12, 256] {
                report.try_changes_with_ends(&families::at_random_with_ends(
                    heap,
                    &mut random,
                    places,
                    3,
                    weights,
                )?)?;
            }
        }
        report.changed_line("at random, places", places)?;
    }
    Ok(())
}

/// Games, and the same with the sides changed, by rounds.
fn both(heap: Global, report: &mut Report, name: &str, games: &[FineGame]) -> Result<(), Error> {
    for game in games {
        report.try_game(game, &by_rounds)?;
    }
    report.line(name)?;
    for game in games {
        report.try_game(&families::mirrored(heap, &game.game)?, &by_rounds)?;
    }
    report.line("  with the sides changed")
}

/// Games on which some methods take long.
fn hard(heap: Global, report: &mut Report) -> Result<(), Error> {
    report.head("by rounds")?;
    both(heap, report, "ladder", &[families::ladder(heap, 60)?])?;
    both(
        heap,
        report,
        "measures",
        &[families::measures(heap, 13, 22)?],
    )?;
    both(
        heap,
        report,
        "binary counter",
        &[families::binary_counter(heap, 29, 6)?],
    )?;
    both(heap, report, "tree", &[families::tree(heap, 149)?])?;
    let ladders: Vec<FineGame> = (1..11)
        .map(|levels| -> Result<FineGame, Fault> { families::recursive_ladder(heap, levels) })
        .try_collect(heap)?;
    both(heap, report, "recursive ladders", ladders.as_slice())
}

/// Large games at random.
fn large(heap: Global, report: &mut Report) -> Result<(), Error> {
    let mut random = Random::new(2017);
    both(
        heap,
        report,
        "clusters",
        &[families::clusters(heap, &mut random, 32, 64, 16)?],
    )?;
    for weights in [2, 8, 64, 256] {
        report.try_game(
            &families::at_random(heap, &mut random, 16384, 3, 3, weights)?,
            &by_rounds,
        )?;
        report.sized("at random, weights", weights)?;
    }
    Ok(())
}
