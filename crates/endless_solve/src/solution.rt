//! The answer for a game, in memory of its own.
use crate::fault::Fault;
use endless::solve as solve_words;
use ends::solve_with_ends as solve_words_with_ends;
use quotient::solve_merged;
use std::alloc::AllocError;
use std::time::{Duration, Instant};

/// An answer, and how long it took to find it.
#[derive(Drop)]
pub(crate) struct Solved {
    pub(crate) answer: Vec<u32>,
    pub(crate) took: Duration,
}

/// Who wins each place, and with which move: two words for each place; through
/// the smaller game in which places that are alike are one, where `merge` asks
/// for it. The words that the solver is lent are gone again when it is done.
// Not `playing::board::solve_in`: what that promises is of no use here, where
// the answer is only printed, and the program would need a crate that plays.
pub(crate) fn solve(rt: &HostRuntime, words: &[u32], merge: bool) -> Result<Solved, Fault> {
    let heap = rt.alloc();
    let places = words.first().copied().unwrap_or(0) as usize;
    let mut answer = vec![in heap; 0; places.saturating_mul(2)]?;
    let each = if merge { 6 } else { 4 };
    let mut work = vec![in heap; 0; words.len().saturating_mul(each).saturating_add(65536)]?;
    let start = Instant::now(rt)?;
    if merge {
        solve_merged(words, answer.as_mut_slice(), work.as_mut_slice())?;
    } else {
        solve_words(words, answer.as_mut_slice(), work.as_mut_slice())?;
    }
    let took = start.elapsed(rt)?;
    Ok(Solved { answer, took })
}

/// The same of a game with ends.
pub(crate) fn solve_with_ends(rt: &HostRuntime, words: &[u32]) -> Result<Vec<u32>, Fault> {
    let heap = rt.alloc();
    let places = words.first().copied().unwrap_or(0) as usize;
    let mut answer = vec![in heap; 0; places.saturating_mul(2)]?;
    let each = words.len().saturating_add(places);
    let mut work = vec![in heap; 0; each.saturating_mul(5).saturating_add(65536)]?;
    solve_words_with_ends(words, answer.as_mut_slice(), work.as_mut_slice())?;
    Ok(answer)
}
