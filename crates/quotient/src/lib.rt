//! Alike places made one: the smaller game, and its answer carried back.
#![tactic(auto)]

mod alike;
mod gather;
mod group;
pub mod merged;
mod number;
mod refine;
mod round;
pub mod smaller;
mod write;

pub use merged::solve_merged;
pub use smaller::merge;
