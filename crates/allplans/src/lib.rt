//! A second way to the winners of a game, that shares nothing with a solver
//! but the words in which a game and its answer are written.
//!
//! A small game is decided by trying all plans of both sides, and an answer to
//! one by trying all plays. An answer for a game of any size is checked by
//! looking for a round of the wrong kind among the places of each side. Games
//! to try are made here too.
#![tactic(auto)]

pub mod alike;
pub mod answer;
mod builder;
pub mod checker;
mod claimed;
mod components;
pub mod distances;
pub mod families;
pub mod fault;
pub mod fine;
pub mod game;
pub mod plans;
pub mod plays;
pub mod random;
pub mod reach;
mod set;
pub mod side;
mod view;
