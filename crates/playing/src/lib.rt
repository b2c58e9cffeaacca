//! Playing a solved game: the weights that came last, and the play's steps.
#![tactic(auto)]

pub mod board;
pub mod counts;
pub mod steps;
pub mod trail;
pub mod window;

pub use board::Board;
pub use steps::{goes_by_plan, step};
pub use trail::Trail;
pub use window::Window;
