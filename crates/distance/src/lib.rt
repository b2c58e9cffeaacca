//! Questions about moves and places of a game: in how many moves a side can
//! make sure that the play comes to a place.
#![tactic(auto)]

pub mod distances;
pub mod spread;

pub use distances::distances_to;
pub use spread::NEVER;
