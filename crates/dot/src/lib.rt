//! A game and its answer as a picture for Graphviz, a text in its language DOT.
//!
//! ```text
//! strict digraph game {
//!   ..
//!   n0 [shape=diamond, label="p0\n1", style=filled, fillcolor="#c6dbef"];
//!   n0 -> n1 [penwidth=3];
//!   n0 -> n2;
//!   n1 [shape=box, label="p1\n2", style=filled, fillcolor="#c6dbef"];
//!   n1 -> n0;
//!   n2 [shape=box, label="p2\n3", style="filled,dashed", fillcolor="#fdd0a2"];
//!   n2 -> n0;
//!   n2 -> n2 [penwidth=3];
//! }
//! ```
//!
//! A place is a diamond where side 0 moves and a box where side 1 moves, with
//! its name and below it its weight. Places that side 0 wins are blue with a
//! solid line, those that side 1 wins orange with a dashed line, so that the
//! picture can be read with no colours too; a place that the answer gives to
//! neither side is blank. The moves of the winner's plan are bold, or, where
//! moves are marked, all that are. A line of the picture says so.
//!
//! Nodes are named by the places' numbers, and the names stand in their
//! labels alone. The graph is strict, so a move that a place has twice is
//! drawn once. `dot -Tsvg` makes an image of the text.
#![tactic(auto)]

mod bold;
mod label;
mod picture;

pub use bold::Bold;
pub use picture::Picture;
