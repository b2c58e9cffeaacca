//! What an answer claims for a side.
ghost use Rattle.std.specs.Prelude.{◌≡◌, ℕ, ◌*◌, ◌^◌, ◌<◌, ◌≤◌, length};
ghost use Rattle.endless.specs.Sets.{In};
ghost use Rattle.endless.specs.Bits.{members};

use crate::graph::Graph;
use crate::side::Side;

/// What an answer claims for a side: that it wins from the places of a set, by
/// the answer's moves, in the subgame `within`.
#[derive(Clone, Copy)]
pub struct Claim<'a> {
    pub graph: &'a Graph<'a>,
    pub side: Side,
    pub answer: &'a [u32],
    pub set: &'a [u32],
    pub within: &'a [u32],
    pub ghost inside: { (n : ℕ) → In (members set.now) n → n < length graph.now },
    pub ghost sets: { length graph.now ≤ 32 * length set.now },
    pub ghost same: { length within.now ≡ length set.now },
    pub ghost answers: { 2 * length graph.now ≤ length answer.now },
    pub ghost small: { 32 * length set.now < 2 ^ 32 },
}
