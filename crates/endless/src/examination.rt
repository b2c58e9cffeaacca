//! A claim that is looked at, and what is lent for that.
ghost use Rattle.std.specs.Prelude.{◌≡◌, ◌+◌, ◌≤◌, length};
ghost use Rattle.endless.specs.Bits.{size};
ghost use Rattle.endless.specs.View.{Playable};

use crate::claim::Claim;

/// A claim that is looked at, and what is lent for that: a set, a queue and
/// ranks, and more for what proposes the ranks. These hold anything before and
/// after.
#[derive(Drop)]
pub struct Examination<'c, 'r> {
    pub claim: Claim<'c>,
    pub left: &'r mut [u32],
    pub queue: &'r mut [u32],
    pub ranks: &'r mut [u32],
    pub lent: &'r mut [u32],
    pub ghost playable: { Playable claim.graph.now },
    pub ghost sets: { length left.now ≡ length claim.set.now },
    pub ghost room: { 1 + size claim.set.now ≤ length queue.now },
    pub ghost ranked: { length claim.graph.now ≤ length ranks.now },
}
