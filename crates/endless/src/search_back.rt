//! A search back from a place, along the moves that a plan allows.
ghost use Rattle.std.specs.Prelude.{ℕ, ◌+◌, ◌*◌, ◌<◌, ◌≤◌, length};
ghost use Rattle.endless.specs.Bits.{members, size};

use crate::bits;
use crate::claim::Claim;

/// A search back from a place, along the moves that a claim's plan allows and
/// past places not heavier than `heaviest`: what is left to be found, and the
/// places found, in the order in which they were.
#[derive(Drop)]
pub(crate) struct SearchBack<'c, 'r> {
    claim: Claim<'c>,
    heaviest: u32,
    left: &'r mut [u32],
    queue: &'r mut [u32],
    tail: usize,
    ghost sets: { length claim.graph.now ≤ 32 * length left.now },
    ghost room: { tail + size left.now ≤ length queue.now },
}

impl<'c, 'r> SearchBack<'c, 'r> {
    ghost use Rattle.std.specs.Prelude.{◌≡◌, not, slice_index};
    ghost use Rattle.endless.specs.Sets.{In};
    ghost use Rattle.endless.specs.Tracing.{Started, Same, Visited, Went, Searched, Traced};

    /// A search back from `place` among the places of the claim's set.
    pub(crate) fn new(
        claim: Claim<'c>,
        heaviest: u32,
        place: u32,
        left: &'r mut [u32],
        queue: &'r mut [u32],
    ) -> SearchBack<'c, 'r>
        requires same { length left.old ≡ length claim.set.now }
        requires room { 1 + size claim.set.now ≤ length queue.old }
        ensures { Started claim.entry heaviest place result }
    {
        bits::copy(claim.set, left);
        queue[0] = place;
        SearchBack {
            claim,
            heaviest,
            left,
            queue,
            tail: 1,
        }
    }

    /// Looks at `from`, which may move to `to`: it is found if it is left, it is
    /// not heavier than `heaviest`, and the plan allows that move.
    fn visit(&mut self, from: u32, to: u32)
        requires from { from < length self.old.claim.graph.now }
        ensures same { Same self.old self.new }
        ensures visited { Visited self.old from to self.new }
    {
        let claim = self.claim;
        let left = &mut *self.left;
        if !bits::has(left, from) {
            return;
        }
        if claim.graph.weight(from) > self.heaviest {
            return;
        }
        if !claim.allows(from, to) {
            return;
        }
        bits::remove(left, from);
        self.queue[self.tail] = from;
        self.tail += 1;
    }

    /// Looks at all places that may move to `to`.
    fn visit_all(&mut self, to: u32)
        requires to { to < length self.old.claim.graph.now }
        ensures same { Same self.old self.new }
        ensures went { Went self.old self.new }
        ensures searched { Searched self.old to self.new }
    {
        for from in self.claim.graph.preds(to) {
            self.visit(*from, to);
        }
    }

    /// Finds all places from which plays by the plan can come, by one move or
    /// more past places not heavier than `heaviest`, to the place that the search
    /// goes back from.
    pub(crate) fn trace(&mut self)
        requires inside { (n : ℕ) → In (members self.old.left.now) n → n < length self.old.claim.graph.now }
        requires first { slice_index self.old.queue.now 0 < length self.old.claim.graph.now }
        requires one { self.old.tail ≡ 1 }
        ensures same { Same self.old self.new }
        ensures traced { Traced self.old self.new }
    {
        let mut head = 0;
        // The queue grows on the way, so that no iterator can borrow it; it is lent
        // words, as this crate has no heap.
        while head < self.tail {
            let to = self.queue[head];
            head += 1;
            self.visit_all(to);
        }
    }

    /// Whether the search has found a place, of those that were left to be found.
    pub(crate) fn has_found(&self, place: u32) -> bool
        requires { place < length self.now.claim.graph.now }
        ensures { result ≡ not (members self.now.left.now place) }
    {
        !bits::has(self.left, place)
    }
}
