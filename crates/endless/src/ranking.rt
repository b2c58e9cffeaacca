//! Ranks that are proposed: for each place the number of its strongly
//! connected component by the moves that a plan allows. Nothing is proved of
//! them; they are looked at before they are believed.
use crate::claim::Claim;
use crate::components::{View, Walk, is_in, write};

/// The places of a claim's set that are not heavier than `heaviest`, and the
/// moves that its plan allows; each gets the number of its component as its
/// rank.
#[derive(Drop)]
struct Ranking<'c, 'r> {
    claim: Claim<'c>,
    heaviest: u32,
    ranks: &'r mut [u32],
}

impl View for Ranking<'_, '_> {
    fn has(&self, place: u32) -> bool {
        let claim = self.claim;
        place < claim.graph.len()
            && is_in(claim.set, place)
            && claim.graph.weight(place) <= self.heaviest
    }

    fn moves(&self, place: u32) -> &[u32] {
        let claim = self.claim;
        if place >= claim.graph.len() {
            return &[];
        }
        if !claim.graph.is_own(claim.side, place) {
            return claim.graph.moves(place);
        }
        let plan = 2 * place as usize + 1;
        &claim.answer[plan..plan + 1]
    }

    fn put(&mut self, place: u32, component: u32) {
        write(self.ranks, place as usize, component);
    }
}

impl Claim<'_> {
    /// Proposes a rank for each place of the set that is not heavier than
    /// `heaviest`; `lent` is for what the walk keeps.
    pub(crate) fn propose(&self, heaviest: u32, ranks: &mut [u32], lent: &mut [u32]) {
        let count = self.graph.len() as usize;
        if lent.len() < 3 * count {
            return;
        }
        let (numbers, lent) = lent.split_at_mut(count);
        let (found, lent) = lent.split_at_mut(count);
        let (queue, _) = lent.split_at_mut(count);
        numbers.fill(0);
        ranks.fill(0);
        let mut ranking = Ranking {
            claim: *self,
            heaviest,
            ranks,
        };
        let mut walk = Walk::new(numbers, found, queue);
        for start in 0..self.graph.len() {
            if ranking.has(start) {
                walk.go_from(&mut ranking, start);
            }
        }
    }
}
