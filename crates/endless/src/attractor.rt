//! From where a side can bring every play to some targets: attractors.
ghost use Rattle.std.specs.Prelude.{◌≡◌, ℕ, ◌+◌, ◌*◌, ◌<◌, ◌≤◌, true, false, length, MatchOption, slice_index};
ghost use Rattle.endless.specs.Sets.{Set, In};
ghost use Rattle.endless.specs.Sides.{number};
ghost use Rattle.endless.specs.Bits.{members, size};
ghost use Rattle.endless.specs.Desks.{SameDesk};
ghost use Rattle.endless.specs.Graph.{Own};
ghost use Rattle.endless.specs.Ways.{Counted, Open, Untouched};
ghost use Rattle.endless.specs.Pulling.{Sized, Moved, Unchanged, Starts, Labelled, Attracts};

use crate::bits;
use crate::desk::Desk;
use crate::graph::Graph;
use crate::side::Side;

/// The first of these moves that leads into the set.
pub(crate) fn first_into(moves: &[u32], set: &[u32]) -> Option<usize>
    requires inside { (k : ℕ) → k < length moves.now → slice_index moves.now k < 32 * length set.now }
    ensures { MatchOption result ((k : ℕ) → k < length moves.now → members set.now (slice_index moves.now k) ≡ false) (λ k. (k < length moves.now) × (members set.now (slice_index moves.now k) ≡ true)) }
{
    moves.iter().position(|to| bits::has(set, *to))
}

/// An attractor that is being made: the side's own places, what is left of a
/// subgame, the places that are attracted, in the order in which they were, with
/// a move beside each, and for each place that is left how many ways out it still
/// has: of its moves within the subgame those that no place was looked at for.
// The fields of the desk, and not the desk: tried, and behind a second
// reference how long the queue may be is not known, so `tail` might wrap.
#[derive(Drop)]
struct Attraction<'g, 'r> {
    graph: &'g Graph<'g>,
    side: Side,
    own: &'g [u32],
    left: &'r mut [u32],
    queue: &'r mut [u32],
    via: &'r mut [u32],
    escapes: &'r mut [u32],
    tail: usize,
    ghost owned: { Own graph.now (number side) own.now },
    ghost sets: { length graph.now ≤ 32 * length left.now },
    ghost counts: { length graph.now ≤ length escapes.now },
    ghost room: { tail + size left.now < length queue.now },
    ghost beside: { tail + size left.now < length via.now },
    ghost escaping: { Open (members left.now) escapes.now },
}

impl Attraction<'_, '_> {
    ghost use Rattle.endless.specs.Attraction.{Same, Pulls, Moves, Keeps, Looks, Brings};

    /// Looks at `from`, which may move to `to`, of which the side can bring about
    /// the targets, so that by this move it does not escape: a place of that side
    /// is taken with it, one of the other's with its last way out.
    // No branch: whether a place is taken cannot be foretold, and to foretell it
    // wrongly costs more than all else here. So it is written behind the queue in
    // any case, and the queue grows where it is taken.
    fn pull(&mut self, from: u32, to: u32)
        requires from { from < length self.old.graph.now }
        ensures same { Same self.old self.new }
        ensures pulls { Pulls self.old from to self.new }
    {
        let left = &mut *self.left;
        let is_left = bits::has(left, from);
        let escapes = &mut *self.escapes;
        let ways = escapes[from as usize] - u32::from(is_left);
        escapes[from as usize] = ways;
        let is_taken = is_left & ((ways == 0) | bits::has(self.own, from));
        bits::remove_if(left, from, is_taken);
        self.queue[self.tail] = from;
        self.via[self.tail] = to;
        self.tail += usize::from(is_taken);
    }

    /// Looks at all places that may move to `to`.
    fn pull_all(&mut self, to: u32)
        requires to { to < length self.old.graph.now }
        ensures same { Same self.old self.new }
        ensures moves { Moves self.old self.new }
        ensures keeps { Keeps self.old self.new }
        ensures looks { Looks self.old to self.new }
    {
        for from in self.graph.preds(to) {
            self.pull(*from, to);
        }
    }

    /// Goes through the queue, up to its end or to where nothing is left: then
    /// `all` places stand in it.
    fn attract(&mut self, all: usize)
        requires inside { (n : ℕ) → In (members self.old.left.now) n → n < length self.old.graph.now }
        requires targets { (j : ℕ) → j < self.old.tail → slice_index self.old.queue.now j < length self.old.graph.now }
        requires counted { all ≡ self.old.tail + size self.old.left.now }
        ensures same { Same self.old self.new }
        ensures moves { Moves self.old self.new }
        ensures keeps { Keeps self.old self.new }
        ensures brings { Brings self.old self.new }
    {
        let mut head = 0;
        // The queue grows on the way, so that no iterator can borrow it; it is lent
        // words, as this crate has no heap.
        'queue: while head < self.tail {
            let to = self.queue[head];
            head += 1;
            self.pull_all(to);
            if self.tail == all {
                break 'queue;
            }
        }
    }
}

/// Gives the places of the queue between two indices to `side`, each with the
/// move beside it.
fn label(side: Side, queue: &[u32], via: &[u32], from: usize, to: usize, out: &mut [u32])
    requires order { from ≤ to }
    requires queue { to ≤ length queue.now }
    requires via { to ≤ length via.now }
    requires inside { (j : ℕ) → from ≤ j → j < to → 2 * slice_index queue.now j + 1 < length out.old }
    ensures { Labelled (number side) queue.now via.now from to out.old out.new }
{
    for i in from..to {
        let place = queue[i] as usize;
        out[2 * place] = u32::from(side);
        out[2 * place + 1] = via[i];
    }
}

/// Takes from what is left of a subgame all places from which `side` can
/// bring every play to one of the targets, which are the first places of the
/// queue: they follow there, and the answer gives them to `side`, with a move
/// for each of its own. The number of places in the queue then; `all` is how
/// many there would be with all that is left. `desk.escapes` tells of each
/// place that is left how many of its moves stay in the subgame, and afterwards
/// how many stay in what is left.
pub fn attract(
    graph: &Graph,
    side: Side,
    left: &mut [u32],
    desk: &mut Desk,
    targets: usize,
    all: usize,
) -> usize
    requires sized { Sized graph.now left.old desk.old.out.now desk.old.escapes.now }
    requires inside { (n : ℕ) → In (members left.old) n → n < length graph.now }
    requires targets { (j : ℕ) → j < targets → slice_index desk.old.queue.now j < length graph.now }
    requires room { targets + size left.old < length desk.old.queue.now }
    requires beside { targets + size left.old < length desk.old.via.now }
    requires counted { all ≡ targets + size left.old }
    requires escaping { Open (members left.old) desk.old.escapes.now }
    ensures same { SameDesk desk.old desk.new }
    ensures moved { Moved left.old desk.old.queue.now targets left.new desk.new.queue.now result }
    ensures frame { (n : ℕ) → (In (members left.old) n → In (members left.new) n) → Unchanged desk.old.out.now desk.new.out.now n }
    ensures kept { Untouched (members left.old) desk.old.escapes.now desk.new.escapes.now }
    ensures attracts { (U D : Set) → Starts U D left.old desk.old.queue.now targets → Counted graph.now U (members left.old) desk.old.escapes.now → Attracts graph.now U (number side) D left.new desk.new.queue.now desk.new.out.now desk.new.escapes.now result }
{
    let mut attraction = Attraction {
        graph: &*graph,
        side,
        own: graph.own(side),
        left,
        queue: &mut *desk.queue,
        via: &mut *desk.via,
        escapes: &mut *desk.escapes,
        tail: targets,
    };
    attraction.attract(all);
    let taken = attraction.tail;
    let queue = &mut *desk.queue;
    let via = &mut *desk.via;
    let out = &mut *desk.out;
    label(side, queue, via, targets, taken, out);
    taken
}
