//! Numbers that spread from a target: the queue of places gone through in
//! order, the nearest first.
ghost use Rattle.std.specs.Prelude.{◌≡◌, ℕ, ◌*◌, ◌<◌, ◌≤◌, List, [], length, take, ◌≢◌, slice_index};
ghost use Rattle.endless.specs.Games.{whose};
ghost use Rattle.endless.specs.Says.{goes};
ghost use Rattle.endless.specs.Sides.{number as side-number};
ghost use Rattle.endless.specs.View.{Playable};
ghost use Rattle.endless.specs.Graph.{sources};
ghost use Rattle.endless.specs.Pulling.{Unchanged};
ghost use Rattle.distance.specs.Spreading.{number, Measured, Spread, Looks, Roomy, Waited};
ghost use Rattle.distance.specs.Distances.{Cleared};

use endless::graph::{Graph, Places};
use endless::side::Side;

/// The number that says that a side cannot make sure of the target.
// A word and no `Option`: the answer is words, as C has them (docs/FORMAT.md).
pub const NEVER: u32 = 0xffff_ffff;

/// Gives no place a number, each its first move, and counts its moves.
pub fn clear(places: &Places, out: &mut [u32], awaited: &mut [u32])
    requires answers { 2 * length places.now ≤ length out.old }
    requires counts { length places.now ≤ length awaited.old }
    ensures cleared { Cleared places.now (length places.now) out.old out.new awaited.new }
    ensures playable { Playable places.now }
{
    // By place: tried with `zip`, and of what an adapter of `iter_mut` writes
    // nothing is known.
    for place in 0..places.len() {
        let at = 2 * place as usize;
        let moves = places.moves(place);
        out[at] = NEVER;
        out[at + 1] = moves[0];
        awaited[place as usize] = places.head(place).moves;
    }
}

/// Takes one off the moves that a place of the other side's waits for: whether
/// it waits for more. A place of `side`'s does not wait.
fn still_waits(graph: &Graph, side: Side, from: u32, awaited: &mut [u32]) -> bool
    requires from { from < length graph.now }
    requires counts { length graph.now ≤ length awaited.old }
    requires waits { (whose graph.now from ≢ side-number side) → 0 < slice_index awaited.old from }
    ensures { Waited graph.now (side-number side) from awaited.old awaited.new result }
{
    if graph.is_own(side, from) {
        return false;
    }
    awaited[from as usize] -= 1;
    awaited[from as usize] > 0
}

/// Numbers that are being spread from a target: the answer so far, and the
/// places that have a number, in the order in which they got it.
#[derive(Drop)]
struct Spreading<'g, 'r> {
    graph: &'g Graph<'g>,
    side: Side,
    // Two words for each place, and no pairs: the C interface lends words, and
    // what `number` and `goes` say of an answer is said of them.
    out: &'r mut [u32],
    queue: &'r mut [u32],
    awaited: &'r mut [u32],
    tail: usize,
    ghost playable: { Playable graph.now },
    ghost roomy: { Roomy graph.now out.now queue.now awaited.now },
}

impl Spreading<'_, '_> {
    ghost use Rattle.distance.specs.Steps.{Going, Same, Pulls, Advances, Measures};

    /// Looks at `from`, which may move to `to`, for which one move more than
    /// from there makes `number`: a place of the side's gets that number and
    /// this move, one of the other's only where this was the last of its moves
    /// that were still awaited.
    fn pull(&mut self, from: u32, to: u32, number: u32)
        requires { (target : ℕ) × (before : List ℕ) × (head : ℕ) × (i : ℕ) × Looks self.old.graph.now to number from head i self.old.queue.now self.old.out.now self.old.tail × Going self.old target before head (take i (sources 0 self.old.graph.now to)) }
        ensures same { Same self.old self.new }
        ensures pulls { Pulls self.old from to number self.new }
    {
        let at = 2 * from as usize;
        if self.out[at] != NEVER {
            return;
        }
        let awaited = &mut *self.awaited;
        if still_waits(self.graph, self.side, from, awaited) {
            return;
        }
        self.out[at] = number;
        self.out[at + 1] = to;
        self.queue[self.tail] = from;
        self.tail += 1;
    }

    /// Looks at all places that may move to `to`, the first place of the queue
    /// that was not yet gone through.
    fn pull_all(&mut self, to: u32)
        requires { (target : ℕ) × (before : List ℕ) × (head : ℕ) × (head < self.old.tail) × (slice_index self.old.queue.now head ≡ to) × Going self.old target before head [] }
        ensures same { Same self.old self.new }
        ensures advances { Advances self.old to self.new }
    {
        let number = self.out[2 * to as usize] + 1;
        for from in self.graph.preds(to) {
            self.pull(*from, to, number);
        }
    }

    /// Goes through the queue, up to its end.
    fn spread(&mut self)
        requires { (target : ℕ) × (before : List ℕ) × Going self.old target before 0 [] }
        ensures same { Same self.old self.new }
        ensures measures { Measures self.old self.new }
    {
        let mut head = 0;
        // The queue grows on the way, so that no iterator can borrow it.
        while head < self.tail {
            let to = self.queue[head];
            head += 1;
            self.pull_all(to);
        }
    }
}

/// Spreads the numbers from the target, the one place in the queue, as far as
/// `side` can make sure of it.
pub fn spread(graph: &Graph, side: Side, out: &mut [u32], queue: &mut [u32], awaited: &mut [u32])
    requires playable { Playable graph.now }
    requires roomy { Roomy graph.now out.old queue.old awaited.old }
    requires spread { (target : ℕ) × (before : List ℕ) × Spread graph.now (side-number side) target before 0 [] out.old queue.old awaited.old 1 }
    ensures { (target : ℕ) (before : List ℕ) → Spread graph.now (side-number side) target before 0 [] out.old queue.old awaited.old 1 → Measured graph.now (side-number side) target (number out.new) (goes out.new) × ((n : ℕ) → length graph.now ≤ n → Unchanged before out.new n) }
{
    let mut spreading = Spreading {
        graph,
        side,
        out,
        queue,
        awaited,
        tail: 1,
    };
    spreading.spread();
}
