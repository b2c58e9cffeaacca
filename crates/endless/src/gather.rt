//! Places of a set, gathered into the queue: the heaviest, and those that a side has won.
ghost use Rattle.std.specs.Prelude.{◌≡◌, ℕ, ◌+◌, ◌*◌, ◌^◌, ◌<◌, ◌≤◌, List, length, option_copied, MatchOption, ◌==◌, slice_index};
ghost use Rattle.std.specs.Option.{ForSome};
ghost use Rattle.std.specs.Iterator.{IsFinite};
ghost use Rattle.endless.specs.Sets.{Set, In, Out, Within, having};
ghost use Rattle.endless.specs.Sides.{number};
ghost use Rattle.endless.specs.Bits.{members, size, Least, NoneFrom};
ghost use Rattle.endless.specs.Pulling.{Unchanged, Starts};
ghost use Rattle.endless.specs.Levels.{HeaviestIn, HeaviestOf, GatheredIn, Fitting, Given, Stays};
ghost use Rattle.endless.specs.Parts.{Told, Covers, Gives, Part, Any, AnyAt, wanted, mark};

use crate::attractor::first_into;
use crate::bits;
use crate::graph::Graph;
use crate::side::Side;

/// The heaviest weight of these places.
fn heaviest<I: Iterator<Item = u32> + Drop>(graph: &Graph, places: I) -> u32
    requires can { I.can_next places }
    requires ends { IsFinite (I.remaining places) }
    requires inside { (list : List ℕ) × Gives I.next_gives places list × ((j : ℕ) → j < length list → slice_index list j < length graph.now) }
    ensures { (list : List ℕ) → Gives I.next_gives places list → 0 < length list → HeaviestOf graph.now list result }
{
    let heaviest = places.map(|place| graph.weight(place)).max();
    heaviest.unwrap_or(0)
}

/// A move of a place that stays in the set, where it has one.
fn move_within(graph: &Graph, place: u32, set: &[u32]) -> u32
    requires place { place < length graph.now }
    requires sets { length graph.now ≤ 32 * length set.now }
    ensures { Stays graph.now (members set.now) place result }
{
    let moves = graph.moves(place);
    match first_into(moves, set) {
        Some(k) => moves[k],
        None => place,
    }
}

/// Gives a place to `side`, with a move of it that stays in the set, where it
/// has one.
pub(crate) fn give(graph: &Graph, side: Side, place: u32, set: &[u32], out: &mut [u32])
    requires place { place < length graph.now }
    requires answers { 2 * length graph.now ≤ length out.old }
    requires sets { length graph.now ≤ 32 * length set.now }
    ensures { Given graph.now (number side) place (members set.now) out.old out.new }
{
    out[2 * place as usize] = u32::from(side);
    out[2 * place as usize + 1] = move_within(graph, place, set);
}

/// The heaviest weight of a part, told by a list of its places, if there is
/// one.
pub(crate) fn heaviest_in(graph: &Graph, list: Option<&[u32]>, part: &[u32]) -> u32
    requires inside { (n : ℕ) → In (members part.now) n → n < length graph.now }
    requires told { ForSome list (λ list. Told list.now (members part.now)) }
    requires small { 32 * length part.now < 2 ^ 32 }
    ensures { 0 < size part.now → HeaviestIn graph.now (members part.now) result }
{
    match list {
        Some(list) => heaviest(graph, list.iter().copied()),
        None => heaviest(graph, bits::iter(part)),
    }
}

/// Places of a weight that are being gathered into the queue: what is left of
/// a part, from which they are taken, the answer, which gives them to `side`
/// with a move of each that stays in `own`, and how many stand in the queue.
#[derive(Drop)]
struct Gathering<'g, 'r> {
    graph: &'g Graph<'g>,
    side: Side,
    heaviest: u32,
    own: &'g [u32],
    left: &'r mut [u32],
    out: &'r mut [u32],
    queue: &'r mut [u32],
    count: usize,
    ghost fitting: { Fitting graph.now own.now left.now out.now },
    ghost room: { count + size left.now ≤ length queue.now },
}

impl Gathering<'_, '_> {
    ghost use Rattle.endless.specs.Gatherings.{SameGathering, Takes};

    /// Takes a place, where it is left and has the weight.
    fn take(&mut self, place: u32)
        requires place { place < length self.old.graph.now }
        ensures same { SameGathering self.old self.new }
        ensures takes { Takes self.old place self.new }
    {
        let left = &mut *self.left;
        if !bits::has(left, place) {
            return;
        }
        if self.graph.weight(place) != self.heaviest {
            return;
        }
        bits::remove(left, place);
        let out = &mut *self.out;
        give(self.graph, self.side, place, self.own, out);
        self.queue[self.count] = place;
        self.count += 1;
    }

    /// Takes those of these places that are left and have the weight, where
    /// none stands in the queue yet. How many these are.
    fn take_all<I: Iterator<Item = u32> + Drop>(&mut self, places: I) -> usize
        requires can { I.can_next places }
        requires ends { IsFinite (I.remaining places) }
        requires inside { (list : List ℕ) × Gives I.next_gives places list × ((j : ℕ) → j < length list → slice_index list j < length self.old.graph.now) }
        requires none { self.old.count ≡ 0 }
        ensures same { SameGathering self.old self.new }
        ensures counts { result + size self.new.left.now ≡ size self.old.left.now }
        ensures frame { (n : ℕ) → Out (members self.old.left.now) n → Unchanged self.old.out.now self.new.out.now n }
        ensures gathered { (list : List ℕ) → Gives I.next_gives places list → Covers self.old.left.now list → GatheredIn self.old.graph.now (members self.old.left.now) (members self.old.own.now) (number self.old.side) self.old.heaviest self.new.left.now self.new.queue.now self.new.out.now result }
    {
        for place in places {
            self.take(place);
        }
        self.count
    }
}

/// Puts the places of a weight of a part into the queue: by the list, if there
/// is one.
// Two slices of the desk, here and below: with the desk each contract would
// have a clause more, that the numbers of moves stay, for one parameter less.
pub(crate) fn gather_targets(
    graph: &Graph,
    side: Side,
    heaviest: u32,
    list: Option<&[u32]>,
    own: &[u32],
    left: &mut [u32],
    out: &mut [u32],
    queue: &mut [u32],
) -> usize
    requires inside { (n : ℕ) → In (members own.now) n → n < length graph.now }
    requires part { Within (members left.old) (members own.now) }
    requires fitting { Fitting graph.now own.now left.old out.old }
    requires told { ForSome list (λ list. Told list.now (members left.old)) }
    requires room { size left.old ≤ length queue.old }
    ensures counts { result + size left.new ≡ size left.old }
    ensures frame { (n : ℕ) → Out (members left.old) n → Unchanged out.old out.new n }
    ensures gathered { GatheredIn graph.now (members left.old) (members own.now) (number side) heaviest left.new queue.new out.new result }
{
    let mut gathering = Gathering {
        graph,
        side,
        heaviest,
        own,
        left,
        out,
        queue,
        count: 0,
    };
    match list {
        Some(list) => gathering.take_all(list.iter().copied()),
        None => {
            let places = bits::iter(own);
            gathering.take_all(places)
        }
    }
}

/// Whether the answer gives a place to a side; so it is of all places where no
/// side is asked for.
// An `Option` and no closure: the contracts name what is wanted, and with a
// closure each would have to say first what it answers.
fn is_wanted(winner: Option<Side>, out: &[u32], place: u32) -> bool
    requires { 2 * place < length out.now }
    ensures { result ≡ (wanted winner out.now place == mark winner) }
{
    match winner {
        Some(side) => out[2 * place as usize] == u32::from(side),
        None => true,
    }
}

/// Whether any of these places is wanted.
fn is_any<I: Iterator<Item = u32> + Drop>(winner: Option<Side>, places: I, out: &[u32]) -> bool
    requires can { I.can_next places }
    requires ends { IsFinite (I.remaining places) }
    requires inside { (list : List ℕ) × Gives I.next_gives places list × ((j : ℕ) → j < length list → 2 * slice_index list j < length out.now) }
    ensures { (list : List ℕ) → Gives I.next_gives places list → AnyAt (wanted winner out.now) (mark winner) list (length list) result }
{
    for place in places {
        if is_wanted(winner, out, place) {
            return true;
        }
    }
    false
}

/// Whether any place of a part is wanted: by the list, if there is one.
pub(crate) fn is_any_wanted(
    winner: Option<Side>,
    list: Option<&[u32]>,
    set: &[u32],
    out: &[u32],
) -> bool
    requires part { (R : Set) × Part set.now (option_copied list) R }
    requires answers { (n : ℕ) → In (members set.now) n → 2 * n < length out.now }
    requires small { 32 * length set.now < 2 ^ 32 }
    ensures { (R : Set) → Part set.now (option_copied list.entry) R → Any (having R (wanted winner out.now) (mark winner)) result }
{
    match list {
        Some(list) => is_any(winner, list.iter().copied(), out),
        None => is_any(winner, bits::iter(set), out),
    }
}

/// Wanted places that are being gathered into the queue: the set, from which
/// they are taken, the answer, which gives places to `winner`, and how many
/// stand in the queue. Where there is no winner, all places are wanted.
#[derive(Drop)]
struct Picking<'r> {
    winner: Option<Side>,
    set: &'r mut [u32],
    out: &'r [u32],
    queue: &'r mut [u32],
    count: usize,
    ghost answers: { (n : ℕ) → In (members set.now) n → 2 * n < length out.now },
    ghost room: { count + size set.now ≤ length queue.now },
    ghost small: { 32 * length set.now < 2 ^ 32 },
}

impl Picking<'_> {
    ghost use Rattle.endless.specs.Gatherings.{SamePicking, Picks, Picked, PickedOf};

    /// Takes a place, where it is in the set and wanted.
    fn take(&mut self, place: u32)
        requires inside { place < 32 * length self.old.set.now }
        ensures same { SamePicking self.old self.new }
        ensures picks { Picks self.old place self.new }
    {
        let set = &mut *self.set;
        if !bits::has(set, place) {
            return;
        }
        if !is_wanted(self.winner, self.out, place) {
            return;
        }
        bits::remove(set, place);
        self.queue[self.count] = place;
        self.count += 1;
    }

    /// Takes the wanted places of a list, where none stands in the queue yet. How
    /// many these are.
    fn take_listed(&mut self, list: &[u32]) -> usize
        requires inside { (j : ℕ) → j < length list.now → slice_index list.now j < 32 * length self.old.set.now }
        requires none { self.old.count ≡ 0 }
        ensures picked { Picked self.old self.new result }
        ensures all { (R : Set) → Within R (members self.old.set.now) → Told list.now R → PickedOf self.old R self.new result }
    {
        for place in list {
            self.take(*place);
        }
        self.count
    }

    /// The least place of the set at or after `from`.
    fn next(&self, from: u32) -> Option<u32>
        ensures { MatchOption result (NoneFrom (members self.now.set.now) from) (λ place. Least (members self.now.set.now) from place) }
    {
        bits::next(self.set, from)
    }

    /// Takes the wanted places of the set, where none stands in the queue yet. How
    /// many these are.
    fn take_all(&mut self) -> usize
        requires none { self.old.count ≡ 0 }
        ensures picked { Picked self.old self.new result }
        ensures all { PickedOf self.old (members self.old.set.now) self.new result }
    {
        let mut from = 0;
        // The set loses members on the way, so that no iterator can borrow it, as
        // one borrows a list.
        while let Some(place) = self.next(from) {
            self.take(place);
            from = place + 1;
        }
        self.count
    }
}

/// Takes the places of a part that the answer gives to `winner`, or all of them
/// where there is none, out of the set and puts them into the queue: by the
/// list, if there is one.
pub(crate) fn gather_part(
    winner: Option<Side>,
    list: Option<&[u32]>,
    set: &mut [u32],
    out: &[u32],
    queue: &mut [u32],
) -> usize
    requires part { (R : Set) × Part set.old (option_copied list) R }
    requires answers { (n : ℕ) → In (members set.old) n → 2 * n < length out.now }
    requires room { size set.old ≤ length queue.old }
    requires small { 32 * length set.old < 2 ^ 32 }
    ensures counts { result + size set.new ≡ size set.old }
    ensures same { result ≡ 0 → set.new ≡ set.old }
    ensures starts { (R : Set) → Part set.old (option_copied list.entry) R → Starts (members set.old) (having R (wanted winner out.now) (mark winner)) set.new queue.new result }
{
    let mut picking = Picking {
        winner,
        set,
        out,
        queue,
        count: 0,
    };
    match list {
        Some(list) => picking.take_listed(list),
        None => picking.take_all(),
    }
}
