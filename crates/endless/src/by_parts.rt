//! The recursion over weights by closed parts: who wins each place of a subgame, and with which moves.
ghost use Rattle.std.specs.Prelude.{◌≡◌, ℕ, ◌+◌, ◌*◌, ◌%◌, ◌^◌, ◌<◌, ◌≤◌, length, option_copied, option_map, unwrap_or};
ghost use Rattle.std.specs.Option.{ForSome};
ghost use Rattle.endless.specs.Games.{other};
ghost use Rattle.endless.specs.Says.{side, goes};
ghost use Rattle.endless.specs.Sets.{Set, In, Out, Within, minus};
ghost use Rattle.endless.specs.Subgames.{Subgame, Closed, Solves};
ghost use Rattle.endless.specs.Sides.{number};
ghost use Rattle.endless.specs.Bits.{members, size};
ghost use Rattle.endless.specs.Ways.{Counted, Open, Untouched};
ghost use Rattle.endless.specs.Pulling.{Unchanged, Sized};
ghost use Rattle.endless.specs.Desks.{SameDesk};
ghost use Rattle.endless.specs.Levels.{HeaviestIn, Lent, Brought, Peeled, Peels, Room};
ghost use Rattle.endless.specs.Parts.{Listed, Part, Saved};
ghost use Rattle.endless.specs.View.{Playable};

use crate::attractor::attract;
use crate::bits;
use crate::closed::take_part;
use crate::desk::Desk;
use crate::escapes::count_ways;
use crate::gather::{gather_part, gather_targets, heaviest_in, is_any_wanted};
use crate::graph::Graph;
use crate::order::{Effort, Order, find_start};
use crate::side::Side;

/// Copies the places of a part from the queue to the first of the free words,
/// if they stand there: the list of them, and the words behind it.
// Cut from lent words, as this crate has no heap.
fn save<'a>(
    queue: &[u32],
    count: Option<usize>,
    free: &'a mut [u32],
) -> (Option<&'a [u32]>, &'a mut [u32])
    requires { ForSome count (λ k. (k ≤ length queue.now) × (k ≤ length free.old)) }
    ensures { Saved queue.now count (option_copied result.0) }
{
    match count {
        Some(count) => {
            let (list, beyond) = free.split_at_mut(count);
            list.copy_from_slice(&queue[0..count]);
            (Some(list), beyond)
        }
        None => (None, free),
    }
}

/// How many places a part has: those of its list, if there is one, or `many`.
fn part_size(list: Option<&[u32]>, many: usize) -> usize
    ensures { result ≡ unwrap_or (option_map length (option_copied list.entry)) many }
{
    list.map_or(many, |list| list.len())
}

// A set and how many places it has are two parameters from here on: the set is
// cut from `rest`, and the number comes from what was attracted, so that a
// struct of both would be made for each call and taken apart in it.

/// Takes from a part of `own` the attractor of its places of the heaviest
/// weight for the side that this weight is good for, and gives it to that
/// side; `left`, at first the part, becomes the rest. The heaviest weight, and
/// how many places are left. `own` has `many`.
fn bring_about_part(
    graph: &Graph,
    many: usize,
    own: &[u32],
    list: Option<&[u32]>,
    left: &mut [u32],
    desk: &mut Desk,
) -> (u32, usize)
    requires lent { Lent graph.now own.now desk.old }
    requires part { Part own.now (option_copied list) (members left.old) }
    requires counted { unwrap_or (option_map length (option_copied list)) many ≡ size left.old }
    requires same { length left.old ≡ length own.now }
    requires escapes { Counted graph.now (members own.now) (members left.old) desk.old.escapes.now }
    requires escaping { Open (members left.old) desk.old.escapes.now }
    ensures heaviest { 0 < size left.old → HeaviestIn graph.now (members left.old) result.0 }
    ensures rest { result.1 ≡ size left.new }
    ensures same { SameDesk desk.old desk.new }
    ensures frame { (n : ℕ) → Out (members left.old) n → Unchanged desk.old.out.now desk.new.out.now n }
    ensures kept { Untouched (members left.old) desk.old.escapes.now desk.new.escapes.now }
    ensures escapes { Closed graph.now (members own.now) (members left.old) → Counted graph.now (members left.new) (members left.new) desk.new.escapes.now }
    ensures brought { Subgame graph.now (members own.now) → Closed graph.now (members own.now) (members left.old) → Brought graph.now (members left.old) (result.0 % 2) result.0 (members left.new) desk.new.out.now }
{
    let weight = heaviest_in(graph, list, left);
    let side = Side::of_weight(weight);
    let targets = gather_targets(graph, side, weight, list, own, left, desk.out, desk.queue);
    let all = part_size(list, many);
    let taken = attract(graph, side, left, desk, targets, all);
    (weight, all - taken)
}

/// Takes a part of `own` away, which `winner` has won, with all from which it
/// can be brought about, and gives these to that side. `own` has `many` places;
/// how many are left.
fn peel_won(
    graph: &Graph,
    winner: Side,
    many: usize,
    list: Option<&[u32]>,
    own: &mut [u32],
    desk: &mut Desk,
) -> usize
    requires lent { Lent graph.now own.old desk.old }
    requires part { (R : Set) × Part own.old (option_copied list) R × Counted graph.now (members own.old) (minus (members own.old) R) desk.old.escapes.now }
    requires counted { many ≡ size own.old }
    requires subgame { Subgame graph.now (members own.old) }
    ensures rest { result ≡ size own.new }
    ensures falls { 0 < size own.old → size own.new < size own.old }
    ensures less { Within (members own.new) (members own.old) }
    ensures same { SameDesk desk.old desk.new }
    ensures frame { (n : ℕ) → Out (members own.old) n → Unchanged desk.old.out.now desk.new.out.now n }
    ensures kept { Untouched (members own.old) desk.old.escapes.now desk.new.escapes.now }
    ensures escapes { Counted graph.now (members own.new) (members own.new) desk.new.escapes.now }
    ensures peeled { (R : Set) → Subgame graph.now (members own.old) → Part own.old (option_copied list.entry) R → Peeled graph.now (members own.old) (number winner) R (members own.new) desk.old.out.now desk.new.out.now }
{
    match list {
        Some(_) => {
            // The answer is only read there, but lent as `&mut`: while one field of
            // what `desk` lends is lent as `&`, the borrow checker has no rule for
            // lending another as `&mut`.
            let targets = gather_part(None, list, own, &mut *desk.out, desk.queue);
            let taken = attract(graph, winner, own, desk, targets, many);
            many - taken
        }
        None => {
            bits::clear(own);
            0
        }
    }
}

/// Takes from `own` what of a part the answer gives to the other side than
/// `winner`, with all from which that can be brought about, and gives these to
/// it too; or all of the part, with the same for `winner`, where the answer
/// gives the other none. `own` has `many` places; how many are left.
fn peel_part(
    graph: &Graph,
    winner: Side,
    many: usize,
    list: Option<&[u32]>,
    own: &mut [u32],
    desk: &mut Desk,
) -> usize
    requires lent { Lent graph.now own.old desk.old }
    requires part { (R : Set) × Part own.old (option_copied list) R × Counted graph.now (members own.old) (minus (members own.old) R) desk.old.escapes.now }
    requires counted { many ≡ size own.old }
    requires subgame { Subgame graph.now (members own.old) }
    ensures rest { result ≡ size own.new }
    ensures falls { 0 < size own.old → size own.new < size own.old }
    ensures less { Within (members own.new) (members own.old) }
    ensures same { SameDesk desk.old desk.new }
    ensures frame { (n : ℕ) → Out (members own.old) n → Unchanged desk.old.out.now desk.new.out.now n }
    ensures kept { Untouched (members own.old) desk.old.escapes.now desk.new.escapes.now }
    ensures escapes { Counted graph.now (members own.new) (members own.new) desk.new.escapes.now }
    ensures peels { (R : Set) → Subgame graph.now (members own.old) → Part own.old (option_copied list.entry) R → Peels graph.now (members own.old) R (number winner) (other (number winner)) (members own.new) desk.old.out.now desk.new.out.now }
{
    let loser = winner.other();
    // The answer is lent as `&mut` for the reason in `peel_won`.
    if is_any_wanted(Some(loser), list, own, &mut *desk.out) {
        count_ways(graph, list, own, desk.escapes);
        let lost = gather_part(Some(loser), list, own, &mut *desk.out, desk.queue);
        let taken = attract(graph, loser, own, desk, lost, many);
        many - taken
    } else {
        peel_won(graph, winner, many, list, own, desk)
    }
}

/// Solves a subgame of `many` places in which all weights are below `bound`:
/// writes for each place who wins it, and a move. The smaller games stand in
/// `rest`, one set for each weight that is left. `within`, if there is one, is
/// a list with all places of the subgame; `spare` is lent for lists of places;
/// where it is short there are none. `effort` tells when it is worth while to
/// look for a smaller part.
pub fn level_by_parts(
    graph: &Graph,
    bound: u32,
    many: usize,
    own: &mut [u32],
    within: Option<&[u32]>,
    rest: &mut [u32],
    spare: &mut [u32],
    desk: &mut Desk,
    effort: &mut Effort,
)
    requires room { Room graph.now bound own.old rest.old desk.old }
    requires counted { many ≡ size own.old }
    requires listed { ForSome within (λ list. Listed own.old list.now) }
    requires playable { Playable graph.now }
    requires escapes { Counted graph.now (members own.old) (members own.old) desk.old.escapes.now }
    ensures same { SameDesk desk.old desk.new }
    ensures frame { (n : ℕ) → Out (members own.old) n → Unchanged desk.old.out.now desk.new.out.now n }
    ensures kept { Untouched (members own.old) desk.old.escapes.now desk.new.escapes.now }
    ensures solves { Subgame graph.now (members own.old) → Solves graph.now (members own.old) (side desk.new.out.now) (goes desk.new.out.now) }
{
    let places = graph.places();
    let mut order = Order::new();
    let mut remaining = many;
    while remaining > 0 {
        let start = find_start(
            places, own, remaining, spare, desk.queue, desk.via, &mut order, effort,
        );
        let (_, free) = spare.split_at_mut(order.kept.min(spare.len()));
        let (left, deeper) = rest.split_at_mut(own.len());
        let count = take_part(places, start, within, free.len(), own, left, desk.queue);
        let (list, beyond) = save(desk.queue, count, free);
        let (weight, below) = bring_about_part(graph, remaining, own, list, left, desk);
        if below > 0 {
            level_by_parts(
                graph, weight, below, left, list, deeper, beyond, desk, effort,
            );
        }
        remaining = peel_part(graph, Side::of_weight(weight), remaining, list, own, desk);
    }
}
