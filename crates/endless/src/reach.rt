//! From where a side can bring every play to a place.
ghost use Rattle.std.specs.Prelude.{ℕ, ◌*◌, ◌^◌, ◌<◌, ◌≤◌, length};
ghost use Rattle.endless.specs.Says.{side, goes};
ghost use Rattle.endless.specs.Sets.{In};
ghost use Rattle.endless.specs.Sides.{number};
ghost use Rattle.endless.specs.Bits.{members};
ghost use Rattle.endless.specs.View.{Playable};
ghost use Rattle.endless.specs.Pulling.{Unchanged};
ghost use Rattle.endless.specs.Desks.{SameDesk};
ghost use Rattle.endless.specs.Layout.{Fresh};
ghost use Rattle.endless.specs.Reaching.{Handed, Reaches, ReachPost};

use crate::accepted::Accepted;
use crate::answer::PlaceId;
use crate::attractor::attract;
use crate::desk::Desk;
use crate::escapes::count_ways;
use crate::gather::give;
use crate::graph::Graph;
use crate::layout::Layout;
use crate::refusal::Refusal;
use crate::side::Side;
use crate::{bits, layout};

/// From where `side` can bring every play to `target`, whatever the other side
/// does: writes two words for each place to `out`, `side` where it can (so at
/// the target) and the other side where it cannot, and a place, which at the
/// places of the one who gets his way there is the move of a plan by which he
/// does. `work` is lent, and holds anything before and after. Where the call is
/// refused, `out` is as it was.
pub fn attract_to(
    words: &[u32],
    target: PlaceId,
    side: Side,
    out: &mut [u32],
    work: &mut [u32],
) -> Result<(), Refusal>
    ensures { ReachPost words.now (length work.old) (number side) target.0 out.old out.new result }
{
    let accepted = layout::accept(words, work)?;
    let target = accepted.index(target)?;
    layout::out_room(accepted.game.len(), out.len())?;
    divide_game(accepted, side, target, out);
    Ok(())
}

/// Lays a game out and divides it between the sides: `winner` can bring every
/// play to `target` from the places given to it, and from no others.
fn divide_game(accepted: Accepted, winner: Side, target: u32, out: &mut [u32])
    requires target { target < length accepted.game }
    requires out { 2 * length accepted.game ≤ length out.old }
    ensures frame { (n : ℕ) → length accepted.entry.game ≤ n → Unchanged out.old out.new n }
    ensures reaches { Reaches accepted.entry.game (number winner) target (side out.new) (goes out.new) }
{
    let Layout {
        graph,
        queue,
        via,
        escapes,
        all,
        ..
    } = layout::lay_out(accepted);
    let mut desk = Desk {
        out,
        queue,
        via,
        escapes,
    };
    divide(&graph, winner, target, all, &mut desk);
}

/// Gives the places from which `winner` can bring every play to `target` to
/// it, and the others to the other side; `left`, at first all places, becomes
/// these.
fn divide(graph: &Graph, winner: Side, target: u32, left: &mut [u32], desk: &mut Desk)
    requires playable { Playable graph.now }
    requires target { target < length graph.now }
    requires fresh { Fresh graph.now left.old desk.old }
    ensures same { SameDesk desk.old desk.new }
    ensures frame { (n : ℕ) → length graph.now ≤ n → Unchanged desk.old.out.now desk.new.out.now n }
    ensures reaches { Reaches graph.now (number winner) target (side desk.new.out.now) (goes desk.new.out.now) }
{
    count_ways(graph, None, left, desk.escapes);
    give(graph, winner, target, left, desk.out);
    bits::remove(left, target);
    desk.queue[0] = target;
    let all = graph.len() as usize;
    attract(graph, winner, left, desk, 1, all);
    give_all(graph, winner.other(), left, desk.out);
}

/// Gives each place of the set to `side`, with a move of it that stays in the
/// set, where it has one.
fn give_all(graph: &Graph, side: Side, set: &[u32], out: &mut [u32])
    requires inside { (n : ℕ) → In (members set.now) n → n < length graph.now }
    requires answers { 2 * length graph.now ≤ length out.old }
    requires sets { length graph.now ≤ 32 * length set.now }
    requires small { 32 * length set.now < 2 ^ 32 }
    ensures { Handed graph.now (number side) (members set.now) out.old out.new }
{
    for place in bits::iter(set) {
        give(graph, side, place, set, out);
    }
}
