//! In how many moves a side can make sure that the play comes to a place.
ghost use Rattle.std.specs.Prelude.{ℕ, ◌*◌, ◌<◌, ◌≤◌, length};
ghost use Rattle.endless.specs.Says.{goes};
ghost use Rattle.endless.specs.Sides.{number as side-number};
ghost use Rattle.endless.specs.Pulling.{Unchanged};
ghost use Rattle.distance.specs.Spreading.{number, Measured, Roomy};
ghost use Rattle.distance.specs.Distances.{DistancesPost};

use crate::spread::{clear, spread};
use endless::accepted::Accepted;
use endless::answer::PlaceId;
use endless::graph::Graph;
use endless::layout::Layout;
use endless::side::Side;
use endless::{Refusal, layout};

/// The least number of moves in which `side` can make sure that the play
/// comes to `target`, whatever the other side does: writes two words for each
/// place to `out`, the number, 0 at the target itself and 2^32 - 1 where
/// `side` cannot, and a move. At the places of `side` these are one plan that
/// takes no more moves than the number, from all of these places. `work` is
/// lent, and holds anything before and after. Where the call is refused, `out`
/// is as it was.
pub fn distances_to(
    words: &[u32],
    target: PlaceId,
    side: Side,
    out: &mut [u32],
    work: &mut [u32],
) -> Result<(), Refusal>
    ensures { DistancesPost words.now (length work.old) (side-number side) target.0 out.old out.new result }
{
    let accepted = layout::accept(words, work)?;
    let target = accepted.index(target)?;
    layout::out_room(accepted.game.len(), out.len())?;
    measure(accepted, side, target, out);
    Ok(())
}

/// Lays a game out, and numbers its places from the target.
fn measure(accepted: Accepted, side: Side, target: u32, out: &mut [u32])
    requires target { target < length accepted.game }
    requires out { 2 * length accepted.game ≤ length out.old }
    ensures behind { (n : ℕ) → length accepted.entry.game ≤ n → Unchanged out.old out.new n }
    ensures measured { Measured accepted.entry.game (side-number side) target (number out.new) (goes out.new) }
{
    let Layout {
        graph,
        queue,
        escapes,
        ..
    } = layout::lay_out(accepted);
    number_from(&graph, side, target, out, queue, escapes);
}

/// Numbers the places of a game from the target.
fn number_from(
    graph: &Graph,
    side: Side,
    target: u32,
    out: &mut [u32],
    queue: &mut [u32],
    awaited: &mut [u32],
)
    requires target { target < length graph.now }
    requires roomy { Roomy graph.now out.old queue.old awaited.old }
    ensures behind { (n : ℕ) → length graph.now ≤ n → Unchanged out.old out.new n }
    ensures measured { Measured graph.now (side-number side) target (number out.new) (goes out.new) }
{
    clear(graph.places(), out, awaited);
    out[2 * target as usize] = 0;
    queue[0] = target;
    spread(graph, side, out, queue, awaited);
}
