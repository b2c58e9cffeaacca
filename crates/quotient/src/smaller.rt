//! The smaller game of a game, in which places that are alike are one.
ghost use Rattle.std.specs.Prelude.{◌≡◌, ℕ, ◌≤◌, length, slice_index};
ghost use Rattle.endless.specs.View.{words_of};
ghost use Rattle.quotient.specs.Promises.{Merges, MergedPost};

use crate::group::Groups;
use crate::number::number;
use crate::refine::settle;
use crate::round::Partition;
use crate::write::write;
use endless::accepted::Accepted;
use endless::layout::Layout;
use endless::{Refusal, bits, layout};

/// Makes places that are alike one: writes for each place which place of the
/// smaller game it became to `to`, and the words of that game to `smaller`,
/// and says how many words these are. Alike are places of the same side and
/// weight with moves to places that are alike, whatever their order and however
/// often each is there. The places of the smaller game are numbered by the
/// first place that became them, and each has its moves once, in ascending
/// order. `to` takes one word for each place, and `smaller` as many as the
/// words of the game. `work` is lent, 65,536 words and 4 for each word of the
/// game as with `solve`, and holds anything before and after. Where the call is
/// refused, `to` and `smaller` are as they were.
pub fn merge(
    words: &[u32],
    to: &mut [u32],
    smaller: &mut [u32],
    work: &mut [u32],
) -> Result<usize, Refusal>
    ensures { MergedPost words.now (length work.old) to.old smaller.old to.new smaller.new result }
{
    let accepted = layout::accept(words, work)?;
    if to.len() < accepted.game.len() as usize || smaller.len() < words.len() {
        return Err(Refusal::OutFull);
    }
    Ok(merge_game(accepted, to, smaller))
}

/// Lays a game out, parts its places, and writes the smaller game. How many
/// words this has.
fn merge_game(accepted: Accepted, to: &mut [u32], smaller: &mut [u32]) -> usize
    requires to { length accepted.game ≤ length to.old }
    requires smaller { length (words_of accepted.game) ≤ length smaller.old }
    ensures { Merges accepted.entry.game to.old smaller.old to.new smaller.new result }
{
    let Layout {
        graph,
        all,
        rest,
        ..
    } = layout::lay_out(accepted);
    let count = graph.len() as usize;
    let (told, rest) = rest.split_at_mut(count);
    let (parts, rest) = rest.split_at_mut(count);
    let (sizes, rest) = rest.split_at_mut(count + 1);
    let (fresh, rest) = rest.split_at_mut(count);
    let (list, rest) = rest.split_at_mut(count);
    let (made, rest) = rest.split_at_mut(count);
    let (heads, rest) = rest.split_at_mut(count);
    let (links, rest) = rest.split_at_mut(count);
    let (out, _) = rest.split_at_mut(all.len());
    bits::clear(all);
    bits::clear(out);
    let mut partition = Partition { parts, sizes, out };
    let mut groups = Groups {
        made,
        heads,
        links,
        set: &mut *all,
    };
    settle(&graph, told, &mut partition, fresh, list, &mut groups);
    let places = graph.places();
    let count = number(places, told, to);
    write(places, told, to, count, all, smaller)
}
