//! The lent words, cut into the parts that the solver works in.
ghost use Rattle.std.specs.Prelude.{◌≡◌, ℕ, ◌+◌, ◌*◌, ◌<◌, ◌≤◌, length, nat_le};
ghost use Rattle.endless.specs.Says.{side, goes};
ghost use Rattle.endless.specs.Sets.{Out, whole};
ghost use Rattle.endless.specs.Subgames.{Subgame, Solves};
ghost use Rattle.endless.specs.Bits.{members};
ghost use Rattle.endless.specs.Ways.{Counted};
ghost use Rattle.endless.specs.Pulling.{Unchanged};
ghost use Rattle.endless.specs.Weights.{kinds};
ghost use Rattle.endless.specs.View.{Playable};
ghost use Rattle.endless.specs.Layout.{width, OutRoomIs, LaidOut, Fits};
ghost use Rattle.endless.specs.Accepting.{Accepts};

use crate::accepted::Accepted;
use crate::by_parts::level_by_parts;
use crate::desk::Desk;
use crate::escapes::{count_moves, count_ways};
use crate::graph::{Graph, Places};
use crate::order::Effort;
use crate::refusal::Refusal;
use crate::words::GameWords;
use crate::{bits, weights};

/// Whether 65,536 words and 4 for each word of the game are lent.
pub fn is_enough(words: usize, lent: usize) -> bool
    ensures { result ≡ nat_le (65536 + 4 * words) lent }
{
    lent >= 65536 && (lent - 65536) / 4 >= words
}

/// These words as a game, with the words that are lent, if it can be worked
/// on: enough are lent, and they are a game.
pub fn accept<'a>(words: &'a [u32], work: &'a mut [u32]) -> Result<Accepted<'a>, Refusal>
    ensures { Accepts words.now (length work.old) result }
{
    if !is_enough(words.len(), work.len()) {
        return Err(Refusal::Few);
    }
    let game = GameWords::read(words).ok_or(Refusal::NoGame)?;
    Ok(Accepted { game, work })
}

/// An answer has no room: how many words it takes, and how many there are.
#[derive(Clone, Copy, Debug, PartialEq, Eq)]
pub struct Short {
    pub needed: usize,
    pub given: usize,
}

/// Whether `given` words hold an answer for so many places.
pub fn out_room(places: u32, given: usize) -> Result<(), Short>
    ensures { OutRoomIs places given result }
{
    let needed = 2 * places as usize;
    if given < needed {
        return Err(Short { needed, given });
    }
    Ok(())
}

/// A game laid out in the lent words: its graph, a queue for its places and one
/// more, as many words for what stands beside them, how many moves each place
/// has, the set of all of them, and what is left of the words.
#[derive(Drop)]
pub struct Layout<'a> {
    pub graph: Graph<'a>,
    pub queue: &'a mut [u32],
    pub via: &'a mut [u32],
    pub escapes: &'a mut [u32],
    pub all: &'a mut [u32],
    pub rest: &'a mut [u32],
}

/// Cuts the lent words for a game, and makes its graph there.
#[tactic(auto, using(crate::proofs::Layouts::sets_fit))]
pub fn lay_out<'a>(accepted: Accepted<'a>) -> Layout<'a>
    ensures { LaidOut (length accepted.entry.work.now) accepted.entry.game result }
{
    let Accepted { game, work } = accepted;
    let places = game.len() as usize;
    let moves = game.move_count();
    let (starts, work) = work.split_at_mut(2 * places);
    let (starts, _) = starts.as_chunks_mut::<2>();
    let view = Places::new(game, starts);
    let (even, work) = work.split_at_mut(places.div_ceil(32));
    let (odd, work) = work.split_at_mut(places.div_ceil(32));
    let (weights, work) = work.split_at_mut(places);
    let (offsets, work) = work.split_at_mut(2 * (places + 1));
    let (preds, work) = work.split_at_mut(moves);
    let (offsets, _) = offsets.as_chunks_mut::<2>();
    let graph = Graph::new(view, even, odd, weights, offsets, preds);
    let (queue, work) = work.split_at_mut(places + 1);
    let (via, work) = work.split_at_mut(places + 1);
    let (escapes, work) = work.split_at_mut(places);
    count_moves(&graph, escapes);
    let (all, rest) = work.split_at_mut(places.div_ceil(32));
    bits::fill(all, graph.len());
    Layout {
        graph,
        queue,
        via,
        escapes,
        all,
        rest,
    }
}

impl Layout<'_> {
    /// Solves the game within the places in `all`, of whose moves `escapes` has how
    /// many stay there: cuts a set for each of the game's levels, and goes through
    /// these.
    fn solve(self, levels: usize, out: &mut [u32])
        requires levels { levels ≡ kinds self.graph }
        requires fits { Fits self.graph self.queue.now self.via.now self.escapes.now self.all.now self.rest.now }
        requires playable { Playable self.graph }
        requires subgame { Subgame self.graph (members self.all.now) }
        requires escapes { Counted self.graph (members self.all.now) (members self.all.now) self.escapes.now }
        requires out { 2 * length self.graph ≤ length out.old }
        ensures frame { (n : ℕ) → Out (members self.entry.all.now) n → Unchanged out.old out.new n }
        ensures solves { Solves self.entry.graph (members self.entry.all.now) (side out.new) (goes out.new) }
    {
        let Layout {
            graph,
            queue,
            via,
            escapes,
            all,
            rest,
        } = self;
        let (sets, spare) = rest.split_at_mut(levels * all.len());
        let many = bits::count(all);
        let mut effort = Effort::new(many);
        let mut desk = Desk {
            out,
            queue,
            via,
            escapes,
        };
        level_by_parts(
            &graph,
            256,
            many as usize,
            all,
            None,
            sets,
            spare,
            &mut desk,
            &mut effort,
        );
    }
}

/// Solves a game: lays it out, and goes through its levels.
pub(crate) fn solve_game(accepted: Accepted, out: &mut [u32])
    requires out { 2 * length accepted.game ≤ length out.old }
    ensures frame { (n : ℕ) → length accepted.entry.game ≤ n → Unchanged out.old out.new n }
    ensures solves { Solves accepted.entry.game (whole accepted.entry.game) (side out.new) (goes out.new) }
{
    let levels = weights::levels(&accepted.game);
    lay_out(accepted).solve(levels, out);
}

/// Solves a game within a set of its places, each of which has a move into the
/// set: as if there were no others. Of the answer nothing else is changed.
pub fn solve_within(accepted: Accepted, set: &[u32], out: &mut [u32])
    requires wide { length set.now ≡ width (length accepted.game) }
    requires subgame { Subgame accepted.game (members set.now) }
    requires out { 2 * length accepted.game ≤ length out.old }
    ensures frame { (n : ℕ) → Out (members set.now) n → Unchanged out.old out.new n }
    ensures solves { Solves accepted.entry.game (members set.now) (side out.new) (goes out.new) }
{
    let levels = weights::levels(&accepted.game);
    let Layout {
        graph,
        queue,
        via,
        escapes,
        all,
        rest,
    } = lay_out(accepted);
    bits::copy(set, all);
    count_ways(&graph, None, set, escapes);
    let layout = Layout {
        graph,
        queue,
        via,
        escapes,
        all,
        rest,
    };
    layout.solve(levels, out);
}
