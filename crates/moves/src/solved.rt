//! A game that is solved: which of its moves a plan makes.
ghost use Rattle.std.specs.Prelude.{◌≡◌, ℕ, ◌+◌, ◌*◌, ◌<◌, ◌≤◌, ◌↔◌, IsTrue, length, slice_index};
ghost use Rattle.endless.specs.Games.{Game, Reads};
ghost use Rattle.endless.specs.Says.{side as won-by, goes};
ghost use Rattle.endless.specs.Graph.{edges};
ghost use Rattle.endless.specs.Sides.{number};
ghost use Rattle.endless.specs.Subgames.{Subgame, Solves};
ghost use Rattle.endless.specs.Bits.{members};
ghost use Rattle.endless.specs.Layout.{width};
ghost use Rattle.endless.specs.View.{words_of};
ghost use Rattle.endless.specs.Checked.{IsAnswer};
ghost use Rattle.moves.specs.Moves.{origins, targets, origin, target, winner, room};
ghost use Rattle.moves.specs.Led.{leads};
ghost use Rattle.moves.specs.Marking.{Makes, Noted, StaysIs};

use endless::accepted::Accepted;
use endless::answer::{PlaceId, Winner, won_by};
use endless::graph::Places;
use endless::layout::solve_within;
use endless::side::Side;
use endless::words::GameWords;

/// Solves words that are known to be a game, where enough are lent: nothing
/// is refused.
pub fn answer_to(words: &[u32], answer: &mut [u32], work: &mut [u32])
    requires game { (g : Game) × Reads words.now g × (2 * length g ≤ length answer.old) }
    requires lent { 65536 + 4 * length words.now ≤ length work.old }
    ensures { (g : Game) → Reads words.now g → IsAnswer g answer.new }
{
    endless::solve(words, answer, work).unwrap();
}

/// Solves a game within a set of its places: words that are known to be a game,
/// where enough are lent.
pub fn answer_within(words: &[u32], set: &[u32], answer: &mut [u32], work: &mut [u32])
    requires game { (g : Game) × Reads words.now g × (2 * length g ≤ length answer.old) × (length set.now ≡ width (length g)) × Subgame g (members set.now) }
    requires lent { 65536 + 4 * length words.now ≤ length work.old }
    ensures { (g : Game) → Reads words.now g → Solves g (members set.now) (won-by answer.new) (goes answer.new) }
{
    let game = GameWords::known(words);
    solve_within(Accepted { game, work }, set, answer);
}

/// Writes for each place who wins it, and for each move no mark.
pub fn begin(answer: &[u32], places: usize, moves: usize, out: &mut [u32])
    requires answers { 2 * places ≤ length answer.now }
    requires room { places + moves ≤ length out.old }
    ensures winners { (n : ℕ) → n < places → winner out.new n ≡ slice_index answer.now (2 * n) }
    ensures none { (k : ℕ) → k < moves → slice_index out.new (places + k) ≡ 0 }
    ensures behind { (i : ℕ) → places + moves ≤ i → slice_index out.new i ≡ slice_index out.old i }
{
    // By number: tried with `zip`, and of what an adapter of `iter_mut` writes
    // nothing is known.
    for place in 0..places {
        out[place] = answer[2 * place];
    }
    out[places..places + moves].fill(0);
}

/// A game that is solved: its words, its places, an answer, and its moves in
/// the order of the words: the place that has each, and where it leads.
#[derive(Clone, Copy)]
pub struct Solved<'a> {
    pub words: &'a [u32],
    pub places: &'a Places<'a>,
    pub answer: &'a [u32],
    pub from: &'a [u32],
    pub to: &'a [u32],
    pub ghost words_are: { words.now ≡ words_of places.now },
    pub ghost reads: { Reads words.now places.now },
    pub ghost answers: { 2 * length places.now ≤ length answer.now },
    pub ghost from_are: { from.now ≡ origins 0 places.now },
    pub ghost to_are: { to.now ≡ targets places.now },
}

impl Solved<'_> {
    /// Whether the plan of `side` makes the move with index `k`, at a place
    /// that `side` wins.
    pub fn makes(&self, side: Side, plan: &[u32], k: usize) -> bool
        requires inside { k < edges self.now.places.now }
        requires plans { 2 * length self.now.places.now ≤ length plan.now }
        ensures { IsTrue result ↔ Makes self.now.places.now (won-by self.now.answer.now) (number side) (goes plan.now) (origin self.now.places.now k) (target self.now.places.now k) }
    {
        let from = self.from[k];
        if won_by(self.answer, PlaceId(from)) != Some(Winner(side)) {
            return false;
        }
        self.places.is_own(side, from) && plan[2 * from as usize + 1] == self.to[k]
    }

    /// Whether the side that wins `place` is to move there.
    pub fn leads(&self, place: u32) -> bool
        requires { place < length self.now.places.now }
        ensures { result ≡ leads self.now.places.now self.now.answer.now place }
    {
        let Some(winner) = won_by(self.answer, PlaceId(place)) else {
            return false;
        };
        self.places.is_own(winner.0, place)
    }

    /// The side that wins `place` and is to move there, where it wins the place
    /// that a move leads to as well.
    pub fn stays(&self, place: u32, to: u32) -> Option<Winner>
        requires place { place < length self.now.places.now }
        requires to { to < length self.now.places.now }
        ensures { StaysIs self.now.places.now (won-by self.now.answer.now) place to result }
    {
        let winner = won_by(self.answer, PlaceId(place))?;
        if !self.places.is_own(winner.0, place) {
            return None;
        }
        if won_by(self.answer, PlaceId(to)) != Some(winner) {
            return None;
        }
        Some(winner)
    }

    /// Marks the moves that the plan of `side` makes at the places that `side`
    /// wins, of those from the one with index `first` on.
    pub fn mark_plan(&self, side: Side, plan: &[u32], first: usize, out: &mut [u32])
        requires first { first ≤ edges self.now.places.now }
        requires plans { 2 * length self.now.places.now ≤ length plan.now }
        requires room { room self.now.places.now ≤ length out.old }
        ensures { Noted self.now.places.now (won-by self.now.answer.now) (number side) (goes plan.now) first (edges self.now.places.now) out.old out.new }
    {
        let places = self.places.len() as usize;
        for k in first..self.from.len() {
            if self.makes(side, plan, k) {
                out[places + k] = 1;
            }
        }
    }
}
