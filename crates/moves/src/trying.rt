//! Moves that are tried: each in the game in which its place has it alone.
ghost use Rattle.std.specs.Prelude.{◌≡◌, ◌+◌, ◌<◌, ◌≤◌, ◌++◌, length, take, drop, replicate};
ghost use Rattle.endless.specs.Graph.{moves};
ghost use Rattle.endless.specs.Checked.{IsAnswer};
ghost use Rattle.moves.specs.Moves.{room};
ghost use Rattle.moves.specs.Led.{led as led-game};
ghost use Rattle.moves.specs.Marking.{before, lent_for_tries, TriedAll, Roomy};

use crate::led::{Led, lead};
use crate::solved::{Solved, answer_within};
use endless::answer::{PlaceId, won_by};
use endless::bits;
use endless::graph::Places;
use endless::verdict::gather_given;
use endless::words::GameWords;

/// Makes the words of the game in which a place has the move to `to` alone:
/// its moves stand from the word at `at` on.
fn leave_one(words: &[u32], at: usize, count: usize, to: u32, made: &mut [u32])
    requires made { length made.old ≡ length words.now }
    requires within { at + count ≤ length words.now }
    ensures { made.new ≡ take at words.now ++ (replicate count to ++ drop (at + count) words.now) }
{
    made.copy_from_slice(words);
    made[at..at + count].fill(to);
}

/// The moves of a solved game as they are tried one after the other: the marks
/// so far, and lent words for the game in which a move is tried, for an answer
/// to it, and for the solver.
#[derive(Drop)]
struct Trying<'g, 'r> {
    solved: Solved<'g>,
    led: Led<'g>,
    out: &'r mut [u32],
    part: &'r mut [u32],
    queue: &'r mut [u32],
    made: &'r mut [u32],
    tried: &'r mut [u32],
    work: &'r mut [u32],
    ghost led_is: { led.places.now ≡ led-game solved.places.now solved.answer.now (length solved.places.now) },
    ghost roomy: { Roomy solved.places.now led.all.now out.now part.now queue.now made.now tried.now work.now },
}

impl Trying<'_, '_> {
    ghost use Rattle.moves.specs.Tries.{Same, Tries, TriesPlace, TriesAll};

    /// Tries the move with index `k`, where it has no mark: one of `place`,
    /// whose first move has index `first`.
    fn try_move(&mut self, place: u32, first: usize, k: usize)
        requires answer { IsAnswer self.old.solved.places.now self.old.solved.answer.now }
        requires place { place < length self.old.solved.places.now }
        requires first { first ≡ before self.old.solved.places.now place }
        requires low { first ≤ k }
        requires high { k < first + length (moves self.old.solved.places.now place) }
        ensures same { Same self.old self.new }
        ensures tries { Tries self.old k self.new }
    {
        let solved = self.solved;
        let places = solved.places.len() as usize;
        if self.out[places + k] == 1 {
            return;
        }
        let to = solved.to[k];
        let Some(winner) = solved.stays(place, to) else {
            return;
        };
        let led = self.led;
        let part = &mut *self.part;
        let queue = &mut *self.queue;
        if !led.comes_to(to, place, part, queue) {
            self.out[places + k] = 1;
            return;
        }
        let at = 4 + 3 * place as usize + first;
        let count = solved.places.moves(place).len();
        let made = &mut *self.made;
        let tried = &mut *self.tried;
        let work = &mut *self.work;
        leave_one(solved.words, at, count, to, made);
        gather_given(solved.answer, winner.0, solved.places.len(), part);
        answer_within(made, part, tried, work);
        if won_by(tried, PlaceId(place)) == Some(winner) {
            let out = &mut *self.out;
            solved.mark_plan(winner.0, tried, k, out);
        }
    }

    /// Tries the moves of `place` that have no mark: the first has index
    /// `first`.
    fn try_place(&mut self, place: u32, first: usize)
        requires answer { IsAnswer self.old.solved.places.now self.old.solved.answer.now }
        requires place { place < length self.old.solved.places.now }
        requires first { first ≡ before self.old.solved.places.now place }
        ensures same { Same self.old self.new }
        ensures tries { TriesPlace self.old place self.new }
    {
        let next = first + self.solved.places.moves(place).len();
        for k in first..next {
            self.try_move(place, first, k);
        }
    }

    /// Tries all moves that have no mark, one place after the other.
    fn try_all(&mut self)
        requires answer { IsAnswer self.old.solved.places.now self.old.solved.answer.now }
        ensures same { Same self.old self.new }
        ensures tries { TriesAll self.old self.new }
    {
        let mut first = 0;
        for place in 0..self.solved.places.len() {
            self.try_place(place, first);
            first += self.solved.places.moves(place).len();
        }
    }
}

/// Lent words in which moves are tried: for a part of the places and a queue of
/// them, for the words of a game in which a move is alone, for an answer to it,
/// and for the solver.
#[derive(Drop)]
struct Bench<'r> {
    part: &'r mut [u32],
    queue: &'r mut [u32],
    made: &'r mut [u32],
    tried: &'r mut [u32],
    work: &'r mut [u32],
}

/// Tries all moves of a solved game that have no mark.
fn try_led(solved: Solved, led: Led, out: &mut [u32], bench: Bench)
    requires answer { IsAnswer solved.places.now solved.answer.now }
    requires led { led.places.now ≡ led-game solved.places.now solved.answer.now (length solved.places.now) }
    requires roomy { Roomy solved.places.now led.all.now out.old bench.part.now bench.queue.now bench.made.now bench.tried.now bench.work.now }
    ensures { TriedAll solved.entry.places.now solved.entry.answer.now out.old out.new }
{
    let Bench {
        part,
        queue,
        made,
        tried,
        work,
    } = bench;
    let mut trying = Trying {
        solved,
        led,
        out,
        part,
        queue,
        made,
        tried,
        work,
    };
    trying.try_all();
}

/// Tries all moves of a solved game that have no mark, in lent words.
pub fn try_moves<'a>(solved: Solved<'a>, out: &mut [u32], work: &'a mut [u32])
    requires answer { IsAnswer solved.places.now solved.answer.now }
    requires marks { room solved.places.now ≤ length out.old }
    requires lent { lent_for_tries solved.places.now ≤ length work.old }
    ensures { TriedAll solved.entry.places.now solved.entry.answer.now out.old out.new }
{
    let places = solved.places.len() as usize;
    let width = places.div_ceil(32);
    let (words, work) = work.split_at_mut(solved.words.len());
    let (starts, work) = work.split_at_mut(2 * places);
    let (all, work) = work.split_at_mut(width);
    let (part, work) = work.split_at_mut(width);
    let (queue, work) = work.split_at_mut(places);
    let (made, work) = work.split_at_mut(solved.words.len());
    let (tried, work) = work.split_at_mut(2 * places);
    lead(&solved, words);
    bits::fill(all, solved.places.len());
    let (starts, _) = starts.as_chunks_mut::<2>();
    let game = GameWords::known(words);
    let view = Places::new(game, starts);
    let led = Led { places: &view, all };
    let bench = Bench {
        part,
        queue,
        made,
        tried,
        work,
    };
    try_led(solved, led, out, bench);
}
