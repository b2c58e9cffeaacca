//! The play: the winner of the first place goes by the plan, the other side
//! at random. What the contract of `step` promises is looked at once more at
//! each move.
//!
//! Of a play that goes on for ever by the plan the theory says that the
//! heaviest weight which comes again and again is of the winner's kind, and of
//! a round by the plan that its heaviest weight is. Of a window of the last
//! 1,000 places it says nothing: a window need not be a round, and what weighs
//! most in it may be of either kind. So the windows are counted, by the kind of
//! their heaviest weight, and no number of either kind would be a fault.
ghost use Rattle.std.specs.Prelude.{◌<◌, length, IfOk};
ghost use Rattle.endless.specs.Graph.{moves};
ghost use Rattle.playing.specs.Boards.{Answered};

use crate::fault::Fault;
use crate::{input, report};
use draws::Random;
use endless::side::Side;
use playing::board::Room;
use playing::{Board, Trail, steps};
use std::alloc::{AllocError, Global};
use std::marker::Model;

/// Where the generator starts.
const START: u64 = 3;

/// What came in a play.
#[derive(Clone, Copy, Default)]
pub struct Tally {
    /// Moves by the plan.
    pub planned: u64,
    /// Moves of the other side, and those where it had more than one.
    pub free: u64,
    pub chosen: u64,
    /// Windows whose heaviest weight is of the winner's kind, and others.
    pub own: u64,
    pub other: u64,
}

impl Tally {
    /// One more move, from this place, and one more window.
    fn count(&mut self, board: &Board, side: Side, from: u32, trail: &Trail)
        requires { from < length board.now.game }
    {
        if board.whose(from) == side {
            one_more(&mut self.planned);
        } else {
            one_more(&mut self.free);
            if board.moves(from).len() > 1 {
                one_more(&mut self.chosen);
            }
        }
        if let Some(weight) = trail.heaviest() {
            if Side::of_weight(u32::from(weight)) == side {
                one_more(&mut self.own);
            } else {
                one_more(&mut self.other);
            }
        }
    }
}

fn one_more(count: &mut u64) {
    *count = count.saturating_add(1);
}

/// A play: who goes by the plan, where it stands, and what came.
#[derive(Drop)]
pub struct Play<'a> {
    pub board: Board<'a>,
    pub side: Side,
    pub place: u32,
    pub trail: Trail,
    pub tally: Tally,
    random: Random<usize, 33>,
}

// Clauses see the game and the answer.
impl<'a> Model for Play<'a> {
    ghost use Rattle.std.specs.Prelude.{◌<◌, length};
    ghost use Rattle.playing.specs.Boards.{Answered};
    ghost use Rattle.playing.specs.Solutions.{Solution};

    ghost Value = { Solution };

    ghost view = { λ p. p.board };

    ghost invariant = { λ p. Answered p.board.game p.board.answer × (p.place < length p.board.game) };
}

/// Reads the game, solves it, and plays it from its first place.
pub(crate) fn run(rt: &HostRuntime, file: &str, count: u64) -> Result<(), Fault> {
    let heap = rt.alloc();
    let source = input::source(rt, file)?;
    let mut room = Room::new(heap);
    let Some(board) = Board::solve_in(heap, source.words.as_slice(), &mut room)? else {
        return Err(Fault::NoGame);
    };
    if board.len() == 0 {
        return Err(Fault::NoGame);
    }
    report::start(rt, file, &board)?;
    let mut play = Play::new(heap, board)?;
    for _ in 0..count {
        play.go()?;
    }
    report::end(rt, &play)
}

impl<'a> Play<'a> {
    /// A play that stands at the first place; the side that wins there goes by
    /// the plan.
    fn new(heap: Global, board: Board<'a>) -> Result<Play<'a>, AllocError>
        requires answered { Answered board.game board.answer }
        requires some { 0 < length board.game }
    {
        let side = board.winner(0);
        let trail = Trail::start(heap, board.weight(0))?;
        Ok(Play {
            board,
            side,
            place: 0,
            trail,
            tally: Tally::default(),
            random: Random::new(START),
        })
    }

    /// Makes a move, at random where the plan does not say which, and counts it.
    fn go(&mut self) -> Result<(), Fault> {
        let from = self.place;
        let board = &self.board;
        let choice = self.random.below(board.moves(from).len());
        let to = step(board, self.side, from, choice)?;
        let weight = board.weight(to);
        self.trail.come(weight)?;
        self.tally.count(board, self.side, from, &self.trail);
        self.place = to;
        Ok(())
    }
}

/// Where a move goes, and whether it is as it should be.
fn step(board: &Board, side: Side, from: u32, choice: usize) -> Result<u32, Fault>
    requires answered { Answered board.now.game board.now.answer }
    requires within { from < length board.now.game }
    requires listed { choice < length (moves board.now.game from) }
    ensures { IfOk result (λ to. to < length board.now.game) }
{
    let to = steps::step(board, side, from, choice);
    let planned = board.whose(from) != side || to == board.plan(from);
    if !planned || board.winner(to) != side {
        return Err(Fault::Wrong { from, to });
    }
    Ok(to)
}
