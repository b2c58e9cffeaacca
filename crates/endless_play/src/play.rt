//! The play: the program's moves and the person's, one after another.
ghost use Rattle.std.specs.Prelude.{◌<◌, length, IfOk, IfSome, OnOk};
ghost use Rattle.endless.specs.Graph.{moves};
ghost use Rattle.endless_play.specs.Wishes.{InList};

use crate::fault::Fault;
use crate::table::Table;
use crate::wish::{NoWish, Wish};
use crate::{input, show, wish};
use playing::{Trail, steps};
use std::alloc::{AllocError, Global};
use std::io;
use std::io::BufRead;
use std::marker::Model;

/// What comes next in a play that goes on.
#[derive(Clone, Copy)]
pub enum Turn {
    /// The move with this index, where the plan does not say where to go.
    Move(usize),
    /// The last choice is taken back.
    Back,
}

/// A play: what it is played on, what it has come through, and where it
/// stands.
#[derive(Drop)]
pub struct Play<'a> {
    table: Table<'a>,
    trail: Trail,
    place: u32,
    /// How many moves came since the person's last choice.
    alone: u64,
}

// Clauses see all of it.
impl<'a> Model for Play<'a> {
    ghost use Rattle.std.specs.Prelude.{◌<◌, length, All};
    ghost use Rattle.endless_play.specs.Settings.{Standing};

    ghost Value = { Standing };

    ghost view = { λ p. record { table = p.table; place = p.place; past = p.trail; alone = p.alone } };

    ghost invariant = { λ p. (p.place < length p.table.game) × All (λ c. c.place < length p.table.game) p.trail.choices };
}

impl<'a> Play<'a> {
    ghost use Rattle.endless_play.specs.Settings.{Begins, Noted, Goes, Returns};
    ghost use Rattle.endless_play.specs.Turns.{Within, Unasked, Makes};

    /// A play that stands at its first place.
    pub(crate) fn new(heap: Global, table: Table<'a>, place: u32) -> Result<Play<'a>, AllocError>
        requires { place < length table.game }
        ensures { IfOk result (Begins table.entry place) }
    {
        let trail = Trail::start(heap, table.board.weight(place))?;
        Ok(Play {
            table,
            trail,
            place,
            alone: 0,
        })
    }

    /// Plays until it ends, the person or the input ends it, or no choice comes.
    pub(crate) fn run<R: BufRead>(&mut self, rt: &HostRuntime, input: &mut R) -> Result<(), Fault> {
        // A play may go on for ever, so that there is nothing else to go over.
        for _ in 0..u64::MAX {
            let Some(turn) = self.next_turn(rt, input)? else {
                break;
            };
            self.make(rt, turn)?;
        }
        println!(rt; "the play ends")?;
        if self.table.is_end(self.place) {
            return Ok(());
        }
        self.tell_status(rt)
    }

    /// What comes next: the person is asked where there is a choice; elsewhere
    /// the play goes on, for a number of moves. `None` where it ends.
    fn next_turn<R: BufRead>(&self, rt: &HostRuntime, input: &mut R) -> Result<Option<Turn>, Fault>
        ensures within { IfOk result (λ t. IfSome t (Within self.now)) }
        ensures unasked { IfOk result (Unasked self.now) }
    {
        let table = &self.table;
        if table.is_end(self.place) {
            table.show_end(rt, self.place, self.trail.made())?;
            return Ok(None);
        }
        table.show_place(rt, self.place)?;
        if table.has_choice(self.place) {
            return self.ask(rt, input);
        }
        let alone = self.alone;
        if alone >= table.moves {
            println!(rt; "no choice of yours comes; moves made without one: {alone}")?;
            return Ok(None);
        }
        prove!(!table.board.moves(self.place).is_empty());
        Ok(Some(Turn::Move(0)))
    }

    /// Reads lines until one says how the play goes on.
    fn ask<R: BufRead>(&self, rt: &HostRuntime, input: &mut R) -> Result<Option<Turn>, Fault>
        ensures { IfOk result (λ t. IfSome t (Within self.now)) }
    {
        let table = &self.table;
        let moves = table.board.moves(self.place);
        table.show_moves(rt, moves)?;
        // Only the input ends it, so that there is nothing else to go over.
        for _ in 0..u64::MAX {
            match heard(rt.alloc(), input, table.names, moves)? {
                Ok(Wish::Move(index)) => return Ok(Some(Turn::Move(index))),
                Ok(Wish::Back) => return Ok(Some(Turn::Back)),
                Ok(Wish::Quit) => return Ok(None),
                Ok(Wish::Status) => self.tell_status(rt)?,
                Ok(Wish::Help) => show::help(rt)?,
                Err(reason) => println!(rt; "{reason}")?,
            }
            show::question(rt)?;
        }
        Ok(None)
    }

    fn tell_status(&self, rt: &HostRuntime) -> Result<(), Fault> {
        self.table.show_status(rt, &self.trail, self.place)
    }

    /// Makes the turn.
    fn make(&mut self, rt: &HostRuntime, turn: Turn) -> Result<(), Fault>
        requires { Within self.old turn }
        ensures { OnOk result (Makes self.old self.new turn) }
    {
        match turn {
            Turn::Move(choice) => {
                self.note()?;
                self.go(rt, choice)
            }
            Turn::Back => self.back(rt),
        }
    }

    /// Before a move: keeps the place where the person chooses there.
    fn note(&mut self) -> Result<(), AllocError>
        ensures { OnOk result (Noted self.old self.new) }
    {
        let table = &self.table;
        if table.has_choice(self.place) {
            self.trail.choose(self.place)?;
            self.alone = 0;
        } else {
            self.alone = self.alone.saturating_add(1);
        }
        Ok(())
    }

    /// Makes a move, and tells it.
    fn go(&mut self, rt: &HostRuntime, choice: usize) -> Result<(), Fault>
        requires { choice < length (moves self.old.table.game self.old.place) }
        ensures { OnOk result (Goes self.old self.new choice) }
    {
        let table = &self.table;
        let to = steps::step(&table.board, table.side, self.place, choice);
        table.show_move(rt, self.place, to)?;
        let weight = table.board.weight(to);
        self.trail.come(weight)?;
        self.place = to;
        Ok(())
    }

    /// Takes the last choice back, to the place where it was made; the play
    /// stays where it is where none can be taken back.
    fn back(&mut self, rt: &HostRuntime) -> Result<(), Fault>
        ensures { OnOk result (Returns self.old self.new) }
    {
        self.alone = 0;
        let before = self.trail.made();
        match self.trail.back(rt.alloc())? {
            Some(place) => {
                self.place = place;
                let taken = before - self.trail.made();
                println!(rt; "back to before your last choice; moves taken back: {taken}")?;
            }
            None => println!(rt; "no choice of yours is left that can be taken back")?,
        }
        Ok(())
    }
}

/// What the next line asks for, or why it asks for nothing; the end of the
/// input asks for the end.
fn heard<R: BufRead>(
    heap: Global,
    input: &mut R,
    names: &[String],
    moves: &[u32],
) -> Result<Result<Wish, NoWish>, Fault>
    ensures { IfOk result (λ w. IfOk w (InList (length moves.now))) }
{
    match input::next_line(heap, input)? {
        None => Ok(Ok(Wish::Quit)),
        Some(Ok(line)) => Ok(wish::understand(names, moves, line.as_str())),
        Some(Err(reason)) => Ok(Err(reason)),
    }
}
