//! What the program prints.
use crate::tally::Tally;
use crate::trial::{Desk, Wrong};
use allplans::checker::Answer;
use allplans::fault::Fault;
use allplans::fine::{EndsGame, FineGame};
use allplans::game::Game;
use allplans::side::Side;
use std::alloc::{AllocError, Global};
use std::{fmt, io};

/// Why the program stopped.
#[derive(Drop)]
pub(crate) enum Error {
    Fault(Fault),
    Io(io::Error),
    /// So many games disagreed.
    Disagreed(u32),
    /// So many answers with a winner or a number changed were not refused.
    NotRefused(u32),
    /// Of so many answers with a word changed not all ways say the same.
    Disputed(u32),
}

impl From<Fault> for Error {
    fn from(fault: Fault) -> Error {
        Error::Fault(fault)
    }
}

impl From<AllocError> for Error {
    fn from(_error: AllocError) -> Error {
        Error::Fault(Fault::NoMemory)
    }
}

impl From<io::Error> for Error {
    fn from(error: io::Error) -> Error {
        Error::Io(error)
    }
}

impl fmt::Display for Error {
    fn fmt<W: fmt::Write>(&self, f: &mut fmt::Formatter<W>) -> fmt::Result {
        match self {
            Error::Fault(fault) => write!(f, "{fault}"),
            Error::Io(error) => write!(f, "{error}"),
            Error::Disagreed(games) => write!(f, "{games} games disagreed"),
            Error::NotRefused(answers) => write!(f, "{answers} spoilt answers were not refused"),
            Error::Disputed(answers) => write!(f, "{answers} changed answers are disputed"),
        }
    }
}

/// Lines of a table, one for each kind of games.
#[derive(Drop)]
pub(crate) struct Report<'a> {
    rt: &'a HostRuntime,
    desk: Desk,
    /// The games since the last line.
    tally: Tally,
    /// The games of all lines.
    total: Tally,
    /// The answers with one word changed, of all lines.
    changed: Tally,
}

impl<'a> Report<'a> {
    pub(crate) fn new(rt: &'a HostRuntime) -> Result<Report<'a>, Error> {
        let desk = Desk::new(rt.alloc())?;
        Ok(Report {
            rt,
            desk,
            tally: Tally::default(),
            total: Tally::default(),
            changed: Tally::default(),
        })
    }

    /// The head of a group of lines about games: their places, and who wins
    /// them.
    pub(crate) fn head(&self, title: &str) -> Result<(), Error> {
        self.head_of(title, ["places", "side 0", "side 1"])
    }

    /// The head of a group, with what its three columns count.
    pub(crate) fn head_of(&self, title: &str, counted: [&str; 3]) -> Result<(), Error> {
        let [first, second, third] = counted;
        println!(self.rt;
            "{title:<32} {:>6} {first:>7} {second:>7} {third:>7} {:>9}",
            "games", "disagreed"
        )?;
        Ok(())
    }

    /// Tries a game, and prints it if `compare` finds its answer wrong.
    pub(crate) fn try_game<F: Fn(Global, &Game, &Answer) -> Result<Option<Wrong>, Fault>>(
        &mut self,
        game: &FineGame,
        compare: &F,
    ) -> Result<(), Error>
        requires { F.IsAlwaysCallable compare.now }
    {
        let game = &game.game;
        if let Some(wrong) = self.desk.try_game(game, compare, &mut self.tally)? {
            self.show(game, &wrong)?;
        }
        Ok(())
    }

    /// Tries an attractor of a game, and prints the game if it is wrong.
    pub(crate) fn try_attractor(
        &mut self,
        game: &FineGame,
        target: u32,
        side: Side,
    ) -> Result<(), Error> {
        let game = &game.game;
        if let Some(wrong) = self
            .desk
            .try_attractor(game, target, side, &mut self.tally)?
        {
            self.show(game, &wrong)?;
        }
        Ok(())
    }

    /// Tries a game's answer with each word changed, and prints the game if the
    /// ways to look at one of these disagree.
    pub(crate) fn try_changes(&mut self, game: &FineGame) -> Result<(), Error> {
        let game = &game.game;
        if let Some(wrong) = self.desk.try_changes(game, &mut self.tally)? {
            self.show(game, &wrong)?;
        }
        Ok(())
    }

    /// Tries the numbers of moves to a place, and prints the game if they are
    /// wrong.
    pub(crate) fn try_distances(
        &mut self,
        game: &FineGame,
        target: u32,
        side: Side,
    ) -> Result<(), Error> {
        let game = &game.game;
        if let Some(wrong) = self
            .desk
            .try_distances(game, target, side, &mut self.tally)?
        {
            self.show(game, &wrong)?;
        }
        Ok(())
    }

    /// Tries to make alike places of a game one, and prints it if what comes is
    /// wrong.
    pub(crate) fn try_merged(&mut self, game: &FineGame) -> Result<(), Error> {
        let game = &game.game;
        if let Some(wrong) = self.desk.try_merged(game, &mut self.tally)? {
            self.show(game, &wrong)?;
        }
        Ok(())
    }

    /// Tries a game in which places may have no moves, and prints it if its
    /// answer is wrong.
    pub(crate) fn try_ends(&mut self, game: &EndsGame) -> Result<(), Error> {
        let game = &game.game;
        if let Some(wrong) = self.desk.try_ends(game, &mut self.tally)? {
            self.show(game, &wrong)?;
        }
        Ok(())
    }

    /// Tries the answer to such a game with each word changed, and prints it if
    /// the ways to look at one of these disagree.
    pub(crate) fn try_changes_with_ends(&mut self, game: &EndsGame) -> Result<(), Error> {
        let game = &game.game;
        if let Some(wrong) = self.desk.try_changes_with_ends(game, &mut self.tally)? {
            self.show(game, &wrong)?;
        }
        Ok(())
    }

    fn show(&self, game: &Game, wrong: &Wrong) -> Result<(), Error> {
        let words = game.words(self.rt.alloc())?;
        println!(self.rt; "disagreed on {words:?}:")?;
        println!(self.rt; "  {wrong}")?;
        Ok(())
    }

    /// The line for the games since the last one.
    pub(crate) fn line(&mut self, name: &str) -> Result<(), Error> {
        let tally = self.tell(name)?;
        self.total = self.total.and(tally);
        Ok(())
    }

    /// The line for the answers with one word changed since the last one.
    pub(crate) fn changed_line(&mut self, name: &str, size: u32) -> Result<(), Error> {
        let name = format!(in self.rt.alloc(); "{name} {size}")?;
        let tally = self.tell(name.as_str())?;
        self.changed = self.changed.and(tally);
        Ok(())
    }

    /// Prints what was counted since the last line.
    fn tell(&mut self, name: &str) -> Result<Tally, Error> {
        let tally = self.tally;
        let Tally {
            games,
            counts: [first, second, third],
            disagreed,
            ..
        } = tally;
        println!(self.rt;
            "{name:<32} {games:>6} {first:>7} {second:>7} {third:>7} {disagreed:>9}"
        )?;
        self.tally = Tally::default();
        Ok(tally)
    }

    /// The line for games of one size.
    pub(crate) fn sized(&mut self, name: &str, size: u32) -> Result<(), Error> {
        let name = format!(in self.rt.alloc(); "{name} {size}")?;
        self.line(name.as_str())
    }

    /// The last lines; an error if a game disagreed, or an answer with a winner
    /// or a number changed was not refused.
    pub(crate) fn end(&self) -> Result<(), Error> {
        let Tally {
            games,
            disagreed,
            refused,
            ..
        } = self.total;
        println!(self.rt; "{games} games, {disagreed} disagreed")?;
        println!(self.rt; "{games} answers with one winner or number changed, {refused} refused")?;
        let [answers, _, _] = self.changed.counts;
        let disputed = self.changed.disagreed;
        println!(self.rt; "{answers} answers with one word changed, {disputed} disagreed")?;
        if disagreed > 0 {
            return Err(Error::Disagreed(disagreed));
        }
        if disputed > 0 {
            return Err(Error::Disputed(disputed));
        }
        if refused < games {
            Err(Error::NotRefused(games - refused))
        } else {
            Ok(())
        }
    }
}
