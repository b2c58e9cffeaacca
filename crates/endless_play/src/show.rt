//! What is said to the person, a line at a time.
ghost use Rattle.std.specs.Prelude.{◌<◌, length};

use crate::fault::Fault;
use crate::table::Table;
use crate::wish;
use drawing::Name;
use endless::side::Side;
use playing::{Trail, steps};

impl Table<'_> {
    /// Who plays which side, and whether the program's side wins from the first
    /// place.
    pub(crate) fn show_start(&self, rt: &HostRuntime, file: &str, place: u32) -> Result<(), Fault>
        requires { place < length self.now.game }
    {
        let first = self.name(place);
        let winner = self.board.winner(place);
        let own = self.side;
        let yours = own.other();
        println!(rt; "{file}: side {winner} wins from {first}")?;
        println!(rt;
            "the program plays side {own}, you play side {yours}; :help says what you can type"
        )?;
        if winner != own {
            println!(rt;
                "side {own} does not win from {first}: where it does not win, the program makes any move"
            )?;
        }
        Ok(())
    }

    /// The place where the play stands, its weight, and whose move it is.
    pub(crate) fn show_place(&self, rt: &HostRuntime, place: u32) -> Result<(), Fault>
        requires { place < length self.now.game }
    {
        let here = self.name(place);
        let weight = self.board.weight(place);
        let whose = self.board.whose(place);
        let who = self.who(whose);
        println!(rt; "at {here}, weight {weight}: side {whose} moves, {who}")?;
        Ok(())
    }

    /// The place where the play ends, who has won it, and how many moves it had.
    pub(crate) fn show_end(&self, rt: &HostRuntime, place: u32, made: u64) -> Result<(), Fault>
        requires { place < length self.now.game }
    {
        let here = self.name(place);
        let whose = self.board.whose(place);
        let winner = whose.other();
        let who = self.who(winner);
        println!(rt; "at {here}: side {whose} has no move; side {winner} wins, {who}")?;
        println!(rt; "moves made: {made}")?;
        Ok(())
    }

    /// Who plays a side.
    fn who(&self, side: Side) -> &'static str {
        if side == self.side {
            "the program"
        } else {
            "you"
        }
    }

    /// The moves to choose from, by number and name.
    pub(crate) fn show_moves(&self, rt: &HostRuntime, moves: &[u32]) -> Result<(), Fault> {
        for (number, to) in (1..).zip(moves) {
            let to = self.name(*to);
            println!(rt; "  {number}  {to}")?;
        }
        question(rt)
    }

    /// A move from one place to another, and why that one.
    pub(crate) fn show_move(&self, rt: &HostRuntime, from: u32, to: u32) -> Result<(), Fault>
        requires { from < length self.now.game }
    {
        let own = self.side;
        let to = self.name(to);
        if steps::goes_by_plan(&self.board, self.side, from) {
            println!(rt; "the program goes to {to}, by its plan")?;
        } else if self.board.whose(from) == self.side {
            println!(rt;
                "the program goes to {to}: side {own} does not win here, so it makes any move"
            )?;
        } else if self.board.moves(from).len() == 1 {
            println!(rt; "you go to {to}, the only move")?;
        } else {
            println!(rt; "you go to {to}")?;
        }
        Ok(())
    }

    /// How many moves were made and what weighed most among the last places, with
    /// the answer's verdict on the place where the play stands.
    pub(crate) fn show_status(
        &self,
        rt: &HostRuntime,
        trail: &Trail,
        place: u32,
    ) -> Result<(), Fault>
        requires { place < length self.now.game }
    {
        let made = trail.made();
        let last = trail.len();
        println!(rt; "moves made: {made}")?;
        if let Some(weight) = trail.heaviest() {
            let kind = Side::of_weight(u32::from(weight));
            println!(rt;
                "places looked back on: {last}, at most the last 1,000; heaviest weight among them: {weight}, of side {kind}'s kind"
            )?;
        }
        let here = self.name(place);
        let winner = self.board.winner(place);
        println!(rt;
            "that is a look back and no verdict; the verdict is the answer's: side {winner} wins from {here}"
        )?;
        Ok(())
    }

    /// The name of a place, as a drawing writes it.
    fn name(&self, place: u32) -> Name<'_> {
        Name(wish::name(self.names, place))
    }
}

/// The question, again.
pub(crate) fn question(rt: &HostRuntime) -> Result<(), Fault> {
    println!(rt; "your move?")?;
    Ok(())
}

/// What the person can type.
pub(crate) fn help(rt: &HostRuntime) -> Result<(), Fault> {
    println!(rt; "type a name or a number of the list to make that move, or")?;
    println!(rt;
        "  :status  how many moves were made, and the heaviest weight of the last 1,000 places"
    )?;
    println!(rt; "  :back    back to before your last choice")?;
    println!(rt; "  :quit    end the play")?;
    println!(rt; "a name that begins with a colon is typed in double quotes, or by its number")?;
    Ok(())
}
