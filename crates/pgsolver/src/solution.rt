//! Who wins each place, and by which move, as PGSolver and Oink write it.
ghost use Rattle.std.specs.Prelude.{◌≡◌, ◌*◌, ◌<◌, ◌≤◌, Some, length};
ghost use Rattle.std.specs.Fmt.{WritesOnOk};
ghost use Rattle.pgsolver.specs.Ids.{ids_of};
ghost use Rattle.pgsolver.specs.Solutions.{winners_move, line, solution};

use crate::Named;
use crate::highest::highest;
use endless::answer::{PlaceId, Winner, goes_to, won_by};
use endless::graph::Places;
use std::fmt;
use std::fmt::Write;

/// An answer to a game, which is printed in PGSolver's form of solutions: `paritysol N;`, where N is the highest id, and ID WINNER MOVE; for each place, without the move where it is not the winner that moves there.
// A lifetime for each reference: with one for all, a function to which the game,
// the ids and the answer are lent could not put them together.
#[derive(Clone, Copy)]
pub struct Solution<'g, 'w, 'n, 'a> {
    pub game: &'g Places<'w>,
    pub named: &'n [Named],
    pub answer: &'a [u32],
    pub ghost each: { length named.now ≡ length game.now },
    pub ghost answered: { 2 * length game.now ≤ length answer.now },
}

impl<'g, 'w, 'n, 'a> Solution<'g, 'w, 'n, 'a> {
    /// Where the winner of a place moves, by the id: `None` where it is not the winner that moves there, and where the answer names no place.
    fn winners_move(self, n: u32) -> Option<u32>
        requires { n < length self.game.now }
        ensures { result ≡ winners_move (ids_of self.entry.named.now) self.entry.game.now self.entry.answer.now n }
    {
        let place = PlaceId(n);
        let mover = self.game.head(n).whose;
        if won_by(self.answer, place) != Some(Winner(mover)) {
            return None;
        }
        let to = goes_to(self.answer, place)?;
        Some(self.named.get(to.0 as usize)?.id)
    }

    fn write_line<W: fmt::Write>(self, f: &mut fmt::Formatter<W>, n: u32) -> fmt::Result
        requires { n < length self.game.now }
        ensures { WritesOnOk W.write_str_gives f.old result (line (ids_of self.entry.named.now) self.entry.game.now self.entry.answer.now n) f.new }
    {
        let id = self.named[n as usize].id;
        let winner = self.answer[2 * n as usize];
        match self.winners_move(n) {
            Some(to) => writeln!(f, "{id} {winner} {to};"),
            None => writeln!(f, "{id} {winner};"),
        }
    }
}

impl<'g, 'w, 'n, 'a> fmt::Display for Solution<'g, 'w, 'n, 'a> {
    ghost output = { λ s. Some (solution (ids_of s.named.now) s.game.now s.answer.now) };

    fn fmt<W: fmt::Write>(&self, f: &mut fmt::Formatter<W>) -> fmt::Result {
        let highest = highest(self.named);
        writeln!(f, "paritysol {highest};")?;
        for n in 0..self.game.len() {
            self.write_line(f, n)?;
        }
        Ok(())
    }
}

#[cfg(test)]
mod tests {
    use super::*;
    use endless::words::GameWords;
    use std::alloc::Global;
    use std::test::Fail;

    // 0 is side 0's, weight 1, to 1 or 2; 1 is side 1's, weight 2, to 0; 2 is
    // side 1's, weight 3, to 0 or itself.
    const THREE: [u32; 15] = [3, 0, 1, 2, 1, 2, 1, 2, 1, 0, 1, 3, 2, 0, 2];

    // What is printed of an answer to this game, whose places have these ids.
    fn printed(heap: Global, ids: &[u32], answer: &[u32]) -> Result<String, Fail> {
        let named: Vec<Named> = ids
            .iter()
            .map(|id| Named {
                id: *id,
                name: Vec::new(heap),
            })
            .collect(heap)?;
        let Some(words) = GameWords::read(&THREE) else {
            return Err(Fail::new("no game"));
        };
        if words.len() != 3 || named.len() != 3 || answer.len() < 6 {
            return Err(Fail::new("too few ids or words"));
        }
        let mut starts = vec![in heap; [0, 0]; 3]?;
        let game = Places::new(words, starts.as_mut_slice());
        let solution = Solution {
            game: &game,
            named: named.as_slice(),
            answer,
        };
        Ok(solution.to_string(heap)?)
    }

    #[test]
    fn prints_solutions(rt: HostRuntime) -> Result<(), Fail> {
        for (ids, answer, want) in [
            (
                [0, 1, 2],
                [0, 1, 0, 0, 1, 2],
                "paritysol 2;\n0 0 1;\n1 0;\n2 1 2;\n",
            ),
            (
                [7, 30, 4],
                [0, 1, 0, 0, 1, 2],
                "paritysol 30;\n7 0 30;\n30 0;\n4 1 4;\n",
            ),
            // It names neither a side nor a place.
            (
                [0, 1, 2],
                [2, 1, 0, 0, 1, 3],
                "paritysol 2;\n0 2;\n1 0;\n2 1;\n",
            ),
        ] {
            let text = printed(rt.alloc(), &ids, &answer)?;
            assert_eq!(rt; text.as_str(), want);
        }
        Ok(())
    }
}
