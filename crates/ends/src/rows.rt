//! The places of a game with ends, one after another, as its words have them.
ghost use Rattle.std.specs.Prelude.{◌≡◌, length};
ghost use Rattle.std.specs.Iterator.{at_most};
ghost use Rattle.endless.specs.Games.{Game, row};
ghost use Rattle.ends.specs.Ends.{ReadsEnds};
ghost use Rattle.ends.specs.Rows.{FirstRow};

/// A place as it stands in the words: whose it is, its weight, and its moves,
/// of which there may be none.
// Words and no `Side`: they may be those of no game.
#[derive(Clone, Copy)]
pub struct Row<'a> {
    pub whose: u32,
    pub weight: u32,
    pub moves: &'a [u32],
}

/// Places whose words stand one after the other.
#[derive(Clone, Copy)]
pub struct Rows<'a> {
    pub(crate) words: &'a [u32],
}

impl<'a> Rows<'a> {
    /// The places of the game that these words are.
    pub fn of(words: &'a [u32]) -> Rows<'a>
        ensures { (g : Game) → ReadsEnds words.now g → result.words.now ≡ row g }
    {
        match words {
            [] => Rows { words },
            [_, places @ ..] => Rows { words: places },
        }
    }
}

impl<'a> Iterator for Rows<'a> {
    type Item = Row<'a>;

    ghost next_gives = { FirstRow };

    ghost remaining = { λ s. at_most (length s.words.now) };

    fn next(&mut self) -> Option<Row<'a>> {
        let [whose, weight, many, rest @ ..] = self.words else {
            return None;
        };
        let (moves, rest) = rest.split_at_checked(*many as usize)?;
        self.words = rest;
        Some(Row {
            whose: *whose,
            weight: *weight,
            moves,
        })
    }
}
