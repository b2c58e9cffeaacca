//! A place of a game, read from its words.
ghost use Rattle.std.specs.Prelude.{◌≡◌, ◌≤◌, length, slice_index};
ghost use Rattle.std.specs.Iterator.{YieldsFirst, at_most};
ghost use Rattle.endless.specs.Heads.{HeadIs, Rows, heads_in};

use crate::side::Side;

/// What stands before a place's moves: whose move it is, the weight, and how
/// many moves there are.
#[derive(Clone, Copy)]
pub struct Head {
    pub whose: Side,
    pub weight: u32,
    pub moves: u32,
}

impl Head {
    /// The head of the place whose words `words` starts at: `None` where
    /// these begin no place (too few words, no side, a weight of 256 or
    /// more, or no moves).
    pub fn read(words: &[u32]) -> Option<Head>
        ensures { HeadIs words.now result }
    {
        let [whose, weight, moves, ..] = words else {
            return None;
        };
        let whose = Side::try_from(*whose).ok()?;
        if *weight >= 256 || *moves == 0 {
            return None;
        }
        Some(Head {
            whose,
            weight: *weight,
            moves: *moves,
        })
    }
}

/// The three words before a place's moves as they stand.
// Beside `Head`, since a place of a game with ends may have no moves, and so
// no `Head`, and since what is known to be a game is not tested once more. One
// generic type for both would let a `Head` have a word for a side.
#[derive(Clone, Copy)]
pub struct HeadWords {
    // A word and not a `Side`: it may name none.
    pub whose: u32,
    pub weight: u32,
    pub moves: u32,
}

impl HeadWords {
    /// The words that these begin with.
    pub fn read(words: &[u32]) -> HeadWords
        requires { 3 ≤ length words.now }
        ensures whose { result.whose ≡ slice_index words.now 0 }
        ensures weight { result.weight ≡ slice_index words.now 1 }
        ensures moves { result.moves ≡ slice_index words.now 2 }
    {
        HeadWords {
            whose: words[0],
            weight: words[1],
            moves: words[2],
        }
    }
}

/// The heads of places whose words stand one after the other.
#[derive(Clone, Copy)]
pub struct Heads<'a> {
    pub(crate) left: u32,
    pub(crate) words: &'a [u32],
}

impl<'a> Iterator for Heads<'a> {
    type Item = HeadWords;

    ghost can_next = { λ s. Rows s.left s.words.now };

    ghost next_gives = { YieldsFirst (λ s. heads_in s.left s.words.now) };

    ghost remaining = { λ s. at_most s.left };

    fn next(&mut self) -> Option<HeadWords> {
        if self.left == 0 {
            return None;
        }
        let head = HeadWords::read(self.words);
        self.words = &self.words[3 + head.moves as usize..];
        self.left -= 1;
        Some(head)
    }
}
