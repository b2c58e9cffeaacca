//! Words that are a game.
ghost use Rattle.std.specs.Prelude.{◌≡◌, ◌^◌, ◌<◌, ◌≤◌, length, map, drop, MatchOption};
ghost use Rattle.endless.specs.Games.{Game, Reads, below};
ghost use Rattle.endless.specs.Graph.{edges};
ghost use Rattle.endless.specs.Heads.{Rows, head_of, heads_in};
ghost use Rattle.endless.specs.Promises.{IsGamePost};
ghost use Rattle.endless.specs.View.{words_of, Playable};
ghost use Rattle.endless.specs.Words.{PlacesIs, PlaceEnds};

use crate::place::{Head, Heads};
use std::marker::Model;

/// The most places that a game may have.
pub const MOST_PLACES: u32 = 16384;

/// Whether some game reads as these words: one pass, and no memory.
pub fn is_game(words: &[u32]) -> bool
    ensures { IsGamePost words.now result }
{
    let Some(places) = places(words) else {
        return false;
    };
    let Some(end) = (0..places).try_fold(1, |at, _| place_end(words, at, places)) else {
        return false;
    };
    end == words.len()
}

/// Words that are a game. In contracts they are the game.
#[derive(Clone, Drop)]
pub struct GameWords<'a> {
    words: &'a [u32],
}

impl<'a> Model for GameWords<'a> {
    ghost use Rattle.endless.specs.Games.{Game, Reads};
    ghost use Rattle.endless.specs.View.{game_in};

    ghost Value = { Game };

    // The game alone, a plain value, so that a clause can say `length graph.now`.
    // A value that carried the fact that words hold it would have to be taken
    // apart in each clause (`graph.now.game`); so each call that needs this fact
    // tells it or asks for it (`Playable`).
    ghost view = { λ w. game_in w.words.now };

    ghost invariant = { λ w. Reads w.words.now (game_in w.words.now) };
}

impl<'a> GameWords<'a> {
    /// These words, if they are a game.
    pub fn read(words: &'a [u32]) -> Option<GameWords<'a>>
        ensures { MatchOption result ((g : Game) → Reads words.now g → ⊥) (λ g. Reads words.now g) }
    {
        if !is_game(words) {
            return None;
        }
        Some(GameWords::known(words))
    }

    /// These words, which are known to be a game: they are not tested.
    pub fn known(words: &'a [u32]) -> GameWords<'a>
        requires { (g : Game) × Reads words.now g }
        ensures { Reads words.now result }
    {
        GameWords { words }
    }

    /// How many places there are.
    pub fn len(&self) -> u32
        ensures len { result ≡ length self.now }
        ensures playable { Playable self.now }
    {
        self.words[0]
    }

    /// How many moves the places have together.
    pub fn move_count(&self) -> usize
        ensures { result ≡ edges self.now }
    {
        self.words.len() - 1 - 3 * self.len() as usize
    }

    /// Goes through the heads of the places.
    // That the words are fewer than 2^63 (`short`) is for who counts them on the way.
    pub fn heads(&self) -> Heads<'a>
        ensures rows { Rows result.left result.words.now }
        ensures are { heads_in result.left result.words.now ≡ map head_of self.now }
        ensures playable { Playable self.now }
        ensures short { length (words_of self.now) < 2 ^ 63 }
    {
        Heads {
            left: self.len(),
            words: &self.words[1..],
        }
    }

    /// The words from the one at `at` on.
    pub fn words_from(&self, at: usize) -> &'a [u32]
        requires { at ≤ length (words_of self.now) }
        ensures are { result.now ≡ drop at (words_of self.now) }
        ensures playable { Playable self.now }
    {
        &self.words[at..]
    }
}

/// How many places the first word says, if a game may have as many.
fn places(words: &[u32]) -> Option<u32>
    ensures { PlacesIs words.now result }
{
    let [places, ..] = words else {
        return None;
    };
    if *places == 0 || *places > MOST_PLACES {
        return None;
    }
    Some(*places)
}

/// Where the words of the place at `at` end: `None` if no place of a game
/// with so many places stands there.
fn place_end(words: &[u32], at: usize, places: u32) -> Option<usize>
    ensures { PlaceEnds words.now at places result }
{
    let head = Head::read(words.get(at..)?)?;
    let moves = &words[at + 3..];
    let count = head.moves as usize;
    if moves.len() < count || !all_below(&moves[0..count], places) {
        return None;
    }
    Some(at + 3 + count)
}

/// Whether each move is to one of so many places.
fn all_below(moves: &[u32], places: u32) -> bool
    ensures { result ≡ below places moves.now }
{
    moves.iter().all(|to| *to < places)
}
