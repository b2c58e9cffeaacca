//! A game as a list of places, and its words.
ghost use Rattle.std.specs.Prelude.{◌≡◌, ◌==◌, ◌++◌, IsTrue, ◌↔◌, IfOk, vec_items, vec_len, OnOk, if◌then◌else◌};
ghost use Rattle.allplans.specs.Games.{EndsPlace, Fine, FineEnds, FinePlace, place_words, game_words};
ghost use Rattle.allplans.specs.Sides.{side_word};

use crate::builder::Builder;
use crate::fault::Fault;
use crate::fine::{EndsGame, FineGame};
use crate::side::Side;
use std::alloc::Global;

// Numbers of its own: `allplans` shares nothing with the solver but words (docs/AGREE.md).
/// The most places that a game may have.
pub const MOST_PLACES: usize = 16384;

/// Weights are below this.
pub(crate) const WEIGHTS: u32 = 256;

/// A place: whose move it is; its weight; where one may move.
#[derive(Drop)]
pub struct Place {
    // It stays a word: a game that is being made may hold any, and is refused later.
    pub whose: u32,
    pub weight: u32,
    pub moves: Vec<u32>,
}

impl Place {
    /// Whether it is this side's move here.
    pub fn is_of(&self, side: Side) -> bool
        ensures { IsTrue result ↔ (self.now.whose ≡ side_word side) }
    {
        self.whose == u32::from(side)
    }

    /// Where one may move if `side` goes as planned, and the other as it likes.
    pub fn steps<'a>(&'a self, side: Side, planned: &'a [u32]) -> &'a [u32]
        ensures { result.now ≡ (if self.now.whose == side_word side then planned.now else vec_items self.now.moves) }
    {
        if self.is_of(side) {
            planned
        } else {
            self.moves.as_slice()
        }
    }

    /// Whether this may be a place of a game with so many places.
    pub fn is_fine(&self, places: usize) -> bool
        ensures { IsTrue result → FinePlace places self.now }
    {
        !self.moves.is_empty() && self.is_fine_or_ends(places)
    }

    /// The same, if it may have no moves.
    fn is_fine_or_ends(&self, places: usize) -> bool
        ensures { IsTrue result → EndsPlace places self.now }
    {
        Side::try_from(self.whose).is_ok()
            && self.weight < WEIGHTS
            && self.moves.iter().all(|to| (*to as usize) < places)
    }

    /// Whether a play ends here, and this side was to move.
    pub(crate) fn ends_for(&self, side: Side) -> bool {
        self.moves.is_empty() && self.is_of(side)
    }

    /// Writes the words of this place behind `words`.
    fn write(&self, words: &mut Vec<u32>) -> Result<(), Fault>
        ensures { OnOk result (words.new.items ≡ words.old.items ++ place_words self.now) }
    {
        let moves = u32::try_from(self.moves.len())?;
        words.extend_from_slice(&[self.whose, self.weight, moves])?;
        words.extend_from_slice(self.moves.as_slice())?;
        Ok(())
    }
}

/// A game, or one that is being made.
#[derive(Drop)]
pub struct Game {
    pub places: Vec<Place>,
}

impl Game {
    /// No places yet.
    pub fn new(heap: Global) -> Game {
        Game {
            places: Vec::new(heap),
        }
    }

    /// One more place.
    // `whose` stays a word: callers may add any, and `checked` refuses.
    pub fn add(&mut self, whose: u32, weight: u32, moves: Vec<u32>) -> Result<(), Fault> {
        self.places.push(Place {
            whose,
            weight,
            moves,
        })?;
        Ok(())
    }

    /// How many places there are.
    pub fn len(&self) -> usize
        ensures { result ≡ vec_len self.now.places }
    {
        self.places.len()
    }

    /// This game, where it is one: each place is fine.
    pub fn checked(self) -> Result<FineGame, Fault>
        ensures { IfOk result (λ g. g.game ≡ self) }
    {
        if self.is_fine() {
            Ok(FineGame { game: self })
        } else {
            Err(Fault::NoGame)
        }
    }

    fn is_fine(&self) -> bool
        ensures { IsTrue result → Fine self.now.places.items }
    {
        let places = self.places.len();
        (1..=MOST_PLACES).contains(&places) && self.places.iter().all(|place| place.is_fine(places))
    }

    /// This game, where it is one in which places may have no moves.
    pub fn checked_with_ends(self) -> Result<EndsGame, Fault>
        ensures { IfOk result (λ g. g.game ≡ self) }
    {
        if self.is_fine_with_ends() {
            Ok(EndsGame { game: self })
        } else {
            Err(Fault::NoGame)
        }
    }

    fn is_fine_with_ends(&self) -> bool
        ensures { IsTrue result → FineEnds self.now.places.items }
    {
        let places = self.places.len();
        (1..=MOST_PLACES).contains(&places)
            && self
                .places
                .iter()
                .all(|place| place.is_fine_or_ends(places))
    }

    /// The game that these words are, if they are one.
    pub fn read(heap: Global, words: &[u32]) -> Result<FineGame, Fault>
        ensures { IfOk result (λ g. game_words g.game.places.items ≡ words.now) }
    {
        let game = read_places(heap, words)?;
        let again = game.game.words(heap)?;
        if again.as_slice() == words {
            Ok(game)
        } else {
            Err(Fault::NoGame)
        }
    }

    /// The words of this game.
    pub fn words(&self, heap: Global) -> Result<Vec<u32>, Fault>
        ensures { IfOk result (λ ws. ws.items ≡ game_words self.now.places.items) }
    {
        let mut words = Vec::new(heap);
        words.push(u32::try_from(self.places.len())?)?;
        for place in self.places.iter() {
            place.write(&mut words)?;
        }
        Ok(words)
    }
}

/// The game whose places stand in these words. Words that are left over are
/// not seen here.
fn read_places(heap: Global, words: &[u32]) -> Result<FineGame, Fault> {
    let mut game = Builder::new(heap);
    let (count, mut rest) = words.split_first().ok_or(Fault::NoGame)?;
    for _ in 0..*count {
        rest = read_place(&mut game, rest)?;
    }
    game.finish()
}

/// Adds the place that stands at the front of these words. What is behind it.
fn read_place<'a>(game: &mut Builder, words: &'a [u32]) -> Result<&'a [u32], Fault> {
    let [whose, weight, moves, behind @ ..] = words else {
        return Err(Fault::NoGame);
    };
    let (moves, rest) = behind
        .split_at_checked(*moves as usize)
        .ok_or(Fault::NoGame)?;
    game.place(Side::try_from(*whose)?, *weight, moves)?;
    Ok(rest)
}
