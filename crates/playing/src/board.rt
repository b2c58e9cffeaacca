//! A solved game to play on.
ghost use Rattle.std.specs.Prelude.{◌≡◌, ◌<◌, [], length, All, IfOk, IfSome, MatchOption};
ghost use Rattle.endless.specs.Games.{Game, Reads, whose, weight};
ghost use Rattle.endless.specs.Graph.{moves};
ghost use Rattle.endless.specs.Says.{side, goes};
ghost use Rattle.endless.specs.Sides.{number};
ghost use Rattle.endless.specs.View.{Playable};
ghost use Rattle.playing.specs.Boards.{Answered};

use endless::answer::PlaceId;
use endless::graph::Places;
use endless::positions::Halves;
use endless::side::Side;
use endless::words::GameWords;
use endless::{Refusal, answer, is_game};
use std::alloc::{AllocError, Global};
use std::marker::Model;

/// Solves the game that these words are: writes the answer to `answer`. The
/// other words are lent: two for each place for `answer`, and for `work` what
/// the solver asks for, which can be let go afterwards.
// The answer is not returned: tried, and how words end that are lent for as
// long as a shared result lives was not proved (docs/BORROWS.md of Rattle has
// `follows_so` for it, and no proof for a slice).
pub fn solve(words: &[u32], answer: &mut [u32], work: &mut [u32]) -> Result<(), Refusal>
    ensures { IfOk result (λ _. (g : Game) × (Reads words.now g × Answered g answer.new)) }
{
    endless::solve(words, answer, work)?;
    Ok(())
}

/// Solves the game that these words are, on the heap: the answer, two words
/// for each place. What the solver works in is gone again afterwards. `None`
/// where the words are no game.
pub fn solve_in(heap: Global, words: &[u32]) -> Result<Option<Vec<u32>>, AllocError>
    ensures { IfOk result (λ o. MatchOption o ((g : Game) → Reads words.now g → ⊥) (λ a. (g : Game) × (Reads words.now g × Answered g a.items))) }
{
    if !is_game(words) {
        return Ok(None);
    }
    let mut answer = vec![in heap; 0; 2 * words[0] as usize]?;
    let mut work = vec![in heap; 0; 65536 + 4 * words.len()]?;
    match endless::solve(words, answer.as_mut_slice(), work.as_mut_slice()) {
        Ok(()) => Ok(Some(answer)),
        Err(_) => Ok(None),
    }
}

/// What a board on the heap is made of: an answer, and where each place's words
/// start.
#[derive(Drop)]
pub struct Room {
    answer: Vec<u32>,
    starts: Vec<Halves>,
}

impl Room {
    /// Room of which nothing was made yet.
    pub fn new(heap: Global) -> Room
        ensures answer { result.answer.items ≡ [] }
        ensures starts { result.starts.items ≡ [] }
    {
        Room {
            answer: Vec::new(heap),
            starts: Vec::new(heap),
        }
    }
}

/// A game and its answer, with where each place's words start, so that what
/// is asked of a place costs no more than its moves.
#[derive(Clone, Drop)]
pub struct Board<'a> {
    places: Places<'a>,
    answer: &'a [u32],
}

// Clauses see the game and the answer. That this solves the game is no
// invariant: `new` takes any answer, and to ask for a right one would ask more
// of its callers, so that what follows the plan asks for it.
impl<'a> Model for Board<'a> {
    ghost use Rattle.playing.specs.Solutions.{Solution};

    ghost Value = { Solution };

    ghost view = { λ b. record { game = b.places; answer = b.answer.now } };
}

impl<'a> Board<'a> {
    /// Solves the game that these words are. The other words are lent: two
    /// for each place for `answer` and for `starts`, and for `work` what the
    /// solver asks for. `None` where the words are no game, or too few are lent.
    pub fn solve(
        words: &'a [u32],
        answer: &'a mut [u32],
        work: &mut [u32],
        starts: &'a mut [Halves],
    ) -> Option<Board<'a>>
        ensures { IfSome result (λ b. Reads words.now b.game × Answered b.game b.answer) }
    {
        solve(words, answer, work).ok()?;
        Board::new(words, answer, starts)
    }

    /// Solves the game that these words are, on the heap: the board is made of
    /// `room`, and what that held is let go. `None` exactly where they are no game.
    pub fn solve_in(
        heap: Global,
        words: &'a [u32],
        room: &'a mut Room,
    ) -> Result<Option<Board<'a>>, AllocError>
        ensures { IfOk result (λ o. MatchOption o ((g : Game) → Reads words.now g → ⊥) (λ b. Reads words.now b.game × Answered b.game b.answer)) }
    {
        let Some(answer) = solve_in(heap, words)? else {
            return Ok(None);
        };
        let places = words.first().copied().unwrap_or(0) as usize;
        room.starts = vec![in heap; [0, 0]; places]?;
        room.answer = answer;
        Ok(Board::new(words, room.answer.as_slice(), room.starts.as_mut_slice()))
    }

    /// A board of the game that these words are, with an answer to it, as
    /// `solve` gives one. `starts` is lent, with one position for each place.
    /// `None` where the words are no game, or too few or too many are lent.
    pub fn new(words: &'a [u32], answer: &'a [u32], starts: &'a mut [Halves]) -> Option<Board<'a>>
        ensures game { MatchOption result ((g : Game) → Reads words.now g → length starts.old ≡ length g → ⊥) (λ b. Reads words.now b.game) }
        ensures answer { IfSome result (λ b. b.answer ≡ answer.now) }
    {
        let game = GameWords::read(words)?;
        if starts.len() != game.len() as usize {
            return None;
        }
        let places = Places::new(game, starts);
        Some(Board { places, answer })
    }

    /// How many places there are.
    pub fn len(&self) -> u32
        ensures len { result ≡ length self.now.game }
        ensures playable { Playable self.now.game }
    {
        self.places.len()
    }

    /// Whose move it is at a place.
    pub fn whose(&self, place: u32) -> Side
        requires { place < length self.now.game }
        ensures { number result ≡ whose self.now.game place }
    {
        self.places.head(place).whose
    }

    /// The weight of a place.
    pub fn weight(&self, place: u32) -> u8
        requires { place < length self.now.game }
        ensures { result ≡ weight self.now.game place }
    {
        self.places.weight(place) as u8
    }

    /// Where one may move from a place: at least one place.
    pub fn moves(&self, place: u32) -> &'a [u32]
        requires { place < length self.now.game }
        ensures are { result.now ≡ moves self.now.game place }
        ensures some { 0 < length result.now }
        ensures inside { All (λ m. m < length self.now.game) result.now }
    {
        self.places.moves(place)
    }

    /// The side that wins a place.
    pub fn winner(&self, place: u32) -> Side
        requires answered { Answered self.now.game self.now.answer }
        requires within { place < length self.now.game }
        ensures { number result ≡ side self.now.answer place }
    {
        answer::won_by(self.answer, PlaceId(place)).unwrap().0
    }

    /// Where the winner's plan goes from a place.
    pub fn plan(&self, place: u32) -> u32
        requires answered { Answered self.now.game self.now.answer }
        requires within { place < length self.now.game }
        ensures { result ≡ goes self.now.answer place }
    {
        answer::goes_to(self.answer, PlaceId(place)).unwrap().0
    }
}

#[cfg(test)]
mod tests {
    use super::*;
    use std::test::Fail;

    // 0 is side 0's, weight 1, to 1 or 2; 1 is side 1's, weight 2, to 0; 2 is
    // side 1's, weight 3, to 0 or itself. Side 0 wins 0 and 1, by going from
    // 0 to 1; side 1 wins 2, by staying there.
    const THREE: [u32; 15] = [3, 0, 1, 2, 1, 2, 1, 2, 1, 0, 1, 3, 2, 0, 2];

    #[test]
    fn solves_a_game(rt: HostRuntime) -> Result<(), Fail> {
        let answer = solve_in(rt.alloc(), &THREE)?.expect(&rt, "it is a game");
        let answer = answer.as_slice();
        assert_eq!(rt; answer.len(), 6);
        assert_eq!(rt; (answer[0], answer[1]), (0, 1));
        assert_eq!(rt; answer[2], 0);
        assert_eq!(rt; (answer[4], answer[5]), (1, 2));
        Ok(())
    }

    #[test]
    fn a_board_is_made_on_the_heap(rt: HostRuntime) -> Result<(), Fail> {
        let heap = rt.alloc();
        let mut room = Room::new(heap);
        let board = Board::solve_in(heap, &THREE, &mut room)?.expect(&rt, "it is a game");
        assert_eq!(rt; board.len(), 3);
        assert_eq!(rt; board.weight(2), 3);
        assert_eq!(rt; board.moves(0), [1, 2].as_slice());
        let mut room = Room::new(heap);
        assert!(rt; Board::solve_in(heap, &THREE[1..], &mut room)?.is_none());
        Ok(())
    }

    #[test]
    fn solves_no_other_words(rt: HostRuntime) -> Result<(), Fail> {
        assert!(rt; solve_in(rt.alloc(), &[])?.is_none());
        assert!(rt; solve_in(rt.alloc(), &THREE[1..])?.is_none());
        // It would take more words than there are.
        assert!(rt; solve_in(rt.alloc(), &[u32::MAX])?.is_none());
        Ok(())
    }
}
