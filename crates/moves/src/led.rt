//! The game that an answer leads: where the side that wins a place is to move
//! there, it has its plan's move alone.
ghost use Rattle.std.specs.Prelude.{◌≡◌, ℕ, ◌*◌, ◌<◌, ◌≤◌, IsTrue, ◌⊎◌, length, nat_lt};
ghost use Rattle.endless.specs.View.{words_of};
ghost use Rattle.endless.specs.Bits.{members, size};
ghost use Rattle.moves.specs.Led.{led, Avoids};

use crate::solved::Solved;
use endless::bits;
use endless::closed::Growing;
use endless::graph::Places;

/// Makes the words of the game that the answer leads.
pub fn lead(solved: &Solved, made: &mut [u32])
    requires { length made.old ≡ length solved.now.words.now }
    ensures { made.new ≡ words_of (led solved.now.places.now solved.now.answer.now (length solved.now.places.now)) }
{
    made.copy_from_slice(solved.words);
    let mut at = 4;
    for place in 0..solved.places.len() {
        let count = solved.places.moves(place).len();
        if solved.leads(place) {
            made[at..at + count].fill(solved.answer[2 * place as usize + 1]);
        }
        at += 3 + count;
    }
}

/// The places of that game, and the set of them all.
#[derive(Clone, Copy)]
pub struct Led<'a> {
    pub places: &'a Places<'a>,
    pub all: &'a [u32],
    pub ghost are: { (j : ℕ) → members all.now j ≡ nat_lt j (length places.now) },
    pub ghost many: { size all.now ≡ length places.now },
    pub ghost wide: { length places.now ≤ 32 * length all.now },
}

impl Led<'_> {
    /// Whether plays may come from one place to another.
    // Where there is no way this is sure; that there is one is not proved, since
    // only a search comes of it.
    pub fn comes_to(&self, from: u32, to: u32, part: &mut [u32], queue: &mut [u32]) -> bool
        requires from { from < length self.now.places.now }
        requires to { to < length self.now.places.now }
        requires part { length part.old ≡ length self.now.all.now }
        requires queue { length self.now.places.now ≤ length queue.old }
        ensures { IsTrue result ⊎ Avoids self.now.places.now from to }
    {
        let mut growing = Growing {
            places: self.places,
            set: self.all,
            part: &mut *part,
            queue,
            count: 0,
        };
        growing.reach(from);
        bits::has(part, to)
    }
}
