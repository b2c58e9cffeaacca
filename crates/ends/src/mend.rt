//! The words of a game with ends, copied place by place: a place without
//! moves gets one to itself, and a weight by which whoever is to move there
//! loses.
ghost use Rattle.std.specs.Prelude.{◌≡◌, ◌+◌, ◌≤◌, ◌++◌, length, take};
ghost use Rattle.endless.specs.Games.{other};
ghost use Rattle.ends.specs.Says.{told};
ghost use Rattle.ends.specs.Mending.{MendedIs, HeadAt, CopiedAt};

use endless::place::HeadWords;
use endless::words::MOST_PLACES;

/// Copies the words to `made` with a move for each place, and says how many
/// they are there: `None` where the words are no game with ends.
pub(crate) fn mend(words: &[u32], made: &mut [u32]) -> Option<usize>
    requires { length words.now + told words.now ≤ length made.old }
    ensures { MendedIs words.now made.new result }
{
    let [places, ..] = words else {
        return None;
    };
    if *places > MOST_PLACES {
        return None;
    }
    made[0] = *places;
    let mut at = 1;
    let mut to = 1;
    // A loop: `try_fold` would carry both positions as a pair and write through its closure.
    for index in 0..*places {
        let copied = copy_place(words, at, index, made, to)?;
        at += copied.read;
        to += copied.written;
    }
    if at == words.len() { Some(to) } else { None }
}

/// How many words a place has, and how many were written for it.
#[derive(Clone, Copy)]
struct Copied {
    read: usize,
    written: usize,
}

/// Copies the place that stands at `at` and has this index: `None` where none
/// stands there.
fn copy_place(words: &[u32], at: usize, index: u32, made: &mut [u32], to: usize) -> Option<Copied>
    requires { (at ≤ length words.now) × (to + length words.now + 1 ≤ length made.old + at) }
    ensures { CopiedAt words.now at index made.old to made.new result }
{
    let head = read_head(words, at)?;
    if head.moves == 0 {
        write(&[head.whose, end_weight(head.whose), 1, index], made, to);
        return Some(Copied {
            read: 3,
            written: 4,
        });
    }
    let read = 3 + head.moves as usize;
    write(&words[at..at + read], made, to);
    Some(Copied {
        read,
        written: read,
    })
}

/// What stands before the moves of the place at `at`: `None` where the weight
/// is 256 or more, or the words end before the last move.
fn read_head(words: &[u32], at: usize) -> Option<HeadWords>
    requires { at ≤ length words.now }
    ensures { HeadAt words.now at result }
{
    let place = &words[at..];
    if place.len() < 3 {
        return None;
    }
    let head = HeadWords::read(place);
    if head.weight >= 256 || place.len() - 3 < head.moves as usize {
        return None;
    }
    Some(head)
}

/// The weight of a place without moves once it has one to itself: of the kind
/// of the side that is not to move there.
// Any word and not a `Side`: whether it names one is looked at later, with the rest of the game.
fn end_weight(whose: u32) -> u32
    ensures { result ≡ other whose }
{
    if whose == 0 { 1 } else { 0 }
}

/// Writes words from `to` on.
fn write(from: &[u32], made: &mut [u32], to: usize)
    requires { to + length from.now ≤ length made.old }
    ensures { take (to + length from.now) made.new ≡ take to made.old ++ from.now }
{
    made[to..to + from.len()].copy_from_slice(from);
}
