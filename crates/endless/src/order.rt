//! Where to begin a closed part: the strongly connected parts of a subgame, each behind those that it can move to.
//!
//! Nothing is promised of what is found here but that finding it is safe: a
//! part that begins at any place is closed, and one that begins in a bottom
//! strongly connected part is small.
ghost use Rattle.std.specs.Prelude.{◌≡◌, ◌*◌, ◌^◌, ◌<◌, length};

use crate::bits;
use crate::components::{View, Walk, is_in, word, write};
use crate::graph::Places;

/// Subgames of no more places are not split.
const SMALL: usize = 32;

/// How much has been gone through, and when it is worth while to split again.
#[derive(Clone, Copy)]
pub struct Effort {
    steps: usize,
    next: usize,
}

impl Effort {
    /// For a game of so many places: split once four times as many were gone
    /// through.
    pub fn new(places: u32) -> Effort {
        Effort {
            steps: 0,
            next: 4 * places as usize,
        }
    }

    /// So many places more were gone through.
    fn spend(&mut self, places: usize) {
        self.steps = self.steps.saturating_add(places);
    }

    /// A subgame was split: where nearly all of it is one part, wait.
    fn split(&mut self, places: usize, greatest: usize) {
        self.spend(places);
        self.next = self.steps;
        if greatest > places / 8 * 7 {
            self.next = self.steps.saturating_add(places.saturating_mul(8));
        }
    }
}

/// The order of a level's places that is kept in its spare words, two places in
/// each, and how far it has been gone through. At first none is kept.
// Numbers beside the lent words, as this crate has no heap: no list is owned,
// and one that is lent here could not be lent to what the level calls.
#[derive(Clone, Copy, Default)]
pub struct Order {
    pub kept: usize,
    at: usize,
}

impl Order {
    /// No order is kept.
    pub fn new() -> Order
        ensures { result.kept ≡ 0 }
    {
        Order::default()
    }
}

/// Packs so many places, which stand in a word each, two into each of the first
/// of these words. How many words they take then.
// A level's order is kept while all the levels below are gone through, so that
// words for orders run short first; and a game has no more than 2^14 places.
// Behind an odd number of places any may stand: where it is come to, none is left.
fn pack(order: &mut [u32], many: usize) -> usize {
    let kept = many.div_ceil(2);
    for i in 0..kept {
        let low = word(order, 2 * i) & 0xffff;
        let high = word(order, 2 * i + 1) & 0xffff;
        write(order, i, high << 16 | low);
    }
    kept
}

/// The place of the order with this index.
fn place_at(order: &[u32], i: usize) -> u32 {
    let pair = word(order, i / 2);
    if i % 2 == 0 {
        pair & 0xffff
    } else {
        pair >> 16
    }
}

/// The places of a subgame, and their moves.
#[derive(Clone, Copy)]
struct Subgame<'a> {
    places: &'a Places<'a>,
    own: &'a [u32],
}

impl View for Subgame<'_> {
    fn has(&self, place: u32) -> bool {
        is_in(self.own, place)
    }

    fn moves(&self, place: u32) -> &[u32] {
        let places: &Places = self.places;
        if place < places.len() {
            places.moves(place)
        } else {
            &[]
        }
    }

    // The order in which the walk finds them is all that is wanted.
    fn put(&mut self, _place: u32, _component: u32) {}
}

/// Takes the numbers from the places of a set.
fn clear(own: &[u32], numbers: &mut [u32])
    requires { 32 * length own.now < 2 ^ 32 }
{
    for place in bits::iter(own) {
        write(numbers, place as usize, 0);
    }
}

// What these two share stays parameters: a level lends it anew at each turn, for
// the one call that hands it on.

/// Makes an order of what is left of a level, where that may be worth while
/// and there is room.
fn make_order<'a>(
    places: &'a Places<'a>,
    own: &'a [u32],
    size: usize,
    spare: &'a mut [u32],
    queue: &'a mut [u32],
    numbers: &'a mut [u32],
    effort: &mut Effort,
) -> Order
    requires { 32 * length own.now < 2 ^ 32 }
{
    let all = places.len() as usize;
    effort.spend(size);
    if size <= SMALL || effort.steps < effort.next {
        return Order::default();
    }
    if spare.len() < size || numbers.len() < all {
        return Order::default();
    }
    clear(own, numbers);
    let mut subgame = Subgame { places, own };
    let mut walk = Walk::new(numbers, &mut *spare, queue);
    for place in bits::iter(own) {
        walk.go_from(&mut subgame, place);
    }
    let many = walk.many();
    let greatest = walk.greatest();
    effort.split(size, greatest);
    if greatest > size / 8 * 7 {
        return Order::default();
    }
    Order {
        kept: pack(spare, many),
        at: 0,
    }
}

/// A place of what is left of a level from which few places can be come to,
/// if one is known or it is worth while to look for one. A queue and a number
/// for each place are lent to the walk that looks, and hold anything before and
/// after.
pub fn find_start(
    places: &Places,
    own: &[u32],
    size: usize,
    spare: &mut [u32],
    queue: &mut [u32],
    numbers: &mut [u32],
    order: &mut Order,
    effort: &mut Effort,
) -> Option<u32>
    requires { 32 * length own.now < 2 ^ 32 }
{
    if order.at / 2 >= order.kept {
        *order = make_order(places, own, size, spare, queue, numbers, effort);
    }
    order.kept = order.kept.min(spare.len());
    let end = 2 * order.kept;
    let left = (order.at..end).find(|i| is_in(own, place_at(spare, *i)));
    order.at = left.unwrap_or(end);
    left.map(|i| place_at(spare, i))
}
