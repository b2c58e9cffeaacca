//! A closed part of a subgame: the places that can be come to from one of them.
ghost use Rattle.std.specs.Prelude.{ℕ, ◌*◌, ◌<◌, ◌≤◌, length, Some, IfSome, slice_index};
ghost use Rattle.std.specs.Option.{ForSome};
ghost use Rattle.endless.specs.Sets.{In};
ghost use Rattle.endless.specs.Subgames.{Closed};
ghost use Rattle.endless.specs.Bits.{members, size};
ghost use Rattle.endless.specs.Parts.{Spacious, Listed, PartTaken};

use crate::bits;
use crate::graph::Places;

/// A part of a set of places that is being made: the places that are in it
/// stand in the queue, `count` of them, in the order in which they came. What
/// these hold at first does not matter.
#[derive(Drop)]
pub struct Growing<'p, 'r> {
    pub places: &'p Places<'p>,
    pub set: &'r [u32],
    pub part: &'r mut [u32],
    pub queue: &'r mut [u32],
    pub count: usize,
    pub ghost sets: { length places.now ≤ 32 * length set.now },
    pub ghost inside: { (n : ℕ) → In (members set.now) n → n < length places.now },
    pub ghost spacious: { Spacious set.now part.now queue.now },
}

impl Growing<'_, '_> {
    ghost use Rattle.endless.specs.Growing.{Same, Lists, Grown, Takes};

    /// Takes a place, where it is in the set and not there yet.
    fn take(&mut self, place: u32)
        requires lists { Lists self.old }
        requires inside { place < 32 * length self.old.set.now }
        ensures grown { Grown self.old self.new }
        ensures holds { In (members self.old.set.now) place → In (members self.new.part.now) place }
    {
        let part = &mut *self.part;
        if !bits::has(self.set, place) {
            return;
        }
        if bits::has(part, place) {
            return;
        }
        bits::insert(part, place);
        self.queue[self.count] = place;
        self.count += 1;
    }

    /// Takes all these places that are in the set.
    fn take_all(&mut self, places: &[u32])
        requires lists { Lists self.old }
        requires inside { (k : ℕ) → k < length places.now → slice_index places.now k < 32 * length self.old.set.now }
        ensures grown { Grown self.old self.new }
        ensures holds { (k : ℕ) → k < length places.now → In (members self.old.set.now) (slice_index places.now k) → In (members self.new.part.now) (slice_index places.now k) }
    {
        for place in places {
            self.take(*place);
        }
    }

    /// Takes all that can be come to within the set from its places.
    fn close(&mut self)
        requires lists { Lists self.old }
        ensures grown { Grown self.old self.new }
        ensures closed { Closed self.old.places.now (members self.old.set.now) (members self.new.part.now) }
    {
        let places = self.places;
        let mut head = 0;
        // The queue grows on the way, so that no iterator can borrow it; it is lent
        // words, as this crate has no heap.
        while head < self.count {
            let from = self.queue[head];
            head += 1;
            self.take_all(places.moves(from));
        }
    }

    /// Begins anew, with no place.
    fn clear(&mut self)
        ensures same { Same self.old self.new }
        ensures lists { Lists self.new }
    {
        let part = &mut *self.part;
        bits::clear(part);
        self.count = 0;
    }

    /// Makes the part all places of the set that can be come to from `start`
    /// within it.
    pub fn reach(&mut self, start: u32)
        requires first { In (members self.old.set.now) start }
        ensures same { Same self.old self.new }
        ensures lists { Lists self.new }
        ensures few { self.new.count ≤ size self.old.set.now }
        ensures holds { In (members self.new.part.now) start }
        ensures closed { Closed self.old.places.now (members self.old.set.now) (members self.new.part.now) }
    {
        self.clear();
        self.take(start);
        self.close();
    }

    /// Makes the part what can be come to from `start`, if it is in the set. How
    /// many places these are.
    fn take_from(&mut self, start: u32) -> Option<usize>
        ensures same { Same self.old self.new }
        ensures taken { IfSome result (λ k. Takes self.old self.new (Some k)) }
    {
        if start >= self.places.len() || !bits::has(self.set, start) {
            return None;
        }
        self.reach(start);
        Some(self.count)
    }

    /// Makes the part all of the set, if there is a list with all its places that
    /// is no longer than `most`. How many places these are.
    fn take_within(&mut self, within: Option<&[u32]>, most: usize) -> Option<usize>
        requires { ForSome within (λ list. Listed self.old.set.now list.now) }
        ensures same { Same self.old self.new }
        ensures taken { IfSome result (λ k. Takes self.old self.new (Some k)) }
    {
        match within {
            Some(list) if list.len() <= most => {
                self.clear();
                self.take_all(list);
                Some(self.count)
            }
            _ => None,
        }
    }
}

/// Makes `part` a closed part of the set: what can be come to from `start`, if
/// there is one, else all of it. Their number, if they stand in the queue;
/// where they do not, the part is all of the set.
pub fn take_part(
    places: &Places,
    start: Option<u32>,
    within: Option<&[u32]>,
    room: usize,
    set: &[u32],
    part: &mut [u32],
    queue: &mut [u32],
) -> Option<usize>
    requires sets { length places.now ≤ 32 * length set.now }
    requires places { (n : ℕ) → In (members set.now) n → n < length places.now }
    requires listed { ForSome within (λ list. Listed set.now list.now) }
    requires spacious { Spacious set.now part.old queue.old }
    ensures fits { IfSome result (λ k. k ≤ room) }
    ensures taken { PartTaken places.now set.now part.new queue.new result }
{
    let mut growing = Growing {
        places,
        set,
        part,
        queue,
        count: 0,
    };
    let listed = match start {
        Some(start) => growing.take_from(start),
        None => growing.take_within(within, room / 8),
    };
    match listed {
        Some(count) if count <= room => Some(count),
        _ => {
            bits::copy(set, part);
            None
        }
    }
}
