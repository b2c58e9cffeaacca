//! The strongly connected components of a part of a game, each behind those
//! that it can move to (Tarjan 1972).
//!
//! Nothing is proved of what is found. It is looked at before it is believed,
//! or serves where any choice is safe.
ghost use Rattle.std.specs.Prelude.{◌≡◌, ◌+◌, ◌<◌, ◌≤◌};

/// What a walk goes through, and what becomes of the components that it finds.
pub(crate) trait View {
    /// Whether the walk may come to this place.
    fn has(&self, place: u32) -> bool;

    /// Where it may go from this place, if it may come there.
    fn moves(&self, place: u32) -> &[u32];

    /// This place belongs to the component with this number, counted from 1.
    fn put(&mut self, place: u32, component: u32);
}

/// The word at `i`, or 0 past the end.
pub(crate) fn word(words: &[u32], i: usize) -> u32 {
    words.get(i).copied().unwrap_or(0)
}

/// Writes a word at `i`, if there is room.
pub(crate) fn write(words: &mut [u32], i: usize, word: u32) {
    if i < words.len() {
        words[i] = word;
    }
}

/// Whether a place is in the set.
// Not `bits::has`: that asks for a place that the set has a bit for, and of the
// numbers here, which may come from lent words, nothing is known.
pub(crate) fn is_in(set: &[u32], place: u32) -> bool {
    (word(set, (place / 32) as usize) >> (place % 32)) & 1 == 1
}

/// The number of a place whose component is known.
const DONE: u32 = u32::MAX;

/// A walk through places, each move once. What it keeps of each place stands
/// in lent words.
// What is known of a place is a number and no enum: it stands in one lent word
// for each place, as this crate has no heap.
#[derive(Drop)]
pub(crate) struct Walk<'a> {
    /// The how-many-th each place was that the walk met, 0 if not yet: odd
    /// until a place met before it was seen again, and then the least such.
    numbers: &'a mut [u32],
    // No `Vec` and no stack: lent words, as this crate has no heap.
    /// From the front the places whose component is known, in the order in which
    /// it was found, and from the back how many moves were looked along of each
    /// place of the path: a word for each place to be met is enough for both.
    found: &'a mut [u32],
    /// From the front the path to where the walk stands, and from the back the
    /// places that were left behind and have no component yet.
    queue: &'a mut [u32],
    path: usize,
    behind: usize,
    many: usize,
    number: u32,
    components: u32,
    /// How many places the greatest component has.
    greatest: usize,
}

impl<'a> Walk<'a> {
    /// A walk that has met no place: `numbers` has 0 at each that it will go
    /// through.
    pub(crate) fn new(
        numbers: &'a mut [u32],
        found: &'a mut [u32],
        queue: &'a mut [u32],
    ) -> Walk<'a> {
        Walk {
            numbers,
            found,
            queue,
            path: 0,
            behind: 0,
            many: 0,
            number: 1,
            components: 0,
            greatest: 0,
        }
    }

    /// Of how many places the component is known.
    pub(crate) fn many(&self) -> usize {
        self.many
    }

    /// How many places the greatest component has that was found.
    pub(crate) fn greatest(&self) -> usize {
        self.greatest
    }

    /// Walks through all that can be come to from a place, if it was not met
    /// yet.
    pub(crate) fn go_from<V: View>(&mut self, view: &mut V, place: u32) {
        if word(self.numbers, place as usize) != 0 {
            return;
        }
        let Some(number) = self.number.checked_add(2) else {
            return;
        };
        self.enter(place, number);
        while self.path > 0 {
            self.step(view);
        }
    }

    /// Comes to a place for the first time, and gives it this number.
    fn enter(&mut self, place: u32, number: u32)
        ensures number { self.new.number ≡ number }
        ensures path { self.new.path ≤ self.old.path + 1 }
    {
        write(self.numbers, place as usize, number);
        write(self.queue, self.path, place);
        self.number = number;
        self.path = self.path.saturating_add(1);
        let at = self.found.len().saturating_sub(self.path);
        write(self.found, at, 0);
    }

    /// One step from the last place of the path: on to the next, with a greater
    /// number, or back.
    fn step<V: View>(&mut self, view: &mut V)
        requires { 0 < self.old.path }
        ensures { self.new.path + self.old.number < self.old.path + self.new.number }
    {
        let last = self.path.saturating_sub(1);
        let place = word(self.queue, last);
        let at = self.found.len().saturating_sub(self.path);
        let from = word(self.found, at);
        let met = word(self.numbers, place as usize);
        let (next, number) = self.look(view, place, from, met);
        write(self.numbers, place as usize, number);
        match (next, self.number.checked_add(2)) {
            (Some((to, cursor)), Some(greater)) => {
                write(self.found, at, (cursor & 0xffff_ffff) as u32);
                self.enter(to, greater);
            }
            _ => self.leave(view, place, number),
        }
    }

    /// Goes through a place's moves from the cursor up to one that leads to a
    /// place not met yet, and tells where it leads and the cursor there, and
    /// the least number met.
    fn look<V: View>(
        &self,
        view: &V,
        place: u32,
        from: u32,
        number: u32,
    ) -> (Option<(u32, usize)>, u32) {
        let mut least = number;
        let moves = view.moves(place);
        // Cut, and no `skip`: that goes through the moves before the cursor again.
        let (before, behind) = moves.split_at(moves.len().min(from as usize));
        for (i, to) in behind.iter().enumerate() {
            if view.has(*to) {
                let met = word(self.numbers, *to as usize);
                if met == 0 {
                    return (Some((*to, before.len().saturating_add(i))), least);
                }
                if met / 2 < least / 2 {
                    least = met / 2 * 2;
                }
            }
        }
        (None, least)
    }

    /// Leaves a place: it is left behind, or it closes a component.
    fn leave<V: View>(&mut self, view: &mut V, place: u32, number: u32)
        requires { 0 < self.old.path }
        ensures number { self.new.number ≡ self.old.number }
        ensures path { self.new.path < self.old.path }
    {
        self.path = self.path.saturating_sub(1);
        if number % 2 == 0 {
            self.behind = self.behind.saturating_add(1);
            let at = self.queue.len().saturating_sub(self.behind);
            write(self.queue, at, place);
            return;
        }
        self.components = self.components.saturating_add(1);
        let behind = self.behind;
        self.close(view, number);
        self.put(view, place);
        let size = behind.saturating_sub(self.behind).saturating_add(1);
        self.greatest = self.greatest.max(size);
    }

    /// The places that were left behind since `number` belong to the component
    /// that is being closed.
    fn close<V: View>(&mut self, view: &mut V, number: u32)
        ensures number { self.new.number ≡ self.old.number }
        ensures path { self.new.path ≡ self.old.path }
    {
        while self.behind > 0 {
            let at = self.queue.len().saturating_sub(self.behind);
            let place = word(self.queue, at);
            if word(self.numbers, place as usize) / 2 < number / 2 {
                return;
            }
            self.behind -= 1;
            self.put(view, place);
        }
    }

    /// This place belongs to the component that is being closed.
    fn put<V: View>(&mut self, view: &mut V, place: u32)
        ensures behind { self.new.behind ≡ self.old.behind }
        ensures number { self.new.number ≡ self.old.number }
        ensures path { self.new.path ≡ self.old.path }
    {
        write(self.numbers, place as usize, DONE);
        write(self.found, self.many, place);
        self.many = self.many.saturating_add(1);
        view.put(place, self.components);
    }
}
