//! Sets of places.
ghost use Rattle.std.specs.Prelude.{◌≡◌, ◌+◌, true, false};
ghost use Rattle.allplans.specs.Sets.{missing};

use std::alloc::{AllocError, Global};

/// Some of the places of a game.
#[derive(Drop)]
pub(crate) struct PlaceSet {
    marks: Vec<bool>,
}

impl PlaceSet {
    /// None of so many places.
    pub(crate) fn new(heap: Global, places: usize) -> Result<PlaceSet, AllocError> {
        Ok(PlaceSet {
            marks: vec![in heap; false; places]?,
        })
    }

    /// Whether a place is in the set.
    pub(crate) fn has(&self, place: usize) -> bool {
        self.marks.get(place).copied().unwrap_or(false)
    }

    /// Adds a place of the game, and says whether it is new.
    pub(crate) fn add(&mut self, place: usize) -> bool
        ensures new { result ≡ true → missing self.new.marks.items + 1 ≡ missing self.old.marks.items }
        ensures old { result ≡ false → missing self.new.marks.items ≡ missing self.old.marks.items }
    {
        match self.marks.get_mut(place) {
            Some(mark) if !*mark => {
                *mark = true;
                true
            }
            _ => false,
        }
    }

    /// Whether a place is in both sets.
    pub(crate) fn meets(&self, other: &PlaceSet) -> bool {
        self.marks
            .iter()
            .zip(other.marks.iter())
            .any(|(here, there)| *here && *there)
    }

    /// For each place whether it is in the set.
    pub(crate) fn into_marks(self) -> Vec<bool> {
        self.marks
    }
}
