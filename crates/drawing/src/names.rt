//! The names of the places, in the order of their lines.
ghost use Rattle.std.specs.Prelude.{◌≡◌, [], length, map, string_bytes, IfOk};
ghost use Rattle.drawing.specs.Reading.{index_of};
ghost use Rattle.drawing.specs.Passes.{Added};
ghost use Rattle.drawing.specs.Answering.{Collected};

use crate::answer_refusal::AnswerRefusal;
use crate::keyed::Keyed;
use crate::refusal::Refusal;
use indexmap::IndexSet;
use std::alloc::{AllocError, Global};
use std::marker::Model;

// A number of its own, as this crate reads texts and takes no more from `endless` than a `Side`.
/// The most places of a drawing.
pub const MOST_PLACES: usize = 16_384;

/// Names that all differ, each with the index of its place. A contract sees them as a list.
#[derive(Drop)]
pub(crate) struct Names {
    names: IndexSet<String, Keyed>,
}

impl Model for Names {
    ghost use Rattle.std.specs.Prelude.{ℕ, ◌≤◌, List, length, map, string_bytes};

    ghost Value = { List (List ℕ) };

    ghost view = { λ s. map string_bytes s.names.keys };

    ghost invariant = { λ s. length s.names.keys ≤ 16384 };
}

impl Names {
    /// No names yet of those in this text.
    pub(crate) fn new(heap: Global, text: &str) -> Names
        ensures { result ≡ [] }
    {
        Names {
            names: IndexSet::with_hasher(heap, Keyed::by(&text)),
        }
    }

    /// These names, as long as they all differ.
    pub(crate) fn of(heap: Global, names: &[String]) -> Result<Names, AnswerRefusal>
        ensures { Collected (map string_bytes names.now) result }
    {
        if names.len() > MOST_PLACES {
            return Err(AnswerRefusal::TooManyPlaces);
        }
        let mut all = IndexSet::with_hasher(heap, Keyed::by(&names));
        for name in names {
            if !all.insert(name.clone()?)? {
                return Err(AnswerRefusal::SameName {
                    name: name.clone()?,
                });
            }
        }
        Ok(Names { names: all })
    }

    pub(crate) fn len(&self) -> u32
        ensures { result ≡ length self.now }
    {
        self.names.len() as u32
    }

    /// The place of this name.
    pub(crate) fn find(&self, name: &str) -> Option<u32>
        ensures { result ≡ index_of name.now self.now }
    {
        Some(self.names.get_index_of(name)? as u32)
    }

    /// Puts the name that line `line` gives its place behind the others.
    pub(crate) fn add(&mut self, line: usize, name: String) -> Result<(), Refusal>
        ensures { Added line (string_bytes name) self.old self.new result }
    {
        if self.names.len() >= MOST_PLACES && self.find(name.as_str()).is_none() {
            return Err(Refusal::TooManyPlaces { line });
        }
        let (place, is_new) = self.names.insert_full(name)?;
        if is_new {
            return Ok(());
        }
        let name = self.names[place].clone()?;
        Err(Refusal::Twice { line, name })
    }

    /// The names alone.
    pub(crate) fn into_names(self, heap: Global) -> Result<Vec<String>, AllocError>
        ensures { IfOk result (λ v. map string_bytes v.items ≡ self) }
    {
        let Names { names } = self;
        names.into_iter().collect(heap)
    }
}
