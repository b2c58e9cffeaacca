//! What places are called where each needs a name.
ghost use Rattle.std.specs.Prelude.{◌≡◌, ◌^◌, ◌<◌, true, false, List, map, length, IfOk, MatchOption, vec_items, string_bytes};
ghost use Rattle.pgsolver.specs.Called.{Counts, bearers, digits_alone, common, tells, called, ToldApart};
ghost use Rattle.std.specs.Char.{is_control};
ghost use Rattle.std.specs.List.{list_any};
ghost use Rattle.std.specs.Str.{chars};
ghost use Rattle.pgsolver.specs.Ids.{ids_of};

use crate::Named;
use std::alloc::{AllocError, Global};
use std::collections::BTreeMap;
use std::str;

/// The most bytes of a name that a drawing may have.
const MOST_NAME: usize = 64;

/// For each name how many places have it.
fn count_names<'a>(
    heap: Global,
    places: &'a [Named],
) -> Result<BTreeMap<&'a [u8], usize>, AllocError>
    ensures { IfOk result (λ m. Counts m places.now) }
{
    let mut counts = BTreeMap::new(heap);
    // No `entry`: tried, and what it counts was not shown where the keys are
    // bytes and no text.
    for place in places {
        let name = place.name.as_slice();
        let count = counts.get(name).copied().unwrap_or(0);
        counts.insert(name, count + 1)?;
    }
    Ok(counts)
}

/// Whether the name has digits alone, or nothing.
fn is_digits(name: &[u8]) -> bool
    ensures { result ≡ digits_alone name.now }
{
    name.iter().all(|b| b.is_ascii_digit())
}

/// Whether a drawing may have the name too.
fn is_common(name: &str) -> bool
    ensures { result ≡ common name.now }
{
    name.len() <= MOST_NAME && !has_control(name)
}

fn has_control(name: &str) -> bool
    ensures { result ≡ list_any is_control (chars name.now) }
{
    name.chars().any(|c| c.is_control())
}

/// Places, with how many of them have each name.
#[derive(Drop)]
struct Names<'a> {
    places: &'a [Named],
    counts: BTreeMap<&'a [u8], usize>,
    ghost counted: { Counts counts places.now },
}

impl<'a> Names<'a> {
    fn of(heap: Global, places: &'a [Named]) -> Result<Names<'a>, AllocError>
        ensures { IfOk result (λ n. n.places.now ≡ places.now) }
    {
        let counts = count_names(heap, places)?;
        Ok(Names { places, counts })
    }

    /// How many places have the name.
    fn bearers(&self, name: &[u8]) -> usize
        ensures { result ≡ bearers self.now.places.now name.now }
    {
        self.counts.get(name).copied().unwrap_or(0)
    }

    /// The name of a place, if it tells which place is meant.
    fn telling<'b>(&self, place: &'b Named) -> Option<&'b str>
        ensures { MatchOption result (tells self.now.places.now (vec_items place.now.name) ≡ false) (λ name. (name.now ≡ vec_items place.now.name) × (tells self.now.places.now (vec_items place.now.name) ≡ true)) }
    {
        let name = place.name.as_slice();
        if is_digits(name) || self.bearers(name) != 1 {
            return None;
        }
        let text = str::from_utf8(name).ok()?;
        is_common(text).then_some(text)
    }

    /// What a place is called.
    fn called(&self, heap: Global, place: &Named) -> Result<String, AllocError>
        ensures is { IfOk result (λ s. string_bytes s ≡ called self.now.places.now place.now) }
        ensures id { place.now.id < 2 ^ 32 }
    {
        let id = place.id;
        match self.telling(place) {
            Some(name) => String::from_str(heap, name),
            None => id.to_string(heap),
        }
    }
}

/// What each place is called: its name where that tells which place is meant, else its id in digits. A name tells it if it is text, has more than digits, which an id has, no other place has it, and a drawing may have it too.
pub fn called(heap: Global, places: &[Named]) -> Result<Vec<String>, AllocError>
    ensures names { IfOk result (λ v. map string_bytes v.items ≡ map (called places.now) places.now) }
    ensures apart { IfOk result (λ v. ToldApart (ids_of places.now) (map string_bytes v.items)) }
{
    let names = Names::of(heap, places)?;
    let mut all = Vec::new(heap);
    for place in places {
        all.push(names.called(heap, place)?)?;
    }
    Ok(all)
}

#[cfg(test)]
mod tests {
    use super::*;
    use std::test::Fail;

    // What places with these names are called, whose ids are 10, 11, 12 and so on.
    fn called_of(heap: Global, names: &[&[u8]]) -> Result<Vec<String>, AllocError> {
        let mut places = Vec::new(heap);
        for (name, id) in names.iter().zip(10..) {
            places.push(Named {
                id,
                name: Vec::from_slice(heap, *name)?,
            })?;
        }
        called(heap, places.as_slice())
    }

    #[test]
    fn calls_places(rt: HostRuntime) -> Result<(), Fail> {
        let names: [&[u8]; 10] = [
            b"up",
            b"twice",
            b"",
            b"10",
            b"twice",
            b"\xff",
            "ä 1".as_bytes(),
            b"",
            b"up\tdown",
            b"abcdefghijklmnopqrstuvwxyzabcdefghijklmnopqrstuvwxyz0123456789abc",
        ];
        let all = called_of(rt.alloc(), &names)?;
        let want = ["up", "11", "12", "13", "14", "15", "ä 1", "17", "18", "19"];
        assert_eq!(rt; all.len(), want.len());
        for (name, want) in all.iter().zip(want) {
            assert_eq!(rt; name.as_str(), want);
        }
        Ok(())
    }
}
