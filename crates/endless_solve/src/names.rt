//! What places are called in what is printed.
use drawing::Name;
use endless::answer::PlaceId;

/// The name of a place, as a drawing writes it.
pub(crate) fn name_of(names: &[String], place: PlaceId) -> Name<'_> {
    Name(
        names
            .get(place.0 as usize)
            .map_or("?", |name| name.as_str()),
    )
}
