//! The highest id, which stands in the first line of what is written.
ghost use Rattle.std.specs.Prelude.{◌≡◌};
ghost use Rattle.pgsolver.specs.Ids.{ids_of, highest};

use crate::Named;

/// The highest of the ids; 0 where there are none.
pub(crate) fn highest(places: &[Named]) -> u32
    ensures { result ≡ highest (ids_of places.now) }
{
    places.iter().map(|place| place.id).max().unwrap_or(0)
}
