//! The moves of a game in the order of its words.
ghost use Rattle.std.specs.Prelude.{◌≡◌, length};
ghost use Rattle.endless.specs.Graph.{edges};
ghost use Rattle.moves.specs.Moves.{origins, targets};

use endless::graph::Places;

/// Writes down for each move the place that has it and where it leads.
pub fn list_moves(places: &Places, from: &mut [u32], to: &mut [u32])
    requires from { length from.old ≡ edges places.now }
    requires to { length to.old ≡ edges places.now }
    ensures from { from.new ≡ origins 0 places.now }
    ensures to { to.new ≡ targets places.now }
{
    let mut first = 0;
    for place in 0..places.len() {
        let moves = places.moves(place);
        let next = first + moves.len();
        from[first..next].fill(place);
        to[first..next].copy_from_slice(moves);
        first = next;
    }
}
