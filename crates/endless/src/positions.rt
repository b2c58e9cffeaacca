//! Positions that may be past 2^32, each in two words.
ghost use Rattle.std.specs.Prelude.{◌≡◌};
ghost use Rattle.endless.specs.Graph.{joined};

// No struct, and so no `From`: arrays are what lent words can be cut into.
/// A position as two words, the low one first.
pub type Halves = [u32; 2];

/// The position that these words are.
pub fn position(halves: Halves) -> usize
    ensures { result ≡ joined halves }
{
    ((halves[1] as usize) << 32) + halves[0] as usize
}

/// The words of a position.
pub fn halves(at: usize) -> Halves
    ensures { joined result ≡ at }
{
    [(at & 0xffff_ffff) as u32, (at >> 32) as u32]
}
