//! The kinds of games that are drawn.

/// Whether a place of a game may have no moves.
#[derive(Clone, Copy, Debug, PartialEq, Eq)]
pub enum Kind {
    /// Each place has a move, and no play ends.
    Endless,
    /// A place may have none, and whoever is to move there has lost.
    WithEnds,
}
