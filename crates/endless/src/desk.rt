//! What the recursion works in.

/// What the recursion works in: the answer, a queue of places with room for a
/// move beside each, and for each place how many of its moves stay in the subgame at hand. Whoever makes one
/// lends it down the levels, and has back in `out` what they wrote.
// Words for the answer, as C has it (see `answer`), and lent words for the
// queue, as this crate has no heap.
#[derive(Drop)]
pub struct Desk<'r> {
    pub out: &'r mut [u32],
    pub queue: &'r mut [u32],
    pub via: &'r mut [u32],
    pub escapes: &'r mut [u32],
}
