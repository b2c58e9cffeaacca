//! Numbers at random, the same ones at each run.

/// Goes through all numbers of 64 bits, in an order that looks like none; what
/// it gives is made of the upper half of each.
pub type Random = draws::Random<u32, 32>;
