//! Which places of a game are alike, worked out by all pairs.
ghost use Rattle.std.specs.Prelude.{◌≡◌, ℕ, ◌<◌, IfOk, OnOk, true};
ghost use Rattle.std.specs.List.{filter, list_all};
ghost use Rattle.allplans.specs.Alike.{Alike, AllAdded, followed, led, matched, related, same};

use crate::fault::Fault;
use crate::game::{Game, Place};
use std::alloc::{AllocError, Global};

/// Two places of a game.
#[derive(Clone, Copy, PartialEq, Eq, Debug)]
pub struct Pair {
    pub one: usize,
    pub other: usize,
}

/// The pairs of places that are alike, each place with itself among them: places
/// of the same side and weight, where to whatever the one may move, the other
/// may move to what is alike. All pairs are tried, and those for which this is
/// not so of the pairs that are left are taken away, until there are none.
pub fn alike(heap: Global, game: &Game) -> Result<Vec<Pair>, Fault>
    ensures { IfOk result (λ pairs. Alike game.now.places.items pairs.items) }
{
    let places = game.places.as_slice();
    let mut pairs = all_pairs(heap, places.len())?;
    loop {
        let left = still_alike(heap, places, pairs.as_slice())?;
        if left.len() == pairs.len() {
            return Ok(pairs);
        }
        pairs = left;
    }
}

/// All pairs of so many places.
fn all_pairs(heap: Global, places: usize) -> Result<Vec<Pair>, AllocError>
    ensures { IfOk result (λ pairs. (v u : ℕ) → v < places → u < places → related pairs.items v u ≡ true) }
{
    let mut pairs = Vec::new(heap);
    for one in 0..places {
        add_pairs(&mut pairs, one, places)?;
    }
    Ok(pairs)
}

/// Adds all pairs of a place with one of so many.
fn add_pairs(pairs: &mut Vec<Pair>, one: usize, places: usize) -> Result<(), AllocError>
    ensures { OnOk result (AllAdded pairs.old.items one places pairs.new.items) }
{
    for other in 0..places {
        pairs.push(Pair { one, other })?;
    }
    Ok(())
}

/// Those of the pairs that are alike as far as these pairs are.
fn still_alike(heap: Global, places: &[Place], pairs: &[Pair]) -> Result<Vec<Pair>, AllocError>
    ensures { IfOk result (λ left. left.items ≡ filter (λ p. matched places.now (related pairs.now) p.one p.other) pairs.now) }
{
    pairs
        .iter()
        .copied()
        .filter(|pair| are_matched(places, pairs, pair.one, pair.other))
        .collect(heap)
}

/// Whether these are places that are alike as far as these pairs are.
fn are_matched(places: &[Place], pairs: &[Pair], one: usize, other: usize) -> bool
    ensures { result ≡ matched places.now (related pairs.now) one other }
{
    match (places.get(one), places.get(other)) {
        (Some(one), Some(other)) => are_same(one, other, pairs),
        _ => false,
    }
}

/// Whether two places have the same side and weight, and each may move to what
/// is related to where the other may move.
fn are_same(one: &Place, other: &Place, pairs: &[Pair]) -> bool
    ensures { result ≡ same (related pairs.now) one.now other.now }
{
    one.whose == other.whose
        && one.weight == other.weight
        && are_followed(pairs, one.moves.as_slice(), other.moves.as_slice())
        && are_led(pairs, one.moves.as_slice(), other.moves.as_slice())
}

/// Whether each of `ones` is related to one of `others`.
fn are_followed(pairs: &[Pair], ones: &[u32], others: &[u32]) -> bool
    ensures { result ≡ list_all (followed (related pairs.now) others.now) ones.now }
{
    ones.iter().all(|to| is_followed(pairs, *to, others))
}

/// Whether to each of `others` one of `ones` is related.
fn are_led(pairs: &[Pair], ones: &[u32], others: &[u32]) -> bool
    ensures { result ≡ list_all (led (related pairs.now) ones.now) others.now }
{
    others.iter().all(|to| is_led(pairs, ones, *to))
}

/// Whether this place is related to one of these.
fn is_followed(pairs: &[Pair], place: u32, moves: &[u32]) -> bool
    ensures { result ≡ followed (related pairs.now) moves.now place }
{
    moves.iter().any(|to| is_related(pairs, place, *to))
}

/// Whether one of these is related to this place.
fn is_led(pairs: &[Pair], moves: &[u32], place: u32) -> bool
    ensures { result ≡ led (related pairs.now) moves.now place }
{
    moves.iter().any(|from| is_related(pairs, *from, place))
}

/// Whether these two are one of the pairs.
fn is_related(pairs: &[Pair], one: u32, other: u32) -> bool
    ensures { result ≡ related pairs.now one other }
{
    pairs.iter().any(|pair| pair.one == one as usize && pair.other == other as usize)
}
