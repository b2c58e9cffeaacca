//! A game in words as a graph: where each place's words start, and which places may move to a place.
ghost use Rattle.std.specs.Prelude.{◌≡◌, ℕ, suc, ◌+◌, ◌*◌, ◌^◌, ◌<◌, ◌≤◌, List, ◌∷◌, length, drop, ◌==◌, slice_index};
ghost use Rattle.endless.specs.Games.{Place, row, whose, weight};
ghost use Rattle.endless.specs.Graph.{positions, moves, Placed, Preds, times, upto, Filling, Room, Counts, Entered, entering, edges, Ready, Listed, OwnTo, Own, WeightsTo};
ghost use Rattle.endless.specs.Sides.{number};
ghost use Rattle.endless.specs.View.{Playable};

use crate::bits;
use crate::place::Head;
use crate::positions::{Halves, halves, position};
use crate::side::Side;
use crate::words::GameWords;
use std::marker::Model;

/// The moves of the place that these words begin with.
fn first_moves(words: &[u32]) -> &[u32]
    requires { (p : Place) × (ps : List Place) × (words.now ≡ row (p ∷ ps)) }
    ensures are { (p : Place) (ps : List Place) → words.now ≡ row (p ∷ ps) → result.now ≡ p.moves }
    ensures few { length result.now < 2 ^ 32 }
{
    &words[3..3 + words[2] as usize]
}

/// Writes down where each place's words start.
pub fn find_starts(game: &GameWords, starts: &mut [Halves])
    requires { length starts.old ≡ length game.now }
    ensures { Placed game.now (positions starts.new) }
{
    let mut at = 1;
    // By number: tried with `zip`, and of what an adapter of `iter_mut` writes
    // nothing is known.
    for (i, head) in game.heads().enumerate() {
        starts[i] = halves(at);
        at += 3 + head.moves as usize;
    }
}

/// The places of a game: its words, and where each place's words start. In contracts it is the game.
#[derive(Clone, Drop)]
pub struct Places<'a> {
    game: GameWords<'a>,
    starts: &'a [Halves],
}

impl<'a> Model for Places<'a> {
    ghost use Rattle.endless.specs.Games.{Game};
    ghost use Rattle.endless.specs.Graph.{positions, Placed};

    ghost Value = { Game };

    ghost view = { λ p. p.game };

    ghost invariant = { λ p. Placed p.game (positions p.starts.now) };
}

impl<'a> Places<'a> {
    /// The places of this game; `starts` is lent for where each place's words start.
    pub fn new(game: GameWords<'a>, starts: &'a mut [Halves]) -> Places<'a>
        requires { length starts.old ≡ length game }
        ensures { result ≡ game.entry }
    {
        find_starts(&game, starts);
        Places { game, starts }
    }

    /// How many places there are.
    pub fn len(&self) -> u32
        ensures len { result ≡ length self.now }
        ensures playable { Playable self.now }
    {
        self.game.len()
    }

    /// Whose move it is at a place, its weight, and how many moves it has.
    pub fn head(&self, n: u32) -> Head
        requires { n < length self.now }
        ensures whose { number result.whose ≡ whose self.now n }
        ensures weight { result.weight ≡ weight self.now n }
        ensures moves { result.moves ≡ length (moves self.now n) }
        ensures playable { Playable self.now }
    {
        Head::read(self.words_from(n)).unwrap()
    }

    /// The weight of a place.
    pub fn weight(&self, n: u32) -> u32
        requires { n < length self.now }
        ensures weight { result ≡ weight self.now n }
        ensures light { result < 256 }
    {
        self.words_from(n)[1]
    }

    /// Whether it is this side's move at a place.
    pub fn is_own(&self, side: Side, n: u32) -> bool
        requires { n < length self.now }
        ensures { result ≡ (whose self.now n == number side) }
    {
        self.words_from(n)[0] == u32::from(side)
    }

    /// The moves of a place.
    pub fn moves(&self, n: u32) -> &'a [u32]
        requires { n < length self.now }
        ensures moves { result.now ≡ moves self.now n }
        ensures few { length result.now < 2 ^ 32 }
        ensures playable { Playable self.now }
    {
        first_moves(self.words_from(n))
    }

    /// The words of a place, and of those behind it.
    fn words_from(&self, n: u32) -> &'a [u32]
        requires { n < length self.now }
        ensures are { result.now ≡ row (drop n self.now) }
        ensures long { 3 ≤ length result.now }
        ensures playable { Playable self.now }
    {
        let at = position(self.starts[n as usize]);
        self.game.words_from(at)
    }
}

/// A game as a graph: its places, and for each place the list of those that may move to it. In contracts it is the game.
// Whose a place is and its weight are asked for most. They stand in words of their own besides, as the places' words lie
// far apart.
#[derive(Clone, Drop)]
pub struct Graph<'a> {
    places: Places<'a>,
    even: &'a [u32],
    odd: &'a [u32],
    weights: &'a [u32],
    offsets: &'a [Halves],
    preds: &'a [u32],
}

impl<'a> Model for Graph<'a> {
    ghost use Rattle.endless.specs.Games.{Game};
    ghost use Rattle.endless.specs.Graph.{positions, Listed, Noted};

    ghost Value = { Game };

    ghost view = { λ v. v.places };

    ghost invariant = { λ v. Listed v.places (positions v.offsets.now) v.preds.now × Noted v.places v.even.now v.odd.now v.weights.now };
}

impl<'a> Graph<'a> {
    /// The graph of these places; `even`, `odd` and `weights` are lent for whose they are and what they weigh, `offsets`
    /// and `preds` for the lists.
    pub fn new(
        places: Places<'a>,
        even: &'a mut [u32],
        odd: &'a mut [u32],
        weights: &'a mut [u32],
        offsets: &'a mut [Halves],
        preds: &'a mut [u32],
    ) -> Graph<'a>
        requires even { length places ≤ 32 * length even.old }
        requires odd { length places ≤ 32 * length odd.old }
        requires weights { length places ≤ length weights.old }
        requires offsets { length offsets.old ≡ length places + 1 }
        requires preds { edges places ≤ length preds.old }
        ensures { result ≡ places.entry }
    {
        gather_own(&places, Side::Even, even);
        gather_own(&places, Side::Odd, odd);
        list_weights(&places, weights);
        count_entering(&places, offsets);
        sum_up(offsets);
        list_sources(&places, offsets, preds);
        Graph {
            places,
            even,
            odd,
            weights,
            offsets,
            preds,
        }
    }

    /// Its places, for what does not ask who may move to a place.
    pub fn places(&self) -> &Places<'a>
        ensures { result.now ≡ self.now }
    {
        &self.places
    }

    // What the places tell: the same through `places()` would be a call more at each
    // of some thirty uses, and no plainer.

    /// How many places there are.
    pub fn len(&self) -> u32
        ensures len { result ≡ length self.now }
        ensures playable { Playable self.now }
    {
        self.places.len()
    }

    /// Whose move it is at a place, its weight, and how many moves it has.
    pub fn head(&self, n: u32) -> Head
        requires { n < length self.now }
        ensures whose { number result.whose ≡ whose self.now n }
        ensures weight { result.weight ≡ weight self.now n }
        ensures moves { result.moves ≡ length (moves self.now n) }
        ensures playable { Playable self.now }
    {
        self.places.head(n)
    }

    /// The weight of a place.
    pub fn weight(&self, n: u32) -> u32
        requires { n < length self.now }
        ensures weight { result ≡ weight self.now n }
        ensures light { result < 256 }
    {
        self.weights[n as usize]
    }

    /// Whether it is this side's move at a place.
    pub fn is_own(&self, side: Side, n: u32) -> bool
        requires { n < length self.now }
        ensures { result ≡ (whose self.now n == number side) }
    {
        bits::has(self.own(side), n)
    }

    /// The set of a side's places.
    pub fn own(&self, side: Side) -> &'a [u32]
        ensures { Own self.now (number side) result.now }
    {
        match side {
            Side::Even => self.even,
            Side::Odd => self.odd,
        }
    }

    /// The moves of a place.
    pub fn moves(&self, n: u32) -> &'a [u32]
        requires { n < length self.now }
        ensures moves { result.now ≡ moves self.now n }
        ensures few { length result.now < 2 ^ 32 }
        ensures playable { Playable self.now }
    {
        self.places.moves(n)
    }

    /// The places that may move to `m`, each as often as it has that move.
    pub fn preds(&self, m: u32) -> &'a [u32]
        requires { m < length self.now }
        ensures preds { Preds self.now m result.now }
    {
        let from = position(self.offsets[m as usize]);
        let to = position(self.offsets[m as usize + 1]);
        &self.preds[from..to]
    }
}

/// Makes the set the places of a side.
fn gather_own(places: &Places, side: Side, own: &mut [u32])
    requires { length places.now ≤ 32 * length own.old }
    ensures { OwnTo places.now (number side) (length places.now) own.new }
{
    bits::fill(own, 0);
    for place in 0..places.len() {
        let is_own = places.is_own(side, place);
        bits::insert_if(own, place, is_own);
    }
}

/// Writes down the weight of each place.
fn list_weights(places: &Places, weights: &mut [u32])
    requires { length places.now ≤ length weights.old }
    ensures { WeightsTo places.now (length places.now) weights.new }
{
    for place in 0..places.len() {
        weights[place as usize] = places.weight(place);
    }
}

/// Counts one more for the place that each of these moves leads to.
fn count_moves(targets: &[u32], counts: &mut [Halves])
    requires within { (k : ℕ) → k < length targets.now → slice_index targets.now k < length counts.old }
    requires fits { (m : ℕ) → slice_index (positions counts.old) m + times m targets.now < 2 ^ 64 }
    ensures { Counts (positions counts.old) targets.now (positions counts.new) }
{
    for target in targets {
        let target = *target as usize;
        counts[target] = halves(position(counts[target]) + 1);
    }
}

/// Makes each count the sum of itself and of those before it.
fn sum_up(counts: &mut [Halves])
    requires { upto (λ j. slice_index (positions counts.old) j) (length counts.old) < 2 ^ 64 }
    ensures { (m : ℕ) → m < length counts.old → slice_index (positions counts.new) m ≡ upto (λ j. slice_index (positions counts.old) j) (suc m) }
{
    let mut sum = 0;
    for count in counts.iter_mut() {
        sum += position(*count);
        *count = halves(sum);
    }
}

/// Enters a place at the front of the list of each of its moves.
fn enter(place: u32, targets: &[u32], ends: &mut [Halves], preds: &mut [u32])
    requires { (f : ℕ → ℕ) × (n : ℕ) × (D : ℕ → List ℕ) × Filling f n (positions ends.old) preds.old D × Room f n targets.now (positions ends.old) preds.old D }
    ensures { Entered targets.now place (positions ends.old) preds.old (positions ends.new) preds.new }
{
    for target in targets {
        let target = *target as usize;
        let at = position(ends[target]) - 1;
        ends[target] = halves(at);
        preds[at] = place;
    }
}

/// Counts for each place the moves to it.
fn count_entering(places: &Places, counts: &mut [Halves])
    requires long { length counts.old ≡ length places.now + 1 }
    requires fits { edges places.now < 2 ^ 64 }
    ensures { (m : ℕ) → slice_index (positions counts.new) m ≡ entering places.now m }
{
    counts.fill([0, 0]);
    for v in 0..places.len() {
        count_moves(places.moves(v), counts);
    }
}

/// Enters each place into the lists of its moves, the last place first.
fn list_sources(places: &Places, ends: &mut [Halves], preds: &mut [u32])
    requires { Ready places.now (positions ends.old) preds.old }
    ensures { Listed places.now (positions ends.new) preds.new }
{
    for v in (0..places.len()).rev() {
        enter(v, places.moves(v), ends, preds);
    }
}
