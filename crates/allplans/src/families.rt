//! Games to try: worked ones, games at random, and games on which methods of
//! the literature take long.
//!
//! Each is given only if it is a game. The sizes are small numbers, so that
//! the numbers of places do not come near their bound.
use crate::builder::Builder;
use crate::fault::Fault;
use crate::fine::{EndsGame, FineGame};
use crate::game::Game;
use crate::random::Random;
use crate::side::Side;
use std::alloc::Global;

/// The game of three places. Side 0 wins the first two, by going from the
/// first to the second; side 1 wins the third, by staying there.
pub fn three(heap: Global) -> Result<FineGame, Fault> {
    let mut game = Builder::new(heap);
    game.place(Side::Even, 1, &[1, 2])?;
    game.place(Side::Odd, 2, &[0])?;
    game.place(Side::Odd, 3, &[0, 2])?;
    game.finish()
}

/// One place with a move to itself.
// `whose` stays a word: callers may ask for any, and what is no side is refused.
pub fn one(heap: Global, whose: u32, weight: u32) -> Result<FineGame, Fault> {
    let mut game = Builder::new(heap);
    game.place(Side::try_from(whose)?, weight, &[0])?;
    game.finish()
}

/// A ring whose places belong to the sides in turn and all have the same
/// weight; each has a move to itself too.
pub fn all_same(heap: Global, places: u8, weight: u32) -> Result<FineGame, Fault> {
    let places = u32::from(places);
    let mut game = Builder::new(heap);
    for place in 0..places {
        game.place(Side::of(place), weight, &[following(place, places), place])?;
    }
    game.finish()
}

/// Rungs that belong to the sides in turn, each as heavy as it is high: from
/// each one goes up by one or back to the beginning, from the last only back.
pub fn ladder(heap: Global, last: u8) -> Result<FineGame, Fault> {
    let last = u32::from(last);
    let mut game = Builder::new(heap);
    for rung in 0..last {
        game.place(Side::of(rung), rung, &[rung + 1, 0])?;
    }
    game.place(Side::of(last), last, &[0])?;
    game.finish()
}

/// Places with `least` to `most` moves each, to any place, the same place and
/// the same move twice among them, and with weights below `weights`.
pub fn at_random(
    heap: Global,
    random: &mut Random,
    places: u32,
    least: u32,
    most: u32,
    weights: u32,
) -> Result<FineGame, Fault> {
    built_at_random(heap, random, places, least, most, weights)?.finish()
}

/// The same with no moves or up to `most`.
pub fn at_random_with_ends(
    heap: Global,
    random: &mut Random,
    places: u32,
    most: u32,
    weights: u32,
) -> Result<EndsGame, Fault> {
    built_at_random(heap, random, places, 0, most, weights)?.finish_with_ends()
}

/// Such places, whether or not they are a game.
fn built_at_random(
    heap: Global,
    random: &mut Random,
    places: u32,
    least: u32,
    most: u32,
    weights: u32,
) -> Result<Builder, Fault> {
    let mut game = Builder::new(heap);
    for _ in 0..places {
        let whose = Side::of(random.below(2));
        let weight = random.below(weights);
        let more = random.below(most.saturating_sub(least).saturating_add(1));
        game.place(whose, weight, &[])?;
        go_anywhere(&mut game, random, least.saturating_add(more), places)?;
    }
    Ok(game)
}

/// So many more moves, to any of the places.
fn go_anywhere(
    game: &mut Builder,
    random: &mut Random,
    count: u32,
    places: u32,
) -> Result<(), Fault> {
    for _ in 0..count {
        game.go(random.below(places))?;
    }
    Ok(())
}

/// So many copies of the places of a game, each of them once at least, in any
/// order: what moves to a place there moves to some copy of it here, and as often
/// as not some move is made again, maybe to another copy.
pub fn copied(
    heap: Global,
    random: &mut Random,
    game: &Game,
    copies: u32,
) -> Result<FineGame, Fault> {
    let origins = origins(heap, random, u32::try_from(game.len())?, copies)?;
    let mut copied = Builder::new(heap);
    for origin in origins.iter() {
        let here = game.places.get(*origin as usize).ok_or(Fault::NoGame)?;
        let moves = copied_moves(heap, random, origins.as_slice(), here.moves.as_slice())?;
        copied.place(Side::try_from(here.whose)?, here.weight, moves.as_slice())?;
    }
    copied.finish()
}

/// Which of so many places each copy is one of.
fn origins(heap: Global, random: &mut Random, places: u32, copies: u32) -> Result<Vec<u32>, Fault> {
    let mut origins = Vec::new(heap);
    for copy in 0..copies {
        origins.push(if copy < places {
            copy
        } else {
            random.below(places)
        })?;
    }
    shuffle(random, origins.as_mut_slice())?;
    Ok(origins)
}

/// These moves, each to some copy of where it goes, and maybe one of them again.
fn copied_moves(
    heap: Global,
    random: &mut Random,
    origins: &[u32],
    moves: &[u32],
) -> Result<Vec<u32>, Fault> {
    let mut copied = Vec::new(heap);
    for to in moves {
        copied.push(some_copy(heap, random, origins, *to)?)?;
    }
    if random.below(2) == 0 {
        let again = some_of(random, moves)?;
        copied.push(some_copy(heap, random, origins, again)?)?;
    }
    shuffle(random, copied.as_mut_slice())?;
    Ok(copied)
}

/// Some copy of a place.
fn some_copy(heap: Global, random: &mut Random, origins: &[u32], place: u32) -> Result<u32, Fault> {
    let mut copies = Vec::new(heap);
    for (copy, origin) in origins.iter().enumerate() {
        if *origin == place {
            copies.push(u32::try_from(copy)?)?;
        }
    }
    some_of(random, copies.as_slice())
}

/// One of these.
fn some_of(random: &mut Random, items: &[u32]) -> Result<u32, Fault> {
    let at = random.below(u32::try_from(items.len())?);
    items.get(at as usize).copied().ok_or(Fault::NoGame)
}

/// Puts these in another order.
fn shuffle(random: &mut Random, items: &mut [u32]) -> Result<(), Fault> {
    for last in 1..u32::try_from(items.len())? {
        let at = random.below(last + 1);
        items.swap(at as usize, last as usize);
    }
    Ok(())
}

/// Clusters of places with three moves each: all stay in the cluster, but for
/// one in sixteen of the third moves, which goes to the next cluster.
pub fn clusters(
    heap: Global,
    random: &mut Random,
    clusters: u8,
    size: u8,
    weights: u32,
) -> Result<FineGame, Fault> {
    let clusters = u32::from(clusters);
    let size = u32::from(size);
    let mut game = Builder::new(heap);
    for cluster in 0..clusters {
        let next = following(cluster, clusters);
        for _ in 0..size {
            let whose = Side::of(random.below(2));
            game.place(whose, random.below(weights), &[])?;
            let third = if random.below(16) == 0 { next } else { cluster };
            for to in [cluster, cluster, third] {
                game.go(cell(to, size, random.below(size)))?;
            }
        }
    }
    game.finish()
}

/// After the games of Jurdzinski (Small progress measures for solving parity
/// games, 2000), on which measures are lifted exponentially often.
///
/// In each column side 0 stands at a place of weight 0 and chooses among
/// places of the odd weights, one for each row, from which side 1 goes back to
/// the column or on to the next. So a measure of side 0 counts through all
/// its values: with c columns and r rows about (c + 1) to the r times. From
/// the last column side 0 may also go by a heavy even place, and wins there.
/// As in the original the rows are the odd weights, and each has as many
/// places as a digit of the measure counts; the moves are not the original's.
pub fn measures(heap: Global, columns: u8, rows: u8) -> Result<FineGame, Fault> {
    let columns = u32::from(columns);
    let rows = u32::from(rows);
    let width = rows.wrapping_add(1);
    let last = columns.saturating_sub(1);
    let mut game = Builder::new(heap);
    for column in 0..columns {
        add_foot(&mut game, cell(column, width, 1), rows)?;
        if column == last {
            game.go(cell(columns, width, 0))?;
        }
        let foot = cell(column, width, 0);
        let next = cell(following(column, columns), width, 0);
        add_rows(&mut game, rows, foot, next)?;
    }
    game.place(Side::Odd, cell(rows, 2, 0), &[cell(last, width, 0)])?;
    game.finish()
}

/// Where side 0 chooses among so many places from `first` on.
fn add_foot(game: &mut Builder, first: u32, rows: u32) -> Result<(), Fault> {
    game.place(Side::Even, 0, &[])?;
    for row in 0..rows {
        game.go(first.wrapping_add(row))?;
    }
    Ok(())
}

/// The places of the odd weights.
fn add_rows(game: &mut Builder, rows: u32, foot: u32, next: u32) -> Result<(), Fault> {
    for row in 0..rows {
        game.place(Side::Odd, cell(row, 2, 1), &[foot, next])?;
    }
    Ok(())
}

/// After the lower bounds for succinct measures (Jurdzinski and Lazic,
/// Succinct progress measures for solving parity games, 2017), of our own
/// making: a game in which measures need the whole of a binary tree.
///
/// Side 1 climbs from step to step. The step to the number i is as heavy as
/// 2 divides i often, odd, so a measure has to fall at each as the leaves of a
/// tree do from left to right. Beside each step side 0 may go back to where
/// its part of the tree begins, by a heavier even place; the last step leads
/// home by the heaviest. One more place at the gate, where side 1 may stay, is
/// all that side 1 wins. No bound is claimed for this game.
pub fn tree(heap: Global, steps: u8) -> Result<FineGame, Fault> {
    let steps = u32::from(steps);
    let mut game = Builder::new(heap);
    for number in 1..=steps {
        add_step(&mut game, number)?;
    }
    let home = cell(steps, 2, 0);
    game.place(Side::Even, 20, &[0])?;
    game.place(Side::Odd, 1, &[home.wrapping_add(1), home])?;
    game.finish()
}

/// The step to a number, and the place beside it.
fn add_step(game: &mut Builder, number: u32) -> Result<(), Fault> {
    let height = number.trailing_zeros();
    let begin = number.saturating_sub(lowest_bit(number));
    let next = cell(number, 2, 0);
    game.place(Side::Odd, cell(height, 2, 1), &[next, next.wrapping_sub(1)])?;
    game.place(Side::Even, cell(height, 2, 2), &[cell(begin, 2, 0), next])
}

/// The greatest power of 2 that divides `n`.
fn lowest_bit(n: u32) -> u32 {
    n & n.wrapping_neg()
}

/// After the recursive ladders of Friedmann (Recursive algorithm for parity
/// games requires exponential time, 2011): the recursive algorithm calls
/// itself about 3 to the (levels / 2) times.
///
/// Five places a level, with the weights of the original: a and b at the
/// side, whose weights are 0 and 1 in turn, and c, d and e, whose weights
/// grow by three a level. The moves of c and e, and the sides of a and b, were
/// found by trying; they may differ from the original's.
pub fn recursive_ladder(heap: Global, levels: u8) -> Result<FineGame, Fault> {
    let levels = u32::from(levels);
    let mut making = LadderGame {
        game: Builder::new(heap),
        ladder: Rungs { levels },
    };
    for level in 0..levels {
        making.add_side_rungs(level)?;
    }
    for level in 0..levels {
        making.add_rungs(level)?;
    }
    making.game.finish()
}

/// A recursive ladder in the making.
#[derive(Drop)]
struct LadderGame {
    game: Builder,
    ladder: Rungs,
}

impl LadderGame {
    /// The places a and b of a level.
    fn add_side_rungs(&mut self, level: u32) -> Result<(), Fault> {
        let ladder = self.ladder;
        let whose = Side::of(level);
        let other = whose.other();
        self.game
            .place(other, u32::from(whose), &[ladder.b(level)])?;
        self.game
            .place(whose, u32::from(other), &[ladder.a(level)])?;
        let above = level.saturating_add(1);
        if above < ladder.levels {
            self.game.go(ladder.c(above))?;
            self.game.go(ladder.b(above))?;
        }
        Ok(())
    }

    /// The places c, d and e of a level.
    fn add_rungs(&mut self, level: u32) -> Result<(), Fault> {
        let ladder = self.ladder;
        let whose = Side::of(level);
        let other = whose.other();
        let down = [ladder.b(level), ladder.d(level)];
        self.game.place(other, cell(level, 3, 5), &down)?;
        self.game
            .place(whose, cell(level, 3, 4), &[ladder.e(level)])?;
        if level > 0 {
            self.game.go(ladder.d(level - 1))?;
        }
        let above = level.saturating_add(1);
        if above < ladder.levels {
            self.game.go(ladder.d(above))?;
        }
        self.game.place(other, cell(level, 3, 3), &down)
    }
}

/// The numbers of the places of a recursive ladder, level by level from 0:
/// first a and b of each level, then c, d and e of each.
#[derive(Clone, Copy)]
struct Rungs {
    levels: u32,
}

impl Rungs {
    fn a(self, level: u32) -> u32 {
        cell(level, 2, 0)
    }

    fn b(self, level: u32) -> u32 {
        cell(level, 2, 1)
    }

    fn c(self, level: u32) -> u32 {
        cell(level, 3, self.a(self.levels))
    }

    fn d(self, level: u32) -> u32 {
        self.c(level).wrapping_add(1)
    }

    fn e(self, level: u32) -> u32 {
        self.c(level).wrapping_add(2)
    }
}

/// After the games of Friedmann (An exponential lower bound for the parity
/// game strategy improvement algorithm as we know it, 2009): a binary counter
/// through which an improved plan has to count.
///
/// For each bit six places, d to k below, of which d and e are the round that
/// is closed where the bit is set; lanes t and a of two places a bit, which
/// slow the closing down; the entries s and r, the crossing c, and a sink x.
/// Weights of the same kind that follow one another were made one, so that
/// they stay below 256: this keeps the winners, but not the steps that the
/// original is made for. `lead` more places lead to the entries.
pub fn binary_counter(heap: Global, bits: u8, lead: u8) -> Result<FineGame, Fault> {
    let bits = u32::from(bits);
    let mut making = CounterGame {
        game: Builder::new(heap),
        counter: Counter { bits },
    };
    making.add_entries()?;
    making.add_lanes()?;
    for bit in 0..bits {
        making.add_round(bit)?;
        making.add_choices(bit)?;
    }
    making.add_lead(u32::from(lead))?;
    making.game.finish()
}

/// A binary counter in the making.
#[derive(Drop)]
struct CounterGame {
    game: Builder,
    counter: Counter,
}

impl CounterGame {
    /// The sink, the crossing and the entries.
    fn add_entries(&mut self) -> Result<(), Fault> {
        let counter = self.counter;
        let weight = cell(counter.bits, 6, 2);
        self.game.place(Side::Even, 1, &[counter.x()])?;
        self.game
            .place(Side::Even, weight, &[counter.s(), counter.r()])?;
        self.game.place(Side::Even, weight, &[counter.x()])?;
        for bit in 0..counter.bits {
            self.game.go(counter.f(bit))?;
        }
        self.game.place(Side::Even, weight, &[counter.x()])?;
        for bit in 0..counter.bits {
            self.game.go(counter.g(bit))?;
        }
        Ok(())
    }

    /// The lanes: t, one to the next, and from each a to its t.
    fn add_lanes(&mut self) -> Result<(), Fault> {
        let counter = self.counter;
        let lane = cell(counter.bits, 2, 0);
        for i in 0..lane {
            let next = match i.checked_sub(1) {
                Some(before) => counter.t(before),
                None => counter.c(),
            };
            self.game.place(
                Side::Even,
                cell(i, 2, lane.wrapping_add(3)),
                &[counter.s(), counter.r(), next],
            )?;
        }
        for i in 0..lane {
            self.game.place(
                Side::Even,
                cell(i, 2, lane.wrapping_add(4)),
                &[counter.t(i)],
            )?;
        }
        Ok(())
    }

    /// The places d, e and g of a bit.
    fn add_round(&mut self, bit: u32) -> Result<(), Fault> {
        let counter = self.counter;
        let low = cell(bit, 2, 3);
        let above = low.wrapping_add(1);
        self.game.place(Side::Even, low, &[counter.s(), counter.e(bit), counter.r()])?;
        for i in 0..cell(bit, 2, 2) {
            self.game.go(counter.a(i))?;
        }
        self.game
            .place(Side::Odd, above, &[counter.d(bit), counter.h(bit)])?;
        self.game
            .place(Side::Even, above, &[counter.f(bit), counter.k(bit)])
    }

    /// The places k, f and h of a bit.
    fn add_choices(&mut self, bit: u32) -> Result<(), Fault> {
        let counter = self.counter;
        let high = cell(counter.bits, 6, cell(bit, 2, 3));
        self.game.place(Side::Even, high, &[counter.x()])?;
        for higher in bit.saturating_add(1)..counter.bits {
            self.game.go(counter.g(higher))?;
        }
        self.game.place(Side::Even, high, &[counter.e(bit)])?;
        self.game
            .place(Side::Even, high.wrapping_add(1), &[counter.k(bit)])
    }

    /// The places that lead to the entries.
    fn add_lead(&mut self, lead: u32) -> Result<(), Fault> {
        let counter = self.counter;
        for place in 0..lead {
            let next = if place + 1 < lead {
                counter.end().wrapping_add(place).wrapping_add(1)
            } else {
                counter.s()
            };
            self.game.place(Side::Odd, place % 2, &[next, counter.r()])?;
        }
        Ok(())
    }
}

/// The numbers of the places of a counter, bits and lanes from 0.
#[derive(Clone, Copy)]
struct Counter {
    bits: u32,
}

impl Counter {
    fn x(self) -> u32 {
        0
    }

    fn c(self) -> u32 {
        1
    }

    fn s(self) -> u32 {
        2
    }

    fn r(self) -> u32 {
        3
    }

    fn t(self, i: u32) -> u32 {
        cell(1, 4, i)
    }

    fn a(self, i: u32) -> u32 {
        cell(self.bits, 2, self.t(i))
    }

    fn d(self, bit: u32) -> u32 {
        cell(bit, 6, cell(self.bits, 4, 4))
    }

    fn e(self, bit: u32) -> u32 {
        self.d(bit).wrapping_add(1)
    }

    fn g(self, bit: u32) -> u32 {
        self.d(bit).wrapping_add(2)
    }

    fn k(self, bit: u32) -> u32 {
        self.d(bit).wrapping_add(3)
    }

    fn f(self, bit: u32) -> u32 {
        self.d(bit).wrapping_add(4)
    }

    fn h(self, bit: u32) -> u32 {
        self.d(bit).wrapping_add(5)
    }

    /// The number behind the last place.
    fn end(self) -> u32 {
        self.d(self.bits)
    }
}

/// The same game with the sides changed: each place is the other side's, and
/// each weight is greater by one.
pub fn mirrored(heap: Global, game: &Game) -> Result<FineGame, Fault> {
    let mut mirror = Builder::new(heap);
    for place in game.places.iter() {
        let whose = Side::try_from(place.whose).map_or(Side::Even, Side::other);
        mirror.place(
            whose,
            place.weight.saturating_add(1),
            place.moves.as_slice(),
        )?;
    }
    mirror.finish()
}

/// The number of a cell in rows of this width, from 0.
// It wraps, since no bound is in hand here: a number that is no place makes no game.
fn cell(row: u32, width: u32, column: u32) -> u32 {
    row.wrapping_mul(width).wrapping_add(column)
}

/// The number after `i` of so many, going round.
fn following(i: u32, count: u32) -> u32 {
    let next = i.wrapping_add(1);
    if next < count { next } else { 0 }
}
