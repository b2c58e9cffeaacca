//! Sets of places as bits of lent words: place `i` is bit `i % 32` of word `i / 32`.
//!
//! Functions on words, and no type: a set is cut from lent words, and saved and
//! handed on as words, and a type around them would be made at each such cut.
ghost use Rattle.std.specs.Prelude.{◌≡◌, ℕ, ◌+◌, ◌-◌, ◌*◌, ◌/◌, ◌^◌, ◌<◌, ◌≤◌, true, false, length, MatchOption, ◌==◌, nat_lt};
ghost use Rattle.std.specs.Iterator.{YieldsFirst, item_count};
ghost use Rattle.endless.specs.Bits.{digit, members, size, Inserted, Removed, Least, NoneFrom};
ghost use Rattle.endless.specs.Listed.{listed_from, members_left, Numbered};

/// Whether `i` is in the set.
pub fn has(set: &[u32], i: u32) -> bool
    requires { i / 32 < length set.now }
    ensures { result ≡ members set.now i }
{
    (set[(i / 32) as usize] >> (i % 32)) & 1 == 1
}

/// Puts `i` into the set.
pub fn insert(set: &mut [u32], i: u32)
    requires { i / 32 < length set.old }
    ensures { Inserted set.old i set.new }
{
    set[(i / 32) as usize] |= 1 << (i % 32);
}

/// Puts `i` into the set, if that is so.
// No branch: see `Attraction::pull`.
pub fn insert_if(set: &mut [u32], i: u32, is_so: bool)
    requires { i / 32 < length set.old }
    ensures inserted { is_so ≡ true → Inserted set.old i set.new }
    ensures kept { is_so ≡ false → set.new ≡ set.old }
{
    set[(i / 32) as usize] |= u32::from(is_so) << (i % 32);
}

/// Takes `i` out of the set.
pub fn remove(set: &mut [u32], i: u32)
    requires { i / 32 < length set.old }
    ensures { Removed set.old i set.new }
{
    set[(i / 32) as usize] &= !(1 << (i % 32));
}

/// Takes `i` out of the set, if that is so.
// No branch: see `Attraction::pull`.
pub fn remove_if(set: &mut [u32], i: u32, is_so: bool)
    requires { i / 32 < length set.old }
    ensures removed { is_so ≡ true → Removed set.old i set.new }
    ensures kept { is_so ≡ false → set.new ≡ set.old }
{
    set[(i / 32) as usize] &= !(u32::from(is_so) << (i % 32));
}

/// How many members the set has.
pub fn count(set: &[u32]) -> u32
    requires { 32 * length set.now < 2 ^ 32 }
    ensures { result ≡ size set.now }
{
    set.iter().map(|word| word.count_ones()).sum()
}

/// Makes `to` the set that `from` is.
pub fn copy(from: &[u32], to: &mut [u32])
    requires { length from.now ≡ length to.old }
    ensures { to.new ≡ from.now }
{
    to.copy_from_slice(from);
}

/// Takes all members out of the set.
pub fn clear(set: &mut [u32])
    ensures { size set.new ≡ 0 }
{
    set.fill(0);
}

/// Whether the set has no member.
pub fn is_empty(set: &[u32]) -> bool
    ensures { result ≡ (size set.now == 0) }
{
    set.iter().all(|word| *word == 0)
}

/// The word whose `k` lowest bits are set.
fn low_bits(k: u32) -> u32
    requires { k ≤ 32 }
    ensures { result ≡ 2 ^ k - 1 }
{
    if k == 32 { u32::MAX } else { (1 << k) - 1 }
}

/// Makes the set the places below `n`.
pub fn fill(set: &mut [u32], n: u32)
    requires { n ≤ 32 * length set.old }
    ensures are { (j : ℕ) → members set.new j ≡ nat_lt j n }
    ensures many { size set.new ≡ n }
{
    let mut left = n;
    for word in set.iter_mut() {
        let here = left.min(32);
        *word = low_bits(here);
        left -= here;
    }
}

/// The lowest bit of a word that is set, of those at or after `from`.
fn lowest(word: u32, from: u32) -> Option<u32>
    requires { from < 32 }
    ensures { MatchOption result (NoneFrom (digit word) from) (λ bit. (bit < 32) × Least (digit word) from bit) }
{
    let high = word >> from;
    if high == 0 {
        None
    } else {
        Some(from + high.trailing_zeros())
    }
}

/// The least member at or after `from`.
pub fn next(set: &[u32], from: u32) -> Option<u32>
    requires { 32 * length set.now < 2 ^ 32 }
    ensures { MatchOption result (NoneFrom (members set.now) from) (λ m. Least (members set.now) from m) }
{
    let mut start = from % 32;
    for (k, word) in set.iter().enumerate().skip((from / 32) as usize) {
        if let Some(bit) = lowest(*word, start) {
            return Some(32 * k as u32 + bit);
        }
        start = 0;
    }
    None
}

/// The members of a set, the least first: it is gone through word by word.
#[derive(Clone, Copy)]
pub struct Members<'a> {
    // The place of the lowest bit of `word`.
    at: u32,
    // A word without the bits that were given.
    word: u32,
    // The words behind it.
    words: &'a [u32],
}

/// Goes through the members of the set, the least first.
pub fn iter(set: &[u32]) -> Members<'_>
    requires { 32 * length set.now < 2 ^ 32 }
    ensures left { members_left result ≡ listed_from 0 set.now }
    ensures numbered { Numbered result }
{
    match set.split_first() {
        Some((word, words)) => Members {
            at: 0,
            word: *word,
            words,
        },
        None => Members {
            at: 0,
            word: 0,
            words: set,
        },
    }
}

impl<'a> Iterator for Members<'a> {
    type Item = u32;

    ghost can_next = { Numbered };

    ghost next_gives = { YieldsFirst members_left };

    ghost remaining = { item_count members_left };

    fn next(&mut self) -> Option<u32> {
        while self.word == 0 {
            let (word, words) = self.words.split_first()?;
            self.at += 32;
            self.word = *word;
            self.words = words;
        }
        let bit = self.word.trailing_zeros();
        self.word &= self.word - 1;
        Some(self.at + bit)
    }
}
