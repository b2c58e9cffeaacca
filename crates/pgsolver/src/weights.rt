//! Large priorities made small.
ghost use Rattle.std.specs.Prelude.{◌≡◌, ◌%◌, IfOk, OnOk, IfErr, IsSome, IsTrue, ◌↔◌, All};
ghost use Rattle.std.specs.BTreeMap.{get};
ghost use Rattle.std.specs.Ordering.{nat_cmp};
ghost use Rattle.pgsolver.specs.declared.weights.NoWeights.TheVariants.{Memory};
ghost use Rattle.pgsolver.specs.Table.{Adds, IsFullBelow, Locates};
ghost use Rattle.pgsolver.specs.Weights.{weights_by, Spreads, Fitted, Unfit, SameWins};

use std::alloc::{AllocError, AllocFailed, Global};
use std::collections::BTreeMap;
use std::error::Error;
use std::fmt;

// A number of its own, as this crate reads texts and takes no more from `endless` than a `Side`.
/// Weights are below this.
const WEIGHTS: u32 = 256;

/// So many of the least priorities tell whether all get weights, as each weight is given once.
const MOST_FIRSTS: usize = WEIGHTS as usize + 1;

/// Whether so many priorities are below this one.
fn is_beyond(firsts: &BTreeMap<u32, usize>, priority: u32) -> bool
    ensures { IsTrue result ↔ IsFullBelow 257 firsts.now priority }
{
    firsts.len() >= MOST_FIRSTS
        && firsts
            .last_key_value()
            .is_some_and(|(last, _)| *last < priority)
}

/// Adds where the priority stands, unless it has a place.
fn add(firsts: &mut BTreeMap<u32, usize>, priority: u32, n: usize) -> Result<(), AllocError>
    ensures { OnOk result (Adds firsts.old firsts.new priority n) }
{
    firsts.entry(priority)?.or_insert(n);
    Ok(())
}

/// For each of the least priorities where it first stands; where there are more, the others are above all of them.
fn firsts(heap: Global, priorities: &[u32]) -> Result<BTreeMap<u32, usize>, AllocError>
    ensures { IfOk result (λ m. Locates 257 m priorities.now) }
{
    let mut firsts = BTreeMap::new(heap);
    for (n, priority) in priorities.iter().enumerate() {
        if is_beyond(&firsts, *priority) {
            continue;
        }
        add(&mut firsts, *priority, n)?;
        if firsts.len() > MOST_FIRSTS {
            firsts.pop_last();
        }
    }
    Ok(firsts)
}

/// Gives the priorities weights, from the least priority on, each the least that is above those before and odd where the priority is; or tells where one stands that gets none below 256.
fn spread(heap: Global, priorities: &[u32]) -> Result<BTreeMap<u32, u32>, NoWeights>
    ensures { Spreads priorities.now result }
{
    let mut left = firsts(heap, priorities)?;
    let mut weights = BTreeMap::new(heap);
    let mut lowest = 0;
    while let Some((priority, at)) = left.pop_first() {
        let weight = lowest + (priority % 2 + lowest) % 2;
        if weight >= WEIGHTS {
            return Err(NoWeights::TooMany(at));
        }
        weights.insert(priority, weight)?;
        lowest = weight + 1;
    }
    Ok(weights)
}

/// The weights in place of the priorities.
fn replaced(
    heap: Global,
    priorities: &[u32],
    weights: &BTreeMap<u32, u32>,
) -> Result<Vec<u32>, AllocError>
    requires { All (λ p. IsSome (get nat_cmp weights.now p)) priorities.now }
    ensures { IfOk result (λ v. v.items ≡ weights_by weights.now priorities.now) }
{
    priorities.iter().map(|p| weights[p]).collect(heap)
}

/// Why priorities get no weights.
#[derive(Clone, Copy, Debug, PartialEq, Eq)]
pub enum NoWeights {
    /// The priority that stands there gets no weight below 256.
    TooMany(usize),
    Memory,
}

impl From<AllocError> for NoWeights {
    ghost from_gives = { λ _ r. r ≡ Memory };

    fn from(_e: AllocError) -> NoWeights {
        NoWeights::Memory
    }
}

impl<T: Drop> From<AllocFailed<T>> for NoWeights {
    ghost from_gives = { λ _ r. r ≡ Memory };

    fn from(_e: AllocFailed<T>) -> NoWeights {
        NoWeights::Memory
    }
}

impl fmt::Display for NoWeights {
    fn fmt<W: fmt::Write>(&self, f: &mut fmt::Formatter<W>) -> fmt::Result {
        match self {
            NoWeights::TooMany(at) => write!(
                f,
                "too many priorities: the one at {at} gets no weight below 256"
            ),
            NoWeights::Memory => f.write_str("out of memory"),
        }
    }
}

impl Error for NoWeights {}

/// Weights below 256 for priorities of any size, in the same order and odd where they are: each place is won by the same side with the same plans.
#[tactic(auto, using(crate::proofs::SameWins::same_wins))]
pub fn compress(heap: Global, priorities: &[u32]) -> Result<Vec<u32>, NoWeights>
    ensures fitted { IfOk result (λ v. Fitted priorities.now v.items) }
    ensures unfit { IfErr result (λ e. Unfit priorities.now e) }
    ensures wins { SameWins }
{
    if priorities.iter().all(|p| *p < WEIGHTS) {
        return Ok(Vec::from_slice(heap, priorities)?);
    }
    let weights = spread(heap, priorities)?;
    Ok(replaced(heap, priorities, &weights)?)
}
