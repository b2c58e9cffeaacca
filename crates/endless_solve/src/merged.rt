//! The smaller game of one that was read.
use crate::fault::Fault;
use forms::{Labels, Source};
use quotient::merge;
use std::alloc::{AllocError, AllocFailed, Global};

/// The game in which places that are alike are one; each place is called as the
/// first that became it.
pub(crate) fn smaller(heap: Global, source: Source) -> Result<Source, Fault> {
    let Source { words, labels } = source;
    let mut to = vec![in heap; 0; words.len()]?;
    let mut smaller = vec![in heap; 0; words.len()]?;
    let mut work = vec![in heap; 0; words.len().saturating_mul(4).saturating_add(65536)]?;
    let len = merge(
        words.as_slice(),
        to.as_mut_slice(),
        smaller.as_mut_slice(),
        work.as_mut_slice(),
    )?;
    smaller.truncate(len);
    let labels = match labels {
        Labels::Names(names) => Labels::Names(firsts(heap, names, to.as_slice())?),
        Labels::Nodes(nodes) => Labels::Nodes(firsts(heap, nodes, to.as_slice())?),
    };
    Ok(Source {
        words: smaller,
        labels,
    })
}

/// What the first place that became each place of the smaller game is called:
/// the places are numbered by these.
fn firsts<T: Drop>(heap: Global, labels: Vec<T>, to: &[u32]) -> Result<Vec<T>, AllocFailed<T>> {
    let mut kept = Vec::new(heap);
    for (label, place) in labels.into_iter().zip(to) {
        if *place as usize == kept.len() {
            kept.push(label)?;
        }
    }
    Ok(kept)
}

#[cfg(test)]
mod tests {
    use super::*;
    use std::test::Fail;

    // north and south are side 0's, weight 2, each to the other; sea is side 1's,
    // weight 1, to itself and to north.
    const WORDS: [u32; 14] = [3, 0, 2, 1, 1, 0, 2, 1, 0, 1, 1, 2, 2, 0];

    // North and south are alike, and are one place, called north, which moves to
    // itself; sea moves to it and to itself, in this order.
    #[test]
    fn two_towns_are_one(rt: HostRuntime) -> Result<(), Fail> {
        let heap = rt.alloc();
        let mut names = Vec::new(heap);
        for name in ["north", "south", "sea"] {
            names.push(String::from_str(heap, name)?)?;
        }
        let mut words = Vec::new(heap);
        for word in WORDS {
            words.push(word)?;
        }
        let labels = Labels::Names(names);
        let Ok(merged) = smaller(heap, Source { words, labels }) else {
            return Err(Fail::new("refused"));
        };
        let Source { words, labels } = merged;
        assert_eq!(rt; words.as_slice(), [2, 0, 2, 1, 0, 1, 1, 2, 0, 1].as_slice());
        let names = labels.into_names(heap)?;
        let [first, second] = names.as_slice() else {
            return Err(Fail::new("not two names"));
        };
        assert_eq!(rt; first.as_str(), "north");
        assert_eq!(rt; second.as_str(), "sea");
        Ok(())
    }
}
