//! How ids are hashed: from a start that they give themselves.
ghost use Rattle.std.specs.Prelude.{◌≡◌, fold};
ghost use Rattle.std.specs.Hash as fed;
ghost use Rattle.std.specs.Hash.FoldHasher as folding;

use std::hash::{BuildHasher, FoldHasher, Hash, Hasher};

/// Hashers that all start from one state.
#[derive(Clone, Copy)]
pub(crate) struct Seeded {
    start: FoldHasher,
}

impl BuildHasher for Seeded {
    type Hasher = FoldHasher;

    ghost build_hasher = { λ seeded. seeded.start };

    fn build_hasher(&self) -> FoldHasher {
        self.start
    }
}

impl Seeded {
    /// The start is the hash of all ids. So ids that collide have to be made with their own hash.
    pub(crate) fn by(ids: &[u32]) -> Seeded
        ensures { result.start ≡ fold folding.write folding.initial (fed.slice fed.u32 ids.now) }
    {
        let mut start = FoldHasher::default();
        ids.hash(&mut start);
        Seeded { start }
    }
}
