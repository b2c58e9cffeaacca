//! How names are hashed: by a key.
ghost use Rattle.std.specs.Prelude.{◌≡◌, fold};
ghost use Rattle.std.specs.Hash as fed;
ghost use Rattle.std.specs.Hash.DefaultHasher as sip;

use std::hash::{BuildHasher, DefaultHasher, Hash, Hasher};

/// Hashers that all start from one key.
#[derive(Clone, Copy)]
pub(crate) struct Keyed {
    start: DefaultHasher,
}

impl BuildHasher for Keyed {
    type Hasher = DefaultHasher;

    ghost build_hasher = { λ keyed. keyed.start };

    fn build_hasher(&self) -> DefaultHasher {
        self.start
    }
}

impl Keyed {
    /// The key is the hash of all that is read. So names that collide have to be made with the hash of the text that they stand in.
    pub(crate) fn by<T: Hash>(read: &T) -> Keyed
        ensures { result.start ≡ fold sip.write sip.initial (fed.u64 (sip.finish (fold sip.write sip.initial (T.hash_input read.now)))) }
    {
        let mut all = DefaultHasher::new();
        read.hash(&mut all);
        let mut start = DefaultHasher::new();
        start.write_u64(all.finish());
        Keyed { start }
    }
}
