//! Whether an index hashes its names and ids with random SipHash keys.

ghost use Rattle.std.specs.Prelude.{◌≡◌, Some, None};

use std::hash::{BuildHasher, DefaultHasher, RandomState};

/// How an index hashes names and ids: by SipHash, with random keys or without them.
///
/// Without random keys, the author of a map can choose names that all have the same hash, so that
/// each look-up compares many names. If the program draws random keys when it starts, this attack
/// fails.
#[derive(Clone, Copy)]
pub struct Hashing {
    keys: Option<RandomState>,
}

impl Hashing {
    /// Returns a hashing without random keys, for a caller that has no source of random numbers.
    pub fn plain() -> Hashing
        ensures { result.keys ≡ None }
    {
        Hashing { keys: None }
    }

    /// Returns a hashing with these random keys.
    pub fn keyed(keys: RandomState) -> Hashing
        ensures { result.keys ≡ Some keys }
    {
        Hashing { keys: Some(keys) }
    }
}

impl BuildHasher for Hashing {
    type Hasher = DefaultHasher;

    ghost use Rattle.crush_index.specs.Hashed.{first_state};

    ghost build_hasher = { λ hashing. first_state hashing.keys };

    fn build_hasher(&self) -> DefaultHasher {
        match &self.keys {
            Some(keys) => keys.build_hasher(),
            None => DefaultHasher::new(),
        }
    }
}
