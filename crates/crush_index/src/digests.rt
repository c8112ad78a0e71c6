//! A hasher for *digests*, which are hashes that were computed before. The hash of a digest is the
//! digest itself.

use std::hash::{BuildHasher, Hasher};

/// Creates an [`IdentityHasher`] each time that the table of names hashes a key.
#[derive(Clone, Copy)]
pub(crate) struct IdentityHashing;

/// A hasher whose hash is the last digest that was written to the hasher, or 0 if no digest was
/// written.
#[derive(Clone, Copy)]
pub(crate) struct IdentityHasher {
    digest: u64,
}

impl BuildHasher for IdentityHashing {
    type Hasher = IdentityHasher;

    ghost use Rattle.crush_index.specs.Keys.{nothing_passed};

    ghost build_hasher = { λ _. nothing_passed };

    fn build_hasher(&self) -> IdentityHasher {
        IdentityHasher { digest: 0 }
    }
}

impl Hasher for IdentityHasher {
    ghost use Rattle.crush_index.specs.Keys.{passed};

    ghost write = { passed };

    ghost finish = { λ state. state.digest };

    fn finish(&self) -> u64 {
        self.digest
    }

    // A digest is written as eight bytes, the lowest byte first. A write of any other length is
    // ignored.
    fn write(&mut self, bytes: &[u8]) {
        if bytes.len() == 8 {
            self.digest = u64::from_le_bytes([
                bytes[0], bytes[1], bytes[2], bytes[3], bytes[4], bytes[5], bytes[6], bytes[7],
            ]);
        }
    }
}
