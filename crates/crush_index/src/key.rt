//! The keys of the hash table of names. A key is a name together with the hash of the name, which
//! is called the name's *digest*.

ghost use Rattle.std.specs.Prelude.{◌≡◌};
ghost use Rattle.std.specs.Cmp.Rules.{comparing, hashing as hashed};
ghost use Rattle.std.specs.Hash as fed;
ghost use Rattle.std.proofs.Common.{ap, rules};
ghost use Rattle.crush_index.specs.Keys.{lookup_key, digest, key_of, same_digests, same_key, same_key_equiv};

use crate::chain::KeyMatch;
use crate::hashing::Hashing;
use crush_units::Name;
use indexmap::Equivalent;
use std::alloc::{AllocError, Global};
use std::hash::{BuildHasher, Hash, Hasher};
use std::marker::Model;

/// A name with its digest, which is the SipHash of the bytes of the name. The table of names hashes
/// only the digest, so that no name has to be hashed again when the index is copied.
#[derive(Drop)]
pub(crate) struct Key {
    global: Global,
    digest: u64,
    name: Name<Global>,
}

impl Model for Key {
    ghost use Rattle.std.specs.Prelude.{List, ℕ};

    ghost Value = { ℕ × List ℕ };

    ghost view = { λ key. (key.digest, key.name) };
}

impl Key {
    /// Returns the key of a name.
    pub(crate) fn of(global: Global, name: Name<Global>, hashing: &Hashing) -> Key
        ensures { result ≡ key_of hashing.now name }
    {
        let digest = digest(name.as_bytes(), hashing);
        Key {
            global,
            digest,
            name,
        }
    }
}

impl Clone for Key {
    ghost is_clone = { λ key copy. copy ≡ key };

    fn clone(&self) -> Result<Key, AllocError> {
        let name = self.name.try_copy(self.global)?;
        Ok(Key {
            global: self.global,
            digest: self.digest,
            name,
        })
    }
}

impl PartialEq for Key {
    ghost eq = { same_key };

    ghost laws = { Prim.search (comparing, rules) };

    fn eq(&self, other: &Key) -> bool {
        self.digest == other.digest && self.name.as_bytes() == other.name.as_bytes()
    }
}

impl Eq for Key {
    ghost laws = { Prim.search (comparing, rules) };
}

impl Hash for Key {
    ghost hash_input = { λ key. fed.u64 key.0 };

    ghost respects_eq = { Prim.search (hashed, rules) };

    fn hash<H: Hasher>(&self, state: &mut H) {
        self.digest.hash(state);
    }
}

/// The key of a look-up: the borrowed bytes of a name, with the digest of the name.
#[derive(Clone, Copy)]
pub(crate) struct LookupKey<'a> {
    digest: u64,
    bytes: &'a [u8],
}

impl<'a> LookupKey<'a> {
    /// Returns the key for a look-up of the name that has these bytes.
    pub(crate) fn of(bytes: &'a [u8], hashing: &Hashing) -> LookupKey<'a>
        ensures { lookup_key result ≡ key_of hashing.now bytes.now }
    {
        LookupKey {
            digest: digest(bytes, hashing),
            bytes,
        }
    }
}

impl<'a> PartialEq for LookupKey<'a> {
    ghost eq = { λ x y. same_key (lookup_key x) (lookup_key y) };

    ghost laws = { Prim.search (comparing, rules) };

    fn eq(&self, other: &LookupKey<'a>) -> bool {
        self.digest == other.digest && self.bytes == other.bytes
    }
}

impl<'a> Eq for LookupKey<'a> {
    ghost laws = { Prim.search (comparing, rules) };
}

impl<'a> Hash for LookupKey<'a> {
    ghost hash_input = { λ lookup. fed.u64 lookup.digest };

    ghost respects_eq = { Prim.search (hashed, rules) };

    fn hash<H: Hasher>(&self, state: &mut H) {
        self.digest.hash(state);
    }
}

impl<'a> Equivalent<Key> for LookupKey<'a> {
    ghost equivalent = { λ lookup. same_key (lookup_key lookup) };

    ghost respects_hash = { λ lookup key h. ap fed.u64 (same_digests (lookup_key lookup) key h) };

    ghost respects_eq = { λ lookup. same_key_equiv.congr (lookup_key lookup) };

    fn equivalent(&self, key: &Key) -> bool {
        self.digest == key.digest && self.bytes == key.name.as_bytes()
    }
}

impl<'a> KeyMatch<Key> for LookupKey<'a> {
    ghost matches = { λ lookup. same_key (lookup_key lookup) };

    fn matches(&self, key: &Key) -> bool {
        self.equivalent(key)
    }
}

/// Returns the SipHash of a name. The function passes all bytes to the hasher in one write. Hashing
/// a [`Name`] itself would pass its bytes one by one, which takes about five times as long.
#[tactic(auto, unfolding(crate::specs::Keys::digest))]
fn digest(name: &[u8], hashing: &Hashing) -> u64
    ensures { result ≡ digest hashing.now name.now }
{
    let mut state = hashing.build_hasher();
    state.write(name);
    state.finish()
}
