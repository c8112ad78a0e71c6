//! A linked list. It stores the entries that an undo must put back into a table when no memory is
//! left with which the table could grow.

ghost use Rattle.std.specs.Prelude.{◌≡◌, Bool, IfOk, is_some};
ghost use Rattle.std.specs.Option.{option_map};
ghost use Rattle.crush_index.specs.Chains.{chain_answer, chain_with, chain_without, Pushes, TellsSame};

use std::alloc::{AllocError, Global};
use std::mem::replace;

/// The key of a look-up. It decides for each stored key whether the stored key matches.
pub(crate) trait KeyMatch<K> {
    /// Whether a stored key matches.
    ghost matches: { Self → K → Bool };

    fn matches(&self, key: &K) -> bool
        ensures { result ≡ matches self.now key.now };
}

impl KeyMatch<u32> for u32 {
    ghost use Rattle.std.specs.Prelude.{nat_eq};

    ghost matches = { nat_eq };

    fn matches(&self, key: &u32) -> bool {
        *self == *key
    }
}

/// A linked list of keys with their values. The memory of each added link was allocated in advance,
/// so that an entry can be added even when memory has run out. The list is nearly always empty. A
/// look-up compares the keys of the list one after the other.
pub(crate) enum Chain<K: Drop, V: Drop> {
    End,
    Link {
        key: K,
        value: V,
        rest: Box<Chain<K, V>>,
    },
}

/// The memory for one link, allocated in advance.
pub(crate) type Spare<K, V> = Box<Chain<K, V>>;

impl<K: Drop, V: Drop> Drop for Chain<K, V> {
    fn drop(mut self) {
        loop {
            match self {
                Chain::End => return,
                Chain::Link {
                    key: _,
                    value: _,
                    rest,
                } => self = Box::into_inner(rest),
            }
        }
    }
}

/// Allocates the memory for one link.
pub(crate) fn spare<K: Drop, V: Drop>(alloc: Global) -> Result<Spare<K, V>, AllocError> {
    Ok(Box::new(alloc, Chain::End)?)
}

impl<K: Drop, V: Copy + Drop> Chain<K, V> {
    /// Returns the value of the first key that matches, or `None` if no key matches.
    pub(crate) fn get<Q: KeyMatch<K>>(&self, lookup: &Q) -> Option<V>
        ensures { result ≡ chain_answer (Q.matches lookup.now) self.now }
    {
        let mut rest = self;
        while let Chain::Link {
            key,
            value,
            rest: next,
        } = rest
        {
            if lookup.matches(key) {
                return Some(*value);
            }
            rest = next;
        }
        None
    }

    pub(crate) fn try_copy(&self, alloc: Global) -> Result<Chain<K, V>, AllocError>
    where
        K: Clone,
        ensures { ((k l : K) → K.is_clone k l → l ≡ k) → IfOk result (TellsSame self.now) }
    {
        match self {
            Chain::End => Ok(Chain::End),
            Chain::Link { key, value, rest } => {
                let rest = rest.try_copy(alloc)?;
                let rest = Box::new(alloc, rest)?;
                Ok(Chain::Link {
                    key: key.clone()?,
                    value: *value,
                    rest,
                })
            }
        }
    }

    /// Replaces the value of the first key that matches. Returns true if there was such a key.
    pub(crate) fn set<Q: KeyMatch<K>>(&mut self, lookup: &Q, value: V) -> bool
        ensures there { result ≡ is_some (chain_answer (Q.matches lookup.now) self.old) }
        ensures with { self.new ≡ chain_with (Q.matches lookup.now) value self.old }
    {
        match self {
            Chain::End => false,
            Chain::Link {
                key,
                value: current,
                rest,
            } => {
                if lookup.matches(key) {
                    *current = value;
                    true
                } else {
                    rest.set(lookup, value)
                }
            }
        }
    }

    /// Removes all links whose keys match.
    pub(crate) fn remove<Q: KeyMatch<K>>(&mut self, lookup: &Q)
        ensures { self.new ≡ chain_without (Q.matches lookup.now) self.old }
    {
        if let Chain::Link {
            key,
            value: _,
            rest,
        } = self
        {
            rest.remove(lookup);
            if lookup.matches(key) {
                let rest = replace(rest.as_mut(), Chain::End);
                *self = rest;
            }
        }
    }

    /// Adds a link at the front of the list. The link is stored in the memory `spare`.
    pub(crate) fn push(&mut self, spare: Spare<K, V>, key: K, value: V)
        ensures { Pushes key value self.old self.new }
    {
        let mut rest = spare;
        *rest = replace(self, Chain::End);
        *self = Chain::Link { key, value, rest };
    }
}
