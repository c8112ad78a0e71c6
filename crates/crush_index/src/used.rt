//! The set of used ids: the ids of buckets and their class ids. The *class ids* of a bucket are
//! further ids of the bucket, which Ceph gives to the bucket for device classes.

ghost use Rattle.std.specs.Prelude.{◌≡◌, ◌+◌, ◌*◌, ◌/◌, ◌≤◌, ◌<◌, ◌==◌, if◌then◌else◌, ℕ, false, OnOk, IfOk, IfSome, IfNone, length, slice_index, nat_eq, true};
ghost use Rattle.indexmap.specs.IndexSet.{contains, hasher_of};
ghost use Rattle.crush_index.specs.UsedKept.{bit_answer};

use crate::chain::{Chain, Spare};
use crate::copied::copied;
use crate::hashing::Hashing;
use crate::word::{first_clear, is_set, with_bit, without_bit};
use crush_units::limits::FARTHEST_BUCKET_ID;
use indexmap::IndexSet;
use std::alloc::{AllocError, Global};

/// An id whose distance below 0 is less than `DENSE_END` is stored as a bit. These ids include all
/// free ids that an edit needs: a map uses at most 17 ids for each of its at most 4,096 buckets,
/// and an edit needs at most 16 more, which are the free ids nearest to 0.
const DENSE_END: u32 = 69696;

/// The set of used ids. Each id is given as its distance below 0.
///
/// For each used id whose distance is less than [`DENSE_END`], a bit in `words` is set. The search
/// for a free id tests 64 of these ids at a time. All other used ids are in a hash set. The
/// exceptions are the ids in `overflow`. The vector `words` never becomes shorter.
#[derive(Drop)]
pub(crate) struct UsedIds {
    words: Vec<u64>,
    sparse: IndexSet<u32, Hashing>,
    /// The ids that an undo restored when no memory was left with which `words` or `sparse` could
    /// grow.
    overflow: Chain<u32, ()>,
    ghost few: { length words.items ≤ 1089 },
}

impl UsedIds {
    ghost use Rattle.crush_index.specs.Hashings.{used_hashing};
    ghost use Rattle.crush_index.specs.UsedChanged.{IsCopyOf, Inserts};
    ghost use Rattle.crush_index.specs.UsedAnswers.{used_answer, UsesOne, AreAllUsed, IsFirstFree};

    pub(crate) fn new(alloc: Global, hashing: Hashing) -> UsedIds
        ensures none { (k : ℕ) → used_answer result k ≡ false }
        ensures hashing { used_hashing result ≡ hashing }
    {
        UsedIds {
            words: Vec::new(alloc),
            sparse: IndexSet::with_hasher(alloc, hashing),
            overflow: Chain::End,
        }
    }

    pub(crate) fn try_copy(&self) -> Result<UsedIds, AllocError>
        ensures { IfOk result (IsCopyOf self.now) }
    {
        let words = copied(&self.words)?;
        let sparse = copy_sparse(&self.sparse)?;
        let overflow = self.overflow.try_copy(*self.words.allocator())?;
        Ok(UsedIds {
            words,
            sparse,
            overflow,
        })
    }

    /// Whether an id is used.
    pub(crate) fn has(&self, id: u32) -> bool
        ensures { result ≡ used_answer self.now id }
    {
        self.has_bit(id) || self.overflow.get(&id).is_some()
    }

    /// Whether an id is in `words` or `sparse`. Doesn't look into `overflow`.
    fn has_bit(&self, id: u32) -> bool
        ensures { result ≡ bit_answer self.now.words.items self.now.sparse id }
    {
        if id < DENSE_END {
            is_set(word_at(self.words.as_slice(), id as usize / 64), id % 64)
        } else {
            self.sparse.contains(&id)
        }
    }

    pub(crate) fn insert(&mut self, id: u32) -> Result<(), AllocError>
        ensures { Inserts id self.old self.new result }
    {
        if id < DENSE_END {
            let place = id as usize / 64;
            grow_to(&mut self.words, place)?;
            self.words[place] = with_bit(self.words[place], id % 64);
        } else {
            self.sparse.insert(id)?;
        }
        Ok(())
    }

    /// Inserts an id, as [`UsedIds::insert`] does, but can't fail: if no memory can be allocated,
    /// the id is stored in the memory `spare`.
    pub(crate) fn restore(&mut self, id: u32, spare: Spare<u32, ()>)
        ensures answers { UsesOne self.old self.new id true }
        ensures hashing { used_hashing self.new ≡ used_hashing self.old }
    {
        if self.insert(id).is_err() {
            self.overflow.push(spare, id, ());
        }
    }

    pub(crate) fn remove(&mut self, id: u32)
        ensures answers { UsesOne self.old self.new id false }
        ensures hashing { used_hashing self.new ≡ used_hashing self.old }
    {
        remove_bit(&mut self.words, &mut self.sparse, id);
        self.overflow.remove(&id);
    }

    /// Returns the lowest unused id that is at least `least`. Returns `None` if all ids from
    /// `least` to 2147483648, the highest id that a bucket can have, are used.
    pub(crate) fn first_free(&self, least: u32) -> Option<u32>
        ensures some { IfSome result (IsFirstFree self.now least) }
        ensures none { IfNone result (AreAllUsed self.now least) }
    {
        for id in self.first_clear(least)..FARTHEST_BUCKET_ID + 1 {
            if !self.has(id) {
                return Some(id);
            }
        }
        None
    }

    /// Returns an id at which a search for a free id can start: the result is at least `least`, and
    /// all ids from `least` to the id before the result are used. The result itself is usually
    /// free, but an id in `overflow` is used although its bit isn't set.
    fn first_clear(&self, least: u32) -> u32
        ensures least { least ≤ result }
        ensures used { (k : ℕ) → least ≤ k → k < result → used_answer self.now k ≡ true }
    {
        let first = least as usize / 64;
        for place in first..self.words.len() {
            let from = first_bit(least, place);
            if let Some(bit) = first_clear(self.words[place], from) {
                return place as u32 * 64 + bit;
            }
        }
        let past = self.words.len() as u32 * 64;
        past.max(least)
    }
}

fn remove_bit(words: &mut Vec<u64>, sparse: &mut IndexSet<u32, Hashing>, id: u32)
    requires { length words.old.items ≤ 1089 }
    ensures answers { (k : ℕ) → bit_answer words.new.items sparse.new k
        ≡ (if id == k then false else bit_answer words.old.items sparse.old k) }
    ensures few { length words.new.items ≤ 1089 }
    ensures hashing { hasher_of sparse.new ≡ hasher_of sparse.old }
{
    if id < DENSE_END {
        let place = id as usize / 64;
        if place < words.len() {
            words[place] = without_bit(words[place], id % 64);
        }
    } else {
        sparse.swap_remove(&id);
    }
}

fn copy_sparse(sparse: &IndexSet<u32, Hashing>) -> Result<IndexSet<u32, Hashing>, AllocError>
    ensures answers { IfOk result
        (λ copy. (k : ℕ) → contains nat_eq copy k ≡ contains nat_eq sparse.now k) }
    ensures hashing { IfOk result (λ copy. hasher_of copy ≡ hasher_of sparse.now) }
{
    let mut copy = IndexSet::with_hasher(*sparse.allocator(), *sparse.hasher());
    copy.extend(sparse)?;
    Ok(copy)
}

/// Returns the word with the index `place`, or 0 if `place` is past the last word.
fn word_at(words: &[u64], place: usize) -> u64
    ensures { result ≡ slice_index words.now place }
{
    match words.get(place) {
        Some(word) => *word,
        None => 0,
    }
}

/// Appends words that are 0 until the vector has a word with the index `place`. Returns an error if
/// memory runs out.
fn grow_to(words: &mut Vec<u64>, place: usize) -> Result<(), AllocError>
    requires within { place < 1089 }
    requires few { length words.old.items ≤ 1089 }
    ensures there { OnOk result (place < length words.new.items) }
    ensures few { length words.new.items ≤ 1089 }
    ensures same { (i : ℕ) → slice_index words.new.items i ≡ slice_index words.old.items i }
{
    while words.len() <= place {
        words.push(0)?;
    }
    Ok(())
}

/// Returns the number of the lowest bit, from 0, whose id is at least `least`, in the word with the
/// index `place`.
fn first_bit(least: u32, place: usize) -> u32
    requires { least / 64 ≤ place }
    ensures within { result < 64 }
    ensures least { least ≤ 64 * place + result }
    ensures each { (i : ℕ) → i < 64 → least ≤ 64 * place + i → result ≤ i }
{
    if place == least as usize / 64 {
        least % 64
    } else {
        0
    }
}
