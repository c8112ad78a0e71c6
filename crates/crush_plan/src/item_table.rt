//! A table that finds an item of a map by the item's id.

use crush_map::{CrushMap, Setting};
use crush_print::{WalkStep, walk};
use crush_since::bucket_named;
use crush_tree::View;
use crush_units::{BucketId, ItemId};
use std::alloc::{AllocError, Allocator, Global};

/// The key and the position of an item. The key is the number that [`key_of`] returns for the
/// item's id. The position is the item's index in the list of all items, from 0.
#[derive(Clone, Copy)]
struct Key {
    key: u64,
    at: usize,
}

/// The items of a map that doesn't change while the table is used.
///
/// The table is built in one walk over the map. In the table, a search for an id takes logarithmic
/// time. In the map itself, such a search climbs through all buckets above the item, which takes
/// long if buckets are nested deeply.
#[derive(Drop)]
pub(crate) struct ItemTable<'a, A: Allocator> {
    map: &'a CrushMap<A>,
    /// All items in the order of the map's tree: a bucket comes before the items below it.
    pub steps: Vec<WalkStep<'a, A>>,
    /// The keys of all items, in ascending order.
    keys: Vec<Key>,
}

/// Returns a number by which ids are sorted: an even number for a bucket, and an odd number for a
/// device.
fn key_of(id: ItemId) -> u64 {
    match id {
        ItemId::Bucket(bucket) => 2 * bucket.distance() as u64,
        ItemId::Device(device) => 2 * device.number() as u64 + 1,
    }
}

/// Appends the key and the position of each item to `keys`. `steps` is the list of all items.
fn push_keys<A: Allocator>(
    steps: &[WalkStep<'_, A>],
    keys: &mut Vec<Key>,
) -> Result<(), AllocError> {
    for (at, step) in steps.iter().enumerate() {
        keys.push(Key {
            key: key_of(step.node.id()),
            at,
        })?;
    }
    Ok(())
}

impl<'a, A: Allocator> ItemTable<'a, A> {
    /// Returns the table of a map. The function visits each item of the map once, and sorts the
    /// keys.
    pub(crate) fn new(alloc: Global, map: &'a CrushMap<A>) -> Result<ItemTable<'a, A>, AllocError> {
        let steps = walk(alloc, map)?;
        let mut keys = Vec::new(alloc);
        push_keys(steps.as_slice(), &mut keys)?;
        keys.sort_unstable_by_key(|key| key.key);
        Ok(ItemTable { map, steps, keys })
    }

    /// Returns the item of this id, or `None` if the map has no such item.
    pub(crate) fn view(&self, id: ItemId) -> Option<View<'_>> {
        let keys = self.keys.as_slice();
        let key = key_of(id);
        match keys.binary_search_by_key(&key, |key| key.key) {
            Ok(at) => match self.steps.as_slice().get(keys[at].at) {
                Some(step) => Some(step.view()),
                None => None,
            },
            Err(_) => None,
        }
    }

    /// Returns the name of the item of this id, or `None` if the map has no such item.
    pub(crate) fn name_of(&self, id: ItemId) -> Option<&str> {
        match self.view(id) {
            Some(view) => Some(view.name),
            None => None,
        }
    }

    /// Returns the parent of the item of this id, or `None` if the item has no parent or the map
    /// has no such item.
    pub(crate) fn parent(&self, id: ItemId) -> Option<BucketId> {
        match self.view(id) {
            Some(view) => view.parent,
            None => None,
        }
    }

    /// Returns the id of the item of this name, or `None` if the map has no such item.
    pub(crate) fn locate(&self, name: &str) -> Option<ItemId> {
        self.map.locate(name)
    }

    /// Returns the bucket of this name, or `None` if the map has no such bucket.
    pub(crate) fn bucket_named(&self, name: &str) -> Option<BucketId> {
        bucket_named(self.map, name)
    }

    /// Returns the setting of the map: its tunables, types and rules.
    pub(crate) fn setting(&self) -> &Setting {
        self.map.setting()
    }
}
