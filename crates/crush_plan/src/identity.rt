//! Matches the buckets of the map with the buckets of the wanted map. If two buckets are matched,
//! the plan changes the map's bucket until it agrees with the wanted map's bucket, as far as edits
//! can do this. The search tries to remove each bucket of the map that isn't matched. For each
//! bucket of the wanted map that isn't matched, the search tries to create a bucket of the same
//! name and type.

use crate::item_table::ItemTable;
use crush_edits::Setting;
use crush_tree::View;
use crush_units::{BucketId, ItemId, TypeId};
use std::alloc::{AllocError, Allocator, Global};

/// How a plan matches the buckets of the map with the buckets of the wanted map.
#[derive(Clone, Copy, Debug, PartialEq, Eq)]
pub enum Identity {
    /// For two maps of one cluster. Two buckets of the same id are matched if they have the same
    /// name, or if their types have the same name. Any other bucket is matched with the wanted
    /// map's bucket of the same name, unless that bucket is matched by its id. If two matched
    /// buckets have different names, the search also tries to match all buckets by their names. The
    /// search then chooses the list of edits after which fewer differences remain. If equally many
    /// differences remain, the search chooses the shorter list. If both lists are also equally
    /// long, the search chooses the list for which it has matched buckets by their ids.
    Ids,
    /// For maps of two clusters, which may have different ids for the same buckets. Two buckets are
    /// matched if they have the same name.
    Names,
}

/// A bucket of the map, and the bucket of the wanted map with which it is matched.
#[derive(Clone, Copy)]
pub(crate) struct BucketPair {
    pub current: BucketId,
    pub target: BucketId,
}

/// The pairs of matched buckets. All pairs are stored twice, in two orders. The pairs whose two
/// buckets have different names are stored once more.
#[derive(Drop)]
pub(crate) struct BucketPairs {
    /// All pairs, in the order of the ids in the map, from -1 downward.
    by_current: Vec<BucketPair>,
    /// All pairs, in the order of the ids in the wanted map, from -1 downward.
    by_target: Vec<BucketPair>,
    /// The pairs whose two buckets have different names, in the order of the map's tree.
    pub renamed: Vec<BucketPair>,
}

/// Whether two types have the same name, each in its own map. The maps may number their types
/// differently.
fn is_same_type(map: &Setting, current: TypeId, other: &Setting, target: TypeId) -> bool {
    match (map.kind_name(current), other.kind_name(target)) {
        (Some(current), Some(target)) => current.as_bytes() == target.as_bytes(),
        _ => false,
    }
}

fn have_same_name(current: &View<'_>, target: &View<'_>) -> bool {
    current.name.as_bytes() == target.name.as_bytes()
}

/// Whether both maps have a bucket of this id, and these two buckets have the same name or the same
/// type.
fn is_same_by_id<A: Allocator, B: Allocator>(
    map: &ItemTable<'_, A>,
    wanted: &ItemTable<'_, B>,
    bucket: BucketId,
) -> bool {
    match (
        map.view(ItemId::Bucket(bucket)),
        wanted.view(ItemId::Bucket(bucket)),
    ) {
        (Some(current), Some(target)) => {
            have_same_name(&current, &target)
                || is_same_type(map.setting(), current.kind, wanted.setting(), target.kind)
        }
        _ => false,
    }
}

/// Returns the bucket of the wanted map with which `bucket` is matched, or `None` if it isn't
/// matched. `bucket` is a bucket of the map.
///
/// Two buckets of the same name are matched even if their types differ. Otherwise the plan would
/// have to remove the bucket and create it again.
fn target_of<A: Allocator, B: Allocator>(
    identity: Identity,
    map: &ItemTable<'_, A>,
    wanted: &ItemTable<'_, B>,
    bucket: &View<'_>,
) -> Option<BucketId> {
    let by_name = wanted.bucket_named(bucket.name);
    if identity == Identity::Names {
        return by_name;
    }
    match bucket.id {
        ItemId::Bucket(id) if is_same_by_id(map, wanted, id) => Some(id),
        _ => unless_same_by_id(map, wanted, by_name?),
    }
}

/// `bucket` is a bucket of the wanted map. Returns `bucket`, or `None` if `bucket` is matched with
/// the map's bucket that has the same id.
fn unless_same_by_id<A: Allocator, B: Allocator>(
    map: &ItemTable<'_, A>,
    wanted: &ItemTable<'_, B>,
    bucket: BucketId,
) -> Option<BucketId> {
    if is_same_by_id(map, wanted, bucket) {
        None
    } else {
        Some(bucket)
    }
}

impl BucketPairs {
    /// Matches the buckets of two maps. The function visits each item of the map once. For each
    /// bucket, it takes logarithmic time.
    pub(crate) fn new<A: Allocator, B: Allocator>(
        alloc: Global,
        identity: Identity,
        map: &ItemTable<'_, A>,
        wanted: &ItemTable<'_, B>,
    ) -> Result<BucketPairs, AllocError> {
        let mut pairs = BucketPairs {
            by_current: Vec::new(alloc),
            by_target: Vec::new(alloc),
            renamed: Vec::new(alloc),
        };
        for step in &map.steps {
            pairs.push(identity, map, wanted, &step.view())?;
        }
        pairs
            .by_current
            .sort_unstable_by_key(|pair| pair.current.distance());
        pairs
            .by_target
            .sort_unstable_by_key(|pair| pair.target.distance());
        Ok(pairs)
    }

    /// `item` is an item of the map. If `item` is a bucket that is matched with a bucket of the
    /// wanted map, appends the pair of the two buckets.
    fn push<A: Allocator, B: Allocator>(
        &mut self,
        identity: Identity,
        map: &ItemTable<'_, A>,
        wanted: &ItemTable<'_, B>,
        item: &View<'_>,
    ) -> Result<(), AllocError> {
        let ItemId::Bucket(current) = item.id else {
            return Ok(());
        };
        let Some(target) = target_of(identity, map, wanted, item) else {
            return Ok(());
        };
        self.by_current.push(BucketPair { current, target })?;
        self.by_target.push(BucketPair { current, target })?;
        let Some(there) = wanted.view(ItemId::Bucket(target)) else {
            return Ok(());
        };
        if !have_same_name(item, &there) {
            self.renamed.push(BucketPair { current, target })?;
        }
        Ok(())
    }

    /// `bucket` is a bucket of the map. Returns the bucket of the wanted map with which it is
    /// matched, or `None` if it isn't matched.
    pub(crate) fn target_of(&self, bucket: BucketId) -> Option<BucketId> {
        let pairs = self.by_current.as_slice();
        match pairs.binary_search_by_key(&bucket.distance(), |pair| pair.current.distance()) {
            Ok(at) => Some(pairs[at].target),
            Err(_) => None,
        }
    }

    /// `bucket` is a bucket of the wanted map. Returns the bucket of the map with which it is
    /// matched, or `None` if it isn't matched.
    pub(crate) fn current_of(&self, bucket: BucketId) -> Option<BucketId> {
        let pairs = self.by_target.as_slice();
        match pairs.binary_search_by_key(&bucket.distance(), |pair| pair.target.distance()) {
            Ok(at) => Some(pairs[at].current),
            Err(_) => None,
        }
    }
}
