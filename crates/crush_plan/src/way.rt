//! A way to find the edits of a plan: the matched buckets of the two maps, and the items that may
//! need edits. In each round, the search can try two ways, which match the buckets differently.

use crate::goal::PlanGoal;
use crate::identity::{BucketPair, BucketPairs, Identity};
use crate::item_table::ItemTable;
use crate::items::{Items, items_of_both};
use crush_map::CrushMap;
use crush_units::{BucketId, ItemId};
use std::alloc::{AllocError, Allocator, Global};

/// One way to match the buckets of the two maps, and the items for which the plan may then need an
/// edit.
#[derive(Drop)]
pub(crate) struct Way<'a, A: Allocator> {
    /// The items of the map from which the round starts. This is the draft's map before the edits
    /// of the round.
    pub start: ItemTable<'a, A>,
    pub pairs: BucketPairs,
    pub items: Items,
}

impl<'a, A: Allocator> Way<'a, A> {
    /// Matches the buckets of `map` with those of the wanted map, as `identity` says, and finds the
    /// items that may need edits.
    pub(crate) fn new<B: Allocator>(
        alloc: Global,
        identity: Identity,
        goal: &PlanGoal<'_, A, B>,
        map: &'a CrushMap<A>,
    ) -> Result<Way<'a, A>, AllocError> {
        let start = ItemTable::new(alloc, map)?;
        let pairs = BucketPairs::new(alloc, identity, &start, &goal.there)?;
        let items = items_of_both(alloc, &pairs, &start, &goal.there)?;
        Ok(Way {
            start,
            pairs,
            items,
        })
    }

    /// Returns the bucket's name in the map from which the round starts.
    pub(crate) fn name_at_start(&self, pair: &BucketPair) -> Option<&str> {
        self.start.name_of(ItemId::Bucket(pair.current))
    }

    /// `current` is a bucket of the map. If `current` is matched with a bucket of the wanted map
    /// that has a different name, returns the pair of the two buckets. Otherwise returns `None`.
    pub(crate) fn renamed<B: Allocator>(
        &self,
        goal: &PlanGoal<'_, A, B>,
        current: BucketId,
    ) -> Option<BucketPair> {
        let target = self.pairs.target_of(current)?;
        let from = self.start.name_of(ItemId::Bucket(current))?;
        let to = goal.there.name_of(ItemId::Bucket(target))?;
        if from.as_bytes() == to.as_bytes() {
            return None;
        }
        Some(BucketPair { current, target })
    }
}
