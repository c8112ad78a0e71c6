//! The items of two maps for which a plan may need an edit. The search for a plan has one or more
//! rounds ([`crate::search`]). In this file, *the map* is the map from which the round starts.

use crate::identity::BucketPairs;
use crate::item_table::ItemTable;
use crate::weights::Which;
use crush_compare::are_near;
use crush_tree::View;
use crush_units::{BucketId, DeviceId, ItemId};
use std::alloc::{AllocError, Allocator, Global};

/// Items of the map for which a plan may need edits. Each list is in the order of the map's tree: a
/// bucket comes before the items below it.
#[derive(Drop)]
pub(crate) struct CurrentItems {
    /// The buckets that aren't matched with any bucket of the wanted map.
    pub removed_buckets: Vec<BucketId>,
    /// The devices for which the wanted map has no device of the same id and the same name.
    pub removed_devices: Vec<DeviceId>,
    /// The devices that both maps have and whose weight may have to be set. A device is left out if
    /// a bucket holds it in both maps, with weights that are at most one unit (1/65536 TiB) apart.
    pub reweighed: Vec<DeviceId>,
    /// The devices among `reweighed` whose weight is lower in the wanted map, by more than one
    /// unit.
    pub lowered: Vec<DeviceId>,
}

/// Items of the wanted map for which a plan may need edits. Each list is in the order of the wanted
/// map's tree.
#[derive(Drop)]
pub(crate) struct TargetItems {
    /// All buckets. A bucket that already is in its place is listed too, because an edit of another
    /// bucket may move the bucket away from this place.
    pub buckets: Vec<TargetBucket>,
    /// The devices that are in a bucket in the wanted map.
    pub placed: Vec<Placed>,
    /// The devices that the map doesn't have, and the devices whose classes in the two maps differ.
    pub set: Vec<SetDevice>,
}

/// A bucket of the wanted map.
#[derive(Clone, Copy)]
pub(crate) struct TargetBucket {
    pub id: BucketId,
    /// Whether the bucket isn't matched with any bucket of the map, so that it has to be created.
    pub is_new: bool,
}

/// A device, and the bucket that holds the device in the wanted map.
#[derive(Clone, Copy)]
pub(crate) struct Placed {
    pub id: DeviceId,
    pub parent: BucketId,
}

/// A device that has to be added, or whose class has to be set.
#[derive(Clone, Copy)]
pub(crate) struct SetDevice {
    pub id: DeviceId,
    /// Whether the device has a class in the map.
    pub has_class: bool,
    /// Whether the device has different classes in the map and in the wanted map. If the map
    /// doesn't have the device, the device counts as one without a class in the map.
    pub differs: bool,
}

#[derive(Drop)]
pub(crate) struct Items {
    pub current: CurrentItems,
    pub target: TargetItems,
}

/// Finds the items of both maps for which the plan may need an edit. `pairs` has the pairs of
/// matched buckets of the two maps.
pub(crate) fn items_of_both<A: Allocator, B: Allocator>(
    alloc: Global,
    pairs: &BucketPairs,
    map: &ItemTable<'_, A>,
    wanted: &ItemTable<'_, B>,
) -> Result<Items, AllocError> {
    let current = current_items(alloc, pairs, map, wanted)?;
    let target = target_items(alloc, pairs, map, wanted)?;
    Ok(Items { current, target })
}

fn current_items<A: Allocator, B: Allocator>(
    alloc: Global,
    pairs: &BucketPairs,
    map: &ItemTable<'_, A>,
    wanted: &ItemTable<'_, B>,
) -> Result<CurrentItems, AllocError> {
    let mut items = CurrentItems {
        removed_buckets: Vec::new(alloc),
        removed_devices: Vec::new(alloc),
        reweighed: Vec::new(alloc),
        lowered: Vec::new(alloc),
    };
    for step in &map.steps {
        items.push(pairs, wanted, &step.view())?;
    }
    Ok(items)
}

fn target_items<A: Allocator, B: Allocator>(
    alloc: Global,
    pairs: &BucketPairs,
    map: &ItemTable<'_, A>,
    wanted: &ItemTable<'_, B>,
) -> Result<TargetItems, AllocError> {
    let mut items = TargetItems {
        buckets: Vec::new(alloc),
        placed: Vec::new(alloc),
        set: Vec::new(alloc),
    };
    for step in &wanted.steps {
        items.push(pairs, map, &step.view())?;
    }
    Ok(items)
}

/// Returns the item of `map` that has the same id and the same name as `item`, an item of the other
/// map. Returns `None` if there is no such item.
pub(crate) fn same_item<'a, A: Allocator>(
    map: &'a ItemTable<'_, A>,
    item: &View<'_>,
) -> Option<View<'a>> {
    match map.view(item.id) {
        Some(view) if view.name.as_bytes() == item.name.as_bytes() => Some(view),
        _ => None,
    }
}

/// Whether a bucket holds the device in both maps, with weights that are at most one unit apart.
fn weigh_alike(current: &View<'_>, target: &View<'_>) -> bool {
    current.parent.is_some() && target.parent.is_some() && are_near(current.weight, target.weight)
}

impl CurrentItems {
    fn push<B: Allocator>(
        &mut self,
        pairs: &BucketPairs,
        wanted: &ItemTable<'_, B>,
        item: &View<'_>,
    ) -> Result<(), AllocError> {
        match item.id {
            ItemId::Bucket(bucket) if pairs.target_of(bucket).is_some() => {}
            ItemId::Bucket(bucket) => self.removed_buckets.push(bucket)?,
            ItemId::Device(device) => match same_item(wanted, item) {
                None => self.removed_devices.push(device)?,
                Some(target) => self.push_reweighed(device, item, &target)?,
            },
        }
        Ok(())
    }

    /// Appends the device to `reweighed`, unless [`weigh_alike`] is true for it. If the device's
    /// weight is lower in the wanted map by more than one unit, also appends the device to
    /// `lowered`. `item` is the device in the map, and `target` is the device in the wanted map.
    fn push_reweighed(
        &mut self,
        device: DeviceId,
        item: &View<'_>,
        target: &View<'_>,
    ) -> Result<(), AllocError> {
        if weigh_alike(item, target) {
            return Ok(());
        }
        self.reweighed.push(device)?;
        if Which::Less.sets(item.weight, target.weight) {
            self.lowered.push(device)?;
        }
        Ok(())
    }
}

impl TargetItems {
    fn push<A: Allocator>(
        &mut self,
        pairs: &BucketPairs,
        map: &ItemTable<'_, A>,
        item: &View<'_>,
    ) -> Result<(), AllocError> {
        match item.id {
            ItemId::Bucket(bucket) => self.push_bucket(pairs, bucket),
            ItemId::Device(device) => self.push_device(map, device, item),
        }
    }

    fn push_bucket(&mut self, pairs: &BucketPairs, id: BucketId) -> Result<(), AllocError> {
        let is_new = pairs.current_of(id).is_none();
        self.buckets.push(TargetBucket { id, is_new })?;
        Ok(())
    }

    fn push_device<A: Allocator>(
        &mut self,
        map: &ItemTable<'_, A>,
        id: DeviceId,
        item: &View<'_>,
    ) -> Result<(), AllocError> {
        if let Some(parent) = item.parent {
            self.placed.push(Placed { id, parent })?;
        }
        let (is_new, class) = match same_item(map, item) {
            Some(current) => (false, current.class),
            None => (true, None),
        };
        let (has_class, differs) = (class.is_some(), class != item.class);
        if is_new || differs {
            self.set.push(SetDevice {
                id,
                has_class,
                differs,
            })?;
        }
        Ok(())
    }
}
