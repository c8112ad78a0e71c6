//! Changes a hierarchy. Before a function changes the hierarchy, it tests whether the contract of
//! the hierarchy's method allows this. If not, the function doesn't make the change.

ghost use Rattle.std.specs.Prelude.{◌≡◌, ◌<◌, true, Some, IfSome, IsTrue};
ghost use Rattle.crush_units.specs.declared.id.ItemId.TheVariants.{Bucket as BucketItem};
ghost use Rattle.crush_model.specs.Forest.{rows_of};
ghost use Rattle.crush_model.specs.Table.{id_named, is_there};
ghost use Rattle.crush_nodes.specs.Room.{room};
ghost use Rattle.crush_nodes.specs.declared.place.Place.TheVariants.{Bucket as AtBucket};

use super::asks::{are_nested, has_item, has_name, is_held};
use crush_hierarchy::Hierarchy;
use crush_tree::Place;
use crush_units::{BucketId, DeviceId, ItemId, Name, Weight};
use std::alloc::Global;

pub(super) fn make_room(hierarchy: &mut Hierarchy<Global>, bucket: BucketId) -> bool
    ensures there { IsTrue result → (is_there (rows_of hierarchy.new) (BucketItem bucket) ≡ true) }
    ensures room { IsTrue result → (0 < room hierarchy.new (AtBucket bucket)) }
{
    if !has_item(hierarchy, &ItemId::Bucket(bucket)) {
        return false;
    }
    match hierarchy.reserve(Place::Bucket(bucket)) {
        Ok(()) => true,
        Err(_) => false,
    }
}

pub(super) fn put_device(
    hierarchy: &mut Hierarchy<Global>,
    device: DeviceId,
    bucket: BucketId,
    weight: Weight,
) -> bool {
    if !weight.is_device_weight() {
        return false;
    }
    if !make_room(hierarchy, bucket) {
        return false;
    }
    hierarchy.recall_invariant();
    if !has_item(hierarchy, &ItemId::Device(device)) {
        return false;
    }
    if !hierarchy.fits_move(ItemId::Device(device), Place::Bucket(bucket), Some(weight)) {
        return false;
    }
    hierarchy.recall_part(ItemId::Device(device));
    hierarchy.put(ItemId::Device(device), bucket, Some(weight));
    true
}

pub(super) fn weigh(hierarchy: &mut Hierarchy<Global>, device: DeviceId, weight: Weight) -> bool {
    hierarchy.recall_invariant();
    if !weight.is_device_weight() {
        return false;
    }
    if !is_held(hierarchy, &ItemId::Device(device)) {
        return false;
    }
    hierarchy.replace_weight(device, weight).is_some()
}

/// Sets all devices below a bucket to the same weight. Returns whether at least one device had
/// another weight before, or `None` if the change isn't allowed.
pub(super) fn weigh_all(
    hierarchy: &mut Hierarchy<Global>,
    bucket: BucketId,
    weight: Weight,
) -> Option<bool> {
    hierarchy.recall_invariant();
    if !weight.is_device_weight() {
        return None;
    }
    if !has_item(hierarchy, &ItemId::Bucket(bucket)) {
        return None;
    }
    match hierarchy.replace_subtree(bucket, weight) {
        Some(change) => Some(change.other),
        None => None,
    }
}

pub(super) fn give_name(
    hierarchy: &mut Hierarchy<Global>,
    id: &ItemId,
    name: Name<Global>,
) -> bool {
    hierarchy.recall_invariant();
    if !has_item(hierarchy, id) {
        drop(name);
        return false;
    }
    if has_name(hierarchy, &name) {
        drop(name);
        return false;
    }
    hierarchy.replace_name(*id, name).is_ok()
}

fn named(hierarchy: &Hierarchy<Global>, name: &[u8]) -> Option<BucketId>
    ensures { IfSome result (λ b. id_named (rows_of hierarchy.now) name.now ≡ Some (BucketItem b)) }
{
    hierarchy.recall_invariant();
    let Some(id) = hierarchy.id_of_bytes(name) else {
        return None;
    };
    let ItemId::Bucket(bucket) = id else {
        return None;
    };
    Some(bucket)
}

pub(super) fn exchange(hierarchy: &mut Hierarchy<Global>, first: &[u8], second: &[u8]) -> bool {
    hierarchy.recall_invariant();
    let Some(a) = named(hierarchy, first) else {
        return false;
    };
    let Some(b) = named(hierarchy, second) else {
        return false;
    };
    if !has_item(hierarchy, &ItemId::Bucket(a)) {
        return false;
    }
    if !has_item(hierarchy, &ItemId::Bucket(b)) {
        return false;
    }
    if are_nested(hierarchy, a, b) {
        return false;
    }
    if !hierarchy.fits_swap(a, b) {
        return false;
    }
    hierarchy.swap(a, b);
    true
}

/// Makes room for one more item in a bucket. Returns the capacity that the bucket had before it
/// grew. Returns `None` if the bucket already had room, if there is no such bucket, or if memory
/// runs out.
pub(super) fn grow_buffer(hierarchy: &mut Hierarchy<Global>, bucket: BucketId) -> Option<usize> {
    if !has_item(hierarchy, &ItemId::Bucket(bucket)) {
        return None;
    }
    match hierarchy.grow_buffer(Place::Bucket(bucket)) {
        Ok(Some(before)) => {
            let had = before.capacity();
            drop(before);
            Some(had)
        }
        Ok(None) => None,
        Err(_) => None,
    }
}

/// Makes room for one more item in a bucket, and then undoes this. Returns the larger capacity,
/// which the bucket had in between. Returns `None` if the bucket already had room, if there is no
/// such bucket, or if memory runs out.
pub(super) fn grow_and_back(hierarchy: &mut Hierarchy<Global>, bucket: BucketId) -> Option<usize> {
    if !has_item(hierarchy, &ItemId::Bucket(bucket)) {
        return None;
    }
    match hierarchy.grow_buffer(Place::Bucket(bucket)) {
        Ok(Some(before)) => {
            let after = hierarchy.replace_buffer(Place::Bucket(bucket), before);
            let had = after.capacity();
            drop(after);
            Some(had)
        }
        Ok(None) => None,
        Err(_) => None,
    }
}
