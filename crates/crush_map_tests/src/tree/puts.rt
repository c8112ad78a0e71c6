//! Changes a forest. Before a function changes the forest, it tests whether the contract of the
//! forest's method allows this. If not, the function doesn't make the change.

use super::asks::{are_nested, has_item, has_name, is_held};
use super::items::{Item, made};
use crush_tree::{Forest, Node, Place};
use crush_units::{BucketId, DeviceId, ItemId, Name, NameFault, Weight};
use std::alloc::{AllocError, Allocator, Global};
use std::process::Abort;

#[derive(Clone, Copy, Debug, PartialEq, Eq)]
pub(super) enum Refused {
    NoMemory,
    Malformed,
    Missing,
    /// The item can't be attached at its place, a bucket can't hold it, the name is taken, the
    /// weight isn't allowed for a device, or one of two buckets to exchange is inside the other.
    Unfit,
    TooHeavy,
}

impl From<AllocError> for Refused {
    fn from(_error: AllocError) -> Refused {
        Refused::NoMemory
    }
}

impl From<NameFault> for Refused {
    fn from(fault: NameFault) -> Refused {
        match fault {
            NameFault::OutOfMemory => Refused::NoMemory,
            _ => Refused::Malformed,
        }
    }
}

pub(super) fn put<A: Allocator>(
    forest: &mut Forest<A>,
    place: Place,
    node: Node<A>,
) -> Result<(), Refused> {
    let place = &place; // a place that is passed by value is moved, and can't be passed again
    let can_come = forest.can_attach(*place, &node);
    if can_come && forest.reserve(*place).is_ok() {
        forest.attach(*place, node);
        return Ok(());
    }
    drop(node);
    Err(if can_come {
        Refused::NoMemory
    } else {
        Refused::Unfit
    })
}

pub(super) fn add_in<A: Allocator + Copy>(
    rt: &impl Abort,
    alloc: A,
    forest: &mut Forest<A>,
    place: Place,
    item: Item,
) -> Result<(), Refused> {
    let node = made(rt, alloc, item)?;
    put(forest, place, node)
}

pub(super) fn add(
    rt: &(impl Abort + AllocGlobal),
    forest: &mut Forest<Global>,
    place: Place,
    item: Item,
) {
    add_in(rt, rt.alloc(), forest, place, item).expect(rt, "a place");
}

pub(super) fn weigh<A: Allocator>(
    forest: &mut Forest<A>,
    device: DeviceId,
    weight: Weight,
) -> Result<(), Refused> {
    forest.recall_invariant();
    if !weight.is_device_weight() {
        return Err(Refused::Unfit);
    }
    if !is_held(forest, &ItemId::Device(device)) {
        return Err(Refused::Missing);
    }
    if !forest.fits_weight(device, weight) {
        return Err(Refused::TooHeavy);
    }
    forest.set_weight(device, weight);
    Ok(())
}

pub(super) fn weigh_all<A: Allocator>(
    forest: &mut Forest<A>,
    bucket: BucketId,
    weight: Weight,
) -> Result<(), Refused> {
    forest.recall_invariant();
    if !weight.is_device_weight() {
        return Err(Refused::Unfit);
    }
    if !has_item(forest, &ItemId::Bucket(bucket)) {
        return Err(Refused::Missing);
    }
    if !forest.fits_subtree(bucket, weight) {
        return Err(Refused::TooHeavy);
    }
    forest.set_subtree(bucket, weight);
    Ok(())
}

pub(super) fn give_name<A: Allocator>(
    forest: &mut Forest<A>,
    id: &ItemId,
    name: Name<A>,
) -> Result<Name<A>, Refused> {
    forest.recall_invariant();
    if !has_item(forest, id) {
        drop(name);
        return Err(Refused::Missing);
    }
    if has_name(forest, &name) {
        drop(name);
        return Err(Refused::Unfit);
    }
    Ok(forest.rename(*id, name))
}

pub(super) fn classify<A: Allocator>(
    forest: &mut Forest<A>,
    device: DeviceId,
    class: Option<Name<A>>,
) -> Result<Option<Name<A>>, Refused> {
    forest.recall_invariant();
    if !has_item(forest, &ItemId::Device(device)) {
        drop(class);
        return Err(Refused::Missing);
    }
    Ok(forest.set_class(device, class))
}

pub(super) fn exchange<A: Allocator>(
    forest: &mut Forest<A>,
    a: BucketId,
    b: BucketId,
) -> Result<(), Refused> {
    forest.recall_invariant();
    if !has_item(forest, &ItemId::Bucket(a)) {
        return Err(Refused::Missing);
    }
    if !has_item(forest, &ItemId::Bucket(b)) {
        return Err(Refused::Missing);
    }
    if are_nested(forest, a, b) {
        return Err(Refused::Unfit);
    }
    if !forest.fits_swap(a, b) {
        return Err(Refused::TooHeavy);
    }
    forest.swap(a, b);
    Ok(())
}

/// Makes room for one more item in a bucket, and then undoes this. Returns whether the bucket had
/// the capacity `had` at first, and the capacity `has` in between.
pub(super) fn grows_and_back<A: Allocator + Clone>(
    forest: &mut Forest<A>,
    bucket: BucketId,
    had: usize,
    has: usize,
) -> bool {
    if !has_item(forest, &ItemId::Bucket(bucket)) {
        return false;
    }
    match forest.grow_buffer(Place::Bucket(bucket)) {
        Ok(Some(before)) => {
            let is_before = before.capacity() == had;
            let after = forest.replace_buffer(Place::Bucket(bucket), before);
            let is_after = after.capacity() == has && after.is_empty();
            drop(after);
            is_before && is_after
        }
        Ok(None) => false,
        Err(_) => false,
    }
}
