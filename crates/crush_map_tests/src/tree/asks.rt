//! The conditions that a caller checks before it changes a forest.

ghost use Rattle.std.specs.Prelude.{◌≡◌, false};
ghost use Rattle.crush_units.specs.Name.{IsName};
ghost use Rattle.crush_units.specs.declared.id.ItemId.TheVariants.{Bucket as BucketItem};
ghost use Rattle.crush_model.specs.Columns.{is_part};
ghost use Rattle.crush_model.specs.Table.{are_nested};
ghost use Rattle.crush_model.specs.Forest.{rows_of};
ghost use Rattle.crush_model.specs.Table.{is_there, is_named, is_placed};

use crush_tree::{Forest, Place};
use crush_units::{BucketId, DeviceId, ItemId, Name, Weight};
use std::alloc::Allocator;

pub(super) fn has_item<A: Allocator>(forest: &Forest<A>, id: &ItemId) -> bool
    ensures { result ≡ is_there (rows_of forest.now) id.now }
{
    forest.recall_invariant();
    forest.find(*id).is_some()
}

pub(super) fn is_held<A: Allocator>(forest: &Forest<A>, id: &ItemId) -> bool
    ensures { result ≡ is_placed (rows_of forest.now) id.now }
{
    forest.recall_invariant();
    forest.parent(*id).is_some()
}

pub(super) fn is_inside<A: Allocator>(forest: &Forest<A>, id: &ItemId, bucket: BucketId) -> bool
    ensures { result ≡ is_part (rows_of forest.now) id.now (BucketItem bucket) }
{
    forest.recall_invariant();
    match id {
        ItemId::Device(_) => false,
        ItemId::Bucket(own) => forest.contains(*own, ItemId::Bucket(bucket)),
    }
}

pub(super) fn are_nested<A: Allocator>(forest: &Forest<A>, a: BucketId, b: BucketId) -> bool
    ensures { result ≡ are_nested (rows_of forest.now) a b }
{
    is_inside(forest, &ItemId::Bucket(a), b) || is_inside(forest, &ItemId::Bucket(b), a)
}

pub(super) fn has_name<A: Allocator>(forest: &Forest<A>, name: &Name<A>) -> bool
    ensures named { result ≡ is_named (rows_of forest.now) name.now }
    ensures name { IsName name.now }
{
    forest.recall_invariant();
    forest.id_of(name.as_str()).is_some()
}

pub(super) fn fits<A: Allocator>(
    forest: &Forest<A>,
    bucket: BucketId,
    weight: Weight,
) -> Option<bool> {
    if has_item(forest, &ItemId::Bucket(bucket)) {
        Some(forest.fits_attach(Place::Bucket(bucket), weight))
    } else {
        None
    }
}

pub(super) fn fits_moved<A: Allocator>(
    forest: &Forest<A>,
    device: DeviceId,
    bucket: BucketId,
    weight: Weight,
) -> Option<bool> {
    let id = ItemId::Device(device);
    if has_item(forest, &id) && has_item(forest, &ItemId::Bucket(bucket)) {
        Some(forest.fits_move(ItemId::Device(device), Place::Bucket(bucket), Some(weight)))
    } else {
        None
    }
}
