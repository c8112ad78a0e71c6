//! The conditions that a caller checks before it changes a hierarchy.

ghost use Rattle.std.specs.Prelude.{◌≡◌, false};
ghost use Rattle.crush_units.specs.Name.{IsName};
ghost use Rattle.crush_units.specs.declared.id.ItemId.TheVariants.{Bucket as BucketItem};
ghost use Rattle.crush_model.specs.Columns.{is_part};
ghost use Rattle.crush_model.specs.Forest.{rows_of};
ghost use Rattle.crush_model.specs.Table.{are_nested, is_there, is_named, is_placed};

use crush_hierarchy::Hierarchy;
use crush_tree::Place;
use crush_units::{BucketId, DeviceId, ItemId, Name, Weight};
use std::alloc::Global;

pub(super) fn has_item(hierarchy: &Hierarchy<Global>, id: &ItemId) -> bool
    ensures { result ≡ is_there (rows_of hierarchy.now) id.now }
{
    hierarchy.recall_invariant();
    hierarchy.find(*id).is_some()
}

pub(super) fn is_held(hierarchy: &Hierarchy<Global>, id: &ItemId) -> bool
    ensures { result ≡ is_placed (rows_of hierarchy.now) id.now }
{
    hierarchy.recall_invariant();
    hierarchy.parent(*id).is_some()
}

pub(super) fn is_inside(hierarchy: &Hierarchy<Global>, own: BucketId, bucket: BucketId) -> bool
    ensures { result ≡ is_part (rows_of hierarchy.now) (BucketItem own) (BucketItem bucket) }
{
    hierarchy.recall_invariant();
    hierarchy.contains(own, ItemId::Bucket(bucket))
}

pub(super) fn are_nested(hierarchy: &Hierarchy<Global>, a: BucketId, b: BucketId) -> bool
    ensures { result ≡ are_nested (rows_of hierarchy.now) a b }
{
    is_inside(hierarchy, a, b) || is_inside(hierarchy, b, a)
}

pub(super) fn has_name(hierarchy: &Hierarchy<Global>, name: &Name<Global>) -> bool
    ensures named { result ≡ is_named (rows_of hierarchy.now) name.now }
    ensures name { IsName name.now }
{
    hierarchy.recall_invariant();
    hierarchy.id_of(name.as_str()).is_some()
}

pub(super) fn fits_attach(
    hierarchy: &Hierarchy<Global>,
    bucket: BucketId,
    weight: Weight,
) -> Option<bool> {
    if has_item(hierarchy, &ItemId::Bucket(bucket)) {
        Some(hierarchy.fits_attach(Place::Bucket(bucket), weight))
    } else {
        None
    }
}

pub(super) fn fits_move(
    hierarchy: &Hierarchy<Global>,
    device: DeviceId,
    bucket: BucketId,
    weight: Weight,
) -> Option<bool> {
    if has_item(hierarchy, &ItemId::Bucket(bucket)) {
        Some(hierarchy.fits_move(ItemId::Device(device), Place::Bucket(bucket), Some(weight)))
    } else {
        None
    }
}

pub(super) fn fits_swap(hierarchy: &Hierarchy<Global>, a: BucketId, b: BucketId) -> Option<bool> {
    if has_item(hierarchy, &ItemId::Bucket(a))
        && has_item(hierarchy, &ItemId::Bucket(b))
        && !are_nested(hierarchy, a, b)
    {
        Some(hierarchy.fits_swap(a, b))
    } else {
        None
    }
}
