//! Creates buckets, and moves items to the places that they have in the wanted map.

ghost use Rattle.std.specs.Prelude.{OnOk};
ghost use Rattle.crush_plan.specs.Draft.{GoesOn};

use crate::buckets::make_bucket;
use crate::draft::Draft;
use crate::goal::PlanGoal;
use crate::items::{Placed, TargetBucket, TargetItems};
use crush_since::bucket_named;
use crush_units::{BucketId, ItemId};
use std::alloc::{AllocError, Allocator};

/// Creates and moves buckets, from the roots of the wanted map downward, and then moves devices.
///
/// So before an item is moved, the function has already tried to move all buckets above the item's
/// new place to their own places. This order avoids moves of a bucket below itself, which the map
/// would refuse. But such a refusal is still possible, for example if a root of the wanted map is
/// below another bucket in the map. No edit turns such a bucket into a root.
pub(crate) fn move_all<A: Allocator + Clone, B: Allocator>(
    draft: &mut Draft<A>,
    goal: &PlanGoal<'_, A, B>,
    target: &TargetItems,
) -> Result<(), AllocError>
    ensures { OnOk result (GoesOn goal.now draft.old draft.new) }
{
    place_buckets(draft, goal, target.buckets.as_slice())?;
    move_devices(draft, goal, target.placed.as_slice())
}

fn place_buckets<A: Allocator + Clone, B: Allocator>(
    draft: &mut Draft<A>,
    goal: &PlanGoal<'_, A, B>,
    buckets: &[TargetBucket],
) -> Result<(), AllocError>
    ensures { OnOk result (GoesOn goal.now draft.old draft.new) }
{
    for bucket in buckets {
        place_bucket(draft, goal, bucket)?;
    }
    Ok(())
}

/// Creates the bucket if it isn't matched with any bucket of the map, and then moves the bucket to
/// the place that it has in the wanted map. If the plan gets both edits, the `move` follows
/// directly after the `add-bucket`, so that one command of Ceph can do both.
fn place_bucket<A: Allocator + Clone, B: Allocator>(
    draft: &mut Draft<A>,
    goal: &PlanGoal<'_, A, B>,
    bucket: &TargetBucket,
) -> Result<(), AllocError>
    ensures { OnOk result (GoesOn goal.now draft.old draft.new) }
{
    make_if_new(draft, goal, bucket)?;
    move_bucket(draft, goal, bucket.id)
}

fn make_if_new<A: Allocator + Clone, B: Allocator>(
    draft: &mut Draft<A>,
    goal: &PlanGoal<'_, A, B>,
    bucket: &TargetBucket,
) -> Result<(), AllocError>
    ensures { OnOk result (GoesOn goal.now draft.old draft.new) }
{
    if bucket.is_new {
        make_bucket(draft, goal, bucket.id)
    } else {
        Ok(())
    }
}

/// `bucket` is a bucket of the wanted map. Moves the map's bucket of the same name to the place
/// that `bucket` has in the wanted map, unless the map's bucket already has this place. Does
/// nothing if no bucket of the wanted map holds `bucket`, or if the map has no bucket of the same
/// name.
fn move_bucket<A: Allocator + Clone, B: Allocator>(
    draft: &mut Draft<A>,
    goal: &PlanGoal<'_, A, B>,
    bucket: BucketId,
) -> Result<(), AllocError>
    ensures { OnOk result (GoesOn goal.now draft.old draft.new) }
{
    let Some(there) = goal.there.view(ItemId::Bucket(bucket)) else {
        return Ok(());
    };
    match (bucket_named(&draft.map, there.name), there.parent) {
        (Some(item), Some(parent)) => {
            move_below(draft, goal, ItemId::Bucket(item), there.name, parent)
        }
        _ => Ok(()),
    }
}

fn move_devices<A: Allocator + Clone, B: Allocator>(
    draft: &mut Draft<A>,
    goal: &PlanGoal<'_, A, B>,
    devices: &[Placed],
) -> Result<(), AllocError>
    ensures { OnOk result (GoesOn goal.now draft.old draft.new) }
{
    for device in devices {
        move_device(draft, goal, device)?;
    }
    Ok(())
}

/// Moves the device to the place that it has in the wanted map, if the draft's map has the device,
/// with the same name as in the wanted map.
fn move_device<A: Allocator + Clone, B: Allocator>(
    draft: &mut Draft<A>,
    goal: &PlanGoal<'_, A, B>,
    device: &Placed,
) -> Result<(), AllocError>
    ensures { OnOk result (GoesOn goal.now draft.old draft.new) }
{
    let Some(name) = goal.there.name_of(ItemId::Device(device.id)) else {
        return Ok(());
    };
    if draft.has_item(ItemId::Device(device.id), name) {
        move_below(draft, goal, ItemId::Device(device.id), name, device.parent)
    } else {
        Ok(())
    }
}

/// Moves the item of this name into the bucket of the map that has the same name as `parent`, which
/// is a bucket of the wanted map. Does nothing if that bucket already holds the item, or if the map
/// has no such bucket.
fn move_below<A: Allocator + Clone, B: Allocator>(
    draft: &mut Draft<A>,
    goal: &PlanGoal<'_, A, B>,
    id: ItemId,
    name: &str,
    parent: BucketId,
) -> Result<(), AllocError>
    ensures { OnOk result (GoesOn goal.now draft.old draft.new) }
{
    let Some(place_name) = goal.there.name_of(ItemId::Bucket(parent)) else {
        return Ok(());
    };
    match bucket_named(&draft.map, place_name) {
        Some(place) if draft.map.parent(id) != Some(place) => {
            draft.relocate(goal, name.as_bytes(), place, place_name)
        }
        _ => Ok(()),
    }
}
