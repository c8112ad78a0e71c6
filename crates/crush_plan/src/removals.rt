//! Removes the devices that the wanted map doesn't have, and the buckets that aren't matched with
//! any bucket of the wanted map.

ghost use Rattle.std.specs.Prelude.{OnOk};
ghost use Rattle.crush_plan.specs.Draft.{GoesOn};

use crate::draft::{Draft, copy_name};
use crate::goal::PlanGoal;
use crate::way::Way;
use crush_units::{BucketId, DeviceId, ItemId, Name};
use std::alloc::{AllocError, Allocator, Global};

/// Removes first the devices and then the buckets that have to be removed. A bucket is removed
/// after all buckets below it, because a bucket can be removed only if it is empty. A bucket that
/// still holds other items isn't removed, because the map refuses the edit.
pub(crate) fn remove_all<A: Allocator + Clone, B: Allocator>(
    draft: &mut Draft<A>,
    goal: &PlanGoal<'_, A, B>,
    way: &Way<'_, A>,
) -> Result<(), AllocError>
    ensures { OnOk result (GoesOn goal.now draft.old draft.new) }
{
    remove_devices(draft, goal, way)?;
    remove_buckets(draft, goal, way)
}

fn remove_devices<A: Allocator + Clone, B: Allocator>(
    draft: &mut Draft<A>,
    goal: &PlanGoal<'_, A, B>,
    way: &Way<'_, A>,
) -> Result<(), AllocError>
    ensures { OnOk result (GoesOn goal.now draft.old draft.new) }
{
    for device in way.items.current.removed_devices.as_slice() {
        remove_device(draft, goal, way, *device)?;
    }
    Ok(())
}

/// Removes the device, unless an earlier edit has removed it already.
fn remove_device<A: Allocator + Clone, B: Allocator>(
    draft: &mut Draft<A>,
    goal: &PlanGoal<'_, A, B>,
    way: &Way<'_, A>,
    device: DeviceId,
) -> Result<(), AllocError>
    ensures { OnOk result (GoesOn goal.now draft.old draft.new) }
{
    let Some(name) = way.start.name_of(ItemId::Device(device)) else {
        return Ok(());
    };
    if draft.has_item(ItemId::Device(device), name) {
        draft.remove(goal, name.as_bytes())
    } else {
        Ok(())
    }
}

fn remove_buckets<A: Allocator + Clone, B: Allocator>(
    draft: &mut Draft<A>,
    goal: &PlanGoal<'_, A, B>,
    way: &Way<'_, A>,
) -> Result<(), AllocError>
    ensures { OnOk result (GoesOn goal.now draft.old draft.new) }
{
    for bucket in way.items.current.removed_buckets.iter().rev() {
        remove_bucket(draft, goal, way, *bucket)?;
    }
    Ok(())
}

/// Removes the bucket, unless an earlier edit has removed it already.
fn remove_bucket<A: Allocator + Clone, B: Allocator>(
    draft: &mut Draft<A>,
    goal: &PlanGoal<'_, A, B>,
    way: &Way<'_, A>,
    bucket: BucketId,
) -> Result<(), AllocError>
    ensures { OnOk result (GoesOn goal.now draft.old draft.new) }
{
    match removed_name(draft, goal, way, bucket)? {
        Some(name) => draft.remove(goal, name.as_bytes()),
        None => Ok(()),
    }
}

/// Returns the name that the bucket has now, or `None` if the bucket has been removed. After the
/// removal of a bucket, a new bucket may have got the id of the removed bucket. So if the bucket
/// that has this id now has the name of a new bucket, the function returns `None` too.
fn removed_name<A: Allocator + Clone, B: Allocator>(
    draft: &Draft<A>,
    goal: &PlanGoal<'_, A, B>,
    way: &Way<'_, A>,
    bucket: BucketId,
) -> Result<Option<Name<Global>>, AllocError> {
    match draft.map.name_of(ItemId::Bucket(bucket)) {
        Some(name) if !is_new(goal, way, name) => Ok(Some(copy_name(
            draft.alloc,
            name.as_bytes(),
        )?)),
        _ => Ok(None),
    }
}

/// Whether this is the name of a new bucket: a bucket of the wanted map that isn't matched with any
/// bucket of the map.
fn is_new<A: Allocator, B: Allocator>(
    goal: &PlanGoal<'_, A, B>,
    way: &Way<'_, A>,
    name: &str,
) -> bool {
    match goal.there.bucket_named(name) {
        Some(bucket) => way.pairs.current_of(bucket).is_none(),
        None => false,
    }
}
