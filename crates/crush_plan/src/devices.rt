//! Adds the devices that the map doesn't have.

ghost use Rattle.std.specs.Prelude.{OnOk};
ghost use Rattle.crush_plan.specs.Draft.{GoesOn};

use crate::draft::{Draft, NewDevice};
use crate::goal::PlanGoal;
use crate::items::SetDevice;
use crush_since::bucket_named;
use crush_tree::View;
use crush_units::ItemId;
use std::alloc::{AllocError, Allocator};

/// Adds each of these devices that the map doesn't have, if a bucket holds the device in the wanted
/// map, and if the map has a bucket with the name of this bucket.
pub(crate) fn add_devices<A: Allocator + Clone, B: Allocator>(
    draft: &mut Draft<A>,
    goal: &PlanGoal<'_, A, B>,
    devices: &[SetDevice],
) -> Result<(), AllocError>
    ensures { OnOk result (GoesOn goal.now draft.old draft.new) }
{
    for device in devices {
        add_device(draft, goal, device)?;
    }
    Ok(())
}

fn add_device<A: Allocator + Clone, B: Allocator>(
    draft: &mut Draft<A>,
    goal: &PlanGoal<'_, A, B>,
    device: &SetDevice,
) -> Result<(), AllocError>
    ensures { OnOk result (GoesOn goal.now draft.old draft.new) }
{
    let Some(there) = goal.there.view(ItemId::Device(device.id)) else {
        return Ok(());
    };
    put_device(draft, goal, device, &there)
}

/// Adds the device to the bucket that has the same name as the device's bucket in the wanted map.
/// Does nothing if an item of the map already has the device's name, if no bucket holds the device
/// in the wanted map, or if the map has no bucket with the name of the device's bucket. `there` is
/// the device in the wanted map.
fn put_device<A: Allocator + Clone, B: Allocator>(
    draft: &mut Draft<A>,
    goal: &PlanGoal<'_, A, B>,
    device: &SetDevice,
    there: &View<'_>,
) -> Result<(), AllocError>
    ensures { OnOk result (GoesOn goal.now draft.old draft.new) }
{
    if draft.map.locate(there.name).is_some() {
        return Ok(());
    }
    let Some(place_name) = place_name(goal, there) else {
        return Ok(());
    };
    let new = NewDevice {
        id: device.id,
        name: there.name,
        weight: there.weight,
    };
    match bucket_named(&draft.map, place_name) {
        Some(place) => draft.insert(goal, new, place, place_name),
        None => Ok(()),
    }
}

/// Returns the name of the bucket that holds the device in the wanted map, or `None` if no bucket
/// holds it there.
fn place_name<'a, A: Allocator, B: Allocator>(
    goal: &'a PlanGoal<'_, A, B>,
    there: &View<'_>,
) -> Option<&'a str> {
    goal.there.name_of(ItemId::Bucket(there.parent?))
}
