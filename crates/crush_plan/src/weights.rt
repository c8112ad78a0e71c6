//! Sets the weights of devices.

ghost use Rattle.std.specs.Prelude.{OnOk};
ghost use Rattle.crush_plan.specs.Draft.{GoesOn};

mod common;

use crate::draft::Draft;
use crate::goal::PlanGoal;
use crate::item_table::ItemTable;
use crate::items::same_item;
pub(crate) use common::weighed_together;
use common::{Subtree, subtrees};
use crush_compare::are_near;
use crush_map::CrushMap;
use crush_units::{DeviceId, ItemId, Weight};
use std::alloc::{AllocError, Allocator, Global};

/// Which weights a call of [`set_weights`] sets.
#[derive(Clone, Copy, PartialEq, Eq)]
pub(crate) enum Which {
    /// The weights that become lower by more than one unit.
    Less,
    /// The weights that become lower or higher by more than one unit.
    Other,
}

impl Which {
    /// Whether a weight that has to change from `from` to `to` is set. A change of one unit
    /// (1/65536 TiB) doesn't count.
    pub(crate) fn sets(self, from: Weight, to: Weight) -> bool {
        match self {
            Which::Less => to.units() < from.units() && !are_near(from, to),
            Which::Other => !are_near(from, to),
        }
    }
}

/// A device with its new weight.
#[derive(Clone, Copy)]
struct NewWeight {
    device: DeviceId,
    weight: Weight,
}

/// Sets those weights of these devices that `which` selects.
///
/// First, the function sets all weights below some buckets, with one edit for each of these
/// buckets. [`subtrees`] finds the buckets for which this is possible. Each weight that then still
/// has to be set is set by an edit of its own.
///
/// A later call sets the weights of the devices `later`. So in this call, no edit sets only the
/// weight of such a device. But if an edit of this call sets all weights below a bucket, this edit
/// also sets the weights of those devices `later` that are below this bucket. `later` must be
/// sorted by the ids of the devices.
pub(crate) fn set_weights<A: Allocator + Clone, B: Allocator>(
    draft: &mut Draft<A>,
    goal: &PlanGoal<'_, A, B>,
    devices: &[DeviceId],
    which: Which,
    later: &[DeviceId],
) -> Result<(), AllocError>
    ensures { OnOk result (GoesOn goal.now draft.old draft.new) }
{
    if devices.is_empty() {
        return Ok(());
    }
    let found = subtrees(draft.alloc, &draft.map, goal, which, later)?;
    set_below(draft, goal, found.as_slice())?;
    let changes = new_weights(draft.alloc, &draft.map, goal, devices, which, later)?;
    set_one_by_one(draft, goal, changes.as_slice())
}

/// For each of these buckets, sets the weights of all devices below the bucket.
fn set_below<A: Allocator + Clone, B: Allocator>(
    draft: &mut Draft<A>,
    goal: &PlanGoal<'_, A, B>,
    found: &[Subtree],
) -> Result<(), AllocError>
    ensures { OnOk result (GoesOn goal.now draft.old draft.new) }
{
    for subtree in found {
        draft.reweight_below(goal, subtree.bucket, subtree.weight)?;
    }
    Ok(())
}

/// Sets the weight of each of these devices.
fn set_one_by_one<A: Allocator + Clone, B: Allocator>(
    draft: &mut Draft<A>,
    goal: &PlanGoal<'_, A, B>,
    changes: &[NewWeight],
) -> Result<(), AllocError>
    ensures { OnOk result (GoesOn goal.now draft.old draft.new) }
{
    for change in changes {
        set_weight(draft, goal, change)?;
    }
    Ok(())
}

fn set_weight<A: Allocator + Clone, B: Allocator>(
    draft: &mut Draft<A>,
    goal: &PlanGoal<'_, A, B>,
    change: &NewWeight,
) -> Result<(), AllocError>
    ensures { OnOk result (GoesOn goal.now draft.old draft.new) }
{
    match goal.there.name_of(ItemId::Device(change.device)) {
        Some(name) => draft.reweight(goal, name.as_bytes(), change.weight),
        None => Ok(()),
    }
}

/// Returns those of the devices whose weights have to be set, with their new weights. Leaves out
/// the devices `later`, which must be sorted by their ids.
fn new_weights<A: Allocator, B: Allocator>(
    alloc: Global,
    map: &CrushMap<A>,
    goal: &PlanGoal<'_, A, B>,
    devices: &[DeviceId],
    which: Which,
    later: &[DeviceId],
) -> Result<Vec<NewWeight>, AllocError> {
    let now = ItemTable::new(alloc, map)?;
    let mut changes = Vec::new(alloc);
    for device in devices {
        if !is_one_of(later, *device) {
            push_new_weight(&now, &goal.there, *device, which, &mut changes)?;
        }
    }
    Ok(changes)
}

/// Appends the device with its new weight, if its weight has to be set.
fn push_new_weight<A: Allocator, B: Allocator>(
    map: &ItemTable<'_, A>,
    wanted: &ItemTable<'_, B>,
    device: DeviceId,
    which: Which,
    changes: &mut Vec<NewWeight>,
) -> Result<(), AllocError> {
    if let Some(weight) = new_weight(map, wanted, device, which) {
        changes.push(NewWeight { device, weight })?;
    }
    Ok(())
}

/// Whether the device is one of the devices `devices`, which must be sorted by their ids.
fn is_one_of(devices: &[DeviceId], device: DeviceId) -> bool {
    match devices.binary_search_by_key(&device.number(), |device| device.number()) {
        Ok(_) => true,
        Err(_) => false,
    }
}

/// Returns the weight that the device has to get. Returns `None` if `which` doesn't select the
/// change of its weight. Also returns `None` if one of the maps doesn't have the device, or has it
/// in no bucket.
fn new_weight<A: Allocator, B: Allocator>(
    map: &ItemTable<'_, A>,
    wanted: &ItemTable<'_, B>,
    device: DeviceId,
    which: Which,
) -> Option<Weight> {
    let Some(current) = map.view(ItemId::Device(device)) else {
        return None;
    };
    let Some(target) = same_item(wanted, &current) else {
        return None;
    };
    if current.parent.is_none() || target.parent.is_none() {
        return None;
    }
    if which.sets(current.weight, target.weight) {
        Some(target.weight)
    } else {
        None
    }
}
