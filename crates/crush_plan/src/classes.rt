//! Sets the classes of devices.

ghost use Rattle.std.specs.Prelude.{◌≡◌, IfOk, OnOk};
ghost use Rattle.crush_plan.specs.Classes.{IsClassByClass, rank};
ghost use Rattle.crush_plan.specs.Draft.{GoesOn};

use crate::draft::Draft;
use crate::goal::PlanGoal;
use crate::item_table::ItemTable;
use crate::items::SetDevice;
use crush_print::WalkStep;
use crush_units::{DeviceId, ItemId};
use std::alloc::{AllocError, Allocator, Global};

/// A class of the wanted map, and the first device that has this class. `at` is the position of
/// this device in the list of all items of the wanted map.
#[derive(Clone, Copy)]
struct FirstUse<'a> {
    class: &'a str,
    at: usize,
}

/// One edit for a device that has another class in the wanted map. The edit removes the device's
/// old class, or sets its new class.
#[derive(Clone, Copy)]
struct ClassStep {
    device: DeviceId,
    kind: StepKind,
    /// The position of a device in the list of all items of the wanted map. Of all devices of the
    /// wanted map that have the new class, this is the first one.
    first_use: usize,
}

/// What an edit does with the class of a device.
#[derive(Clone, Copy)]
enum StepKind {
    /// The edit removes the old class. A device that still has a class can't get another class.
    Remove,
    /// The edit sets the class of the device to its class in the wanted map.
    Set,
}

impl ClassStep {
    /// Returns the number by which the edits are sorted, the lowest first. After the edits are
    /// sorted, all edits for devices that get the same class are next to each other. Of these
    /// edits, those that remove old classes are before those that set the class.
    fn rank(&self) -> u128
        ensures { result ≡ rank self.now }
    {
        let first = 2 * self.first_use as u128;
        match self.kind {
            StepKind::Remove => first,
            StepKind::Set => first + 1,
        }
    }
}

/// Sets the classes of these devices, class by class, in the order in which the classes first occur
/// in the tree of the wanted map. For each class, the function first removes the old classes of the
/// devices that get this class, and then sets the class. So at any moment, all devices that have
/// lost their old class, and don't have their new class yet, get the same class. At the end, the
/// function removes the classes of the devices that have no class in the wanted map.
///
/// The contract of [`class_steps`] promises the order of the edits that it returns. Only tests show
/// that the draft gets the edits in this order.
pub(crate) fn set_classes<A: Allocator + Clone, B: Allocator>(
    draft: &mut Draft<A>,
    goal: &PlanGoal<'_, A, B>,
    devices: &[SetDevice],
) -> Result<(), AllocError>
    ensures { OnOk result (GoesOn goal.now draft.old draft.new) }
{
    if devices.is_empty() {
        return Ok(());
    }
    let steps = class_steps(draft.alloc, &goal.there, devices)?;
    make_steps(draft, goal, steps.as_slice())?;
    remove_classes(draft, goal, devices)
}

/// Returns the edits that remove the old classes and set the new classes of those devices that get
/// another class. The edits are sorted by [`ClassStep::rank`]. Devices that only lose a class have
/// no edits in this list.
fn class_steps<B: Allocator>(
    alloc: Global,
    wanted: &ItemTable<'_, B>,
    devices: &[SetDevice],
) -> Result<Vec<ClassStep>, AllocError>
    ensures { IfOk result (λ steps. IsClassByClass steps.items) }
{
    let mut steps = unordered_steps(alloc, wanted, devices)?;
    steps.sort_by_key(|step| step.rank())?;
    Ok(steps)
}

/// Returns the same edits as [`class_steps`], but in the order of `devices`.
fn unordered_steps<B: Allocator>(
    alloc: Global,
    wanted: &ItemTable<'_, B>,
    devices: &[SetDevice],
) -> Result<Vec<ClassStep>, AllocError> {
    let uses = first_uses(alloc, wanted.steps.as_slice())?;
    let mut steps = Vec::new(alloc);
    for device in devices {
        if let Some(first_use) = first_use_of(wanted, uses.as_slice(), device) {
            push_steps(device, first_use, &mut steps)?;
        }
    }
    Ok(steps)
}

/// Returns the classes of a map, sorted by their names. Each class has the position of the first
/// device that has it. `steps` lists all items of the map.
fn first_uses<'a, B: Allocator>(
    alloc: Global,
    steps: &[WalkStep<'a, B>],
) -> Result<Vec<FirstUse<'a>>, AllocError> {
    let mut uses = Vec::new(alloc);
    for (at, step) in steps.iter().enumerate() {
        if let Some(class) = step.view().class {
            uses.push(FirstUse { class, at })?;
        }
    }
    uses.sort_by_key(|first| first.class)?;
    uses.dedup_by_key(|first| first.class);
    Ok(uses)
}

/// Returns the position of the first device that has the class, or `None` if no device has it.
/// `uses` must be sorted by the names of the classes.
fn first_at(uses: &[FirstUse<'_>], class: &str) -> Option<usize> {
    match uses.binary_search_by_key(&class, |first| first.class) {
        Ok(at) => Some(uses[at].at),
        Err(_) => None,
    }
}

/// If the device has to get another class, returns a position in the list of all items of the
/// wanted map: the position of the first device that has this class in the wanted map. Returns
/// `None` if the class of the device doesn't change, or if the device has no class in the wanted
/// map.
fn first_use_of<B: Allocator>(
    wanted: &ItemTable<'_, B>,
    uses: &[FirstUse<'_>],
    device: &SetDevice,
) -> Option<usize> {
    if !device.differs {
        return None;
    }
    let Some(there) = wanted.view(ItemId::Device(device.id)) else {
        return None;
    };
    match there.class {
        Some(class) => first_at(uses, class),
        None => None,
    }
}

/// Appends the edits for a device that gets another class. If the device has a class, the first
/// edit removes this class. The last edit sets the new class.
fn push_steps(
    device: &SetDevice,
    first_use: usize,
    steps: &mut Vec<ClassStep>,
) -> Result<(), AllocError> {
    if device.has_class {
        steps.push(ClassStep {
            device: device.id,
            kind: StepKind::Remove,
            first_use,
        })?;
    }
    steps.push(ClassStep {
        device: device.id,
        kind: StepKind::Set,
        first_use,
    })?;
    Ok(())
}

fn make_steps<A: Allocator + Clone, B: Allocator>(
    draft: &mut Draft<A>,
    goal: &PlanGoal<'_, A, B>,
    steps: &[ClassStep],
) -> Result<(), AllocError>
    ensures { OnOk result (GoesOn goal.now draft.old draft.new) }
{
    for step in steps {
        make_step(draft, goal, step)?;
    }
    Ok(())
}

/// Calls [`Draft::set_class`] or [`Draft::remove_class`] for the device of this step, if the
/// draft's map has this device, with the same name as in the wanted map.
fn make_step<A: Allocator + Clone, B: Allocator>(
    draft: &mut Draft<A>,
    goal: &PlanGoal<'_, A, B>,
    step: &ClassStep,
) -> Result<(), AllocError>
    ensures { OnOk result (GoesOn goal.now draft.old draft.new) }
{
    let Some(there) = goal.there.view(ItemId::Device(step.device)) else {
        return Ok(());
    };
    if !draft.has_item(ItemId::Device(step.device), there.name) {
        return Ok(());
    }
    match (step.kind, there.class) {
        (StepKind::Set, Some(class)) => {
            draft.set_class(goal, there.name.as_bytes(), class.as_bytes())
        }
        _ => draft.remove_class(goal, there.name.as_bytes()),
    }
}

/// Removes the class of each of these devices that has no class in the wanted map.
fn remove_classes<A: Allocator + Clone, B: Allocator>(
    draft: &mut Draft<A>,
    goal: &PlanGoal<'_, A, B>,
    devices: &[SetDevice],
) -> Result<(), AllocError>
    ensures { OnOk result (GoesOn goal.now draft.old draft.new) }
{
    for device in devices {
        remove_class(draft, goal, device)?;
    }
    Ok(())
}

/// Removes the class of the device, if the device has no class in the wanted map, and if the
/// draft's map has the device, with the same name as in the wanted map.
fn remove_class<A: Allocator + Clone, B: Allocator>(
    draft: &mut Draft<A>,
    goal: &PlanGoal<'_, A, B>,
    device: &SetDevice,
) -> Result<(), AllocError>
    ensures { OnOk result (GoesOn goal.now draft.old draft.new) }
{
    let Some(there) = goal.there.view(ItemId::Device(device.id)) else {
        return Ok(());
    };
    if there.class.is_some() || !draft.has_item(ItemId::Device(device.id), there.name) {
        return Ok(());
    }
    draft.remove_class(goal, there.name.as_bytes())
}
