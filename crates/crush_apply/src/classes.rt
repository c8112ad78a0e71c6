//! Applies the edits `SetClass` and `RemoveClass`, which change the class of a device.

ghost use Rattle.std.specs.Prelude.{◌≡◌, ◌≢◌, List, Some, IfOk, IfErr, Err};
ghost use Rattle.crush_units.specs.declared.id.ItemId.TheVariants.{Device as DeviceItem};
ghost use Rattle.crush_model.specs.Table.{Row, id_named};
ghost use Rattle.crush_model.specs.Stands.{Stands};
ghost use Rattle.crush_edits.specs.Setting.{SettingData};
ghost use Rattle.crush_edits.specs.declared.edit.Edit.TheVariants.{SetClass, RemoveClass};
ghost use Rattle.crush_edits.specs.Edit.{edit, refusal};
ghost use Rattle.crush_apply.specs.Alone.{GetsClass};
ghost use Rattle.crush_apply.specs.UndoLog.{AnswersLogged};

use crate::undo_log::Undo;
use crush_edits::{Done, EditFault, Refusal};
use crush_hierarchy::Hierarchy;
use crush_units::{DeviceId, ItemId, Name};
use std::alloc::{Allocator, Global};

/// Returns the device whose class is to be removed. If the edit must be refused, returns the
/// refusal.
fn check_remove_class<A: Allocator>(
    hierarchy: &Hierarchy<A>,
    name: &Name<Global>,
) -> Result<DeviceId, Refusal>
    ensures can { IfOk result (λ d. (t : List Row) → Stands hierarchy.now t
        → id_named t name.now ≡ Some (DeviceItem d)) }
    ensures refused { IfErr result (λ r. (s : SettingData) (t : List Row) → Stands hierarchy.now t
        → refusal s t (RemoveClass name.now) ≡ Some r) }
{
    let Some(id) = hierarchy.id_of(name.as_str()) else {
        return Err(Refusal::NoSuchItem);
    };
    let ItemId::Device(device) = id else {
        return Err(Refusal::NotADevice);
    };
    Ok(device)
}

/// Returns the device that is to get the class, or `None` if the device already has this class. If
/// the edit must be refused, returns the refusal.
fn check_set_class<A: Allocator>(
    hierarchy: &Hierarchy<A>,
    name: &Name<Global>,
    class: &Name<Global>,
) -> Result<Option<DeviceId>, Refusal>
    ensures can { IfOk result (λ d. (t : List Row) → Stands hierarchy.now t
        → GetsClass t name.now class.now d) }
    ensures refused { IfErr result (λ r. (s : SettingData) (t : List Row) → Stands hierarchy.now t
        → refusal s t (SetClass name.now class.now) ≡ Some r) }
{
    let Some(id) = hierarchy.id_of(name.as_str()) else {
        return Err(Refusal::NoSuchItem);
    };
    let ItemId::Device(device) = id else {
        return Err(Refusal::NotADevice);
    };
    let Some(own) = hierarchy.class(id) else {
        return Ok(Some(device));
    };
    if class.is(own.as_bytes()) {
        Ok(None)
    } else {
        Err(Refusal::ClassBound)
    }
}

pub(crate) fn set_class<A: Allocator + Clone>(
    hierarchy: &mut Hierarchy<A>,
    name: &Name<Global>,
    class: &Name<Global>,
) -> Result<(Done, Option<Undo<A>>), EditFault>
    ensures { (s : SettingData) → AnswersLogged (λ t. edit s t (SetClass name.now class.now))
        hierarchy.old hierarchy.new result }
{
    hierarchy.recall_invariant();
    let Some(device) = check_set_class(hierarchy, name, class)? else {
        let done = Done {
            changed: false,
            made: 0,
        };
        return Ok((done, None));
    };
    let copy = class.try_copy(hierarchy.allocator().clone()?)?;
    let old = hierarchy.set_class(device, Some(copy));
    let done = Done {
        changed: true,
        made: 0,
    };
    let undo = Undo::Class { device, class: old };
    Ok((done, Some(undo)))
}

pub(crate) fn remove_class<A: Allocator>(
    hierarchy: &mut Hierarchy<A>,
    name: &Name<Global>,
) -> Result<(Done, Option<Undo<A>>), EditFault>
    ensures answers { (s : SettingData) → AnswersLogged (λ t. edit s t (RemoveClass name.now))
        hierarchy.old hierarchy.new result }
    ensures memory { result ≢ Err EditFault.OutOfMemory }
{
    hierarchy.recall_invariant();
    let device = check_remove_class(hierarchy, name)?;
    let old = hierarchy.set_class(device, None);
    let done = Done {
        changed: old.is_some(),
        made: 0,
    };
    let undo = Undo::Class { device, class: old };
    Ok((done, Some(undo)))
}
