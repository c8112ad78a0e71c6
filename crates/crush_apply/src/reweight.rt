//! Applies the edit `Reweight`: sets the weight of one device.

ghost use Rattle.std.specs.Prelude.{◌≡◌, ◌≢◌, List, Some, IfOk, IfErr, OnOk, Err, false};
ghost use Rattle.crush_model.specs.Table.{Row, id_named};
ghost use Rattle.crush_model.specs.Stands.{Stands};
ghost use Rattle.crush_edits.specs.Setting.{SettingData};
ghost use Rattle.crush_edits.specs.declared.edit.Edit.TheVariants.{Reweight, ReweightSubtree};
ghost use Rattle.crush_edits.specs.Answer.{is_heavy};
ghost use Rattle.crush_edits.specs.Edit.{edit, refusal};
ghost use Rattle.crush_apply.specs.Answered.{KeepsRooms};
ghost use Rattle.crush_apply.specs.UndoLog.{AnswersLogged};
ghost use Rattle.crush_apply.specs.Weighed.{CanReweight};

use crate::undo_log::Undo;
use crush_edits::{Done, EditFault, Refusal};
use crush_hierarchy::Hierarchy;
use crush_units::{DeviceId, ItemId, Name, Weight};
use std::alloc::{Allocator, Global};

/// Makes the tests that `Reweight` and `ReweightSubtree` have in common: the weight must not be too
/// large for a device, and an item must have the name. Returns this item. If a test fails, returns
/// the refusal.
pub(crate) fn item_to_weigh<A: Allocator>(
    hierarchy: &Hierarchy<A>,
    name: &Name<Global>,
    weight: Weight,
) -> Result<ItemId, Refusal>
    ensures light { OnOk result (is_heavy weight ≡ false) }
    ensures named { IfOk result (λ i. (t : List Row) → Stands hierarchy.now t
        → id_named t name.now ≡ Some i) }
    ensures device { IfErr result (λ r. (s : SettingData) (t : List Row) → Stands hierarchy.now t
        → refusal s t (Reweight name.now weight) ≡ Some r) }
    ensures subtree { IfErr result (λ r. (s : SettingData) (t : List Row) → Stands hierarchy.now t
        → refusal s t (ReweightSubtree name.now weight) ≡ Some r) }
{
    if !weight.is_device_weight() {
        return Err(Refusal::WeightTooLarge);
    }
    let Some(id) = hierarchy.id_of(name.as_str()) else {
        return Err(Refusal::NoSuchItem);
    };
    Ok(id)
}

/// Returns the device that has the name. If the edit must be refused, returns the first refusal.
/// The caller must still test for the refusal `SumTooLarge`.
fn check_reweight<A: Allocator>(
    hierarchy: &Hierarchy<A>,
    name: &Name<Global>,
    weight: Weight,
) -> Result<DeviceId, Refusal>
    ensures can { IfOk result (λ d. (t : List Row) → Stands hierarchy.now t
        → CanReweight t name.now weight d) }
    ensures refused { IfErr result (λ r. (s : SettingData) (t : List Row) → Stands hierarchy.now t
        → refusal s t (Reweight name.now weight) ≡ Some r) }
{
    hierarchy.recall_invariant();
    let id = item_to_weigh(hierarchy, name, weight)?;
    let ItemId::Device(device) = id else {
        return Err(Refusal::NotADevice);
    };
    if hierarchy.parent(id).is_none() {
        return Err(Refusal::NotPlaced);
    }
    Ok(device)
}

pub(crate) fn reweight<A: Allocator>(
    hierarchy: &mut Hierarchy<A>,
    name: &Name<Global>,
    weight: Weight,
) -> Result<(Done, Option<Undo<A>>), EditFault>
    ensures answers { (s : SettingData) → AnswersLogged (λ t. edit s t (Reweight name.now weight))
        hierarchy.old hierarchy.new result }
    ensures memory { result ≢ Err EditFault.OutOfMemory }
    ensures rooms { KeepsRooms hierarchy.old hierarchy.new }
{
    hierarchy.recall_invariant();
    let device = check_reweight(hierarchy, name, weight)?;
    let Some(before) = hierarchy.replace_weight(device, weight) else {
        return Err(EditFault::Refused(Refusal::SumTooLarge));
    };
    let done = Done {
        changed: before != weight,
        made: 0,
    };
    let undo = Undo::Weight {
        device,
        weight: before,
    };
    Ok((done, Some(undo)))
}
