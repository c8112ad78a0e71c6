//! Applies the edit `Place`, which puts a device at a location. The three values of [`Placing`] say
//! what the edit does with a device that is already in a bucket.

ghost use Rattle.std.specs.Prelude.{◌≡◌, ◌≤◌, List};
ghost use Rattle.crush_units.specs.declared.limits.TheConstants.{HEAVIEST_DEVICE};
ghost use Rattle.crush_model.specs.Table.{Row};
ghost use Rattle.crush_model.specs.Forest.{rows_of};
ghost use Rattle.crush_model.specs.Stands.{Stands};
ghost use Rattle.crush_edits.specs.declared.edit.Edit.TheVariants.{Place};
ghost use Rattle.crush_edits.specs.Edit.{edit};
ghost use Rattle.crush_edits.specs.Fits.{Fits};
ghost use Rattle.crush_edits.specs.Placing.{kept_weight};
ghost use Rattle.crush_edits.specs.Setting.{SettingData};
ghost use Rattle.crush_apply.specs.UndoLog.{AnswersLogged};
ghost use Rattle.crush_apply.specs.IfPlaced.{is_barred, coming_weight, stay_answer};

use crate::reweight::reweight;
use crate::route::{NewDevice, check_device, destination_of, is_held, place_device};
use crate::undo_log::Undo;
use crush_edits::{Done, EditFault, Placing, Refusal, Setting};
use crush_hierarchy::Hierarchy;
use crush_units::{DeviceId, ItemId, Weight};
use std::alloc::Allocator;

/// Applies the edit `Place` to the device `arrival`. `how` says what the edit does with a device
/// that is already in a bucket.
pub(crate) fn place<A: Allocator + Clone>(
    hierarchy: &mut Hierarchy<A>,
    setting: &Setting,
    how: Placing,
    arrival: &NewDevice<'_>,
) -> Result<(Done, Option<Undo<A>>), EditFault>
    requires { Fits setting.now (rows_of hierarchy.old) }
    ensures { AnswersLogged (λ t. edit setting.now t (Place how arrival.now.device
        arrival.now.name.now arrival.now.weight arrival.now.at.now))
        hierarchy.old hierarchy.new result }
{
    hierarchy.recall_invariant();
    check_device(hierarchy, setting, arrival)?;
    if is_barred(hierarchy, how, arrival.device) {
        return Err(EditFault::Refused(Refusal::AlreadyPlaced));
    }
    let to = destination_of(hierarchy, setting, arrival.at)?;
    if is_held(hierarchy, ItemId::Device(arrival.device), &to) {
        return stay(hierarchy, how, arrival);
    }
    let weight = coming_weight(hierarchy, how, arrival.device, arrival.weight);
    let coming = NewDevice { weight, ..*arrival };
    place_device(hierarchy, &coming, &to)
}

/// Whether the edit is refused because the device is already in a bucket.
fn is_barred<A: Allocator>(hierarchy: &Hierarchy<A>, how: Placing, device: DeviceId) -> bool
    ensures { (t : List Row) → Stands hierarchy.now t → result ≡ is_barred how t device }
{
    match how {
        Placing::Insert => hierarchy.parent(ItemId::Device(device)).is_some(),
        Placing::CreateOrMove => false,
        Placing::Update => false,
    }
}

/// Applies the edit to a device that is already in the location's bucket of the lowest type. The
/// device isn't moved. If `how` is `Update`, the edit sets the device's weight, as the edit
/// `Reweight` does.
fn stay<A: Allocator>(
    hierarchy: &mut Hierarchy<A>,
    how: Placing,
    arrival: &NewDevice<'_>,
) -> Result<(Done, Option<Undo<A>>), EditFault>
    ensures { (s : SettingData) → AnswersLogged
        (λ t. stay_answer s t how arrival.now.name.now arrival.now.weight)
        hierarchy.old hierarchy.new result }
{
    if let Placing::Update = how {
        return reweight(hierarchy, arrival.name, arrival.weight);
    }
    let done = Done {
        changed: false,
        made: 0,
    };
    Ok((done, None))
}

/// Returns the weight that the device gets if the edit puts it into another bucket.
fn coming_weight<A: Allocator>(
    hierarchy: &Hierarchy<A>,
    how: Placing,
    device: DeviceId,
    weight: Weight,
) -> Weight
    requires { weight ≤ HEAVIEST_DEVICE }
    ensures coming { (t : List Row) → Stands hierarchy.now t
        → result ≡ coming_weight how t device weight }
    ensures light { result ≤ HEAVIEST_DEVICE }
{
    match how {
        Placing::Insert => weight,
        Placing::CreateOrMove => kept_weight(hierarchy, device, weight),
        Placing::Update => weight,
    }
}

/// Returns the weight that the device has if it is in a bucket, and the given weight otherwise.
fn kept_weight<A: Allocator>(hierarchy: &Hierarchy<A>, device: DeviceId, weight: Weight) -> Weight
    requires { weight ≤ HEAVIEST_DEVICE }
    ensures kept { (t : List Row) → Stands hierarchy.now t → result ≡ kept_weight t device weight }
    ensures light { result ≤ HEAVIEST_DEVICE }
{
    hierarchy.recall_invariant();
    if hierarchy.parent(ItemId::Device(device)).is_none() {
        return weight;
    }
    match hierarchy.weight(ItemId::Device(device)) {
        Some(own) => own,
        None => weight,
    }
}
