//! The form in which Ceph accepts an edit, and edits after which Ceph keeps an old name.

ghost use Rattle.std.specs.Prelude.{◌≡◌, IfOk, List, OnErr, OnOk};
ghost use Rattle.std.specs.List.{list_any};
ghost use Rattle.crush_model.specs.Stands.{Stands};
ghost use Rattle.crush_model.specs.Table.{Row};
ghost use Rattle.crush_edits.specs.SettingSeen.{rule_data, step_data};
ghost use Rattle.crush_edits.specs.Stops.{bucket_named};
ghost use Rattle.crush_ceph.specs.ForCeph.{added, added_way, edit_for_ceph, is_taken_with_class, leaves_old_name, rule_takes_with_class, sets_unplaced, table_after_edit, takes_with_class};

use crush_edits::{Edit, EditFault, KeptRule, KeptStep, Placing};
use crush_map::CrushMap;
use crush_units::{BucketId, ItemId, Name};
use std::alloc::{AllocError, Global};

fn sets_unplaced(map: &CrushMap<Global>, edit: &Edit) -> bool
    ensures { (t : List Row) → Stands map.now.forest t → result ≡ sets_unplaced t edit.now }
{
    match edit {
        Edit::Place {
            how: Placing::Update,
            device,
            ..
        } => map.parent(ItemId::Device(*device)).is_none(),
        _ => false,
    }
}

/// Returns the way in which `add` places a device, if `how` is the way in which `set` places a
/// device. Returns any other way unchanged.
fn added_way(how: Placing) -> Placing
    ensures { result ≡ added_way how }
{
    match how {
        Placing::Update => Placing::Insert,
        how => how,
    }
}

/// Turns a `set` of a device into an `add` with the same values. Returns any other edit unchanged.
fn added(edit: Edit) -> Edit
    ensures { result ≡ added edit }
{
    match edit {
        Edit::Place {
            how,
            device,
            name,
            weight,
            at,
        } => Edit::Place {
            how: added_way(how),
            device,
            name,
            weight,
            at,
        },
        edit => edit,
    }
}

/// Returns the edit that Ceph accepts in place of this edit, if Ceph has the same map.
///
/// If the edit is a `set` of a device that no bucket holds, returns an `add` with the same values,
/// because Ceph's `set` refuses a device that isn't in Ceph's map. Returns any other edit
/// unchanged. A `set` of a device that a bucket holds must stay a `set`, because Ceph's `add` would
/// give this device a second place.
pub(crate) fn edit_for_ceph(
    alloc: Global,
    map: &CrushMap<Global>,
    edit: &Edit,
) -> Result<Edit, AllocError>
    ensures { IfOk result (λ told. (t : List Row) → Stands map.now.forest t
        → told ≡ edit_for_ceph t edit.now) }
{
    let copy = edit.try_copy(alloc)?;
    if sets_unplaced(map, edit) {
        Ok(added(copy))
    } else {
        Ok(copy)
    }
}

fn takes_with_class(step: &KeptStep, bucket: BucketId) -> bool
    ensures { result ≡ takes_with_class bucket (step_data step.now) }
{
    match step {
        KeptStep::Take(taken, class) => *taken == bucket && class.is_some(),
        _ => false,
    }
}

fn steps_take_with_class(steps: &[KeptStep], bucket: BucketId) -> bool
    ensures { result ≡ list_any (λ step. takes_with_class bucket (step_data step)) steps.now }
{
    steps.iter().any(|step| takes_with_class(step, bucket))
}

fn rule_takes_with_class(rule: &KeptRule, bucket: BucketId) -> bool
    ensures { result ≡ rule_takes_with_class bucket (rule_data rule.now) }
{
    steps_take_with_class(rule.steps.as_slice(), bucket)
}

fn rules_take_with_class(rules: &[KeptRule], bucket: BucketId) -> bool
    ensures { result ≡ list_any (λ rule. rule_takes_with_class bucket (rule_data rule)) rules.now }
{
    rules.iter().any(|rule| rule_takes_with_class(rule, bucket))
}

/// Whether a rule of the map has a step `take` with this bucket and a class of devices.
fn is_taken_with_class(map: &CrushMap<Global>, bucket: BucketId) -> bool
    ensures { result ≡ is_taken_with_class map.now.setting bucket }
{
    rules_take_with_class(map.setting().rules(), bucket)
}

fn bucket_named(map: &CrushMap<Global>, name: &Name<Global>) -> Option<BucketId>
    ensures { (t : List Row) → Stands map.now.forest t → result ≡ bucket_named t name.now }
{
    match map.locate(name.as_str())? {
        ItemId::Bucket(bucket) => Some(bucket),
        ItemId::Device(_) => None,
    }
}

/// Whether Ceph keeps an old name after the edit. This is the case if the edit renames a bucket,
/// and a rule of the map has a step `take` with this bucket and a class. For such a rule, Ceph has
/// a copy of the bucket with only the devices of this class. After the edit, this copy keeps the
/// old name until `reweight-all`.
pub(crate) fn leaves_old_name(map: &CrushMap<Global>, edit: &Edit) -> bool
    ensures { (t : List Row) → Stands map.now.forest t
        → result ≡ leaves_old_name map.now.setting t edit.now }
{
    match edit {
        Edit::Rename { from, .. } => match bucket_named(map, from) {
            Some(bucket) => is_taken_with_class(map, bucket),
            None => false,
        },
        _ => false,
    }
}

/// Applies an edit of a history or of a plan to a map. Callers use this function to apply such
/// edits once more. If the edit is refused, the function succeeds, and the map is unchanged. Fails
/// only if memory runs out, and the map is then unchanged, too.
pub fn redo_edit(map: &mut CrushMap<Global>, edit: &Edit) -> Result<(), AllocError>
    ensures stands { OnOk result ((t : List Row) → Stands map.old.forest t
        → Stands map.new.forest (table_after_edit map.old.setting t edit.now)) }
    ensures setting { map.new.setting ≡ map.old.setting }
    ensures unchanged { OnErr result (map.new ≡ map.old) }
{
    match map.apply(edit) {
        Ok(_) => Ok(()),
        Err(EditFault::Refused(_)) => Ok(()),
        Err(EditFault::OutOfMemory) => Err(AllocError),
    }
}
