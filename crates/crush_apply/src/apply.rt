//! Applies one edit, with the function for the kind of the edit. These functions are in other
//! modules, for example `place` and `swap`.

ghost use Rattle.std.specs.Prelude.{◌≡◌, List, IfOk, OnErr, true, false};
ghost use Rattle.crush_model.specs.Table.{Row};
ghost use Rattle.crush_model.specs.Forest.{rows_of};
ghost use Rattle.crush_model.specs.Stands.{Stands};
ghost use Rattle.crush_edits.specs.declared.refusal.Refusal.{Refusal as DeclaredRefusal};
ghost use Rattle.crush_edits.specs.Answer.{refused};
ghost use Rattle.crush_edits.specs.Edit.{edit, takes_memory, sets_weights};
ghost use Rattle.crush_edits.specs.Fits.{Fits};
ghost use Rattle.crush_edits.specs.LawEdit.{IsEdit};
ghost use Rattle.crush_edits.specs.Outcome.{IsDone, IsChange};
ghost use Rattle.crush_apply.specs.Answered.{KeepsRooms};
ghost use Rattle.crush_apply.specs.UndoLog.{AnswersLoggedIf};

use crate::add_bucket::add_bucket;
use crate::classes::{remove_class, set_class};
use crate::place::place;
use crate::relocate::relocate;
use crate::remove::remove;
use crate::rename::rename;
use crate::reweight::reweight;
use crate::reweight_subtree::reweight_subtree;
use crate::route::NewDevice;
use crate::swap::swap;
use crate::undo_log::{Undo, done_alone};
use crush_edits::{Done, Edit, EditFault, Setting};
use crush_hierarchy::Hierarchy;
use std::alloc::Allocator;

/// Applies an edit to a hierarchy. Returns whether the edit has changed the hierarchy, and how many
/// buckets the edit has created.
///
/// The setting (types, tunables and rules) must fit the hierarchy: the setting is valid and has the
/// types of all buckets, and the hierarchy has all buckets that the setting's rules take. The
/// setting still fits afterwards.
///
/// The call fails with `Refused` if there is a reason to refuse the edit. If there are several
/// reasons, the error has the reason with the lowest number (`Refusal::number`). The call fails
/// with `OutOfMemory` only if there is no reason to refuse the edit and the edit would change
/// something. The edits `Reweight`, `ReweightSubtree`, `Swap`, `Remove` and `RemoveClass` never
/// fail with `OutOfMemory`. The hierarchy is unchanged after an error, and also after an edit that
/// changes nothing.
pub fn apply_edit<A: Allocator + Clone>(
    hierarchy: &mut Hierarchy<A>,
    setting: &Setting,
    requested: &Edit,
) -> Result<Done, EditFault>
    requires fits { Fits setting.now (rows_of hierarchy.old) }
    ensures done { IfOk result (λ d. (t : List Row) → Stands hierarchy.old t
        → IsDone (Stands hierarchy.new) (edit setting.now t requested.now) d) }
    ensures refused { (r : DeclaredRefusal) → result ≡ Err (EditFault.Refused r)
        → (t : List Row) → Stands hierarchy.old t → edit setting.now t requested.now ≡ refused r }
    ensures change { result ≡ Err EditFault.OutOfMemory
        → (t : List Row) → Stands hierarchy.old t
        → IsChange (edit setting.now t requested.now) }
    ensures memory { result ≡ Err EditFault.OutOfMemory → takes_memory requested.now ≡ true }
    ensures rooms { sets_weights requested.now ≡ true → KeepsRooms hierarchy.old hierarchy.new }
    ensures unchanged { OnErr result (hierarchy.new ≡ hierarchy.old) }
    ensures still { IfOk result (λ d. d.changed ≡ false → hierarchy.new ≡ hierarchy.old) }
    ensures fits { Fits setting.now (rows_of hierarchy.new) }
{
    hierarchy.recall_invariant();
    recall_forms(requested);
    done_alone(make(hierarchy, setting, requested, false))
}

/// Gives a proof the facts that the types of an edit's parts guarantee: the id of a device is in
/// range, a location is valid, and each name or class that the edit gives to an item is a valid
/// name.
///
/// The function reads these parts, and changes nothing.
pub(crate) fn recall_forms(requested: &Edit)
    ensures { IsEdit requested.now }
{
    match requested {
        Edit::Place {
            device,
            name,
            at,
            ..
        } => {
            let _number = device.number();
            let _name = name.as_bytes();
            let _pairs = at.pairs();
        }
        Edit::Move { at, .. } => {
            let _pairs = at.pairs();
        }
        Edit::AddBucket { name, .. } => {
            let _name = name.as_bytes();
        }
        Edit::Rename { to, .. } => {
            let _name = to.as_bytes();
        }
        Edit::SetClass { class, .. } => {
            let _name = class.as_bytes();
        }
        _ => {}
    }
}

/// Applies an edit. Returns what the edit has done, and an entry for the undo log that can undo the
/// edit.
///
/// The entry may be missing if the edit has changed nothing, or if `logged` is false. If `logged`
/// is true, the call may fail because no memory can be allocated for the entry, even if the edit
/// would be refused.
pub(crate) fn make<A: Allocator + Clone>(
    hierarchy: &mut Hierarchy<A>,
    setting: &Setting,
    requested: &Edit,
    logged: bool,
) -> Result<(Done, Option<Undo<A>>), EditFault>
    requires { Fits setting.now (rows_of hierarchy.old) }
    ensures answers { AnswersLoggedIf logged (takes_memory requested.now)
        (λ t. edit setting.now t requested.now) hierarchy.old hierarchy.new result }
    ensures rooms { sets_weights requested.now ≡ true → KeepsRooms hierarchy.old hierarchy.new }
{
    match requested {
        Edit::Place {
            how,
            device,
            name,
            weight,
            at,
        } => {
            let arrival = NewDevice {
                device: *device,
                name,
                weight: *weight,
                at,
            };
            place(hierarchy, setting, *how, &arrival)
        }
        Edit::Move { name, at } => relocate(hierarchy, setting, name, at),
        Edit::Swap { a, b } => swap(hierarchy, a, b),
        Edit::Reweight { name, weight } => reweight(hierarchy, name, *weight),
        Edit::ReweightSubtree { name, weight } => {
            reweight_subtree(hierarchy, name, *weight, logged)
        }
        Edit::Remove { name } => remove(hierarchy, setting, name, logged),
        Edit::AddBucket { name, kind } => add_bucket(hierarchy, setting, name, kind),
        Edit::Rename { from, to } => rename(hierarchy, from, to),
        Edit::SetClass { name, class } => set_class(hierarchy, name, class),
        Edit::RemoveClass { name } => remove_class(hierarchy, name),
    }
}
