//! Applies a batch of edits: either all of them, or none.

ghost use Rattle.std.specs.Prelude.{◌≡◌, ℕ, ◌+◌, ◌*◌, ◌<◌, ◌≤◌, ◌++◌, List, [], length, IfOk, OnOk, OnErr, vec_len, vec_capacity};
ghost use Rattle.crush_units.specs.declared.limits.TheConstants.{MOST_EDITS};
ghost use Rattle.crush_model.specs.Table.{Row};
ghost use Rattle.crush_model.specs.Forest.{ForestData, rows_of};
ghost use Rattle.crush_model.specs.Stands.{Stands};
ghost use Rattle.crush_edits.specs.declared.refusal.Refusal.{Refusal as DeclaredRefusal};
ghost use Rattle.crush_edits.specs.Batch.{batch, batch_refused, with_done};
ghost use Rattle.crush_edits.specs.Fits.{Fits};
ghost use Rattle.crush_edits.specs.Answer.{refused};
ghost use Rattle.crush_edits.specs.Outcome.{IsDone};
ghost use Rattle.crush_edits.specs.Edit.{edit};
ghost use Rattle.crush_apply.specs.AsBefore.{IsAsBefore};
ghost use Rattle.crush_apply.specs.Batched.{IsBatchDone};
ghost use Rattle.crush_apply.specs.UndoLog.{as_list, RollsBack};

use crate::apply::{make, recall_forms};
use crate::undo_log::{Undo, roll_back};
use crush_edits::{BatchFault, Done, Dones, Edit, EditFault, Setting};
use crush_hierarchy::Hierarchy;
use std::alloc::{AllocError, Allocator};

/// Applies all edits of a batch, or none of them. Returns how many edits the batch has, how many of
/// them have changed the hierarchy, and how many buckets they have created.
///
/// There must be at most 65,536 edits, and the setting must fit the hierarchy, as for `apply_edit`.
/// The edits are applied one after the other: each edit is applied to the result of the edits
/// before it.
///
/// If an edit is refused, the call fails with `Refused`, which has the index of this edit in the
/// batch, from 0, and the refusal. If memory runs out before an edit is refused, the call fails
/// with `OutOfMemory`. In this case no refusal is reported, even if the edit for which memory ran
/// out, or a later edit, would be refused. The hierarchy is unchanged after an error.
///
/// The edits change the hierarchy itself and not a copy. If an edit fails, the edits before it are
/// undone, in the opposite order.
pub fn apply_batch<A: Allocator + Clone>(
    hierarchy: &mut Hierarchy<A>,
    setting: &Setting,
    edits: &[Edit],
) -> Result<Dones, BatchFault>
    requires few { length edits.now ≤ MOST_EDITS }
    requires fits { Fits setting.now (rows_of hierarchy.old) }
    ensures done { IfOk result (λ d. (t : List Row) → Stands hierarchy.old t
        → IsBatchDone (Stands hierarchy.new) (batch setting.now t edits.now) d) }
    ensures refused { (index : ℕ) (r : DeclaredRefusal)
        → result ≡ Err (BatchFault.Refused index r) → (t : List Row) → Stands hierarchy.old t
        → batch setting.now t edits.now ≡ batch_refused index r }
    ensures memory { result ≡ Err BatchFault.OutOfMemory → hierarchy.new ≡ hierarchy.old }
    ensures unchanged { OnErr result (hierarchy.new ≡ hierarchy.old) }
    ensures as_before { OnErr result (IsAsBefore hierarchy.old hierarchy.new) }
    ensures single { length edits.now ≤ 1 → OnErr result (hierarchy.new ≡ hierarchy.old) }
    ensures fits { Fits setting.now (rows_of hierarchy.new) }
{
    let room = edits.len().saturating_sub(1);
    let Ok(mut log) = new_log(hierarchy, room) else {
        return Err(BatchFault::OutOfMemory);
    };
    match make_all(hierarchy, setting, edits, &mut log) {
        Ok(dones) => Ok(dones),
        Err(fault) => {
            roll_back(hierarchy, log);
            Err(fault)
        }
    }
}

fn new_log<A: Allocator + Clone>(
    hierarchy: &Hierarchy<A>,
    room: usize,
) -> Result<Vec<Undo<A>, A>, AllocError>
    ensures items { IfOk result (λ log. log.items ≡ []) }
    ensures len { IfOk result (λ log. vec_len log ≡ 0) }
    ensures capacity { IfOk result (λ log. vec_capacity log ≡ room) }
{
    Vec::with_capacity(hierarchy.allocator().clone()?, room)
}

/// Applies the edits in order until one fails. After each edit that has an entry for the log,
/// appends this entry to the log, as long as the log has room. An entry can undo its edit. An edit
/// that has changed nothing may have no entry.
///
/// The log needs room for the entries of all edits except the last. The last edit never has to be
/// undone, because no other edit can fail after it.
fn make_all<A: Allocator + Clone>(
    hierarchy: &mut Hierarchy<A>,
    setting: &Setting,
    edits: &[Edit],
    log: &mut Vec<Undo<A>, A>,
) -> Result<Dones, BatchFault>
    requires few { length edits.now ≤ MOST_EDITS }
    requires fits { Fits setting.now (rows_of hierarchy.old) }
    requires empty { log.old.items ≡ [] }
    requires len { vec_len log.old ≡ 0 }
    requires room { length edits.now ≤ vec_capacity log.old + 1 }
    ensures done { IfOk result (λ d. (t : List Row) → Stands hierarchy.old t
        → IsBatchDone (Stands hierarchy.new) (batch setting.now t edits.now) d) }
    ensures refused { (index : ℕ) (r : DeclaredRefusal)
        → result ≡ Err (BatchFault.Refused index r) → (t : List Row) → Stands hierarchy.old t
        → batch setting.now t edits.now ≡ batch_refused index r }
    ensures log { OnErr result (RollsBack log.new.items hierarchy.new hierarchy.old) }
    ensures fits { Fits setting.now (rows_of hierarchy.new) }
{
    let mut dones = Dones {
        edits: 0,
        changed: 0,
        made: 0,
    };
    for requested in edits {
        match apply_logged(hierarchy, setting, requested, log) {
            Ok(done) => dones = with_done(dones, done),
            Err(EditFault::Refused(refusal)) => {
                return Err(BatchFault::Refused(dones.edits, refusal));
            }
            Err(EditFault::OutOfMemory) => return Err(BatchFault::OutOfMemory),
        }
    }
    Ok(dones)
}

/// Applies one edit. If the log has room, appends the entry that can undo the edit to the log. An
/// edit that has changed nothing may have no entry. After an error, the hierarchy and the log are
/// unchanged.
fn apply_logged<A: Allocator + Clone>(
    hierarchy: &mut Hierarchy<A>,
    setting: &Setting,
    requested: &Edit,
    log: &mut Vec<Undo<A>, A>,
) -> Result<Done, EditFault>
    requires fits { Fits setting.now (rows_of hierarchy.old) }
    ensures done { IfOk result (λ d. (t : List Row) → Stands hierarchy.old t
        → IsDone (Stands hierarchy.new) (edit setting.now t requested.now) d) }
    ensures logged { vec_len log.old < vec_capacity log.old
        → OnOk result ((f : ForestData) → RollsBack log.old.items hierarchy.old f
        → RollsBack log.new.items hierarchy.new f) }
    ensures refused { (r : DeclaredRefusal) → result ≡ Err (EditFault.Refused r)
        → (t : List Row) → Stands hierarchy.old t → edit setting.now t requested.now ≡ refused r }
    ensures unchanged { OnErr result (hierarchy.new ≡ hierarchy.old) }
    ensures log { OnErr result (log.new.items ≡ log.old.items) }
    ensures len { vec_len log.new ≤ vec_len log.old + 1 }
    ensures capacity { vec_capacity log.new ≡ vec_capacity log.old }
    ensures fits { Fits setting.now (rows_of hierarchy.new) }
{
    hierarchy.recall_invariant();
    recall_forms(requested);
    let has_room = log.len() < log.capacity();
    let (done, undo) = make(hierarchy, setting, requested, has_room)?;
    log_undo(log, undo);
    Ok(done)
}

/// Appends an entry to the log, if there is an entry and the log has room for the entry. Never
/// allocates.
fn log_undo<A: Allocator>(log: &mut Vec<Undo<A>, A>, undo: Option<Undo<A>>)
    ensures items { vec_len log.old < vec_capacity log.old
        → log.new.items ≡ log.old.items ++ as_list undo }
    ensures len { vec_len log.new ≤ vec_len log.old + 1 }
    ensures capacity { vec_capacity log.new ≡ vec_capacity log.old }
{
    let Some(undo) = undo else {
        return;
    };
    if log.len() < log.capacity() {
        log.push_reserved(undo);
    }
}

/// Returns the counts of a batch after one more edit. The contract requires that the counts are
/// small enough, so that no addition overflows.
fn with_done(dones: Dones, done: Done) -> Dones
    requires edits { dones.edits < MOST_EDITS }
    requires changed { dones.changed ≤ dones.edits }
    requires made { dones.made ≤ dones.edits * 65535 }
    ensures sum { result ≡ with_done dones done.changed done.made }
    ensures edits { result.edits ≡ dones.edits + 1 }
    ensures changed { result.changed ≤ dones.changed + 1 }
    ensures made { result.made ≤ dones.made + 65535 }
{
    let changed = if done.changed {
        dones.changed + 1
    } else {
        dones.changed
    };
    Dones {
        edits: dones.edits + 1,
        changed,
        made: dones.made + u32::from(done.made),
    }
}
