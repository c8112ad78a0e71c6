//! Applies the edit `Swap`: two buckets exchange their items and their names.

ghost use Rattle.std.specs.Prelude.{◌≡◌, ◌≢◌, List, Some, IfOk, IfErr, Err};
ghost use Rattle.crush_model.specs.Table.{Row};
ghost use Rattle.crush_model.specs.Stands.{Stands};
ghost use Rattle.crush_edits.specs.Setting.{SettingData};
ghost use Rattle.crush_edits.specs.declared.edit.Edit.TheVariants.{Swap};
ghost use Rattle.crush_edits.specs.Edit.{edit, refusal};
ghost use Rattle.crush_apply.specs.Alone.{CanSwap};
ghost use Rattle.crush_apply.specs.UndoLog.{AnswersLogged};

use crate::undo_log::Undo;
use crush_edits::{Done, EditFault, Refusal};
use crush_hierarchy::Hierarchy;
use crush_units::{BucketId, ItemId, Name};
use std::alloc::{Allocator, Global};

/// Returns the two buckets that have the names. If the swap must be refused, returns the refusal.
fn check_swap<A: Allocator>(
    hierarchy: &Hierarchy<A>,
    a: &Name<Global>,
    b: &Name<Global>,
) -> Result<(BucketId, BucketId), Refusal>
    ensures can { IfOk result (λ pair. (t : List Row) → Stands hierarchy.now t
        → CanSwap t a.now b.now pair.0 pair.1) }
    ensures refused { IfErr result (λ r. (s : SettingData) (t : List Row) → Stands hierarchy.now t
        → refusal s t (Swap a.now b.now) ≡ Some r) }
{
    hierarchy.recall_invariant();
    let Some(one) = hierarchy.id_of(a.as_str()) else {
        return Err(Refusal::NoSuchItem);
    };
    let Some(other) = hierarchy.id_of(b.as_str()) else {
        return Err(Refusal::NoSuchItem);
    };
    let ItemId::Bucket(first) = one else {
        return Err(Refusal::NotABucket);
    };
    let ItemId::Bucket(second) = other else {
        return Err(Refusal::NotABucket);
    };
    if hierarchy.contains(first, other) {
        return Err(Refusal::Nested);
    }
    if hierarchy.contains(second, one) {
        return Err(Refusal::Nested);
    }
    if !hierarchy.fits_swap(first, second) {
        return Err(Refusal::SumTooLarge);
    }
    Ok((first, second))
}

pub(crate) fn swap<A: Allocator>(
    hierarchy: &mut Hierarchy<A>,
    a: &Name<Global>,
    b: &Name<Global>,
) -> Result<(Done, Option<Undo<A>>), EditFault>
    ensures answers { (s : SettingData) → AnswersLogged (λ t. edit s t (Swap a.now b.now))
        hierarchy.old hierarchy.new result }
    ensures memory { result ≢ Err EditFault.OutOfMemory }
{
    hierarchy.recall_invariant();
    let (first, second) = check_swap(hierarchy, a, b)?;
    hierarchy.swap(first, second);
    let done = Done {
        changed: true,
        made: 0,
    };
    let undo = Undo::Exchange { first, second };
    Ok((done, Some(undo)))
}
