//! Applies the edit `ReweightSubtree`: sets the weight of all devices below a bucket.

ghost use Rattle.std.specs.Prelude.{◌≡◌, ℕ, List, Some, IfOk, IfErr, OnErr, true, false};
ghost use Rattle.crush_units.specs.declared.id.ItemId.TheVariants.{Bucket};
ghost use Rattle.crush_model.specs.Forest.{ForestData, rows_of};
ghost use Rattle.crush_model.specs.Table.{Row, is_there};
ghost use Rattle.crush_model.specs.Stands.{Stands};
ghost use Rattle.crush_tree.specs.NewWeights.{ReplacesWeights};
ghost use Rattle.crush_edits.specs.Setting.{SettingData};
ghost use Rattle.crush_edits.specs.declared.edit.Edit.TheVariants.{ReweightSubtree};
ghost use Rattle.crush_edits.specs.Edit.{edit, refusal};
ghost use Rattle.crush_apply.specs.Answered.{KeepsRooms};
ghost use Rattle.crush_apply.specs.UndoLog.{AnswersLoggedIf, UndoesAny};
ghost use Rattle.crush_apply.specs.Weighed.{CanReweightSubtree};

use crate::reweight::item_to_weigh;
use crate::undo_log::Undo;
use crush_edits::{Done, EditFault, Refusal};
use crush_hierarchy::Hierarchy;
use crush_tree::weight_runs;
use crush_units::{BucketId, ItemId, Name, Weight};
use std::alloc::{AllocError, Allocator, Global};

/// Returns the bucket that has the name. If the edit must be refused, returns the first refusal.
/// The caller must still test for the refusal `SumTooLarge`.
fn check_subtree<A: Allocator>(
    hierarchy: &Hierarchy<A>,
    name: &Name<Global>,
    weight: Weight,
) -> Result<BucketId, Refusal>
    ensures can { IfOk result (λ b. (t : List Row) → Stands hierarchy.now t
        → CanReweightSubtree t name.now weight b) }
    ensures refused { IfErr result (λ r. (s : SettingData) (t : List Row) → Stands hierarchy.now t
        → refusal s t (ReweightSubtree name.now weight) ≡ Some r) }
{
    let id = item_to_weigh(hierarchy, name, weight)?;
    let ItemId::Bucket(bucket) = id else {
        return Err(Refusal::NotABucket);
    };
    Ok(bucket)
}

/// Sets the weight of all devices below the bucket that has the name. If `logged` is true, the
/// entry for the undo log keeps the old weights. Memory is allocated only for this entry.
pub(crate) fn reweight_subtree<A: Allocator + Clone>(
    hierarchy: &mut Hierarchy<A>,
    name: &Name<Global>,
    weight: Weight,
    logged: bool,
) -> Result<(Done, Option<Undo<A>>), EditFault>
    ensures answers { (s : SettingData) → AnswersLoggedIf logged false
        (λ t. edit s t (ReweightSubtree name.now weight)) hierarchy.old hierarchy.new result }
    ensures rooms { KeepsRooms hierarchy.old hierarchy.new }
{
    hierarchy.recall_invariant();
    let bucket = check_subtree(hierarchy, name, weight)?;
    let undo = weights_below(hierarchy, bucket, logged)?;
    let Some(change) = hierarchy.replace_subtree(bucket, weight) else {
        return Err(EditFault::Refused(Refusal::SumTooLarge));
    };
    let done = Done {
        changed: change.other,
        made: 0,
    };
    Ok((done, undo))
}

/// If `logged` is true, returns an undo entry with the weights that the devices below the bucket
/// have now. Otherwise returns `None`.
fn weights_below<A: Allocator + Clone>(
    hierarchy: &Hierarchy<A>,
    bucket: BucketId,
    logged: bool,
) -> Result<Option<Undo<A>>, AllocError>
    requires { is_there (rows_of hierarchy.now) (Bucket bucket) ≡ true }
    ensures back { logged ≡ true → IfOk result (λ undo. (w : ℕ) (g : ForestData) (change : _)
        → ReplacesWeights bucket w hierarchy.now g (Some change)
        → UndoesAny undo g hierarchy.now) }
    ensures memory { OnErr result (logged ≡ true) }
{
    if !logged {
        return Ok(None);
    }
    hierarchy.recall_invariant();
    let Some(items) = hierarchy.items(bucket) else {
        unreachable!()
    };
    let runs = weight_runs(hierarchy.allocator().clone()?, items)?;
    Ok(Some(Undo::Weights { bucket, runs }))
}
