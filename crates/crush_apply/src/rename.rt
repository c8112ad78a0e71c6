//! Applies the edit `Rename`: gives a bucket another name.

ghost use Rattle.std.specs.Prelude.{◌≡◌, List, Some, IfOk, IfErr};
ghost use Rattle.crush_model.specs.Table.{Row};
ghost use Rattle.crush_model.specs.Stands.{Stands};
ghost use Rattle.crush_edits.specs.Setting.{SettingData};
ghost use Rattle.crush_edits.specs.declared.edit.Edit.TheVariants.{Rename};
ghost use Rattle.crush_edits.specs.Edit.{edit, refusal};
ghost use Rattle.crush_apply.specs.Alone.{CanRename};
ghost use Rattle.crush_apply.specs.UndoLog.{AnswersLogged};

use crate::undo_log::Undo;
use crush_edits::{Done, EditFault, Refusal};
use crush_hierarchy::Hierarchy;
use crush_units::{BucketId, ItemId, Name};
use std::alloc::{Allocator, Global};

/// Returns the bucket that is to be renamed. If the edit must be refused, returns the refusal.
fn check_rename<A: Allocator>(
    hierarchy: &Hierarchy<A>,
    from: &Name<Global>,
    to: &Name<Global>,
) -> Result<BucketId, Refusal>
    ensures can { IfOk result (λ b. (t : List Row) → Stands hierarchy.now t
        → CanRename t from.now to.now b) }
    ensures refused { IfErr result (λ r. (s : SettingData) (t : List Row) → Stands hierarchy.now t
        → refusal s t (Rename from.now to.now) ≡ Some r) }
{
    let holder = hierarchy.id_of(to.as_str());
    let Some(id) = hierarchy.id_of(from.as_str()) else {
        if holder.is_some() {
            return Err(Refusal::AlreadyRenamed);
        }
        return Err(Refusal::NoSuchItem);
    };
    if holder.is_some() {
        return Err(Refusal::NameTaken);
    }
    let ItemId::Bucket(bucket) = id else {
        return Err(Refusal::NotDirectory);
    };
    Ok(bucket)
}

pub(crate) fn rename<A: Allocator + Clone>(
    hierarchy: &mut Hierarchy<A>,
    from: &Name<Global>,
    to: &Name<Global>,
) -> Result<(Done, Option<Undo<A>>), EditFault>
    ensures { (s : SettingData) → AnswersLogged (λ t. edit s t (Rename from.now to.now))
        hierarchy.old hierarchy.new result }
{
    hierarchy.recall_invariant();
    let bucket = check_rename(hierarchy, from, to)?;
    let name = to.try_copy(hierarchy.allocator().clone()?)?;
    let _form = to.as_bytes();
    let old = hierarchy.replace_name(ItemId::Bucket(bucket), name)?;
    let done = Done {
        changed: true,
        made: 0,
    };
    Ok((done, Some(Undo::Renamed { bucket, old })))
}
