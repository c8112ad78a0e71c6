//! Applies the edit `Remove`: removes a device, or an empty bucket that no rule takes.

ghost use Rattle.std.specs.Prelude.{◌≡◌, List, Some, IfOk, IfErr, true, false};
ghost use Rattle.crush_units.specs.declared.id.ItemId.TheVariants.{Bucket};
ghost use Rattle.crush_model.specs.Forest.{rows_of};
ghost use Rattle.crush_model.specs.Table.{Row, is_there};
ghost use Rattle.crush_model.specs.Stands.{Stands};
ghost use Rattle.crush_edits.specs.declared.edit.Edit.TheVariants.{Remove};
ghost use Rattle.crush_edits.specs.Edit.{edit, refusal};
ghost use Rattle.crush_edits.specs.Making.{holds_items};
ghost use Rattle.crush_hierarchy.specs.Removing.{StandsAlone};
ghost use Rattle.crush_apply.specs.Alone.{CanRemove};
ghost use Rattle.crush_apply.specs.UndoLog.{AnswersLoggedIf};

use crate::undo_log::Undo;
use crush_edits::{Done, EditFault, Refusal, Setting};
use crush_hierarchy::Hierarchy;
use crush_units::{BucketId, ItemId, Name};
use std::alloc::{Allocator, Global};

fn holds_items<A: Allocator>(hierarchy: &Hierarchy<A>, bucket: BucketId) -> bool
    requires { is_there (rows_of hierarchy.now) (Bucket bucket) ≡ true }
    ensures holds { (t : List Row) → Stands hierarchy.now t → result ≡ holds_items t bucket }
    ensures alone { result ≡ false → StandsAlone (Bucket bucket) hierarchy.now }
{
    hierarchy.recall_invariant();
    let Some(items) = hierarchy.items(bucket) else {
        unreachable!()
    };
    !items.is_empty()
}

/// Returns the item that is to be removed. If the edit must be refused, returns the refusal.
fn check_remove<A: Allocator>(
    hierarchy: &Hierarchy<A>,
    setting: &Setting,
    name: &Name<Global>,
) -> Result<ItemId, Refusal>
    ensures can { IfOk result (λ i. (t : List Row) → Stands hierarchy.now t
        → CanRemove setting.now t name.now i) }
    ensures alone { IfOk result (λ i. StandsAlone i hierarchy.now) }
    ensures refused { IfErr result (λ r. (t : List Row) → Stands hierarchy.now t
        → refusal setting.now t (Remove name.now) ≡ Some r) }
{
    hierarchy.recall_invariant();
    let Some(id) = hierarchy.id_of(name.as_str()) else {
        return Err(Refusal::NoSuchItem);
    };
    let ItemId::Bucket(bucket) = id else {
        return Ok(id);
    };
    if holds_items(hierarchy, bucket) {
        return Err(Refusal::NotEmpty);
    }
    if setting.takes(bucket) {
        return Err(Refusal::InUse);
    }
    Ok(id)
}

/// Removes the item that has the name. If `logged` is true, the entry for the undo log keeps the
/// item, so that the item can be put back. Memory is allocated only for this entry.
pub(crate) fn remove<A: Allocator>(
    hierarchy: &mut Hierarchy<A>,
    setting: &Setting,
    name: &Name<Global>,
    logged: bool,
) -> Result<(Done, Option<Undo<A>>), EditFault>
    ensures { AnswersLoggedIf logged false (λ t. edit setting.now t (Remove name.now))
        hierarchy.old hierarchy.new result }
{
    hierarchy.recall_invariant();
    let id = check_remove(hierarchy, setting, name)?;
    let done = Done {
        changed: true,
        made: 0,
    };
    if logged {
        let removed = hierarchy.remove_logged(id)?;
        return Ok((done, Some(Undo::Removed { removed })));
    }
    let Some(_) = hierarchy.detach(id) else {
        unreachable!()
    };
    Ok((done, None))
}
