//! Applies the edit `AddBucket`: creates an empty bucket, which becomes the last of the roots.

ghost use Rattle.std.specs.Prelude.{◌≡◌, List, Some, [], ◌∷◌, IfOk, IfErr};
ghost use Rattle.crush_model.specs.Table.{Row, free_ids};
ghost use Rattle.crush_model.specs.Forest.{rows_of};
ghost use Rattle.crush_model.specs.Stands.{Stands};
ghost use Rattle.crush_edits.specs.declared.edit.Edit.TheVariants.{AddBucket};
ghost use Rattle.crush_edits.specs.Edit.{edit, refusal};
ghost use Rattle.crush_edits.specs.Fits.{Fits};
ghost use Rattle.crush_apply.specs.Alone.{CanAddBucket};
ghost use Rattle.crush_apply.specs.UndoLog.{AnswersLogged};

use crate::addition::add_logged;
use crate::route::empty_bucket;
use crate::undo_log::Undo;
use crush_edits::{Done, EditFault, Refusal, Setting};
use crush_hierarchy::Hierarchy;
use crush_tree::Place;
use crush_units::limits::MOST_BUCKETS;
use crush_units::{BucketId, Name, TypeId};
use std::alloc::{Allocator, Global};

/// Returns the number of the new bucket's type. If the edit must be refused, returns the refusal.
fn check_add<A: Allocator>(
    hierarchy: &Hierarchy<A>,
    setting: &Setting,
    name: &Name<Global>,
    kind: &Name<Global>,
) -> Result<TypeId, Refusal>
    ensures can { IfOk result (λ k. (t : List Row) → Stands hierarchy.now t
        → CanAddBucket setting.now t name.now kind.now k) }
    ensures refused { IfErr result (λ r. (t : List Row) → Stands hierarchy.now t
        → refusal setting.now t (AddBucket name.now kind.now) ≡ Some r) }
{
    let Some(number) = setting.kind_number(kind.as_bytes()) else {
        return Err(Refusal::NoSuchType);
    };
    if hierarchy.id_of(name.as_str()).is_some() {
        return Err(Refusal::NameTaken);
    }
    if number.number() == 0 {
        return Err(Refusal::WrongType);
    }
    if hierarchy.counts().buckets >= MOST_BUCKETS {
        return Err(Refusal::NoRoom);
    }
    Ok(number)
}

/// Returns the bucket id nearest to 0 that is used neither as the id of a bucket nor as a class id.
fn first_free<A: Allocator>(hierarchy: &Hierarchy<A>) -> BucketId
    ensures { (t : List Row) → Stands hierarchy.now t → free_ids t 1 ≡ result ∷ [] }
{
    let Some(some) = BucketId::below_zero(1) else {
        unreachable!()
    };
    let mut ids = [some];
    hierarchy.free_ids(&mut ids);
    ids[0]
}

pub(crate) fn add_bucket<A: Allocator + Clone>(
    hierarchy: &mut Hierarchy<A>,
    setting: &Setting,
    name: &Name<Global>,
    kind: &Name<Global>,
) -> Result<(Done, Option<Undo<A>>), EditFault>
    requires { Fits setting.now (rows_of hierarchy.old) }
    ensures { AnswersLogged (λ t. edit setting.now t (AddBucket name.now kind.now))
        hierarchy.old hierarchy.new result }
{
    hierarchy.recall_invariant();
    let _form = name.as_bytes();
    let number = check_add(hierarchy, setting, name, kind)?;
    let id = first_free(hierarchy);
    let node = empty_bucket(hierarchy.allocator(), id, number, name)?;
    let addition = add_logged(hierarchy, Place::Root, node)?;
    let done = Done {
        changed: true,
        made: 1,
    };
    Ok((done, Some(Undo::Arrived { addition })))
}
