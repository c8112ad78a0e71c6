//! Creates a bucket that the map doesn't have.

ghost use Rattle.std.specs.Prelude.{OnOk};
ghost use Rattle.crush_plan.specs.Draft.{GoesOn};

use crate::draft::Draft;
use crate::goal::PlanGoal;
use crush_units::{BucketId, ItemId};
use std::alloc::{AllocError, Allocator};

/// Creates a bucket with the name and the type that the bucket `bucket` has in the wanted map. The
/// types are matched by their names, because the two maps may number their types differently.
pub(crate) fn make_bucket<A: Allocator + Clone, B: Allocator>(
    draft: &mut Draft<A>,
    goal: &PlanGoal<'_, A, B>,
    bucket: BucketId,
) -> Result<(), AllocError>
    ensures { OnOk result (GoesOn goal.now draft.old draft.new) }
{
    let Some(there) = goal.there.view(ItemId::Bucket(bucket)) else {
        return Ok(());
    };
    match goal.there.setting().kind_name(there.kind) {
        Some(kind) => draft.add_bucket(goal, there.name.as_bytes(), kind.as_bytes()),
        None => Ok(()),
    }
}
