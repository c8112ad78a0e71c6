//! Moves items within the hierarchy, and moves them back when a batch is undone.

ghost use Rattle.std.specs.Prelude.{◌≡◌};
ghost use Rattle.crush_model.specs.Forest.{ForestData};
ghost use Rattle.crush_hierarchy.specs.Placed.{CanPutInto, Puts};
ghost use Rattle.crush_apply.specs.UndoSteps.{GoesBack, CanGoBack};

use crush_hierarchy::Hierarchy;
use crush_tree::Stand;
use crush_units::{BucketId, ItemId, Weight};
use std::alloc::Allocator;

/// The place and position that an item had before it was moved, and the weight that it had.
#[derive(Clone, Copy)]
pub(crate) struct OldStand {
    item: ItemId,
    stand: Stand,
    weight: Weight,
}

/// Moves an item, with everything below it, to the end of a bucket. Returns the place, the position
/// and the weight that the item had before.
///
/// The bucket must have room; the call allocates nothing. If `weight` is `Some` and the item is a
/// device, the device gets this weight.
pub(crate) fn move_into<A: Allocator>(
    hierarchy: &mut Hierarchy<A>,
    id: ItemId,
    bucket: BucketId,
    weight: Option<Weight>,
) -> OldStand
    requires { CanPutInto id bucket weight hierarchy.old }
    ensures puts { Puts id bucket weight hierarchy.old hierarchy.new }
    ensures back { GoesBack result hierarchy.new hierarchy.old }
{
    hierarchy.recall_invariant();
    let id = &id;
    let (stand, weight) = hierarchy.put(*id, bucket, weight);
    OldStand {
        item: *id,
        stand,
        weight,
    }
}

/// Undoes [`move_into`]: puts the item back to its old place and position, with its old weight.
pub(crate) fn move_back<A: Allocator>(hierarchy: &mut Hierarchy<A>, old_stand: OldStand)
    requires { CanGoBack old_stand hierarchy.old }
    ensures { (f : ForestData) → GoesBack old_stand hierarchy.old f → hierarchy.new ≡ f }
{
    let Stand { place, position } = old_stand.stand;
    hierarchy.put_back(old_stand.item, place, position, Some(old_stand.weight));
}
