//! The undo log of a batch. Each entry of the log can undo one edit of the batch that was applied.

ghost use Rattle.std.specs.Prelude.{◌≡◌};
ghost use Rattle.crush_model.specs.Forest.{ForestData};
ghost use Rattle.crush_apply.specs.UndoLog.{done_alone, Undoes, RollsBack, CanUndo, CanRollBack};

use crate::addition::{Addition, undo_addition};
use crate::old_stand::{OldStand, move_back};
use crush_edits::{Done, EditFault};
use crush_hierarchy::{Hierarchy, OldName, RemovedItem};
use crush_tree::WeightRun;
use crush_units::{BucketId, DeviceId, ItemId, Name, Weight};
use std::alloc::Allocator;

/// An entry of the undo log, which says how one edit is undone. Undoing an edit can't fail. The
/// index may need more memory to restore a removed item or an old name, but for nothing else. The
/// index then first tries to allocate this memory, and if this fails, it uses memory that was
/// allocated when the item was removed or renamed.
#[derive(Drop)]
pub(crate) enum Undo<A: Allocator> {
    /// The device gets back its old weight.
    Weight {
        device: DeviceId,
        weight: Weight,
    },
    /// The device gets back its old class. If it had no class, its class is removed.
    Class {
        device: DeviceId,
        class: Option<Name<A>>,
    },
    /// The devices below the bucket get back their old weights.
    Weights {
        bucket: BucketId,
        runs: Vec<WeightRun, A>,
    },
    /// The two buckets are swapped again.
    Exchange {
        first: BucketId,
        second: BucketId,
    },
    /// The removed item is put back.
    Removed {
        removed: RemovedItem<A>,
    },
    /// The bucket gets back its old name.
    Renamed {
        bucket: BucketId,
        old: OldName<A>,
    },
    /// The item that was added is removed again, together with the new buckets that were created
    /// for it. The place gets back its old vector if a larger one has replaced it.
    Arrived {
        addition: Addition<A>,
    },
    /// The item that was moved is put back to its old place and position, with its old weight. Then
    /// the addition that was made for the move is undone: new buckets are removed, and if the
    /// vector of a place was replaced, the place gets back its old vector.
    Moved {
        old_stand: OldStand,
        addition: Addition<A>,
    },
}

/// Returns the result of an edit without the entry for the undo log.
pub(crate) fn done_alone<A: Allocator>(
    answer: Result<(Done, Option<Undo<A>>), EditFault>,
) -> Result<Done, EditFault>
    ensures { result ≡ done_alone answer }
{
    match answer {
        Ok((done, _undo)) => Ok(done),
        Err(fault) => Err(fault),
    }
}

fn undo_one<A: Allocator>(hierarchy: &mut Hierarchy<A>, undo: Undo<A>)
    requires { CanUndo undo hierarchy.old }
    ensures { (f : ForestData) → Undoes undo hierarchy.old f → hierarchy.new ≡ f }
{
    hierarchy.recall_invariant();
    match undo {
        Undo::Weight { device, weight } => {
            let _weight = hierarchy.replace_weight(device, weight);
        }
        Undo::Class { device, class } => {
            let _class = hierarchy.set_class(device, class);
        }
        Undo::Weights { bucket, runs } => hierarchy.give_weights(bucket, runs),
        Undo::Exchange { first, second } => hierarchy.swap(first, second),
        Undo::Removed { removed } => hierarchy.restore(removed),
        Undo::Renamed { bucket, old } => hierarchy.restore_name(ItemId::Bucket(bucket), old),
        Undo::Arrived { addition } => undo_addition(hierarchy, addition),
        Undo::Moved {
            old_stand,
            addition,
        } => {
            move_back(hierarchy, old_stand);
            undo_addition(hierarchy, addition);
        }
    }
}

/// Undoes all edits of the log, beginning with the last edit.
pub(crate) fn roll_back<A: Allocator>(hierarchy: &mut Hierarchy<A>, mut log: Vec<Undo<A>, A>)
    requires { CanRollBack log.items hierarchy.old }
    ensures { (f : ForestData) → RollsBack log.items hierarchy.old f → hierarchy.new ≡ f }
{
    while let Some(undo) = log.pop() {
        undo_one(hierarchy, undo);
    }
}
