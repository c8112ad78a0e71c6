//! Adds a new item to a place of the hierarchy, and removes the item again when a batch is undone.
//! A *place* is a bucket, the list of roots, or the list of unplaced devices.

ghost use Rattle.std.specs.Prelude.{◌≡◌, ◌∷◌, [], IfOk};
ghost use Rattle.crush_model.specs.Forest.{ForestData};
ghost use Rattle.crush_nodes.specs.Seen.{items_of};
ghost use Rattle.crush_hierarchy.specs.Placed.{Adds, CanAdd};
ghost use Rattle.crush_apply.specs.UndoSteps.{UndoesAddition, GetsAnyMemory, LeavesAny, CanUndoAddition, CanGetMemory, CanLeave};

use crush_hierarchy::Hierarchy;
use crush_tree::{Node, Place};
use crush_units::ItemId;
use std::alloc::{AllocError, Allocator};

/// What was added to a place: an item at the end of the place, or only room for one more item.
#[derive(Drop)]
pub(crate) struct Addition<A: Allocator> {
    pub(crate) place: Place,
    /// The id of the item, or `None` if only room was added.
    pub(crate) item: Option<ItemId>,
    /// The old vector of the place, if the place was full and a larger vector has replaced the old
    /// one. Otherwise `None`.
    pub(crate) memory: Option<Vec<Node<A>, A>>,
}

/// Adds a new item, with everything below it, at the end of a place. Returns an error if memory
/// runs out; then the hierarchy is unchanged.
pub(crate) fn add_logged<A: Allocator + Clone>(
    hierarchy: &mut Hierarchy<A>,
    place: Place,
    node: Node<A>,
) -> Result<Addition<A>, AllocError>
    requires { CanAdd place (items_of (node ∷ [])) hierarchy.old }
    ensures adds { Adds place (items_of (node ∷ [])) hierarchy.old hierarchy.new result }
    ensures goes { IfOk result (λ addition. UndoesAddition addition hierarchy.new hierarchy.old) }
{
    let place = &place;
    let item = node.id();
    let memory = hierarchy.grow_buffer(*place)?;
    if let Err(failed) = hierarchy.add(*place, node) {
        restore_buffer(hierarchy, *place, memory);
        return Err(failed);
    }
    Ok(Addition {
        place: *place,
        item: Some(item),
        memory,
    })
}

/// Undoes an addition: first removes the item if an item was added, and then gives the place its
/// old vector back if the vector was replaced.
pub(crate) fn undo_addition<A: Allocator>(hierarchy: &mut Hierarchy<A>, addition: Addition<A>)
    requires { CanUndoAddition addition hierarchy.old }
    ensures { (f : ForestData) → UndoesAddition addition hierarchy.old f → hierarchy.new ≡ f }
{
    let Addition {
        place,
        item,
        memory,
    } = addition;
    detach_if_any(hierarchy, item);
    restore_buffer(hierarchy, place, memory);
}

fn detach_if_any<A: Allocator>(hierarchy: &mut Hierarchy<A>, item: Option<ItemId>)
    requires { CanLeave item hierarchy.old }
    ensures { (f : ForestData) → LeavesAny item hierarchy.old f → hierarchy.new ≡ f }
{
    hierarchy.recall_invariant();
    if let Some(item) = item {
        drop(hierarchy.detach(item));
    }
}

fn restore_buffer<A: Allocator>(
    hierarchy: &mut Hierarchy<A>,
    place: Place,
    memory: Option<Vec<Node<A>, A>>,
)
    requires { CanGetMemory place memory hierarchy.old }
    ensures { (f : ForestData) → GetsAnyMemory place memory hierarchy.old f → hierarchy.new ≡ f }
{
    if let Some(items) = memory {
        let _larger = hierarchy.replace_buffer(place, items);
    }
}
