//! Walks a part of a map's tree: one item and all items below it, down to the buckets of a type.

ghost use Rattle.std.specs.Prelude.{◌≡◌, ◌<◌, ◌≤◌, ◌^◌, ◌∷◌, ◌++◌, [], ℕ, List, All, IfNone, IfOk, IfSome, None, Some, false, length, slice_index_or, map as each};
ghost use Rattle.crush_units.specs.declared.limits.TheConstants.{HEAVIEST_BUCKET};
ghost use Rattle.crush_nodes.specs.Classed.{class_sum_in};
ghost use Rattle.crush_nodes.specs.Seen.{items_of, node_id};
ghost use Rattle.crush_model.specs.Items.{size_of};
ghost use Rattle.crush_model.specs.Stands.{Stands};
ghost use Rattle.crush_model.specs.Table.{Row, kids, parent_of, row_of};
ghost use Rattle.crush_units.specs.Id.{same_id};
ghost use Rattle.crush_print.specs.WalkStep.{walk_step_data};
ghost use Rattle.crush_items.specs.SeenPart.{HasSteps};
ghost use Rattle.crush_items.specs.Tree.{WalkStepData, steps_at};
ghost use Rattle.crush_print.specs.ClassItems.{HasWeights};
ghost use Rattle.crush_print.specs.TreePart.{closed_by, cut, down_to, is_closed, part_steps, steps_under, whole_tree};

use crate::steps::{WalkStep, push_steps, walk};
use crush_map::CrushMap;
use crush_tree::Node;
use crush_units::{BucketId, ItemId, TypeId};
use std::alloc::{AllocError, Allocator, Global};

/// Which part of a map's tree is selected.
#[derive(Clone, Copy, Debug)]
pub struct TreePart {
    /// The item at the top of the part; `None` for the whole tree.
    pub under: Option<ItemId>,
    /// A type of buckets. If a bucket of the part has this type, the items below this bucket aren't
    /// in the part. If this is `None`, no items are left out.
    pub down_to: Option<TypeId>,
}

impl TreePart {
    /// Returns the part that is the whole tree.
    pub fn whole() -> TreePart
        ensures { result ≡ whole_tree }
    {
        TreePart {
            under: None,
            down_to: None,
        }
    }
}

/// Returns the items of a part of a map, in the order of the map's tree.
///
/// If `under` is the id of an item, the result has this item, with the depth 0, and all items below
/// it. If the map doesn't have this item, the result is empty. If `under` is `None`, the result has
/// the items that [`walk`] returns. If `down_to` is a type, the result leaves out the items below
/// those of its buckets that have this type. The function fails only if memory runs out. If `under`
/// is an id, the function visits only this item, its siblings and the items below it.
#[tactic(auto, unfolding(crate::specs::TreePart::part_steps))]
pub fn walk_part<A: Allocator>(
    alloc: Global,
    map: &CrushMap<A>,
    part: TreePart,
) -> Result<Vec<WalkStep<'_, A>>, AllocError>
    ensures { IfOk result (λ steps. (t : List Row) → Stands map.now.forest t
        → each walk_step_data steps.items ≡ part_steps part t) }
{
    let steps = walk_under(alloc, map, part.under)?;
    cut(alloc, steps, part.down_to)
}

/// Returns the item and all items below it. If `under` is `None`, returns all items of the map.
pub(crate) fn walk_under<A: Allocator>(
    alloc: Global,
    map: &CrushMap<A>,
    under: Option<ItemId>,
) -> Result<Vec<WalkStep<'_, A>>, AllocError>
    ensures { IfOk result (λ steps. (t : List Row) → Stands map.now.forest t
        → each walk_step_data steps.items ≡ steps_under under t) }
{
    match under {
        Some(id) => walk_item(alloc, map, &id),
        None => walk(alloc, map),
    }
}

/// Returns the item, with the depth 0, and all items below it.
fn walk_item<'a, A: Allocator>(
    alloc: Global,
    map: &'a CrushMap<A>,
    id: &ItemId,
) -> Result<Vec<WalkStep<'a, A>>, AllocError>
    ensures { IfOk result (λ steps. (t : List Row) → Stands map.now.forest t
        → each walk_step_data steps.items ≡ steps_at t (length t) 0 id.now) }
{
    let mut steps = Vec::new(alloc);
    let nodes = beside(map, id);
    let parent = map.parent(*id);
    match place_of(nodes, id) {
        Some(place) => {
            push_steps(&nodes[place], 0, parent, &mut steps)?;
            Ok(steps)
        }
        None => Ok(steps),
    }
}

/// Returns the siblings of the item with this id. If the map has the item, it is among them.
pub(crate) fn beside<'a, A: Allocator>(map: &'a CrushMap<A>, id: &ItemId) -> &'a [Node<A>]
    ensures few { size_of (items_of result.now) < 2 ^ 31 }
    ensures steps { (t : List Row) → Stands map.now.forest t
        → All (HasSteps t (parent_of t id.now)) result.now }
    ensures weights { (t : List Row) (c : List ℕ) → Stands map.now.forest t
        → All (HasWeights t c) result.now }
    ensures light { (c : List ℕ)
        → All (λ node. class_sum_in c (items_of (node ∷ [])) ≤ HEAVIEST_BUCKET) result.now }
    ensures others { (t : List Row) → Stands map.now.forest t
        → All (λ node. same_id (node_id node) id.now ≡ false) result.now
        → steps_at t (length t) 0 id.now ≡ [] }
{
    match map.parent(*id) {
        Some(bucket) => nodes_in(map, bucket),
        None => tops_like(map, id),
    }
}

/// Returns the items of a bucket, or no items if the map doesn't have the bucket.
fn nodes_in<A: Allocator>(map: &CrushMap<A>, bucket: BucketId) -> &[Node<A>]
    ensures few { size_of (items_of result.now) < 2 ^ 31 }
    ensures steps { (t : List Row) → Stands map.now.forest t
        → All (HasSteps t (Some bucket)) result.now }
    ensures weights { (t : List Row) (c : List ℕ) → Stands map.now.forest t
        → All (HasWeights t c) result.now }
    ensures light { (c : List ℕ)
        → All (λ node. class_sum_in c (items_of (node ∷ [])) ≤ HEAVIEST_BUCKET) result.now }
    ensures ids { (t : List Row) → Stands map.now.forest t
        → each node_id result.now ≡ kids t bucket }
{
    map.forest().recall_invariant();
    match map.items(bucket) {
        Some(items) => items,
        None => &[],
    }
}

/// Returns the unplaced devices if `id` is the id of a device, and the roots if it is the id of a
/// bucket.
fn tops_like<'a, A: Allocator>(map: &'a CrushMap<A>, id: &ItemId) -> &'a [Node<A>]
    ensures few { size_of (items_of result.now) < 2 ^ 31 }
    ensures steps { (t : List Row) → Stands map.now.forest t
        → All (HasSteps t None) result.now }
    ensures weights { (t : List Row) (c : List ℕ) → Stands map.now.forest t
        → All (HasWeights t c) result.now }
    ensures light { (c : List ℕ)
        → All (λ node. class_sum_in c (items_of (node ∷ [])) ≤ HEAVIEST_BUCKET) result.now }
    ensures others { (t : List Row) → Stands map.now.forest t → parent_of t id.now ≡ None
        → All (λ node. same_id (node_id node) id.now ≡ false) result.now
        → row_of t id.now ≡ None }
{
    let forest = map.forest();
    forest.recall_invariant();
    match id {
        ItemId::Device(_) => forest.unplaced(),
        ItemId::Bucket(_) => forest.roots(),
    }
}

/// Returns the index of the node with this id, or `None` if none of the nodes has it.
pub(crate) fn place_of<A: Allocator>(nodes: &[Node<A>], id: &ItemId) -> Option<usize>
    ensures within { IfSome result (λ k. k < length nodes.now) }
    ensures id { IfSome result (λ k. (d : _) → node_id (slice_index_or nodes.now k d) ≡ id.now) }
    ensures none { IfNone result
        (All (λ node. same_id (node_id node) id.now ≡ false) nodes.now) }
{
    for (place, node) in nodes.iter().enumerate() {
        if node.id().is_same(*id) {
            return Some(place);
        }
    }
    None
}

/// Returns the steps, except for those below a bucket of the type `kind`. If `kind` is `None`,
/// returns all steps.
fn cut<A: Allocator>(
    alloc: Global,
    steps: Vec<WalkStep<'_, A>>,
    kind: Option<TypeId>,
) -> Result<Vec<WalkStep<'_, A>>, AllocError>
    ensures { IfOk result (λ kept. each walk_step_data kept.items ≡ cut kind (each walk_step_data steps.entry.items)) }
{
    match kind {
        Some(kind) => steps_down_to(alloc, steps.as_slice(), kind),
        None => Ok(steps),
    }
}

fn steps_down_to<'a, A: Allocator>(
    alloc: Global,
    steps: &[WalkStep<'a, A>],
    kind: TypeId,
) -> Result<Vec<WalkStep<'a, A>>, AllocError>
    ensures { IfOk result (λ kept. each walk_step_data kept.items
        ≡ down_to kind None (each walk_step_data steps.now)) }
{
    let mut kept = Vec::new(alloc);
    let mut closed = None;
    for step in steps {
        closed = keep_step(step, kind, closed, &mut kept)?;
    }
    Ok(kept)
}

/// Appends the step to `kept`, unless the step is below a bucket of the type `kind`. `closed` is
/// the depth of the last step in `kept` if its item has the type `kind`, and otherwise `None`.
/// Returns the value of `closed` for the next step.
fn keep_step<'a, A: Allocator>(
    step: &WalkStep<'a, A>,
    kind: TypeId,
    closed: Option<u32>,
    kept: &mut Vec<WalkStep<'a, A>>,
) -> Result<Option<u32>, AllocError>
    ensures { IfOk result (λ now. (rest : List WalkStepData)
        → each walk_step_data kept.old.items ++ down_to kind closed (walk_step_data step.now ∷ rest)
        ≡ each walk_step_data kept.new.items ++ down_to kind now rest) }
{
    if is_closed(closed, step) {
        return Ok(closed);
    }
    let Ok(()) = kept.push(copy_of(step)) else {
        return Err(AllocError);
    };
    Ok(closed_by(kind, step))
}

fn copy_of<'a, A: Allocator>(step: &WalkStep<'a, A>) -> WalkStep<'a, A>
    ensures { walk_step_data result ≡ walk_step_data step.now }
{
    WalkStep {
        depth: step.depth,
        parent: step.parent,
        node: step.node,
    }
}

/// Whether the step is deeper than `closed`, which is the depth of the bucket below which steps are
/// being left out. A deeper step is below this bucket. If `closed` is `None`, the result is false.
pub(crate) fn is_closed<A: Allocator>(closed: Option<u32>, step: &WalkStep<'_, A>) -> bool
    ensures { result ≡ is_closed closed (walk_step_data step.now) }
{
    match closed {
        Some(depth) => depth < step.depth,
        None => false,
    }
}

/// Returns the step's depth if its item has the type `kind`, and `None` otherwise.
pub(crate) fn closed_by<A: Allocator>(kind: TypeId, step: &WalkStep<'_, A>) -> Option<u32>
    ensures { result ≡ closed_by kind (walk_step_data step.now) }
{
    if step.view().kind.number() == kind.number() {
        Some(step.depth)
    } else {
        None
    }
}
