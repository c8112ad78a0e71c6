//! Computes the weight that the devices of one class have together, at each item of a map's tree.

ghost use Rattle.std.specs.Prelude.{◌≡◌, ◌+◌, ◌≤◌, ◌∷◌, ◌++◌, [], List, OnOk, IfOk, All, None, Some, flat_map, is_some, unwrap_or, map as each};
ghost use Rattle.std.specs.Option.{option_eq};
ghost use Rattle.crush_units.specs.declared.limits.TheConstants.{HEAVIEST_BUCKET};
ghost use Rattle.crush_model.specs.Stands.{Stands};
ghost use Rattle.crush_model.specs.Table.{Row};
ghost use Rattle.crush_nodes.specs.Classed.{class_sum_in};
ghost use Rattle.crush_nodes.specs.Seen.{items_of, leaf_data};
ghost use Rattle.crush_items.specs.Tree.{tree_rows};
ghost use Rattle.crush_print.specs.ClassItems.{class_weight_in, class_weights_in, leaf_weight, step_weight, together};
ghost use Rattle.crush_print.specs.ClassWeights.{is_class};
ghost use Rattle.crush_print.specs.TreePart.{steps_under};

use crate::part::{beside, place_of};
use crush_items::nodes_in_order;
use crush_map::CrushMap;
use crush_tree::{Bucket, Leaf, Node};
use crush_units::{ItemId, Weight};
use std::alloc::{AllocError, Allocator, Global};

/// Whether a device of the map has the class. Visits the items one after the other until it finds
/// such a device.
pub fn has_class<A: Allocator>(map: &CrushMap<A>, class: &str) -> bool
    ensures { (t : List Row) → Stands map.now.forest t → result ≡ is_class t class.now }
{
    let forest = map.forest();
    forest.recall_invariant();
    let class = class.as_bytes();
    is_among(forest.unplaced(), class) || is_among(forest.roots(), class)
}

/// Whether one of the nodes, or an item below one of them, is a device of the class.
fn is_among<A: Allocator>(nodes: &[Node<A>], class: &[u8]) -> bool
    ensures { result ≡ is_some (class_weight_in class.now (items_of nodes.now)) }
{
    for node in nodes {
        if is_in(node, class) {
            return true;
        }
    }
    false
}

/// Whether the node is a device of the class, or has such a device below it.
fn is_in<A: Allocator>(node: &Node<A>, class: &[u8]) -> bool
    ensures { result ≡ is_some (class_weight_in class.now (items_of (node.now ∷ []))) }
{
    match node {
        Node::Device(leaf) => leaf_weight(leaf, class).is_some(),
        Node::Bucket(bucket) => {
            let bucket: &Bucket<A> = bucket;
            let items = bucket.items.as_slice();
            for item in items {
                if is_in(item, class) {
                    return true;
                }
            }
            false
        }
    }
}

/// Returns a weight for each item of the map, in the order of the map's tree. The weight is the sum
/// of the weights of all devices of the class that are the item itself or below it. If there is no
/// such device, the weight is `None`. The function visits each item once, and fails only if memory
/// runs out.
pub fn class_weights<A: Allocator>(
    alloc: Global,
    map: &CrushMap<A>,
    class: &str,
) -> Result<Vec<Option<Weight>>, AllocError>
    ensures { IfOk result (λ weights. (t : List Row) → Stands map.now.forest t
        → weights.items ≡ each (step_weight t class.now) (tree_rows t)) }
{
    let forest = map.forest();
    forest.recall_invariant();
    let class = class.as_bytes();
    let mut weights = Vec::new(alloc);
    let roots = nodes_in_order(alloc, forest.roots())?;
    push_all_weights(roots.as_slice(), class, &mut weights)?;
    let unplaced = nodes_in_order(alloc, forest.unplaced())?;
    push_all_weights(unplaced.as_slice(), class, &mut weights)?;
    Ok(weights)
}

/// Returns the weights of [`class_weights`] for one item and all items below it. If `under` is
/// `None`, returns the weights for all items of the map.
pub(crate) fn weights_under<A: Allocator>(
    alloc: Global,
    map: &CrushMap<A>,
    under: Option<ItemId>,
    class: &str,
) -> Result<Vec<Option<Weight>>, AllocError>
    ensures { IfOk result (λ weights. (t : List Row) → Stands map.now.forest t
        → weights.items ≡ each (step_weight t class.now) (steps_under under t)) }
{
    match under {
        Some(id) => item_weights(alloc, map, &id, class),
        None => class_weights(alloc, map, class),
    }
}

fn item_weights<A: Allocator>(
    alloc: Global,
    map: &CrushMap<A>,
    id: &ItemId,
    class: &str,
) -> Result<Vec<Option<Weight>>, AllocError>
    ensures { IfOk result (λ weights. (t : List Row) → Stands map.now.forest t
        → weights.items ≡ each (step_weight t class.now) (steps_under (Some id.now) t)) }
{
    let mut weights = Vec::new(alloc);
    let nodes = beside(map, id);
    match place_of(nodes, id) {
        Some(place) => {
            push_weights(&nodes[place], class.as_bytes(), &mut weights)?;
            Ok(weights)
        }
        None => Ok(weights),
    }
}

/// Appends, for each node, the weights of the node and of all items below it.
fn push_all_weights<A: Allocator>(
    nodes: &[&Node<A>],
    class: &[u8],
    weights: &mut Vec<Option<Weight>>,
) -> Result<(), AllocError>
    requires { All (λ r. class_sum_in class.now (items_of (r.now ∷ [])) ≤ HEAVIEST_BUCKET) nodes.now }
    ensures { OnOk result (weights.new.items ≡ weights.old.items
        ++ flat_map (λ r. class_weights_in class.now (items_of (r.now ∷ []))) nodes.now) }
{
    for node in nodes {
        push_weights(*node, class, weights)?;
    }
    Ok(())
}

/// Appends the weight of the node, and then the weights of all items below it. Returns the weight
/// of the node.
fn push_weights<A: Allocator>(
    node: &Node<A>,
    class: &[u8],
    weights: &mut Vec<Option<Weight>>,
) -> Result<Option<Weight>, AllocError>
    requires { class_sum_in class.now (items_of (node.now ∷ [])) ≤ HEAVIEST_BUCKET }
    ensures own { IfOk result (λ own. own ≡ class_weight_in class.now (items_of (node.now ∷ []))) }
    ensures all { OnOk result (weights.new.items ≡ weights.old.items
        ++ class_weights_in class.now (items_of (node.now ∷ []))) }
{
    match node {
        Node::Device(leaf) => {
            weights.push(leaf_weight(leaf, class))?;
            Ok(leaf_weight(leaf, class))
        }
        Node::Bucket(bucket) => {
            let bucket: &Bucket<A> = bucket;
            let items = bucket.items.as_slice();
            let place = weights.len();
            weights.push(None)?;
            let mut own = None;
            for item in items {
                let below = push_weights(item, class, weights)?;
                own = together(own, below);
            }
            weights[place] = copy_of(&own);
            Ok(own)
        }
    }
}

pub(crate) fn copy_of(weight: &Option<Weight>) -> Option<Weight>
    ensures { result ≡ weight.now }
{
    match weight {
        Some(weight) => Some(Weight::from_units(weight.units())),
        None => None,
    }
}

/// Returns the sum of two weights. If one of them is `None`, returns the other one.
fn together(sum: Option<Weight>, more: Option<Weight>) -> Option<Weight>
    requires { unwrap_or sum 0 + unwrap_or more 0 ≤ HEAVIEST_BUCKET }
    ensures { result ≡ together sum more }
{
    match (sum, more) {
        (sum, None) => sum,
        (None, more) => more,
        (Some(sum), Some(more)) => Some(Weight::from_units(sum.units() + more.units())),
    }
}

/// Returns the weight of a device that has the class, and `None` for any other device.
fn leaf_weight<A: Allocator>(leaf: &Leaf<A>, class: &[u8]) -> Option<Weight>
    ensures { result ≡ leaf_weight class.now (leaf_data leaf.now) }
{
    match &leaf.class {
        Some(own) => {
            if own.is(class) {
                Some(leaf.weight)
            } else {
                None
            }
        }
        None => None,
    }
}
