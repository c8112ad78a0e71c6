//! Tests of each item by itself: weights, types and class ids.

ghost use Rattle.std.specs.Prelude.{◌≡◌, ◌<◌, ◌≤◌, ◌∷◌, [], All, IfSome, map, nat_le, bytes_eq};
ghost use Rattle.std.specs.Bool.{OnTrue};
ghost use Rattle.std.specs.List.{list_any};
ghost use Rattle.crush_units.specs.Name.{IsName};
ghost use Rattle.crush_model.specs.Lawful.{IsShadowId};
ghost use Rattle.crush_model.specs.Tested.{are_apart};
ghost use Rattle.crush_nodes.specs.Attachable.{shadow_classes, are_formed, is_formed, AreTyped, IsTyped};
ghost use Rattle.crush_nodes.specs.Seen.{shadow_data, header_data, items_of};
ghost use Rattle.crush_units.specs.declared.limits.TheConstants.{DEVICE_IDS, HEAVIEST_DEVICE};

use crate::classed::recall_class;
use crate::node::{Bucket, Header, Leaf, Node, ShadowId};
use crush_units::limits::{HEAVIEST_DEVICE, MOST_CLASS_IDS};
use std::alloc::Allocator;

/// Whether the item and each item below it, at any depth, is well formed. The weight of a device
/// must be at most 2147483647 units. A bucket must have a type above 0 and at most 16 class ids, of
/// distinct classes. The stored weights of buckets aren't tested.
pub fn is_formed_node<A: Allocator>(node: &Node<A>) -> bool
    ensures tested { result ≡ are_formed (items_of (node.now ∷ [])) }
    ensures typed { OnTrue result (AreTyped (items_of (node.now ∷ []))) }
{
    match node {
        Node::Device(leaf) => is_formed_leaf(leaf),
        Node::Bucket(bucket) => {
            let bucket: &Bucket<A> = bucket;
            let _units = bucket.weight.units();
            if !is_formed(&bucket.header) {
                return false;
            }
            let items = bucket.items.as_slice();
            for item in items {
                if !is_formed_node(item) {
                    return false;
                }
            }
            true
        }
    }
}

/// Whether a device's weight is at most 2147483647 units. The code also reads the other fields,
/// although it doesn't need their values: reading a field gives the proof the invariant of the
/// field's type, and these invariants prove the rest of the contract.
fn is_formed_leaf<A: Allocator>(leaf: &Leaf<A>) -> bool
    ensures tested { result ≡ nat_le leaf.now.weight HEAVIEST_DEVICE }
    ensures id { leaf.now.id < DEVICE_IDS }
    ensures name { IsName leaf.now.name }
    ensures class { IfSome leaf.now.class IsName }
{
    let _number = leaf.id.number();
    let _bytes = leaf.name.as_bytes();
    recall_class(&leaf.class);
    leaf.weight.units() <= HEAVIEST_DEVICE
}

/// Whether a bucket has a type above 0 and at most 16 class ids, of distinct classes.
fn is_formed<A: Allocator>(header: &Header<A>) -> bool
    ensures tested { result ≡ is_formed (header_data header.now) }
    ensures typed { OnTrue result (IsTyped (header_data header.now)) }
{
    let _distance = header.id.distance();
    let _bytes = header.name.as_bytes();
    if header.kind.number() == 0 {
        return false;
    }
    let class_ids = header.class_ids.as_slice();
    recall_shadow_ids(class_ids);
    if class_ids.len() > MOST_CLASS_IDS {
        return false;
    }
    have_distinct_classes(class_ids)
}

/// Whether no two class ids have the same class.
fn have_distinct_classes<A: Allocator>(class_ids: &[ShadowId<A>]) -> bool
    ensures { result ≡ are_apart (λ a b. bytes_eq b a) (shadow_classes class_ids.now) }
{
    for (i, class_id) in class_ids.iter().enumerate() {
        if has_class_of(&class_ids[i + 1..], class_id) {
            return false;
        }
    }
    true
}

/// Whether one of the class ids has the same class as `class_id`.
fn has_class_of<A: Allocator>(class_ids: &[ShadowId<A>], class_id: &ShadowId<A>) -> bool
    ensures { result
        ≡ list_any (λ b. bytes_eq b class_id.now.class) (shadow_classes class_ids.now) }
{
    has_class(class_ids, class_id.class.as_bytes())
}

/// Gives a proof two facts about each class id: its number is in range, and its class has the form
/// of a name. Both facts are invariants of the fields' types. Changes nothing at run time.
fn recall_shadow_ids<A: Allocator>(class_ids: &[ShadowId<A>])
    ensures { All IsShadowId (map shadow_data class_ids.now) }
{
    for class_id in class_ids {
        recall_shadow_id(class_id);
    }
}

/// Gives a proof two facts about a class id: its number is in range, and its class has the form of
/// a name. Both facts are invariants of the fields' types. Changes nothing at run time.
fn recall_shadow_id<A: Allocator>(class_id: &ShadowId<A>)
    ensures { IsShadowId (shadow_data class_id.now) }
{
    let _distance = class_id.id.distance();
    let _bytes = class_id.class.as_bytes();
}

/// Whether one of the class ids has the class.
fn has_class<A: Allocator>(class_ids: &[ShadowId<A>], class: &[u8]) -> bool
    ensures { result ≡ list_any (λ c. bytes_eq c.class class.now) class_ids.now }
{
    class_ids.iter().any(|class_id| class_id.class.is(class))
}
