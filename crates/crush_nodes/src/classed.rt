//! The weight of the devices of one class.

ghost use Rattle.std.specs.Prelude.{◌≡◌, ◌≤◌, ◌∷◌, [], IfSome};
ghost use Rattle.crush_units.specs.Name.{IsName};
ghost use Rattle.crush_units.specs.declared.limits.TheConstants.{HEAVIEST_BUCKET};
ghost use Rattle.crush_nodes.specs.Classed.{class_sum_in, leaf_class_weight};
ghost use Rattle.crush_nodes.specs.Seen.{items_of, leaf_data};

use crate::node::{Bucket, Leaf, Node};
use crate::sums::with_more;
use crush_units::{Name, Weight};
use std::alloc::Allocator;

/// Returns the sum of the weights of the devices that have the class, among the item and all items
/// below it. This sum must be at most 4294967295 units. The cost is linear in the number of these
/// items.
pub fn class_weight_in<A: Allocator>(node: &Node<A>, class: &[u8]) -> Weight
    requires { class_sum_in class.now (items_of (node.now ∷ [])) ≤ HEAVIEST_BUCKET }
    ensures { result ≡ class_sum_in class.now (items_of (node.now ∷ [])) }
{
    match node {
        Node::Device(leaf) => leaf_class_weight(leaf, class),
        Node::Bucket(bucket) => {
            let bucket: &Bucket<A> = bucket;
            let items = bucket.items.as_slice();
            let mut sum = Weight::from_units(0);
            for item in items {
                sum = with_more(sum, class_weight_in(item, class));
            }
            sum
        }
    }
}

/// Returns the device's weight if the device has the class, otherwise 0.
fn leaf_class_weight<A: Allocator>(leaf: &Leaf<A>, class: &[u8]) -> Weight
    ensures { result ≡ leaf_class_weight class.now (leaf_data leaf.now) }
{
    match &leaf.class {
        Some(own) => {
            if own.is(class) {
                leaf.weight
            } else {
                Weight::from_units(0)
            }
        }
        None => Weight::from_units(0),
    }
}

/// Gives a proof one fact about a class, if there is one: it has the form of a name. This is an
/// invariant of the type `Name`. Changes nothing at run time.
pub fn recall_class<A: Allocator>(class: &Option<Name<A>>)
    ensures { IfSome class.now IsName }
{
    match class {
        Some(class) => {
            let _bytes = class.as_bytes();
        }
        None => {}
    }
}
