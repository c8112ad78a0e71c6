//! Tests of an item that is to be put at a place of the forest: whether the place accepts the item,
//! and how many devices and buckets the item has.

ghost use Rattle.std.specs.Prelude.{◌≡◌, ◌+◌, ◌<◌, ◌≤◌, ◌∷◌, [], ◌↔◌, IfNone, IfSome, nat_le};
ghost use Rattle.crush_model.specs.Items.{size_of};
ghost use Rattle.crush_nodes.specs.Attachable.{takes};
ghost use Rattle.crush_nodes.specs.Search.{devices_in};
ghost use Rattle.crush_nodes.specs.Seen.{items_of};

use crate::node::{Bucket, Node};
use crate::place::Place;
use std::alloc::Allocator;

/// Whether there are at most `most` devices among the item and everything below it.
pub fn has_few_devices<A: Allocator>(node: &Node<A>, most: u32) -> bool
    ensures { result ≡ nat_le (devices_in (items_of (node.now ∷ []))) most }
{
    devices_left(node, most).is_some()
}

/// Whether there are at most `most` buckets among the item and everything below it.
pub fn has_few_buckets<A: Allocator>(node: &Node<A>, most: u32) -> bool
    ensures { result ≡ nat_le (size_of (items_of (node.now ∷ []))) most }
{
    buckets_left(node, most).is_some()
}

/// Whether a place of this kind accepts the item. The roots accept every bucket, the unplaced
/// devices accept every device of weight 0, and a bucket accepts every item. Doesn't test whether
/// the place exists.
pub fn takes<A: Allocator>(place: &Place, node: &Node<A>) -> bool
    ensures { result ≡ takes place.now (items_of (node.now ∷ [])) }
{
    match place {
        Place::Bucket(_) => true,
        Place::Root => match node {
            Node::Device(_) => false,
            Node::Bucket(_) => true,
        },
        Place::Unplaced => match node {
            Node::Device(leaf) => leaf.weight.units() == 0,
            Node::Bucket(_) => false,
        },
    }
}

/// Returns `most` minus the number of devices among the item and everything below it, or `None` if
/// there are more than `most` devices.
fn devices_left<A: Allocator>(node: &Node<A>, most: u32) -> Option<u32>
    ensures some { IfSome result (λ left. left + devices_in (items_of (node.now ∷ [])) ≡ most) }
    ensures none { IfNone result (most < devices_in (items_of (node.now ∷ []))) }
{
    match node {
        Node::Device(_) => most.checked_sub(1),
        Node::Bucket(bucket) => {
            let bucket: &Bucket<A> = bucket;
            let items = bucket.items.as_slice();
            let mut left = most;
            for item in items {
                match devices_left(item, left) {
                    Some(rest) => left = rest,
                    None => return None,
                }
            }
            Some(left)
        }
    }
}

/// Returns `most` minus the number of buckets among the item and everything below it, or `None` if
/// there are more than `most` buckets.
fn buckets_left<A: Allocator>(node: &Node<A>, most: u32) -> Option<u32>
    ensures some { IfSome result (λ left. left + size_of (items_of (node.now ∷ [])) ≡ most) }
    ensures none { IfNone result (most < size_of (items_of (node.now ∷ []))) }
{
    match node {
        Node::Device(_) => Some(most),
        Node::Bucket(bucket) => {
            let bucket: &Bucket<A> = bucket;
            if most == 0 {
                return None;
            }
            let items = bucket.items.as_slice();
            let mut left = most - 1;
            for item in items {
                match buckets_left(item, left) {
                    Some(rest) => left = rest,
                    None => return None,
                }
            }
            Some(left)
        }
    }
}
