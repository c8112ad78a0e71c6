//! Tests whether buckets store the sums of their items' weights.

ghost use Rattle.std.specs.Prelude.{◌≡◌, ◌==◌, ◌∷◌, [], ◌↔◌, IsTrue};
ghost use Rattle.crush_model.specs.Stored.{StoresSums, weight_sum};
ghost use Rattle.crush_nodes.specs.Seen.{items_of};

use crate::node::{Bucket, Node};
use crush_units::Weight;
use std::alloc::Allocator;

impl<A: Allocator> Node<A> {
    /// Whether each bucket, among the item and all items below it, stores the sum of its own items'
    /// weights. An item that is put into a forest must pass this test. The cost is linear in the
    /// number of these items.
    pub fn stores_sums(&self) -> bool
        ensures { IsTrue result ↔ StoresSums (items_of (self.now ∷ [])) }
    {
        match self {
            Node::Device(_) => true,
            Node::Bucket(bucket) => {
                let bucket: &Bucket<A> = bucket;
                let items = bucket.items.as_slice();
                for item in items {
                    if !item.stores_sums() {
                        return false;
                    }
                }
                is_sum_of(bucket.weight, items)
            }
        }
    }
}

/// Whether `sum` is the sum of the weights that the items store. The function subtracts the weights
/// from `sum` instead of adding them up, so that nothing can overflow.
fn is_sum_of<A: Allocator>(sum: Weight, items: &[Node<A>]) -> bool
    ensures { result ≡ (weight_sum (items_of items.now) == sum) }
{
    let mut left = sum.units();
    for node in items {
        let units = node.weight().units();
        if units > left {
            return false;
        }
        left -= units;
    }
    left == 0
}
