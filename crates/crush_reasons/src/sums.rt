//! Finds the weights of all buckets of a map in one walk through the map's tree.

ghost use Rattle.std.specs.Prelude.{◌≡◌, ◌++◌, ◌∷◌, [], List, IfOk, OnOk};
ghost use Rattle.crush_nodes.specs.Seen.{items_of};
ghost use Rattle.crush_model.specs.Stands.{Stands};
ghost use Rattle.crush_model.specs.Table.{Row, weight_of};
ghost use Rattle.crush_units.specs.declared.id.ItemId.TheVariants.{Bucket as BucketItem};
ghost use Rattle.crush_reasons.specs.Sums.{AreSums, IsSummed, sum, sums_of};

use crush_map::CrushMap;
use crush_tree::{Bucket, Node};
use crush_units::{BucketId, Weight};
use std::alloc::{AllocError, Allocator, Global};

/// A bucket, and the sum of the weights of all devices below it.
#[derive(Clone, Copy)]
pub(crate) struct Sum {
    pub(crate) bucket: BucketId,
    pub(crate) weight: Weight,
}

#[derive(Drop)]
pub(crate) struct SummedMap<'a> {
    pub(crate) map: &'a CrushMap<Global>,
    /// The sums, one for each bucket, sorted by the distances of the buckets' ids from 0.
    pub(crate) sums: Vec<Sum>,
}

fn push_sum(bucket: BucketId, weight: Weight, sums: &mut Vec<Sum>) -> Result<(), AllocError>
    ensures { OnOk result (sums.new.items ≡ sums.old.items ++ sum bucket weight ∷ []) }
{
    let Ok(()) = sums.push(Sum { bucket, weight }) else {
        return Err(AllocError);
    };
    Ok(())
}

fn push_node<A: Allocator>(node: &Node<A>, sums: &mut Vec<Sum>) -> Result<(), AllocError>
    ensures { OnOk result (sums.new.items
        ≡ sums.old.items ++ sums_of (items_of (node.now ∷ []))) }
{
    match node {
        Node::Device(_) => Ok(()),
        Node::Bucket(bucket) => {
            let bucket: &Bucket<A> = bucket;
            let below = bucket.items.as_slice();
            for item in below {
                push_node(item, sums)?;
            }
            push_sum(bucket.header.id, bucket.weight, sums)
        }
    }
}

fn push_nodes<A: Allocator>(nodes: &[Node<A>], sums: &mut Vec<Sum>) -> Result<(), AllocError>
    ensures { OnOk result (sums.new.items ≡ sums.old.items ++ sums_of (items_of nodes.now)) }
{
    for node in nodes {
        push_node(node, sums)?;
    }
    Ok(())
}

fn sums_of_map(alloc: Global, map: &CrushMap<Global>) -> Result<Vec<Sum>, AllocError>
    ensures { IfOk result (λ sums. (t : List Row) → Stands map.now.forest t
        → AreSums t sums.items) }
{
    let forest = map.forest();
    forest.recall_invariant();
    let mut sums = Vec::new(alloc);
    push_nodes(forest.roots(), &mut sums)?;
    sums.sort_unstable_by_key(|sum| sum.bucket.distance());
    Ok(sums)
}

impl<'a> SummedMap<'a> {
    pub(crate) fn new(alloc: Global, map: &'a CrushMap<Global>) -> Result<SummedMap<'a>, AllocError>
        ensures { IfOk result (λ summed. (t : List Row) → Stands map.now.forest t
            → IsSummed summed t) }
    {
        let sums = sums_of_map(alloc, map)?;
        Ok(SummedMap { map, sums })
    }

    pub(crate) fn sum_of(&self, bucket: BucketId) -> Option<Weight>
        ensures { (t : List Row) → IsSummed self.now t → result ≡ weight_of t (BucketItem bucket) }
    {
        let sums = self.sums.as_slice();
        match sums.binary_search_by_key(&bucket.distance(), |sum| sum.bucket.distance()) {
            Ok(at) => Some(sums[at].weight),
            Err(_) => None,
        }
    }
}
