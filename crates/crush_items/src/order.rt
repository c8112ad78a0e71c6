//! Nodes in the order of their ids.

ghost use Rattle.std.specs.Prelude.{◌≡◌, IfOk, map};
ghost use Rattle.std.specs.List.Sorted.{IsPermutation};
ghost use Rattle.crush_nodes.specs.Seen.{node_id};
ghost use Rattle.crush_items.specs.Order.{ascending, id_number};

use crush_tree::Node;
use crush_units::ItemId;
use std::alloc::{AllocError, Allocator, Global};

/// Returns references to the nodes, sorted by the distances of their ids from 0. So devices are
/// sorted by ascending id, and buckets from -1 downward. Returns an error only if memory runs out.
pub fn nodes_in_order<A: Allocator>(
    alloc: Global,
    nodes: &[Node<A>],
) -> Result<Vec<&Node<A>>, AllocError>
    ensures same { IfOk result (λ sorted. IsPermutation nodes.now (map (λ r. r.now) sorted.items)) }
    ensures rising { IfOk result (λ sorted. map (λ r. id_number (node_id r.now)) sorted.items
        ≡ ascending (map (λ node. id_number (node_id node)) nodes.now)) }
{
    let mut sorted = references(alloc, nodes)?;
    sorted.sort_unstable_by_key(|node| number_of(*node));
    Ok(sorted)
}

fn references<A: Allocator>(alloc: Global, nodes: &[Node<A>]) -> Result<Vec<&Node<A>>, AllocError>
    ensures { IfOk result (λ references. map (λ r. r.now) references.items ≡ nodes.now) }
{
    let mut references = Vec::new(alloc);
    for node in nodes {
        references.push(node)?;
    }
    Ok(references)
}

/// Returns the distance of the node's id from 0.
fn number_of<A: Allocator>(node: &Node<A>) -> u32
    ensures { result ≡ id_number (node_id node.now) }
{
    match node.id() {
        ItemId::Device(device) => device.number(),
        ItemId::Bucket(bucket) => bucket.distance(),
    }
}
