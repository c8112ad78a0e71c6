//! Lists the devices and the buckets of a map in the order in which the map's JSON document has
//! them: the devices by ascending id, and the buckets from the id -1 downward.

ghost use Rattle.std.specs.Prelude.{◌≡◌, [], ◌∷◌, ◌++◌, List, IfOk, OnOk, map as each};
ghost use Rattle.crush_nodes.specs.Seen.{items_of, leaf_data, node_id};
ghost use Rattle.crush_print.specs.ItemsText.{buckets_among, leaves};
ghost use Rattle.crush_edits.specs.Setting.{SettingData};
ghost use Rattle.crush_model.specs.Stands.{Stands};
ghost use Rattle.crush_model.specs.Table.{Row, kids};
ghost use Rattle.crush_json.specs.ItemDocuments.{AreBuckets, leaf_document, own_document};
ghost use Rattle.crush_json.specs.MapDocument.{bucket_documents, device_documents};

use crush_tree::{Bucket, Forest, Leaf, Node};
use crush_units::BucketId;
use std::alloc::{AllocError, Allocator, Global};

/// Returns all devices of the forest, by ascending id. The function visits each item once, and
/// sorts the devices. Fails only if memory runs out.
pub(crate) fn devices_in_order<A: Allocator>(
    alloc: Global,
    forest: &Forest<A>,
) -> Result<Vec<&Leaf<A>>, AllocError>
    ensures { IfOk result (λ devices. (t : List Row) → Stands forest.now t
        → each (λ d. leaf_document (leaf_data d.now)) devices.items ≡ device_documents t) }
{
    let mut devices = Vec::new(alloc);
    find_devices(forest.unplaced(), &mut devices)?;
    find_devices(forest.roots(), &mut devices)?;
    devices.sort_unstable_by_key(|device| device.id.number());
    Ok(devices)
}

/// Appends to `found` all devices that are among the nodes or below them, at any depth.
fn find_devices<'a, A: Allocator>(
    nodes: &'a [Node<A>],
    found: &mut Vec<&'a Leaf<A>>,
) -> Result<(), AllocError>
    ensures { OnOk result (each (λ l. leaf_data l.now) found.new.items
        ≡ each (λ l. leaf_data l.now) found.old.items ++ leaves (items_of nodes.now)) }
{
    for node in nodes {
        match node {
            Node::Device(leaf) => found.push(leaf)?,
            Node::Bucket(bucket) => {
                let bucket: &'a Bucket<A> = bucket;
                find_devices(bucket.items.as_slice(), found)?;
            }
        }
    }
    Ok(())
}

/// Returns all buckets of the forest, from the id -1 downward. The function visits each root and
/// each item below a root once, and sorts the buckets. Fails only if memory runs out.
pub(crate) fn buckets_in_order<A: Allocator>(
    alloc: Global,
    forest: &Forest<A>,
) -> Result<Vec<&Bucket<A>>, AllocError>
    ensures documents { IfOk result (λ buckets. (s : SettingData) (t : List Row)
        → Stands forest.now t
        → each (λ b. own_document s b.now) buckets.items ≡ bucket_documents s t) }
    ensures items { IfOk result (λ buckets. (t : List Row) → Stands forest.now t
        → AreBuckets (λ b. b.now) t buckets.items) }
{
    forest.recall_invariant();
    let mut buckets = buckets_below(alloc, forest.roots())?;
    buckets.sort_unstable_by_key(|bucket| bucket.header.id.distance());
    Ok(buckets)
}

/// Returns the buckets that are among the nodes or below them, at any depth.
fn buckets_below<A: Allocator>(
    alloc: Global,
    nodes: &[Node<A>],
) -> Result<Vec<&Bucket<A>>, AllocError>
    ensures { IfOk result (λ buckets. each (λ b. b.now) buckets.items
        ≡ buckets_among (items_of nodes.now)) }
{
    let mut buckets = Vec::new(alloc);
    for node in nodes {
        find_buckets(node, &mut buckets)?;
    }
    Ok(buckets)
}

/// Appends to `found` the buckets below the node, and then the node itself if it is a bucket.
fn find_buckets<'a, A: Allocator>(
    node: &'a Node<A>,
    found: &mut Vec<&'a Bucket<A>>,
) -> Result<(), AllocError>
    ensures { OnOk result (each (λ b. b.now) found.new.items
        ≡ each (λ b. b.now) found.old.items ++ buckets_among (items_of (node.now ∷ []))) }
{
    match node {
        Node::Device(_) => Ok(()),
        Node::Bucket(bucket) => {
            let bucket: &'a Bucket<A> = bucket;
            let items = bucket.items.as_slice();
            for item in items {
                find_buckets(item, found)?;
            }
            found.push(bucket)?;
            Ok(())
        }
    }
}

/// Returns the items of the bucket with this id, in their order. If no bucket has the id, returns
/// no items. `buckets` must be sorted as [`buckets_in_order`] sorts them, because this function
/// makes a binary search.
pub(crate) fn children_of<'a, A: Allocator>(
    buckets: &[&'a Bucket<A>],
    id: BucketId,
) -> &'a [Node<A>]
    ensures { (t : List Row) → AreBuckets (λ b. b.now) t buckets.now
        → each node_id result.now ≡ kids t id }
{
    let distance = id.distance();
    match buckets.binary_search_by_key(&distance, |bucket| bucket.header.id.distance()) {
        Ok(place) => {
            let bucket: &'a Bucket<A> = buckets[place];
            bucket.items.as_slice()
        }
        Err(_) => &[],
    }
}
