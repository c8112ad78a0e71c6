//! Lists the devices and the buckets of a map, in the order in which the map's text has them.

ghost use Rattle.std.specs.Prelude.{◌≡◌, List, [], ◌∷◌, ◌++◌, None, OnOk, IfOk, flat_map, map};
ghost use Rattle.crush_model.specs.ItemRows.{device_row};
ghost use Rattle.crush_model.specs.Stands.{Stands};
ghost use Rattle.crush_model.specs.Table.{Row};
ghost use Rattle.crush_edits.specs.Setting.{SettingData};
ghost use Rattle.crush_nodes.specs.Seen.{items_of, leaf_data, node_id};
ghost use Rattle.crush_print.specs.ItemsText.{buckets_among, id_number, leaves, own_text};
ghost use Rattle.crush_print.specs.Lines.{device_line};
ghost use Rattle.crush_print.specs.declared.weight_form.WeightForm.{WeightForm};
ghost use Rattle.crush_print.specs.MapText.{ascending, bucket_numbers, device_lines, device_numbers, root_texts};

use crush_items::nodes_in_order;
use crush_map::CrushMap;
use crush_tree::{Bucket, Forest, Leaf, Node};
use crush_units::{BucketId, DeviceId};
use std::alloc::{AllocError, Allocator, Global};

/// Returns the ids of all devices of a map in ascending order, which is their order in the map's
/// text. The function sorts the devices, and fails only if memory runs out.
pub fn devices<A: Allocator>(alloc: Global, map: &CrushMap<A>) -> Result<Vec<DeviceId>, AllocError>
    ensures { IfOk result (λ devices. (t : List Row) → Stands map.now.forest t
        → devices.items ≡ device_numbers t) }
{
    let devices = devices_in_order(alloc, map.forest())?;
    ids_of_devices(alloc, devices.as_slice())
}

/// Returns the ids of all buckets of a map in the order of the map's text. The trees of the roots
/// come one after the other, from the root nearest to -1 downward. In a tree, each bucket comes
/// after the buckets below it, and these are in the order of the bucket's items. The function sorts
/// the roots, and fails only if memory runs out.
pub fn buckets<A: Allocator>(alloc: Global, map: &CrushMap<A>) -> Result<Vec<BucketId>, AllocError>
    ensures { IfOk result (λ buckets. (t : List Row) → Stands map.now.forest t
        → buckets.items ≡ bucket_numbers t) }
{
    let buckets = buckets_in_order(alloc, map.forest())?;
    ids_of_buckets(alloc, buckets.as_slice())
}

fn ids_of_devices<A: Allocator>(
    alloc: Global,
    devices: &[&Leaf<A>],
) -> Result<Vec<DeviceId>, AllocError>
    ensures { IfOk result (λ ids. ids.items ≡ map (λ d. (leaf_data d.now).id) devices.now) }
{
    devices.iter().map(|device| device.id).collect(alloc)
}

fn ids_of_buckets<A: Allocator>(
    alloc: Global,
    buckets: &[&Bucket<A>],
) -> Result<Vec<BucketId>, AllocError>
    ensures { IfOk result (λ ids. ids.items ≡ map (λ b. b.now.header.id) buckets.now) }
{
    buckets.iter().map(|bucket| bucket.header.id).collect(alloc)
}

/// Returns all devices of the forest, by ascending id.
pub(crate) fn devices_in_order<A: Allocator>(
    alloc: Global,
    forest: &Forest<A>,
) -> Result<Vec<&Leaf<A>>, AllocError>
    ensures ids { IfOk result (λ devices. (t : List Row) → Stands forest.now t
        → map (λ d. (leaf_data d.now).id) devices.items ≡ device_numbers t) }
    ensures lines { IfOk result (λ devices. (t : List Row) → Stands forest.now t
        → flat_map (λ d. device_line (device_row None (leaf_data d.now))) devices.items
        ≡ device_lines t) }
{
    let mut devices = Vec::new(alloc);
    find_devices(forest.unplaced(), &mut devices)?;
    find_devices(forest.roots(), &mut devices)?;
    devices.sort_unstable_by_key(|device| device.id.number());
    Ok(devices)
}

/// Appends to `found` all devices that are among the nodes or below them, at any depth.
fn find_devices<'a, A: Allocator>(
    nodes: &'a [Node<A>],
    found: &mut Vec<&'a Leaf<A>>,
) -> Result<(), AllocError>
    ensures { OnOk result (map (λ l. leaf_data l.now) found.new.items
        ≡ map (λ l. leaf_data l.now) found.old.items ++ leaves (items_of nodes.now)) }
{
    for node in nodes {
        match node {
            Node::Device(leaf) => found.push(leaf)?,
            Node::Bucket(bucket) => {
                let bucket: &'a Bucket<A> = bucket;
                find_devices(bucket.items.as_slice(), found)?;
            }
        }
    }
    Ok(())
}

/// Returns all buckets of the forest, in the order in which [`buckets`] returns their ids.
pub(crate) fn buckets_in_order<A: Allocator>(
    alloc: Global,
    forest: &Forest<A>,
) -> Result<Vec<&Bucket<A>>, AllocError>
    ensures ids { IfOk result (λ buckets. (t : List Row) → Stands forest.now t
        → map (λ b. b.now.header.id) buckets.items ≡ bucket_numbers t) }
    ensures texts { IfOk result (λ buckets. (form : WeightForm) (s : SettingData) (t : List Row)
        → Stands forest.now t
        → flat_map (λ b. own_text form s b.now) buckets.items ≡ root_texts form s t) }
{
    forest.recall_invariant();
    let roots = nodes_in_order(alloc, forest.roots())?;
    buckets_below(alloc, roots.as_slice())
}

/// Returns the buckets that are among the nodes or below them. Each bucket comes after the buckets
/// below it.
fn buckets_below<'a, A: Allocator>(
    alloc: Global,
    nodes: &[&'a Node<A>],
) -> Result<Vec<&'a Bucket<A>>, AllocError>
    ensures { IfOk result (λ found. map (λ b. b.now) found.items
        ≡ flat_map (λ r. buckets_among (items_of (r.now ∷ []))) nodes.now) }
{
    let mut found = Vec::new(alloc);
    for node in nodes {
        find_buckets(*node, &mut found)?;
    }
    Ok(found)
}

/// Appends to `found` the buckets below the node, and then the node itself if it is a bucket.
fn find_buckets<'a, A: Allocator>(
    node: &'a Node<A>,
    found: &mut Vec<&'a Bucket<A>>,
) -> Result<(), AllocError>
    ensures { OnOk result (map (λ b. b.now) found.new.items
        ≡ map (λ b. b.now) found.old.items ++ buckets_among (items_of (node.now ∷ []))) }
{
    match node {
        Node::Device(_) => Ok(()),
        Node::Bucket(bucket) => {
            let bucket: &'a Bucket<A> = bucket;
            let items = bucket.items.as_slice();
            for item in items {
                find_buckets(item, found)?;
            }
            found.push(bucket)?;
            Ok(())
        }
    }
}
