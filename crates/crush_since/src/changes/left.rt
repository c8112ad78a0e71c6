//! The rows of the items that were in a place in the old map and are not there in the new map.

ghost use Rattle.std.specs.Prelude.{◌≡◌, ◌+◌, ◌<◌, ◌^◌, List, [], ◌∷◌, ◌++◌, None, Some, OnOk, All, false, flat_map, map as each};
ghost use Rattle.crush_model.specs.Items.{size_of};
ghost use Rattle.crush_model.specs.Table.{Row, is_there, kids};
ghost use Rattle.crush_nodes.specs.Seen.{items_of};
ghost use Rattle.crush_units.specs.declared.id.ItemId.TheVariants.{Bucket as BucketItem, Device as DeviceItem};
ghost use Rattle.crush_print.specs.MapText.{root_numbers};
ghost use Rattle.crush_since.specs.ChangeItems.{left_of, stood_of};
ghost use Rattle.crush_since.specs.Changes.{change_at, left_from, stands_in};
ghost use Rattle.crush_since.specs.SeenChange.{AreTables, row_change};
ghost use Rattle.crush_print.specs.Tree.{unplaced_numbers};

use crate::changes::both::Both;
use crate::changes::rows::TreeRow;
use crate::since::columns::same_parent;
use crush_items::nodes_in_order;
use crush_tree::{Bucket, Node};
use crush_units::{BucketId, ItemId};
use std::alloc::{AllocError, Allocator, Global};

pub(super) fn push_left_roots<A: Allocator, B: Allocator>(
    alloc: Global,
    both: &Both<'_, A, B>,
    rows: &mut Vec<TreeRow>,
) -> Result<(), AllocError>
    ensures { (t u : List Row) → AreTables t u both.now
        → OnOk result (each (row_change both.now.maps) rows.new.items ≡ each (row_change both.now.maps) rows.old.items
        ++ left_from t u 0 None (each BucketItem (root_numbers t))) }
{
    let forest = both.maps.old.map.forest();
    forest.recall_invariant();
    let roots = nodes_in_order(alloc, forest.roots())?;
    push_left_tops(both, roots.as_slice(), rows)
}

pub(super) fn push_left_unplaced<A: Allocator, B: Allocator>(
    alloc: Global,
    both: &Both<'_, A, B>,
    rows: &mut Vec<TreeRow>,
) -> Result<(), AllocError>
    ensures { (t u : List Row) → AreTables t u both.now
        → OnOk result (each (row_change both.now.maps) rows.new.items ≡ each (row_change both.now.maps) rows.old.items
        ++ left_from t u 0 None (each DeviceItem (unplaced_numbers t))) }
{
    let forest = both.maps.old.map.forest();
    forest.recall_invariant();
    let unplaced = nodes_in_order(alloc, forest.unplaced())?;
    push_left_tops(both, unplaced.as_slice(), rows)
}

/// Appends the rows of those roots or unplaced devices of the old map that are in another place in
/// the new map, or that the new map doesn't have.
fn push_left_tops<A: Allocator, B: Allocator>(
    both: &Both<'_, A, B>,
    nodes: &[&Node<A>],
    rows: &mut Vec<TreeRow>,
) -> Result<(), AllocError>
    requires { All (λ r. size_of (items_of (r.now ∷ [])) < 2 ^ 32) nodes.now }
    ensures { (t u : List Row) → AreTables t u both.now
        → OnOk result (each (row_change both.now.maps) rows.new.items ≡ each (row_change both.now.maps) rows.old.items
        ++ flat_map (λ r. left_of t u 0 None r.now) nodes.now) }
{
    for node in nodes {
        push_if_left(both, *node, None, 0, rows)?;
    }
    Ok(())
}

pub(super) fn push_left<A: Allocator, B: Allocator>(
    both: &Both<'_, A, B>,
    bucket: BucketId,
    depth: u32,
    rows: &mut Vec<TreeRow>,
) -> Result<(), AllocError>
    requires { depth < 2 ^ 31 }
    ensures { (t u : List Row) → AreTables t u both.now
        → OnOk result (each (row_change both.now.maps) rows.new.items ≡ each (row_change both.now.maps) rows.old.items
        ++ left_from t u depth (Some bucket) (kids t bucket)) }
{
    match both.buckets.items(bucket) {
        Some(items) => push_left_items(both, items, bucket, depth, rows),
        None => Ok(()),
    }
}

fn push_left_items<A: Allocator, B: Allocator>(
    both: &Both<'_, A, B>,
    items: &[Node<A>],
    bucket: BucketId,
    depth: u32,
    rows: &mut Vec<TreeRow>,
) -> Result<(), AllocError>
    requires { depth + size_of (items_of items.now) < 2 ^ 32 }
    ensures { (t u : List Row) → AreTables t u both.now
        → OnOk result (each (row_change both.now.maps) rows.new.items ≡ each (row_change both.now.maps) rows.old.items
        ++ flat_map (left_of t u depth (Some bucket)) items.now) }
{
    for item in items {
        push_if_left(both, item, Some(bucket), depth, rows)?;
    }
    Ok(())
}

fn push_if_left<A: Allocator, B: Allocator>(
    both: &Both<'_, A, B>,
    node: &Node<A>,
    place: Option<BucketId>,
    depth: u32,
    rows: &mut Vec<TreeRow>,
) -> Result<(), AllocError>
    requires { depth + size_of (items_of (node.now ∷ [])) < 2 ^ 32 }
    ensures { (t u : List Row) → AreTables t u both.now
        → OnOk result (each (row_change both.now.maps) rows.new.items ≡ each (row_change both.now.maps) rows.old.items
        ++ left_of t u depth place node.now) }
{
    if stands_in(both, node.id(), place) {
        return Ok(());
    }
    push_stood(both, node, depth, rows)
}

/// Appends the row of a node of the old map whose item is no longer in its place. If the node is a
/// bucket that the new map doesn't have at all, also appends the rows of the items that this bucket
/// held. The same holds for each of these items that is such a bucket. If the new map still has a
/// bucket, in another place, no rows below the bucket are appended here.
fn push_stood<A: Allocator, B: Allocator>(
    both: &Both<'_, A, B>,
    node: &Node<A>,
    depth: u32,
    rows: &mut Vec<TreeRow>,
) -> Result<(), AllocError>
    requires { depth + size_of (items_of (node.now ∷ [])) < 2 ^ 32 }
    ensures { (t u : List Row) → AreTables t u both.now
        → OnOk result (each (row_change both.now.maps) rows.new.items ≡ each (row_change both.now.maps) rows.old.items
        ++ stood_of t u depth (items_of (node.now ∷ []))) }
{
    push_row(both, &node.id(), depth, rows)?;
    match node {
        Node::Device(_) => Ok(()),
        Node::Bucket(bucket) => {
            let bucket: &Bucket<A> = bucket;
            if is_there(both, ItemId::Bucket(bucket.header.id)) {
                return Ok(());
            }
            let items = bucket.items.as_slice();
            for item in items {
                push_stood(both, item, depth + 1, rows)?;
            }
            Ok(())
        }
    }
}

/// Appends the row of an item that is no longer in its place.
fn push_row<A: Allocator, B: Allocator>(
    both: &Both<'_, A, B>,
    id: &ItemId,
    depth: u32,
    rows: &mut Vec<TreeRow>,
) -> Result<(), AllocError>
    ensures { (t u : List Row) → AreTables t u both.now → OnOk result
        (each (row_change both.now.maps) rows.new.items ≡ each (row_change both.now.maps) rows.old.items
        ++ change_at t u false depth id.now ∷ []) }
{
    let pair = both.pair_of(id);
    let row = TreeRow {
        id: *id,
        pair,
        depth,
        stands: false,
    };
    rows.push(row)?;
    Ok(())
}

/// Whether the new map has the item in this place: in the bucket `place`, or in no bucket if
/// `place` is `None`.
fn stands_in<A: Allocator, B: Allocator>(
    both: &Both<'_, A, B>,
    id: ItemId,
    place: Option<BucketId>,
) -> bool
    ensures { (t u : List Row) → AreTables t u both.now → result ≡ stands_in u place id }
{
    match both.maps.after(both.pair_of(&id)) {
        Some(item) => same_parent(item.view.parent, place),
        None => false,
    }
}

/// Whether the new map has the item.
fn is_there<A: Allocator, B: Allocator>(both: &Both<'_, A, B>, id: ItemId) -> bool
    ensures { (t u : List Row) → AreTables t u both.now → result ≡ is_there u id }
{
    both.maps.after(both.pair_of(&id)).is_some()
}
