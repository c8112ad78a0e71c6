//! The rows of the tree of what has changed.

ghost use Rattle.std.specs.Prelude.{◌≡◌, ◌+◌, ◌-◌, ◌<◌, ◌^◌, List, [], ◌∷◌, ◌++◌, true, OnOk, IfOk, All, length, flat_map, map as each};
ghost use Rattle.crush_model.specs.Items.{size_of};
ghost use Rattle.crush_model.specs.Table.{Row};
ghost use Rattle.crush_nodes.specs.Seen.{items_of};
ghost use Rattle.crush_since.specs.ChangeItems.{stands_of};
ghost use Rattle.crush_since.specs.Changes.{ChangeData, change_at, change_rows, is_listed as is_listed_of, root_rows, unplaced_rows, with_below};
ghost use Rattle.crush_since.specs.SeenChange.{AreTables, row_change};
ghost use Rattle.crush_since.specs.Since.{plain_map};
ghost use Rattle.crush_since.specs.declared.changes.rows.TreeRow.{TreeRow};

use crate::changes::both::Both;
use crate::changes::left::{push_left, push_left_roots, push_left_unplaced};
use crate::changes::seen::is_told;
use crush_compare::Pair;
use crush_items::nodes_in_order;
use crush_tree::{Bucket, Node};
use crush_units::ItemId;
use std::alloc::{AllocError, Allocator, Global};

/// A row of the tree of what has changed. A row is for an item in a place, which is the bucket that
/// holds the item. An item that no bucket holds is in the place of the roots or of the unplaced
/// devices. If `stands` is true, the new map has the item in this place. Otherwise only the old map
/// had the item in this place.
#[derive(Clone, Copy, Debug)]
pub(crate) struct TreeRow {
    pub id: ItemId,
    /// The position of the item in the old map's list of items, and its position in the new map's
    /// list of items.
    pub pair: Pair,
    /// The number of buckets above the item.
    pub depth: u32,
    pub stands: bool,
}

/// Returns the rows of the tree. First come the rows of the new map's roots, by id from -1
/// downward. Each of these rows is followed by the rows below it. After them come the rows of the
/// old map's roots that aren't roots in the new map. Last come the rows of the unplaced devices:
/// first those of the new map by ascending id, and then those that are unplaced only in the old
/// map, also by ascending id.
#[tactic(auto, unfolding(crate::specs::Changes::change_rows))]
pub(crate) fn rows_of<A: Allocator, B: Allocator>(
    alloc: Global,
    both: &Both<'_, A, B>,
) -> Result<Vec<TreeRow>, AllocError>
    ensures { IfOk result (λ rows. (t u : List Row) → AreTables t u both.now
        → each (row_change both.now.maps) rows.items
        ≡ change_rows (plain_map both.now.maps.old.map.now.setting t) (plain_map both.now.maps.new.map.now.setting u)) }
{
    let mut rows = Vec::new(alloc);
    push_roots(alloc, both, &mut rows)?;
    push_unplaced(alloc, both, &mut rows)?;
    Ok(rows)
}

fn push_roots<A: Allocator, B: Allocator>(
    alloc: Global,
    both: &Both<'_, A, B>,
    rows: &mut Vec<TreeRow>,
) -> Result<(), AllocError>
    ensures { (t u : List Row) → AreTables t u both.now
        → OnOk result (each (row_change both.now.maps) rows.new.items ≡ each (row_change both.now.maps) rows.old.items
        ++ root_rows (plain_map both.now.maps.old.map.now.setting t) (plain_map both.now.maps.new.map.now.setting u)) }
{
    let forest = both.maps.new.map.forest();
    forest.recall_invariant();
    let roots = nodes_in_order(alloc, forest.roots())?;
    push_tops(both, roots.as_slice(), rows)?;
    push_left_roots(alloc, both, rows)
}

fn push_unplaced<A: Allocator, B: Allocator>(
    alloc: Global,
    both: &Both<'_, A, B>,
    rows: &mut Vec<TreeRow>,
) -> Result<(), AllocError>
    ensures { (t u : List Row) → AreTables t u both.now
        → OnOk result (each (row_change both.now.maps) rows.new.items ≡ each (row_change both.now.maps) rows.old.items
        ++ unplaced_rows (plain_map both.now.maps.old.map.now.setting t) (plain_map both.now.maps.new.map.now.setting u)) }
{
    let forest = both.maps.new.map.forest();
    forest.recall_invariant();
    let unplaced = nodes_in_order(alloc, forest.unplaced())?;
    push_tops(both, unplaced.as_slice(), rows)?;
    push_left_unplaced(alloc, both, rows)
}

fn push_tops<A: Allocator, B: Allocator>(
    both: &Both<'_, A, B>,
    nodes: &[&Node<B>],
    rows: &mut Vec<TreeRow>,
) -> Result<(), AllocError>
    requires { All (λ r. size_of (items_of (r.now ∷ [])) < 2 ^ 31) nodes.now }
    ensures { (t u : List Row) → AreTables t u both.now
        → OnOk result (each (row_change both.now.maps) rows.new.items ≡ each (row_change both.now.maps) rows.old.items
        ++ flat_map (λ r. stands_of (plain_map both.now.maps.old.map.now.setting t)
        (plain_map both.now.maps.new.map.now.setting u) 0 (items_of (r.now ∷ []))) nodes.now) }
{
    for node in nodes {
        push_standing(both, *node, 0, rows)?;
    }
    Ok(())
}

/// Appends the row of a node of the new map, and the rows below it. Appends nothing if the item of
/// the node and all items that are or were below it are the same in both maps.
fn push_standing<B: Allocator, A: Allocator>(
    both: &Both<'_, A, B>,
    node: &Node<B>,
    depth: u32,
    rows: &mut Vec<TreeRow>,
) -> Result<(), AllocError>
    requires { depth + size_of (items_of (node.now ∷ [])) < 2 ^ 31 }
    ensures { (t u : List Row) → AreTables t u both.now
        → OnOk result (each (row_change both.now.maps) rows.new.items ≡ each (row_change both.now.maps) rows.old.items
        ++ stands_of (plain_map both.now.maps.old.map.now.setting t) (plain_map both.now.maps.new.map.now.setting u) depth
        (items_of (node.now ∷ []))) }
{
    let at = rows.len();
    let is_listed = push_told(both, &node.id(), depth, rows)?;
    match node {
        Node::Device(_) => {
            settle(at, is_listed, rows);
            Ok(())
        }
        Node::Bucket(bucket) => {
            let bucket: &Bucket<B> = bucket;
            let items = bucket.items.as_slice();
            for item in items {
                push_standing(both, item, depth + 1, rows)?;
            }
            push_left(both, bucket.header.id, depth + 1, rows)?;
            settle(at, is_listed, rows);
            Ok(())
        }
    }
}

/// Appends the row of an item of the new map. Returns whether the item differs between the maps.
fn push_told<A: Allocator, B: Allocator>(
    both: &Both<'_, A, B>,
    id: &ItemId,
    depth: u32,
    rows: &mut Vec<TreeRow>,
) -> Result<bool, AllocError>
    ensures row { (t u : List Row) → AreTables t u both.now → OnOk result
        (each (row_change both.now.maps) rows.new.items ≡ each (row_change both.now.maps) rows.old.items
        ++ change_at t u true depth id.now ∷ []) }
    ensures told { IfOk result (λ answer. (t u : List Row) → AreTables t u both.now → answer
        ≡ is_listed_of (plain_map both.now.maps.old.map.now.setting t) (plain_map both.now.maps.new.map.now.setting u)
        id.now) }
{
    let pair = both.pair_of(id);
    let row = TreeRow {
        id: *id,
        pair,
        depth,
        stands: true,
    };
    rows.push(row)?;
    Ok(is_told(&both.maps, pair))
}

/// Removes the row at the position `at` if this row is the last row and `is_listed` is false. As a
/// result, a row stays only if its item differs, or if there are rows below it.
fn settle(at: usize, is_listed: bool, rows: &mut Vec<TreeRow>)
    ensures { (see : TreeRow → ChangeData) (before below : List ChangeData) (row : ChangeData)
        → length before ≡ at → each see rows.old.items ≡ before ++ row ∷ below
        → each see rows.new.items ≡ before ++ with_below is_listed row below }
{
    if !is_listed && rows.len().saturating_sub(at) == 1 {
        rows.truncate(at);
    }
}
