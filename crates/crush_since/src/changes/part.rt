//! Selects a part of the rows of the tree of what has changed.

ghost use Rattle.std.specs.Prelude.{◌≡◌, ◌∷◌, ◌++◌, [], List, IfOk, None, OnOk, Some, map as each};
ghost use Rattle.std.specs.Option.{option_map};
ghost use Rattle.crush_items.specs.SeenItem.{seen_data};
ghost use Rattle.crush_since.specs.ChangePart.{closed_by, cut, down_to, is_closed, is_own_row, row_kind, rows_at, rows_under};
ghost use Rattle.crush_since.specs.Changes.{ChangeData};
ghost use Rattle.crush_since.specs.Equal.{same_option};
ghost use Rattle.crush_since.specs.PartWalk.{reach, row_at, rows_from, rows_reached};
ghost use Rattle.crush_since.specs.SeenChange.{row_change};

use crate::changes::rows::TreeRow;
use crate::changes::seen::is_there;
use crate::since::seen::Seen;
use crush_compare::Comparison;
use crush_print::TreePart;
use crush_units::{ItemId, TypeId};
use std::alloc::{AllocError, Allocator, Global};

/// Where a walk over the rows is: before a part of the rows, within this part, or after it. The
/// part consists of an item's own row and of the rows below this row.
#[derive(Clone, Copy, Debug)]
pub(crate) enum Reached {
    /// The walk hasn't reached the item's own row yet.
    Before,
    /// The walk is at the item's own row, or at a row below it. The number is the depth of the
    /// item's own row.
    Within(u32),
    /// The walk has passed the last row of the part.
    After,
}

/// Returns the rows of a part of the tree. If the part has a top item, these are the top item's own
/// row and the rows below this row. If the part has a type, the rows below each bucket of this type
/// are left out.
pub(super) fn part_of<A: Allocator, B: Allocator>(
    alloc: Global,
    maps: &Comparison<'_, A, B>,
    rows: Vec<TreeRow>,
    part: &TreePart,
) -> Result<Vec<TreeRow>, AllocError>
    ensures { IfOk result (λ kept. each (row_change maps.now) kept.items
        ≡ cut part.now.down_to (rows_under part.now.under (each (row_change maps.now) rows.items))) }
{
    let rows = under(alloc, maps, rows, &part.under)?;
    cut(alloc, maps, rows, part.down_to)
}

fn under<A: Allocator, B: Allocator>(
    alloc: Global,
    maps: &Comparison<'_, A, B>,
    rows: Vec<TreeRow>,
    item: &Option<ItemId>,
) -> Result<Vec<TreeRow>, AllocError>
    ensures { IfOk result (λ kept. each (row_change maps.now) kept.items
        ≡ rows_under item.now (each (row_change maps.now) rows.items)) }
{
    match item {
        Some(item) => rows_at(alloc, maps, rows.as_slice(), item),
        None => Ok(rows),
    }
}

/// Returns the item's own row, and the rows below this row. Returns no rows if the item has no own
/// row.
fn rows_at<A: Allocator, B: Allocator>(
    alloc: Global,
    maps: &Comparison<'_, A, B>,
    rows: &[TreeRow],
    item: &ItemId,
) -> Result<Vec<TreeRow>, AllocError>
    ensures { IfOk result (λ kept. each (row_change maps.now) kept.items
        ≡ rows_at item.now (each (row_change maps.now) rows.now)) }
{
    let mut kept = Vec::new(alloc);
    let mut reached = Reached::Before;
    for row in rows {
        reached = keep_from(maps, item, reached, row, &mut kept)?;
    }
    Ok(kept)
}

/// Appends the row to `kept` if the row is in the part. Returns where the walk is at this row.
fn keep_from<A: Allocator, B: Allocator>(
    maps: &Comparison<'_, A, B>,
    item: &ItemId,
    reached: Reached,
    row: &TreeRow,
    kept: &mut Vec<TreeRow>,
) -> Result<Reached, AllocError>
    ensures { IfOk result (λ now. (rest : List ChangeData)
        → each (row_change maps.now) kept.old.items
        ++ rows_from item.now reached (row_change maps.now row.now ∷ rest)
        ≡ each (row_change maps.now) kept.new.items ++ rows_from item.now now rest) }
{
    let now = reach(maps, item, reached, row);
    push_reached(now, row, kept)?;
    Ok(now)
}

/// Appends the row to `kept` if `now` says that the row is in the part. The depth of the part's top
/// item is subtracted from the row's depth.
fn push_reached(now: Reached, row: &TreeRow, kept: &mut Vec<TreeRow>) -> Result<(), AllocError>
    ensures { OnOk result (kept.new.items ≡ kept.old.items ++ rows_reached now row.now) }
{
    match now {
        Reached::Within(top) => push_row(&row.id, row, row.depth.saturating_sub(top), kept),
        Reached::Before | Reached::After => Ok(()),
    }
}

/// Appends a copy of the row to `kept`. The copy has this id and this depth.
fn push_row(
    id: &ItemId,
    row: &TreeRow,
    depth: u32,
    kept: &mut Vec<TreeRow>,
) -> Result<(), AllocError>
    ensures { OnOk result (kept.new.items ≡ kept.old.items ++ row_at id.now row.now depth ∷ []) }
{
    let row = TreeRow {
        id: *id,
        pair: row.pair,
        depth,
        stands: row.stands,
    };
    kept.push(row)?;
    Ok(())
}

/// Returns where the walk is at this row. `reached` says where the walk was at the row before.
fn reach<A: Allocator, B: Allocator>(
    maps: &Comparison<'_, A, B>,
    item: &ItemId,
    reached: Reached,
    row: &TreeRow,
) -> Reached
    ensures { result ≡ reach item.now reached (row_change maps.now row.now) }
{
    match reached {
        Reached::Before => {
            if is_own_row(maps, item, row) {
                Reached::Within(row.depth)
            } else {
                Reached::Before
            }
        }
        Reached::Within(top) => {
            if top < row.depth {
                Reached::Within(top)
            } else {
                Reached::After
            }
        }
        Reached::After => Reached::After,
    }
}

/// Whether this is the item's own row. That is the row in the place where the new map has the item.
/// If the new map doesn't have the item, it is the row in the place where the old map had the item.
fn is_own_row<A: Allocator, B: Allocator>(
    maps: &Comparison<'_, A, B>,
    item: &ItemId,
    row: &TreeRow,
) -> bool
    ensures { result ≡ is_own_row item.now (row_change maps.now row.now) }
{
    row.id.is_same(*item) && (row.stands || !is_there(maps, row.pair))
}

/// Returns the rows, but leaves out those below a bucket of the type `kind`.
fn cut<A: Allocator, B: Allocator>(
    alloc: Global,
    maps: &Comparison<'_, A, B>,
    rows: Vec<TreeRow>,
    kind: Option<TypeId>,
) -> Result<Vec<TreeRow>, AllocError>
    ensures { IfOk result (λ kept. each (row_change maps.now) kept.items
        ≡ cut kind (each (row_change maps.now) rows.items)) }
{
    match kind {
        Some(kind) => down_to(alloc, maps, rows.as_slice(), kind),
        None => Ok(rows),
    }
}

fn down_to<A: Allocator, B: Allocator>(
    alloc: Global,
    maps: &Comparison<'_, A, B>,
    rows: &[TreeRow],
    kind: TypeId,
) -> Result<Vec<TreeRow>, AllocError>
    ensures { IfOk result (λ kept. each (row_change maps.now) kept.items
        ≡ down_to kind None (each (row_change maps.now) rows.now)) }
{
    let mut kept = Vec::new(alloc);
    let mut closed = None;
    for row in rows {
        closed = keep_open(maps, kind, closed, row, &mut kept)?;
    }
    Ok(kept)
}

/// Appends the row to `kept`, unless the row is below a bucket of the type `kind`. `closed` is the
/// depth of the row that was kept last if the item of that row has the type `kind`, and otherwise
/// `None`. Returns `closed` for the next row.
fn keep_open<A: Allocator, B: Allocator>(
    maps: &Comparison<'_, A, B>,
    kind: TypeId,
    closed: Option<u32>,
    row: &TreeRow,
    kept: &mut Vec<TreeRow>,
) -> Result<Option<u32>, AllocError>
    ensures { IfOk result (λ now. (rest : List ChangeData)
        → each (row_change maps.now) kept.old.items
        ++ down_to kind closed (row_change maps.now row.now ∷ rest)
        ≡ each (row_change maps.now) kept.new.items ++ down_to kind now rest) }
{
    if is_closed(closed, row.depth) {
        return Ok(closed);
    }
    push_row(&row.id, row, row.depth, kept)?;
    Ok(closed_by(maps, kind, row))
}

/// Whether a row of this depth is deeper than `closed`, which means that the row is below the
/// bucket with the depth `closed`. The result is false if `closed` is `None`.
fn is_closed(closed: Option<u32>, depth: u32) -> bool
    ensures { result ≡ is_closed closed depth }
{
    match closed {
        Some(top) => top < depth,
        None => false,
    }
}

/// Returns the row's depth if its item has the type `kind`, and `None` otherwise.
fn closed_by<A: Allocator, B: Allocator>(
    maps: &Comparison<'_, A, B>,
    kind: TypeId,
    row: &TreeRow,
) -> Option<u32>
    ensures { result ≡ closed_by kind (row_change maps.now row.now) }
{
    if same_kind(kind_of(maps, row), kind) {
        Some(row.depth)
    } else {
        None
    }
}

fn same_kind(own: Option<TypeId>, kind: TypeId) -> bool
    ensures { result ≡ same_option own (Some kind) }
{
    match own {
        Some(own) => own.number() == kind.number(),
        None => false,
    }
}

/// Returns the type of the row's item. The type is the one in the new map if the new map has the
/// item in this place, and otherwise the one in the old map.
fn kind_of<A: Allocator, B: Allocator>(maps: &Comparison<'_, A, B>, row: &TreeRow) -> Option<TypeId>
    ensures { result ≡ row_kind (row_change maps.now row.now) }
{
    if row.stands {
        seen_kind(&maps.after(row.pair))
    } else {
        seen_kind(&maps.before(row.pair))
    }
}

fn seen_kind(item: &Option<Seen<'_>>) -> Option<TypeId>
    ensures { result ≡ option_map (λ v. v.view.kind) (option_map seen_data item.now) }
{
    match item {
        Some(item) => Some(item.view.kind),
        None => None,
    }
}
