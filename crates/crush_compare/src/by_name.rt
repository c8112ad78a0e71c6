//! Matches the items of two maps by their names.

ghost use Rattle.std.specs.Prelude.{◌≡◌, ◌<◌, ◌^◌, [], ◌∷◌, ◌++◌, List, None, Some, IfOk, OnOk, flat_map, if◌then◌else◌, is_some, length, map as each};
ghost use Rattle.crush_model.specs.Stands.{Stands};
ghost use Rattle.crush_model.specs.Table.{Row};
ghost use Rattle.crush_items.specs.ById.{AreById};
ghost use Rattle.crush_items.specs.Entries.{EntryData};
ghost use Rattle.crush_items.specs.Items.{HasEntries, item_entry, item_step};
ghost use Rattle.crush_items.specs.Tree.{tree_rows};
ghost use Rattle.crush_compare.specs.Named.{counterpart};
ghost use Rattle.crush_compare.specs.NamedPairs.{new_pair, old_pair, pairs};
ghost use Rattle.crush_compare.specs.PairItems.{item_at, items_at};

use crate::by_id::{Pair, position};
use crate::identity::{Devices, are_one};
use crush_items::{ById, Item, Items};
use crush_map::CrushMap;
use std::alloc::{AllocError, Allocator, Global};

/// Matches the items of two maps by their names, and returns the pairs. First comes a pair for each
/// item of the new map, in the order of the new map's tree. If the old map has the same item, this
/// pair also has its position in the old map. Then comes a pair for each item that only the old map
/// has, in the order of the old map's tree. The call looks up the name of each item once in the
/// other map.
pub(crate) fn pairs_by_name<A: Allocator, B: Allocator>(
    alloc: Global,
    devices: Devices,
    old: &Items<'_, A>,
    new: &Items<'_, B>,
) -> Result<Vec<Pair>, AllocError>
    requires old { length old.now.all.items < 2 ^ 32 }
    requires new { length new.now.all.items < 2 ^ 32 }
    ensures { IfOk result (λ found. (t u : List Row) → Stands old.now.map.now.forest t
        → Stands new.now.map.now.forest u
        → HasEntries t (each item_entry old.now.all.items)
        → HasEntries u (each item_entry new.now.all.items)
        → each item_step old.now.all.items ≡ tree_rows t
        → each item_step new.now.all.items ≡ tree_rows u
        → each (items_at (each item_entry old.now.all.items) (each item_entry new.now.all.items))
        found.items ≡ pairs devices None t u) }
{
    let by_id = old.by_id(alloc)?;
    let mut pairs = Vec::new(alloc);
    push_new(devices, old.map, &by_id, new.all.as_slice(), &mut pairs)?;
    push_gone(devices, old.all.as_slice(), new.map, &mut pairs)?;
    Ok(pairs)
}

/// Appends a pair for each item of the new map. If the old map has the same item, the pair also has
/// its position in the old map. `by_id` finds the position of an old map's item by the item's id.
fn push_new<A: Allocator, B: Allocator>(
    devices: Devices,
    old: &CrushMap<A>,
    by_id: &ById,
    items: &[Item<'_, B>],
    pairs: &mut Vec<Pair>,
) -> Result<(), AllocError>
    requires few { length items.now < 2 ^ 32 }
    ensures { OnOk result ((t u : List Row) (es : List EntryData) → Stands old.now.forest t
        → AreById t es by_id.now.places.items
        → each (items_at es (each item_entry items.now)) pairs.new.items
        ≡ each (items_at es (each item_entry items.now)) pairs.old.items
        ++ flat_map (λ x. new_pair devices None t u (item_entry x).item) items.now) }
{
    let mut at: u32 = 0;
    for item in items {
        let before = counterpart(devices, old, by_id, item);
        pairs.push(Pair {
            before,
            after: Some(at),
        })?;
        at += 1;
    }
    Ok(())
}

/// `items` are the items of the old map. For each of these items that the new map doesn't have,
/// appends a pair with the item's position in the old map.
fn push_gone<A: Allocator, B: Allocator>(
    devices: Devices,
    items: &[Item<'_, A>],
    new: &CrushMap<B>,
    pairs: &mut Vec<Pair>,
) -> Result<(), AllocError>
    requires few { length items.now < 2 ^ 32 }
    ensures { OnOk result ((t u : List Row) (fs : List EntryData) → Stands new.now.forest u
        → each (items_at (each item_entry items.now) fs) pairs.new.items
        ≡ each (items_at (each item_entry items.now) fs) pairs.old.items
        ++ flat_map (λ x. old_pair devices None t u (item_entry x).item) items.now) }
{
    let mut at: u32 = 0;
    for item in items {
        let is_gone = !has_counterpart(devices, new, item);
        push_if_gone(is_gone, at, pairs)?;
        at += 1;
    }
    Ok(())
}

fn push_if_gone(is_gone: bool, at: u32, pairs: &mut Vec<Pair>) -> Result<(), AllocError>
    ensures { OnOk result (pairs.new.items ≡ pairs.old.items
        ++ (if is_gone then record { before = Some at; after = None } ∷ [] else [])) }
{
    if !is_gone {
        return Ok(());
    }
    pairs.push(Pair {
        before: Some(at),
        after: None,
    })?;
    Ok(())
}

/// `item` is an item of the new map. Returns the position of the same item in the old map, or
/// `None` if the old map doesn't have this item. `by_id` finds the position of an old map's item by
/// the item's id.
#[tactic(auto, unfolding(crate::specs::Named::counterpart))]
fn counterpart<A: Allocator, B: Allocator>(
    devices: Devices,
    old: &CrushMap<A>,
    by_id: &ById,
    item: &Item<'_, B>,
) -> Option<u32>
    ensures { (t : List Row) (es : List EntryData) → Stands old.now.forest t
        → AreById t es by_id.now.places.items
        → item_at es result ≡ counterpart devices t (item_entry item.now).item }
{
    let view = item.view();
    let Some(id) = old.locate(view.name) else {
        return None;
    };
    let is_one = are_one(devices, &view.id, &id);
    if is_one {
        position(by_id.find(id))
    } else {
        None
    }
}

/// `item` is an item of the old map. Returns whether the new map has the same item.
#[tactic(auto, unfolding(crate::specs::Named::counterpart))]
fn has_counterpart<A: Allocator, B: Allocator>(
    devices: Devices,
    new: &CrushMap<B>,
    item: &Item<'_, A>,
) -> bool
    ensures { (u : List Row) → Stands new.now.forest u
        → result ≡ is_some (counterpart devices u (item_entry item.now).item) }
{
    let view = item.view();
    match new.locate(view.name) {
        Some(id) => are_one(devices, &view.id, &id),
        None => false,
    }
}
