//! Finds the pairs of one part of two maps. In each map, the part consists of the item that has a
//! given name, and of all items below this item.

ghost use Rattle.std.specs.Option.{option_map};
ghost use Rattle.std.specs.Prelude.{◌≡◌, ◌<◌, ◌^◌, List, IfOk, filter, length, map as each};
ghost use Rattle.crush_model.specs.Stands.{Stands};
ghost use Rattle.crush_model.specs.Table.{Row};
ghost use Rattle.crush_items.specs.Items.{HasEntries, item_entry, item_step};
ghost use Rattle.crush_items.specs.Tree.{tree_rows};
ghost use Rattle.crush_compare.specs.Named.{is_at, is_in};
ghost use Rattle.crush_compare.specs.NamedPairs.{is_in_part, pairs};
ghost use Rattle.crush_compare.specs.PairItems.{items_at};
ghost use Rattle.crush_compare.specs.NamedPart.{AreAt, IsPartOf};

use crate::below::pairs_within;
use crate::by_id::Pair;
use crate::by_name::pairs_by_name;
use crate::identity::Devices;
use crush_items::{Items, Run};
use crush_map::CrushMap;
use crush_units::ItemId;
use std::alloc::{AllocError, Allocator, Global};

/// Whether an item of the map is in the part that `under` selects. The part is the item with the
/// name `under` and all items below it. If no item has this name, no item is in the part. If
/// `under` is `None`, the part is the whole map, so every item is in it.
pub fn is_in<A: Allocator>(map: &CrushMap<A>, under: Option<&str>, id: ItemId) -> bool
    ensures { (t : List Row) → Stands map.now.forest t
        → result ≡ is_in (option_map (λ n. n.now) under.entry) t id }
{
    match under {
        Some(name) => match map.locate(name) {
            Some(top) => is_at(map, &top, id),
            None => false,
        },
        None => true,
    }
}

/// Whether the item `id` is `top` itself or below `top`.
fn is_at<A: Allocator>(map: &CrushMap<A>, top: &ItemId, id: ItemId) -> bool
    ensures { (t : List Row) → Stands map.now.forest t → result ≡ is_at t top.now id }
{
    match top {
        ItemId::Device(device) => ItemId::Device(*device).is_same(id),
        ItemId::Bucket(bucket) => map.contains(*bucket, id),
    }
}

/// Matches the items of two maps by their names, and returns the pairs whose item is in the part
/// that `under` selects, in at least one of the maps. If `under` is `None`, returns all pairs.
pub(crate) fn pairs_by_name_under<A: Allocator, B: Allocator>(
    alloc: Global,
    devices: Devices,
    under: Option<&str>,
    old: &Items<'_, A>,
    new: &Items<'_, B>,
) -> Result<Vec<Pair>, AllocError>
    requires old { length old.now.all.items < 2 ^ 32 }
    requires new { length new.now.all.items < 2 ^ 32 }
    ensures { IfOk result (λ found. (t u : List Row) → Stands old.now.map.now.forest t
        → Stands new.now.map.now.forest u
        → HasEntries t (each item_entry old.now.all.items)
        → HasEntries u (each item_entry new.now.all.items)
        → each item_step old.now.all.items ≡ tree_rows t
        → each item_step new.now.all.items ≡ tree_rows u
        → each (items_at (each item_entry old.now.all.items) (each item_entry new.now.all.items))
        found.items ≡ pairs devices (option_map (λ n. n.now) under.entry) t u) }
{
    let all = pairs_by_name(alloc, devices, old, new)?;
    match under {
        Some(name) => pairs_in_part(alloc, name, old, new, all.as_slice()),
        None => Ok(all),
    }
}

/// Returns the pairs whose item, in at least one of the maps, has the name `name` or is below the
/// item with this name.
fn pairs_in_part<A: Allocator, B: Allocator>(
    alloc: Global,
    name: &str,
    old: &Items<'_, A>,
    new: &Items<'_, B>,
    pairs: &[Pair],
) -> Result<Vec<Pair>, AllocError>
    requires old { length old.now.all.items < 2 ^ 32 }
    requires new { length new.now.all.items < 2 ^ 32 }
    ensures { IfOk result (λ kept. (t u : List Row) → Stands old.now.map.now.forest t
        → Stands new.now.map.now.forest u
        → HasEntries t (each item_entry old.now.all.items)
        → HasEntries u (each item_entry new.now.all.items)
        → each item_step old.now.all.items ≡ tree_rows t
        → each item_step new.now.all.items ≡ tree_rows u
        → each (items_at (each item_entry old.now.all.items) (each item_entry new.now.all.items))
        kept.items ≡ filter (is_in_part name.now t u) (each
        (items_at (each item_entry old.now.all.items) (each item_entry new.now.all.items))
        pairs.now)) }
{
    let before = part_of(alloc, name, old)?;
    let after = part_of(alloc, name, new)?;
    pairs_within(alloc, &before, &after, pairs)
}

/// Returns the positions of the item with the name `name` and of all items below it, as a range. If
/// no item has this name, the range is empty. Otherwise the call sorts the items once.
fn part_of<A: Allocator>(alloc: Global, name: &str, items: &Items<'_, A>) -> Result<Run, AllocError>
    requires few { length items.now.all.items < 2 ^ 32 }
    ensures { IfOk result (λ run. (t : List Row) → Stands items.now.map.now.forest t
        → HasEntries t (each item_entry items.now.all.items)
        → each item_step items.now.all.items ≡ tree_rows t
        → IsPartOf name.now t (each item_entry items.now.all.items) run) }
{
    match items.map.locate(name) {
        Some(top) => positions_at(alloc, top, items),
        None => Ok(Run { from: 0, to: 0 }),
    }
}

/// Returns the positions of the item with the id `top` and of all items below it, as a range. If
/// the map doesn't have this item, the range is empty.
fn positions_at<A: Allocator>(
    alloc: Global,
    top: ItemId,
    items: &Items<'_, A>,
) -> Result<Run, AllocError>
    requires few { length items.now.all.items < 2 ^ 32 }
    ensures { IfOk result (λ run. (t : List Row) → Stands items.now.map.now.forest t
        → HasEntries t (each item_entry items.now.all.items)
        → each item_step items.now.all.items ≡ tree_rows t
        → AreAt top t (each item_entry items.now.all.items) run) }
{
    let by_id = items.by_id(alloc)?;
    match by_id.find(top) {
        Some(place) => Ok(items.run(place.at)),
        None => Ok(Run { from: 0, to: 0 }),
    }
}
