//! Matches items of two maps by their ids. Finds only the pairs of one item and of the items below
//! this item.

ghost use Rattle.std.specs.Prelude.{◌≡◌, ◌∷◌, ◌++◌, ◌<◌, ◌^◌, [], List, IfOk, OnOk, filter, length, map as each};
ghost use Rattle.crush_model.specs.Stands.{Stands};
ghost use Rattle.crush_model.specs.Table.{Row};
ghost use Rattle.crush_items.specs.ById.{AreById};
ghost use Rattle.crush_items.specs.Items.{HasEntries, item_entry, item_step};
ghost use Rattle.crush_items.specs.Tree.{tree_rows};
ghost use Rattle.crush_compare.specs.IdPairs.{entries_at, id_entries};
ghost use Rattle.crush_compare.specs.PartIds.{part_ids};
ghost use Rattle.crush_compare.specs.Within.{IsRunOf, has_item_within, is_within};

use crate::by_id::{Pair, pairs_by_key};
use crush_items::{ById, Items, Run};
use crush_units::ItemId;
use std::alloc::{AllocError, Allocator, Global};

/// Matches the items of two maps by their ids. Returns the pair of the item with the id `under`,
/// and the pair of each item that is below this item in at least one of the maps. If neither map
/// has the item `under`, returns no pairs. The pairs are in the order of the ids: buckets from -1
/// downward, and then devices upward.
pub(crate) fn pairs_below<A: Allocator, B: Allocator>(
    alloc: Global,
    old: &Items<'_, A>,
    new: &Items<'_, B>,
    under: ItemId,
) -> Result<Vec<Pair>, AllocError>
    requires old { length old.now.all.items < 2 ^ 32 }
    requires new { length new.now.all.items < 2 ^ 32 }
    ensures { IfOk result (λ pairs. (t u : List Row) → Stands old.now.map.now.forest t
        → Stands new.now.map.now.forest u
        → HasEntries t (each item_entry old.now.all.items)
        → HasEntries u (each item_entry new.now.all.items)
        → each item_step old.now.all.items ≡ tree_rows t
        → each item_step new.now.all.items ≡ tree_rows u
        → each (entries_at (each item_entry old.now.all.items) (each item_entry new.now.all.items))
        pairs.items ≡ each (id_entries t u) (part_ids t u under)) }
{
    let before = old.by_id(alloc)?;
    let after = new.by_id(alloc)?;
    let old_places = before.places.as_slice();
    let new_places = after.places.as_slice();
    let pairs = pairs_by_key(alloc, old_places, new_places)?;
    let old_run = run_of(old, &before, &under);
    let new_run = run_of(new, &after, &under);
    pairs_within(alloc, &old_run, &new_run, pairs.as_slice())
}

/// Returns the positions of the item `under` and of all items below it, as a range. If the map
/// doesn't have the item `under`, the range is empty. `by_id` finds the position of an item by the
/// item's id.
fn run_of<A: Allocator>(items: &Items<'_, A>, by_id: &ById, under: &ItemId) -> Run
    requires few { length items.now.all.items < 2 ^ 32 }
    ensures { (t : List Row) → Stands items.now.map.now.forest t
        → AreById t (each item_entry items.now.all.items) by_id.now.places.items
        → HasEntries t (each item_entry items.now.all.items)
        → each item_step items.now.all.items ≡ tree_rows t
        → IsRunOf t (each item_entry items.now.all.items) under.now result }
{
    match by_id.find(*under) {
        Some(place) => items.run(place.at),
        None => Run { from: 0, to: 0 },
    }
}

/// Returns the pairs whose position in the old map is in the run `old`, or whose position in the
/// new map is in the run `new`. The pairs stay in their order. A run is a range of positions.
pub(crate) fn pairs_within(
    alloc: Global,
    old: &Run,
    new: &Run,
    pairs: &[Pair],
) -> Result<Vec<Pair>, AllocError>
    ensures { IfOk result (λ within. within.items ≡ filter (has_item_within old.now new.now) pairs.now) }
{
    let mut within = Vec::new(alloc);
    for pair in pairs {
        push_if_within(old, new, *pair, &mut within)?;
    }
    Ok(within)
}

fn push_if_within(
    old: &Run,
    new: &Run,
    pair: Pair,
    within: &mut Vec<Pair>,
) -> Result<(), AllocError>
    ensures { OnOk result (within.new.items
        ≡ within.old.items ++ filter (has_item_within old.now new.now) (pair ∷ [])) }
{
    if is_within(old, pair.before) || is_within(new, pair.after) {
        within.push(pair)?;
    }
    Ok(())
}

/// Whether the position `at` is in the run. If `at` is `None`, the result is false.
fn is_within(run: &Run, at: Option<u32>) -> bool
    ensures { result ≡ is_within run.now at }
{
    match at {
        Some(at) => run.from <= at && at < run.to,
        None => false,
    }
}
