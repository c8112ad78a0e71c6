//! Swaps two buckets if each of them has to get the other's name, and if more of their items have
//! to move from one bucket to the other than have to stay.

ghost use Rattle.std.specs.Prelude.{OnOk};
ghost use Rattle.crush_plan.specs.Draft.{GoesOn};

use crate::draft::Draft;
use crate::goal::PlanGoal;
use crate::identity::BucketPair;
use crate::item_table::ItemTable;
use crate::way::Way;
use crush_map::CrushMap;
use crush_tree::Node;
use crush_units::{BucketId, ItemId};
use std::alloc::{AllocError, Allocator};

/// Swaps two buckets if each of them has to get the other's name, and if the number of their items
/// that have to move from one of them to the other is greater than the number of items that stay.
/// One swap exchanges the names and the items of the two buckets.
pub(crate) fn swap_all<A: Allocator + Clone, B: Allocator>(
    draft: &mut Draft<A>,
    goal: &PlanGoal<'_, A, B>,
    way: &Way<'_, A>,
) -> Result<(), AllocError>
    ensures { OnOk result (GoesOn goal.now draft.old draft.new) }
{
    for pair in way.pairs.renamed.as_slice() {
        swap_one(draft, goal, way, pair)?;
    }
    Ok(())
}

/// Swaps the bucket with its [`partner`], if it has a partner and [`is_worth`] is true for the two
/// buckets. Does nothing if the two buckets have been swapped already.
fn swap_one<A: Allocator + Clone, B: Allocator>(
    draft: &mut Draft<A>,
    goal: &PlanGoal<'_, A, B>,
    way: &Way<'_, A>,
    pair: &BucketPair,
) -> Result<(), AllocError>
    ensures { OnOk result (GoesOn goal.now draft.old draft.new) }
{
    let (Some(name), Some(other)) = (way.name_at_start(pair), partner(goal, way, pair)) else {
        return Ok(());
    };
    let Some(other_name) = way.name_at_start(&other) else {
        return Ok(());
    };
    if draft.has_item(ItemId::Bucket(pair.current), name)
        && is_worth(&draft.map, &goal.there, pair, &other)
    {
        draft.swap(goal, name.as_bytes(), other_name.as_bytes())
    } else {
        Ok(())
    }
}

/// Returns the pair of the bucket's partner, or `None` if there is no partner. Each of two partners
/// has to get the other's name.
fn partner<A: Allocator, B: Allocator>(
    goal: &PlanGoal<'_, A, B>,
    way: &Way<'_, A>,
    pair: &BucketPair,
) -> Option<BucketPair> {
    let to = goal.there.name_of(ItemId::Bucket(pair.target))?;
    let other = way.renamed(goal, way.start.bucket_named(to)?)?;
    let back = goal.there.name_of(ItemId::Bucket(other.target))?;
    if way.start.bucket_named(back)? == pair.current {
        Some(other)
    } else {
        None
    }
}

/// Whether the number of the two buckets' items that have to move from one of them to the other is
/// greater than the number of items that stay.
fn is_worth<A: Allocator, B: Allocator>(
    map: &CrushMap<A>,
    wanted: &ItemTable<'_, B>,
    a: &BucketPair,
    b: &BucketPair,
) -> bool {
    let a_stay = u64::from(count_below(map, wanted, a.current, a.target));
    let b_stay = u64::from(count_below(map, wanted, b.current, b.target));
    let a_leave = u64::from(count_below(map, wanted, a.current, b.target));
    let b_leave = u64::from(count_below(map, wanted, b.current, a.target));
    a_stay + b_stay < a_leave + b_leave
}

/// Returns how many items of the map's bucket `from` are in the bucket `to` in the wanted map. The
/// items of the two maps are matched by their ids.
fn count_below<A: Allocator, B: Allocator>(
    map: &CrushMap<A>,
    wanted: &ItemTable<'_, B>,
    from: BucketId,
    to: BucketId,
) -> u32 {
    match map.items(from) {
        Some(items) => count_in(items, wanted, to),
        None => 0,
    }
}

/// Returns how many of `items` are directly in `bucket` in the wanted map. An item of the wanted
/// map is the same as one of `items` if both have the same id.
fn count_in<A: Allocator, B: Allocator>(
    items: &[Node<A>],
    wanted: &ItemTable<'_, B>,
    bucket: BucketId,
) -> u32 {
    let mut count: u32 = 0;
    for item in items {
        if wanted.parent(item.id()) == Some(bucket) {
            count = count.saturating_add(1);
        }
    }
    count
}
