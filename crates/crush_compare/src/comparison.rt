//! Compares two maps: decides which items of the two maps are the same item, and lists these items
//! as pairs.

ghost use Rattle.std.specs.Prelude.{◌≡◌, ◌<◌, ◌^◌, List, IfOk, length, map as each, option_and_then};
ghost use Rattle.std.specs.Cmp.Lexicographic.{pointwise};
ghost use Rattle.std.specs.List.{slice_get};
ghost use Rattle.std.specs.Option.{option_map};
ghost use Rattle.crush_model.specs.Lawful.{Lawful};
ghost use Rattle.crush_model.specs.Stands.{Stands};
ghost use Rattle.crush_model.specs.Table.{Row};
ghost use Rattle.crush_nodes.specs.Seen.{shadow_data};
ghost use Rattle.crush_items.specs.Items.{HasEntries, item_entry};
ghost use Rattle.crush_items.specs.SeenItem.{seen_data};
ghost use Rattle.crush_compare.specs.declared.identity.Identity.TheVariants.{Ids, Names};
ghost use Rattle.crush_compare.specs.AllIds.{all_ids};
ghost use Rattle.crush_compare.specs.Comparison.{AreOfTrees, IsOfIds, IsOfIdsBelow, IsOfNames, IsPartOfNames, pair_entries};
ghost use Rattle.crush_compare.specs.IdPairs.{class_ids_of, entries_at, id_entries, pair_difference};
ghost use Rattle.crush_compare.specs.SameItem.{same_class_id};

use crate::below::pairs_below;
use crate::by_id::{Pair, pairs_by_key};
use crate::by_name::pairs_by_name;
use crate::columns::same_class_ids;
use crate::difference::{Difference, Report};
use crate::identity::{Devices, Identity};
use crate::part::pairs_by_name_under;
use crush_items::{Items, Seen};
use crush_map::CrushMap;
use crush_tree::ShadowId;
use crush_units::ItemId;
use std::alloc::{AllocError, Allocator, Global};

/// The items of two maps, and the pairs of these items. There is one pair for each item that at
/// least one of the maps has. If only a part of the maps is compared, there are only the pairs of
/// this part.
#[derive(Drop)]
pub struct Comparison<'a, A: Allocator, B: Allocator> {
    /// How the items are matched: by their ids or by their names.
    pub identity: Identity,
    /// All items of the old map, even if only a part of the maps is compared.
    pub old: Items<'a, A>,
    /// All items of the new map, even if only a part of the maps is compared.
    pub new: Items<'a, B>,
    /// If the items are matched by their ids, the pairs are in the order of the ids: buckets from
    /// -1 downward, and then devices upward. If the items are matched by their names, first come
    /// the pairs with an item of the new map, in the order of the new map's tree. After them come
    /// the pairs of the items that only the old map has, in the order of the old map's tree.
    pub pairs: Vec<Pair>,
}

impl<'a, A: Allocator, B: Allocator> Comparison<'a, A, B> {
    /// Compares two maps by the ids of their items: as in CRUSH itself, two items with the same id
    /// are the same item. The call visits each item of each map once, and sorts the items of each
    /// map once. It fails only if memory runs out.
    pub fn by_ids(
        alloc: Global,
        old: &'a CrushMap<A>,
        new: &'a CrushMap<B>,
    ) -> Result<Comparison<'a, A, B>, AllocError>
        ensures identity { IfOk result (λ both. both.identity ≡ Ids) }
        ensures old { IfOk result (λ both. both.old.map.now ≡ old.now) }
        ensures new { IfOk result (λ both. both.new.map.now ≡ new.now) }
        ensures pairs { IfOk result (λ both. (t u : List Row) → Stands old.now.forest t
            → Stands new.now.forest u → IsOfIds t u both) }
        ensures trees { IfOk result (λ both. (t u : List Row) → Stands old.now.forest t
            → Stands new.now.forest u → AreOfTrees t u both) }
    {
        let before = Items::of(alloc, old)?;
        let after = Items::of(alloc, new)?;
        let pairs = pairs_by_id(alloc, &before, &after)?;
        Ok(Comparison {
            identity: Identity::Ids,
            old: before,
            new: after,
            pairs,
        })
    }

    /// Compares one part of two maps by the ids of the items. The part consists of the item with
    /// the id `under`, and of all items that are below this item in at least one of the maps. If
    /// neither map has this item, there are no pairs. The call visits each item of each map once,
    /// and sorts the items of each map once. It fails only if memory runs out.
    pub fn by_ids_below(
        alloc: Global,
        old: &'a CrushMap<A>,
        new: &'a CrushMap<B>,
        under: ItemId,
    ) -> Result<Comparison<'a, A, B>, AllocError>
        ensures identity { IfOk result (λ both. both.identity ≡ Ids) }
        ensures old { IfOk result (λ both. both.old.map.now ≡ old.now) }
        ensures new { IfOk result (λ both. both.new.map.now ≡ new.now) }
        ensures pairs { IfOk result (λ both. (t u : List Row) → Stands old.now.forest t
            → Stands new.now.forest u → IsOfIdsBelow under t u both) }
    {
        let before = Items::of(alloc, old)?;
        let after = Items::of(alloc, new)?;
        let pairs = pairs_below(alloc, &before, &after, under)?;
        Ok(Comparison {
            identity: Identity::Ids,
            old: before,
            new: after,
            pairs,
        })
    }

    /// Compares two maps by the names of their items. Two buckets of the same name are the same
    /// bucket. `devices` says when two devices of the same name are the same device. A bucket and a
    /// device are never the same item. The call visits each item of each map once, looks up each
    /// item's name once in the other map, and sorts the items of the old map once. It fails only if
    /// memory runs out.
    pub fn by_names(
        alloc: Global,
        devices: Devices,
        old: &'a CrushMap<A>,
        new: &'a CrushMap<B>,
    ) -> Result<Comparison<'a, A, B>, AllocError>
        ensures identity { IfOk result (λ both. both.identity ≡ Names devices) }
        ensures old { IfOk result (λ both. both.old.map.now ≡ old.now) }
        ensures new { IfOk result (λ both. both.new.map.now ≡ new.now) }
        ensures pairs { IfOk result (λ both. (t u : List Row) → Stands old.now.forest t
            → Stands new.now.forest u → IsOfNames devices t u both) }
    {
        let before = Items::of(alloc, old)?;
        let after = Items::of(alloc, new)?;
        let pairs = pairs_by_name(alloc, devices, &before, &after)?;
        Ok(Comparison {
            identity: Identity::Names(devices),
            old: before,
            new: after,
            pairs,
        })
    }

    /// Compares one part of two maps by the names of the items, as [`Comparison::by_names`] does
    /// for the whole maps. In each map, the part consists of the item with the name `under` and of
    /// all items below this item. If a map has no item of this name, the part has no items of this
    /// map. The comparison has the pairs of which at least one item is in the part. If `under` is
    /// `None`, the part is the whole of both maps. The call fails only if memory runs out.
    pub fn by_names_part(
        alloc: Global,
        devices: Devices,
        under: Option<&str>,
        old: &'a CrushMap<A>,
        new: &'a CrushMap<B>,
    ) -> Result<Comparison<'a, A, B>, AllocError>
        ensures identity { IfOk result (λ both. both.identity ≡ Names devices) }
        ensures old { IfOk result (λ both. both.old.map.now ≡ old.now) }
        ensures new { IfOk result (λ both. both.new.map.now ≡ new.now) }
        ensures pairs { IfOk result (λ both. (t u : List Row) → Stands old.now.forest t
            → Stands new.now.forest u
            → IsPartOfNames devices (option_map (λ n. n.now) under.entry) t u both) }
    {
        let before = Items::of(alloc, old)?;
        let after = Items::of(alloc, new)?;
        let pairs = pairs_by_name_under(alloc, devices, under, &before, &after)?;
        Ok(Comparison {
            identity: Identity::Names(devices),
            old: before,
            new: after,
            pairs,
        })
    }

    /// Returns what the old map says about the item of a pair, or `None` if the old map doesn't
    /// have the item.
    pub fn before(&self, pair: Pair) -> Option<Seen<'a>>
        ensures { option_map seen_data result
            ≡ option_map (λ e. e.item) (pair_entries self.now pair).before }
    {
        seen_at(&self.old, pair.before)
    }

    /// Returns what the new map says about the item of a pair, or `None` if the new map doesn't
    /// have the item.
    pub fn after(&self, pair: Pair) -> Option<Seen<'a>>
        ensures { option_map seen_data result
            ≡ option_map (λ e. e.item) (pair_entries self.now pair).after }
    {
        seen_at(&self.new, pair.after)
    }

    /// Returns whether both maps have the same class ids for the item of a pair, in the same order.
    /// Class ids are the ids that Ceph gives to a bucket for each device class. A map that doesn't
    /// have the item has no class ids for it.
    pub fn same_class_ids(&self, pair: Pair) -> bool
        ensures { result
            ≡ pointwise same_class_id (class_ids_of (pair_entries self.now pair).before)
            (class_ids_of (pair_entries self.now pair).after) }
    {
        let before = class_ids_at(&self.old, pair.before);
        let after = class_ids_at(&self.new, pair.after);
        same_class_ids(before, after)
    }

    /// Returns what differs between the items of a pair, or `None` if nothing differs. `report`
    /// says which differences count. If items are matched by their names, this method compares no
    /// ids. Instead, it compares the names of the items' types, and the names of the buckets that
    /// hold the items.
    pub fn difference(&self, report: Report, pair: Pair) -> Option<Difference>
        ensures { result ≡ pair_difference self.now.identity report self.now.old.map.now.setting
            self.now.new.map.now.setting (pair_entries self.now pair) }
    {
        let same = self.same_class_ids(pair);
        Difference::of(
            self.identity,
            report,
            self.old.map.setting(),
            self.new.map.setting(),
            &self.before(pair),
            &self.after(pair),
            same,
        )
    }
}

fn pairs_by_id<A: Allocator, B: Allocator>(
    alloc: Global,
    old: &Items<'_, A>,
    new: &Items<'_, B>,
) -> Result<Vec<Pair>, AllocError>
    requires old { length old.now.all.items < 2 ^ 32 }
    requires new { length new.now.all.items < 2 ^ 32 }
    ensures { IfOk result (λ pairs. (t u : List Row) → Lawful t → Lawful u
        → HasEntries t (each item_entry old.now.all.items)
        → HasEntries u (each item_entry new.now.all.items)
        → each (entries_at (each item_entry old.now.all.items) (each item_entry new.now.all.items))
        pairs.items ≡ each (id_entries t u) (all_ids t u)) }
{
    let before = old.by_id(alloc)?;
    let after = new.by_id(alloc)?;
    let old_places = before.places.as_slice();
    let new_places = after.places.as_slice();
    let pairs = pairs_by_key(alloc, old_places, new_places)?;
    Ok(pairs)
}

fn seen_at<'a, A: Allocator>(items: &Items<'a, A>, at: Option<u32>) -> Option<Seen<'a>>
    ensures { option_map seen_data result ≡ option_map (λ e. e.item)
        (option_and_then (slice_get (each item_entry items.now.all.items)) at) }
{
    match at {
        Some(at) => items.seen(at),
        None => None,
    }
}

fn class_ids_at<'a, A: Allocator>(items: &Items<'a, A>, at: Option<u32>) -> &'a [ShadowId<A>]
    ensures { each shadow_data result.now ≡ class_ids_of
        (option_and_then (slice_get (each item_entry items.now.all.items)) at) }
{
    match at {
        Some(at) => items.class_ids(at),
        None => &[],
    }
}
