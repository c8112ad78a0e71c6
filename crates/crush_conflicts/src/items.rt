//! The items of a map, which are found by their ids and by their names.

ghost use Rattle.std.specs.Prelude.{◌≡◌, List, IfOk, is_some, map as each, option_and_then};
ghost use Rattle.std.specs.List.{slice_get};
ghost use Rattle.std.specs.Option.{option_map};
ghost use Rattle.crush_model.specs.Stands.{Stands};
ghost use Rattle.crush_model.specs.Table.{Row, is_there, id_named, name_of};
ghost use Rattle.crush_items.specs.ItemData.{item_of};
ghost use Rattle.crush_items.specs.Items.{item_entry, item_step};
ghost use Rattle.crush_items.specs.SeenItem.{seen_data};
ghost use Rattle.crush_items.specs.Tree.{tree_rows};

use crush_items::{ById, Item, Items, Seen};
use crush_map::CrushMap;
use crush_units::ItemId;
use std::alloc::{AllocError, Allocator, Global};
use std::marker::Model;

/// The items of a map in the order of the map's tree, with an index that finds an item by its id.
///
/// The index makes a binary search. The map has a lookup of its own, which goes from the item up to
/// its root. This takes long if the buckets are deeply nested.
#[derive(Drop)]
pub(crate) struct KnownItems<'a, A: Allocator> {
    items: Items<'a, A>,
    by_id: ById,
}

impl<'a, A: Allocator> Model for KnownItems<'a, A> {
    ghost use Rattle.crush_model.specs.Forest.{ForestData};
    ghost use Rattle.crush_model.specs.Codes.{coded_forest};
    ghost use Rattle.crush_conflicts.specs.KnownItems.{AreItemsOf};

    ghost Value = { ForestData };

    ghost coded = { coded_forest };

    ghost view = { λ k. k.items.map.now.forest };

    ghost invariant = { λ k. AreItemsOf k.items.map.now.forest k.items.all.items k.by_id.places.items };
}

impl<'a, A: Allocator> KnownItems<'a, A> {
    /// Returns the items of a map. The call visits each item once, and sorts the items once. It
    /// fails only if memory runs out.
    pub(crate) fn of(alloc: Global, map: &'a CrushMap<A>) -> Result<KnownItems<'a, A>, AllocError>
        ensures { IfOk result (λ known. known ≡ map.now.forest) }
    {
        let items = Items::of(alloc, map)?;
        let by_id = items.by_id(alloc)?;
        Ok(KnownItems { items, by_id })
    }

    /// Returns the items in the order of the map's tree.
    pub(crate) fn in_order(&self) -> &[Item<'a, A>]
        ensures { (t : List Row) → Stands self.now t → each item_step result.now ≡ tree_rows t }
    {
        self.items.all.as_slice()
    }

    /// Returns the item with this id, or `None` if there is no such item.
    pub(crate) fn item(&self, id: ItemId) -> Option<&Item<'a, A>>
        ensures { (t : List Row) → Stands self.now t
            → option_map (λ x. (item_entry x.now).item) result ≡ item_of t id }
    {
        match self.by_id.find(id) {
            Some(place) => item_at(self.items.all.as_slice(), place.at),
            None => None,
        }
    }

    /// Returns what the map says about the item with this id, or `None` if there is no such item.
    pub(crate) fn find(&self, id: ItemId) -> Option<Seen<'a>>
        ensures { (t : List Row) → Stands self.now t
            → option_map seen_data result ≡ item_of t id }
    {
        seen_of(self.item(id))
    }

    /// Whether the map has an item with this id.
    pub(crate) fn has(&self, id: &ItemId) -> bool
        ensures { (t : List Row) → Stands self.now t → result ≡ is_there t id.now }
    {
        self.find(*id).is_some()
    }

    /// Returns the name of the item with this id, or `None` if there is no such item.
    pub(crate) fn name_of(&self, id: ItemId) -> Option<&'a str>
        ensures { (t : List Row) → Stands self.now t
            → option_map (λ name. name.now) result ≡ name_of t id }
    {
        match self.find(id) {
            Some(item) => Some(item.view.name),
            None => None,
        }
    }

    /// Returns the id of the item with this name, or `None` if there is no such item.
    pub(crate) fn locate(&self, name: &str) -> Option<ItemId>
        ensures { (t : List Row) → Stands self.now t → result ≡ id_named t name.now }
    {
        self.items.map.locate(name)
    }
}

/// Returns what a map says about an item, or `None` if `item` is `None`.
pub(crate) fn seen_of<'a, A: Allocator>(item: Option<&Item<'a, A>>) -> Option<Seen<'a>>
    ensures { option_map seen_data result
        ≡ option_map (λ x. (item_entry x.now).item) item.entry }
{
    match item {
        Some(item) => Some(item.seen()),
        None => None,
    }
}

/// Returns the item at this position, or `None` if the list ends before this position.
fn item_at<'r, 'a, A: Allocator>(items: &'r [Item<'a, A>], at: u32) -> Option<&'r Item<'a, A>>
    ensures { option_map (λ x. (item_entry x.now).item) result
        ≡ option_map (λ e. e.item) (slice_get (each item_entry items.now) at) }
{
    match items.get(at as usize) {
        Some(item) => Some(item),
        None => None,
    }
}
