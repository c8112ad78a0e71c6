//! The items of a map in the order of their ids.

ghost use Rattle.std.specs.Prelude.{◌≡◌, ◌<◌, ◌^◌, List, Some, IfOk, IfSome, length, map as each};
ghost use Rattle.std.specs.Option.{option_map};
ghost use Rattle.crush_model.specs.Lawful.{Lawful};
ghost use Rattle.crush_model.specs.Table.{Row};
ghost use Rattle.crush_items.specs.ById.{AreById, IsShort, entry_at, id_key, places_from};
ghost use Rattle.crush_items.specs.Entries.{EntryData, entry_of};
ghost use Rattle.crush_items.specs.Items.{HasEntries, item_entry};

use crate::items::{Item, Items};
use crush_units::ItemId;
use std::alloc::{AllocError, Allocator, Global};

/// A position in a list of items ([`Items::all`]), with the key of the item at this position.
///
/// The key of a bucket is the distance of its id from 0. The key of a device is its number plus
/// 2^32. So ascending keys give the order in which ids are printed: first the buckets from -1
/// downward, and then the devices by ascending id.
#[derive(Clone, Copy, Debug, PartialEq, Eq)]
pub struct Place {
    pub key: u64,
    /// The position of the item in [`Items::all`], from 0.
    pub at: u32,
}

/// The places of all items of a map, sorted by ascending keys.
#[derive(Drop)]
pub struct ById {
    pub places: Vec<Place>,
}

impl<'a, A: Allocator> Items<'a, A> {
    /// Returns the places of the items, sorted by ascending keys. The method sorts the places once,
    /// and returns an error only if memory runs out.
    pub fn by_id(&self, alloc: Global) -> Result<ById, AllocError>
        requires few { length self.now.all.items < 2 ^ 32 }
        ensures { IfOk result (λ by_id. (t : List Row)
            → HasEntries t (each item_entry self.now.all.items)
            → AreById t (each item_entry self.now.all.items) by_id.places.items) }
    {
        let mut places = places_of(alloc, self.all.as_slice())?;
        places.sort_unstable_by_key(|place| place.key);
        Ok(ById { places })
    }
}

impl ById {
    /// Returns the place of the item with this id, or `None` if the map has no such item. The
    /// method makes a binary search.
    pub fn find(&self, id: ItemId) -> Option<Place>
        ensures key { IfSome result (λ place. place.key ≡ id_key id) }
        ensures entry { (t : List Row) (es : List EntryData) → Lawful t
            → AreById t es self.now.places.items → option_map (entry_at es) result ≡ option_map Some (entry_of t id) }
    {
        let places = self.places.as_slice();
        let key = key_of(id);
        match places.binary_search_by_key(&key, |place| place.key) {
            Ok(at) => Some(places[at]),
            Err(_) => None,
        }
    }
}

/// Returns the key of an id, as [`Place`] defines it.
fn key_of(id: ItemId) -> u64
    ensures key { result ≡ id_key id }
    ensures short { IsShort id }
{
    match id {
        ItemId::Bucket(bucket) => bucket.distance() as u64,
        ItemId::Device(device) => 4_294_967_296 + device.number() as u64,
    }
}

/// Returns a place for each item, in the order of the items.
fn places_of<A: Allocator>(alloc: Global, items: &[Item<'_, A>]) -> Result<Vec<Place>, AllocError>
    requires few { length items.now < 2 ^ 32 }
    ensures { IfOk result (λ places. places.items ≡ places_from 0 (each item_entry items.now)) }
{
    let mut places = Vec::with_capacity(alloc, items.len())?;
    let mut at: u32 = 0;
    for item in items {
        let key = key_of(item.node.id());
        places.push(Place { key, at })?;
        at += 1;
    }
    Ok(places)
}
