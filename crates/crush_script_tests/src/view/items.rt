//! Tests the list of all items of a map, in the order of the map's tree and in the order of the
//! ids.

ghost use Rattle.std.specs.Prelude.{◌<◌, ◌^◌, length};

use super::EXAMPLE_MAP;
use crate::maps::map_of;
use crush_items::{Item, Items, Place, Run};
use crush_map::CrushMap;
use crush_units::ItemId;
use std::alloc::Global;
use std::process::Abort;

fn items_of<'a>(rt: &(impl Abort + AllocGlobal), map: &'a CrushMap<Global>) -> Items<'a, Global>
    ensures few { length result.all.items < 2 ^ 32 }
{
    Items::of(rt.alloc(), map).expect(rt, "no memory")
}

/// The name of an item, its depth in the tree from 0, and the name of its parent. The parent's name
/// is empty if the item has no parent.
type Row<'a> = (&'a [u8], u32, &'a [u8]);

fn is_row(item: &Item<'_, Global>, row: &Row<'_>) -> bool {
    let holder = match item.holder {
        Some(holder) => holder.as_bytes(),
        None => b"",
    };
    item.seen().view.name.as_bytes() == row.0 && item.depth == row.1 && holder == row.2
}

fn are_rows(items: &Items<'_, Global>, rows: &[Row<'_>]) -> bool {
    let all = items.all.as_slice();
    all.len() == rows.len()
        && all
            .iter()
            .zip(rows.iter())
            .all(|(item, row)| is_row(item, row))
}

/// A map with two roots and two devices that are in no bucket. The root that comes first in the
/// text has the id that is farther from 0.
const TWO_ROOTS: &[u8] = b"\
    device 7 osd.7\n\
    device 0 osd.0 class ssd\n\
    device 3 osd.3\n\
    type 1 host\n\
    host b { id -5 alg straw2 hash 0 }\n\
    host a { id -2 id -4 class ssd alg straw2 hash 0 item osd.0 weight 1.0 }\n";

#[test]
fn roots_are_in_the_order_of_their_ids_and_unplaced_devices_are_last(rt: HostRuntime) {
    let map = map_of(&rt, TWO_ROOTS);
    let items = items_of(&rt, &map);
    let rows: [Row<'_>; 5] = [
        (b"a", 0, b""),
        (b"osd.0", 1, b"a"),
        (b"b", 0, b""),
        (b"osd.3", 0, b""),
        (b"osd.7", 0, b""),
    ];
    let are = are_rows(&items, &rows);
    drop(items);
    drop(map);
    assert!(rt; are);
}

#[test]
fn a_bucket_of_the_list_has_its_class_ids(rt: HostRuntime) {
    let map = map_of(&rt, TWO_ROOTS);
    let items = items_of(&rt, &map);
    let counts = (
        items.class_ids(0).len(),
        items.class_ids(1).len(),
        items.class_ids(5).len(),
    );
    drop(items);
    drop(map);
    assert_eq!(rt; counts, (1, 0, 0));
}

fn assert_host_a(rt: &impl Abort, item: &Item<'_, Global>) {
    let view = item.view();
    assert_eq!(rt; view.name, "a");
    assert_eq!(rt; view.id.number(), -2);
    assert_eq!(rt; view.weight.units(), 65536);
    assert_eq!(rt; view.parent, None);
    assert_eq!(rt; item.class_ids().len(), 1);
}

/// The host `a` has one class id and one device, with the weight 1.0, which is 65536 units.
#[test]
fn an_item_is_viewed_with_its_columns(rt: HostRuntime) {
    let map = map_of(&rt, TWO_ROOTS);
    let items = items_of(&rt, &map);
    match items.all.as_slice().first() {
        Some(item) => assert_host_a(&rt, item),
        None => panic!(rt; "the list is empty"),
    }
    drop(items);
    drop(map);
}

fn is_seen(items: &Items<'_, Global>, at: u32, name: &[u8]) -> bool {
    match items.seen(at) {
        Some(seen) => seen.view.name.as_bytes() == name,
        None => name.len() == 0,
    }
}

#[test]
fn the_item_at_a_position_is_seen(rt: HostRuntime) {
    let map = map_of(&rt, EXAMPLE_MAP);
    let items = items_of(&rt, &map);
    let is = is_seen(&items, 4, b"h2") && is_seen(&items, 5, b"osd.2") && is_seen(&items, 6, b"");
    drop(items);
    drop(map);
    assert!(rt; is);
}

fn have_positions(places: &[Place], positions: &[u32]) -> bool {
    places.len() == positions.len()
        && places
            .iter()
            .zip(positions.iter())
            .all(|(place, at)| place.at == *at)
}

#[test]
fn buckets_are_before_devices_in_the_order_of_ids(rt: HostRuntime) {
    let map = map_of(&rt, EXAMPLE_MAP);
    let items = items_of(&rt, &map);
    let by_id = items.by_id(rt.alloc()).expect(&rt, "no memory");
    let are = have_positions(by_id.places.as_slice(), &[0, 1, 4, 2, 3, 5]);
    drop(by_id);
    drop(items);
    drop(map);
    assert!(rt; are);
}

fn position(
    rt: &(impl Abort + AllocGlobal),
    items: &Items<'_, Global>,
    id: Option<ItemId>,
) -> Option<u32>
    requires few { length items.now.all.items < 2 ^ 32 }
{
    let by_id = items.by_id(rt.alloc()).expect(rt, "no memory");
    let found = match id {
        Some(id) => by_id.find(id),
        None => None,
    };
    drop(by_id);
    match found {
        Some(place) => Some(place.at),
        None => None,
    }
}

#[test]
fn an_item_is_found_by_its_id(rt: HostRuntime) {
    let map = map_of(&rt, EXAMPLE_MAP);
    let other = map_of(&rt, TWO_ROOTS);
    let items = items_of(&rt, &map);
    let found = position(&rt, &items, map.locate("h2"));
    let missing = position(&rt, &items, other.locate("osd.7"));
    drop(items);
    drop(other);
    drop(map);
    assert_eq!(rt; found, Some(4));
    assert_eq!(rt; missing, None);
}

fn runs(items: &Items<'_, Global>, at: u32, to: u32) -> bool
    requires few { length items.now.all.items < 2 ^ 32 }
{
    items.run(at) == Run { from: at, to }
}

#[test]
fn an_item_and_all_below_it_are_a_run(rt: HostRuntime) {
    let map = map_of(&rt, EXAMPLE_MAP);
    let items = items_of(&rt, &map);
    let run = runs(&items, 0, 6)
        && runs(&items, 1, 4)
        && runs(&items, 3, 4)
        && runs(&items, 4, 6)
        && runs(&items, 6, 6);
    drop(items);
    drop(map);
    assert!(rt; run);
}
