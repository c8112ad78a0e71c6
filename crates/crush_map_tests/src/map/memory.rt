//! Builds the example map in heaps of increasing size. The map's setting is in the global
//! allocator, which a test can't make fail.

use crate::map::same::has_the_same;
use crate::map::statements::make;
use crate::map::whole::{BEFORE_RULE, assert_the_setting, whole_example_map, whole_example_map_in};
use crush_builder::{BuildFault, MapBuilder};
use crush_map::CrushMap;
use crush_units::ItemId;
use linked_list_allocator::LocalHeap;
use std::alloc::Global;
use std::process::Abort;

/// An item, the number of statements after which it exists (`there`), and the number of statements
/// after which it is in a bucket (`held`).
struct Item {
    name: &'static str,
    there: usize,
    held: usize,
}

/// The root is never in a bucket, so its number `held` is greater than the number of statements,
/// 25.
const ITEMS: &[Item] = &[
    Item {
        name: "osd.0",
        there: 2,
        held: 12,
    },
    Item {
        name: "osd.1",
        there: 3,
        held: 13,
    },
    Item {
        name: "osd.2",
        there: 4,
        held: 18,
    },
    Item {
        name: "h1",
        there: 14,
        held: 23,
    },
    Item {
        name: "h2",
        there: 19,
        held: 24,
    },
    Item {
        name: "default",
        there: 25,
        held: 26,
    },
];

fn is_made(builder: &MapBuilder<&LocalHeap>, taken: usize, item: &Item, id: &ItemId) -> bool {
    taken >= item.there && builder.is_placed(*id) == (taken >= item.held)
}

fn is_there(builder: &MapBuilder<&LocalHeap>, taken: usize, item: &Item) -> bool {
    match builder.item_named(item.name.as_bytes()) {
        Ok(id) => is_made(builder, taken, item, &id),
        Err(fault) => matches!(fault, BuildFault::UnknownItem) && taken < item.there,
    }
}

fn are_items_found(builder: &MapBuilder<&LocalHeap>, taken: usize) -> bool {
    ITEMS.iter().all(|item| is_there(builder, taken, item))
}

fn make_and_look(rt: &impl Abort, builder: &mut MapBuilder<&LocalHeap>) {
    for (taken, statement) in BEFORE_RULE.iter().enumerate() {
        assert!(rt; are_items_found(builder, taken), "statement {taken}");
        if make(rt, builder, *statement).is_err() {
            assert!(rt; are_items_found(builder, taken), "statement {taken}");
            return;
        }
    }
    assert!(rt; are_items_found(builder, BEFORE_RULE.len()));
}

fn look_at_what_is_made(rt: &impl Abort, alloc: Global, heap: &LocalHeap) {
    if let Ok(mut builder) = MapBuilder::new(alloc, heap) {
        make_and_look(rt, &mut builder);
        drop(builder);
    }
}

fn lacks_a_copy(map: &CrushMap<&LocalHeap>) -> bool {
    map.forest().try_copy().is_err()
}

fn assert_in_full_memory(rt: &impl Abort, map: &CrushMap<&LocalHeap>, whole: &CrushMap<Global>) {
    assert_the_setting(rt, map.setting());
    assert!(rt; has_the_same(map, whole));
    assert!(rt; lacks_a_copy(map));
}

fn holds_the_map(
    rt: &impl Abort,
    alloc: Global,
    heap: &LocalHeap,
    whole: &CrushMap<Global>,
) -> bool {
    match whole_example_map_in(rt, alloc, heap) {
        Ok(map) => {
            assert_in_full_memory(rt, &map, whole);
            drop(map);
            true
        }
        Err(fault) => {
            assert_eq!(rt; fault, BuildFault::OutOfMemory);
            false
        }
    }
}

fn is_held(rt: &impl Abort, alloc: Global, whole: &CrushMap<Global>) {
    for i in 1..1024 {
        let heap = LocalHeap::new(alloc, 64 * i).expect(rt, "a heap");
        look_at_what_is_made(rt, alloc, &heap);
        if holds_the_map(rt, alloc, &heap, whole) {
            return;
        }
    }
    panic!(rt; "no heap holds the map")
}

#[test]
fn in_heaps_of_each_size(rt: HostRuntime) {
    let whole = whole_example_map(&rt, rt.alloc());
    is_held(&rt, rt.alloc(), &whole);
    drop(whole);
}
