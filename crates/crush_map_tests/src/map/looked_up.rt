//! Tests that after each edit a look-up by name finds what a search of the forest finds.

use crate::map::asking::{Asked, edit};
use crate::map::whole::whole_example_map;
use crush_map::{CrushMap, Done, EditFault};
use crush_units::{ItemId, Weight};
use std::alloc::Global;
use std::process::Abort;

/// Each name that an item has before or after an edit of the tests that use this list, each name
/// that such an edit mentions, and the name `x`, which no item has.
pub(super) const NAMES: &[&str] = &[
    "osd.0", "osd.1", "osd.2", "osd.3", "osd.10", "osd.11", "h1", "h2", "h3", "h9", "hq", "hx",
    "r1", "r9", "default", "x",
];

const EDITS: &[Asked] = &[
    Asked::SetClass("osd.1", "ssd"),
    Asked::RemoveClass("osd.1"),
    Asked::Add(
        3,
        21823,
        &[("host", "h3"), ("rack", "r1"), ("root", "default")],
    ),
    Asked::CreateOrMove(0, 327680, &[("host", "h2")]),
    Asked::Set(1, 196608, &[("host", "h1")]),
    Asked::Move("h2", &[("rack", "r1"), ("root", "default")]),
    Asked::Swap("h1", "h2"),
    Asked::Reweight("osd.2", 65536),
    Asked::ReweightSubtree("h1", 16384),
    Asked::Remove("osd.0"),
    Asked::AddBucket("h9", "host"),
    Asked::Rename("h1", "hq"),
    Asked::Remove("h9"),
];

fn weight_found(map: &CrushMap<Global>, id: Option<ItemId>) -> Option<Weight> {
    match id {
        Some(id) => map.forest().weight(id),
        None => None,
    }
}

fn assert_found(rt: &impl Abort, map: &CrushMap<Global>, place: usize, id: &ItemId, name: &str) {
    let Some(view) = map.find(*id) else {
        panic!(rt; "edit {place}: {name} isn't found")
    };
    assert_eq!(rt; map.name_of(*id), Some(name), "edit {place}");
    assert_eq!(rt; view.name, name, "edit {place}");
    assert_eq!(rt; map.class_of(*id), view.class, "edit {place}: {name}");
    assert_eq!(rt; map.kind_of(*id), Some(view.kind), "edit {place}: {name}");
    assert_eq!(rt;
        map.parent(*id),
        map.forest().parent(*id),
        "edit {place}: {name}"
    );
    assert_eq!(rt; map.parent(*id), view.parent, "edit {place}: {name}");
    if let Some(bucket) = view.parent {
        assert!(rt; map.contains(bucket, *id), "edit {place}: {name}");
    }
}

fn assert_looked_up(rt: &impl Abort, map: &CrushMap<Global>, place: usize, name: &str) {
    let id = map.forest().id_of(name);
    assert_eq!(rt; map.locate(name), id, "edit {place}: {name}");
    assert_eq!(rt;
        map.weight_of(name),
        weight_found(map, id),
        "edit {place}: {name}"
    );
    if let Some(id) = id {
        assert_found(rt, map, place, &id, name);
    }
}

fn assert_all_looked_up(rt: &impl Abort, map: &CrushMap<Global>, place: usize) {
    for name in NAMES {
        assert_looked_up(rt, map, place, name);
    }
}

fn is_changed(told: Result<Done, EditFault>) -> bool {
    match told {
        Ok(done) => done.changed,
        Err(_) => false,
    }
}

fn make_and_look(
    rt: &impl Abort,
    alloc: Global,
    map: &mut CrushMap<Global>,
    place: usize,
    asked: Asked,
) {
    let edit = edit(rt, alloc, asked);
    let told = map.apply(&edit);
    drop(edit);
    assert!(rt; is_changed(told), "edit {place}: {told:?}");
    assert_all_looked_up(rt, map, place);
}

#[test]
fn names_are_looked_up_after_each_edit(rt: HostRuntime) {
    let mut map = whole_example_map(&rt, rt.alloc());
    for (place, asked) in EDITS.iter().enumerate() {
        make_and_look(&rt, rt.alloc(), &mut map, place, *asked);
    }
    drop(map);
}
