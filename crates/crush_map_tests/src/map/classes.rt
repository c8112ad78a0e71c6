//! Tests the class of a device, and the weight of a class below an item.

use crate::map::asking::{Asked, assert_class, edit};
use crate::map::whole::whole_example_map;
use crush_map::{CrushMap, Done};
use crush_units::Weight;
use std::alloc::Global;
use std::process::Abort;

fn give_class(
    rt: &impl Abort,
    alloc: Global,
    map: &mut CrushMap<Global>,
    device: &'static str,
    class: &'static str,
) {
    let edit = edit(rt, alloc, Asked::SetClass(device, class));
    let told = map.apply(&edit);
    drop(edit);
    let done = Done {
        changed: true,
        made: 0,
    };
    assert_eq!(rt; told, Ok(done), "{device}");
}

#[test]
fn a_class_is_given_and_weighed(rt: HostRuntime) {
    let mut map = whole_example_map(&rt, rt.alloc());
    give_class(&rt, rt.alloc(), &mut map, "osd.0", "ssd");
    give_class(&rt, rt.alloc(), &mut map, "osd.2", "ssd");
    assert_class(&rt, &map, "osd.2", "ssd");
    assert_eq!(rt;
        map.weight_of_class("default", "ssd"),
        Some(Weight::from_units(98304))
    );
    drop(map);
}
