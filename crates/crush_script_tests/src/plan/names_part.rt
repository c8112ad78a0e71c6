//! Tests which differences are listed between a part of a map and the same part of a wanted map.
//! The expected values were worked out by hand from the table in docs/dev/names.md.

use crate::maps::{EXAMPLE_MAP, map_of};
use crate::plan::maps::*;
use crush_since::{count_aside, push_stays, stays_part};
use std::process::Abort;

/// Returns the lines about the differences between the part h1 of the map with the text `map` and
/// the part h1 of the example map, which is the wanted map.
fn stays_of_h1(rt: &(impl Abort + AllocGlobal), map: &[u8]) -> Vec<u8> {
    let map = map_of(rt, map);
    let wanted = map_of(rt, EXAMPLE_MAP);
    let lines = stays_part(rt.alloc(), Some("h1"), &map, &wanted).expect(rt, "no memory");
    drop(wanted);
    drop(map);
    let mut text = Vec::new(rt.alloc());
    let Ok(()) = push_stays(lines.as_slice(), &mut text) else {
        panic!(rt; "no memory")
    };
    text
}

#[test]
fn what_a_part_lacks(rt: HostRuntime) {
    let lines = stays_of_h1(&rt, SHRUNK);
    assert!(rt;
        lines.as_slice()
            == b"h1: wanted as host in default\nosd.0: wanted as osd in h1\nosd.1: wanted as osd in h1\n".as_slice()
    );
}

#[test]
fn ids_are_counted_of_a_part(rt: HostRuntime) {
    let map = map_of(&rt, EXAMPLE_MAP);
    let wanted = map_of(&rt, NUMBERED);
    let counts = count_aside(rt.alloc(), Some("h1"), &map, &wanted).expect(&rt, "no memory");
    drop(wanted);
    drop(map);
    assert_eq!(rt; counts.ids, 1);
}
