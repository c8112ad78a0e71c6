//! Tests the JSON documents. The expected values were worked out by hand from docs/user/FORMATS.md,
//! and from what `crushtool --dump` of Ceph 18 prints.

mod maps;
mod plans;
mod since;
mod trees;

use crate::maps::{EXAMPLE_MAP, map_of};
use crush_json::write_map_document;
use maps::*;

#[test]
fn the_example_map_is_told_as_ceph_tells_it(rt: HostRuntime) {
    let map = map_of(&rt, EXAMPLE_MAP);
    let mut told = Vec::new(rt.alloc());
    write_map_document(rt.alloc(), &map, None, &mut told).expect(&rt, "not written");
    drop(map);
    assert!(rt; told.as_slice() == EXAMPLE_DOCUMENT);
}
