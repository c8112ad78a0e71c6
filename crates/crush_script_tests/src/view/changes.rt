//! Tests the text that says what has changed from one map to another.

use super::EXAMPLE_MAP;
use crate::maps::map_of;
use crush_map::CrushMap;
use crush_since::{bucket_named, write_since};
use std::alloc::Global;
use std::process::Abort;

/// The example map after `create-or-move osd.0 5.0 host=h2`.
pub(super) const MOVED: &[u8] = b"\
    tunable chooseleaf_stable 1\n\
    device 0 osd.0\n\
    device 1 osd.1\n\
    device 2 osd.2\n\
    type 0 osd\n\
    type 1 host\n\
    type 3 rack\n\
    type 11 root\n\
    host h1 { id -2 alg straw2 hash 0 item osd.1 weight 1.0 }\n\
    host h2 { id -3 alg straw2 hash 0 item osd.2 weight 0.5 item osd.0 weight 1.0 }\n\
    root default { id -1 alg straw2 hash 0 item h1 weight 1.0 item h2 weight 1.5 }\n";

fn is_since(rt: &(impl Abort + AllocGlobal), old: &[u8], new: &[u8], changes: &[u8]) -> bool {
    let old = map_of(rt, old);
    let new = map_of(rt, new);
    let is = since(rt, &old, &new).as_slice() == changes;
    drop(old);
    drop(new);
    is
}

fn since(
    rt: &(impl Abort + AllocGlobal),
    old: &CrushMap<Global>,
    new: &CrushMap<Global>,
) -> Vec<u8> {
    let mut text = Vec::new(rt.alloc());
    write_since(rt.alloc(), old, new, &mut text).expect(rt, "no text");
    text
}

#[test]
fn a_moved_device_moves_its_weight(rt: HostRuntime) {
    let changes = b"\
        h1 (-2): weight 2.00000 to 1.00000\n\
        h2 (-3): weight 0.50000 to 1.50000\n\
        osd.0 (0): from h1 (-2) to h2 (-3)\n\
        total 2.50000 to 2.50000\n\
        0 made, 0 removed, 0 renamed, 1 moved, 2 of other weight, 0 of other class\n";
    assert!(rt; is_since(&rt, EXAMPLE_MAP, MOVED, changes));
}

#[test]
fn a_bucket_is_found_by_its_name(rt: HostRuntime) {
    let map = map_of(&rt, MOVED);
    let is_found = bucket_named(&map, "h2").is_some_and(|id| id.distance() == 3)
        && bucket_named(&map, "osd.0").is_none()
        && bucket_named(&map, "h3").is_none();
    drop(map);
    assert!(rt; is_found);
}
