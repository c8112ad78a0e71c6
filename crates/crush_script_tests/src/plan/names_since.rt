//! Tests what is printed as changed between two maps if items are matched by their names. The
//! expected values were worked out by hand from the table in docs/dev/names.md.

use crate::maps::{EXAMPLE_MAP, map_of};
use crate::plan::maps::*;
use crush_since::{is_changed_by_name, write_since_by_name, write_since_by_name_part};

#[test]
fn an_item_that_moves_is_told_by_names(rt: HostRuntime) {
    let old = map_of(&rt, EXAMPLE_MAP);
    let new = map_of(&rt, MOVED);
    let mut text = Vec::new(rt.alloc());
    write_since_by_name(rt.alloc(), &old, &new, &mut text).expect(&rt, "no memory");
    drop(new);
    drop(old);
    assert!(rt;
        text.as_slice()
            == b"h1: weight 2.00000 to 1.00000\nh2: weight 0.50000 to 1.50000\nosd.0: from h1 to h2\ntotal 2.50000 to 2.50000\n0 made, 0 removed, 0 renamed, 1 moved, 2 of other weight, 0 of other class\n".as_slice()
    );
}

#[test]
fn a_part_that_is_gone_is_told(rt: HostRuntime) {
    let old = map_of(&rt, EXAMPLE_MAP);
    let new = map_of(&rt, SHRUNK);
    let mut text = Vec::new(rt.alloc());
    write_since_by_name_part(rt.alloc(), &old, &new, "h1", &mut text).expect(&rt, "no memory");
    drop(new);
    drop(old);
    assert!(rt;
        text.as_slice()
            == b"h1: removed, was host in default, weight 2.00000\nosd.0: removed, was osd in h1, weight 1.00000\nosd.1: removed, was osd in h1, weight 1.00000\n".as_slice()
    );
}

#[test]
fn a_moved_device_changes_its_new_host(rt: HostRuntime) {
    let old = map_of(&rt, EXAMPLE_MAP);
    let new = map_of(&rt, MOVED);
    let is_changed = is_changed_by_name(rt.alloc(), Some("h2"), &old, &new).expect(
        &rt,
        "no memory",
    );
    drop(new);
    drop(old);
    assert!(rt; is_changed);
}
