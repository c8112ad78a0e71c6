//! Tests printed parts of trees, and the walks from which their lines are printed. A *walk* is a
//! list of items of a map, in the order of the map's tree.

use super::EXAMPLE_MAP;
use crate::maps::map_of;
use crush_print::{TreePart, walk_part, write_tree_part};
use std::process::Abort;

/// Whether `tree` is the part of the map's tree whose top is the item with the name `under`.
fn is_part(rt: &(impl Abort + AllocGlobal), text: &[u8], under: &str, tree: &[u8]) -> bool {
    let map = map_of(rt, text);
    let part = TreePart {
        under: map.locate(under),
        down_to: None,
    };
    let mut told = Vec::new(rt.alloc());
    write_tree_part(rt.alloc(), &map, part, &mut told).expect(rt, "no tree");
    let is = told.as_slice() == tree;
    drop(told);
    drop(map);
    is
}

#[test]
fn a_device_is_told_alone(rt: HostRuntime) {
    let tree = b"\
        ID  CLASS  WEIGHT   TYPE NAME\n \
        2         0.50000  osd.2\n";
    assert!(rt; is_part(&rt, EXAMPLE_MAP, "osd.2", tree));
}

#[test]
fn the_whole_tree_is_a_part(rt: HostRuntime) {
    let map = map_of(&rt, EXAMPLE_MAP);
    let steps = walk_part(rt.alloc(), &map, TreePart::whole()).expect(&rt, "no walk");
    assert_eq!(rt; steps.len(), 6);
    drop(steps);
    drop(map);
}
