//! Tests printed trees, and the walks from which their lines are printed. A *walk* is a list of
//! items of a map, in the order of the map's tree.

use super::EXAMPLE_MAP;
use crate::maps::map_of;
use crush_map::CrushMap;
use crush_print::{WalkStep, walk, walk_below, write_tree};
use crush_units::{BucketId, ItemId};
use std::alloc::Global;
use std::process::Abort;

fn tree_of(rt: &(impl Abort + AllocGlobal), map: &CrushMap<Global>) -> Vec<u8> {
    let mut tree = Vec::new(rt.alloc());
    write_tree(rt.alloc(), map, &mut tree).expect(rt, "no tree");
    tree
}

fn is_tree(rt: &(impl Abort + AllocGlobal), text: &[u8], tree: &[u8]) -> bool {
    let map = map_of(rt, text);
    let is = tree_of(rt, &map).as_slice() == tree;
    drop(map);
    is
}

#[test]
fn the_example_map_has_its_tree(rt: HostRuntime) {
    let tree = b"\
        ID  CLASS  WEIGHT   TYPE NAME\n\
        -1         2.50000  root default\n\
        -2         2.00000      host h1\n \
        0         1.00000          osd.0\n \
        1         1.00000          osd.1\n\
        -3         0.50000      host h2\n \
        2         0.50000          osd.2\n";
    assert!(rt; is_tree(&rt, EXAMPLE_MAP, tree));
}

fn walked(rt: &(impl Abort + AllocGlobal), map: &CrushMap<Global>) -> usize {
    walk(rt.alloc(), map).expect(rt, "no memory").len()
}

fn walked_below(
    rt: &(impl Abort + AllocGlobal),
    map: &CrushMap<Global>,
    bucket: BucketId,
) -> usize {
    walk_below(rt.alloc(), map, bucket)
        .expect(rt, "no memory")
        .len()
}

fn below(rt: &(impl Abort + AllocGlobal), map: &CrushMap<Global>, item: ItemId) -> usize {
    match item {
        ItemId::Bucket(bucket) => walked_below(rt, map, bucket),
        ItemId::Device(_) => 0,
    }
}

fn below_named(rt: &(impl Abort + AllocGlobal), map: &CrushMap<Global>, name: &str) -> usize {
    match map.locate(name) {
        Some(item) => below(rt, map, item),
        None => 0,
    }
}

#[test]
fn walks_reach_what_is_below(rt: HostRuntime) {
    let map = map_of(&rt, EXAMPLE_MAP);
    let counts = (
        walked(&rt, &map),
        below_named(&rt, &map, "default"),
        below_named(&rt, &map, "h1"),
    );
    drop(map);
    assert_eq!(rt; counts, (6, 5, 2));
}

fn assert_root(rt: &impl Abort, step: &WalkStep<'_, Global>) {
    let view = step.view();
    assert_eq!(rt; view.name, "default");
    assert_eq!(rt; view.id.number(), -1);
    assert_eq!(rt; view.weight.units(), 163840);
    assert_eq!(rt; view.parent, None);
}

/// The weight of the root is 2.5, which is 163840 units.
#[test]
fn a_walk_begins_with_the_root(rt: HostRuntime) {
    let map = map_of(&rt, EXAMPLE_MAP);
    let steps = walk(rt.alloc(), &map).expect(&rt, "no memory");
    match steps.as_slice().first() {
        Some(step) => assert_root(&rt, step),
        None => panic!(rt; "the walk is empty"),
    }
    drop(steps);
    drop(map);
}
