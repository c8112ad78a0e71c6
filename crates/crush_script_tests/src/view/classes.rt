//! Tests the trees that show only the devices of one class. In the lines of these trees, the weight
//! of an item is the weight of its devices of this class.

use crate::maps::map_of;
use crush_map::CrushMap;
use crush_print::{TreePart, class_weights, has_class, write_tree_of_class};
use crush_since::write_changes_of_class;
use crush_units::Weight;
use std::alloc::Global;
use std::process::Abort;

const CLASSED: &[u8] = b"\
    device 0 osd.0 class ssd\n\
    device 1 osd.1 class hdd\n\
    device 2 osd.2 class ssd\n\
    device 3 osd.3\n\
    device 4 osd.4 class ssd\n\
    device 5 osd.5 class hdd\n\
    type 0 osd\n\
    type 1 host\n\
    type 3 rack\n\
    type 11 root\n\
    host h1 { id -2 alg straw2 hash 0 item osd.0 weight 1.0 item osd.1 weight 2.0 }\n\
    rack r1 { id -4 alg straw2 hash 0 item h1 weight 3.0 }\n\
    host h2 { id -3 alg straw2 hash 0 item osd.2 weight 0.5 item osd.3 weight 4.0 }\n\
    host h3 { id -5 alg straw2 hash 0 item osd.5 weight 1.0 }\n\
    root default { id -1 alg straw2 hash 0 item r1 weight 3.0 item h2 weight 4.5 item h3 weight 1.0 }\n";

fn part_of(map: &CrushMap<Global>, under: &str, down_to: &str) -> TreePart {
    TreePart {
        under: map.locate(under),
        down_to: map.setting().kind_number(down_to.as_bytes()),
    }
}

fn is_tree(
    rt: &(impl Abort + AllocGlobal),
    class: &str,
    under: &str,
    down_to: &str,
    tree: &[u8],
) -> bool {
    let map = map_of(rt, CLASSED);
    let part = part_of(&map, under, down_to);
    let mut told = Vec::new(rt.alloc());
    write_tree_of_class(rt.alloc(), &map, part, class, &mut told).expect(rt, "no tree");
    let is = told.as_slice() == tree;
    drop(told);
    drop(map);
    is
}

#[test]
fn a_rack_counts_the_class_below_its_hosts(rt: HostRuntime) {
    let tree = b"\
        ID  CLASS  WEIGHT   TYPE NAME\n\
        -4         2.00000  rack r1\n\
        -2         2.00000      host h1\n";
    assert!(rt; is_tree(&rt, "hdd", "r1", "host", tree));
}

#[test]
fn a_class_is_that_of_a_device(rt: HostRuntime) {
    let map = map_of(&rt, CLASSED);
    let is = has_class(&map, "ssd") && has_class(&map, "hdd") && !has_class(&map, "nvme");
    drop(map);
    assert!(rt; is);
}

/// Whether `weight` is a weight of `units` units, or both are `None`.
fn weighs(weight: &Option<Weight>, units: &Option<u32>) -> bool {
    match (weight, units) {
        (Some(weight), Some(units)) => weight.units() == *units,
        (None, None) => true,
        _ => false,
    }
}

fn are_weights(weights: &[Option<Weight>], units: &[Option<u32>]) -> bool {
    weights.len() == units.len()
        && weights
            .iter()
            .zip(units.iter())
            .all(|(weight, units)| weighs(weight, units))
}

#[test]
fn each_item_weighs_what_its_devices_of_the_class_weigh(rt: HostRuntime) {
    let map = map_of(&rt, CLASSED);
    let weights = class_weights(rt.alloc(), &map, "hdd").expect(&rt, "no weights");
    let units: [Option<u32>; 11] = [
        Some(196_608),
        Some(131_072),
        Some(131_072),
        None,
        Some(131_072),
        None,
        None,
        None,
        Some(65_536),
        Some(65_536),
        None,
    ];
    let are = are_weights(weights.as_slice(), &units);
    drop(weights);
    drop(map);
    assert!(rt; are);
}

/// The map `CLASSED` after `move osd.0 host=h3`.
const MOVED: &[u8] = b"\
    device 0 osd.0 class ssd\n\
    device 1 osd.1 class hdd\n\
    device 2 osd.2 class ssd\n\
    device 3 osd.3\n\
    device 4 osd.4 class ssd\n\
    device 5 osd.5 class hdd\n\
    type 0 osd\n\
    type 1 host\n\
    type 3 rack\n\
    type 11 root\n\
    host h1 { id -2 alg straw2 hash 0 item osd.1 weight 2.0 }\n\
    rack r1 { id -4 alg straw2 hash 0 item h1 weight 2.0 }\n\
    host h2 { id -3 alg straw2 hash 0 item osd.2 weight 0.5 item osd.3 weight 4.0 }\n\
    host h3 { id -5 alg straw2 hash 0 item osd.5 weight 1.0 item osd.0 weight 1.0 }\n\
    root default { id -1 alg straw2 hash 0 item r1 weight 2.0 item h2 weight 4.5 item h3 weight 2.0 }\n";

fn are_changes(
    rt: &(impl Abort + AllocGlobal),
    maps: (&[u8], &[u8]),
    class: &str,
    tree: &[u8],
) -> bool {
    let old = map_of(rt, maps.0);
    let new = map_of(rt, maps.1);
    let part = TreePart::whole();
    let mut told = Vec::new(rt.alloc());
    write_changes_of_class(rt.alloc(), &old, &new, part, class, &mut told).expect(rt, "no tree");
    let is = told.as_slice() == tree;
    drop(told);
    drop(new);
    drop(old);
    is
}

#[test]
fn in_a_tree_of_changes_the_devices_of_one_class_count(rt: HostRuntime) {
    let tree = b"\
        ID  CLASS  WAS      WEIGHT   TYPE NAME\n\
        -1         1.50000  1.50000  root default\n\
        -4         1.00000  0.00000      rack r1\n\
        -2         1.00000  0.00000          host h1\n \
        0    ssd  1.00000        -              osd.0\n\
        -5         0.00000  1.00000      host h3\n \
        0    ssd        -  1.00000          osd.0 (from h1)\n\
        total 8.50000 to 8.50000\n\
        0 made, 0 removed, 0 renamed, 1 moved, 3 of other weight, 0 of other class\n";
    assert!(rt; are_changes(&rt, (CLASSED, MOVED), "ssd", tree));
}
