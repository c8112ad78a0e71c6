//! Tests plans, which are lists of commands that change one map into another map. The plans lead
//! from the example map to other maps. The expected values were worked out by hand from the steps
//! of a plan in docs/dev/plan.md. The sessions of tests/runs/plans.txt show further plans.

mod maps;
mod names_part;
mod names_since;

use crate::maps::{EXAMPLE_MAP, map_of};
use crush_plan::{Identity, Plan, ceph_plan_text, find_plan, plan_text};
use crush_since::stays;
use maps::*;
use std::process::Abort;

/// Returns a plan that leads from the example map to the map of the text `wanted`.
fn planned(rt: &(impl Abort + AllocGlobal), wanted: &[u8]) -> Plan {
    let map = map_of(rt, EXAMPLE_MAP);
    let wanted = map_of(rt, wanted);
    let plan = find_plan(rt.alloc(), Identity::Ids, None, &map, &wanted).expect(rt, "no memory");
    drop(wanted);
    drop(map);
    plan
}

#[test]
fn an_item_is_moved(rt: HostRuntime) {
    let plan = planned(&rt, MOVED);
    let text = plan_text(rt.alloc(), &plan).expect(&rt, "no memory");
    drop(plan);
    assert!(rt; text.as_slice() == b"# 1 commands\nmove osd.0 host=h2\n".as_slice());
}

#[test]
fn a_copy_of_a_plan_equals_the_plan(rt: HostRuntime) {
    let plan = planned(&rt, OTHERWISE);
    let copy = plan.try_copy(rt.alloc()).expect(&rt, "no memory");
    assert_eq!(rt; copy, plan);
    drop(copy);
    drop(plan);
}

#[test]
fn commands_are_told_as_those_of_ceph(rt: HostRuntime) {
    let map = map_of(&rt, EXAMPLE_MAP);
    let wanted = map_of(&rt, MOVED);
    let plan = find_plan(rt.alloc(), Identity::Ids, None, &map, &wanted).expect(&rt, "no memory");
    let text = ceph_plan_text(rt.alloc(), &map, &plan).expect(&rt, "no memory");
    assert!(rt; text.as_slice() == b"# 1 commands\nceph osd crush move osd.0 host=h2\n".as_slice());
    drop(plan);
    drop(wanted);
    drop(map);
}

fn are_lines(lines: &[Vec<u8>], expected: &[&[u8]]) -> bool {
    if lines.len() != expected.len() {
        return false;
    }
    for index in 0..lines.len() {
        if lines[index].as_slice() != expected[index] {
            return false;
        }
    }
    true
}

/// The lines about what differs between the example map and the wanted map `OTHERWISE`.
const WHAT_DIFFERS: &[&[u8]] = &[
    b"h1: type host, wanted rack; alg straw2, wanted list",
    b"osd.1: weight 1.00000, wanted 2.00000; class (none), wanted hdd",
    b"osd.0: in h1, wanted in h2",
    b"h3: wanted as host in (root)",
    b"osd.3: wanted as osd in (unplaced)",
    b"osd.2: not wanted",
];

#[test]
fn each_column_that_differs_is_told(rt: HostRuntime) {
    let map = map_of(&rt, EXAMPLE_MAP);
    let wanted = map_of(&rt, OTHERWISE);
    let lines = stays(rt.alloc(), &map, &wanted).expect(&rt, "no memory");
    assert!(rt; are_lines(lines.as_slice(), WHAT_DIFFERS));
    drop(wanted);
    drop(map);
}
