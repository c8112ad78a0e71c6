//! Tests what is reported as changed in a part of a map, and whether anything is reported as
//! changed.

use super::EXAMPLE_MAP;
use super::changes::MOVED;
use crate::maps::map_of;
use crush_compare::Comparison;
use crush_map::CrushMap;
use crush_since::{
    Tally, count_changes, is_changed, is_part_changed, same_kinds, same_rules, same_tunables,
    since_part_text,
};
use crush_units::ItemId;
use std::alloc::Global;
use std::process::Abort;

fn id_of(rt: &(impl Abort + AllocGlobal), map: &CrushMap<Global>, name: &str) -> ItemId {
    map.locate(name).expect(rt, "no item")
}

fn is_part_since(
    rt: &(impl Abort + AllocGlobal),
    old: &[u8],
    new: &[u8],
    under: &str,
    lines: &[u8],
) -> bool {
    let old = map_of(rt, old);
    let new = map_of(rt, new);
    let under = id_of(rt, &new, under);
    let text = since_part_text(rt.alloc(), &old, &new, under).expect(rt, "no text");
    let is = text.as_slice() == lines;
    drop(text);
    drop(old);
    drop(new);
    is
}

#[test]
fn what_came_below_a_host_is_told(rt: HostRuntime) {
    let lines = b"\
        h2 (-3): weight 0.50000 to 1.50000\n\
        osd.0 (0): from h1 (-2) to h2 (-3)\n";
    assert!(rt; is_part_since(&rt, EXAMPLE_MAP, MOVED, "h2", lines));
}

fn are_changed(
    rt: &(impl Abort + AllocGlobal),
    old: &[u8],
    new: &[u8],
    under: &str,
) -> (bool, bool) {
    let old = map_of(rt, old);
    let new = map_of(rt, new);
    let under = id_of(rt, &new, under);
    let whole = is_changed(rt.alloc(), &old, &new).expect(rt, "not told");
    let part = is_part_changed(rt.alloc(), &old, &new, under).expect(rt, "not told");
    drop(old);
    drop(new);
    (whole, part)
}

#[test]
fn elsewhere_it_is_none(rt: HostRuntime) {
    let (whole, part) = are_changed(&rt, EXAMPLE_MAP, MOVED, "osd.2");
    assert!(rt; whole);
    assert!(rt; !part);
}

const RETUNED: &[u8] = b"\
    tunable chooseleaf_stable 0\n\
    device 0 osd.0\n\
    device 1 osd.1\n\
    device 2 osd.2\n\
    type 0 osd\n\
    type 1 host\n\
    type 11 root\n\
    host h1 { id -2 alg straw2 hash 0 item osd.0 weight 1.0 item osd.1 weight 1.0 }\n\
    host h2 { id -3 alg straw2 hash 0 item osd.2 weight 0.5 }\n\
    root default { id -1 alg straw2 hash 0 item h1 weight 2.0 item h2 weight 0.5 }\n";

#[test]
fn settings_are_compared_each(rt: HostRuntime) {
    let old = map_of(&rt, EXAMPLE_MAP);
    let new = map_of(&rt, RETUNED);
    let tunables = same_tunables(old.setting(), new.setting());
    let kinds = same_kinds(old.setting(), new.setting());
    let rules = same_rules(old.setting().rules(), new.setting().rules());
    drop(old);
    drop(new);
    assert!(rt; !tunables);
    assert!(rt; !kinds);
    assert!(rt; rules);
}

fn counts_of_the_move(rt: &(impl Abort + AllocGlobal)) -> Tally {
    let old = map_of(rt, EXAMPLE_MAP);
    let new = map_of(rt, MOVED);
    let counts = count_changes(rt.alloc(), &old, &new).expect(rt, "no counts");
    drop(old);
    drop(new);
    counts
}

#[test]
fn a_move_is_counted_with_the_weights_round_it(rt: HostRuntime) {
    let counts = counts_of_the_move(&rt);
    assert_eq!(rt; counts.made, 0);
    assert_eq!(rt; counts.removed, 0);
    assert_eq!(rt; counts.moved, 1);
    assert_eq!(rt; counts.reweighed, 2);
}

#[test]
fn a_move_is_counted_in_the_part_that_it_left(rt: HostRuntime) {
    let old = map_of(&rt, EXAMPLE_MAP);
    let new = map_of(&rt, MOVED);
    let under = id_of(&rt, &new, "h1");
    let both = Comparison::by_ids_below(rt.alloc(), &old, &new, under).expect(&rt, "no memory");
    let counts = Tally::of(&both);
    drop(both);
    drop(old);
    drop(new);
    assert_eq!(rt; counts.made, 0);
    assert_eq!(rt; counts.removed, 0);
    assert_eq!(rt; counts.moved, 1);
    assert_eq!(rt; counts.reweighed, 1);
}
