//! Tests a printed part of the tree that shows what has changed from one map to another.

use super::EXAMPLE_MAP;
use crate::maps::map_of;
use crush_print::TreePart;
use crush_since::{all_changes_are_a_part, write_changes};
use std::process::Abort;

/// The example map after `rm osd.0`, `rm osd.1` and `rm h1`.
const SHRUNK: &[u8] = b"\
    tunable chooseleaf_stable 1\n\
    device 2 osd.2\n\
    type 0 osd\n\
    type 1 host\n\
    type 3 rack\n\
    type 11 root\n\
    host h2 { id -3 alg straw2 hash 0 item osd.2 weight 0.5 }\n\
    root default { id -1 alg straw2 hash 0 item h2 weight 0.5 }\n";

/// Whether `tree` is the part whose top is the item that the old map has with the name `under`.
fn is_part(
    rt: &(impl Abort + AllocGlobal),
    maps: (&[u8], &[u8]),
    under: &str,
    tree: &[u8],
) -> bool {
    let old = map_of(rt, maps.0);
    let new = map_of(rt, maps.1);
    let part = TreePart {
        under: old.locate(under),
        down_to: None,
    };
    let mut text = Vec::new(rt.alloc());
    write_changes(rt.alloc(), &old, &new, part, &mut text).expect(rt, "no text");
    let is = text.as_slice() == tree;
    drop(text);
    drop(new);
    drop(old);
    is
}

/// Only the old map has the host h1. The program can't print this part, because `--under` needs an
/// item of the new map.
#[test]
fn what_is_gone_is_told_where_it_was(rt: HostRuntime) {
    let tree = b"\
        ID  CLASS  WAS      WEIGHT  TYPE NAME\n\
        -2         2.00000       -  host h1 (removed)\n \
        0         1.00000       -      osd.0 (removed)\n \
        1         1.00000       -      osd.1 (removed)\n";
    all_changes_are_a_part();
    assert!(rt; is_part(&rt, (EXAMPLE_MAP, SHRUNK), "h1", tree));
}
