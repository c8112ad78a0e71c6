//! Tests which name a refusal of an edit is about.

use crate::map::asking::{Asked, edit};
use crate::map::whole::whole_example_map;
use crush_map::Refusal;

#[test]
fn a_name_that_a_refusal_is_about(rt: HostRuntime) {
    let map = whole_example_map(&rt, rt.alloc());
    let edit = edit(&rt, rt.alloc(), Asked::Swap("h1", "x"));
    assert_eq!(rt; map.culprit(&edit, Refusal::NoSuchItem).as_str(), "x");
    drop(edit);
    drop(map);
}
