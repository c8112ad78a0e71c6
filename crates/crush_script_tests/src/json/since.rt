//! Tests the JSON documents that say what has changed from one map to another.

use super::maps::STRAY_MAP;
use crate::maps::map_of;
use crush_json::write_since_document;

/// The expected document if the old map is empty and the new map is `STRAY_MAP`. A root has no
/// member `parent`. A device that is in no bucket has no such member either.
const MADE: &[u8] = b"\
    {\"since\":{\
    \"classes\":[{\"is\":98304,\"name\":\"ssd\",\"taken\":false,\"was\":0}],\
    \"counts\":{\"class\":0,\"made\":3,\"moved\":0,\"removed\":0,\"renamed\":0,\"weight\":0},\
    \"items\":[\
    {\"id\":-4,\"is\":{\"alg\":\"straw\",\"class_ids\":[],\"name\":\"default\",\"type\":\"root\",\"weight\":98304}},\
    {\"id\":3,\"is\":{\"name\":\"osd.3\",\"type\":\"osd\",\"weight\":0}},\
    {\"id\":7,\
    \"is\":{\"class\":\"ssd\",\"name\":\"osd.7\",\"parent\":\"default\",\"type\":\"osd\",\"weight\":98304}}],\
    \"rules\":[],\"total\":[0,98304],\"tunables\":false,\"types\":true}}\n";

#[test]
fn what_is_made_was_nothing(rt: HostRuntime) {
    let old = map_of(&rt, b"");
    let new = map_of(&rt, STRAY_MAP);
    let mut told = Vec::new(rt.alloc());
    write_since_document(rt.alloc(), &old, &new, None, None, &mut told).expect(&rt, "not written");
    drop(new);
    drop(old);
    assert!(rt; told.as_slice() == MADE);
}
