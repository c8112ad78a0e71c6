//! Tests the JSON documents that show a map as a tree. In these documents, weights are in units of
//! 1/65536.

use super::maps::STRAY_MAP;
use crate::maps::map_of;
use crush_json::write_tree_document;
use crush_print::TreePart;

const STRAY_TREE: &[u8] = b"\
    {\"tree\":{\"nodes\":[\
    {\"children\":[7],\"depth\":0,\"id\":-4,\"name\":\"default\",\
    \"type\":\"root\",\"type_id\":1,\"weight\":98304},\
    {\"depth\":1,\"device_class\":\"ssd\",\"id\":7,\"name\":\"osd.7\",\
    \"type\":\"osd\",\"type_id\":0,\"weight\":98304}],\
    \"stray\":[\
    {\"depth\":0,\"id\":3,\"name\":\"osd.3\",\"type\":\"osd\",\"type_id\":0,\"weight\":0}]}}\n";

#[test]
fn a_device_that_no_bucket_holds_is_stray(rt: HostRuntime) {
    let map = map_of(&rt, STRAY_MAP);
    let mut told = Vec::new(rt.alloc());
    write_tree_document(rt.alloc(), &map, TreePart::whole(), None, &mut told).expect(
        &rt,
        "not written",
    );
    drop(map);
    assert!(rt; told.as_slice() == STRAY_TREE);
}
