//! Tests ids that become used and then free again, both near 0 and far from 0.

use super::items::{bucket, name};
use crush_index::{Hashing, Index};
use crush_nodes::node::{Header, Node, ShadowId};
use crush_nodes::place::Place;
use crush_units::{Alg, TypeId};
use std::alloc::{AllocGlobal, Global};
use std::process::Abort;

fn class_id(rt: &(impl Abort + AllocGlobal), distance: u32) -> ShadowId<Global> {
    ShadowId {
        id: bucket(rt, distance),
        class: name(rt, "ssd"),
    }
}

fn bucket_with_class_ids(
    rt: &(impl Abort + AllocGlobal),
    distance: u32,
    text: &str,
    class_ids: Vec<ShadowId<Global>>,
) -> Node<Global> {
    let header = Header {
        id: bucket(rt, distance),
        kind: TypeId::new(1),
        name: name(rt, text),
        alg: Alg::Straw2,
        class_ids,
    };
    Node::bucket(rt.alloc(), header).ok().expect(rt, "memory")
}

/// Returns a bucket that uses the ids -1, -2, -4 to -64, -66, and the id that is farthest below 0.
fn bucket_with_most_class_ids(rt: &(impl Abort + AllocGlobal)) -> Node<Global> {
    let mut class_ids = Vec::new(rt.alloc());
    class_ids.push(class_id(rt, 2)).expect(rt, "memory");
    for distance in 4..65 {
        class_ids.push(class_id(rt, distance)).expect(rt, "memory");
    }
    class_ids.push(class_id(rt, 66)).expect(rt, "memory");
    class_ids
        .push(class_id(rt, 2_147_483_648))
        .expect(rt, "memory");
    bucket_with_class_ids(rt, 1, "h1", class_ids)
}

/// Returns a bucket that uses the ids -3 and -69696. The index has a bit for each id that is nearer
/// to 0 than -69696. In this test, all other used ids are in a hash set.
fn bucket_with_one_class_id(rt: &(impl Abort + AllocGlobal)) -> Node<Global> {
    let mut class_ids = Vec::new(rt.alloc());
    class_ids.push(class_id(rt, 69_696)).expect(rt, "memory");
    bucket_with_class_ids(rt, 3, "h2", class_ids)
}

fn assert_used(rt: &impl Abort, index: &Index, distance: u32, is_used: bool) {
    assert_eq!(rt;
        index.is_used(bucket(rt, distance)),
        is_used,
        "id -{distance}"
    );
}

fn assert_ends(rt: &impl Abort, index: &Index) {
    assert_used(rt, index, 1, true);
    assert_used(rt, index, 64, true);
    assert_used(rt, index, 65, false);
    assert_used(rt, index, 66, true);
    assert_used(rt, index, 69_695, false);
    assert_used(rt, index, 69_696, true);
    assert_used(rt, index, 69_697, false);
    assert_used(rt, index, 2_147_483_648, true);
}

fn assert_free(rt: &impl Abort, index: &Index) {
    assert_eq!(rt; index.first_free(1), Some(65));
    assert_eq!(rt; index.first_free(66), Some(67));
    assert_eq!(rt; index.first_free(69_696), Some(69_697));
    assert_eq!(rt; index.first_free(2_147_483_648), None);
}

#[test]
fn ids_are_in_use(rt: HostRuntime) {
    let mut index = Index::new(rt.alloc(), Hashing::plain());
    let (first, second) = (
        bucket_with_most_class_ids(&rt),
        bucket_with_one_class_id(&rt),
    );
    assert_used(&rt, &index, 1, false);
    assert_eq!(rt; index.first_free(1), Some(1));
    assert_eq!(rt; index.first_free(500), Some(500));
    index
        .insert_node(Place::Root, 0, &first)
        .expect(&rt, "memory");
    index
        .insert_node(Place::Root, 1, &second)
        .expect(&rt, "memory");
    assert_ends(&rt, &index);
    assert_free(&rt, &index);
    drop(second);
    drop(first);
    drop(index);
}

fn assert_free_again(rt: &impl Abort, index: &Index) {
    assert_eq!(rt; index.first_free(1), Some(3));
    assert_eq!(rt; index.first_free(4), Some(65));
    assert_used(rt, index, 2, true);
    assert_used(rt, index, 4, true);
    assert_used(rt, index, 69_696, false);
}

#[test]
fn ids_are_free_again(rt: HostRuntime) {
    let mut index = Index::new(rt.alloc(), Hashing::plain());
    let (first, second) = (
        bucket_with_most_class_ids(&rt),
        bucket_with_one_class_id(&rt),
    );
    index
        .insert_node(Place::Root, 0, &first)
        .expect(&rt, "memory");
    index
        .insert_node(Place::Root, 1, &second)
        .expect(&rt, "memory");
    index.remove_node(&second);
    assert_free_again(&rt, &index);
    drop(second);
    drop(first);
    drop(index);
}
