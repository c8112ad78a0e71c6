//! Tests the position that the index stores for each item: the item's place, and a hint, which says
//! at which index the item is among the items of this place.

use super::items::{bucket, bucket_item, device_item, empty, inside, leaf};
use crush_index::{Hashing, Index};
use crush_nodes::guide::{Found, Guide, Position};
use crush_nodes::node::Node;
use crush_nodes::place::Place;
use crush_units::{BucketId, ItemId};
use std::alloc::{AllocGlobal, Global};
use std::process::Abort;

fn below(rt: &impl Abort, distance: u32, hint: u32) -> Option<Position> {
    Some(Position {
        place: inside(rt, distance),
        hint,
    })
}

fn add(rt: &impl Abort, index: &mut Index, place: Place, hint: u32, node: Node<Global>) {
    index.insert_node(place, hint, &node).expect(rt, "memory");
    drop(node);
}

fn add_four(rt: &(impl Abort + AllocGlobal), index: &mut Index) {
    add(rt, index, Place::Root, 0, empty(rt, 1, 11, "default"));
    add(rt, index, inside(rt, 1), 0, empty(rt, 2, 1, "h1"));
    add(rt, index, inside(rt, 2), 0, leaf(rt, 0, "osd.0", 1));
    add(rt, index, inside(rt, 2), 1, leaf(rt, 2, "osd.2", 1));
}

fn assert_position(rt: &impl Abort, index: &Index, id: ItemId, position: Option<Position>) {
    assert_eq!(rt; index.places().position(id), position);
}

#[test]
fn places_come_and_go(rt: HostRuntime) {
    let mut index = Index::new(rt.alloc(), Hashing::plain());
    assert_position(&rt, &index, device_item(&rt, 2), None);
    add_four(&rt, &mut index);
    assert_position(&rt, &index, bucket_item(&rt, 2), below(&rt, 1, 0));
    assert_position(&rt, &index, device_item(&rt, 2), below(&rt, 2, 1));
    // A device and a bucket with the same number are different items.
    assert_position(&rt, &index, device_item(&rt, 1), None);
    drop(index);
}

fn assert_found_from_every_slot(
    rt: &impl Abort,
    index: &Index,
    id: ItemId,
    position: Option<Position>,
    slot: u32,
) {
    let id = &id;
    let found = Found { position, slot };
    for from in [0, 1, 2, u32::MAX] {
        assert_eq!(rt;
            index.places().position_from(*id, from),
            found,
            "from slot {from}"
        );
    }
}

#[test]
fn a_slot_is_never_trusted(rt: HostRuntime) {
    let mut index = Index::new(rt.alloc(), Hashing::plain());
    add_four(&rt, &mut index);
    // The slot of a bucket is the bucket's id without the sign, until the bucket is exchanged with
    // another. The last argument is the slot of the bucket that holds the item. It is 0 for the
    // bucket -3, which the index doesn't have.
    assert_found_from_every_slot(&rt, &index, device_item(&rt, 2), below(&rt, 2, 1), 2);
    assert_found_from_every_slot(&rt, &index, bucket_item(&rt, 2), below(&rt, 1, 0), 1);
    assert_found_from_every_slot(&rt, &index, bucket_item(&rt, 3), None, 0);
    drop(index);
}

fn put(index: &mut Index, id: &ItemId, bucket: &BucketId, hint: u32) -> bool {
    if index.places().position(*id).is_none() {
        return false;
    }
    if index.places().position(ItemId::Bucket(*bucket)).is_none() {
        return false;
    }
    index.put(
        *id,
        Position {
            place: Place::Bucket(*bucket),
            hint,
        },
    );
    true
}

fn remove_and_move(rt: &(impl Abort + AllocGlobal), index: &mut Index) -> bool {
    let gone = leaf(rt, 0, "osd.0", 1);
    index.remove_node(&gone);
    drop(gone);
    put(index, &device_item(rt, 2), &bucket(rt, 1), 1)
}

#[test]
fn items_go_and_move(rt: HostRuntime) {
    let mut index = Index::new(rt.alloc(), Hashing::plain());
    add_four(&rt, &mut index);
    assert!(rt; remove_and_move(&rt, &mut index));
    assert_position(&rt, &index, device_item(&rt, 0), None);
    assert_position(&rt, &index, device_item(&rt, 2), below(&rt, 1, 1));
    assert_position(&rt, &index, bucket_item(&rt, 2), below(&rt, 1, 0));
    drop(index);
}
