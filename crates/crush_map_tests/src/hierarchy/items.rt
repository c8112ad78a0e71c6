//! Short functions with which tests create items and ids. The argument for a bucket is the distance
//! of its id below 0: the argument 2 means the id -2.

use crush_tree::{Header, Node, Place};
use crush_units::{Alg, BucketId, DeviceId, ItemId, Name, TypeId, Weight};
use std::alloc::Global;
use std::process::Abort;

pub(super) fn bucket(rt: &impl Abort, distance: u32) -> BucketId {
    BucketId::below_zero(distance).expect(rt, "a bucket")
}

pub(super) fn device(rt: &impl Abort, number: u32) -> DeviceId {
    DeviceId::from_number(number).expect(rt, "a device")
}

pub(super) fn bucket_item(rt: &impl Abort, distance: u32) -> ItemId {
    ItemId::Bucket(bucket(rt, distance))
}

pub(super) fn device_item(rt: &impl Abort, number: u32) -> ItemId {
    ItemId::Device(device(rt, number))
}

pub(super) fn inside(rt: &impl Abort, distance: u32) -> Place {
    Place::Bucket(bucket(rt, distance))
}

pub(super) fn name(rt: &(impl Abort + AllocGlobal), text: &str) -> Name<Global> {
    Name::read(rt.alloc(), text.as_bytes()).expect(rt, "a name")
}

pub(super) fn empty(
    rt: &(impl Abort + AllocGlobal),
    distance: u32,
    kind: u16,
    text: &str,
) -> Node<Global> {
    let header = Header {
        id: bucket(rt, distance),
        kind: TypeId::new(kind),
        name: name(rt, text),
        alg: Alg::Straw2,
        class_ids: Vec::new(rt.alloc()),
    };
    Node::bucket(rt.alloc(), header).ok().expect(rt, "memory")
}

pub(super) fn leaf(
    rt: &(impl Abort + AllocGlobal),
    number: u32,
    text: &str,
    units: u32,
) -> Node<Global> {
    let id = device(rt, number);
    Node::device(id, name(rt, text), Weight::from_units(units), None)
}
