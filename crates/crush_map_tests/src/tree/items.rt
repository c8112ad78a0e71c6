//! Short functions with which tests create items and ids. The argument for a bucket is the distance
//! of its id below 0, and the argument for a device is its number.

use super::puts::Refused;
use crush_tree::{Header, Node, Place, ShadowId};
use crush_units::{Alg, BucketId, DeviceId, ItemId, Name, TypeId, Weight};
use std::alloc::{Allocator, Global};
use std::process::Abort;

/// An item to create. A bucket has the distance of its id below 0, and its name. A device has its
/// id, its name, and its weight in units of 1/65536.
#[derive(Clone, Copy)]
pub(super) enum Item<'a> {
    Root(u32, &'a str),
    Host(u32, &'a str),
    /// A host with a class id for `ssd`. The last number is the distance of the class id below 0.
    HostOfClass(u32, &'a str, u32),
    Device(u32, &'a str, u32),
    /// A device of the class `ssd`.
    DeviceOfClass(u32, &'a str, u32),
}

pub(super) fn bucket(rt: &impl Abort, distance: u32) -> BucketId {
    BucketId::below_zero(distance).expect(rt, "a bucket")
}

pub(super) fn device(rt: &impl Abort, number: u32) -> DeviceId {
    DeviceId::from_number(number).expect(rt, "a device")
}

pub(super) fn bucket_item(rt: &impl Abort, distance: u32) -> ItemId {
    ItemId::Bucket(bucket(rt, distance))
}

pub(super) fn inside(rt: &impl Abort, distance: u32) -> Place {
    Place::Bucket(bucket(rt, distance))
}

pub(super) fn device_item(rt: &impl Abort, number: u32) -> ItemId {
    ItemId::Device(device(rt, number))
}

pub(super) fn name<A: Allocator>(rt: &impl Abort, alloc: A, text: &str) -> Name<A> {
    Name::read(alloc, text.as_bytes()).expect(rt, "a name")
}

fn header<A: Allocator + Copy>(
    rt: &impl Abort,
    alloc: A,
    distance: u32,
    kind: u16,
    name: Name<A>,
) -> Header<A> {
    Header {
        id: bucket(rt, distance),
        kind: TypeId::new(kind),
        name,
        alg: Alg::Straw2,
        class_ids: Vec::new(alloc),
    }
}

fn class_id<A: Allocator>(rt: &impl Abort, alloc: A, distance: u32) -> ShadowId<A> {
    ShadowId {
        id: bucket(rt, distance),
        class: name(rt, alloc, "ssd"),
    }
}

fn header_of_class<A: Allocator + Copy>(
    rt: &impl Abort,
    alloc: A,
    distance: u32,
    text: &str,
    class_distance: u32,
) -> Header<A> {
    let mut header = header(rt, alloc, distance, 1, name(rt, alloc, text));
    header
        .class_ids
        .push(class_id(rt, alloc, class_distance))
        .expect(rt, "memory");
    header
}

fn device_of_class<A: Allocator + Copy>(
    rt: &impl Abort,
    alloc: A,
    number: u32,
    text: &str,
    units: u32,
) -> Node<A> {
    let id = device(rt, number);
    let class = name(rt, alloc, "ssd");
    let name = name(rt, alloc, text);
    Node::device(id, name, Weight::from_units(units), Some(class))
}

fn empty<A: Allocator + Copy>(alloc: A, header: Header<A>) -> Result<Node<A>, Refused> {
    Node::bucket(alloc, header).ok().ok_or(Refused::NoMemory)
}

fn empty_of_kind<A: Allocator + Copy>(
    rt: &impl Abort,
    alloc: A,
    distance: u32,
    kind: u16,
    name: &str,
) -> Result<Node<A>, Refused> {
    let name = Name::read(alloc, name.as_bytes())?;
    empty(alloc, header(rt, alloc, distance, kind, name))
}

fn device_without_class<A: Allocator + Copy>(
    rt: &impl Abort,
    alloc: A,
    number: u32,
    name: &str,
    units: u32,
) -> Result<Node<A>, Refused> {
    let id = device(rt, number);
    let name = Name::read(alloc, name.as_bytes())?;
    Ok(Node::device(id, name, Weight::from_units(units), None))
}

pub(super) fn made<A: Allocator + Copy>(
    rt: &impl Abort,
    alloc: A,
    item: Item,
) -> Result<Node<A>, Refused> {
    match item {
        Item::Root(distance, name) => empty_of_kind(rt, alloc, distance, 11, name),
        Item::Host(distance, name) => empty_of_kind(rt, alloc, distance, 1, name),
        Item::HostOfClass(distance, name, class_id) => {
            empty(alloc, header_of_class(rt, alloc, distance, name, class_id))
        }
        Item::Device(number, name, units) => device_without_class(rt, alloc, number, name, units),
        Item::DeviceOfClass(number, name, units) => {
            Ok(device_of_class(rt, alloc, number, name, units))
        }
    }
}

fn hold<A: Allocator>(bucket: &mut Node<A>, child: Node<A>) -> Result<(), Refused> {
    if !bucket.has_room() || bucket.weight().units() > u32::MAX - child.weight().units() {
        drop(child);
        return Err(Refused::Unfit);
    }
    bucket.hold(child);
    Ok(())
}

fn hold_item<A: Allocator + Copy>(
    rt: &impl Abort,
    alloc: A,
    bucket: &mut Node<A>,
    item: Item,
) -> Result<(), Refused> {
    let child = made(rt, alloc, item)?;
    hold(bucket, child)
}

pub(super) fn holding<A: Allocator + Copy>(
    rt: &impl Abort,
    alloc: A,
    bucket: Item,
    item: Item,
) -> Result<Node<A>, Refused> {
    let mut node = made(rt, alloc, bucket)?;
    match hold_item(rt, alloc, &mut node, item) {
        Ok(()) => Ok(node),
        Err(refused) => {
            drop(node);
            Err(refused)
        }
    }
}

pub(super) fn node(rt: &(impl Abort + AllocGlobal), item: Item) -> Node<Global> {
    made(rt, rt.alloc(), item).expect(rt, "memory")
}

pub(super) fn node_with(
    rt: &(impl Abort + AllocGlobal),
    bucket: Item,
    child: Node<Global>,
) -> Node<Global> {
    let mut node = node(rt, bucket);
    hold(&mut node, child).expect(rt, "room");
    node
}

#[test]
fn a_bucket_stores_the_sum_of_its_items(rt: HostRuntime) {
    let host = Item::Host(2, "h1");
    let device = Item::Device(0, "osd.0", 65536);
    let node = holding(&rt, rt.alloc(), host, device).expect(&rt, "a bucket");
    assert_eq!(rt; node.weight(), Weight::from_units(65536));
    assert!(rt; node.stores_sums());
    drop(node);
}
