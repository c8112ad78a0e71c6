//! Tests the names, places and used ids of an index while items are added, changed and removed.

ghost use Rattle.std.specs.Prelude.{◌≡◌, Some, IfSome};
ghost use Rattle.crush_units.specs.declared.id.ItemId.TheVariants.{Bucket as BucketItem};
ghost use Rattle.crush_index.specs.NamesAnswers.{id_answer};

use crush_index::{Hashing, Index};
use crush_nodes::guide::{Guide, Position};
use crush_nodes::node::{Header, Node, ShadowId};
use crush_nodes::place::Place;
use crush_units::{Alg, BucketId, DeviceId, ItemId, Name, TypeId, Weight};
use std::alloc::{AllocGlobal, Global};
use std::process::Abort;

fn bucket(rt: &impl Abort, distance: u32) -> BucketId {
    BucketId::below_zero(distance).expect(rt, "the id of a bucket")
}

fn device(rt: &impl Abort, number: u32) -> ItemId {
    ItemId::Device(DeviceId::from_number(number).expect(rt, "the id of a device"))
}

fn name(rt: &impl Abort, alloc: Global, text: &[u8]) -> Name<Global> {
    Name::read(alloc, text).expect(rt, "a name")
}

/// Returns the header of bucket -2, whose class id for `ssd` is -3.
fn header(rt: &impl Abort, alloc: Global) -> Header<Global> {
    let mut class_ids = Vec::new(alloc);
    let class = ShadowId {
        id: bucket(rt, 3),
        class: name(rt, alloc, b"ssd"),
    };
    class_ids.push(class).expect(rt, "memory");
    Header {
        id: bucket(rt, 2),
        kind: TypeId::new(1),
        name: name(rt, alloc, b"h1"),
        alg: Alg::Straw2,
        class_ids,
    }
}

fn host(rt: &impl Abort, alloc: Global) -> Node<Global> {
    Node::bucket(alloc, header(rt, alloc))
        .ok()
        .expect(rt, "memory")
}

fn leaf(rt: &impl Abort, alloc: Global) -> Node<Global> {
    let id = DeviceId::from_number(0).expect(rt, "the id of a device");
    Node::device(
        id,
        name(rt, alloc, b"osd.0"),
        Weight::from_units(65536),
        None,
    )
}

fn answers_for(
    index: &Index,
    rt: &impl Abort,
    host: Option<Position>,
    leaf: Option<Position>,
) -> bool {
    let id = bucket(rt, 2);
    let is_there = host.is_some();
    index.id_of(b"h1").is_some() == is_there
        && index.places().position(ItemId::Bucket(id)) == host
        && index.places().position(device(rt, 0)) == leaf
        && index.is_used(id) == is_there
        && index.is_used(bucket(rt, 3)) == is_there
        && !index.is_used(bucket(rt, 1))
        && index.first_free(2) == Some(if is_there { 4 } else { 2 })
}

#[test]
fn items_come_and_go(rt: HostRuntime) {
    let mut index = Index::new(rt.alloc(), Hashing::plain());
    let first = host(&rt, rt.alloc());
    let second = leaf(&rt, rt.alloc());
    let root = Some(Position {
        place: Place::Root,
        hint: 0,
    });
    let below = Some(Position {
        place: Place::Bucket(bucket(&rt, 2)),
        hint: 0,
    });
    assert!(rt; answers_for(&index, &rt, None, None));
    index
        .insert_node(Place::Root, 0, &first)
        .expect(&rt, "memory");
    index
        .insert_node(Place::Bucket(bucket(&rt, 2)), 0, &second)
        .expect(&rt, "memory");
    assert!(rt; answers_for(&index, &rt, root, below));
    index.remove_node(&second);
    assert!(rt; answers_for(&index, &rt, root, None) && index.id_of(b"osd.0").is_none());
    index.remove_node(&first);
    assert!(rt; answers_for(&index, &rt, None, None));
    drop(second);
    drop(first);
    drop(index);
}

#[test]
fn a_copy_goes_its_own_way(rt: HostRuntime) {
    let mut index = Index::new(rt.alloc(), Hashing::plain());
    let first = host(&rt, rt.alloc());
    let second = leaf(&rt, rt.alloc());
    let root = Some(Position {
        place: Place::Root,
        hint: 0,
    });
    let below = Some(Position {
        place: Place::Bucket(bucket(&rt, 2)),
        hint: 0,
    });
    index
        .insert_node(Place::Root, 0, &first)
        .expect(&rt, "memory");
    index
        .insert_node(Place::Bucket(bucket(&rt, 2)), 0, &second)
        .expect(&rt, "memory");
    let mut copy = index.try_copy().expect(&rt, "memory");
    assert!(rt; answers_for(&copy, &rt, root, below));
    assert!(rt; copy.id_of(b"osd.0") == Some(device(&rt, 0)));
    copy.remove_node(&second);
    assert!(rt; answers_for(&copy, &rt, root, None) && copy.id_of(b"osd.0").is_none());
    assert!(rt; answers_for(&index, &rt, root, below));
    assert!(rt; index.id_of(b"osd.0") == Some(device(&rt, 0)));
    drop(copy);
    drop(second);
    drop(first);
    drop(index);
}

#[test]
fn a_hint_leaves_the_place(rt: HostRuntime) {
    let mut index = Index::new(rt.alloc(), Hashing::plain());
    let first = host(&rt, rt.alloc());
    index
        .insert_node(Place::Root, 0, &first)
        .expect(&rt, "memory");
    index.hint(ItemId::Bucket(bucket(&rt, 2)), 3);
    index.hint(device(&rt, 0), 3);
    let root = Some(Position {
        place: Place::Root,
        hint: 3,
    });
    assert!(rt; answers_for(&index, &rt, root, None));
    drop(first);
    drop(index);
}

#[test]
fn a_name_is_another(rt: HostRuntime) {
    let mut index = Index::new(rt.alloc(), Hashing::plain());
    let first = host(&rt, rt.alloc());
    let rack = name(&rt, rt.alloc(), b"rack");
    let id = ItemId::Bucket(bucket(&rt, 2));
    index
        .insert_node(Place::Root, 0, &first)
        .expect(&rt, "memory");
    index.add_name(rack, id).expect(&rt, "memory");
    assert!(rt; index.id_of(b"h1") == Some(id) && index.id_of(b"rack") == Some(id));
    index.forget_name(b"h1");
    assert!(rt; index.id_of(b"h1").is_none() && index.id_of(b"rack") == Some(id));
    drop(first);
    drop(index);
}

fn bucket_named_h2(rt: &impl Abort, alloc: Global) -> Node<Global> {
    let header = Header {
        id: bucket(rt, 1),
        kind: TypeId::new(1),
        name: name(rt, alloc, b"h2"),
        alg: Alg::Straw2,
        class_ids: Vec::new(alloc),
    };
    Node::bucket(alloc, header).ok().expect(rt, "memory")
}

fn named(index: &Index, name: &[u8]) -> Option<BucketId>
    ensures { IfSome result (λ b. id_answer index.now.names name.now ≡ Some (BucketItem b)) }
{
    match index.id_of(name)? {
        ItemId::Bucket(bucket) => Some(bucket),
        ItemId::Device(_) => None,
    }
}

pub(super) fn exchange_hosts(index: &mut Index) {
    let Some(first) = named(index, b"h1") else {
        return;
    };
    let Some(second) = named(index, b"h2") else {
        return;
    };
    index.exchange(first, second, b"h1", b"h2");
}

#[test]
fn buckets_are_exchanged(rt: HostRuntime) {
    let mut index = Index::new(rt.alloc(), Hashing::plain());
    let mut roots = Vec::new(rt.alloc());
    roots.push(host(&rt, rt.alloc())).expect(&rt, "memory");
    roots
        .push(bucket_named_h2(&rt, rt.alloc()))
        .expect(&rt, "memory");
    let mut items = Vec::new(rt.alloc());
    items.push(leaf(&rt, rt.alloc())).expect(&rt, "memory");
    let h1 = bucket(&rt, 2);
    let h2 = bucket(&rt, 1);
    index
        .insert_node(Place::Root, 0, &roots[0])
        .expect(&rt, "memory");
    index
        .insert_node(Place::Root, 1, &roots[1])
        .expect(&rt, "memory");
    index
        .insert_node(Place::Bucket(h1), 0, &items[0])
        .expect(&rt, "memory");
    let moved = Some(Position {
        place: Place::Bucket(h2),
        hint: 0,
    });
    exchange_hosts(&mut index);
    assert!(rt; index.id_of(b"h1") == Some(ItemId::Bucket(h2)));
    assert!(rt; index.id_of(b"h2") == Some(ItemId::Bucket(h1)));
    assert!(rt; index.places().position(device(&rt, 0)) == moved);
    drop(items);
    drop(roots);
    drop(index);
}
