//! Short forms in which tests write edits, and facts about a map.

use crush_map::{BatchFault, Counts, CrushMap, Done, Dones, Edit, EditFault, Location, Placing};
use crush_tree::Node;
use crush_units::limits::MOST_EDITS;
use crush_units::{DeviceId, ItemId, Name, Weight};
use std::alloc::{Allocator, Global};
use std::process::Abort;

/// The pairs of a location: each pair has the name of a type and the name of a bucket.
pub(super) type Pairs = &'static [(&'static str, &'static str)];

/// An edit. Weights are in units of 1/65536. The device with the number N has the name `osd.N`.
#[derive(Clone, Copy)]
pub(super) enum Asked {
    Add(i32, u32, Pairs),
    CreateOrMove(i32, u32, Pairs),
    Set(i32, u32, Pairs),
    Move(&'static str, Pairs),
    Swap(&'static str, &'static str),
    Reweight(&'static str, u32),
    ReweightSubtree(&'static str, u32),
    Remove(&'static str),
    AddBucket(&'static str, &'static str),
    Rename(&'static str, &'static str),
    SetClass(&'static str, &'static str),
    RemoveClass(&'static str),
}

/// A fact about a map. Weights are in units of 1/65536.
#[derive(Clone, Copy)]
pub(super) enum Fact {
    /// The bucket has these items, in this order, and this weight.
    Holds(&'static str, &'static [&'static str], u32),
    HasId(&'static str, i32),
    IsRoot(&'static str),
    IsAbsent(&'static str),
    Weighs(&'static str, u32),
    HasClass(&'static str, &'static str),
    Total(u64),
    /// The number of devices, and the number of buckets.
    Counts(u32, u32),
}

pub(super) fn name(rt: &impl Abort, alloc: Global, text: &str) -> Name<Global> {
    Name::read(alloc, text.as_bytes()).expect(rt, text)
}

fn device(rt: &impl Abort, number: i32) -> DeviceId {
    DeviceId::new(number).expect(rt, "a device")
}

fn location(rt: &impl Abort, alloc: Global, pairs: Pairs) -> Location {
    let mut at = Location::new(alloc);
    for (kind, bucket) in pairs {
        at.push(kind.as_bytes(), bucket.as_bytes())
            .expect(rt, "a pair");
    }
    at
}

pub(super) fn edit(rt: &impl Abort, alloc: Global, asked: Asked) -> Edit {
    match asked {
        Asked::Add(number, units, pairs) => Edit::place(
            Placing::Insert,
            device(rt, number),
            Weight::from_units(units),
            location(rt, alloc, pairs),
        ),
        Asked::CreateOrMove(number, units, pairs) => Edit::place(
            Placing::CreateOrMove,
            device(rt, number),
            Weight::from_units(units),
            location(rt, alloc, pairs),
        ),
        Asked::Set(number, units, pairs) => Edit::place(
            Placing::Update,
            device(rt, number),
            Weight::from_units(units),
            location(rt, alloc, pairs),
        ),
        Asked::Move(item, pairs) => Edit::Move {
            name: name(rt, alloc, item),
            at: location(rt, alloc, pairs),
        },
        Asked::Swap(a, b) => Edit::Swap {
            a: name(rt, alloc, a),
            b: name(rt, alloc, b),
        },
        Asked::Reweight(item, units) => Edit::Reweight {
            name: name(rt, alloc, item),
            weight: Weight::from_units(units),
        },
        Asked::ReweightSubtree(bucket, units) => Edit::ReweightSubtree {
            name: name(rt, alloc, bucket),
            weight: Weight::from_units(units),
        },
        Asked::Remove(item) => Edit::Remove {
            name: name(rt, alloc, item),
        },
        Asked::AddBucket(bucket, kind) => Edit::AddBucket {
            name: name(rt, alloc, bucket),
            kind: name(rt, alloc, kind),
        },
        Asked::Rename(from, to) => Edit::Rename {
            from: name(rt, alloc, from),
            to: name(rt, alloc, to),
        },
        Asked::SetClass(item, class) => Edit::SetClass {
            name: name(rt, alloc, item),
            class: name(rt, alloc, class),
        },
        Asked::RemoveClass(item) => Edit::RemoveClass {
            name: name(rt, alloc, item),
        },
    }
}

pub(super) fn edits(rt: &impl Abort, alloc: Global, all: &[Asked]) -> Vec<Edit> {
    let mut made = Vec::new(alloc);
    for asked in all {
        made.push(edit(rt, alloc, *asked)).expect(rt, "memory");
    }
    made
}

fn name_of<A: Allocator>(node: &Node<A>) -> &str {
    match node {
        Node::Device(leaf) => leaf.name.as_str(),
        Node::Bucket(bucket) => bucket.header.name.as_str(),
    }
}

fn items_of<'m, A: Allocator>(map: &'m CrushMap<A>, bucket: &str) -> Option<&'m [Node<A>]> {
    let ItemId::Bucket(id) = map.locate(bucket)? else {
        return None;
    };
    map.items(id)
}

fn assert_holds<A: Allocator>(
    rt: &impl Abort,
    map: &CrushMap<A>,
    place: usize,
    bucket: &str,
    names: &[&str],
) {
    let nodes = items_of(map, bucket).expect(rt, bucket);
    assert_eq!(rt; nodes.len(), names.len(), "line {place}: {bucket}");
    for (node, name) in nodes.iter().zip(names) {
        assert_eq!(rt; name_of(node), *name, "line {place}: {bucket}");
    }
}

fn assert_id<A: Allocator>(
    rt: &impl Abort,
    map: &CrushMap<A>,
    place: usize,
    item: &str,
    number: i32,
) {
    let id = map.locate(item).expect(rt, item);
    assert_eq!(rt; id.number(), number, "line {place}: {item}");
}

fn assert_root<A: Allocator>(rt: &impl Abort, map: &CrushMap<A>, place: usize, bucket: &str) {
    let id = map.locate(bucket).expect(rt, bucket);
    assert_eq!(rt; map.parent(id), None, "line {place}: {bucket}");
}

fn assert_absent<A: Allocator>(rt: &impl Abort, map: &CrushMap<A>, place: usize, item: &str) {
    assert_eq!(rt; map.locate(item), None, "line {place}: {item}");
    assert_eq!(rt; map.weight_of(item), None, "line {place}: {item}");
}

fn assert_weight<A: Allocator>(
    rt: &impl Abort,
    map: &CrushMap<A>,
    place: usize,
    item: &str,
    units: u32,
) {
    let weight = Some(Weight::from_units(units));
    assert_eq!(rt; map.weight_of(item), weight, "line {place}: {item}");
}

pub(super) fn assert_class<A: Allocator>(
    rt: &impl Abort,
    map: &CrushMap<A>,
    device: &str,
    class: &str,
) {
    let id = map.locate(device).expect(rt, device);
    assert_eq!(rt; map.class_of(id), Some(class), "{device}");
}

fn assert_total<A: Allocator>(rt: &impl Abort, map: &CrushMap<A>, place: usize, units: u64) {
    assert_eq!(rt; map.total(), units, "line {place}");
    assert_eq!(rt; map.forest().total(), units, "line {place}");
}

fn assert_true_of<A: Allocator>(rt: &impl Abort, map: &CrushMap<A>, place: usize, fact: Fact) {
    match fact {
        Fact::Holds(bucket, items, units) => {
            assert_holds(rt, map, place, bucket, items);
            assert_weight(rt, map, place, bucket, units);
        }
        Fact::HasId(item, number) => assert_id(rt, map, place, item, number),
        Fact::IsRoot(bucket) => assert_root(rt, map, place, bucket),
        Fact::IsAbsent(item) => assert_absent(rt, map, place, item),
        Fact::Weighs(item, units) => assert_weight(rt, map, place, item, units),
        Fact::HasClass(device, class) => assert_class(rt, map, device, class),
        Fact::Total(units) => assert_total(rt, map, place, units),
        Fact::Counts(devices, buckets) => {
            let counts = Counts { devices, buckets };
            assert_eq!(rt; map.counts(), counts, "line {place}");
        }
    }
}

pub(super) fn are_true_of<A: Allocator>(
    rt: &impl Abort,
    map: &CrushMap<A>,
    place: usize,
    facts: &[Fact],
) {
    for fact in facts {
        assert_true_of(rt, map, place, *fact);
    }
}

fn make_batch<A: Allocator + Clone>(
    rt: &impl Abort,
    map: &mut CrushMap<A>,
    edits: &[Edit],
) -> Result<Dones, BatchFault> {
    assert!(rt; edits.len() <= MOST_EDITS);
    map.apply_batch(edits)
}

#[derive(Clone, Copy, Debug, PartialEq)]
pub(super) enum Told {
    One(Result<Done, EditFault>),
    Batch(Result<Dones, BatchFault>),
}

pub(super) fn answer<A: Allocator + Clone>(
    rt: &impl Abort,
    map: &mut CrushMap<A>,
    edits: &[Edit],
) -> Told {
    if let [edit] = edits {
        return Told::One(map.apply(edit));
    }
    Told::Batch(make_batch(rt, map, edits))
}

pub(super) const CHANGED: Told = Told::One(Ok(Done {
    changed: true,
    made: 0,
}));
