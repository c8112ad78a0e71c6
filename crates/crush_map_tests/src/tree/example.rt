//! Builds the forest of the example map, in the global allocator and in small heaps, and calls the
//! methods of a forest that take no `Guide`.

use super::alike::{copy_of, is_same};
use super::asks::{fits, fits_moved, has_item};
use super::items::{Item, bucket, bucket_item, device, device_item, holding, inside, name, node};
use super::puts::{
    Refused, add, add_in, classify, exchange, give_name, grows_and_back, put, weigh, weigh_all,
};
use crush_tree::{Forest, Node, Place, View};
use crush_units::{Alg, BucketId, ItemId, Weight};
use linked_list_allocator::LocalHeap;
use std::alloc::{Allocator, Global};
use std::process::Abort;

fn put_h1<A: Allocator + Copy>(
    rt: &impl Abort,
    alloc: A,
    forest: &mut Forest<A>,
) -> Result<(), Refused> {
    add_in(rt, alloc, forest, inside(rt, 1), Item::Host(2, "h1"))?;
    let osd_0 = Item::Device(0, "osd.0", 65536);
    add_in(rt, alloc, forest, inside(rt, 2), osd_0)?;
    let osd_1 = Item::Device(1, "osd.1", 65536);
    add_in(rt, alloc, forest, inside(rt, 2), osd_1)
}

fn put_all<A: Allocator + Copy>(
    rt: &impl Abort,
    alloc: A,
    forest: &mut Forest<A>,
) -> Result<(), Refused> {
    add_in(rt, alloc, forest, Place::Root, Item::Root(1, "default"))?;
    put_h1(rt, alloc, forest)?;
    put_h2(rt, alloc, forest)
}

/// Puts osd.2 into h2, and then adds h2 to the forest.
fn put_h2<A: Allocator + Copy>(
    rt: &impl Abort,
    alloc: A,
    forest: &mut Forest<A>,
) -> Result<(), Refused> {
    let h2 = holding(
        rt,
        alloc,
        Item::Host(3, "h2"),
        Item::Device(2, "osd.2", 32768),
    )?;
    put(forest, inside(rt, 1), h2)
}

/// Returns the forest in which h1 holds osd.0 and osd.1, with the weight 1.0 each, and h2 holds
/// osd.2, with the weight 0.5. Both hosts are in the root.
fn example_in<A: Allocator + Copy>(rt: &impl Abort, alloc: A) -> Result<Forest<A>, Refused> {
    let mut forest = Forest::new(alloc, alloc);
    match put_all(rt, alloc, &mut forest) {
        Ok(()) => Ok(forest),
        Err(refused) => {
            assert_begun(rt, &forest);
            drop(forest);
            Err(refused)
        }
    }
}

fn assert_first<A: Allocator>(
    rt: &impl Abort,
    forest: &Forest<A>,
    devices: u32,
    buckets: u32,
    units: u64,
) {
    for i in 0..4 {
        assert_eq!(rt;
            has_item(forest, &device_item(rt, i)),
            i < devices,
            "device {i}"
        );
    }
    for i in 1..4 {
        assert_eq!(rt;
            has_item(forest, &bucket_item(rt, i)),
            i <= buckets,
            "bucket -{i}"
        );
    }
    assert_eq!(rt; forest.total(), units);
}

/// The items are added in this order: the root, h1, osd.0, osd.1, and h2 with osd.2. The forest
/// must have the first items of this order and no others.
fn assert_begun<A: Allocator>(rt: &impl Abort, forest: &Forest<A>) {
    let (devices, buckets, units) = if !has_item(forest, &bucket_item(rt, 1)) {
        (0, 0, 0)
    } else if !has_item(forest, &bucket_item(rt, 2)) {
        (0, 1, 0)
    } else if !has_item(forest, &device_item(rt, 0)) {
        (0, 2, 0)
    } else if !has_item(forest, &device_item(rt, 1)) {
        (1, 2, 65536)
    } else {
        (2, 2, 131072)
    };
    assert_first(rt, forest, devices, buckets, units);
}

pub(super) fn example(rt: &(impl Abort + AllocGlobal)) -> Forest<Global> {
    example_in(rt, rt.alloc()).expect(rt, "memory")
}

fn assert_weight(rt: &impl Abort, forest: &Forest<Global>, distance: u32, units: u32) {
    let weight = forest.weight(bucket_item(rt, distance));
    assert_eq!(rt;
        weight,
        Some(Weight::from_units(units)),
        "bucket -{distance}"
    );
}

fn assert_sums(rt: &impl Abort, forest: &Forest<Global>) {
    assert_first(rt, forest, 4, 3, 163840);
    assert_weight(rt, forest, 2, 131072);
    assert_weight(rt, forest, 3, 32768);
}

fn assert_osd_2_in_h2(rt: &impl Abort, forest: &Forest<Global>) {
    assert_eq!(rt; forest.id_of("osd.2"), Some(device_item(rt, 2)));
    assert_eq!(rt; forest.parent(device_item(rt, 2)), Some(bucket(rt, 3)));
}

fn assert_copied(rt: &impl Abort, forest: &Forest<Global>) {
    let copy = copy_of(rt, forest);
    assert!(rt; is_same(rt, &copy, forest));
    drop(copy);
}

fn assert_class(rt: &impl Abort, forest: &Forest<Global>, number: u32, class: Option<&str>) {
    let Some(view) = forest.find(device_item(rt, number)) else {
        panic!(rt; "device {number} isn't found")
    };
    assert_eq!(rt; view.class, class, "device {number}");
}

fn assert_columns(rt: &impl Abort, forest: &Forest<Global>) {
    assert_class(rt, forest, 3, Some("ssd"));
    assert!(rt; forest.find(device_item(rt, 4)).is_none());
}

fn assert_h2(rt: &impl Abort, view: &View<'_>, parent: BucketId) {
    assert_eq!(rt; view.id.number(), -3);
    assert_eq!(rt; view.kind.number(), 1);
    assert_eq!(rt; view.name, "h2");
    assert_eq!(rt; view.alg, Some(Alg::Straw2));
    assert_eq!(rt; view.class, None);
    assert_eq!(rt; view.weight.units(), 32768);
    assert_eq!(rt; view.parent, Some(parent));
}

fn assert_finds_h2(rt: &impl Abort, forest: &Forest<Global>) {
    match forest.find(bucket_item(rt, 3)) {
        Some(view) => assert_h2(rt, &view, bucket(rt, 1)),
        None => panic!(rt; "h2 isn't found"),
    }
}

fn assert_what_is_below(rt: &impl Abort, forest: &Forest<Global>) {
    let (root, h1) = (bucket(rt, 1), bucket(rt, 2));
    assert!(rt; forest.contains(root, device_item(rt, 2)));
    assert!(rt; forest.contains(h1, ItemId::Bucket(h1)));
    assert!(rt; !forest.contains(h1, device_item(rt, 2)));
    assert!(rt; !forest.contains(h1, ItemId::Bucket(root)));
}

fn assert_numbered(rt: &impl Abort, items: &[Node<Global>], numbers: &[i32]) {
    assert_eq!(rt; items.len(), numbers.len());
    for (item, number) in items.iter().zip(numbers) {
        assert_eq!(rt; item.id().number(), *number);
    }
}

fn assert_holds(rt: &impl Abort, forest: &Forest<Global>, distance: u32, numbers: &[i32]) {
    let items = forest.items(bucket(rt, distance)).expect(rt, "a bucket");
    assert_numbered(rt, items, numbers);
}

fn assert_in_order(rt: &impl Abort, forest: &Forest<Global>) {
    assert_numbered(rt, forest.roots(), &[-1]);
    assert_numbered(rt, forest.unplaced(), &[3]);
    assert_holds(rt, forest, 1, &[-2, -3]);
    assert_holds(rt, forest, 2, &[0, 1]);
    assert!(rt; forest.items(bucket(rt, 4)).is_none());
}

fn assert_memory_for_a_name(rt: &impl Abort, forest: &Forest<Global>) {
    let name = name(rt, *forest.allocator(), "osd.3");
    assert_eq!(rt; name.as_str(), "osd.3");
    drop(name);
}

fn assert_answers(rt: &impl Abort, forest: &Forest<Global>) {
    assert_sums(rt, forest);
    assert_osd_2_in_h2(rt, forest);
    assert_copied(rt, forest);
    assert_columns(rt, forest);
    assert_finds_h2(rt, forest);
    assert_what_is_below(rt, forest);
    assert_in_order(rt, forest);
    assert_memory_for_a_name(rt, forest);
}

#[test]
fn the_example_answers_every_query(rt: HostRuntime) {
    let mut forest = example(&rt);
    let idle = Item::DeviceOfClass(3, "osd.3", 0);
    add(&rt, &mut forest, Place::Unplaced, idle);
    assert_answers(&rt, &forest);
    drop(forest);
}

fn lacks_a_copy(forest: &Forest<&LocalHeap>) -> bool {
    match forest.try_copy() {
        Ok(copy) => {
            drop(copy);
            false
        }
        Err(_) => true,
    }
}

fn holds_the_forest(rt: &impl Abort, heap: &LocalHeap, whole: &Forest<Global>) -> bool {
    match example_in(rt, heap) {
        Ok(forest) => {
            assert!(rt; is_same(rt, &forest, whole));
            assert!(rt; lacks_a_copy(&forest));
            drop(forest);
            true
        }
        Err(refused) => {
            assert_eq!(rt; refused, Refused::NoMemory);
            false
        }
    }
}

fn is_held_by_a_heap(rt: &(impl Abort + AllocGlobal), whole: &Forest<Global>) {
    for i in 1..1024 {
        let heap = LocalHeap::new(rt.alloc(), 64 * i).expect(rt, "a heap");
        if holds_the_forest(rt, &heap, whole) {
            return;
        }
    }
    panic!(rt; "no heap holds the forest")
}

#[test]
fn in_heaps_of_each_size(rt: HostRuntime) {
    let whole = example(&rt);
    is_held_by_a_heap(&rt, &whole);
    drop(whole);
}

fn take_h2_out(rt: &impl Abort, forest: &mut Forest<Global>) -> Weight {
    let h2 = forest.detach(bucket_item(rt, 3)).expect(rt, "h2");
    let weight = h2.weight();
    drop(h2);
    weight
}

fn assert_without_h2(rt: &impl Abort, forest: &Forest<Global>) {
    assert_eq!(rt; forest.total(), 131072);
    assert!(rt; !has_item(forest, &device_item(rt, 2)));
    assert_holds(rt, forest, 1, &[-2]);
}

fn assert_detached_and_put_back(rt: &(impl Abort + AllocGlobal), forest: &mut Forest<Global>) {
    let whole = copy_of(rt, forest);
    assert_eq!(rt; take_h2_out(rt, forest), Weight::from_units(32768));
    assert_without_h2(rt, forest);
    put_h2(rt, rt.alloc(), forest).expect(rt, "memory");
    assert!(rt; is_same(rt, forest, &whole));
    drop(whole);
}

fn assert_h1_at_h2(rt: &impl Abort, forest: &mut Forest<Global>) {
    exchange(forest, bucket(rt, 2), bucket(rt, 3)).expect(rt, "an exchange");
    assert_eq!(rt; forest.id_of("h1"), Some(bucket_item(rt, 3)));
    assert_weight(rt, forest, 3, 131072);
    assert_eq!(rt; forest.total(), 163840);
}

#[test]
fn items_move(rt: HostRuntime) {
    let mut forest = example(&rt);
    assert_detached_and_put_back(&rt, &mut forest);
    assert_h1_at_h2(&rt, &mut forest);
    drop(forest);
}

fn assert_sums_follow(rt: &impl Abort, forest: &mut Forest<Global>) {
    weigh(forest, device(rt, 2), Weight::from_units(65536)).expect(rt, "a weight");
    assert_eq!(rt; forest.total(), 196608);
    assert_weight(rt, forest, 3, 65536);
    weigh_all(forest, bucket(rt, 1), Weight::from_units(1)).expect(rt, "a weight");
    assert_eq!(rt; forest.total(), 3);
    assert_weight(rt, forest, 2, 2);
}

fn assert_gets_a_free_name(rt: &(impl Abort + AllocGlobal), forest: &mut Forest<Global>) {
    let h1 = bucket_item(rt, 2);
    let old = give_name(forest, &h1, name(rt, rt.alloc(), "h9")).expect(rt, "a free name");
    assert_eq!(rt; old.as_str(), "h1");
    drop(old);
    assert_eq!(rt; forest.id_of("h9"), Some(h1));
}

#[test]
fn weights_and_names(rt: HostRuntime) {
    let mut forest = example(&rt);
    assert_sums_follow(&rt, &mut forest);
    assert_gets_a_free_name(&rt, &mut forest);
    drop(forest);
}

fn assert_weight_of_ssd(rt: &impl Abort, forest: &Forest<Global>, id: ItemId, units: u32) {
    assert_eq!(rt;
        forest.class_weight(id, "ssd"),
        Some(Weight::from_units(units))
    );
}

fn assert_gets_a_class(rt: &(impl Abort + AllocGlobal), forest: &mut Forest<Global>) {
    let class = Some(name(rt, rt.alloc(), "ssd"));
    let old = classify(forest, device(rt, 0), class).expect(rt, "osd.0");
    assert!(rt; old.is_none());
    drop(old);
    assert_class(rt, forest, 0, Some("ssd"));
    assert_weight_of_ssd(rt, forest, bucket_item(rt, 1), 65536);
    assert_weight_of_ssd(rt, forest, bucket_item(rt, 3), 0);
    let hdd = forest.class_weight(bucket_item(rt, 1), "hdd");
    assert_eq!(rt; hdd, Some(Weight::from_units(0)));
    assert_eq!(rt; forest.class_weight(bucket_item(rt, 4), "ssd"), None);
}

fn assert_loses_its_class(rt: &impl Abort, forest: &mut Forest<Global>) {
    let old = classify(forest, device(rt, 3), None).expect(rt, "osd.3");
    let was_ssd = match &old {
        Some(old) => old.as_str() == "ssd",
        None => false,
    };
    drop(old);
    assert!(rt; was_ssd);
    assert_class(rt, forest, 3, None);
    assert_eq!(rt; forest.total(), 163840);
}

#[test]
fn classes_of_devices(rt: HostRuntime) {
    let mut forest = example(&rt);
    let idle = Item::DeviceOfClass(3, "osd.3", 0);
    add(&rt, &mut forest, Place::Unplaced, idle);
    assert_gets_a_class(&rt, &mut forest);
    assert_loses_its_class(&rt, &mut forest);
    drop(forest);
}

fn assert_keeps_osd_3(rt: &impl Abort, forest: &mut Forest<Global>) {
    forest.reserve(Place::Unplaced).expect(rt, "memory");
    assert_numbered(rt, forest.unplaced(), &[3]);
    forest.shrink();
    assert_numbered(rt, forest.unplaced(), &[3]);
}

#[test]
fn memory_to_spare(rt: HostRuntime) {
    let mut forest = example(&rt);
    let idle = Item::DeviceOfClass(3, "osd.3", 0);
    add(&rt, &mut forest, Place::Unplaced, idle);
    assert_keeps_osd_3(&rt, &mut forest);
    drop(forest);
}

fn assert_grows_twice_and_back(rt: &impl Abort, forest: &mut Forest<Global>) {
    let h1 = bucket(rt, 2);
    assert!(rt; grows_and_back(forest, h1, 2, 4));
    assert_holds(rt, forest, 2, &[0, 1]);
    assert!(rt; grows_and_back(forest, h1, 2, 4));
    assert_in_order(rt, forest);
}

#[test]
fn memory_and_back(rt: HostRuntime) {
    let mut forest = example(&rt);
    let idle = Item::DeviceOfClass(3, "osd.3", 0);
    add(&rt, &mut forest, Place::Unplaced, idle);
    assert_grows_twice_and_back(&rt, &mut forest);
    drop(forest);
}

/// The root weighs 163840 units, and may weigh at most 4294967295 units. If a device moves within
/// the root, its old weight doesn't count.
fn assert_what_fits(rt: &impl Abort, forest: &Forest<Global>) {
    let (h2, osd_0) = (bucket(rt, 3), device(rt, 0));
    let too_much = Weight::from_units(4294803456);
    assert_eq!(rt;
        fits(forest, h2, Weight::from_units(4294803455)),
        Some(true)
    );
    assert_eq!(rt; fits(forest, h2, too_much), Some(false));
    assert_eq!(rt; fits_moved(forest, osd_0, h2, too_much), Some(true));
}

#[test]
fn sums_that_fit(rt: HostRuntime) {
    let forest = example(&rt);
    assert_what_fits(&rt, &forest);
    drop(forest);
}

/// `host` can be a root. `other` can't, because its class id, -3, is the id of h2.
fn assert_can_be_a_root(rt: &(impl Abort + AllocGlobal), forest: &Forest<Global>) {
    let host = node(rt, Item::HostOfClass(4, "h3", 5));
    let other = node(rt, Item::HostOfClass(4, "h3", 3));
    assert!(rt; forest.can_attach(Place::Root, &host));
    assert!(rt; !forest.can_attach(Place::Unplaced, &host));
    assert!(rt; !forest.can_attach(Place::Root, &other));
    drop(host);
    drop(other);
}

#[test]
fn keys_and_places(rt: HostRuntime) {
    let forest = example(&rt);
    assert_can_be_a_root(&rt, &forest);
    drop(forest);
}
