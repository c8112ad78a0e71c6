//! Builds a small hierarchy, and calls most methods of this hierarchy.

use super::asks::{fits_attach, fits_move, fits_swap, has_item};
use super::comes::{put_bucket, put_placed, put_root, put_unplaced};
use super::items::{bucket, bucket_item, device, device_item, name};
use super::puts::{
    exchange, give_name, grow_and_back, grow_buffer, make_room, put_device, weigh, weigh_all,
};
use crush_hierarchy::{Hashing, Hierarchy};
use crush_tree::{Counts, Node};
use crush_units::{Alg, DeviceId, ItemId, Name, TypeId, Weight};
use std::alloc::Global;
use std::process::Abort;

fn add_root(
    rt: &(impl Abort + AllocGlobal),
    hierarchy: &mut Hierarchy<Global>,
    distance: u32,
    text: &str,
) {
    let (id, kind) = (bucket(rt, distance), TypeId::new(11));
    assert!(rt; put_root(hierarchy, rt.alloc(), id, kind, name(rt, text)));
}

fn add_host(
    rt: &(impl Abort + AllocGlobal),
    hierarchy: &mut Hierarchy<Global>,
    distance: u32,
    text: &str,
) {
    let (root, id, kind) = (bucket(rt, 1), bucket(rt, distance), TypeId::new(1));
    assert!(rt; put_bucket(hierarchy, rt.alloc(), root, id, kind, name(rt, text)));
}

fn add_device(
    rt: &(impl Abort + AllocGlobal),
    hierarchy: &mut Hierarchy<Global>,
    distance: u32,
    number: u32,
    units: u32,
) {
    let text = format!(in rt.alloc(); "osd.{}", number).expect(rt, "memory");
    let (host, id, weight) = (
        bucket(rt, distance),
        device(rt, number),
        Weight::from_units(units),
    );
    assert!(rt; put_placed(hierarchy, host, id, name(rt, text.as_str()), weight));
    drop(text);
}

fn add_unplaced(
    rt: &(impl Abort + AllocGlobal),
    hierarchy: &mut Hierarchy<Global>,
    number: u32,
    text: &str,
) {
    assert!(rt; put_unplaced(hierarchy, device(rt, number), name(rt, text)));
}

/// Adds the root `default`, which has h1 with osd.0 and osd.1 (weight 1.0 each) and h2 with osd.2
/// (weight 0.5), and the device osd.3, which is in no bucket.
fn fill(rt: &(impl Abort + AllocGlobal), hierarchy: &mut Hierarchy<Global>) {
    add_root(rt, hierarchy, 1, "default");
    add_host(rt, hierarchy, 2, "h1");
    add_device(rt, hierarchy, 2, 0, 65536);
    add_device(rt, hierarchy, 2, 1, 65536);
    add_host(rt, hierarchy, 3, "h2");
    add_device(rt, hierarchy, 3, 2, 32768);
    add_unplaced(rt, hierarchy, 3, "osd.3");
}

pub(super) fn example(rt: &(impl Abort + AllocGlobal)) -> Hierarchy<Global> {
    let mut hierarchy = Hierarchy::new(rt.alloc(), Hashing::plain(), rt.alloc(), rt.alloc());
    fill(rt, &mut hierarchy);
    hierarchy
}

fn assert_sums(
    rt: &impl Abort,
    hierarchy: &Hierarchy<Global>,
    devices: u32,
    buckets: u32,
    units: u64,
) {
    assert_eq!(rt; hierarchy.counts(), Counts { devices, buckets });
    assert_eq!(rt; hierarchy.total(), units);
}

fn assert_weight(rt: &impl Abort, hierarchy: &Hierarchy<Global>, distance: u32, units: u32) {
    let weight = hierarchy.weight(bucket_item(rt, distance));
    assert_eq!(rt;
        weight,
        Some(Weight::from_units(units)),
        "bucket -{distance}"
    );
}

fn assert_osd_2_in_h2(rt: &impl Abort, hierarchy: &Hierarchy<Global>) {
    assert_eq!(rt; hierarchy.id_of("osd.2"), Some(device_item(rt, 2)));
    assert_eq!(rt; hierarchy.id_of_bytes(b"h2"), Some(bucket_item(rt, 3)));
    assert_eq!(rt; hierarchy.parent(device_item(rt, 2)), Some(bucket(rt, 3)));
    assert_eq!(rt; hierarchy.parent(device_item(rt, 3)), None);
}

fn assert_h2(rt: &impl Abort, hierarchy: &Hierarchy<Global>) {
    assert_eq!(rt; hierarchy.kind(bucket_item(rt, 3)), Some(TypeId::new(1)));
    assert_eq!(rt; hierarchy.name(bucket_item(rt, 3)), Some("h2"));
    assert_weight(rt, hierarchy, 3, 32768);
}

fn assert_finds_h2(rt: &impl Abort, hierarchy: &Hierarchy<Global>) {
    let ids = hierarchy.class_ids(bucket(rt, 3)).expect(rt, "h2");
    assert!(rt; ids.is_empty());
    let Some(view) = hierarchy.find(bucket_item(rt, 3)) else {
        panic!(rt; "h2 isn't found")
    };
    assert_eq!(rt; view.name, "h2");
    assert_eq!(rt; view.weight.units(), 32768);
    assert_eq!(rt; view.parent, Some(bucket(rt, 1)));
    assert_eq!(rt; view.alg, Some(Alg::Straw2));
    assert!(rt; hierarchy.find(bucket_item(rt, 9)).is_none());
    assert!(rt; hierarchy.class_ids(bucket(rt, 9)).is_none());
}

fn assert_what_is_below(rt: &impl Abort, hierarchy: &Hierarchy<Global>) {
    assert!(rt; hierarchy.contains(bucket(rt, 1), device_item(rt, 2)));
    assert!(rt; !hierarchy.contains(bucket(rt, 2), device_item(rt, 2)));
}

fn assert_numbered(rt: &impl Abort, items: &[Node<Global>], numbers: &[i32]) {
    assert_eq!(rt; items.len(), numbers.len());
    for (item, number) in items.iter().zip(numbers) {
        assert_eq!(rt; item.id().number(), *number);
    }
}

fn assert_holds(rt: &impl Abort, hierarchy: &Hierarchy<Global>, distance: u32, numbers: &[i32]) {
    let items = hierarchy.items(bucket(rt, distance)).expect(rt, "a bucket");
    assert_numbered(rt, items, numbers);
}

fn assert_two_free_ids(rt: &impl Abort, hierarchy: &Hierarchy<Global>) {
    let mut ids = [bucket(rt, 1); 2];
    hierarchy.free_ids(&mut ids);
    assert_eq!(rt; ids, [bucket(rt, 4), bucket(rt, 5)]);
    assert!(rt; hierarchy.is_used(bucket(rt, 3)));
    assert!(rt; !hierarchy.is_used(bucket(rt, 4)));
}

fn assert_holds_all(rt: &impl Abort, hierarchy: &Hierarchy<Global>) {
    assert_numbered(rt, hierarchy.forest().roots(), &[-1]);
    assert_holds(rt, hierarchy, 1, &[-2, -3]);
    assert_holds(rt, hierarchy, 2, &[0, 1]);
    assert_holds(rt, hierarchy, 3, &[2]);
    assert_numbered(rt, hierarchy.forest().unplaced(), &[3]);
}

fn assert_answers(rt: &impl Abort, hierarchy: &Hierarchy<Global>) {
    assert_sums(rt, hierarchy, 4, 3, 163840);
    assert_osd_2_in_h2(rt, hierarchy);
    assert_h2(rt, hierarchy);
    assert_finds_h2(rt, hierarchy);
    assert_what_is_below(rt, hierarchy);
    assert_holds_all(rt, hierarchy);
    assert_two_free_ids(rt, hierarchy);
}

#[test]
fn the_example_answers_every_query(rt: HostRuntime) {
    let hierarchy = example(&rt);
    assert_answers(&rt, &hierarchy);
    let copy = hierarchy.try_copy().expect(&rt, "memory");
    assert_answers(&rt, &copy);
    drop(copy);
    drop(hierarchy);
}

/// The root weighs 163840 units, and may weigh at most 4294967295 units. If osd.0 moves within the
/// root, its old weight, 65536 units, doesn't count.
fn assert_what_fits(rt: &impl Abort, hierarchy: &Hierarchy<Global>) {
    let (h2, osd_0) = (bucket(rt, 3), device(rt, 0));
    assert_eq!(rt;
        fits_attach(hierarchy, h2, Weight::from_units(4294803455)),
        Some(true)
    );
    assert_eq!(rt;
        fits_attach(hierarchy, h2, Weight::from_units(4294803456)),
        Some(false)
    );
    assert_eq!(rt;
        fits_move(hierarchy, osd_0, h2, Weight::from_units(4294868991)),
        Some(true)
    );
    assert_eq!(rt;
        fits_move(hierarchy, osd_0, h2, Weight::from_units(4294868992)),
        Some(false)
    );
}

/// Both devices of h1 weigh 65536 units.
fn assert_what_changes(rt: &impl Abort, hierarchy: &mut Hierarchy<Global>) {
    let h1 = bucket(rt, 2);
    assert_eq!(rt;
        weigh_all(hierarchy, h1, Weight::from_units(65536)),
        Some(false)
    );
    assert_eq!(rt;
        weigh_all(hierarchy, h1, Weight::from_units(65537)),
        Some(true)
    );
}

/// The root reaches its greatest weight, 4294967295 units. The bucket h2 weighs 32768 units. First,
/// both devices of h1 get the greatest equal weight that still fits. Then osd.2 gets the greatest
/// weight that still fits.
fn assert_grows_as_far_as_it_fits(rt: &impl Abort, hierarchy: &mut Hierarchy<Global>) {
    let (h1, osd_2) = (bucket(rt, 2), device(rt, 2));
    assert_eq!(rt;
        weigh_all(hierarchy, h1, Weight::from_units(2147467264)),
        None
    );
    assert_sums(rt, hierarchy, 4, 3, 163840);
    assert_eq!(rt;
        weigh_all(hierarchy, h1, Weight::from_units(2147467263)),
        Some(true)
    );
    assert!(rt; !weigh(hierarchy, osd_2, Weight::from_units(32770)));
    assert_sums(rt, hierarchy, 4, 3, 4294967294);
    assert!(rt; weigh(hierarchy, osd_2, Weight::from_units(32769)));
    assert_sums(rt, hierarchy, 4, 3, 4294967295);
}

/// After the exchange of h1 and `other`, the root `default` would have h2 and `other`. So `default`
/// would weigh the 32768 units of h2 and the units of `other` together. This sum may be at most
/// 4294967295 units.
fn assert_what_can_be_exchanged(
    rt: &(impl Abort + AllocGlobal),
    hierarchy: &mut Hierarchy<Global>,
) {
    let (h1, other) = (bucket(rt, 2), bucket(rt, 4));
    add_root(rt, hierarchy, 4, "other");
    add_device(rt, hierarchy, 4, 4, 2147483647);
    add_device(rt, hierarchy, 4, 5, 2147450880);
    assert_eq!(rt; fits_swap(hierarchy, h1, other), Some(true));
    assert!(rt; weigh(hierarchy, device(rt, 5), Weight::from_units(2147450881)));
    assert_eq!(rt; fits_swap(hierarchy, h1, other), Some(false));
}

#[test]
fn sums_that_fit(rt: HostRuntime) {
    let mut hierarchy = example(&rt);
    assert_what_fits(&rt, &hierarchy);
    assert_what_changes(&rt, &mut hierarchy);
    assert_what_can_be_exchanged(&rt, &mut hierarchy);
    drop(hierarchy);
}

#[test]
fn weights_as_far_as_they_fit(rt: HostRuntime) {
    let mut hierarchy = example(&rt);
    assert_grows_as_far_as_it_fits(&rt, &mut hierarchy);
    drop(hierarchy);
}

fn assert_gives_memory_back(rt: &impl Abort, hierarchy: &mut Hierarchy<Global>) {
    hierarchy.shrink();
    assert_holds_all(rt, hierarchy);
    assert_eq!(rt; hierarchy.id_of("osd.3"), Some(device_item(rt, 3)));
    assert_sums(rt, hierarchy, 4, 3, 163840);
}

#[test]
fn memory_to_spare(rt: HostRuntime) {
    let mut hierarchy = example(&rt);
    assert_gives_memory_back(&rt, &mut hierarchy);
    drop(hierarchy);
}

fn assert_grows_and_back(rt: &impl Abort, hierarchy: &mut Hierarchy<Global>) {
    let h1 = bucket(rt, 2);
    assert_eq!(rt; grow_and_back(hierarchy, h1), Some(4));
    assert_holds_all(rt, hierarchy);
    assert_eq!(rt; grow_buffer(hierarchy, h1), Some(2));
    assert_eq!(rt; grow_buffer(hierarchy, h1), None);
    assert_holds_all(rt, hierarchy);
    assert_sums(rt, hierarchy, 4, 3, 163840);
}

#[test]
fn memory_and_back(rt: HostRuntime) {
    let mut hierarchy = example(&rt);
    assert_grows_and_back(&rt, &mut hierarchy);
    drop(hierarchy);
}

fn assert_detaches_h2(rt: &impl Abort, hierarchy: &mut Hierarchy<Global>) {
    let h2 = hierarchy.detach(bucket_item(rt, 3)).expect(rt, "h2");
    assert_eq!(rt; h2.weight().units(), 32768);
    drop(h2);
    assert_sums(rt, hierarchy, 3, 2, 131072);
    assert!(rt; !has_item(hierarchy, &device_item(rt, 2)));
    assert_eq!(rt; hierarchy.id_of("osd.2"), None);
}

fn assert_puts_a_device_into_h1(rt: &impl Abort, hierarchy: &mut Hierarchy<Global>) {
    let h1 = bucket(rt, 2);
    assert!(rt; make_room(hierarchy, h1));
    assert!(rt; put_device(hierarchy, device(rt, 3), h1, Weight::from_units(131072)));
    assert_eq!(rt; hierarchy.parent(device_item(rt, 3)), Some(h1));
    assert_holds(rt, hierarchy, 2, &[0, 1, 3]);
    assert_weight(rt, hierarchy, 1, 262144);
}

#[test]
fn items_come_and_go(rt: HostRuntime) {
    let mut hierarchy = example(&rt);
    assert_detaches_h2(&rt, &mut hierarchy);
    assert_puts_a_device_into_h1(&rt, &mut hierarchy);
    add_unplaced(&rt, &mut hierarchy, 2, "osd.2");
    assert_sums(&rt, &hierarchy, 4, 2, 262144);
    drop(hierarchy);
}

fn assert_sums_follow(rt: &impl Abort, hierarchy: &mut Hierarchy<Global>) {
    assert!(rt; weigh(hierarchy, device(rt, 2), Weight::from_units(65536)));
    assert_weight(rt, hierarchy, 3, 65536);
    assert_sums(rt, hierarchy, 4, 3, 196608);
    let has_changed = weigh_all(hierarchy, bucket(rt, 1), Weight::from_units(1));
    assert_eq!(rt; has_changed, Some(true));
    assert_weight(rt, hierarchy, 2, 2);
    assert_sums(rt, hierarchy, 4, 3, 3);
}

fn had_no_class(
    hierarchy: &mut Hierarchy<Global>,
    device: DeviceId,
    class: Option<Name<Global>>,
) -> bool {
    hierarchy.recall_invariant();
    if !has_item(hierarchy, &ItemId::Device(device)) {
        drop(class);
        return false;
    }
    let old = hierarchy.set_class(device, class);
    let had_none = old.is_none();
    drop(old);
    had_none
}

fn assert_weight_of_ssd(rt: &impl Abort, hierarchy: &Hierarchy<Global>, id: ItemId, units: u32) {
    assert_eq!(rt;
        hierarchy.class_weight(id, "ssd"),
        Some(Weight::from_units(units))
    );
}

fn gets_ssd(
    rt: &(impl Abort + AllocGlobal),
    hierarchy: &mut Hierarchy<Global>,
    number: u32,
) -> bool {
    let class = Some(name(rt, "ssd"));
    had_no_class(hierarchy, device(rt, number), class)
}

/// osd.0 and osd.2 have the class `ssd`. So the devices of this class weigh 98304 units below the
/// root, and 32768 units below h2, which holds only osd.2.
fn assert_classes(rt: &impl Abort, hierarchy: &Hierarchy<Global>) {
    assert_eq!(rt; hierarchy.class(device_item(rt, 0)), Some("ssd"));
    assert_eq!(rt; hierarchy.class(device_item(rt, 1)), None);
    assert_weight_of_ssd(rt, hierarchy, bucket_item(rt, 1), 98304);
    assert_weight_of_ssd(rt, hierarchy, bucket_item(rt, 3), 32768);
    assert_weight_of_ssd(rt, hierarchy, device_item(rt, 1), 0);
    let hdd = hierarchy.class_weight(bucket_item(rt, 1), "hdd");
    assert_eq!(rt; hdd, Some(Weight::from_units(0)));
    assert_eq!(rt; hierarchy.class_weight(bucket_item(rt, 9), "ssd"), None);
}

fn assert_unclassed(rt: &impl Abort, hierarchy: &mut Hierarchy<Global>) {
    assert!(rt; !had_no_class(hierarchy, device(rt, 0), None));
    assert_eq!(rt; hierarchy.class(device_item(rt, 0)), None);
    assert_weight_of_ssd(rt, hierarchy, bucket_item(rt, 1), 32768);
    assert_sums(rt, hierarchy, 4, 3, 163840);
}

#[test]
fn classes_of_devices(rt: HostRuntime) {
    let mut hierarchy = example(&rt);
    assert!(rt; gets_ssd(&rt, &mut hierarchy, 0));
    assert!(rt; gets_ssd(&rt, &mut hierarchy, 2));
    assert_classes(&rt, &hierarchy);
    assert_unclassed(&rt, &mut hierarchy);
    drop(hierarchy);
}

fn assert_renamed(rt: &(impl Abort + AllocGlobal), hierarchy: &mut Hierarchy<Global>) {
    let h1 = bucket_item(rt, 2);
    assert!(rt; give_name(hierarchy, &h1, name(rt, "h9")));
    assert_eq!(rt; hierarchy.name(h1), Some("h9"));
    assert_eq!(rt; hierarchy.id_of("h9"), Some(h1));
    assert_eq!(rt; hierarchy.id_of("h1"), None);
}

fn assert_exchanged(rt: &impl Abort, hierarchy: &mut Hierarchy<Global>) {
    assert!(rt; exchange(hierarchy, b"h9", b"h2"));
    assert_eq!(rt; hierarchy.id_of("h9"), Some(bucket_item(rt, 3)));
    assert_eq!(rt; hierarchy.parent(device_item(rt, 0)), Some(bucket(rt, 3)));
    assert_holds(rt, hierarchy, 3, &[0, 1]);
    assert_weight(rt, hierarchy, 3, 2);
    assert_sums(rt, hierarchy, 4, 3, 3);
}

#[test]
fn weights_and_names(rt: HostRuntime) {
    let mut hierarchy = example(&rt);
    assert_sums_follow(&rt, &mut hierarchy);
    assert_renamed(&rt, &mut hierarchy);
    assert_exchanged(&rt, &mut hierarchy);
    drop(hierarchy);
}
