//! Builds the example map statement by statement, and tests what the builder says about the map so
//! far.

use crate::map::asking::{Fact, are_true_of};
use crate::map::same::has_the_same;
use crate::map::statements::{Statement, finish, takes_all};
use crate::map::whole::{BEFORE_RULE, assert_the_setting, map_in_the_making, whole_example_map};
use crush_builder::{BuildFault, MapBuilder};
use crush_map::Hashing;
use crush_units::{BucketId, DeviceId, ItemId, TypeId, is_name};
use std::alloc::Global;
use std::hash::RandomState;
use std::process::Abort;

const MADE: &[Fact] = &[
    Fact::HasId("osd.0", 0),
    Fact::Weighs("osd.0", 65536),
    Fact::HasId("osd.1", 1),
    Fact::Weighs("osd.1", 65536),
    Fact::HasId("osd.2", 2),
    Fact::Weighs("osd.2", 32768),
    Fact::HasId("h1", -2),
    Fact::Weighs("h1", 131072),
    Fact::HasId("h2", -3),
    Fact::Weighs("h2", 32768),
    Fact::HasId("default", -1),
    Fact::Weighs("default", 163840),
    Fact::IsAbsent("h3"),
    Fact::Counts(3, 3),
    Fact::Total(163840),
];

#[test]
fn the_example_map_is_made_and_copied(rt: HostRuntime) {
    let map = whole_example_map(&rt, rt.alloc());
    are_true_of(&rt, &map, 0, MADE);
    let copy = map.try_copy().expect(&rt, "memory");
    assert!(rt; has_the_same(&copy, &map));
    assert_the_setting(&rt, map.setting());
    assert_the_setting(&rt, copy.setting());
    drop(copy);
    drop(map);
}

/// A map that hashes names with random keys has the same items as one that hashes without keys.
#[test]
fn a_map_with_random_keys_is_made(rt: HostRuntime) {
    let keys = RandomState::new(&rt).expect(&rt, "the machine has random bytes");
    let made = MapBuilder::with_hashing(rt.alloc(), Hashing::keyed(keys), rt.alloc());
    let mut builder = made.expect(&rt, "memory");
    takes_all(&rt, &mut builder, BEFORE_RULE);
    let map = finish(&rt, builder);
    are_true_of(&rt, &map, 0, MADE);
    drop(map);
}

fn device(rt: &impl Abort, number: i32) -> DeviceId {
    DeviceId::new(number).expect(rt, "a device")
}

pub(super) fn bucket(rt: &impl Abort, number: i32) -> BucketId {
    BucketId::new(number).expect(rt, "a bucket")
}

fn assert_knows_the_setting(rt: &impl Abort, builder: &MapBuilder<Global>) {
    let (osd, host) = (TypeId::new(0), TypeId::new(1));
    assert!(rt; builder.has_kind_number(host));
    assert!(rt; builder.has_kind_name(b"rack"));
    assert!(rt; builder.is_bucket_kind(host));
    assert!(rt; !builder.is_bucket_kind(osd));
    assert_eq!(rt; builder.kind_number(b"host"), Some(host));
    assert!(rt; builder.has_tunable(b"choose_total_tries"));
    assert!(rt; builder.has_rule_name(b"replicated_rule"));
    assert!(rt; builder.has_rule_id(0));
    assert!(rt; !builder.is_full_of_kinds());
    assert!(rt; !builder.is_full_of_tunables());
    assert!(rt; !builder.is_full_of_rules());
}

fn h2(rt: &impl Abort) -> ItemId {
    ItemId::Bucket(bucket(rt, -3))
}

fn assert_knows_the_items(rt: &impl Abort, builder: &MapBuilder<Global>) {
    assert!(rt; builder.has_device(device(rt, 2)));
    assert!(rt; builder.has_name(b"osd.2"));
    assert!(rt; builder.has_bucket_id(bucket(rt, -2)));
    assert_eq!(rt; builder.bucket_named(b"h1"), Some(bucket(rt, -2)));
    assert_eq!(rt; builder.item_named(b"h2"), Ok(h2(rt)));
    assert!(rt; builder.is_placed(h2(rt)));
    assert!(rt; !builder.is_full_of_devices());
    assert!(rt; !builder.is_full_of_buckets());
}

const OPENED: &[Statement] = &[
    Statement::DeviceOfClass(9, "osd.9", "ssd"),
    Statement::Begin("host", "h9"),
    Statement::Id(-4),
    Statement::ClassId(-5, "ssd"),
];

/// The host h9 isn't an item of the map before its closing brace, but its name, its id and its
/// class id are already used.
fn assert_knows_the_open_host(rt: &impl Abort, builder: &MapBuilder<Global>) {
    assert!(rt; !builder.is_idle());
    assert!(rt; builder.is_numbered());
    assert!(rt; builder.has_name(b"h9"));
    assert!(rt; builder.has_bucket_id(bucket(rt, -5)));
    assert!(rt; builder.has_class(b"ssd"));
    assert!(rt; !builder.is_full_of_class_ids());
    assert_eq!(rt; builder.item_named(b"h9"), Err(BuildFault::UnknownItem));
}

/// The root's statement lists the host with a weight that is one unit more than the host weighs.
const FILLED: &[Statement] = &[
    Statement::Alg,
    Statement::ItemAsItIs("osd.9"),
    Statement::End,
    Statement::Begin("root", "r9"),
    Statement::Id(-6),
    Statement::Alg,
    Statement::Item("h9", 65537),
    Statement::End,
];

#[test]
fn what_a_builder_is_asked(rt: HostRuntime) {
    let mut builder = map_in_the_making(&rt, rt.alloc());
    assert_knows_the_setting(&rt, &builder);
    assert_knows_the_items(&rt, &builder);
    takes_all(&rt, &mut builder, OPENED);
    assert_knows_the_open_host(&rt, &builder);
    takes_all(&rt, &mut builder, FILLED);
    assert_eq!(rt; builder.adjusted(), 1);
    drop(builder);
}

/// Tests everything that `device_unchecked` requires. If all of this is true, adds a device with
/// this method. Returns whether the device was added.
fn adds_unchecked(builder: &mut MapBuilder<Global>, id: DeviceId, name: &[u8]) -> bool {
    if !builder.is_idle() {
        return false;
    }
    if !is_name(name) {
        return false;
    }
    if builder.has_device(id) {
        return false;
    }
    if builder.has_name(name) {
        return false;
    }
    if builder.is_full_of_devices() {
        return false;
    }
    builder.device_unchecked(id, name, None).is_ok()
}

#[test]
fn a_device_is_added_unchecked(rt: HostRuntime) {
    let mut builder = map_in_the_making(&rt, rt.alloc());
    let added = adds_unchecked(&mut builder, device(&rt, 9), b"osd.9");
    assert!(rt; added);
    assert_eq!(rt;
        builder.item_named(b"osd.9"),
        Ok(ItemId::Device(device(&rt, 9)))
    );
    drop(builder);
}
