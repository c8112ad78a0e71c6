//! Tests that an index finds the id of a name, both if it hashes names with random keys and if it
//! hashes them without keys.

use super::index::exchange_hosts;
use crush_index::{Hashing, Index};
use crush_units::{BucketId, DeviceId, ItemId, Name};
use std::alloc::{AllocGlobal, Global};
use std::hash::RandomState;
use std::process::Abort;

fn bucket(distance: u32) -> Option<ItemId> {
    let id = BucketId::below_zero(distance)?;
    Some(ItemId::Bucket(id))
}

pub(super) fn device(number: u32) -> Option<ItemId> {
    let id = DeviceId::from_number(number)?;
    Some(ItemId::Device(id))
}

pub(super) fn add(index: &mut Index, alloc: Global, text: &[u8], id: Option<ItemId>) -> bool {
    let Some(id) = id else {
        return false;
    };
    match Name::read(alloc, text) {
        Ok(name) => index.add_name(name, id).is_ok(),
        Err(_) => false,
    }
}

fn add_three(index: &mut Index, alloc: Global) -> bool {
    add(index, alloc, b"h1", bucket(2))
        && add(index, alloc, b"h2", bucket(3))
        && add(index, alloc, b"osd.0", device(0))
}

fn assert_finds_names(
    rt: &impl Abort,
    index: &Index,
    h1: Option<ItemId>,
    h2: Option<ItemId>,
    osd: Option<ItemId>,
) {
    assert_eq!(rt; index.id_of(b"h1"), h1);
    assert_eq!(rt; index.id_of(b"h2"), h2);
    assert_eq!(rt; index.id_of(b"osd.0"), osd);
    assert_eq!(rt; index.id_of(b"x"), None);
}

#[test]
fn names_come_and_go(rt: HostRuntime) {
    let mut index = Index::new(rt.alloc(), Hashing::plain());
    assert_finds_names(&rt, &index, None, None, None);
    assert!(rt; add_three(&mut index, rt.alloc()));
    assert_finds_names(&rt, &index, bucket(2), bucket(3), device(0));
    index.forget_name(b"h2");
    index.forget_name(b"x");
    assert_finds_names(&rt, &index, bucket(2), None, device(0));
    drop(index);
}

#[test]
fn names_hash_with_keys_as_without(rt: HostRuntime) {
    let keys = RandomState::new(&rt).expect(&rt, "the machine has random bytes");
    let mut index = Index::new(rt.alloc(), Hashing::keyed(keys));
    assert!(rt; add_three(&mut index, rt.alloc()));
    assert_finds_names(&rt, &index, bucket(2), bucket(3), device(0));
    drop(index);
}

#[test]
fn two_names_are_exchanged(rt: HostRuntime) {
    let mut index = Index::new(rt.alloc(), Hashing::plain());
    assert!(rt; add_three(&mut index, rt.alloc()));
    exchange_hosts(&mut index);
    assert_finds_names(&rt, &index, bucket(3), bucket(2), device(0));
    drop(index);
}
