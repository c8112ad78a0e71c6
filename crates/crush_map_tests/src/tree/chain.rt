//! Tests forests that are chains: each bucket is in the bucket before it. The forest on the main
//! thread has as many buckets as a map can have, and the forest on another thread has fewer.

use super::alike::copy_of;
use super::items::{Item, bucket, bucket_item, node, node_with};
use super::puts::put;
use crush_tree::{Forest, Node, Place};
use std::alloc::Global;
use std::process::Abort;
use std::thread;

/// The largest number of buckets that a map can have.
const MOST: u32 = 4096;

/// The number of buckets of the forest on another thread. This number is small, because attaching a
/// node compares the node's buckets with one another. With `MOST` buckets, a test takes 100 seconds
/// if it runs without proofs.
const FEW: u32 = 512;

fn link(rt: &(impl Abort + AllocGlobal), distance: u32, item: Node<Global>) -> Node<Global> {
    let name = format!(in rt.alloc(); "b{}", distance).expect(rt, "memory");
    let bucket = node_with(rt, Item::Host(distance, name.as_str()), item);
    drop(name);
    bucket
}

fn links(rt: &(impl Abort + AllocGlobal), depth: u32) -> Node<Global> {
    let mut item = node(rt, Item::Device(0, "osd.0", 65536));
    for above in 0..depth {
        item = link(rt, depth.saturating_sub(above), item);
    }
    item
}

/// Returns a forest with a chain of buckets. The chain is put together before it is added to the
/// forest.
fn chain(rt: &(impl Abort + AllocGlobal), depth: u32) -> Forest<Global> {
    let mut forest = Forest::new(rt.alloc(), rt.alloc());
    put(&mut forest, Place::Root, links(rt, depth)).expect(rt, "a place");
    forest
}

fn is_searched(rt: &impl Abort, forest: &Forest<Global>, depth: u32) -> bool {
    let osd = forest.id_of("osd.0").expect(rt, "osd.0");
    let above = bucket(rt, depth.saturating_sub(1));
    forest.total() == 65536
        && forest.contains(bucket(rt, 1), osd)
        && forest.parent(bucket_item(rt, depth)) == Some(above)
        && forest.items(bucket(rt, depth)).is_some()
}

fn is_sound(rt: &(impl Abort + AllocGlobal), depth: u32) -> bool {
    let forest = chain(rt, depth);
    let copy = copy_of(rt, &forest);
    let is_sound = is_searched(rt, &forest, depth) && is_searched(rt, &copy, depth);
    drop(copy);
    drop(forest);
    is_sound
}

fn is_weighed(rt: &(impl Abort + AllocGlobal), depth: u32) -> bool {
    let top = links(rt, depth);
    let is_weighed = top.weight().units() == 65536;
    drop(top);
    is_weighed
}

#[test]
fn on_the_main_thread(rt: HostRuntime) {
    assert!(rt; is_sound(&rt, MOST));
}

/// First builds and drops a chain of `MOST` buckets on another thread, without adding the chain to
/// a forest. So the test shows that the stack of this thread is large enough. Then searches a
/// forest that has a chain of `FEW` buckets.
#[test]
fn on_another_thread(rt: HostRuntime) {
    let worker = thread::spawn(&rt, move || is_weighed(&rt, MOST) && is_sound(&rt, FEW)).expect(
        &rt, "a thread",
    );
    assert!(rt; worker.join(&rt));
}
