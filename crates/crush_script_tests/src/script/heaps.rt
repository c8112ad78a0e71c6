//! Tests maps that are read into a heap of limited size.

use crate::script::{PLAIN_EXAMPLE_MAP, text_of};
use crate::texts::assert_text;
use crush_map::{CrushMap, Hashing};
use crush_text::{TextFault, read_map_in};
use linked_list_allocator::LocalHeap;
use std::alloc::Allocator;
use std::process::Abort;

fn assert_plain_example_map<A: Allocator>(rt: &(impl Abort + AllocGlobal), map: &CrushMap<A>) {
    let text = text_of(rt, map);
    assert_text(rt, text.as_slice(), PLAIN_EXAMPLE_MAP);
}

/// Reads the plain example map into a heap of `size` bytes. Asserts that the map is printed as the
/// same text, and returns the total weight of the map. If the heap is too small, returns the fault.
fn total_in_heap(rt: &(impl Abort + AllocGlobal), size: usize) -> Result<u64, TextFault> {
    let heap = LocalHeap::new(rt.alloc(), size).expect(rt, "no memory");
    match read_map_in(rt.alloc(), Hashing::plain(), &heap, PLAIN_EXAMPLE_MAP) {
        Ok((map, adjusted)) => {
            assert_eq!(rt; adjusted.count(), 0);
            assert_plain_example_map(rt, &map);
            let total = map.total();
            drop(map);
            Ok(total)
        }
        Err(fault) => Err(fault),
    }
}

#[test]
fn the_plain_example_map_is_read_into_a_heap(rt: HostRuntime) {
    assert_eq!(rt; total_in_heap(&rt, 65536), Ok(163840));
}

/// Asserts that the fault is that memory ran out. In the smallest heap, memory runs out for the
/// first device, whose name begins at byte 38 of the text.
fn assert_lack(rt: &impl Abort, fault: TextFault, is_smallest: bool) {
    assert_eq!(rt; fault.kind.name(), "OutOfMemory");
    assert!(rt; fault.place < PLAIN_EXAMPLE_MAP.len());
    if is_smallest {
        assert_eq!(rt; fault.place, 38);
    }
}

#[test]
fn heaps_that_are_too_small(rt: HostRuntime) {
    for i in 1..1024 {
        match total_in_heap(&rt, 64 * i) {
            Ok(total) => {
                assert!(rt; i > 1);
                assert_eq!(rt; total, 163840);
                return;
            }
            Err(fault) => assert_lack(&rt, fault, i == 1),
        }
    }
    panic!(rt; "no heap holds the map")
}
