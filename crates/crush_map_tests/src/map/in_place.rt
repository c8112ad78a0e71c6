//! Tests batches whose edits add, move, remove and rename items. If an edit of a batch is refused,
//! the items must be in the same order as before the batch, and the map must use the same amount of
//! memory. If no edit is refused, the batch must have the same result as if its edits were applied
//! one by one.

use crate::map::asking::{Asked, Told, answer, edit, edits};
use crate::map::same::has_the_same;
use crate::map::whole::{whole_example_map, whole_example_map_in};
use crush_map::{BatchFault, CrushMap, Dones, Edit, Refusal};
use linked_list_allocator::LocalHeap;
use std::alloc::Global;
use std::process::Abort;

/// Edits that put items into full buckets, into new buckets and among the roots. One edit changes
/// nothing, because its device is already at the location. Some edits move a bucket, move a bucket
/// into which other items have moved before, or move a bucket back.
const EDITS: &[Asked] = &[
    Asked::Move("osd.0", &[("host", "h2")]),
    Asked::Add(
        3,
        21823,
        &[("host", "h3"), ("rack", "r1"), ("root", "default")],
    ),
    Asked::CreateOrMove(1, 5, &[("host", "h3")]),
    Asked::AddBucket("h9", "host"),
    Asked::Move("h9", &[("root", "default")]),
    Asked::Move("h1", &[("rack", "r9")]),
    Asked::Set(2, 7, &[("host", "h1")]),
    Asked::Swap("h1", "h2"),
    Asked::Add(10, 1, &[("host", "hx")]),
    Asked::Add(11, 1, &[("host", "hx")]),
    Asked::Move("r9", &[("root", "default")]),
    Asked::Set(3, 9, &[("host", "h9")]),
    Asked::Reweight("osd.3", 4),
    Asked::SetClass("osd.3", "ssd"),
    Asked::CreateOrMove(3, 0, &[("host", "h9")]),
    Asked::Move("h2", &[("root", "default")]),
    Asked::Remove("osd.0"),
    Asked::Rename("h1", "hq"),
    Asked::Remove("osd.2"),
    Asked::Add(2, 3, &[("host", "h2")]),
    Asked::Rename("h9", "h1"),
    Asked::Remove("osd.3"),
    Asked::Remove("h1"),
];

const REFUSED: Asked = Asked::Move("x", &[("root", "default")]);

fn first_edits(rt: &impl Abort, alloc: Global, count: usize) -> Vec<Edit> {
    let mut made = Vec::new(alloc);
    for asked in EDITS.iter().take(count) {
        made.push(edit(rt, alloc, *asked)).expect(rt, "memory");
    }
    made
}

fn assert_the_example_map(rt: &impl Abort, alloc: Global, map: &CrushMap<&LocalHeap>, count: u32) {
    let whole = whole_example_map(rt, alloc);
    assert!(rt; has_the_same(map, &whole), "behind {count}");
    drop(whole);
}

/// Applies the batch, which must be refused at the edit with the index `place`. Afterwards, the
/// same amount of the heap's memory must be in use as before.
fn assert_refused(
    rt: &impl Abort,
    heap: &LocalHeap,
    map: &mut CrushMap<&LocalHeap>,
    edits: &[Edit],
    place: u32,
) {
    let used = heap.used();
    let refused = Told::Batch(Err(BatchFault::Refused(place, Refusal::NoSuchItem)));
    assert_eq!(rt; answer(rt, map, edits), refused, "behind {place}");
    assert_eq!(rt; heap.used(), used, "behind {place}");
}

fn refuse_behind(rt: &impl Abort, alloc: Global, count: u32) {
    let heap = LocalHeap::new(alloc, 65536).expect(rt, "a heap");
    let mut map = whole_example_map_in(rt, alloc, &heap).expect(rt, "a map");
    let mut edits = first_edits(rt, alloc, count as usize);
    edits.push(edit(rt, alloc, REFUSED)).expect(rt, "memory");
    assert_refused(rt, &heap, &mut map, edits.as_slice(), count);
    drop(edits);
    assert_the_example_map(rt, alloc, &map, count);
    drop(map);
}

#[test]
fn a_refused_batch_is_taken_back(rt: HostRuntime) {
    for count in 1..EDITS.len() as u32 + 1 {
        refuse_behind(&rt, rt.alloc(), count);
    }
}

fn made_one_by_one(rt: &impl Abort, alloc: Global) -> CrushMap<Global> {
    let mut map = whole_example_map(rt, alloc);
    for asked in EDITS {
        let edit = edit(rt, alloc, *asked);
        let told = map.apply(&edit);
        assert!(rt; told.is_ok(), "{told:?}");
        drop(edit);
    }
    map
}

const ALL: Told = Told::Batch(Ok(Dones {
    edits: 23,
    changed: 22,
    made: 5,
}));

#[test]
fn a_batch_does_what_its_edits_do(rt: HostRuntime) {
    let mut map = whole_example_map(&rt, rt.alloc());
    let edits = edits(&rt, rt.alloc(), EDITS);
    let told = answer(&rt, &mut map, edits.as_slice());
    drop(edits);
    assert_eq!(rt; told, ALL);
    let other = made_one_by_one(&rt, rt.alloc());
    assert!(rt; has_the_same(&map, &other));
    drop(map);
    drop(other);
}
