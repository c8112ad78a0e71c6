//! Tests edits and batches for which memory runs out, at each point at which they need more memory.
//! If memory runs out, the map must be unchanged. When there is enough memory again, the same call
//! must have its usual result. A call that is refused must also leave the map unchanged.

use crate::map::asking::{Asked, CHANGED, Fact, Told, answer, are_true_of, edit, edits};
use crate::map::same::has_the_same;
use crate::map::whole::{whole_example_map, whole_example_map_in};
use crush_map::{BatchFault, CrushMap, Done, Dones, Edit, EditFault, Refusal};
use linked_list_allocator::LocalHeap;
use std::alloc::Global;
use std::process::Abort;

const HEAP: usize = 65536;

/// Returns the size of the largest free piece of the heap, in steps of 64 bytes.
fn largest_piece(heap: &LocalHeap) -> usize {
    for step in 0..1024 {
        let size = HEAP - 64 * step;
        let piece: Result<Vec<u8, &LocalHeap>, _> = Vec::with_capacity(heap, size);
        if piece.is_ok() {
            return size;
        }
    }
    0
}

fn ballast<'h>(rt: &impl Abort, heap: &'h LocalHeap, size: usize) -> Vec<u8, &'h LocalHeap> {
    Vec::with_capacity(heap, size).expect(rt, "a piece")
}

/// A call, its result, and facts about the map after the call. The call is one edit, or a batch of
/// several edits.
struct Call {
    asked: &'static [Asked],
    told: Told,
    then: &'static [Fact],
    /// Memory must run out in at least this many heaps, before a heap has enough memory.
    least: usize,
}

/// Applies the edits while the largest free piece of the heap has `spare` bytes. For this, the
/// function first allocates the second-largest free piece, which was freed when the map was
/// finished. Then it allocates all but `spare` bytes of the largest piece.
fn answer_with(
    rt: &impl Abort,
    heap: &LocalHeap,
    spare: usize,
    map: &mut CrushMap<&LocalHeap>,
    edits: &[Edit],
) -> Told {
    let size = largest_piece(heap);
    let largest = ballast(rt, heap, size);
    let given_back = ballast(rt, heap, largest_piece(heap));
    drop(largest);
    let rest = ballast(rt, heap, size.saturating_sub(spare));
    let told = answer(rt, map, edits);
    drop(given_back);
    drop(rest);
    told
}

fn is_out_of_memory(told: Told) -> bool {
    match told {
        Told::One(answer) => answer == Err(EditFault::OutOfMemory),
        Told::Batch(answer) => answer == Err(BatchFault::OutOfMemory),
    }
}

fn is_err(told: Told) -> bool {
    match told {
        Told::One(answer) => answer.is_err(),
        Told::Batch(answer) => answer.is_err(),
    }
}

fn is_made(rt: &impl Abort, map: &CrushMap<&LocalHeap>, place: usize, call: &Call, told: Told) {
    assert_eq!(rt; told, call.told, "call {place}");
    are_true_of(rt, map, place, call.then);
}

fn is_the_example_map(rt: &impl Abort, alloc: Global, map: &CrushMap<&LocalHeap>) {
    let whole = whole_example_map(rt, alloc);
    let same = has_the_same(map, &whole);
    drop(whole);
    assert!(rt; same);
}

#[derive(Clone, Copy)]
struct Asking<'a> {
    place: usize,
    call: &'a Call,
    edits: &'a [Edit],
}

fn lacked(
    rt: &impl Abort,
    alloc: Global,
    map: &mut CrushMap<&LocalHeap>,
    asking: &Asking<'_>,
    told: Told,
) -> bool {
    let lacks = is_out_of_memory(told);
    let mut made = told;
    if lacks {
        is_the_example_map(rt, alloc, map);
        made = answer(rt, map, asking.edits);
    }
    is_made(rt, map, asking.place, asking.call, made);
    if is_err(made) {
        is_the_example_map(rt, alloc, map);
    }
    lacks
}

fn lacks_with(rt: &impl Abort, alloc: Global, spare: usize, asking: &Asking<'_>) -> bool {
    let heap = LocalHeap::new(alloc, HEAP).expect(rt, "a heap");
    let mut map = whole_example_map_in(rt, alloc, &heap).expect(rt, "a map");
    let told = answer_with(rt, &heap, spare, &mut map, asking.edits);
    let lacks = lacked(rt, alloc, &mut map, asking, told);
    drop(map);
    lacks
}

/// Makes the call in one heap after another, until a heap has enough memory. In each heap, the call
/// may use 64 more bytes than in the previous heap.
fn lacks_often(rt: &impl Abort, alloc: Global, asking: &Asking<'_>) {
    let place = asking.place;
    for times in 0..256 {
        if !lacks_with(rt, alloc, 64 * times, asking) {
            assert!(rt; times >= asking.call.least, "call {place}");
            return;
        }
    }
    panic!(rt; "no heap has enough memory")
}

fn lack_at_each_growth(rt: &impl Abort, alloc: Global, calls: &[Call]) {
    for (place, call) in calls.iter().enumerate() {
        let edits = edits(rt, alloc, call.asked);
        let asking = Asking {
            place,
            call,
            edits: edits.as_slice(),
        };
        lacks_often(rt, alloc, &asking);
        drop(edits);
    }
}

const ADDED: Told = Told::One(Ok(Done {
    changed: true,
    made: 1,
}));

/// The first call adds a device in new buckets. The second call moves a device, and the third call
/// sets the weight of a device that stays in its bucket. The fourth call moves a host to a new
/// bucket.
const PUTS: &[Call] = &[
    Call {
        asked: &[Asked::Add(
            3,
            21823,
            &[("host", "h3"), ("rack", "r1"), ("root", "default")],
        )],
        told: Told::One(Ok(Done {
            changed: true,
            made: 2,
        })),
        then: &[
            Fact::Holds("h3", &["osd.3"], 21823),
            Fact::Holds("r1", &["h3"], 21823),
            Fact::Holds("default", &["h1", "h2", "r1"], 185663),
            Fact::HasId("h3", -4),
            Fact::HasId("r1", -5),
        ],
        least: 2,
    },
    Call {
        asked: &[Asked::CreateOrMove(0, 327680, &[("host", "h2")])],
        told: CHANGED,
        then: &[
            Fact::Holds("h1", &["osd.1"], 65536),
            Fact::Holds("h2", &["osd.2", "osd.0"], 98304),
            Fact::Holds("default", &["h1", "h2"], 163840),
        ],
        least: 1,
    },
    Call {
        asked: &[Asked::Set(1, 196608, &[("host", "h1")])],
        told: CHANGED,
        then: &[Fact::Holds("h1", &["osd.0", "osd.1"], 262144)],
        least: 0,
    },
    Call {
        asked: &[Asked::Move("h2", &[("rack", "r1"), ("root", "default")])],
        told: ADDED,
        then: &[
            Fact::Holds("r1", &["h2"], 32768),
            Fact::HasId("r1", -4),
            Fact::Holds("default", &["h1", "r1"], 163840),
        ],
        least: 1,
    },
];

#[test]
fn memory_lacks_for_what_is_put(rt: HostRuntime) {
    lack_at_each_growth(&rt, rt.alloc(), PUTS);
}

/// Other edits. Those that exchange buckets, set weights or remove an item need no memory.
const OTHERS: &[Call] = &[
    Call {
        asked: &[Asked::Swap("h1", "h2")],
        told: CHANGED,
        then: &[
            Fact::Holds("h2", &["osd.2"], 32768),
            Fact::Holds("h1", &["osd.0", "osd.1"], 131072),
            Fact::Holds("default", &["h2", "h1"], 163840),
            Fact::HasId("h2", -2),
            Fact::HasId("h1", -3),
        ],
        least: 0,
    },
    Call {
        asked: &[Asked::Reweight("osd.2", 65536)],
        told: CHANGED,
        then: &[
            Fact::Holds("h2", &["osd.2"], 65536),
            Fact::Holds("default", &["h1", "h2"], 196608),
            Fact::Total(196608),
        ],
        least: 0,
    },
    Call {
        asked: &[Asked::ReweightSubtree("h1", 16384)],
        told: CHANGED,
        then: &[
            Fact::Holds("h1", &["osd.0", "osd.1"], 32768),
            Fact::Holds("default", &["h1", "h2"], 65536),
        ],
        least: 0,
    },
    Call {
        asked: &[Asked::Remove("osd.0")],
        told: CHANGED,
        then: &[
            Fact::Holds("h1", &["osd.1"], 65536),
            Fact::Holds("default", &["h1", "h2"], 98304),
            Fact::IsAbsent("osd.0"),
        ],
        least: 0,
    },
    Call {
        asked: &[Asked::AddBucket("h9", "host")],
        told: ADDED,
        then: &[
            Fact::Holds("h9", &[], 0),
            Fact::HasId("h9", -4),
            Fact::IsRoot("h9"),
        ],
        least: 1,
    },
    Call {
        asked: &[Asked::Rename("h1", "hq")],
        told: CHANGED,
        then: &[
            Fact::Holds("hq", &["osd.0", "osd.1"], 131072),
            Fact::Holds("default", &["hq", "h2"], 163840),
        ],
        least: 0,
    },
    Call {
        asked: &[Asked::SetClass("osd.0", "ssd")],
        told: CHANGED,
        then: &[
            Fact::HasClass("osd.0", "ssd"),
            Fact::Holds("h1", &["osd.0", "osd.1"], 131072),
        ],
        least: 0,
    },
];

#[test]
fn memory_lacks_for_other_edits(rt: HostRuntime) {
    lack_at_each_growth(&rt, rt.alloc(), OTHERS);
}

/// Six batches. The first succeeds. The second is refused at its third edit. The third succeeds,
/// and its first and last edits need memory. The fourth succeeds, and puts items into full and new
/// buckets. The fifth is refused after it has set weights below a bucket. The sixth is refused
/// after it has removed items and a bucket has taken the name of another bucket.
const BATCHES: &[Call] = &[
    Call {
        asked: &[
            Asked::AddBucket("h9", "host"),
            Asked::Move("h9", &[("root", "default")]),
        ],
        told: Told::Batch(Ok(Dones {
            edits: 2,
            changed: 2,
            made: 1,
        })),
        then: &[
            Fact::Holds("default", &["h1", "h2", "h9"], 163840),
            Fact::Holds("h9", &[], 0),
            Fact::HasId("h9", -4),
        ],
        least: 2,
    },
    Call {
        asked: &[
            Asked::Add(3, 65536, &[("host", "h2")]),
            Asked::Rename("h1", "hq"),
            Asked::Remove("h2"),
        ],
        told: Told::Batch(Err(BatchFault::Refused(2, Refusal::NotEmpty))),
        then: &[
            Fact::Holds("h1", &["osd.0", "osd.1"], 131072),
            Fact::Holds("h2", &["osd.2"], 32768),
            Fact::Holds("default", &["h1", "h2"], 163840),
            Fact::IsAbsent("osd.3"),
            Fact::IsAbsent("hq"),
        ],
        least: 2,
    },
    Call {
        asked: &[
            Asked::SetClass("osd.0", "a-class-of-more-than-thirty-bytes"),
            Asked::Reweight("osd.0", 1),
            Asked::AddBucket("h9", "host"),
        ],
        told: Told::Batch(Ok(Dones {
            edits: 3,
            changed: 3,
            made: 1,
        })),
        then: &[
            Fact::HasClass("osd.0", "a-class-of-more-than-thirty-bytes"),
            Fact::Weighs("osd.0", 1),
            Fact::HasId("h9", -4),
        ],
        least: 3,
    },
    Call {
        asked: &[
            Asked::CreateOrMove(0, 327680, &[("host", "h2")]),
            Asked::Add(
                3,
                21823,
                &[("host", "h3"), ("rack", "r1"), ("root", "default")],
            ),
            Asked::Move("h2", &[("rack", "r1")]),
        ],
        told: Told::Batch(Ok(Dones {
            edits: 3,
            changed: 3,
            made: 2,
        })),
        then: &[
            Fact::Holds("h1", &["osd.1"], 65536),
            Fact::Holds("h2", &["osd.2", "osd.0"], 98304),
            Fact::Holds("r1", &["h3", "h2"], 120127),
            Fact::Holds("default", &["h1", "r1"], 185663),
            Fact::HasId("h3", -4),
        ],
        least: 4,
    },
    Call {
        asked: &[
            Asked::ReweightSubtree("default", 16384),
            Asked::Reweight("osd.1", 1),
            Asked::ReweightSubtree("default", 32768),
            Asked::Remove("h2"),
        ],
        told: Told::Batch(Err(BatchFault::Refused(3, Refusal::NotEmpty))),
        then: &[
            Fact::Holds("h1", &["osd.0", "osd.1"], 131072),
            Fact::Holds("h2", &["osd.2"], 32768),
            Fact::Holds("default", &["h1", "h2"], 163840),
            Fact::Weighs("osd.0", 65536),
            Fact::Weighs("osd.1", 65536),
            Fact::Weighs("osd.2", 32768),
            Fact::Total(163840),
        ],
        least: 2,
    },
    Call {
        asked: &[
            Asked::Remove("osd.2"),
            Asked::Remove("h2"),
            Asked::Rename("h1", "h2"),
            Asked::Remove("h2"),
        ],
        told: Told::Batch(Err(BatchFault::Refused(3, Refusal::NotEmpty))),
        then: &[
            Fact::Holds("h1", &["osd.0", "osd.1"], 131072),
            Fact::Holds("h2", &["osd.2"], 32768),
            Fact::Holds("default", &["h1", "h2"], 163840),
            Fact::HasId("h2", -3),
        ],
        least: 2,
    },
];

#[test]
fn memory_lacks_for_batches(rt: HostRuntime) {
    lack_at_each_growth(&rt, rt.alloc(), BATCHES);
}

fn new_weights(rt: &impl Abort, alloc: Global, count: u32) -> Vec<Edit> {
    let mut made = Vec::new(alloc);
    for number in 0..count {
        let edit = edit(rt, alloc, Asked::Reweight("osd.0", number));
        made.push(edit).expect(rt, "memory");
    }
    made
}

const WEIGHTS: &[Call] = &[
    Call {
        asked: &[],
        told: Told::Batch(Ok(Dones {
            edits: 64,
            changed: 64,
            made: 0,
        })),
        then: &[
            Fact::Weighs("osd.0", 63),
            Fact::Holds("default", &["h1", "h2"], 98367),
        ],
        least: 1,
    },
    Call {
        asked: &[Asked::Remove("h2")],
        told: Told::Batch(Err(BatchFault::Refused(64, Refusal::NotEmpty))),
        then: &[
            Fact::Weighs("osd.0", 65536),
            Fact::Holds("default", &["h1", "h2"], 163840),
        ],
        least: 1,
    },
];

fn lack_behind_weights(rt: &impl Abort, alloc: Global, calls: &[Call]) {
    for (place, call) in calls.iter().enumerate() {
        let mut edits = new_weights(rt, alloc, 64);
        for asked in call.asked {
            edits.push(edit(rt, alloc, *asked)).expect(rt, "memory");
        }
        let asking = Asking {
            place,
            call,
            edits: edits.as_slice(),
        };
        lacks_often(rt, alloc, &asking);
        drop(edits);
    }
}

#[test]
fn memory_lacks_for_batches_of_weights(rt: HostRuntime) {
    lack_behind_weights(&rt, rt.alloc(), WEIGHTS);
}
