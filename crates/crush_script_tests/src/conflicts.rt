//! Tests which changes of operators' scripts are lost in a run. A change is lost if an operator's
//! script makes the change when it runs alone, and the map after the run doesn't have the change.
//! The expected values follow the forms in docs/user/FORMATS.md.

use crate::histories::entries_of;
use crate::maps::{EXAMPLE_MAP, map_of};
use crush_conflicts::{lost_changes, map_alone};
use crush_history::Entry;
use crush_map::Hashing;
use crush_script::read_job;
use std::alloc::Global;
use std::process::Abort;

/// Appends the entries `more` to `entries`. Both are lists of entries of a history.
fn push_entries(rt: &impl Abort, more: Vec<Entry>, entries: &mut Vec<Entry>) {
    for entry in more {
        let Ok(()) = entries.push(entry) else {
            panic!(rt; "no memory")
        };
    }
}

/// Whether `lines` are the printed lines about lost changes after a run of two scripts. The first
/// script runs as a whole, and then the second script. If there aren't exactly two scripts, returns
/// false.
fn are_lost(rt: &(impl Abort + AllocGlobal), scripts: &[u8], lines: &[u8]) -> bool {
    let mut job = Vec::new(rt.alloc());
    job.extend_from_slice(EXAMPLE_MAP).expect(rt, "no memory");
    job.extend_from_slice(scripts).expect(rt, "no memory");
    let job = read_job(rt.alloc(), Hashing::plain(), job.as_slice()).expect(rt, "no job");
    let before = map_of(rt, EXAMPLE_MAP);
    let mut after = map_of(rt, EXAMPLE_MAP);
    let scripts = job.scripts.as_slice();
    if scripts.len() != 2 {
        return false;
    }
    let mut entries = entries_of(rt, &mut after, scripts, 0);
    push_entries(rt, entries_of(rt, &mut after, scripts, 1), &mut entries);
    let told = lost_changes(rt.alloc(), &before, &after, scripts, entries.as_slice());
    let is_told = told.expect(rt, "no memory").as_slice() == lines;
    drop(before);
    drop(after);
    is_told
}

#[test]
fn the_weight_of_one_of_two_operators_is_lost(rt: HostRuntime) {
    assert!(&rt;
        are_lost(
            &rt,
            b"%operator alice\nreweight osd.0 2\n%operator bob\nreweight osd.0 3\n",
            b"osd.0: alice: weight 2.00000; bob: weight 3.00000\n"
        )
    );
}

#[test]
fn the_map_of_an_operator_without_calls_is_the_map_before(rt: HostRuntime) {
    let before = map_of(&rt, EXAMPLE_MAP);
    let alone = map_alone(&before, 0, &[]).expect(&rt, "no memory");
    assert_eq!(&rt; alone.total(), before.total());
    drop(alone);
    drop(before);
}
