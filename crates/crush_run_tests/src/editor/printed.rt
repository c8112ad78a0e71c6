//! Tests what `{}` and `{:?}` print of an editor's faults and values, and what is printed of the
//! error into which `?` converts a fault.

use super::{read_map, started, weight_two};
use crate::maps::PLAIN;
use crush_editor::{OpenFault, SubmitFault, Unsubmitted};
use crush_history::{Call, Edits};
use std::alloc::Global;
use std::error::Error;
use std::process::Abort;

fn passed_on<E: Error>(fault: E) -> anyhow::Result<()> {
    Err(fault)?
}

fn assert_passed_on<E: Error>(rt: &(impl Abort + AllocGlobal), fault: E, text: &str) {
    let Err(error) = passed_on(fault) else {
        panic!(rt; "no error");
    };
    let told = format!(in rt.alloc(); "{error}").expect(rt, "no memory");
    assert_eq!(rt; told.as_str(), text);
}

fn no_room(rt: &(impl Abort + AllocGlobal)) -> OpenFault<Global> {
    let (map, _) = read_map(rt.alloc(), PLAIN).expect(rt, "no map");
    OpenFault { map }
}

#[test]
fn the_fault_of_an_opening_is_printed(rt: HostRuntime) {
    let fault = no_room(&rt);
    let text = format!(in rt.alloc(); "{fault}, {fault:?}").expect(&rt, "no memory");
    drop(fault);
    assert_eq!(rt; text.as_str(), "out of memory, OpenFault");
    assert_passed_on(&rt, no_room(&rt), "out of memory");
}

fn unsubmitted(alloc: Global) -> Unsubmitted {
    Unsubmitted {
        fault: SubmitFault::Full,
        call: Call::Batch(Edits::new(Vec::new(alloc))),
    }
}

#[test]
fn the_fault_of_a_call_is_printed(rt: HostRuntime) {
    let fault = unsubmitted(rt.alloc());
    let text = format!(in rt.alloc(); "{fault}, {fault:?}").expect(&rt, "no memory");
    drop(fault);
    assert_eq!(rt;
        text.as_str(),
        "the history is full, Unsubmitted { fault: Full, call: Batch(Edits { edits: [] }) }"
    );
    assert_passed_on(&rt, unsubmitted(rt.alloc()), "the history is full");
}

#[test]
fn the_debug_text_of_a_started_editor_has_its_operators(rt: HostRuntime) {
    let started = started(&rt, 2);
    let text = format!(in rt.alloc(); "{started:?}").expect(&rt, "no memory");
    drop(started);
    assert_eq!(rt; text.as_str(), "Started { operators: 2 }");
}

#[test]
fn the_debug_text_of_a_book_has_its_counts(rt: HostRuntime) {
    let (gauge, mut book) = started(&rt, 1).into_book();
    let call = Call::One(weight_two(&rt, b"osd.0"));
    let made = book.commit_copied(&gauge, 0, call).is_ok();
    let text = format!(in rt.alloc(); "{book:?}").expect(&rt, "no memory");
    drop(book);
    assert!(rt; made);
    assert_eq!(rt;
        text.as_str(),
        "Book { entries: 1, map: CrushMap { devices: 3, buckets: 3 } }"
    );
}
