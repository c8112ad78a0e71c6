//! Tests the texts of four faults, and the number of one fault.

use crush_builder::BuildFault;
use crush_map::{EditFault, Refusal};
use std::alloc::Global;
use std::fmt::Display;
use std::process::Abort;

fn assert_written<F: Display + Drop>(rt: &impl Abort, alloc: Global, fault: F, text: &str) {
    let told = format!(in alloc; "{fault}").expect(rt, "memory");
    assert_eq!(rt; told.as_str(), text);
    drop(told);
}

#[test]
fn what_is_told_of_a_fault(rt: HostRuntime) {
    let refused = EditFault::from(Refusal::NoSuchItem);
    let heavy = "a bucket or the whole map is too heavy with this item";
    let named = "the edit is refused: the map has no item with this name";
    assert_written(&rt, rt.alloc(), refused, named);
    assert_written(&rt, rt.alloc(), EditFault::OutOfMemory, "out of memory");
    assert_written(&rt, rt.alloc(), BuildFault::SumTooLarge, heavy);
    assert_written(&rt, rt.alloc(), BuildFault::OutOfMemory, "out of memory");
    assert_eq!(rt; BuildFault::SecondParent.number(), 10);
}
