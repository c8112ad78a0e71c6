//! Tests that a gate's method `after` is called as often as its method `before`, even if calls fail
//! because memory runs out. (A gate is code that runs before and after each call of an operator.)
//! `tests/refused_memory.py` refuses the requests for memory of these tests one by one. Outside of
//! a run, the tests request no memory.

use super::{AT_ONCE, MODE, run_map};
use crush_options::Mode;
use crush_run::Gate;
use std::random::RandomSource;
use std::sync::Wait;
use std::sync::atomic::{AtomicU64, Ordering};
use std::thread::Threads;

#[derive(Drop)]
struct Counts {
    before: AtomicU64,
    after: AtomicU64,
}

impl Counts {
    fn are_even(&self) -> bool {
        self.before.load(Ordering::SeqCst) == self.after.load(Ordering::SeqCst)
    }
}

impl Gate for Counts {
    fn before<R: Wait>(&self, _rt: &R, _operator: usize, _number: usize) {
        self.before.fetch_add(1, Ordering::SeqCst);
    }

    fn after<R: Wait>(&self, _rt: &R, _operator: usize, _number: usize) {
        self.after.fetch_add(1, Ordering::SeqCst);
    }
}

/// A job with two operators. Each operator has a call for which the map allocates memory, and a
/// call that the run refuses.
const JOB: &[u8] =
    b"device 0 osd.0\ntype 0 osd\ntype 1 host\nhost h1 { id -1 alg straw2 item osd.0 }\nhost h2 { id -2 alg straw2 }\n%operator a\nmove osd.0 host=h2\nrm x\n%operator b\nrm x\nadd osd.7 1 host=h1\n";

fn stands_behind_each_call(
    rt: &(impl AllocGlobal + RandomSource + Threads + Wait + Sync),
    mode: Mode,
) -> bool {
    let gate = Counts {
        before: AtomicU64::new(0),
        after: AtomicU64::new(0),
    };
    let mut out = Vec::new(rt.alloc());
    drop(run_map(rt, &gate, mode, &mut &*JOB, &mut out));
    gate.are_even()
}

#[test]
fn a_gate_stands_behind_each_call_in_turn(rt: HostRuntime) {
    assert!(&rt; stands_behind_each_call(&rt, MODE));
}

#[test]
fn a_gate_stands_behind_each_call_at_once(rt: HostRuntime) {
    assert!(&rt; stands_behind_each_call(&rt, AT_ONCE));
}
