//! Tests that a gate is called before and after each call if the operators work one after the
//! other. Also tests that a gate can decide which of two guarded batches is applied first. A
//! guarded batch names a number of changes, and is applied only if exactly this many calls have
//! changed the map.

use super::at_once::reaches;
use super::{AT_ONCE, MODE, joined, run_map, summary};
use crate::maps::PLAIN;
use crate::texts::assert_ends;
use crush_run::Gate;
use std::sync::Wait;
use std::sync::atomic::{AtomicU64, Ordering};
use std::time::Clock;

#[derive(Drop)]
struct Watch {
    seen: AtomicU64,
}

impl Watch {
    fn note(&self, digit: usize) {
        let seen = self.seen.load(Ordering::SeqCst);
        self.seen.store(
            seen.wrapping_mul(16).wrapping_add(digit as u64),
            Ordering::SeqCst,
        );
    }
}

/// Returns the digit that the gate notes before this call. After the call, the gate notes the next
/// digit. In the test, `operator` and `number` are 0 or 1, so the digits are from 1 to 8.
fn digit(operator: usize, number: usize) -> usize {
    (operator % 2) * 4 + (number % 2) * 2 + 1
}

impl Gate for Watch {
    fn before<R: Wait>(&self, _rt: &R, operator: usize, number: usize) {
        self.note(digit(operator, number));
    }

    fn after<R: Wait>(&self, _rt: &R, operator: usize, number: usize) {
        self.note(digit(operator, number).wrapping_add(1));
    }
}

const FOUR_CALLS: &[u8] =
    b"%operator a\nreweight osd.0 2\nrm x\n%operator b\nrm x\nreweight osd.0 1\n";

#[test]
fn a_gate_stands_round_each_call_in_turn(rt: HostRuntime) {
    let gate = Watch {
        seen: AtomicU64::new(0),
    };
    let job = joined(&rt, PLAIN, FOUR_CALLS);
    let mut out = Vec::new(rt.alloc());
    let outcome = run_map(&rt, &gate, MODE, &mut job.as_slice(), &mut out);
    let seen = gate.seen.load(Ordering::SeqCst);
    assert_eq!(&rt; outcome, Ok(summary(0, 4, 2)));
    assert_eq!(&rt; seen, 0x1234_5678);
}

#[derive(Drop)]
struct First<'a, C> {
    clock: &'a C,
    operator: usize,
    made: AtomicU64,
    missed: AtomicU64,
}

impl<C: Clock> Gate for First<'_, C> {
    fn before<R: Wait>(&self, _rt: &R, operator: usize, _number: usize) {
        if operator != self.operator && !reaches(self.clock, &self.made, 1) {
            self.missed.store(1, Ordering::SeqCst);
        }
    }

    fn after<R: Wait>(&self, _rt: &R, _operator: usize, _number: usize) {
        self.made.fetch_add(1, Ordering::SeqCst);
    }
}

/// The scripts of two operators. Each script has one guarded batch, which inserts the device
/// `osd.7` if no call has changed the map yet. The two batches name different hosts.
const TWO_GUARDS: &[u8] =
    b"%operator a\nbegin at 0\nadd osd.7 1 host=h1\ncommit\n%operator b\nbegin at 0\nadd osd.7 1 host=h2\ncommit\n";

const GUARDED: [&[u8]; 2] = [
    b"# end crush map\n# 1 a begin at 0 ; add osd.7 1.00000 host=h1 ; commit = dones 1 changed 1 made 0\n# 2 b begin at 0 ; add osd.7 1.00000 host=h2 ; commit = refused Stale 11 changes 1\n",
    b"# end crush map\n# 1 b begin at 0 ; add osd.7 1.00000 host=h2 ; commit = dones 1 changed 1 made 0\n# 2 a begin at 0 ; add osd.7 1.00000 host=h1 ; commit = refused Stale 11 changes 1\n",
];

#[test]
fn of_two_guarded_batches_the_later_is_stale(rt: HostRuntime) {
    let job = joined(&rt, PLAIN, TWO_GUARDS);
    for (operator, lines) in GUARDED.iter().enumerate() {
        let gate = First {
            clock: &rt,
            operator,
            made: AtomicU64::new(0),
            missed: AtomicU64::new(0),
        };
        let mut out = Vec::new(rt.alloc());
        let outcome = run_map(&rt, &gate, AT_ONCE, &mut job.as_slice(), &mut out);
        let missed = gate.missed.load(Ordering::SeqCst);
        assert_eq!(&rt; missed, 0);
        assert_eq!(&rt; outcome, Ok(summary(0, 2, 1)));
        assert_ends(&rt, out.as_slice(), *lines);
    }
}
