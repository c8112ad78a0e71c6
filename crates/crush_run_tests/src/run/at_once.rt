//! Tests runs in which operators work at the same time, each in its own thread. Some of the tests
//! use gates, whose methods are called before and after each call of an operator. With a gate, a
//! test shows that the threads really work at the same time, which no contract promises.

use super::{AT_ONCE, joined, run_map, summary};
use crate::maps::PLAIN;
use crate::texts::assert_ends;
use crush_history::is_change;
use crush_map::Hashing;
use crush_run::{Gate, NoGate, run_at_once};
use crush_script::{Job, read_job};
use std::sync::Wait;
use std::sync::atomic::{AtomicU64, Ordering};
use std::thread;
use std::time::{Clock, Duration};

/// How many times a gate sleeps for a millisecond before it gives up.
const MOST_NAPS: u64 = 10_000;

pub(super) fn reaches(clock: &impl Clock, count: &AtomicU64, goal: u64) -> bool {
    for _ in 0..MOST_NAPS {
        if count.load(Ordering::SeqCst) >= goal {
            return true;
        }
        thread::sleep(clock, Duration::from_millis(1));
    }
    false
}

/// A gate that lets the first two calls of a run wait for each other. `missed` is 1 if a call has
/// waited in vain.
#[derive(Drop)]
struct Meeting<'a, C> {
    clock: &'a C,
    begun: AtomicU64,
    missed: AtomicU64,
}

impl<C: Clock> Gate for Meeting<'_, C> {
    fn before<R: Wait>(&self, _rt: &R, _operator: usize, _number: usize) {
        self.begun.fetch_add(1, Ordering::SeqCst);
        if !reaches(self.clock, &self.begun, 2) {
            self.missed.store(1, Ordering::SeqCst);
        }
    }

    fn after<R: Wait>(&self, _rt: &R, _operator: usize, _number: usize) {}
}

/// A gate that lets two operators make their calls alternately. The first operator begins. `missed`
/// is 1 if a call has waited in vain for its turn.
#[derive(Drop)]
pub(super) struct ByTurns<'a, C> {
    clock: &'a C,
    made: AtomicU64,
    missed: AtomicU64,
}

impl<'a, C> ByTurns<'a, C> {
    pub(super) fn new(clock: &'a C) -> ByTurns<'a, C> {
        ByTurns {
            clock,
            made: AtomicU64::new(0),
            missed: AtomicU64::new(0),
        }
    }

    pub(super) fn kept_order(&self) -> bool {
        self.missed.load(Ordering::SeqCst) == 0
    }
}

impl<C: Clock> Gate for ByTurns<'_, C> {
    fn before<R: Wait>(&self, _rt: &R, operator: usize, number: usize) {
        let place = (number % 2) * 2 + operator % 2;
        if !reaches(self.clock, &self.made, place as u64) {
            self.missed.store(1, Ordering::SeqCst);
        }
    }

    fn after<R: Wait>(&self, _rt: &R, _operator: usize, _number: usize) {
        self.made.fetch_add(1, Ordering::SeqCst);
    }
}

const ONE_DEVICE: &[u8] = b"%operator a\nadd osd.7 1 host=h1\n%operator b\nadd osd.7 1 host=h2\n";

const FIRST_HAS_IT: &[u8] =
    b"# end crush map\n# 1 a add osd.7 1.00000 host=h1 = done changed 1 made 0\n# 2 b add osd.7 1.00000 host=h2 = refused AlreadyPlaced 17\n";

const SECOND_HAS_IT: &[u8] =
    b"# end crush map\n# 1 b add osd.7 1.00000 host=h2 = done changed 1 made 0\n# 2 a add osd.7 1.00000 host=h1 = refused AlreadyPlaced 17\n";

#[test]
fn two_operators_are_at_work_at_the_same_time(rt: HostRuntime) {
    let gate = Meeting {
        clock: &rt,
        begun: AtomicU64::new(0),
        missed: AtomicU64::new(0),
    };
    let job = joined(&rt, PLAIN, ONE_DEVICE);
    let mut out = Vec::new(rt.alloc());
    let outcome = run_map(&rt, &gate, AT_ONCE, &mut job.as_slice(), &mut out);
    let missed = gate.missed.load(Ordering::SeqCst);
    assert_eq!(&rt; missed, 0);
    assert_eq!(&rt; outcome, Ok(summary(0, 2, 1)));
    if !out.ends_with(FIRST_HAS_IT) {
        assert_ends(&rt, out.as_slice(), SECOND_HAS_IT);
    }
}

/// Each of the two scripts inserts the device `osd.7`, so exactly one of the two calls changes the
/// map.
#[test]
fn scripts_run_at_once_on_a_map(rt: HostRuntime) {
    let bytes = joined(&rt, PLAIN, ONE_DEVICE);
    let job = read_job(rt.alloc(), Hashing::plain(), bytes.as_slice()).expect(&rt, "no job");
    let Job { map, scripts, .. } = job;
    assert_eq!(&rt; scripts.len(), 2);
    let closed = run_at_once(&rt, rt.alloc(), &NoGate, map, scripts).expect(&rt, "no threads");
    let mut changes = 0u32;
    for entry in &closed.history {
        changes = changes.saturating_add(is_change(entry.reply) as u32);
    }
    assert_eq!(&rt; closed.history.len(), 2);
    assert_eq!(&rt; changes, 1);
    assert_eq!(&rt; closed.map.total(), 229376);
}

const TWO_WEIGHTS: &[u8] =
    b"%operator a\nreweight osd.0 2\nreweight osd.0 1\n%operator b\nreweight osd.0 2\nreweight osd.0 1\n";

const BY_TURNS: &[u8] =
    b"# end crush map\n# 1 a reweight osd.0 2.00000 = done changed 1 made 0\n# 2 b reweight osd.0 2.00000 = done changed 0 made 0\n# 3 a reweight osd.0 1.00000 = done changed 1 made 0\n# 4 b reweight osd.0 1.00000 = done changed 0 made 0\n";

#[test]
fn a_gate_dictates_the_order_of_calls(rt: HostRuntime) {
    let gate = ByTurns::new(&rt);
    let job = joined(&rt, PLAIN, TWO_WEIGHTS);
    let mut out = Vec::new(rt.alloc());
    let outcome = run_map(&rt, &gate, AT_ONCE, &mut job.as_slice(), &mut out);
    let in_order = gate.kept_order();
    assert!(&rt; in_order);
    assert_eq!(&rt; outcome, Ok(summary(0, 4, 2)));
    assert_ends(&rt, out.as_slice(), BY_TURNS);
}
