//! Tests runs whose reader or writer fails, and runs whose reader returns more blanks than a job
//! may have bytes.

use super::{MODE, REWEIGHED, assert_listed, joined, run_map};
use crate::maps::PLAIN;
use crate::texts::assert_text;
use crush_run::{NoGate, RunFault};
use crush_script::JobFault;
use std::io::{self, ErrorKind, Read, Write};
use std::process::Abort;
use std::random::RandomSource;
use std::sync::Wait;
use std::thread::Threads;

/// The way in which a stream fails: once, like an interrupted stream, or for good. If the stream
/// fails only once, a second try would succeed.
#[derive(Clone, Copy)]
struct Failing {
    kind: ErrorKind,
    is_for_good: bool,
}

const WAYS: [Failing; 2] = [
    Failing {
        kind: ErrorKind::Interrupted,
        is_for_good: false,
    },
    Failing {
        kind: ErrorKind::Other,
        is_for_good: true,
    },
];

#[derive(Drop)]
struct FailingReader<'a> {
    bytes: &'a [u8],
    asked: usize,
    fails_at: usize,
    way: Failing,
}

impl Read for FailingReader<'_> {
    fn read(&mut self, buf: &mut [u8]) -> io::Result<usize> {
        let number = self.asked;
        self.asked = number.saturating_add(1);
        if number == self.fails_at || self.way.is_for_good && number > self.fails_at {
            return Err(self.way.kind.into());
        }
        let most = buf.len().min(self.bytes.len()).min(16);
        let (now, later) = self.bytes.split_at(most);
        buf[..most].copy_from_slice(now);
        self.bytes = later;
        Ok(most)
    }
}

/// A writer that accepts at most 7 bytes in each write, and `room` bytes in total. When there is no
/// room left, a write fails or accepts no bytes. If the writer fails only once, there is room again
/// after this failure.
#[derive(Drop)]
struct FailingWriter {
    taken: Vec<u8>,
    room: usize,
    answers_error: bool,
    way: Failing,
}

impl Write for FailingWriter {
    fn write(&mut self, bytes: &[u8]) -> io::Result<usize> {
        let most = bytes.len().min(self.room).min(7);
        if most == 0 {
            if !self.way.is_for_good {
                self.room = usize::MAX;
            }
            return if self.answers_error {
                Err(self.way.kind.into())
            } else {
                Ok(0)
            };
        }
        self.room -= most;
        let (now, _) = bytes.split_at(most);
        self.taken.extend_from_slice(now)?;
        Ok(most)
    }

    fn flush(&mut self) -> io::Result<()> {
        Ok(())
    }
}

#[derive(Drop)]
struct Blanks {
    left: usize,
    most: usize,
    asked: u32,
}

impl Read for Blanks {
    fn read(&mut self, buf: &mut [u8]) -> io::Result<usize> {
        self.asked = self.asked.saturating_add(1);
        let count = buf.len().min(self.left).min(self.most);
        buf[..count].fill(b' ');
        self.left -= count;
        Ok(count)
    }
}

const SCRIPT: &[u8] = b"%operator a\nreweight osd.2 1.0\n";

fn assert_stops_at(
    rt: &(impl Abort + AllocGlobal + RandomSource + Threads + Wait + Sync),
    job: &[u8],
    fails_at: usize,
    way: Failing,
) {
    let mut reader = FailingReader {
        bytes: job,
        asked: 0,
        fails_at,
        way,
    };
    let mut out = Vec::new(rt.alloc());
    let outcome = run_map(rt, &NoGate, MODE, &mut reader, &mut out);
    assert_eq!(rt; outcome, Err(RunFault::Read));
    assert_text(rt, out.as_slice(), b"");
    assert_listed(rt, &outcome, b"crushedit: read fault\n", 3);
}

#[test]
fn stops_at_a_failed_read(rt: HostRuntime) {
    let job = joined(&rt, PLAIN, SCRIPT);
    for fails_at in 0..job.len() / 16 + 1 {
        for way in WAYS {
            assert_stops_at(&rt, job.as_slice(), fails_at, way);
        }
    }
}

/// Asserts that the run fails with a write fault after the writer has received exactly the first
/// `room` bytes of the output. `run` has the bytes of a job, and the whole output of this job.
fn assert_prefix(
    rt: &(impl Abort + AllocGlobal + RandomSource + Threads + Wait + Sync),
    run: (&[u8], &[u8]),
    room: usize,
    answers_error: bool,
    way: Failing,
) {
    let (job, whole) = run;
    let taken = Vec::new(rt.alloc());
    let mut writer = FailingWriter {
        taken,
        room,
        answers_error,
        way,
    };
    let outcome = run_map(rt, &NoGate, MODE, &mut &*job, &mut writer);
    assert_eq!(rt; outcome, Err(RunFault::Write));
    let (expected, _) = whole.split_at(room.min(whole.len()));
    assert_text(rt, writer.taken.as_slice(), expected);
    assert_eq!(rt; writer.taken.len(), room);
    assert_listed(rt, &outcome, b"crushedit: write fault\n", 3);
}

#[test]
fn leaves_a_prefix_at_a_failed_write(rt: HostRuntime) {
    let job = joined(&rt, PLAIN, SCRIPT);
    let line = b"# 1 a reweight osd.2 1.00000 = done changed 1 made 0\n";
    let whole = joined(&rt, REWEIGHED, line);
    let run = (job.as_slice(), whole.as_slice());
    for room in 0..run.1.len() {
        for way in WAYS {
            assert_prefix(&rt, run, room, true, way);
            assert_prefix(&rt, run, room, false, way);
        }
    }
}

const LONGEST_JOB: usize = 16_777_216;

fn assert_too_long(
    rt: &(impl Abort + AllocGlobal + RandomSource + Threads + Wait + Sync),
    reader: &mut Blanks,
) {
    let mut out = Vec::new(rt.alloc());
    let outcome = run_map(rt, &NoGate, MODE, reader, &mut out);
    assert_eq!(rt; outcome, Err(RunFault::Job(JobFault::TooLong)));
    assert_eq!(rt; reader.left, usize::MAX - LONGEST_JOB - 1);
    assert_text(rt, out.as_slice(), b"");
    assert_listed(rt, &outcome, b"crushedit: TooLong\n", 1);
}

#[test]
fn asks_an_endless_reader_for_one_byte_too_many(rt: HostRuntime) {
    let mut reader = Blanks {
        left: usize::MAX,
        most: 1,
        asked: 0,
    };
    assert_too_long(&rt, &mut reader);
    assert_eq!(rt; reader.asked, 16_777_217);
}

#[test]
fn takes_one_byte_too_many_of_a_reader_that_fills_what_it_is_given(rt: HostRuntime) {
    let mut reader = Blanks {
        left: usize::MAX,
        most: usize::MAX,
        asked: 0,
    };
    assert_too_long(&rt, &mut reader);
}
