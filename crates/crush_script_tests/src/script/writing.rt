//! Tests writers that accept only a few bytes at a time, and writers that fail.

use crate::texts::assert_text;
use crush_units::{WriteFault, put, put_all};
use std::io::{self, Error, ErrorKind, Write};
use std::process::Abort;

/// A writer that accepts at most seven bytes in a call. After `room` bytes, one call fails or
/// accepts no bytes. Later calls accept bytes again, so a test would notice code that tries again.
#[derive(Drop)]
struct Slow {
    held: Vec<u8>,
    room: usize,
    fails: bool,
}

impl Write for Slow {
    fn write(&mut self, buf: &[u8]) -> io::Result<usize> {
        let count = buf.len().min(7).min(self.room);
        if count == 0 {
            self.room = usize::MAX;
            return if self.fails {
                Err(Error::from(ErrorKind::WouldBlock))
            } else {
                Ok(0)
            };
        }
        self.held.extend_from_slice(&buf[..count])?;
        self.room -= count;
        Ok(count)
    }

    fn flush(&mut self) -> io::Result<()> {
        Ok(())
    }
}

#[test]
fn parts_go_out_one_after_the_other(rt: HostRuntime) {
    let mut held = Vec::new(rt.alloc());
    let parts = [b"h1".as_slice(), b"".as_slice(), b" {\n".as_slice()];
    assert!(rt; put(&mut held, b"host ").is_ok());
    assert!(rt; put_all(&mut held, &parts).is_ok());
    assert_text(&rt, held.as_slice(), b"host h1 {\n");
    assert_eq!(rt; WriteFault::Write.number(), 1);
    assert_eq!(rt; WriteFault::OutOfMemory.number(), 2);
}

/// Writes a text of 25 bytes to a writer that fails after `room` bytes. Asserts that the write fails
/// with `fault`, or succeeds if `fault` is `None`. Also asserts that the writer has accepted the
/// first `room` bytes of the text.
fn assert_answer(
    rt: &(impl Abort + AllocGlobal),
    room: usize,
    fails: bool,
    fault: Option<WriteFault>,
) {
    let parts = [b"item osd.0".as_slice(), b" weight 1.00000".as_slice()];
    let held = Vec::new(rt.alloc());
    let mut out = Slow { held, room, fails };
    let outcome = match put_all(&mut out, &parts) {
        Ok(()) => None,
        Err(fault) => Some(fault),
    };
    assert_eq!(rt; outcome, fault);
    let whole: &[u8] = b"item osd.0 weight 1.00000";
    let (expected, _) = whole.split_at(room.min(whole.len()));
    assert_text(rt, out.held.as_slice(), expected);
    assert_eq!(rt; out.held.len(), room);
}

const ROOMS: &[(usize, bool)] = &[(0, true), (7, true), (12, false), (24, true), (24, false)];

#[test]
fn a_prefix_stands_after_a_failure(rt: HostRuntime) {
    for (room, fails) in ROOMS {
        assert_answer(&rt, *room, *fails, Some(WriteFault::Write));
    }
    assert_answer(&rt, 25, true, None);
}
