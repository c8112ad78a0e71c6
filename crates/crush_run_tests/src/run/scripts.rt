//! Tests scripts in files that no file system can have: a file whose name ends with the `/` after
//! its folder, a file with a name of 256 bytes, and files that count the bytes that are read from
//! them.

use super::{joined, summary};
use crate::maps::PLAIN;
use crate::texts::assert_text;
use crush_options::options;
use crush_run::{Opens, RunFault, Summary, run_options};
use crush_script::{BadLine, Due, JobFault, Misfit};
use std::io::{self, ErrorKind, Read};
use std::process::Abort;
use std::random::RandomSource;
use std::sync::Wait;
use std::sync::atomic::{AtomicU64, Ordering};
use std::thread::Threads;

#[derive(Clone, Copy)]
pub(super) struct Shelf<'a> {
    pub(super) files: &'a [(&'a str, &'a [u8])],
}

impl<'a> Opens for Shelf<'a> {
    type Opened = &'a [u8];

    ghost use Rattle.std.specs.Prelude.{None};

    ghost content = { λ _ _. None };

    fn open(&self, name: &str) -> io::Result<&'a [u8]> {
        for (other, bytes) in self.files {
            if *other == name {
                return Ok(*bytes);
            }
        }
        Err(ErrorKind::NotFound.into())
    }
}

/// Runs the script in the file `name` on the map in the file `m`. Asserts that the run has this
/// outcome and this output, and no notes.
fn assert_run(
    rt: &(impl Abort + AllocGlobal + RandomSource + Threads + Wait + Sync),
    name: &str,
    script: &[u8],
    outcome: Result<Summary, RunFault>,
    output: &[u8],
) {
    let Ok(options) = options(rt.alloc(), &["m", "-s", name]) else {
        panic!(rt; "the words are refused")
    };
    let files: &[(&str, &[u8])] = &[("m", PLAIN), (name, script)];
    let mut out = Vec::new(rt.alloc());
    let mut input: &[u8] = b"";
    let ending = run_options(rt, &Shelf { files }, &options, &mut input, &mut out);
    drop(options);
    assert_eq!(rt; ending.outcome, outcome);
    assert_text(rt, ending.notes.as_slice(), b"");
    drop(ending);
    assert_text(rt, out.as_slice(), output);
}

const ALICE: &[u8] = b"reweight osd.2 1.0";

const BOB: &[u8] = b"%operator bob\nreweight osd.2 0.5\n";

const BOB_LINE: &[u8] = b"# 1 bob reweight osd.2 0.50000 = done changed 0 made 0\n";

/// Names of files. The last part of such a name can't be the name of an operator, which has 1 to
/// 255 bytes. The first name has no bytes after the folder, and the second name has 256 bytes.
const NAMELESS: [&str; 2] = [
    "a/",
    "aaaaaaaaaaaaaaaaaaaaaaaaaaaaaaaaaaaaaaaaaaaaaaaaaaaaaaaaaaaaaaaaaaaaaaaaaaaaaaaaaaaaaaaaaaaaaaaaaaaaaaaaaaaaaaaaaaaaaaaaaaaaaaaaaaaaaaaaaaaaaaaaaaaaaaaaaaaaaaaaaaaaaaaaaaaaaaaaaaaaaaaaaaaaaaaaaaaaaaaaaaaaaaaaaaaaaaaaaaaaaaaaaaaaaaaaaaaaaaaaaaaaaaaaaaaaaaaa",
];

/// In the job, the `%operator` line of the script is line 42, because the text of the map has 41
/// lines.
#[test]
fn a_file_whose_name_is_no_operators_is_a_bad_line(rt: HostRuntime) {
    let why = BadLine::Word(Misfit {
        word: 1,
        due: Due::Name,
    });
    let refused = Err(RunFault::Job(JobFault::BadLine { line: 42, why }));
    for name in NAMELESS {
        let output = joined(&rt, PLAIN, BOB_LINE);
        assert_run(&rt, name, ALICE, refused, b"");
        assert_run(&rt, name, b"", refused, b"");
        assert_run(&rt, name, BOB, Ok(summary(0, 1, 0)), output.as_slice());
    }
}

/// Files of 10,000,000 bytes each. `taken` counts the bytes that are read from all these files.
#[derive(Clone, Copy)]
struct Counted<'a> {
    taken: &'a AtomicU64,
}

#[derive(Drop)]
struct Rest<'a> {
    taken: &'a AtomicU64,
    left: usize,
}

impl Read for Rest<'_> {
    /// Leaves `buf` unchanged, because nothing looks at the bytes of a job that is too long.
    fn read(&mut self, buf: &mut [u8]) -> io::Result<usize> {
        let count = buf.len().min(self.left);
        self.left -= count;
        self.taken.fetch_add(count as u64, Ordering::SeqCst);
        Ok(count)
    }
}

impl<'a> Opens for Counted<'a> {
    type Opened = Rest<'a>;

    ghost use Rattle.std.specs.Prelude.{None};

    ghost content = { λ _ _. None };

    fn open(&self, _name: &str) -> io::Result<Rest<'a>> {
        Ok(Rest {
            taken: self.taken,
            left: 10_000_000,
        })
    }
}

/// The first file is read as a whole. The run reads from the second file until it has read
/// 16,777,217 bytes from both files together. This is one byte more than a job may have.
#[test]
fn the_files_of_a_job_are_read_up_to_one_limit(rt: HostRuntime) {
    let taken = AtomicU64::new(0);
    let Ok(options) = options(rt.alloc(), &["m", "-s", "x"]) else {
        panic!(&rt; "the words are refused")
    };
    let mut out = Vec::new(rt.alloc());
    let mut input: &[u8] = b"";
    let ending = run_options(
        &rt,
        &Counted { taken: &taken },
        &options,
        &mut input,
        &mut out,
    );
    let outcome = ending.outcome;
    drop(options);
    drop(ending);
    let count = taken.load(Ordering::SeqCst);
    assert_eq!(rt; outcome, Err(RunFault::Job(JobFault::TooLong)));
    assert_text(&rt, out.as_slice(), b"");
    assert_eq!(rt; count, 16_777_217);
}
