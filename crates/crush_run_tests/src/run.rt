//! Tests `crush_options`, `crush_input` and `crush_run`. The tests call each public function of
//! these crates. The tests also have the cases that the files of `tests/runs/` can't show. Examples
//! are streams that fail, files that no file system can have, and gates. A *gate* is code that runs
//! before and after each call of an operator.

use crate::maps::PLAIN;
use crate::texts::assert_text;
use crush_input::{Words, report};
use crush_options::Mode;
use crush_run::{Ending, Gate, NoGate, Output, Request, RunFault, Summary, run_job};
use std::io::{Read, Write};
use std::process::Abort;
use std::random::RandomSource;
use std::sync::Wait;
use std::thread::Threads;

mod at_once;
mod command_lines;
mod failing;
mod gate_faults;
mod gates;
mod limits;
mod reporting;
mod scripts;
mod verb_maps;

const REWEIGHED: &[u8] =
    b"# begin crush map\n\n# devices\ndevice 0 osd.0\ndevice 1 osd.1\ndevice 2 osd.2\n\n# types\ntype 0 osd\ntype 1 host\ntype 3 rack\ntype 11 root\n\n# buckets\nhost h1 {\n\tid -2\t\t# do not change unnecessarily\n\t# weight 2.00000\n\talg straw2\n\thash 0\t# rjenkins1\n\titem osd.0 weight 1.00000\n\titem osd.1 weight 1.00000\n}\nhost h2 {\n\tid -3\t\t# do not change unnecessarily\n\t# weight 1.00000\n\talg straw2\n\thash 0\t# rjenkins1\n\titem osd.2 weight 1.00000\n}\nroot default {\n\tid -1\t\t# do not change unnecessarily\n\t# weight 3.00000\n\talg straw2\n\thash 0\t# rjenkins1\n\titem h1 weight 2.00000\n\titem h2 weight 1.00000\n}\n\n# rules\n\n# end crush map\n";

const MODE: Mode = Mode {
    in_turn: true,
    history: true,
    strict: false,
    no_make: false,
    exit_code: false,
    explain: false,
    json: false,
    exact: false,
    conflicts: false,
};

const AT_ONCE: Mode = Mode {
    in_turn: false,
    history: true,
    strict: false,
    no_make: false,
    exit_code: false,
    explain: false,
    json: false,
    exact: false,
    conflicts: false,
};

fn joined(rt: &(impl Abort + AllocGlobal), first: &[u8], second: &[u8]) -> Vec<u8> {
    let parts = [first, second];
    parts.concat(rt.alloc()).expect(rt, "no memory")
}

fn run_map<H, G, R, W>(
    rt: &H,
    gate: &G,
    mode: Mode,
    reader: &mut R,
    writer: &mut W,
) -> Result<Summary, RunFault>
where
    H: AllocGlobal + RandomSource + Threads + Wait + Sync,
    G: Gate + Sync,
    R: Read,
    W: Write,
{
    let request = Request {
        mode,
        output: Output::Map,
    };
    let Ending { outcome, notes } = run_job(rt, gate, &request, reader, writer);
    drop(notes);
    outcome
}

fn assert_writes(
    rt: &(impl Abort + AllocGlobal + RandomSource + Threads + Wait + Sync),
    mode: Mode,
    job: &[u8],
    output: (&[u8], &[u8]),
    summary: Summary,
) {
    let (map, lines) = output;
    let expected = joined(rt, map, lines);
    let mut out = Vec::new(rt.alloc());
    let outcome = run_map(rt, &NoGate, mode, &mut &*job, &mut out);
    assert_eq!(rt; outcome, Ok(summary));
    assert_text(rt, out.as_slice(), expected.as_slice());
}

/// If there is only one operator, a run in which the operators work at the same time has the same
/// result as a run in which they work one after the other.
#[test]
fn runs_one_operator_at_once(rt: HostRuntime) {
    let job = joined(&rt, PLAIN, b"%operator a\nreweight osd.2 1.0\n");
    let lines = b"# 1 a reweight osd.2 1.00000 = done changed 1 made 0\n";
    let sum = summary(0, 1, 1);
    assert_writes(&rt, MODE, job.as_slice(), (REWEIGHED, lines), sum);
    assert_writes(&rt, AT_ONCE, job.as_slice(), (REWEIGHED, lines), sum);
}

fn summary(adjusted: u32, calls: u32, changes: u32) -> Summary {
    Summary {
        adjusted,
        calls,
        changes,
        differs: false,
    }
}

fn assert_listed(
    rt: &(impl Abort + AllocGlobal),
    outcome: &Result<Summary, RunFault>,
    line: &[u8],
    status: u8,
) {
    let mut err = Vec::new(rt.alloc());
    let told = report(Words::none(), outcome, b"", &mut err);
    assert_eq!(rt; told.status, status);
    assert_text(rt, err.as_slice(), line);
}
