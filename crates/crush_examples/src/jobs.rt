//! Runs jobs as `crushedit` does. The file `jobs` has command lines, which are run first. The file
//! `records` has jobs, which are run next. The file `expected` has a part for each run. The run's
//! output, summary, standard error and status must equal this part.

use crate::expected::Expected;
use crush_input::{Words, report};
use crush_options::{Mode, options};
use crush_run::{Ending, NoGate, Output, Request, RunFault, SystemFiles, run_job, run_options};
use std::io::Write;
use std::random::RandomSource;
use std::sync::Wait;
use std::thread::Threads;
use std::{fs, io};

const PART_SEPARATOR: u8 = 0;

pub const RECORD_SEPARATOR: u8 = 0x1e;

/// Runs all jobs, and prints which runs end as expected. If there are more expected parts than
/// runs, also prints how many parts are left. Fails if a file can't be read, if a line can't be
/// printed, or if memory runs out.
pub fn run_jobs(
    rt: &HostRuntime,
    workers: &(impl AllocGlobal + RandomSource + Threads + Wait + Sync),
    expected: &[u8],
) -> io::Result<()> {
    let parts: Vec<&[u8]> = expected
        .split(|byte| *byte == PART_SEPARATOR)
        .collect(rt.alloc())?;
    let mut expected = Expected::new(parts.as_slice());
    let done = run_files(rt, workers, &mut expected);
    drop(parts);
    done
}

fn run_files(
    rt: &HostRuntime,
    workers: &(impl AllocGlobal + RandomSource + Threads + Wait + Sync),
    expected: &mut Expected<'_>,
) -> io::Result<()> {
    let lines = fs::read_to_string(rt, "jobs")?;
    let done = run_lines(rt, workers, lines.as_str(), expected);
    drop(lines);
    done?;
    let records = fs::read(rt, "records")?;
    let done = run_records(rt, workers, records.as_slice(), expected);
    drop(records);
    done?;
    match expected.left() {
        0 => Ok(()),
        left => println!(rt; "{left} parts without a run: not as expected"),
    }
}

/// Runs each line as a command line, without the program's name. Prints for each line whether its
/// run ended as expected. If the run didn't end as expected, also prints what the run has written.
fn run_lines(
    rt: &HostRuntime,
    workers: &(impl AllocGlobal + RandomSource + Threads + Wait + Sync),
    lines: &str,
    expected: &mut Expected<'_>,
) -> io::Result<()> {
    let mut written = Vec::new(rt.alloc());
    for line in lines.lines() {
        written.clear();
        run_line(rt, workers, line, &mut written)?;
        if expected.takes(written.as_slice()) {
            println!(rt; "{line}: as expected")?;
        } else {
            println!(rt; "{line}: not as expected")?;
            rt.stdout().write_all(written.as_slice())?;
        }
    }
    Ok(())
}

/// Runs one command line, and appends what the run writes to `written`. If the command line is
/// rejected, nothing is run, and the outcome counts as `RunFault::Read`.
fn run_line(
    rt: &HostRuntime,
    workers: &(impl AllocGlobal + RandomSource + Threads + Wait + Sync),
    line: &str,
    written: &mut Vec<u8>,
) -> io::Result<()> {
    let words: Vec<&str> = line.split_whitespace().collect(rt.alloc())?;
    let read = options(rt.alloc(), words.as_slice());
    drop(words);
    let mut input = rt.stdin();
    let (ending, words) = match &read {
        Ok(options) => {
            let files = SystemFiles(rt);
            let ending = run_options(workers, &files, options, &mut input, written);
            (ending, Words::of(options))
        }
        Err(_) => {
            let ending = Ending {
                outcome: Err(RunFault::Read),
                notes: Vec::new(rt.alloc()),
            };
            (ending, Words::none())
        }
    };
    write_end(words, &ending, written)
}

/// Runs the jobs of `records`. A record separator follows each job, except for the last job. Prints
/// how many of these runs end as expected. If a run doesn't end as expected, prints what this run
/// has written.
fn run_records(
    rt: &HostRuntime,
    workers: &(impl AllocGlobal + RandomSource + Threads + Wait + Sync),
    records: &[u8],
    expected: &mut Expected<'_>,
) -> io::Result<()> {
    let mut written = Vec::new(rt.alloc());
    let mut same = 0usize;
    let jobs = records.split(|byte| *byte == RECORD_SEPARATOR);
    for (number, job) in jobs.enumerate() {
        written.clear();
        let ending = run_record(workers, job, &mut written);
        write_end(Words::none(), &ending, &mut written)?;
        if expected.takes(written.as_slice()) {
            same = same.saturating_add(1);
        } else {
            println!(rt; "record {number}: not as expected")?;
            rt.stdout().write_all(written.as_slice())?;
        }
    }
    println!(rt; "{same} records: as expected")
}

/// Runs the scripts of one job, one after the other. Appends the output of the run to `written`:
/// the text of the map, and then the lines of the history.
fn run_record(
    workers: &(impl AllocGlobal + RandomSource + Threads + Wait + Sync),
    job: &[u8],
    written: &mut Vec<u8>,
) -> Ending {
    let request = Request {
        mode: Mode {
            in_turn: true,
            history: true,
            strict: false,
            no_make: false,
            exit_code: false,
            explain: false,
            json: false,
            exact: false,
            conflicts: false,
        },
        output: Output::Map,
    };
    let mut reader = job;
    run_job(workers, &NoGate, &request, &mut reader, written)
}

/// Appends the summary of a run, the text for standard error, and the exit status to `written`.
fn write_end(words: Words<'_>, ending: &Ending, written: &mut Vec<u8>) -> io::Result<()> {
    match &ending.outcome {
        Ok(done) => writeln!(
            written,
            "< adjusted {} calls {} changes {}",
            done.adjusted, done.calls, done.changes
        )?,
        Err(_) => writeln!(written, "< not done")?,
    }
    let notes = ending.notes.as_slice();
    let status = report(words, &ending.outcome, notes, written).status;
    writeln!(written, "< status {status}")
}
