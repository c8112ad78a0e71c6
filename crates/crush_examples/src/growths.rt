//! Runs jobs whose output is known. Each job is run many times. The first run refuses the first
//! request for memory that the job's map makes. The second run refuses the second request, and so
//! on. In the last run, the number of the refused request is greater than the number of requests,
//! so no request is refused. Each job is run in two ways: on a map alone, and with a `Book`, which
//! is a map with its history. An operation that fails because memory ran out is repeated. So each
//! run must end with the known output.

use crate::jobs::RECORD_SEPARATOR;
use anyhow::{Context, ensure};
use crush_units::put;
use job::{Parts, read_parts};
use refusing::Refusing;
use run::{Maker, run_each};

mod book;
mod job;
mod map;
mod refusing;
mod run;

/// Runs the job of each record, in both ways. Prints the name of a job before the runs of the job,
/// and prints the result after these runs. Fails if a record lacks a part, or if [`run_record`]
/// fails for a job.
pub fn run_growths(rt: &HostRuntime, records: &[u8]) -> anyhow::Result<()> {
    for record in records.split(|byte| *byte == RECORD_SEPARATOR) {
        let parts = read_parts(record).context("a part is missing")?;
        put(&mut rt.stdout(), parts.name)?;
        run_record(rt, &parts, Maker::Map)?;
        run_record(rt, &parts, Maker::Book)?;
        println!(rt; ": each growth was refused")?;
    }
    Ok(())
}

/// Runs a job many times ([`run_each`]), and counts the runs that report that memory ran out. Each
/// run makes at least a certain number of requests for memory, which `run_each` returns. The
/// function fails if fewer runs than this number report that memory ran out. It also fails if
/// `run_each` fails, for example because a run ends with another output.
fn run_record(rt: &HostRuntime, parts: &Parts, maker: Maker) -> anyhow::Result<()> {
    let memory = Refusing::new(rt.alloc());
    let (told, fewest) = run_each(rt.alloc(), &memory, parts, maker)?;
    ensure!(told >= fewest, "out of memory is told too seldom");
    Ok(())
}
