//! Runs the jobs of the examples, and prints which runs ended as expected ([`jobs`]). Then runs
//! some jobs many times. In each run of such a job, except for the last run, a different one of the
//! job's requests for memory is refused ([`growths`]).
#![tactic(auto)]

use growths::run_growths;
use jobs::run_jobs;
use std::fs;

mod expected;
mod growths;
mod jobs;

fn main(rt: HostRuntime) -> anyhow::Result<()> {
    let expected = fs::read(&rt, "expected")?;
    let done = run_jobs(&rt, &rt, expected.as_slice());
    drop(expected);
    done?;
    let records = fs::read(&rt, "growths")?;
    let done = run_growths(&rt, records.as_slice());
    drop(records);
    done
}
