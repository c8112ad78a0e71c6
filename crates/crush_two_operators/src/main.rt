//! An example of a program with threads that uses the library. It reads a job from standard input:
//! the text of a map, and three scripts. Two operators run the first two scripts at the same time
//! ([`at_once`]). Each operator runs one of these scripts, in a thread of its own. Then both
//! operators work through one plan, which is the batch of the third script ([`plan`]). Each step of
//! the plan is made once, by the operator that is the first to submit it.
//!
//! In the job of the file `stdin`, the first two scripts don't affect each other. So the output for
//! this job is always the same, in whichever order the operators' calls are made.
//!
//! A *call* is an edit or a batch of edits. An *editor* owns the map and makes one call at a time.
//! Each operator has a *seat*, with which it submits its calls to the editor. The *history* has an
//! entry for each call: the call and its reply.
#![tactic(auto)]

use anyhow::bail;
use at_once::edit_at_once;
use crush::{
    Call, Closed, Edit, Entry, Hashing, Job, Line, Reading, Script, WeightForm, is_change,
    read_job, write_map,
};
use plan::follow_at_once;
use std::io;

mod at_once;
mod plan;
mod together;

fn main(rt: HostRuntime) -> anyhow::Result<()> {
    let text = io::read_to_string(rt.alloc(), rt.stdin())?;
    // The input comes from the program's own user. So this user can't harm somebody else with names
    // that make lookups slow, and names are hashed without random keys.
    let job = read_job(rt.alloc(), Hashing::plain(), text.as_bytes())?;
    let Job { map, scripts, .. } = job;
    let [first, second, third] = scripts.as_slice() else {
        bail!("the job has not three scripts");
    };
    // Each operator makes the calls of its own script, at the same time as the other operator.
    let (closed, last) = edit_at_once(
        &rt,
        rt.alloc(),
        map,
        first.calls.as_slice(),
        second.calls.as_slice(),
    )?;
    let Closed { map, history, .. } = closed;
    // Both operators work through one plan. The plan starts from the map after the operators' own
    // calls.
    let followed = follow_at_once(&rt, rt.alloc(), map, steps(third))?;
    // Prints the map after the plan, the history of the operators' own calls, the last reading, and
    // the changes in the history of the plan.
    write_map(
        rt.alloc(),
        &followed.map,
        WeightForm::Rounded,
        &mut rt.stdout(),
    )?;
    print_part(&rt, history.as_slice(), 0, "first")?;
    print_part(&rt, history.as_slice(), 1, "second")?;
    print_reading(&rt, last)?;
    print_changes(&rt, followed.history.as_slice())
}

/// Returns the steps of the plan, which are the edits of the script's batch. Returns no steps if
/// the script doesn't consist of exactly one batch.
fn steps(script: &Script) -> &[Edit] {
    match script.calls.as_slice() {
        [Call::Batch(edits)] => edits.as_slice(),
        _ => &[],
    }
}

/// Prints the history's entries of one operator, numbered from 1. The function doesn't print the
/// numbers that these entries have in the whole history, because those numbers differ from run to
/// run.
fn print_part(
    rt: &HostRuntime,
    history: &[Entry],
    operator: usize,
    name: &str,
) -> anyhow::Result<()> {
    let mut number = 0u32;
    for entry in history {
        if entry.operator == operator {
            number = number.saturating_add(1);
            let line = Line {
                number,
                operator: name,
                call: &entry.call,
                reply: entry.reply,
            };
            println!(rt; "{line}")?;
        }
    }
    Ok(())
}

/// Prints the history's entries that changed the map, numbered from 1. The function doesn't print
/// the operator of an entry, because a different operator may make the change in the next run.
fn print_changes(rt: &HostRuntime, history: &[Entry]) -> anyhow::Result<()> {
    let mut number = 0u32;
    for entry in history {
        if is_change(entry.reply) {
            number = number.saturating_add(1);
            let line = Line {
                number,
                operator: "either",
                call: &entry.call,
                reply: entry.reply,
            };
            println!(rt; "{line}")?;
        }
    }
    Ok(())
}

/// Prints a reading: the number of calls that have changed the map so far, and the total weight of
/// all devices that are in buckets. The unit of this weight is 1/65536 TiB.
fn print_reading(rt: &HostRuntime, reading: Reading) -> anyhow::Result<()> {
    println!(rt; "# changes {} weight {}", reading.changes, reading.weight)?;
    Ok(())
}
