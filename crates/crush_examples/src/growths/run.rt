//! Runs a job many times. Each run, except for the last run, refuses a different request for
//! memory.

use crate::growths::book::run_by_book;
use crate::growths::job::Parts;
use crate::growths::map::{read_again, run_on_map};
use crate::growths::refusing::Refusing;
use anyhow::{bail, ensure};
use crush_history::Script;
use crush_map::Hashing;
use crush_script::{Job, read_job};
use std::alloc::Global;

/// Says what makes the calls of a job: a map or a book.
#[derive(Clone, Copy)]
pub enum Maker {
    Map,
    /// A `Book`, which has the current map, the opening map and the history.
    Book,
}

/// Runs a job repeatedly, until a run ends in which no request was refused. The first run refuses
/// its first request, the second run refuses its second request, and so on. Returns two numbers:
/// how many runs had an operation that reported that memory ran out, and how many requests for
/// memory a run makes at least (`fewest_requests` of the module `map`).
///
/// Not every refused request leads to such a report. A list may request a smaller block for the
/// same items. If this request is refused, the list keeps its larger block.
///
/// Fails if a run doesn't end with the known output. Also fails if more than one operation of a run
/// reports that memory ran out, or if an operation reports it in the last run, which refuses no
/// request.
pub fn run_each(
    alloc: Global,
    memory: &Refusing<Global>,
    parts: &Parts,
    maker: Maker,
) -> anyhow::Result<(usize, usize)> {
    let Job { scripts, .. } = read_job(alloc, Hashing::plain(), parts.job)?;
    let mut told = 0usize;
    for number in 1..usize::MAX {
        memory.refuse(number);
        let (answers, fewest) = run_refused(alloc, memory, parts, scripts.as_slice(), maker)?;
        let refused = memory.has_refused();
        ensure!(answers <= usize::from(refused), "memory ran out once more");
        told = told.saturating_add(answers);
        if !refused {
            return Ok((told, fewest));
        }
    }
    bail!("no end of requests")
}

/// Runs a job once. Returns how many operations reported that memory ran out, and how many requests
/// for memory a run makes at least. `fewest_requests` computes the second number from the map at
/// the end of the run.
fn run_refused(
    alloc: Global,
    memory: &Refusing<Global>,
    parts: &Parts,
    scripts: &[Script],
    maker: Maker,
) -> anyhow::Result<(usize, usize)> {
    let mut answers = 0;
    let map = read_again(alloc, memory, parts.map, &mut answers)?;
    let fewest = match maker {
        Maker::Map => run_on_map(alloc, map, scripts, parts.output, &mut answers)?,
        Maker::Book => run_by_book(alloc, map, scripts, parts, &mut answers)?,
    };
    Ok((answers, fewest))
}
