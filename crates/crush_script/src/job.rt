//! Reads a whole job: the map's text and the scripts.

ghost use Rattle.std.specs.Prelude.{◌≡◌, ◌≤◌, true, IfOk, IfErr, length};
ghost use Rattle.crush_history.specs.Script.{scripts_data, call_count};
ghost use Rattle.crush_script.specs.Fault.{lacks_memory};
ghost use Rattle.crush_script.specs.Job.{IsJob, IsJobFault, JobData, JobStands};
ghost use Rattle.crush_script.specs.Sections.{job_lines, lines_data};
ghost use Rattle.crush_units.specs.declared.limits.TheConstants.{MOST_CALLS, MOST_OPERATORS};

use crate::fault::JobFault;
use crate::line::{cut_job, line_feeds};
use crate::sections::{Sections, read_sections};
use crush_history::Script;
use crush_map::{CrushMap, Hashing};
use crush_text::{Adjusted, read_map_in};
use crush_units::limits::LONGEST_JOB;
use std::alloc::Global;
use std::fmt;

/// A map, and the scripts of the operators that edit it.
#[derive(Drop)]
pub struct Job {
    /// The map before any script has run.
    pub map: CrushMap<Global>,
    /// The number of buckets for which the map's text gives a weight that isn't the sum of the
    /// weights of the devices below the bucket. In `map`, each of these buckets has this sum
    /// instead.
    pub adjusted: Adjusted,
    /// One script for each section, in the order of the sections.
    pub scripts: Vec<Script>,
    /// For each script, the numbers of the lines that have its edits, in the order of the script.
    /// Lines are counted from 1, beginning with the first line of the job.
    pub lines: Vec<Vec<u32>>,
}

/// Prints how many devices and buckets the map has, the number of buckets with a replaced weight,
/// and the number of scripts, for example
/// `Job { map: CrushMap { devices: 3, buckets: 3 }, adjusted: 0, scripts: 1 }`.
impl fmt::Debug for Job {
    fn fmt<W: fmt::Write>(&self, f: &mut fmt::Formatter<W>) -> fmt::Result {
        let map = &self.map;
        let adjusted = self.adjusted.count();
        let scripts = self.scripts.len();
        write!(
            f,
            "Job {{ map: {map:?}, adjusted: {adjusted}, scripts: {scripts} }}"
        )
    }
}

/// Reads a job: the text of a map, followed by the sections with the operators' scripts.
///
/// `docs/user/FORMATS.md` defines the form of a job, and `docs/user/RULES.md` lists the faults.
/// `hashing` says how the indexes of the map hash names and ids. Use a `hashing` with random keys
/// if the bytes come from an untrusted source.
///
/// The call tests three things in this order, and fails with the first fault: whether there are
/// more than 16,777,216 bytes, whether the map's text has a fault, and whether a line of the
/// sections has a fault. If several lines have a fault, the call reports the first of these lines.
/// There is one exception: the call finds a batch without a `commit` only when the next section
/// begins or the job ends. So if a line inside of this batch is faulty, the call reports this line.
///
/// If memory runs out, the call can report this instead of a fault. If memory runs out while the
/// call reads the map's text, the error is [`JobFault::Text`]. If memory runs out while the call
/// reads the sections, the error is [`JobFault::OutOfMemory`].
pub fn read_job(alloc: Global, hashing: Hashing, bytes: &[u8]) -> Result<Job, JobFault>
    ensures job { IfOk result (λ read. (job : JobData) × IsJob bytes.now job × JobStands read job) }
    ensures only { (job : JobData) → IsJob bytes.now job
        → IfOk result (λ read. JobStands read job) }
    ensures memory { (job : JobData) → IsJob bytes.now job
        → IfErr result (λ fault. lacks_memory fault ≡ true) }
    ensures fault { IfErr result (IsJobFault bytes.now) }
    ensures operators { IfOk result (λ read. length read.scripts.items ≤ MOST_OPERATORS) }
    ensures lines { IfOk result (λ read. lines_data read.lines.items ≡ job_lines bytes.now) }
    ensures few { IfOk result (λ read. call_count (scripts_data read.scripts.items) ≤ MOST_CALLS) }
{
    if bytes.len() > LONGEST_JOB {
        return Err(JobFault::TooLong);
    }
    let (text, rest) = cut_job(bytes);
    let (map, adjusted) = read_map_in(alloc, hashing, alloc, text)?;
    let sections = read_sections(alloc, line_feeds(text) + 1, rest)?;
    let Sections { scripts, lines, .. } = sections;
    Ok(Job {
        map,
        adjusted,
        scripts,
        lines,
    })
}
