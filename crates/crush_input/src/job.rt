//! Reads and parses the job of a run.

ghost use Rattle.std.specs.Prelude.{◌≡◌, ◌≢◌, ◌≤◌, ℕ, List, [], Err, None, Some, IfErr, IfOk, IfSome, false, length};
ghost use Rattle.crush_script.specs.Job.{HasJob, IsJob, JobData};
ghost use Rattle.crush_input.specs.Input.{TakesFew, job_bytes};
ghost use Rattle.crush_input.specs.Notes.{AreNotesOfFault};
ghost use Rattle.crush_input.specs.Options.{AreNotesForOptions};
ghost use Rattle.crush_input.specs.Origins.{job_origin, origin_of};
ghost use Rattle.crush_input.specs.Stages.{IsNoJob, IsReadFault, IsParsedJob};
ghost use Rattle.crush_units.specs.declared.limits.TheConstants.{LONGEST_JOB, MOST_OPERATORS};

use crate::aborted::{Aborted, ParsedJob};
use crate::fault::RunFault;
use crate::files::Opens;
use crate::input::{Joined, read_all};
use crate::notes::{parsed_job, stopped_by};
use crate::origins::{Origins, first_name};
use crush_map::Hashing;
use crush_options::Options;
use crush_script::read_job;
use std::hash::RandomState;
use std::io::Read;
use std::random::RandomSource;

/// Returns the hashing of names with random keys from the system. If the system provides no keys,
/// returns hashing without keys.
pub(crate) fn drawn_hashing<H: RandomSource>(rt: &H) -> Hashing {
    match RandomState::new(rt) {
        Ok(keys) => Hashing::keyed(keys),
        Err(_) => Hashing::plain(),
    }
}

/// Parses the bytes of a job. `origins` says from which file each line of the job comes.
///
/// With `explain`, the result also has the bytes, and notes on the map's text: a warning if the
/// text has carriage returns and no line feed, and a line for each bucket whose weight in the text
/// isn't the sum of the weights of the devices below the bucket.
///
/// If the bytes aren't a job, the function fails with [`RunFault::Job`]. Then with `explain`, notes
/// say where the fault is, and why it is one. If memory runs out, the function fails with
/// [`RunFault::Memory`], without notes.
pub fn job_of<'a, H: AllocGlobal + RandomSource>(
    rt: &H,
    explain: bool,
    origins: Origins<'a>,
    bytes: Vec<u8>,
) -> Result<ParsedJob<'a>, Aborted>
    ensures job { IfOk result (λ _. HasJob bytes.items) }
    ensures only { (job : JobData) → IsJob bytes.items job
        → IfOk result (IsParsedJob explain (origin_of origins.entry) bytes.items job) }
    ensures plain { IfOk result (λ read. explain ≡ false → read.text.weights.items ≡ []) }
    ensures short { IfOk result (λ read. length read.text.bytes.items ≤ LONGEST_JOB) }
    ensures fault { IfErr result (λ aborted. IsNoJob (Some bytes.items) aborted.fault) }
    ensures noted { IfErr result (λ aborted. AreNotesOfFault explain (origin_of origins.entry)
        (Some bytes.items) aborted.fault aborted.notes.items) }
    ensures few { IfOk result (λ read. length read.job.scripts.items ≤ MOST_OPERATORS) }
{
    let alloc = rt.alloc();
    let text = bytes.as_slice();
    let job = match read_job(alloc, drawn_hashing(rt), text) {
        Ok(job) => job,
        Err(fault) => return Err(stopped_by(alloc, explain, &origins, text, fault)),
    };
    match parsed_job(alloc, explain, origins, bytes, job) {
        Ok(read) => Ok(read),
        Err(_) => Err(Aborted::without_notes(alloc, RunFault::Memory)),
    }
}

/// Reads and parses a job: the file that the options name, followed by the scripts in the further
/// files that the options name.
///
/// If the options name no file for the job, the job is read from `input`. At most 16,777,217 bytes
/// are read from `input`, and none if the options name a file. If a file or `input` can't be opened
/// or read, the function fails with [`RunFault::Read`]. With `explain`, a note about such a file
/// has the file's name and the system's reason. If everything can be read, the function fails in
/// the cases in which [`job_of`] fails.
pub fn read_whole<'a, H: AllocGlobal + RandomSource, F: Opens, R: Read>(
    rt: &H,
    files: &F,
    options: &'a Options,
    input: &mut R,
) -> Result<ParsedJob<'a>, Aborted>
    ensures job { IfOk result (λ _.
        IfSome (job_bytes (F.content files.now) options.now (R.remaining input.old)) HasJob) }
    ensures only { (bytes : List ℕ) (job : JobData)
        → job_bytes (F.content files.now) options.now (R.remaining input.old) ≡ Some bytes
        → IsJob bytes job → IfOk result (IsParsedJob options.now.mode.explain
        (job_origin (F.content files.now) options.now (R.remaining input.old)) bytes job) }
    ensures plain { IfOk result (λ read. options.now.mode.explain ≡ false
        → read.text.weights.items ≡ []) }
    ensures short { IfOk result (λ read. length read.text.bytes.items ≤ LONGEST_JOB) }
    ensures few { IfOk result (λ read. length read.job.scripts.items ≤ MOST_OPERATORS) }
    ensures input { options.now.file ≢ None → R.remaining input.new ≡ R.remaining input.old }
    ensures taken { TakesFew (R.remaining input.old) (R.remaining input.new) }
    ensures fault { IfErr result (λ aborted. IsReadFault
        (job_bytes (F.content files.now) options.now (R.remaining input.old)) aborted.fault) }
    ensures noted { IfErr result (λ aborted. AreNotesForOptions (F.content files.now) options.now
        (R.remaining input.old) (Err aborted.fault) aborted.notes.items) }
{
    let Joined { bytes, spans } = read_all(rt.alloc(), files, options, input)?;
    let origins = Origins {
        first: first_name(options),
        spans,
    };
    job_of(rt, options.mode.explain, origins, bytes)
}
