//! Runs the job that a command line selects.

ghost use Rattle.std.specs.Prelude.{◌≡◌, ◌≢◌, ℕ, List, None, Some, IfOk, IfErr, IfSome};
ghost use Rattle.std.specs.Io.KnownBytes.{Keeps};
ghost use Rattle.crush_script.specs.Job.{HasJob, IsJob, JobData};
ghost use Rattle.crush_input.specs.Input.{TakesFew, job_bytes};
ghost use Rattle.crush_input.specs.Options.{AreNotesForOptions};
ghost use Rattle.crush_input.specs.Origins.{job_origin};
ghost use Rattle.crush_run.specs.Options.{EndsAsOptionsSay, IsOptionsFault};

use crate::ending::Ending;
use crate::gate::NoGate;
use crate::run::run_parsed_job;
use crush_input::{Opens, Request, RunFault, output_of, read_whole};
use crush_options::Options;
use std::io::{Read, Write};
use std::random::RandomSource;
use std::sync::Wait;
use std::thread::Threads;

/// Runs a job as [`run_job`](crate::run_job) does. The job is read from the file that the options
/// name, or from `input` if they name no file. If they name a file, nothing is read from `input`.
/// The scripts of further files are appended to the job. With these scripts, the job may have at
/// most 16,777,216 bytes. If a file or `input` can't be opened or read, the fault is
/// [`RunFault::Read`].
///
/// If the options have `--since` or `--to`, the map of this option is read after the job, from a
/// file of at most 16,777,216 bytes. If this file can't be read, is longer, or isn't the text of a
/// map, the fault is [`RunFault::SecondMap`]. The other faults are those of
/// [`run_job`](crate::run_job).
///
/// Before a script of a further file is appended, a line feed is added if the job so far doesn't
/// end in a line feed. The line `%operator NAME` is added too, unless the script already begins
/// with a line that starts with `%`. (Empty lines and comments before that line don't count.) NAME
/// is the last part of the file's path, up to its first `.`. If NAME isn't a valid operator name,
/// the line is `%operator` alone, which the parser rejects as
/// [`BadLine`](crush_script::JobFault::BadLine). If scripts come from files, the notes about a
/// fault give the place of the fault in the file that has it.
pub fn run_options<H, F, R, W>(
    rt: &H,
    files: &F,
    options: &Options,
    input: &mut R,
    writer: &mut W,
) -> Ending
where
    H: AllocGlobal + RandomSource + Threads + Wait + Sync,
    F: Opens,
    R: Read,
    W: Write,
    ensures job { IfOk result.outcome (λ _.
        IfSome (job_bytes (F.content files.now) options.now (R.remaining input.old)) HasJob) }
    ensures output { (bytes : List ℕ) (job : JobData)
        → job_bytes (F.content files.now) options.now (R.remaining input.old) ≡ Some bytes
        → IsJob bytes job
        → EndsAsOptionsSay (F.content files.now) options.now
        (job_origin (F.content files.now) options.now (R.remaining input.old)) bytes job result.outcome
        (W.contents writer.old) (W.contents writer.new) result.notes.items }
    ensures fault { IfErr result.outcome (IsOptionsFault (F.content files.now) options.now
        (job_bytes (F.content files.now) options.now (R.remaining input.old))) }
    ensures input { options.now.file ≢ None → R.remaining input.new ≡ R.remaining input.old }
    ensures taken { TakesFew (R.remaining input.old) (R.remaining input.new) }
    ensures nothing { IfErr result.outcome (λ fault. fault ≢ RunFault.Write
        → Keeps (W.contents writer.old) (W.contents writer.new)) }
    ensures noted { AreNotesForOptions (F.content files.now) options.now (R.remaining input.old)
        result.outcome result.notes.items }
{
    let job = match read_whole(rt, files, options, input) {
        Ok(job) => job,
        Err(aborted) => return Ending::of_aborted(aborted),
    };
    let mode = options.mode;
    let output = match output_of(rt, files, mode.explain, &options.output_spec) {
        Ok(output) => output,
        Err(aborted) => return Ending::of_aborted(aborted),
    };
    run_parsed_job(rt, &NoGate, &Request { mode, output }, job, writer)
}
