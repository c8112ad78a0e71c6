//! Runs a job that is read from a reader. [`crate::run_options`] uses functions of this module
//! after it has parsed its job.

ghost use Rattle.std.specs.Prelude.{◌≡◌, ◌≢◌, ◌≤◌, ℕ, List, [], Option, Some, IfOk, IfErr, IfSome, false, is_some, length, true};
ghost use Rattle.std.specs.Io.KnownBytes.{Keeps};
ghost use Rattle.crush_model.specs.Table.{Row};
ghost use Rattle.crush_edits.specs.Setting.{SettingData};
ghost use Rattle.crush_map.specs.MapData.{MapStands};
ghost use Rattle.crush_history.specs.Entries.{AreOf};
ghost use Rattle.crush_history.specs.HistoryText.{names_of};
ghost use Rattle.crush_script.specs.Job.{HasJob, IsJob, JobData, JobStands};
ghost use Rattle.crush_history.specs.Script.{scripts_data};
ghost use Rattle.crush_reasons.specs.Place.{OriginData};
ghost use Rattle.crush_input.specs.Input.{TakesFew};
ghost use Rattle.crush_input.specs.Notes.{AreNotesOfResult, text_data, text_of};
ghost use Rattle.crush_input.specs.Origins.{no_origin};
ghost use Rattle.crush_run.specs.Run.{Ends, IsRunFault};
ghost use Rattle.crush_run.specs.Stages.{IsOutcomeFault, IsScriptsFault, RunsScripts, needs_opening};
ghost use Rattle.crush_units.specs.declared.limits.TheConstants.{MOST_ENTRIES, MOST_OPERATORS};

use crate::at_once::run_at_once;
use crate::completed_run::CompletedRun;
use crate::ending::Ending;
use crate::gate::Gate;
use crate::in_turn::run_in_turn;
use crate::lost::lost_if_requested;
use crate::outcome::end_run;
use crate::planned::plan_if_requested;
use crush_editor::{Closed, WithoutSnapshot};
use crush_history::Script;
use crush_input::{Origins, Output, ParsedJob, Request, RunFault, job_of, read_bytes};
use crush_map::CrushMap;
use crush_script::Job;
use std::alloc::{AllocError, Global};
use std::io::{Read, Write};
use std::random::RandomSource;
use std::sync::Wait;
use std::thread::Threads;

/// Returns scripts with the names of these scripts, but without calls. A run moves the calls into
/// its history, but needs the names for its output.
fn scripts_without_calls(alloc: Global, scripts: &[Script]) -> Result<Vec<Script>, AllocError>
    ensures count { IfOk result (λ copies. length copies.items ≡ length scripts.now) }
    ensures names { IfOk result (λ copies. names_of (scripts_data copies.items)
        ≡ names_of (scripts_data scripts.now)) }
{
    let mut copies = Vec::new(alloc);
    for script in scripts {
        let name = script.name.try_copy(alloc)?;
        copies.push(Script {
            name,
            calls: Vec::new(alloc),
        })?;
    }
    Ok(copies)
}

fn copy_of(map: &CrushMap<Global>) -> Result<CrushMap<Global>, AllocError>
    ensures { IfOk result (λ copy. (s : SettingData) (t : List Row) → MapStands map.now s t
        → MapStands copy s t) }
{
    map.try_copy()
}

/// Returns a copy of the map before the scripts run, if the run needs the copy after they have run.
/// The run needs the copy to explain refusals and created buckets, to look for lost changes, and to
/// print Ceph's own commands.
fn opening_if_needed(
    request: &Request,
    map: &CrushMap<Global>,
) -> Result<Option<CrushMap<Global>>, AllocError>
    ensures kept { IfOk result (λ opening. needs_opening request.now.mode request.now.output ≡ true
        → is_some opening ≡ true) }
    ensures stands { IfOk result (λ opening. IfSome opening (λ copy. (s : SettingData)
        (t : List Row) → MapStands map.now s t → MapStands copy s t)) }
{
    let mode = request.mode;
    if mode.explain || mode.conflicts || matches!(request.output, Output::AsCeph) {
        return Ok(Some(copy_of(map)?));
    }
    Ok(None)
}

/// Runs the scripts, one after the other or at the same time. If there are no scripts, no threads
/// are created.
fn run_scripts<H: AllocGlobal + Threads + Wait + Sync, G: Gate + Sync>(
    rt: &H,
    gate: &G,
    in_turn: bool,
    map: CrushMap<Global>,
    scripts: Vec<Script>,
) -> Result<Closed<Global, WithoutSnapshot>, RunFault>
    requires few { length scripts.items ≤ MOST_OPERATORS }
    ensures runs { IfOk result (λ c.
        RunsScripts in_turn map (scripts_data scripts.items) c.map c.history.items) }
    ensures operators { IfOk result (λ c. AreOf (length scripts.items) c.history.items) }
    ensures few { IfOk result (λ c. length c.history.items ≤ MOST_ENTRIES) }
    ensures fault { IfErr result (IsScriptsFault in_turn) }
{
    let alloc = rt.alloc();
    if in_turn || scripts.is_empty() {
        return run_in_turn(rt, alloc, gate, map, scripts);
    }
    run_at_once(rt, alloc, gate, map, scripts)
}

/// Runs the scripts of a parsed job, and writes the output that the request selects.
pub(crate) fn run_parsed_job<H: AllocGlobal + Threads + Wait + Sync, G: Gate + Sync, W: Write>(
    rt: &H,
    gate: &G,
    request: &Request,
    parsed: ParsedJob<'_>,
    writer: &mut W,
) -> Ending
    requires few { length parsed.job.scripts.items ≤ MOST_OPERATORS }
    requires plain { request.now.mode.explain ≡ false → parsed.text.weights.items ≡ [] }
    ensures ends { (read : JobData) → JobStands parsed.entry.job read
        → Ends request.now.mode request.now.output read (text_data parsed.entry.text)
        result.outcome
        (W.contents writer.old) (W.contents writer.new) result.notes.items }
    ensures nothing { IfErr result.outcome (λ fault. fault ≢ RunFault.Write
        → Keeps (W.contents writer.old) (W.contents writer.new)) }
    ensures fault { IfErr result.outcome (IsOutcomeFault request.now.mode) }
    ensures noted { (origin : ℕ → OriginData) (all : Option (List ℕ))
        → AreNotesOfResult request.now.mode.explain origin all result.outcome result.notes.items }
{
    let alloc = rt.alloc();
    let ParsedJob { job, text } = parsed;
    let Job {
        map,
        adjusted,
        scripts,
        ..
    } = job;
    let Ok(named) = scripts_without_calls(alloc, scripts.as_slice()) else {
        return Ending::without_notes(alloc, RunFault::Memory);
    };
    let Ok(opening) = opening_if_needed(request, &map) else {
        return Ending::without_notes(alloc, RunFault::Memory);
    };
    let closed = match run_scripts(rt, gate, request.mode.in_turn, map, scripts) {
        Ok(closed) => closed,
        Err(fault) => return Ending::without_notes(alloc, fault),
    };
    let Closed {
        opening: WithoutSnapshot,
        map,
        history,
    } = closed;
    let Ok(plan) = plan_if_requested(alloc, &request.output, &map) else {
        return Ending::without_notes(alloc, RunFault::Memory);
    };
    let entries = history.as_slice();
    let names = named.as_slice();
    let conflicts = request.mode.conflicts;
    let Ok(lost) = lost_if_requested(alloc, conflicts, &opening, &map, names, entries) else {
        return Ending::without_notes(alloc, RunFault::Memory);
    };
    let completed = CompletedRun {
        adjusted,
        opening: &opening,
        map: &map,
        lost: &lost,
        plan: &plan,
        scripts: names,
        entries,
        text: &text,
    };
    end_run(alloc, request, &completed, writer)
}

/// Parses the bytes of a job, and runs the job.
fn run_bytes<H, G, W>(rt: &H, gate: &G, request: &Request, bytes: Vec<u8>, writer: &mut W) -> Ending
where
    H: AllocGlobal + RandomSource + Threads + Wait + Sync,
    G: Gate + Sync,
    W: Write,
    ensures job { IfOk result.outcome (λ _. HasJob bytes.items) }
    ensures output { (job : JobData) → IsJob bytes.items job
        → Ends request.now.mode request.now.output job
        (text_of request.now.mode.explain no_origin bytes.items job.table) result.outcome
        (W.contents writer.old) (W.contents writer.new) result.notes.items }
    ensures noted { AreNotesOfResult request.now.mode.explain no_origin (Some bytes.items)
        result.outcome result.notes.items }
    ensures nothing { IfErr result.outcome (λ fault. fault ≢ RunFault.Write
        → Keeps (W.contents writer.old) (W.contents writer.new)) }
    ensures fault { IfErr result.outcome (IsRunFault request.now.mode (Some bytes.items)) }
{
    match job_of(rt, request.mode.explain, Origins::none(rt.alloc()), bytes) {
        Ok(job) => run_parsed_job(rt, gate, request, job, writer),
        Err(aborted) => Ending::of_aborted(aborted),
    }
}

/// Reads a job, runs the scripts of its operators, and writes the output that the request selects.
///
/// If the request has `in_turn`, the scripts run one after the other. Then the output is a function
/// of the request and of the bytes that were read, unless the output is a plan. If the request
/// doesn't have `in_turn`, each operator has a thread of its own. Then the calls of one operator
/// are made in the order of its script, but the calls of different operators can be made in any
/// order. The gate is called before and after each call.
///
/// If the run fails, nothing was written, except after [`RunFault::Write`]. Then a proper prefix of
/// the output was written: a beginning, but not all of it. The other faults are:
///
/// - [`RunFault::Read`]: reading failed.
/// - [`RunFault::Job`]: the bytes aren't a job.
/// - [`RunFault::Thread`]: a thread couldn't be started. A run with `in_turn` starts no threads.
/// - [`RunFault::Refused`]: the request has `strict`, and a call was refused.
/// - [`RunFault::Made`]: the request has `no_make`, and a call created more buckets than it has
///   `add-bucket` commands.
/// - [`RunFault::Conflicts`]: the request has `conflicts`, the job has at least two scripts, and a
///   change is lost. A change is lost if an operator's script makes the change when the script runs
///   alone, but the map after all scripts doesn't have the change.
/// - [`RunFault::NoItem`], [`RunFault::NoType`], [`RunFault::NoClass`]: the map after the scripts
///   doesn't have the item, the type or the class that the request names. If the output is a tree
///   of what has changed, it is enough that the old map has the class.
/// - [`RunFault::Differs`]: the request has `strict`, and differences remain after the plan.
/// - [`RunFault::Memory`]: memory ran out.
///
/// The checks from `Refused` to `Differs` are made in this order, after all calls and before
/// anything is written. The run takes at most 16,777,217 bytes from the reader, and calls `read` at
/// most 16,777,217 times.
///
/// Names may come from an untrusted source, so they are hashed with random keys of the system. If
/// the system provides no keys, the names are hashed without keys. The output doesn't depend on the
/// keys.
pub fn run_job<H, G, R, W>(
    rt: &H,
    gate: &G,
    request: &Request,
    reader: &mut R,
    writer: &mut W,
) -> Ending
where
    H: AllocGlobal + RandomSource + Threads + Wait + Sync,
    G: Gate + Sync,
    R: Read,
    W: Write,
    ensures job { IfOk result.outcome (λ _. IfSome (R.remaining reader.old) HasJob) }
    ensures output { (bytes : List ℕ) (job : JobData) → R.remaining reader.old ≡ Some bytes
        → IsJob bytes job
        → Ends request.now.mode request.now.output job
        (text_of request.now.mode.explain no_origin bytes job.table) result.outcome
        (W.contents writer.old) (W.contents writer.new) result.notes.items }
    ensures noted { AreNotesOfResult request.now.mode.explain no_origin (R.remaining reader.old)
        result.outcome result.notes.items }
    ensures nothing { IfErr result.outcome (λ fault. fault ≢ RunFault.Write
        → Keeps (W.contents writer.old) (W.contents writer.new)) }
    ensures taken { TakesFew (R.remaining reader.old) (R.remaining reader.new) }
    ensures fault { IfErr result.outcome (IsRunFault request.now.mode (R.remaining reader.old)) }
{
    match read_bytes(rt.alloc(), reader) {
        Ok(bytes) => run_bytes(rt, gate, request, bytes, writer),
        Err(fault) => Ending::without_notes(rt.alloc(), fault),
    }
}
