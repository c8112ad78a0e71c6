//! Writes the notes of a run: the lines that follow the first line on standard error.

ghost use Rattle.std.specs.Prelude.{◌≡◌, ◌≤◌, List, [], IfErr, IfOk, false, is_some, length, true};
ghost use Rattle.crush_model.specs.Stands.{Stands};
ghost use Rattle.crush_model.specs.Table.{Row};
ghost use Rattle.crush_edits.specs.Setting.{SettingData};
ghost use Rattle.crush_history.specs.Entries.{AreOf};
ghost use Rattle.crush_history.specs.HistoryText.{names_of};
ghost use Rattle.crush_history.specs.Script.{scripts_data};
ghost use Rattle.crush_script.specs.Job.{IsJobFault, JobData, JobStands};
ghost use Rattle.crush_script.specs.Sections.{lines_data};
ghost use Rattle.crush_input.specs.Notes.{AreNotesOfFault, AreNotesOfFile, IsKept, IsNoteOfUnreadFile, bytes_kept, history_notes, place_notes, refused_notes, text_data, weight_notes, IsStrict};
ghost use Rattle.crush_reasons.specs.Explained.{explained_job};
ghost use Rattle.crush_input.specs.Origins.{origin_of};
ghost use Rattle.crush_input.specs.Stages.{IsInputFault, IsNoJob, IsStrictFault};
ghost use Rattle.crush_units.specs.declared.limits.TheConstants.{LONGEST_JOB, MOST_ENTRIES};

use crate::aborted::{Aborted, KeptText, ParsedJob};
use crate::fault::RunFault;
use crate::origins::Origins;
use crate::shown::put_shown;
use crush_history::{Entry, Script, count_refused, refused_text};
use crush_map::CrushMap;
use crush_options::Mode;
use crush_reasons::{JobLines, Locates, explained_job, fault_line, fault_text, written_text};
use crush_script::{Job, JobFault, map_part};
use crush_units::limits::LONGEST_JOB;
use std::alloc::{AllocError, Global};
use std::io;

/// With `strict`, checks that no call was refused.
///
/// If calls were refused, fails with [`RunFault::Refused`], which has their number. Without
/// `strict`, the function always succeeds.
pub fn check_strict(strict: bool, entries: &[Entry]) -> Result<(), RunFault>
    requires { length entries.now ≤ MOST_ENTRIES }
    ensures strict { IsStrict strict entries.now result }
    ensures fault { IfErr result IsStrictFault }
{
    if !strict {
        return Ok(());
    }
    let count = count_refused(entries);
    if count == 0 {
        return Ok(());
    }
    Err(RunFault::Refused(count))
}

/// The calls of a run, and the map before them.
#[derive(Clone, Copy)]
pub struct History<'a> {
    /// The map before the first call. With `explain`, this must not be `None`, because the map is
    /// needed to find the reasons for refusals and the hints for created buckets.
    pub opening: &'a Option<CrushMap<Global>>,
    /// The scripts from which the calls come.
    pub scripts: &'a [Script],
    /// The calls with their replies, in the order in which they were made.
    pub entries: &'a [Entry],
}

/// Returns the notes on a run's history. The lines of the refused calls come first. Then come the
/// notes on the map's text, which are stored in the field `weights` of `text`. If the job was
/// parsed without `explain`, this field is empty.
///
/// With `explain`, the reason for the refusal follows after the line of each refused call. Without
/// `explain`, the notes of a strict run have the lines of the refused calls without reasons, and
/// the notes of any other run don't have these lines. The function fails only if memory runs out.
pub fn history_notes(
    alloc: Global,
    mode: Mode,
    history: History<'_>,
    text: &KeptText<'_>,
) -> Result<Vec<u8>, AllocError>
    requires few { length history.entries.now ≤ MOST_ENTRIES }
    requires operators { AreOf (length history.scripts.now) history.entries.now }
    requires kept { mode.explain ≡ true → is_some history.opening.now ≡ true }
    ensures { IfOk result (λ lines. (s : SettingData) (t : List Row)
        → (mode.explain ≡ true → IsKept history.entry.opening.now s t) → lines.items
        ≡ history_notes mode (text_data text.now) s t
        (names_of (scripts_data history.entry.scripts.now)) history.entry.entries.now) }
{
    let mut lines = refused_notes(alloc, mode, history, text)?;
    lines.extend_from_slice(text.weights.as_slice())?;
    Ok(lines)
}

/// Returns the lines of the refused calls, with reasons if `explain` is set. Without `explain`, the
/// lines have no reasons, and only a strict run has them.
fn refused_notes(
    alloc: Global,
    mode: Mode,
    history: History<'_>,
    text: &KeptText<'_>,
) -> Result<Vec<u8>, AllocError>
    requires few { length history.entries.now ≤ MOST_ENTRIES }
    requires operators { AreOf (length history.scripts.now) history.entries.now }
    requires kept { mode.explain ≡ true → is_some history.opening.now ≡ true }
    ensures { IfOk result (λ lines. (s : SettingData) (t : List Row)
        → (mode.explain ≡ true → IsKept history.entry.opening.now s t) → lines.items
        ≡ refused_notes mode (text_data text.now) s t
        (names_of (scripts_data history.entry.scripts.now)) history.entry.entries.now) }
{
    if mode.explain {
        return reasons_of(alloc, history, text);
    }
    if mode.strict {
        return refused_text(alloc, history.scripts, history.entries);
    }
    Ok(Vec::new(alloc))
}

fn reasons_of(
    alloc: Global,
    history: History<'_>,
    text: &KeptText<'_>,
) -> Result<Vec<u8>, AllocError>
    requires few { length history.entries.now ≤ MOST_ENTRIES }
    requires operators { AreOf (length history.scripts.now) history.entries.now }
    requires kept { is_some history.opening.now ≡ true }
    ensures { IfOk result (λ lines. (s : SettingData) (t : List Row)
        → IsKept history.entry.opening.now s t → lines.items
        ≡ explained_job (origin_of text.now.origins) (lines_data text.now.lines.items) s t
        (names_of (scripts_data history.entry.scripts.now)) history.entry.entries.now) }
{
    let Some(opening) = history.opening else {
        unreachable!()
    };
    let opening = opening.try_copy()?;
    let lines = JobLines {
        edits: text.lines.as_slice(),
        origins: &text.origins,
    };
    explained_job(alloc, lines, opening, history.scripts, history.entries)
}

/// Returns a line for each bucket whose weight in the map's text isn't the sum of the weights of
/// the devices below it. If the text has carriage returns and no line feed, a warning comes before
/// these lines. Without `explain`, returns nothing.
fn weight_notes(
    alloc: Global,
    explain: bool,
    bytes: &[u8],
    map: &CrushMap<Global>,
) -> Result<Vec<u8>, AllocError>
    ensures lines { IfOk result (λ text. (t : List Row) → Stands map.now.forest t
        → text.items ≡ weight_notes explain bytes.now t) }
    ensures plain { IfOk result (λ text. explain ≡ false → text.items ≡ []) }
{
    if explain {
        return written_text(alloc, map, map_part(bytes));
    }
    Ok(Vec::new(alloc))
}

fn bytes_kept(alloc: Global, explain: bool, bytes: Vec<u8>) -> Vec<u8>
    ensures { result.items ≡ bytes_kept explain bytes.items }
{
    if explain {
        return bytes;
    }
    Vec::new(alloc)
}

pub(crate) fn parsed_job<'a>(
    alloc: Global,
    explain: bool,
    origins: Origins<'a>,
    bytes: Vec<u8>,
    job: Job,
) -> Result<ParsedJob<'a>, AllocError>
    ensures job { IfOk result (λ read. (said : JobData) → JobStands job said
        → JobStands read.job said) }
    ensures scripts { IfOk result (λ read. read.job.scripts ≡ job.scripts) }
    ensures lines { IfOk result (λ read. read.text.lines ≡ job.lines) }
    ensures bytes { IfOk result (λ read. read.text.bytes.items ≡ bytes_kept explain bytes.items) }
    ensures origins { IfOk result (λ read. read.text.origins ≡ origins.entry) }
    ensures weights { IfOk result (λ read. (t : List Row) → Stands job.map.forest t
        → read.text.weights.items ≡ weight_notes explain bytes.items t) }
    ensures plain { IfOk result (λ read. explain ≡ false → read.text.weights.items ≡ []) }
{
    let weights = weight_notes(alloc, explain, bytes.as_slice(), &job.map)?;
    let Job {
        map,
        adjusted,
        scripts,
        lines,
    } = job;
    let text = KeptText {
        lines,
        bytes: bytes_kept(alloc, explain, bytes),
        origins,
        weights,
    };
    let job = Job {
        map,
        adjusted,
        scripts,
        lines: Vec::new(alloc),
    };
    Ok(ParsedJob { job, text })
}

fn unread_text(alloc: Global, name: &str, error: &io::Error) -> Result<Vec<u8>, AllocError>
    ensures { IfOk result (λ text. IsNoteOfUnreadFile name.now text.items) }
{
    let reason = format!(in alloc; "{error}")?;
    let mut text = Vec::new(alloc);
    text.extend_from_slice(b"  ")?;
    put_shown(name.as_bytes(), &mut text).map_err(|_| AllocError)?;
    text.extend_from_slice(b": ")?;
    text.extend_from_slice(reason.as_bytes())?;
    text.extend_from_slice(b"\n")?;
    Ok(text)
}

/// Returns the note about a file that can't be opened, read or replaced. The note has the file's
/// name and the system's reason. Without `explain`, returns no bytes.
pub fn file_notes(
    alloc: Global,
    explain: bool,
    name: &str,
    error: &io::Error,
) -> Result<Vec<u8>, AllocError>
    ensures plain { IfOk result (λ text. explain ≡ false → text.items ≡ []) }
    ensures told { IfOk result (λ text. explain ≡ true → IsNoteOfUnreadFile name.now text.items) }
{
    if explain {
        return unread_text(alloc, name, error);
    }
    Ok(Vec::new(alloc))
}

pub(crate) fn unread(alloc: Global, explain: bool, name: &str, error: io::Error) -> Aborted
    ensures fault { IsInputFault result.fault }
    ensures noted { AreNotesOfFile explain name.now result.fault result.notes.items }
{
    match file_notes(alloc, explain, name, &error) {
        Ok(notes) => Aborted {
            fault: RunFault::Read,
            notes,
        },
        Err(_) => Aborted::without_notes(alloc, RunFault::Memory),
    }
}

fn job_prefix(bytes: &[u8]) -> &[u8]
    ensures few { length result.now ≤ LONGEST_JOB }
    ensures whole { length bytes.now ≤ LONGEST_JOB → bytes.now ≡ result.now }
{
    if bytes.len() <= LONGEST_JOB {
        return bytes;
    }
    bytes.split_at(LONGEST_JOB).0
}

/// Returns the notes on a fault of a job. Without `explain`, returns nothing. If the job is too
/// long, the function uses only the first 16 MiB of the job. This makes no difference, because the
/// note on this fault is a sentence that shows no part of the job.
fn place_notes(
    alloc: Global,
    explain: bool,
    origins: &Origins<'_>,
    bytes: &[u8],
    fault: JobFault,
) -> Result<Vec<u8>, AllocError>
    requires { IsJobFault bytes.now fault }
    ensures { IfOk result (λ text. text.items
        ≡ place_notes explain (origin_of origins.now) bytes.now fault) }
{
    if explain {
        let bytes = job_prefix(bytes);
        let origin = origins.at(fault_line(bytes, fault));
        return fault_text(alloc, origin, bytes, fault);
    }
    Ok(Vec::new(alloc))
}

/// Returns the fault of a run whose bytes aren't a job, with the notes on the fault. If there is no
/// memory for the notes, the returned fault is that memory ran out.
pub(crate) fn stopped_by(
    alloc: Global,
    explain: bool,
    origins: &Origins<'_>,
    bytes: &[u8],
    fault: JobFault,
) -> Aborted
    requires { IsJobFault bytes.now fault }
    ensures fault { IsNoJob (Some bytes.now) result.fault }
    ensures noted { AreNotesOfFault explain (origin_of origins.now) (Some bytes.now) result.fault
        result.notes.items }
{
    if fault.lacks_memory() {
        return Aborted::without_notes(alloc, RunFault::Memory);
    }
    match place_notes(alloc, explain, origins, bytes, fault) {
        Ok(notes) => Aborted {
            fault: RunFault::Job(fault),
            notes,
        },
        Err(_) => Aborted::without_notes(alloc, RunFault::Memory),
    }
}
