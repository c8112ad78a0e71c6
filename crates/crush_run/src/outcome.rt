//! Ends a run whose scripts have run: checks it, and writes its output and its notes.

ghost use Rattle.std.specs.Prelude.{◌≡◌, ◌≢◌, ◌≤◌, ◌&&◌, List, [], Err, IfErr, IfOk, false, is_some, length, true};
ghost use Rattle.std.specs.Io.KnownBytes.{Keeps};
ghost use Rattle.crush_model.specs.Stands.{Stands};
ghost use Rattle.crush_model.specs.Table.{Row};
ghost use Rattle.crush_history.specs.Entries.{AreOf};
ghost use Rattle.crush_history.specs.HistoryText.{names_of};
ghost use Rattle.crush_history.specs.Script.{scripts_data};
ghost use Rattle.crush_edits.specs.Setting.{SettingData};
ghost use Rattle.crush_input.specs.Lost.{IsLossless, lost_data};
ghost use Rattle.crush_input.specs.Notes.{IsKept, IsNoMake, IsStrict, text_data};
ghost use Rattle.crush_since.specs.Stays.{line_texts};
ghost use Rattle.crush_plan.specs.Plan.{plan_data};
ghost use Rattle.crush_run.specs.Found.{IsFound};
ghost use Rattle.crush_run.specs.Output.{IsPut, IsWritten, written_text};
ghost use Rattle.crush_run.specs.Planned.{IsWhole};
ghost use Rattle.crush_run.specs.Run.{differs_of, summed};
ghost use Rattle.crush_run.specs.Stages.{AreEndNotes, CompletedRunEnds, IsCheckFault, IsOpening, IsWritingFault, needs_opening, notes_after_fault, notes_after};
ghost use Rattle.crush_units.specs.declared.limits.TheConstants.{MOST_ENTRIES};

use crate::completed_run::CompletedRun;
use crate::differing::differs_if_requested;
use crate::document::write_document;
use crate::ending::Ending;
use crate::finding::check_found;
use crate::planned::{check_whole, whole_notes};
use crate::text::write_text;
use crush_history::count_changes;
use crush_input::{
    History, Request, RunFault, Summary, check_lost, check_made, check_strict, history_notes,
    lost_notes, made_notes, notes_with_lost, notes_with_made_and_lost,
};
use crush_options::Mode;
use crush_units::WriteFault;
use std::alloc::{AllocError, Global};
use std::io::Write;

/// The notes of a run. There are several texts because the notes depend on how the run ends.
#[derive(Drop)]
pub(crate) struct EndNotes {
    /// The notes of a run that succeeds, or ends because of a failed write or of a name that the
    /// map doesn't have. They are about the refused calls, if the run has `explain` or `strict`.
    /// With `explain`, they also have the notes on the map's text, which list the buckets whose
    /// weight in this text isn't the sum of the weights of the devices below them.
    pub(crate) calls: Vec<u8>,
    /// The notes of an end with [`RunFault::Refused`]: `calls`, followed by the calls that created
    /// buckets in spite of `no_make`, and by the lost changes.
    pub(crate) refused: Vec<u8>,
    /// The notes of an end with [`RunFault::Made`]: the calls that created more buckets than they
    /// have `add-bucket` commands, followed by `calls` and by the lost changes. They are empty if
    /// the run doesn't have `no_make`.
    pub(crate) made: Vec<u8>,
    /// The notes of an end with [`RunFault::Conflicts`]: the lost changes, followed by `calls`.
    pub(crate) conflicts: Vec<u8>,
    /// The notes of an end with [`RunFault::Differs`]: `calls`, followed by the differences that
    /// remain after the plan. They are empty if the run isn't strict.
    pub(crate) whole: Vec<u8>,
}

fn summary_of(completed: &CompletedRun<'_>, differs: bool) -> Summary
    requires { length completed.now.entries.now ≤ MOST_ENTRIES }
    ensures { result ≡ summed completed.now.adjusted differs completed.now.entries.now }
{
    Summary {
        adjusted: completed.adjusted.count(),
        calls: completed.entries.len() as u32,
        changes: count_changes(completed.entries),
        differs,
    }
}

/// Checks the conditions of the request, in this order: no call was refused, no call created more
/// buckets than it has `add-bucket` commands, no change of an operator was lost, the map has each
/// name that the output needs, and no difference remains after the plan. A condition is checked
/// only if the request has it: for example, that no call was refused is checked only with `strict`.
/// Fails with the fault of the first condition that isn't true.
fn check_conditions(request: &Request, completed: &CompletedRun<'_>) -> Result<(), RunFault>
    requires { length completed.now.entries.now ≤ MOST_ENTRIES }
    ensures fault { IfErr result (IsCheckFault request.now.mode) }
    ensures strict { IsStrict request.now.mode.strict completed.now.entries.now result }
    ensures no_make { IsNoMake request.now.mode.no_make completed.now.entries.now result }
    ensures lossless { IsLossless request.now.mode.conflicts (lost_data completed.now.lost.now) result }
    ensures found { (t : List Row) → Stands completed.now.map.now.forest t
        → IsFound request.now.output completed.now.map.now.setting t result }
    ensures whole { IsWhole request.now.mode.strict (line_texts completed.now.plan.now.rest.items) result }
{
    let mode = request.mode;
    check_strict(mode.strict, completed.entries)?;
    check_made(mode.no_make, completed.entries)?;
    check_lost(mode.conflicts, completed.lost)?;
    check_found(&request.output, completed.map)?;
    check_whole(mode.strict, completed.plan)
}

fn write_output<W: Write>(
    alloc: Global,
    request: &Request,
    completed: &CompletedRun<'_>,
    writer: &mut W,
) -> Result<(), WriteFault>
    requires few { length completed.now.entries.now ≤ MOST_ENTRIES }
    requires operators { AreOf (length completed.now.scripts.now) completed.now.entries.now }
    requires kept { needs_opening request.now.mode request.now.output ≡ true
        → is_some completed.now.opening.now ≡ true }
    ensures writes { (o t : List Row) → IsOpening request.now.mode request.now.output
        completed.now.opening.now completed.now.map.now.setting o → Stands completed.now.map.now.forest t
        → IsPut result (W.contents writer.old) (W.contents writer.new)
        (written_text request.now.mode request.now.output (plan_data completed.now.plan.now)
        completed.now.map.now.setting o t (names_of (scripts_data completed.now.scripts.now))
        completed.now.entries.now) }
    ensures none { result ≡ Err WriteFault.OutOfMemory
        → Keeps (W.contents writer.old) (W.contents writer.new) }
{
    if request.mode.json {
        return write_document(alloc, request, completed, writer);
    }
    write_text(alloc, request, completed, writer)
}

/// Checks the conditions of the request. If all of them are true, writes the output.
fn write_outcome<W: Write>(
    alloc: Global,
    request: &Request,
    completed: &CompletedRun<'_>,
    writer: &mut W,
) -> Result<Summary, RunFault>
    requires few { length completed.now.entries.now ≤ MOST_ENTRIES }
    requires operators { AreOf (length completed.now.scripts.now) completed.now.entries.now }
    requires kept { needs_opening request.now.mode request.now.output ≡ true
        → is_some completed.now.opening.now ≡ true }
    ensures writes { (o t : List Row) → IsOpening request.now.mode request.now.output
        completed.now.opening.now completed.now.map.now.setting o → Stands completed.now.map.now.forest t
        → IsWritten result (W.contents writer.old) (W.contents writer.new)
        (written_text request.now.mode request.now.output (plan_data completed.now.plan.now)
        completed.now.map.now.setting o t (names_of (scripts_data completed.now.scripts.now))
        completed.now.entries.now) }
    ensures summary { IfOk result (λ summary. (t : List Row) → Stands completed.now.map.now.forest t
        → summary ≡ summed completed.now.adjusted (request.now.mode.exit_code
        && differs_of request.now.output (plan_data completed.now.plan.now) completed.now.map.now.setting t
        completed.now.entries.now) completed.now.entries.now) }
    ensures nothing { IfErr result (λ fault. fault ≢ RunFault.Write
        → Keeps (W.contents writer.old) (W.contents writer.new)) }
    ensures fault { IfErr result (IsWritingFault request.now.mode) }
    ensures strict { IsStrict request.now.mode.strict completed.now.entries.now result }
    ensures no_make { IsNoMake request.now.mode.no_make completed.now.entries.now result }
    ensures lossless { IsLossless request.now.mode.conflicts (lost_data completed.now.lost.now) result }
    ensures found { (t : List Row) → Stands completed.now.map.now.forest t
        → IsFound request.now.output completed.now.map.now.setting t result }
    ensures whole { IsWhole request.now.mode.strict (line_texts completed.now.plan.now.rest.items) result }
{
    check_conditions(request, completed)?;
    let differs = differs_if_requested(alloc, request, completed)?;
    write_output(alloc, request, completed, writer)?;
    Ok(summary_of(completed, differs))
}

fn end_notes_of(
    alloc: Global,
    mode: Mode,
    completed: &CompletedRun<'_>,
) -> Result<EndNotes, AllocError>
    requires few { length completed.now.entries.now ≤ MOST_ENTRIES }
    requires operators { AreOf (length completed.now.scripts.now) completed.now.entries.now }
    requires kept { mode.explain ≡ true → is_some completed.now.opening.now ≡ true }
    ensures { IfOk result (λ end_notes. (s : SettingData) (o : List Row)
        → (mode.explain ≡ true → IsKept completed.now.opening.now s o)
        → AreEndNotes mode (text_data completed.now.text.now) s o (names_of (scripts_data completed.now.scripts.now))
        completed.now.entries.now (line_texts completed.now.plan.now.rest.items) (lost_data completed.now.lost.now) end_notes) }
{
    let history = History {
        opening: completed.opening,
        scripts: completed.scripts,
        entries: completed.entries,
    };
    let calls = history_notes(alloc, mode, history, completed.text)?;
    let refused = notes_with_made_and_lost(alloc, mode, history, calls.as_slice(), completed.lost)?;
    let with_lost = notes_with_lost(alloc, calls.as_slice(), completed.lost)?;
    let made = made_notes(alloc, mode, history, with_lost.as_slice())?;
    let conflicts = lost_notes(alloc, completed.lost, calls.as_slice())?;
    let whole = whole_notes(alloc, mode.strict, calls.as_slice(), completed.plan)?;
    Ok(EndNotes {
        calls,
        refused,
        made,
        conflicts,
        whole,
    })
}

fn end_by(alloc: Global, fault: RunFault, end_notes: EndNotes) -> Ending
    ensures outcome { result.outcome ≡ Err fault }
    ensures notes { result.notes.items ≡ notes_after_fault fault end_notes }
{
    let EndNotes {
        calls,
        refused,
        made,
        conflicts,
        whole,
    } = end_notes;
    match fault {
        RunFault::Write | RunFault::NoItem | RunFault::NoType | RunFault::NoClass => Ending {
            outcome: Err(fault),
            notes: calls,
        },
        RunFault::Refused(_) => Ending {
            outcome: Err(fault),
            notes: refused,
        },
        RunFault::Made(_) => Ending {
            outcome: Err(fault),
            notes: made,
        },
        RunFault::Conflicts(_) => Ending {
            outcome: Err(fault),
            notes: conflicts,
        },
        RunFault::Differs(_) => Ending {
            outcome: Err(fault),
            notes: whole,
        },
        _ => Ending::without_notes(alloc, fault),
    }
}

fn end_with(alloc: Global, outcome: Result<Summary, RunFault>, end_notes: EndNotes) -> Ending
    ensures outcome { result.outcome ≡ outcome }
    ensures notes { result.notes.items ≡ notes_after outcome end_notes }
{
    match outcome {
        Ok(summary) => {
            let EndNotes {
                calls,
                refused: _,
                made: _,
                conflicts: _,
                whole: _,
            } = end_notes;
            Ending {
                outcome: Ok(summary),
                notes: calls,
            }
        }
        Err(fault) => end_by(alloc, fault, end_notes),
    }
}

/// Creates the notes, checks the conditions of the request, and writes the output. The notes are
/// created before anything is written, so that memory can't run out for the notes after a part of
/// the output was written.
pub(crate) fn end_run<W: Write>(
    alloc: Global,
    request: &Request,
    completed: &CompletedRun<'_>,
    writer: &mut W,
) -> Ending
    requires few { length completed.now.entries.now ≤ MOST_ENTRIES }
    requires operators { AreOf (length completed.now.scripts.now) completed.now.entries.now }
    requires plain { request.now.mode.explain ≡ false → completed.now.text.now.weights.items ≡ [] }
    requires kept { needs_opening request.now.mode request.now.output ≡ true
        → is_some completed.now.opening.now ≡ true }
    ensures { CompletedRunEnds request.now.mode request.now.output (plan_data completed.now.plan.now)
        completed.now.adjusted completed.now.opening.now completed.now.map.now (lost_data completed.now.lost.now)
        (text_data completed.now.text.now)
        (names_of (scripts_data completed.now.scripts.now)) completed.now.entries.now result.outcome
        (W.contents writer.old) (W.contents writer.new) result.notes.items }
{
    let Ok(end_notes) = end_notes_of(alloc, request.mode, completed) else {
        return Ending::without_notes(alloc, RunFault::Memory);
    };
    let outcome = write_outcome(alloc, request, completed, writer);
    end_with(alloc, outcome, end_notes)
}
