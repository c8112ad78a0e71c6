//! The changes of operators that a run has lost: whether they end the run, and the notes about
//! them.

ghost use Rattle.std.specs.Prelude.{◌≡◌, ◌++◌, ◌≤◌, IfErr, IfOk, List, OnOk, is_some, length, true};
ghost use Rattle.crush_model.specs.Table.{Row};
ghost use Rattle.crush_edits.specs.Setting.{SettingData};
ghost use Rattle.crush_history.specs.Entries.{AreOf};
ghost use Rattle.crush_history.specs.HistoryText.{names_of};
ghost use Rattle.crush_history.specs.Script.{scripts_data};
ghost use Rattle.crush_input.specs.Lost.{IsConflictsFault, IsLossless, conflict_notes, lost_data};
ghost use Rattle.crush_input.specs.Notes.{IsKept, created_notes};
ghost use Rattle.crush_input.specs.Report.{conflicts_line};
ghost use Rattle.crush_units.specs.declared.limits.TheConstants.{MOST_ENTRIES};

use crate::ending::write_conflicts;
use crate::fault::RunFault;
use crate::made::push_created;
use crate::notes::History;
use crush_options::Mode;
use std::alloc::{AllocError, Global};

/// The lost changes of a run: changes that an operator's script makes if it runs alone, and that
/// the map after the run doesn't have.
#[derive(Debug, Drop)]
pub struct LostChanges {
    /// How many items have a lost change.
    pub count: usize,
    /// A line for each of these items.
    pub lines: Vec<u8>,
}

/// With `conflicts`, checks that no change is lost.
///
/// If changes are lost, fails with [`RunFault::Conflicts`], which has the number of items that have
/// a lost change. Without `conflicts`, the function always succeeds.
pub fn check_lost(conflicts: bool, lost: &LostChanges) -> Result<(), RunFault>
    ensures lossless { IsLossless conflicts (lost_data lost.now) result }
    ensures fault { IfErr result (IsConflictsFault conflicts) }
{
    if !conflicts || lost.count == 0 {
        return Ok(());
    }
    Err(RunFault::Conflicts(lost.count))
}

/// Appends the line with the number of items that have a lost change.
fn push_conflicts_line(count: usize, text: &mut Vec<u8>) -> Result<(), AllocError>
    ensures { OnOk result (text.new.items ≡ text.old.items ++ conflicts_line count) }
{
    write_conflicts(count, text).map_err(|_| AllocError)
}

/// If changes are lost, appends the line with the number of items that have a lost change, and then
/// the lines of these items.
fn push_conflicts(lost: &LostChanges, text: &mut Vec<u8>) -> Result<(), AllocError>
    ensures { OnOk result (text.new.items ≡ text.old.items
        ++ conflict_notes (lost_data lost.now)) }
{
    if lost.count == 0 {
        return Ok(());
    }
    push_conflicts_line(lost.count, text)?;
    text.extend_from_slice(lost.lines.as_slice())
}

/// Returns `notes`. If changes are lost, the line with the number of items that have a lost change
/// follows after `notes`, and then the lines of these items. The function fails only if memory runs
/// out.
pub fn notes_with_lost(
    alloc: Global,
    notes: &[u8],
    lost: &LostChanges,
) -> Result<Vec<u8>, AllocError>
    ensures { IfOk result (λ text. text.items ≡ notes.now ++ conflict_notes (lost_data lost.now)) }
{
    let mut text = Vec::new(alloc);
    text.extend_from_slice(notes)?;
    push_conflicts(lost, &mut text)?;
    Ok(text)
}

/// Returns the notes of a run that ended because of refused calls. The result begins with `notes`.
/// Created buckets and lost changes can also end a run, so the notes on them follow after `notes`:
///
/// - With `no_make`, if calls created more buckets than they have `add-bucket` commands: a line
///   with the number of these calls, and the history line of each of these calls. With `explain`,
///   hints can follow after each of these history lines.
/// - If changes are lost: a line with the number of items that have a lost change, and the lines of
///   these items.
///
/// The function fails only if memory runs out.
pub fn notes_with_made_and_lost(
    alloc: Global,
    mode: Mode,
    history: History<'_>,
    notes: &[u8],
    lost: &LostChanges,
) -> Result<Vec<u8>, AllocError>
    requires few { length history.entries.now ≤ MOST_ENTRIES }
    requires operators { AreOf (length history.scripts.now) history.entries.now }
    requires kept { mode.explain ≡ true → is_some history.opening.now ≡ true }
    ensures { IfOk result (λ text. (s : SettingData) (t : List Row)
        → (mode.explain ≡ true → IsKept history.entry.opening.now s t) → text.items ≡ notes.now
        ++ (created_notes mode s t (names_of (scripts_data history.entry.scripts.now))
        history.entry.entries.now ++ conflict_notes (lost_data lost.now))) }
{
    let mut text = Vec::new(alloc);
    text.extend_from_slice(notes)?;
    push_created(alloc, mode, history, &mut text)?;
    push_conflicts(lost, &mut text)?;
    Ok(text)
}

/// Returns the lines of the items that have a lost change, followed by `notes`. The function fails
/// only if memory runs out.
pub fn lost_notes(alloc: Global, lost: &LostChanges, notes: &[u8]) -> Result<Vec<u8>, AllocError>
    ensures { IfOk result (λ text. text.items ≡ (lost_data lost.now).lines ++ notes.now) }
{
    let mut text = Vec::new(alloc);
    text.extend_from_slice(lost.lines.as_slice())?;
    text.extend_from_slice(notes)?;
    Ok(text)
}
