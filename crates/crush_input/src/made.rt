//! The calls of a run that created more buckets than they have `add-bucket` commands: whether they
//! end the run, and the notes about them.

ghost use Rattle.std.specs.Prelude.{◌≡◌, ◌≤◌, ◌++◌, IfErr, IfOk, List, OnOk, is_some, length, true};
ghost use Rattle.crush_model.specs.Table.{Row};
ghost use Rattle.crush_edits.specs.Setting.{SettingData};
ghost use Rattle.crush_history.specs.Entries.{AreOf};
ghost use Rattle.crush_history.specs.HistoryText.{names_of};
ghost use Rattle.crush_history.specs.Script.{scripts_data};
ghost use Rattle.crush_reasons.specs.Created.{created_text};
ghost use Rattle.crush_input.specs.Notes.{IsKept, IsNoMake, created_lines, created_notes};
ghost use Rattle.crush_input.specs.Report.{made_line};
ghost use Rattle.crush_input.specs.Stages.{IsMadeFault};
ghost use Rattle.crush_units.specs.declared.limits.TheConstants.{MOST_ENTRIES};

use crate::ending::write_made;
use crate::fault::RunFault;
use crate::notes::History;
use crush_history::Entry;
use crush_options::Mode;
use crush_reasons::{count_makings, created_text, made_text};
use std::alloc::{AllocError, Global};

/// With `no_make`, checks that no call created more buckets than it has `add-bucket` commands.
///
/// If there are such calls, fails with [`RunFault::Made`], which has their number. Without
/// `no_make`, the function always succeeds.
pub fn check_made(no_make: bool, entries: &[Entry]) -> Result<(), RunFault>
    ensures made { IsNoMake no_make entries.now result }
    ensures fault { IfErr result (IsMadeFault no_make) }
{
    if !no_make {
        return Ok(());
    }
    let count = count_makings(entries);
    if count == 0 {
        return Ok(());
    }
    Err(RunFault::Made(count))
}

/// Returns the history lines of the calls that [`check_made`] counts. Hints can follow after the
/// history line of a call. [`made_notes`] says what a hint is.
fn hinted_lines(alloc: Global, history: History<'_>) -> Result<Vec<u8>, AllocError>
    requires few { length history.entries.now ≤ MOST_ENTRIES }
    requires operators { AreOf (length history.scripts.now) history.entries.now }
    requires kept { is_some history.opening.now ≡ true }
    ensures { IfOk result (λ lines. (s : SettingData) (t : List Row)
        → IsKept history.entry.opening.now s t → lines.items
        ≡ created_text s t (names_of (scripts_data history.entry.scripts.now)) history.entry.entries.now) }
{
    let Some(opening) = history.opening else {
        unreachable!()
    };
    let opening = opening.try_copy()?;
    created_text(alloc, opening, history.scripts, history.entries)
}

/// Returns the history lines of the calls that [`check_made`] counts. With `explain`, hints can
/// follow after the history line of a call.
fn created_lines(alloc: Global, explain: bool, history: History<'_>) -> Result<Vec<u8>, AllocError>
    requires few { length history.entries.now ≤ MOST_ENTRIES }
    requires operators { AreOf (length history.scripts.now) history.entries.now }
    requires kept { explain ≡ true → is_some history.opening.now ≡ true }
    ensures { IfOk result (λ lines. (s : SettingData) (t : List Row)
        → (explain ≡ true → IsKept history.entry.opening.now s t) → lines.items
        ≡ created_lines explain s t (names_of (scripts_data history.entry.scripts.now))
        history.entry.entries.now) }
{
    if explain {
        return hinted_lines(alloc, history);
    }
    made_text(alloc, history.scripts, history.entries)
}

/// Returns the history lines of the calls that [`check_made`] counts, followed by `notes`. With
/// `explain`, hints can follow after the history line of a call. A hint names an item of the map
/// whose name is similar to the name of a bucket that the call created, because the operator may
/// have meant this item.
///
/// Without `no_make`, returns no bytes. The function fails only if memory runs out.
pub fn made_notes(
    alloc: Global,
    mode: Mode,
    history: History<'_>,
    notes: &[u8],
) -> Result<Vec<u8>, AllocError>
    requires few { length history.entries.now ≤ MOST_ENTRIES }
    requires operators { AreOf (length history.scripts.now) history.entries.now }
    requires kept { mode.explain ≡ true → is_some history.opening.now ≡ true }
    ensures { IfOk result (λ lines. (s : SettingData) (t : List Row)
        → (mode.explain ≡ true → IsKept history.entry.opening.now s t)
        → mode.no_make ≡ true → lines.items
        ≡ created_lines mode.explain s t (names_of (scripts_data history.entry.scripts.now))
        history.entry.entries.now ++ notes.now) }
{
    if !mode.no_make {
        return Ok(Vec::new(alloc));
    }
    let mut lines = created_lines(alloc, mode.explain, history)?;
    lines.extend_from_slice(notes)?;
    Ok(lines)
}

/// Appends the line with the number of the calls that [`check_made`] counts.
fn push_count(count: usize, text: &mut Vec<u8>) -> Result<(), AllocError>
    ensures { OnOk result (text.new.items ≡ text.old.items ++ made_line count) }
{
    write_made(count, text).map_err(|_| AllocError)
}

/// Appends the line with the number of the calls that [`check_made`] counts, and then `lines`,
/// which are the history lines of these calls.
fn push_counted(count: usize, lines: &[u8], text: &mut Vec<u8>) -> Result<(), AllocError>
    ensures { OnOk result (text.new.items ≡ text.old.items ++ (made_line count ++ lines.now)) }
{
    push_count(count, text)?;
    text.extend_from_slice(lines)
}

/// With `no_make`, appends the line with the number of the calls that [`check_made`] counts, and
/// then the history lines of these calls. With `explain`, hints can follow after the history line
/// of a call. If there are no such calls, or without `no_make`, appends nothing.
pub(crate) fn push_created(
    alloc: Global,
    mode: Mode,
    history: History<'_>,
    text: &mut Vec<u8>,
) -> Result<(), AllocError>
    requires few { length history.entries.now ≤ MOST_ENTRIES }
    requires operators { AreOf (length history.scripts.now) history.entries.now }
    requires kept { mode.explain ≡ true → is_some history.opening.now ≡ true }
    ensures { OnOk result ((s : SettingData) (t : List Row)
        → (mode.explain ≡ true → IsKept history.entry.opening.now s t) → text.new.items
        ≡ text.old.items ++ created_notes mode s t
        (names_of (scripts_data history.entry.scripts.now)) history.entry.entries.now) }
{
    if !mode.no_make {
        return Ok(());
    }
    let count = count_makings(history.entries);
    if count == 0 {
        return Ok(());
    }
    let lines = created_lines(alloc, mode.explain, history)?;
    push_counted(count, lines.as_slice(), text)
}
