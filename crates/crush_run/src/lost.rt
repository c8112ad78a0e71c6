//! The changes of operators that a run has lost.

ghost use Rattle.std.specs.Prelude.{◌≡◌, ◌&&◌, IfOk, List, is_some, true};
ghost use Rattle.crush_model.specs.Stands.{Stands};
ghost use Rattle.crush_model.specs.Table.{Row};
ghost use Rattle.crush_edits.specs.Setting.{SettingData};
ghost use Rattle.crush_history.specs.HistoryText.{names_of};
ghost use Rattle.crush_history.specs.Script.{scripts_data};
ghost use Rattle.crush_input.specs.Lost.{lost_data};
ghost use Rattle.crush_input.specs.Notes.{IsKept};
ghost use Rattle.crush_run.specs.Lost.{AreLost, line_count, looks_for_conflicts};

use crush_conflicts::lost_changes;
use crush_history::{Entry, Script};
use crush_input::LostChanges;
use crush_map::CrushMap;
use std::alloc::{AllocError, Global};

fn are_both(first: bool, second: bool) -> bool
    ensures { result ≡ (first && second) }
{
    first && second
}

/// Whether the run looks for lost changes. A run with only one script doesn't look for them,
/// because no other script can undo the changes of this script.
fn looks_for_conflicts(conflicts: bool, scripts: &[Script]) -> bool
    ensures { result ≡ looks_for_conflicts conflicts (names_of (scripts_data scripts.now)) }
{
    are_both(conflicts, scripts.len() > 1)
}

/// Returns the number of lines of a text: the number of its line feeds.
fn count_lines(text: &[u8]) -> usize
    ensures { result ≡ line_count text.now }
{
    let mut count: usize = 0;
    for byte in text {
        if *byte == b'\n' {
            count += 1;
        }
    }
    count
}

/// Returns the lost changes of a run, or none if the run doesn't look for them.
///
/// `opening` is the map before the run. If `conflicts` is set, `opening` must not be `None`. `map`
/// is the map after the run, in which the operators of `scripts` made the calls of `entries`. An
/// `Err` says that memory ran out.
pub(crate) fn lost_if_requested(
    alloc: Global,
    conflicts: bool,
    opening: &Option<CrushMap<Global>>,
    map: &CrushMap<Global>,
    scripts: &[Script],
    entries: &[Entry],
) -> Result<LostChanges, AllocError>
    requires { conflicts ≡ true → is_some opening.now ≡ true }
    ensures { IfOk result (λ lost. (s : SettingData) (t z : List Row)
        → (conflicts ≡ true → IsKept opening.now s t) → Stands map.now.forest z
        → AreLost conflicts s t (names_of (scripts_data scripts.now)) entries.now z (lost_data lost)) }
{
    if !looks_for_conflicts(conflicts, scripts) {
        return Ok(LostChanges {
            count: 0,
            lines: Vec::new(alloc),
        });
    }
    let Some(opening) = opening else {
        unreachable!()
    };
    let lines = lost_changes(alloc, opening, map, scripts, entries)?;
    let count = count_lines(lines.as_slice());
    Ok(LostChanges { count, lines })
}
