//! The map that results if only the script of one operator runs.

ghost use Rattle.std.specs.Prelude.{◌≡◌, IfOk, List, OnOk};
ghost use Rattle.crush_model.specs.Table.{Row};
ghost use Rattle.crush_edits.specs.Setting.{SettingData};
ghost use Rattle.crush_map.specs.MapData.{MapStands};
ghost use Rattle.crush_conflicts.specs.Alone.{expected_changes, table_after_call, table_after_entry, table_of_operator};

use crush_history::{Call, Entry, make_call};
use crush_map::CrushMap;
use std::alloc::{AllocError, Allocator};

/// Returns the map that results if only the calls of one operator are applied to a copy of `map`.
///
/// `entries` are the entries of a history, which also has the calls of other operators. `operator`
/// is the operator's index in this history, from 0. The operator's calls are applied in the order
/// of the history. A call that is refused changes nothing. A guarded batch is applied as if it were
/// a batch without a guard, because the number in the guard counts the changes of all operators.
/// The function fails only if memory runs out.
pub fn map_alone<A: Allocator + Clone>(
    map: &CrushMap<A>,
    operator: usize,
    entries: &[Entry],
) -> Result<CrushMap<A>, AllocError>
    ensures { IfOk result (λ alone. (s : SettingData) (t : List Row) → MapStands map.now s t
        → MapStands alone s (table_of_operator s t entries.now operator)) }
{
    let mut alone = map.try_copy()?;
    for entry in entries {
        make_if_own(&mut alone, operator, entry)?;
    }
    Ok(alone)
}

/// Applies the call of an entry to the map if this operator made the call. Otherwise changes
/// nothing.
fn make_if_own<A: Allocator + Clone>(
    map: &mut CrushMap<A>,
    operator: usize,
    entry: &Entry,
) -> Result<(), AllocError>
    ensures { OnOk result ((s : SettingData) (t : List Row) → MapStands map.old s t
        → MapStands map.new s (table_after_entry s t operator entry.now)) }
{
    if entry.operator == operator {
        make_alone(map, &entry.call)
    } else {
        Ok(())
    }
}

/// Applies a call to the map of one operator. A guarded batch is applied as if it had no guard.
fn make_alone<A: Allocator + Clone>(map: &mut CrushMap<A>, call: &Call) -> Result<(), AllocError>
    ensures { OnOk result ((s : SettingData) (t : List Row) → MapStands map.old s t
        → MapStands map.new s (table_after_call s t call.now)) }
{
    make_call(map, expected_changes(call), call)?;
    Ok(())
}

/// Returns the number of earlier changes with which a call must be applied, so that it isn't
/// refused as stale. For a guarded batch, this is the number in the guard. For the other calls, the
/// number doesn't matter.
fn expected_changes(call: &Call) -> u32
    ensures { result ≡ expected_changes call.now }
{
    match call {
        Call::One(_) => 0,
        Call::Batch(_) => 0,
        Call::Guarded { seen, edits: _ } => *seen,
    }
}
