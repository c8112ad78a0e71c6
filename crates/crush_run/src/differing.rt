//! Decides the exit status for `--exit-code`: whether a run has a change or a difference to report.

ghost use Rattle.std.specs.Prelude.{◌≡◌, ◌≤◌, ◌&&◌, List, IfOk, length, true};
ghost use Rattle.crush_input.specs.Options.{name_text};
ghost use Rattle.crush_model.specs.Forest.{rows_of};
ghost use Rattle.crush_model.specs.Stands.{Stands};
ghost use Rattle.crush_model.specs.Table.{Row};
ghost use Rattle.crush_since.specs.Since.{plain_map};
ghost use Rattle.crush_plan.specs.Plan.{plan_data};
ghost use Rattle.crush_run.specs.Run.{differs_of, has_changed, is_changed_by_id};
ghost use Rattle.crush_units.specs.declared.limits.TheConstants.{MOST_ENTRIES};

use crate::completed_run::CompletedRun;
use crate::finding::{name_of, named_item};
use crush_history::count_changes;
use crush_input::{OldMap, Output, Request};
use crush_map::CrushMap;
use crush_since::{is_changed, is_changed_by_name, is_part_changed};
use crush_units::ItemId;
use std::alloc::{AllocError, Global};

fn is_changed_by_id(
    alloc: Global,
    under: Option<ItemId>,
    old: &CrushMap<Global>,
    map: &CrushMap<Global>,
) -> Result<bool, AllocError>
    ensures { IfOk result (λ is_listed. (t : List Row) → Stands map.now.forest t
        → is_listed ≡ is_changed_by_id under (plain_map old.now.setting (rows_of old.now.forest))
        (plain_map map.now.setting t)) }
{
    old.forest().recall_invariant();
    match under {
        Some(item) => is_part_changed(alloc, old, map, item),
        None => is_changed(alloc, old, map),
    }
}

fn is_named_changed(alloc: Global, old: &OldMap, map: &CrushMap<Global>) -> Result<bool, AllocError>
    ensures { IfOk result (λ is_listed. (t : List Row) → Stands map.now.forest t
        → is_listed ≡ has_changed true (name_text old.now.under)
        (plain_map old.now.map.setting (rows_of old.now.map.forest)) (plain_map map.now.setting t)) }
{
    old.map.forest().recall_invariant();
    is_changed_by_name(alloc, name_of(&old.under), &old.map, map)
}

fn has_changed(alloc: Global, old: &OldMap, map: &CrushMap<Global>) -> Result<bool, AllocError>
    ensures { IfOk result (λ is_listed. (t : List Row) → Stands map.now.forest t
        → is_listed ≡ has_changed old.now.by_name (name_text old.now.under)
        (plain_map old.now.map.setting (rows_of old.now.map.forest)) (plain_map map.now.setting t)) }
{
    if old.by_name {
        return is_named_changed(alloc, old, map);
    }
    let under = named_item(name_of(&old.under), map);
    is_changed_by_id(alloc, under, &old.map, map)
}

/// Whether there is something to report. If the output is what has changed since another map, there
/// is something to report if anything has changed. If this output is restricted to an item
/// (`--under`), only changes of this item count, and changes of the items that are or were below
/// it. The type `--down-to` and the class `--class` don't matter. If the output is a plan, there is
/// something to report if the plan has an edit, or if differences remain after the plan. With any
/// other output, there is something to report if a call has changed the map.
fn differs(alloc: Global, output: &Output, completed: &CompletedRun<'_>) -> Result<bool, AllocError>
    requires { length completed.now.entries.now ≤ MOST_ENTRIES }
    ensures { IfOk result (λ differs. (t : List Row) → Stands completed.now.map.now.forest t
        → differs ≡ differs_of output.now (plan_data completed.now.plan.now) completed.now.map.now.setting t
        completed.now.entries.now) }
{
    match output {
        Output::Since(old) => has_changed(alloc, old, completed.map),
        Output::Changes(old) => {
            let under = named_item(name_of(&old.part.under), completed.map);
            is_changed_by_id(alloc, under, &old.map, completed.map)
        }
        Output::To(_) => {
            let (edits, rest) = (
                completed.plan.edits.as_slice(),
                completed.plan.rest.as_slice(),
            );
            Ok(!edits.is_empty() || !rest.is_empty())
        }
        Output::Map | Output::Tree(_) | Output::AsCeph => Ok(count_changes(completed.entries) > 0),
    }
}

/// Whether there is something to report, as [`differs`] says. Returns `false` if the request
/// doesn't have `exit_code`.
pub(crate) fn differs_if_requested(
    alloc: Global,
    request: &Request,
    completed: &CompletedRun<'_>,
) -> Result<bool, AllocError>
    requires { length completed.now.entries.now ≤ MOST_ENTRIES }
    ensures { IfOk result (λ differs. (t : List Row) → Stands completed.now.map.now.forest t
        → differs ≡ (request.now.mode.exit_code && differs_of request.now.output
        (plan_data completed.now.plan.now) completed.now.map.now.setting t completed.now.entries.now)) }
{
    if request.mode.exit_code {
        return differs(alloc, &request.output, completed);
    }
    Ok(false)
}
