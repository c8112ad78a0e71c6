//! Finds the plan of a run: the edits that lead from the map after the scripts toward a wanted map.

ghost use Rattle.std.specs.Prelude.{◌≡◌, ◌++◌, [], Err, IfErr, IfOk, List, true};
ghost use Rattle.std.specs.Io.KnownBytes.{Keeps};
ghost use Rattle.crush_model.specs.Stands.{Stands};
ghost use Rattle.crush_model.specs.Table.{Row};
ghost use Rattle.crush_since.specs.Stays.{line_texts, text_of_lines};
ghost use Rattle.crush_plan.specs.Plan.{plan_data};
ghost use Rattle.crush_run.specs.Output.{IsPut};
ghost use Rattle.crush_run.specs.Planned.{IsDiffersFault, IsPlanned, IsWhole, text_of_plan};

use crate::finding::name_of;
use crush_input::{Output, RunFault, TargetMap};
use crush_map::CrushMap;
use crush_plan::{Identity, Plan, ceph_plan_text, find_plan, plan_text};
use crush_since::{Counts, push_stays};
use crush_units::{WriteFault, put};
use std::alloc::{AllocError, Global};
use std::io::Write;

fn identity_of(target: &TargetMap) -> Identity {
    if target.by_name {
        Identity::Names
    } else {
        Identity::Ids
    }
}

fn no_plan(alloc: Global) -> Plan
    ensures { result.rest.items ≡ [] }
{
    Plan {
        edits: Vec::new(alloc),
        rest: Vec::new(alloc),
        aside: Counts {
            ids: 0,
            class_ids: 0,
        },
    }
}

/// Returns the plan that leads from the map toward the wanted map. If no map is wanted, returns an
/// empty plan. An `Err` says that memory ran out.
pub(crate) fn plan_if_requested(
    alloc: Global,
    output: &Output,
    map: &CrushMap<Global>,
) -> Result<Plan, AllocError>
    ensures { IfOk result (λ plan. (t : List Row) → Stands map.now.forest t
        → IsPlanned output.now map.now.setting t (plan_data plan)) }
{
    match output {
        Output::To(target) => {
            target.map.forest().recall_invariant();
            let under = name_of(&target.under);
            find_plan(alloc, identity_of(target), under, map, &target.map)
        }
        _ => Ok(no_plan(alloc)),
    }
}

/// Checks the plan of a strict run: the function fails if the run is strict and differences remain
/// after the plan.
pub(crate) fn check_whole(strict: bool, plan: &Plan) -> Result<(), RunFault>
    ensures whole { IsWhole strict (line_texts plan.now.rest.items) result }
    ensures fault { IfErr result (IsDiffersFault strict) }
{
    if !strict || plan.rest.is_empty() {
        return Ok(());
    }
    Err(RunFault::Differs(plan.rest.len()))
}

/// Returns the notes of a strict run that ends because differences remain after the plan: `notes`,
/// followed by a line for each of these differences. If the run isn't strict, returns no notes.
pub(crate) fn whole_notes(
    alloc: Global,
    strict: bool,
    notes: &[u8],
    plan: &Plan,
) -> Result<Vec<u8>, AllocError>
    ensures { IfOk result (λ lines. strict ≡ true
        → lines.items ≡ notes.now ++ text_of_lines (line_texts plan.now.rest.items)) }
{
    let mut lines = Vec::new(alloc);
    if strict {
        lines.extend_from_slice(notes)?;
        push_stays(plan.rest.as_slice(), &mut lines)?;
    }
    Ok(lines)
}

/// Returns the text of the plan, which starts from the map: Ceph's own commands, or lines of a
/// script.
fn text_of_plan(
    alloc: Global,
    as_ceph: bool,
    map: &CrushMap<Global>,
    plan: &Plan,
) -> Result<Vec<u8>, AllocError>
    ensures { IfOk result (λ text. (t : List Row) → Stands map.now.forest t
        → text.items ≡ text_of_plan as_ceph map.now.setting t (plan_data plan.now)) }
{
    if as_ceph {
        ceph_plan_text(alloc, map, plan)
    } else {
        plan_text(alloc, plan)
    }
}

/// Writes the text of the plan. Its edits are written as lines of a script or as Ceph's own
/// commands. `map` is the map from which the plan starts.
pub(crate) fn write_plan<W: Write>(
    alloc: Global,
    as_ceph: bool,
    map: &CrushMap<Global>,
    plan: &Plan,
    writer: &mut W,
) -> Result<(), WriteFault>
    ensures writes { (t : List Row) → Stands map.now.forest t
        → IsPut result (W.contents writer.old) (W.contents writer.new)
        (text_of_plan as_ceph map.now.setting t (plan_data plan.now)) }
    ensures none { result ≡ Err WriteFault.OutOfMemory
        → Keeps (W.contents writer.old) (W.contents writer.new) }
{
    let Ok(text) = text_of_plan(alloc, as_ceph, map, plan) else {
        return Err(WriteFault::OutOfMemory);
    };
    put(writer, text.as_slice())
}
