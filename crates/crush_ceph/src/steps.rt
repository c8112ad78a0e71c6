//! The steps that Ceph does for a list of edits. A step is an edit, or the command `reweight-all`.

ghost use Rattle.std.specs.Prelude.{◌≡◌, ◌∷◌, [], ◌++◌, ◌&&◌, IfOk, List, OnOk, not};
ghost use Rattle.crush_model.specs.Stands.{Stands};
ghost use Rattle.crush_model.specs.Table.{Row};
ghost use Rattle.crush_ceph.specs.ForCeph.{edit_for_ceph, leaves_old_name, table_after_edit};
ghost use Rattle.crush_ceph.specs.Steps.{ceph_steps, reweight_if};
ghost use Rattle.crush_ceph.specs.declared.steps.CephStep.TheVariants.{Does};

use crate::for_ceph::{edit_for_ceph, leaves_old_name, redo_edit};
use crush_edits::Edit;
use crush_map::CrushMap;
use std::alloc::{AllocError, Global};

/// A step that Ceph does: an edit, or `reweight-all`.
#[derive(Debug, Drop)]
pub(crate) enum CephStep {
    /// An edit, in the form in which Ceph accepts it.
    Does(Edit),
    /// The command `reweight-all`, with which Ceph computes the weights of all buckets again. For a
    /// rule that takes a bucket with a class, Ceph has a copy of this bucket with only the devices
    /// of the class. With `reweight-all`, Ceph also gives each such copy the present name of its
    /// bucket.
    ReweightAll,
}

fn push_reweight_if(is_due: bool, steps: &mut Vec<CephStep>) -> Result<(), AllocError>
    ensures { OnOk result (steps.new.items ≡ steps.old.items ++ reweight_if is_due) }
{
    if is_due {
        steps.push(CephStep::ReweightAll)?;
    }
    Ok(())
}

fn push_edit(
    alloc: Global,
    map: &CrushMap<Global>,
    edit: &Edit,
    steps: &mut Vec<CephStep>,
) -> Result<(), AllocError>
    ensures { OnOk result ((t : List Row) → Stands map.now.forest t
        → steps.new.items ≡ steps.old.items ++ Does (edit_for_ceph t edit.now) ∷ []) }
{
    let edit = edit_for_ceph(alloc, map, edit)?;
    steps.push(CephStep::Does(edit))?;
    Ok(())
}

/// Appends the step of an edit, and then applies the edit to the map. `is_due` says whether Ceph
/// keeps an old name after the previous edit ([`leaves_old_name`]). If `is_due` is true, and
/// [`leaves_old_name`] is false for this edit, the function first appends `reweight-all`. Returns
/// the result of [`leaves_old_name`] for this edit.
fn push_step(
    alloc: Global,
    map: &mut CrushMap<Global>,
    is_due: bool,
    edit: &Edit,
    steps: &mut Vec<CephStep>,
) -> Result<bool, AllocError>
    ensures setting { map.new.setting ≡ map.old.setting }
    ensures stands { OnOk result ((t : List Row) → Stands map.old.forest t
        → Stands map.new.forest (table_after_edit map.old.setting t edit.now)) }
    ensures leaves { IfOk result (λ leaves. (t : List Row) → Stands map.old.forest t
        → leaves ≡ leaves_old_name map.old.setting t edit.now) }
    ensures steps { OnOk result ((t : List Row) → Stands map.old.forest t
        → steps.new.items ≡ steps.old.items
        ++ (reweight_if (is_due && not (leaves_old_name map.old.setting t edit.now))
        ++ Does (edit_for_ceph t edit.now) ∷ [])) }
{
    let leaves = leaves_old_name(map, edit);
    push_reweight_if(is_due && !leaves, steps)?;
    push_edit(alloc, map, edit, steps)?;
    redo_edit(map, edit)?;
    Ok(leaves)
}

/// Returns the steps that Ceph does for the edits. `map` is the map before the first edit. This
/// function applies the edits to `map`, one after the other. Fails if memory runs out, and some of
/// the edits may then have been applied.
pub(crate) fn ceph_steps(
    alloc: Global,
    map: &mut CrushMap<Global>,
    edits: &[Edit],
) -> Result<Vec<CephStep>, AllocError>
    ensures { IfOk result (λ steps. (t : List Row) → Stands map.old.forest t
        → steps.items ≡ ceph_steps map.old.setting t edits.now) }
{
    let mut steps = Vec::new(alloc);
    let mut leaves = false;
    for edit in edits {
        leaves = push_step(alloc, map, leaves, edit, &mut steps)?;
    }
    push_reweight_if(leaves, &mut steps)?;
    Ok(steps)
}
