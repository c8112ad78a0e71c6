//! Applies edits of a history to a map once more: the edits of those calls that changed the map.

ghost use Rattle.std.specs.Prelude.{◌≡◌, ◌≤◌, List, OnOk, length};
ghost use Rattle.crush_units.specs.declared.limits.TheConstants.{MOST_EDITS};
ghost use Rattle.crush_model.specs.Stands.{Stands};
ghost use Rattle.crush_model.specs.Table.{Row};
ghost use Rattle.crush_reasons.specs.LawReplay.{LeadsToTableAfter};
ghost use Rattle.crush_reasons.specs.Replay.{changing_edits, edits_of, table_after_edits, table_after_entry};

use crush_ceph::redo_edit;
use crush_edits::Edit;
use crush_history::{Call, Entry, is_change};
use crush_map::CrushMap;
use std::alloc::{AllocError, Global};
use std::slice;

/// A law about a legal history, in which each reply is the right one for its call. If the edits of
/// those calls that changed the map are applied, one after the other, to the map before the
/// history, then the result is the map after the history.
pub fn edits_lead_to_the_map_after()
    ensures { LeadsToTableAfter }
{}

pub(crate) fn edits_of(call: &Call) -> &[Edit]
    ensures value { result.now ≡ edits_of call.now }
    ensures few { length result.now ≤ MOST_EDITS }
{
    match call {
        Call::One(edit) => slice::from_ref(edit),
        Call::Batch(edits) => edits.as_slice(),
        Call::Guarded { edits, .. } => edits.as_slice(),
    }
}

pub(crate) fn changing_edits(entry: &Entry) -> &[Edit]
    ensures value { result.now ≡ changing_edits entry.now }
    ensures few { length result.now ≤ MOST_EDITS }
{
    if is_change(entry.reply) {
        edits_of(&entry.call)
    } else {
        &[]
    }
}

pub(crate) fn make_edits(map: &mut CrushMap<Global>, edits: &[Edit]) -> Result<(), AllocError>
    ensures stands { OnOk result ((t : List Row) → Stands map.old.forest t
        → Stands map.new.forest (table_after_edits map.old.setting t edits.now)) }
    ensures setting { map.new.setting ≡ map.old.setting }
{
    for edit in edits {
        redo_edit(map, edit)?;
    }
    Ok(())
}

pub(crate) fn make_entry(map: &mut CrushMap<Global>, entry: &Entry) -> Result<(), AllocError>
    ensures stands { OnOk result ((t : List Row) → Stands map.old.forest t
        → Stands map.new.forest (table_after_entry map.old.setting t entry.now)) }
    ensures setting { map.new.setting ≡ map.old.setting }
{
    make_edits(map, changing_edits(entry))
}
