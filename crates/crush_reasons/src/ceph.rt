//! Prints the edits of those calls of a history that changed the map, as Ceph's own commands.

ghost use Rattle.std.specs.Prelude.{◌≡◌, ◌++◌, List, IfOk, OnOk};
ghost use Rattle.crush_model.specs.Stands.{Stands};
ghost use Rattle.crush_model.specs.Table.{Row};
ghost use Rattle.crush_reasons.specs.Ceph.{ceph_text};
ghost use Rattle.crush_reasons.specs.Replay.{history_edits};

use crate::replay::changing_edits;
use crush_edits::Edit;
use crush_history::Entry;
use crush_map::CrushMap;
use std::alloc::{AllocError, Global};

/// Appends a copy of each edit to `copies`.
fn push_copies(alloc: Global, edits: &[Edit], copies: &mut Vec<Edit>) -> Result<(), AllocError>
    ensures { OnOk result (copies.new.items ≡ copies.old.items ++ edits.now) }
{
    for edit in edits {
        let copy = edit.try_copy(alloc)?;
        copies.push(copy)?;
    }
    Ok(())
}

/// Returns copies of all edits of those calls that changed the map.
fn history_edits(alloc: Global, entries: &[Entry]) -> Result<Vec<Edit>, AllocError>
    ensures { IfOk result (λ edits. edits.items ≡ history_edits entries.now) }
{
    let mut edits = Vec::new(alloc);
    for entry in entries {
        push_copies(alloc, changing_edits(entry), &mut edits)?;
    }
    Ok(edits)
}

/// Returns the edits of those calls that changed the map, as Ceph's own commands. The text has
/// lines for a shell: the line `# N commands`, and then N lines. It is the text that
/// [`crush_ceph::ceph_text`] returns for these edits.
///
/// If a batch changed the map, the text also has those edits of the batch that changed nothing. Two
/// edits that follow one another can have one line together, even if they are in calls of different
/// operators.
///
/// `opening` is the map before the first call. The function fails only if memory runs out.
pub fn ceph_text(
    alloc: Global,
    opening: CrushMap<Global>,
    entries: &[Entry],
) -> Result<Vec<u8>, AllocError>
    ensures { IfOk result (λ text. (t : List Row) → Stands opening.forest t
        → text.items ≡ ceph_text opening.setting t entries.now) }
{
    let edits = history_edits(alloc, entries)?;
    crush_ceph::ceph_text(alloc, opening, edits.as_slice())
}
