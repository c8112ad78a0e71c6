//! Writes the output of a run for a person to read: text.

ghost use Rattle.std.specs.Prelude.{◌≡◌, ◌≤◌, List, Err, IfErr, IfOk, is_some, length, true};
ghost use Rattle.std.specs.Io.KnownBytes.{Keeps};
ghost use Rattle.crush_input.specs.Options.{name_text};
ghost use Rattle.crush_since.specs.Since.{plain_map};
ghost use Rattle.crush_since.specs.SincePart.{since_part_text};
ghost use Rattle.crush_model.specs.Forest.{rows_of};
ghost use Rattle.crush_model.specs.Stands.{Stands};
ghost use Rattle.crush_model.specs.Table.{Row};
ghost use Rattle.crush_history.specs.Entries.{AreOf};
ghost use Rattle.crush_history.specs.HistoryText.{names_of};
ghost use Rattle.crush_history.specs.Script.{scripts_data};
ghost use Rattle.crush_edits.specs.Setting.{SettingData};
ghost use Rattle.crush_input.specs.Notes.{IsKept};
ghost use Rattle.crush_reasons.specs.Ceph.{ceph_text};
ghost use Rattle.crush_plan.specs.Plan.{plan_data};
ghost use Rattle.crush_run.specs.Output.{IsPut, changed_by_id, changed_by_name, changed_text, changed_tree_text, lines_if_requested, form_of, main_text, person_text, tree_text_of};
ghost use Rattle.crush_run.specs.Found.{part_of};
ghost use Rattle.crush_run.specs.Stages.{IsOpening, needs_opening};
ghost use Rattle.crush_units.specs.declared.limits.TheConstants.{MOST_ENTRIES};

use crate::completed_run::CompletedRun;
use crate::finding::{name_of, named_item, part_of};
use crate::planned::write_plan;
use crush_history::{Entry, Script, history_text};
use crush_input::{OldMap, OldTree, Output, Request};
use crush_map::CrushMap;
use crush_options::{Mode, TreePartSpec};
use crush_print::{WeightForm, write_map, write_tree_of_class, write_tree_part};
use crush_reasons::ceph_text;
use crush_since::{
    since_part_text, write_changes, write_changes_of_class, write_since, write_since_by_name,
    write_since_by_name_part,
};
use crush_units::{ItemId, WriteFault, put};
use std::alloc::{AllocError, Global};
use std::io::Write;

fn lines_if_requested(
    alloc: Global,
    history: bool,
    scripts: &[Script],
    entries: &[Entry],
) -> Result<Vec<u8>, AllocError>
    requires few { length entries.now ≤ MOST_ENTRIES }
    requires operators { AreOf (length scripts.now) entries.now }
    ensures { IfOk result (λ lines. lines.items
        ≡ lines_if_requested history (names_of (scripts_data scripts.now)) entries.now) }
{
    if history {
        return history_text(alloc, scripts, entries);
    }
    Ok(Vec::new(alloc))
}

fn ceph_lines(
    alloc: Global,
    opening: &CrushMap<Global>,
    entries: &[Entry],
) -> Result<Vec<u8>, AllocError>
    requires { length entries.now ≤ MOST_ENTRIES }
    ensures { IfOk result (λ text. (o : List Row) → Stands opening.now.forest o
        → text.items ≡ ceph_text opening.now.setting o entries.now) }
{
    let opening = opening.try_copy()?;
    ceph_text(alloc, opening, entries)
}

fn write_ceph<W: Write>(
    alloc: Global,
    completed: &CompletedRun<'_>,
    writer: &mut W,
) -> Result<(), WriteFault>
    requires few { length completed.now.entries.now ≤ MOST_ENTRIES }
    requires kept { is_some completed.now.opening.now ≡ true }
    ensures writes { (s : SettingData) (o : List Row) → IsKept completed.now.opening.now s o
        → IsPut result (W.contents writer.old) (W.contents writer.new)
        (ceph_text s o completed.now.entries.now) }
    ensures none { result ≡ Err WriteFault.OutOfMemory
        → Keeps (W.contents writer.old) (W.contents writer.new) }
{
    let Some(opening) = completed.opening else {
        unreachable!()
    };
    let Ok(text) = ceph_lines(alloc, opening, completed.entries) else {
        return Err(WriteFault::OutOfMemory);
    };
    put(writer, text.as_slice())
}

fn write_part<W: Write>(
    alloc: Global,
    old: &CrushMap<Global>,
    map: &CrushMap<Global>,
    under: ItemId,
    writer: &mut W,
) -> Result<(), WriteFault>
    ensures writes { (t u : List Row) → Stands old.now.forest t → Stands map.now.forest u
        → IsPut result (W.contents writer.old) (W.contents writer.new)
        (since_part_text under (plain_map old.now.setting t) (plain_map map.now.setting u)) }
    ensures none { result ≡ Err WriteFault.OutOfMemory
        → Keeps (W.contents writer.old) (W.contents writer.new) }
{
    let Ok(text) = since_part_text(alloc, old, map, under) else {
        return Err(WriteFault::OutOfMemory);
    };
    put(writer, text.as_slice())
}

fn write_by_id<W: Write>(
    alloc: Global,
    under: Option<ItemId>,
    old: &CrushMap<Global>,
    map: &CrushMap<Global>,
    writer: &mut W,
) -> Result<(), WriteFault>
    ensures writes { (t : List Row) → Stands map.now.forest t
        → IsPut result (W.contents writer.old) (W.contents writer.new) (changed_by_id under
        (plain_map old.now.setting (rows_of old.now.forest)) (plain_map map.now.setting t)) }
    ensures none { result ≡ Err WriteFault.OutOfMemory
        → Keeps (W.contents writer.old) (W.contents writer.new) }
{
    old.forest().recall_invariant();
    match under {
        Some(item) => write_part(alloc, old, map, item, writer),
        None => write_since(alloc, old, map, writer),
    }
}

fn write_by_name<W: Write>(
    alloc: Global,
    old: &OldMap,
    map: &CrushMap<Global>,
    writer: &mut W,
) -> Result<(), WriteFault>
    ensures writes { (t : List Row) → Stands map.now.forest t
        → IsPut result (W.contents writer.old) (W.contents writer.new)
        (changed_by_name (name_text old.now.under)
        (plain_map old.now.map.setting (rows_of old.now.map.forest)) (plain_map map.now.setting t)) }
    ensures none { result ≡ Err WriteFault.OutOfMemory
        → Keeps (W.contents writer.old) (W.contents writer.new) }
{
    old.map.forest().recall_invariant();
    match &old.under {
        Some(name) => write_since_by_name_part(alloc, &old.map, map, name.as_str(), writer),
        None => write_since_by_name(alloc, &old.map, map, writer),
    }
}

fn write_changed<W: Write>(
    alloc: Global,
    old: &OldMap,
    map: &CrushMap<Global>,
    writer: &mut W,
) -> Result<(), WriteFault>
    ensures writes { (t : List Row) → Stands map.now.forest t
        → IsPut result (W.contents writer.old) (W.contents writer.new)
        (changed_text old.now.by_name (name_text old.now.under)
        (plain_map old.now.map.setting (rows_of old.now.map.forest)) (plain_map map.now.setting t)) }
    ensures none { result ≡ Err WriteFault.OutOfMemory
        → Keeps (W.contents writer.old) (W.contents writer.new) }
{
    if old.by_name {
        return write_by_name(alloc, old, map, writer);
    }
    let under = named_item(name_of(&old.under), map);
    write_by_id(alloc, under, &old.map, map, writer)
}

fn write_tree<W: Write>(
    alloc: Global,
    words: &TreePartSpec,
    map: &CrushMap<Global>,
    writer: &mut W,
) -> Result<(), WriteFault>
    ensures writes { (t : List Row) → Stands map.now.forest t
        → IsPut result (W.contents writer.old) (W.contents writer.new)
        (tree_text_of (name_text words.now.class) map.now.setting (part_of words.now map.now.setting t) t) }
    ensures none { result ≡ Err WriteFault.OutOfMemory
        → Keeps (W.contents writer.old) (W.contents writer.new) }
{
    let part = part_of(words, map);
    match &words.class {
        Some(class) => write_tree_of_class(alloc, map, part, class.as_str(), writer),
        None => write_tree_part(alloc, map, part, writer),
    }
}

/// Returns the form in which weights are printed in the map's text.
fn form_of(mode: &Mode) -> WeightForm
    ensures { result ≡ form_of mode.now.exact }
{
    if mode.exact {
        WeightForm::Exact
    } else {
        WeightForm::Rounded
    }
}

/// Writes the tree of what has changed since the old map.
fn write_changed_tree<W: Write>(
    alloc: Global,
    old: &OldTree,
    map: &CrushMap<Global>,
    writer: &mut W,
) -> Result<(), WriteFault>
    ensures writes { (t : List Row) → Stands map.now.forest t
        → IsPut result (W.contents writer.old) (W.contents writer.new)
        (changed_tree_text (name_text old.now.part.class) (part_of old.now.part map.now.setting t)
        (plain_map old.now.map.setting (rows_of old.now.map.forest)) (plain_map map.now.setting t)) }
    ensures none { result ≡ Err WriteFault.OutOfMemory
        → Keeps (W.contents writer.old) (W.contents writer.new) }
{
    old.map.forest().recall_invariant();
    let part = part_of(&old.part, map);
    match &old.part.class {
        Some(class) => {
            write_changes_of_class(alloc, &old.map, map, part, class.as_str(), writer)
        }
        None => write_changes(alloc, &old.map, map, part, writer),
    }
}

fn write_output<W: Write>(
    alloc: Global,
    request: &Request,
    completed: &CompletedRun<'_>,
    writer: &mut W,
) -> Result<(), WriteFault>
    requires few { length completed.now.entries.now ≤ MOST_ENTRIES }
    requires kept { needs_opening request.now.mode request.now.output ≡ true
        → is_some completed.now.opening.now ≡ true }
    ensures writes { (o t : List Row) → IsOpening request.now.mode request.now.output
        completed.now.opening.now completed.now.map.now.setting o → Stands completed.now.map.now.forest t
        → IsPut result (W.contents writer.old) (W.contents writer.new)
        (main_text (form_of request.now.mode.exact) request.now.output (plan_data completed.now.plan.now)
        completed.now.map.now.setting o t completed.now.entries.now) }
    ensures none { result ≡ Err WriteFault.OutOfMemory
        → Keeps (W.contents writer.old) (W.contents writer.new) }
{
    match &request.output {
        Output::Map => write_map(alloc, completed.map, form_of(&request.mode), writer),
        Output::Tree(words) => write_tree(alloc, words, completed.map, writer),
        Output::Since(old) => write_changed(alloc, old, completed.map, writer),
        Output::Changes(old) => write_changed_tree(alloc, old, completed.map, writer),
        Output::AsCeph => write_ceph(alloc, completed, writer),
        Output::To(target) => {
            write_plan(alloc, target.as_ceph, completed.map, completed.plan, writer)
        },
    }
}

/// Writes the output as text, followed by the lines of the history if the request asks for them.
/// The lines are created first, so that memory can't run out for them after a part of the output
/// was written.
pub(crate) fn write_text<W: Write>(
    alloc: Global,
    request: &Request,
    completed: &CompletedRun<'_>,
    writer: &mut W,
) -> Result<(), WriteFault>
    requires few { length completed.now.entries.now ≤ MOST_ENTRIES }
    requires operators { AreOf (length completed.now.scripts.now) completed.now.entries.now }
    requires kept { needs_opening request.now.mode request.now.output ≡ true
        → is_some completed.now.opening.now ≡ true }
    ensures writes { (o t : List Row) → IsOpening request.now.mode request.now.output
        completed.now.opening.now completed.now.map.now.setting o → Stands completed.now.map.now.forest t
        → IsPut result (W.contents writer.old) (W.contents writer.new)
        (person_text (form_of request.now.mode.exact) request.now.mode.history request.now.output
        (plan_data completed.now.plan.now) completed.now.map.now.setting o t (names_of (scripts_data completed.now.scripts.now))
        completed.now.entries.now) }
    ensures none { result ≡ Err WriteFault.OutOfMemory
        → Keeps (W.contents writer.old) (W.contents writer.new) }
{
    let lines = lines_if_requested(
        alloc,
        request.mode.history,
        completed.scripts,
        completed.entries,
    );
    let Ok(lines) = lines else {
        return Err(WriteFault::OutOfMemory);
    };
    write_output(alloc, request, completed, writer)?;
    put(writer, lines.as_slice())
}
