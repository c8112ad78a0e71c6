//! Writes the output of a run for a program to read: one JSON document.

ghost use Rattle.std.specs.Prelude.{◌≡◌, ◌≤◌, List, Err, IfSome, is_some, length, true};
ghost use Rattle.std.specs.Option.{option_map};
ghost use Rattle.std.specs.Io.KnownBytes.{Keeps};
ghost use Rattle.crush_since.specs.Since.{plain_map};
ghost use Rattle.crush_model.specs.Forest.{rows_of};
ghost use Rattle.crush_model.specs.Stands.{Stands};
ghost use Rattle.crush_model.specs.Table.{Row};
ghost use Rattle.crush_history.specs.Entries.{AreOf};
ghost use Rattle.crush_history.specs.HistoryText.{names_of};
ghost use Rattle.crush_history.specs.Script.{scripts_data};
ghost use Rattle.crush_json.specs.Seen.{IsHistory, history_data};
ghost use Rattle.crush_plan.specs.Plan.{plan_data};
ghost use Rattle.crush_run.specs.Output.{IsPut, history_if_requested, program_text, since_program_text};
ghost use Rattle.crush_run.specs.Stages.{IsOpening, needs_opening};
ghost use Rattle.crush_units.specs.declared.limits.TheConstants.{MOST_ENTRIES};

use crate::completed_run::CompletedRun;
use crate::finding::{name_of, named_item, part_of};
use crate::text::write_text;
use crush_input::{Output, Request};
use crush_json::{
    History, write_map_document, write_plan_document, write_since_document, write_tree_document,
};
use crush_map::CrushMap;
use crush_units::{ItemId, WriteFault};
use std::alloc::Global;
use std::io::Write;

fn history_if_requested<'a>(history: bool, completed: &CompletedRun<'a>) -> Option<History<'a>>
    requires few { length completed.now.entries.now ≤ MOST_ENTRIES }
    requires operators { AreOf (length completed.now.scripts.now) completed.now.entries.now }
    ensures is { IfSome result IsHistory }
    ensures told { option_map history_data result
        ≡ history_if_requested history (names_of (scripts_data completed.now.scripts.now)) completed.now.entries.now }
{
    if history {
        return Some(History {
            scripts: completed.scripts,
            entries: completed.entries,
        });
    }
    None
}

fn write_changed<W: Write>(
    alloc: Global,
    under: Option<ItemId>,
    old: &CrushMap<Global>,
    map: &CrushMap<Global>,
    history: Option<History<'_>>,
    writer: &mut W,
) -> Result<(), WriteFault>
    requires { IfSome history IsHistory }
    ensures writes { (t : List Row) → Stands map.now.forest t
        → IsPut result (W.contents writer.old) (W.contents writer.new)
        (since_program_text (option_map history_data history.entry) under
        (plain_map old.now.setting (rows_of old.now.forest)) (plain_map map.now.setting t)) }
    ensures none { result ≡ Err WriteFault.OutOfMemory
        → Keeps (W.contents writer.old) (W.contents writer.new) }
{
    old.forest().recall_invariant();
    write_since_document(alloc, old, map, under, history, writer)
}

/// Writes the output as one JSON document, which contains the history if the request asks for it.
/// The document of changes always matches items by their ids. A tree of changes has the same
/// document as a list of changes. The class of a tree is ignored, but no command line asks for a
/// document and for a class. There is no document for Ceph's own commands, so they are written as
/// text.
pub(crate) fn write_document<W: Write>(
    alloc: Global,
    request: &Request,
    completed: &CompletedRun<'_>,
    writer: &mut W,
) -> Result<(), WriteFault>
    requires few { length completed.now.entries.now ≤ MOST_ENTRIES }
    requires operators { AreOf (length completed.now.scripts.now) completed.now.entries.now }
    requires kept { needs_opening request.now.mode request.now.output ≡ true
        → is_some completed.now.opening.now ≡ true }
    ensures writes { (o t : List Row) → IsOpening request.now.mode request.now.output
        completed.now.opening.now completed.now.map.now.setting o → Stands completed.now.map.now.forest t
        → IsPut result (W.contents writer.old) (W.contents writer.new)
        (program_text request.now.mode.history request.now.output (plan_data completed.now.plan.now)
        completed.now.map.now.setting o t (names_of (scripts_data completed.now.scripts.now))
        completed.now.entries.now) }
    ensures none { result ≡ Err WriteFault.OutOfMemory
        → Keeps (W.contents writer.old) (W.contents writer.new) }
{
    let history = history_if_requested(request.mode.history, completed);
    match &request.output {
        Output::Map => write_map_document(alloc, completed.map, history, writer),
        Output::Tree(words) => {
            let part = part_of(words, completed.map);
            write_tree_document(alloc, completed.map, part, history, writer)
        }
        Output::Since(old) => {
            let under = named_item(name_of(&old.under), completed.map);
            write_changed(alloc, under, &old.map, completed.map, history, writer)
        }
        Output::Changes(old) => {
            let under = named_item(name_of(&old.part.under), completed.map);
            write_changed(alloc, under, &old.map, completed.map, history, writer)
        }
        Output::To(_) => {
            let (edits, rest) = (
                completed.plan.edits.as_slice(),
                completed.plan.rest.as_slice(),
            );
            let (ids, class_ids) = (completed.plan.aside.ids, completed.plan.aside.class_ids);
            write_plan_document(alloc, edits, rest, ids, class_ids, history, writer)
        }
        Output::AsCeph => write_text(alloc, request, completed, writer),
    }
}
