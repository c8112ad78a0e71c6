//! Writes the document of a plan.

ghost use Rattle.std.specs.Prelude.{◌≡◌, ◌++◌, Err, IfOk, IfSome, OnOk, codes, flat_map, map as each};
ghost use Rattle.std.specs.Io.KnownBytes.{Keeps};
ghost use Rattle.std.specs.Option.{option_map};
ghost use Rattle.crush_units.specs.Writes.{Writes};
ghost use Rattle.json.specs.Json.{array};
ghost use Rattle.json.specs.Tree.{json_tokens};
ghost use Rattle.crush_since.specs.Stays.{line_texts};
ghost use Rattle.crush_json.specs.PlanDocument.{all_of, aside_document, command, plan_document, plan_document_text};
ghost use Rattle.crush_json.specs.Seen.{IsHistory, history_data};
ghost use Rattle.crush_json.specs.Tokens.{member_tokens};

use crate::commands::push_command;
use crate::document::Document;
use crate::history::{History, push_history_if};
use crate::stays::push_stays;
use crate::write::{bounded, line_of};
use crush_map::Edit;
use crush_units::{WriteFault, put};
use std::alloc::{AllocError, Global};
use std::io::Write;

/// How many bytes a typical command adds to the document.
const USUAL_COMMAND: usize = 96;

/// Writes `{"aside":A,"history":H,"plan":[..],"stays":[..]}` and a line feed. If there is no
/// history, the document has no member `history`. `plan` is a list with a command for each edit,
/// with the keys of Ceph's own table of commands. The weight in a command is in TiB, and is written
/// with six digits after the point, such as `1.000000`. A monitor of Ceph refuses a weight that is
/// written as a whole number, such as `1`. `stays` is a list with one text for each line of `rest`.
/// The lines of `rest` describe the differences that remain after the plan. A has two members,
/// which are the arguments `ids` and `class_ids`: the number of buckets whose ids differ, and the
/// number of buckets whose class ids differ. The class ids of a bucket are its ids for device
/// classes.
///
/// Fails with [`WriteFault::OutOfMemory`] if memory runs out. In this case, nothing has been
/// written. Fails with [`WriteFault::Write`] if `out` fails or accepts no byte. In this case, a
/// beginning of the bytes may have been written, but not all of them. The function doesn't flush
/// `out`.
pub fn write_plan_document<W: Write>(
    alloc: Global,
    edits: &[Edit],
    rest: &[Vec<u8>],
    ids: usize,
    class_ids: usize,
    history: Option<History<'_>>,
    out: &mut W,
) -> Result<(), WriteFault>
    requires { IfSome history IsHistory }
    ensures writes { Writes result (W.contents out.old) (W.contents out.new) (plan_document_text
        (plan_document (option_map history_data history.entry) edits.now (line_texts rest.now) ids class_ids)) }
    ensures none { result ≡ Err WriteFault.OutOfMemory
        → Keeps (W.contents out.old) (W.contents out.new) }
{
    let Ok(text) = plan_text(alloc, edits, rest, ids, class_ids, history) else {
        return Err(WriteFault::OutOfMemory);
    };
    put(out, text.as_slice())
}

fn plan_text(
    alloc: Global,
    edits: &[Edit],
    rest: &[Vec<u8>],
    ids: usize,
    class_ids: usize,
    history: Option<History<'_>>,
) -> Result<Vec<u8>, AllocError>
    requires { IfSome history IsHistory }
    ensures { IfOk result (λ text. text.items ≡ plan_document_text
        (plan_document (option_map history_data history.entry) edits.now (line_texts rest.now) ids class_ids)) }
{
    let mut document = Document::new(alloc, bounded(edits.len()) * USUAL_COMMAND)?;
    push_document(alloc, edits, rest, ids, class_ids, history, &mut document)?;
    line_of(document)
}

fn push_document(
    alloc: Global,
    edits: &[Edit],
    rest: &[Vec<u8>],
    ids: usize,
    class_ids: usize,
    history: Option<History<'_>>,
    out: &mut Document,
) -> Result<(), AllocError>
    requires { IfSome history IsHistory }
    ensures { OnOk result (out.new ≡ out.old ++ json_tokens
        (plan_document (option_map history_data history.entry) edits.now (line_texts rest.now) ids class_ids)) }
{
    out.begin_object()?;
    push_aside(ids, class_ids, out)?;
    push_history_if(alloc, history, out)?;
    out.key("plan")?;
    push_commands(alloc, edits, out)?;
    out.key("stays")?;
    push_stays(alloc, rest, out)?;
    out.end_object()
}

#[tactic(auto, unfolding(crate::specs::PlanDocument::aside_document))]
fn push_aside(ids: usize, class_ids: usize, out: &mut Document) -> Result<(), AllocError>
    ensures { OnOk result (out.new ≡ out.old
        ++ member_tokens (codes "aside") (aside_document ids class_ids)) }
{
    out.key("aside")?;
    out.begin_object()?;
    out.natural("class_ids", class_ids as u64)?;
    out.natural("ids", ids as u64)?;
    out.end_object()
}

fn push_commands(alloc: Global, edits: &[Edit], out: &mut Document) -> Result<(), AllocError>
    ensures { OnOk result (out.new ≡ out.old
        ++ json_tokens (array (all_of (each command edits.now)))) }
{
    out.begin_array()?;
    push_each(alloc, edits, out)?;
    out.end_array()
}

fn push_each(alloc: Global, edits: &[Edit], out: &mut Document) -> Result<(), AllocError>
    ensures { OnOk result (out.new ≡ out.old
        ++ flat_map (λ e. json_tokens (command e)) edits.now) }
{
    for edit in edits {
        push_command(alloc, edit, out)?;
    }
    Ok(())
}
