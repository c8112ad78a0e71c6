//! Writes the document of a tree.

ghost use Rattle.std.specs.Prelude.{◌≡◌, ◌++◌, List, Err, IfOk, IfSome, OnOk, map as each};
ghost use Rattle.std.specs.Io.KnownBytes.{Keeps};
ghost use Rattle.std.specs.Option.{option_map};
ghost use Rattle.crush_units.specs.Writes.{Writes};
ghost use Rattle.crush_model.specs.Stands.{Stands};
ghost use Rattle.crush_model.specs.Table.{Row};
ghost use Rattle.crush_print.specs.WalkStep.{walk_step_data};
ghost use Rattle.crush_print.specs.TreePart.{part_steps};
ghost use Rattle.crush_json.specs.Document.{document_of_tree, document_text};
ghost use Rattle.crush_json.specs.Seen.{IsHistory, history_data};
ghost use Rattle.crush_json.specs.Tokens.{tokens_of};
ghost use Rattle.crush_json.specs.TreeDocument.{tree_document};

use crate::document::Document;
use crate::history::History;
use crate::items::buckets_in_order;
use crate::tree::push_tree;
use crate::write::{bounded, line_of, open};
use crush_map::CrushMap;
use crush_print::{TreePart, WalkStep, walk_part};
use crush_units::{WriteFault, put};
use std::alloc::{AllocError, Allocator, Global};
use std::io::Write;

/// How many bytes a typical item adds to the document.
const USUAL_NODE: usize = 96;

/// Writes `{"history":H,"tree":T}` and a line feed. If there is no history, writes `{"tree":T}` and
/// a line feed. T has a node for each item of the part. If `ceph osd tree -f json` prints the same
/// data, the node has Ceph's keys. The weight of an item is in units (1/65536 TiB), with the key
/// `weight`. Ceph prints the weight of a device in TiB, with the key `crush_weight`. T has two
/// lists: `stray` has the nodes of the devices that no bucket holds, and `nodes` has all other
/// nodes. Each list is in the order of [`walk_part`]. The member `children` of a bucket's node has
/// the ids of all items of the bucket, even of the items that are not in the part.
///
/// Fails with [`WriteFault::OutOfMemory`] if memory runs out. In this case, nothing has been
/// written. Fails with [`WriteFault::Write`] if `out` fails or accepts no byte. In this case, a
/// beginning of the bytes may have been written, but not all of them. The function doesn't flush
/// `out`.
pub fn write_tree_document<A: Allocator, W: Write>(
    alloc: Global,
    map: &CrushMap<A>,
    part: TreePart,
    history: Option<History<'_>>,
    out: &mut W,
) -> Result<(), WriteFault>
    requires { IfSome history IsHistory }
    ensures writes { (t : List Row) → Stands map.now.forest t
        → Writes result (W.contents out.old) (W.contents out.new) (document_text
        (document_of_tree (option_map history_data history.entry)
        (tree_document map.now.setting t (part_steps part t)))) }
    ensures none { result ≡ Err WriteFault.OutOfMemory
        → Keeps (W.contents out.old) (W.contents out.new) }
{
    let Ok(text) = tree_text(alloc, map, part, history) else {
        return Err(WriteFault::OutOfMemory);
    };
    put(out, text.as_slice())
}

fn tree_text<A: Allocator>(
    alloc: Global,
    map: &CrushMap<A>,
    part: TreePart,
    history: Option<History<'_>>,
) -> Result<Vec<u8>, AllocError>
    requires { IfSome history IsHistory }
    ensures { IfOk result (λ text. (t : List Row) → Stands map.now.forest t → text.items
        ≡ document_text (document_of_tree (option_map history_data history.entry)
        (tree_document map.now.setting t (part_steps part t)))) }
{
    let steps = walk_part(alloc, map, part)?;
    steps_text(alloc, map, steps.as_slice(), history)
}

fn steps_text<A: Allocator>(
    alloc: Global,
    map: &CrushMap<A>,
    steps: &[WalkStep<'_, A>],
    history: Option<History<'_>>,
) -> Result<Vec<u8>, AllocError>
    requires { IfSome history IsHistory }
    ensures { IfOk result (λ text. (t : List Row) → Stands map.now.forest t → text.items
        ≡ document_text (document_of_tree (option_map history_data history.entry)
        (tree_document map.now.setting t (each walk_step_data steps.now)))) }
{
    let mut document = Document::new(alloc, bounded(steps.len()) * USUAL_NODE)?;
    push_document(alloc, map, steps, history, &mut document)?;
    line_of(document)
}

fn push_document<A: Allocator>(
    alloc: Global,
    map: &CrushMap<A>,
    steps: &[WalkStep<'_, A>],
    history: Option<History<'_>>,
    out: &mut Document,
) -> Result<(), AllocError>
    requires { IfSome history IsHistory }
    ensures { (t : List Row) → Stands map.now.forest t → OnOk result (out.new ≡ out.old
        ++ tokens_of (document_of_tree (option_map history_data history.entry)
        (tree_document map.now.setting t (each walk_step_data steps.now)))) }
{
    let buckets = buckets_in_order(alloc, map.forest())?;
    open(alloc, history, "tree", out)?;
    push_tree(map.setting(), buckets.as_slice(), steps, out)?;
    out.end_object()
}
