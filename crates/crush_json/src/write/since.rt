//! Writes the document of what has changed.

ghost use Rattle.std.specs.Prelude.{◌≡◌, ◌++◌, List, Err, IfOk, IfSome, OnOk};
ghost use Rattle.std.specs.Io.KnownBytes.{Keeps};
ghost use Rattle.std.specs.Option.{option_map};
ghost use Rattle.crush_units.specs.Writes.{Writes};
ghost use Rattle.crush_model.specs.Stands.{Stands};
ghost use Rattle.crush_model.specs.Table.{Row};
ghost use Rattle.crush_since.specs.Since.{plain_map};
ghost use Rattle.crush_json.specs.Document.{document_text};
ghost use Rattle.crush_json.specs.Seen.{IsHistory, history_data};
ghost use Rattle.crush_json.specs.SinceDocument.{document_of_since, since_document};
ghost use Rattle.crush_json.specs.Tokens.{tokens_of};

use crate::document::Document;
use crate::history::History;
use crate::since::push_since;
use crate::write::{line_of, open};
use crush_map::CrushMap;
use crush_units::{ItemId, WriteFault, put};
use std::alloc::{AllocError, Allocator, Global};
use std::io::Write;

/// The number of bytes of a typical document. A document can be longer.
const USUAL_CHANGES: usize = 4096;

/// Writes `{"history":H,"since":S}` and a line feed. If there is no history, writes `{"since":S}`
/// and a line feed. S says what has changed from the old map to the new map.
///
/// If `under` is `None`, S has an object for each item about which the two maps say different
/// things. The object says what the item was and what it is. The objects are in the order of the
/// items' ids: first the buckets, from the id -1 downward, and then the devices, by ascending id. S
/// also has the rules and the classes that differ, the number of items that differ in each way,
/// whether the tunables and the types differ, and the total weights of both maps. If `under` is an
/// item, S has only the objects for this item and for the items that are below it in at least one
/// of the two maps.
///
/// To compare the items, the call visits each item of each map once, and sorts the items of each
/// map once. If `under` is `None`, the call also compares the classes and the rules, and visits
/// items again for this purpose.
///
/// Fails with [`WriteFault::OutOfMemory`] if memory runs out. In this case, nothing has been
/// written. Fails with [`WriteFault::Write`] if `out` fails or accepts no byte. In this case, a
/// beginning of the bytes may have been written, but not all of them. The function doesn't flush
/// `out`.
pub fn write_since_document<A: Allocator, B: Allocator, W: Write>(
    alloc: Global,
    old: &CrushMap<A>,
    new: &CrushMap<B>,
    under: Option<ItemId>,
    history: Option<History<'_>>,
    out: &mut W,
) -> Result<(), WriteFault>
    requires { IfSome history IsHistory }
    ensures writes { (t u : List Row) → Stands old.now.forest t → Stands new.now.forest u
        → Writes result (W.contents out.old) (W.contents out.new) (document_text
        (document_of_since (option_map history_data history.entry)
        (since_document under (plain_map old.now.setting t) (plain_map new.now.setting u)))) }
    ensures none { result ≡ Err WriteFault.OutOfMemory
        → Keeps (W.contents out.old) (W.contents out.new) }
{
    let Ok(text) = since_text(alloc, old, new, under, history) else {
        return Err(WriteFault::OutOfMemory);
    };
    put(out, text.as_slice())
}

fn since_text<A: Allocator, B: Allocator>(
    alloc: Global,
    old: &CrushMap<A>,
    new: &CrushMap<B>,
    under: Option<ItemId>,
    history: Option<History<'_>>,
) -> Result<Vec<u8>, AllocError>
    requires { IfSome history IsHistory }
    ensures { IfOk result (λ text. (t u : List Row) → Stands old.now.forest t
        → Stands new.now.forest u → text.items
        ≡ document_text (document_of_since (option_map history_data history.entry)
        (since_document under (plain_map old.now.setting t) (plain_map new.now.setting u)))) }
{
    let mut document = Document::new(alloc, USUAL_CHANGES)?;
    push_document(alloc, old, new, under, history, &mut document)?;
    line_of(document)
}

fn push_document<A: Allocator, B: Allocator>(
    alloc: Global,
    old: &CrushMap<A>,
    new: &CrushMap<B>,
    under: Option<ItemId>,
    history: Option<History<'_>>,
    out: &mut Document,
) -> Result<(), AllocError>
    requires { IfSome history IsHistory }
    ensures { (t u : List Row) → Stands old.now.forest t → Stands new.now.forest u
        → OnOk result (out.new ≡ out.old
        ++ tokens_of (document_of_since (option_map history_data history.entry)
        (since_document under (plain_map old.now.setting t) (plain_map new.now.setting u)))) }
{
    open(alloc, history, "since", out)?;
    push_since(alloc, old, new, under, out)?;
    out.end_object()
}
