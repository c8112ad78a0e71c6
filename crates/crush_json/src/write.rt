//! Writes documents. The text of a document is built in memory before any byte of it is written.

ghost use Rattle.std.specs.Prelude.{◌≡◌, ◌≤◌, ◌^◌, ◌++◌, ◌∷◌, [], List, Err, codes, IfOk, IfSome, OnOk};
ghost use Rattle.json.specs.Print.{print};
ghost use Rattle.json.specs.Token.{begin_object, key};
ghost use Rattle.std.specs.Io.KnownBytes.{Keeps};
ghost use Rattle.std.specs.Option.{option_map};
ghost use Rattle.crush_units.specs.Writes.{Writes};
ghost use Rattle.crush_model.specs.Stands.{Stands};
ghost use Rattle.crush_model.specs.Table.{Row};
ghost use Rattle.crush_json.specs.Document.{document, document_text};
ghost use Rattle.crush_json.specs.MapDocument.{map_document};
ghost use Rattle.crush_json.specs.Seen.{IsHistory, history_data};
ghost use Rattle.crush_json.specs.Tokens.{history_tokens_if, tokens_of};

pub(crate) mod plan;
pub(crate) mod since;
pub(crate) mod tree;

use crate::document::Document;
use crate::history::{History, push_history_if};
use crate::map::push_map;
use crush_map::CrushMap;
use crush_units::{WriteFault, put};
use std::alloc::{AllocError, Allocator, Global};
use std::io::Write;

/// How many bytes a typical device adds to the document. From this number and [`USUAL_BUCKET`], the
/// program computes how much memory to allocate at first. A document can be longer.
const USUAL_DEVICE: usize = 84;

/// How many bytes a typical bucket adds to the document.
const USUAL_BUCKET: usize = 192;

/// Writes `{"history":H,"map":M}` and a line feed. If there is no history, writes `{"map":M}` and a
/// line feed. H has an object for each entry of the history. M is the map, with the keys of
/// `crushtool --dump`. The page `docs/user/json.md` says what `crushtool --dump` prints in
/// addition. If a step of a rule takes a class of a bucket, the step's `item` is the id that the
/// bucket has for the class. If the bucket has no such id, the step has no `item`.
///
/// Fails with [`WriteFault::OutOfMemory`] if memory runs out. In this case, nothing has been
/// written. Fails with [`WriteFault::Write`] if `out` fails or accepts no byte. In this case, a
/// beginning of the bytes may have been written, but not all of them. The function doesn't flush
/// `out`.
pub fn write_map_document<A: Allocator, W: Write>(
    alloc: Global,
    map: &CrushMap<A>,
    history: Option<History<'_>>,
    out: &mut W,
) -> Result<(), WriteFault>
    requires { IfSome history IsHistory }
    ensures writes { (t : List Row) → Stands map.now.forest t
        → Writes result (W.contents out.old) (W.contents out.new) (document_text
        (document (option_map history_data history.entry) (map_document map.now.setting t))) }
    ensures none { result ≡ Err WriteFault.OutOfMemory
        → Keeps (W.contents out.old) (W.contents out.new) }
{
    let Ok(text) = map_text(alloc, map, history) else {
        return Err(WriteFault::OutOfMemory);
    };
    put(out, text.as_slice())
}

fn map_text<A: Allocator>(
    alloc: Global,
    map: &CrushMap<A>,
    history: Option<History<'_>>,
) -> Result<Vec<u8>, AllocError>
    requires { IfSome history IsHistory }
    ensures { IfOk result (λ text. (t : List Row) → Stands map.now.forest t → text.items
        ≡ document_text (document (option_map history_data history.entry)
        (map_document map.now.setting t))) }
{
    let counts = map.counts();
    let usual = counts.devices as usize * USUAL_DEVICE + counts.buckets as usize * USUAL_BUCKET;
    let mut document = Document::new(alloc, usual)?;
    push_document(alloc, map, history, &mut document)?;
    line_of(document)
}

#[tactic(auto, unfolding(crate::specs::Document::document))]
fn push_document<A: Allocator>(
    alloc: Global,
    map: &CrushMap<A>,
    history: Option<History<'_>>,
    out: &mut Document,
) -> Result<(), AllocError>
    requires { IfSome history IsHistory }
    ensures { (t : List Row) → Stands map.now.forest t → OnOk result (out.new ≡ out.old
        ++ tokens_of (document (option_map history_data history.entry)
        (map_document map.now.setting t))) }
{
    open(alloc, history, "map", out)?;
    push_map(alloc, map, out)?;
    out.end_object()
}

/// Begins the object of a document. Writes the history, if there is one, and then the name of the
/// member whose value the caller writes next.
fn open(
    alloc: Global,
    history: Option<History<'_>>,
    name: &str,
    out: &mut Document,
) -> Result<(), AllocError>
    requires { IfSome history IsHistory }
    ensures { OnOk result (out.new ≡ out.old ++ (begin_object
        ∷ (history_tokens_if (option_map history_data history.entry) ++ key name.now ∷ []))) }
{
    out.begin_object()?;
    push_history_if(alloc, history, out)?;
    out.key(name)
}

/// Returns the bytes of the document, followed by a line feed.
fn line_of(document: Document) -> Result<Vec<u8>, AllocError>
    ensures { IfOk result (λ text. text.items ≡ print document ++ codes "\n") }
{
    let mut text = document.finish();
    text.push(b'\n')?;
    Ok(text)
}

/// Returns `count`, or 2^32 if `count` is greater. The callers multiply the result by a number of
/// bytes for each item or edit. The bound ensures that this product doesn't overflow.
fn bounded(count: usize) -> usize
    ensures { result ≤ 2 ^ 32 }
{
    count.min(1 << 32)
}
