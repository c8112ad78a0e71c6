//! Writes the steps of a rule as JSON values.

ghost use Rattle.std.specs.Prelude.{◌≡◌, ◌++◌, List, Some, codes, IfOk, OnOk, map as each, string_bytes};
ghost use Rattle.std.specs.Option.{option_map};
ghost use Rattle.crush_edits.specs.SettingSeen.{step_data};
ghost use Rattle.crush_nodes.specs.Seen.{shadow_data};
ghost use Rattle.crush_print.specs.RuleLines.{bucket_name};
ghost use Rattle.crush_model.specs.Stands.{Stands};
ghost use Rattle.crush_model.specs.Table.{Row};
ghost use Rattle.crush_units.specs.Id.{bucket_number};
ghost use Rattle.crush_json.specs.RuleDocument.{choice_word, choose_document, class_id_among, emit_document, set_document, step_document, take_document, taken_id, taken_name};
ghost use Rattle.crush_json.specs.Tokens.{tokens_of};

use crate::document::Document;
use crush_map::{CrushMap, KeptStep};
use crush_tree::ShadowId;
use crush_units::{BucketId, ItemId, Name};
use std::alloc::{AllocError, Allocator, Global};

/// Writes a step as an object. Fails only if memory runs out.
pub(crate) fn push_step<A: Allocator>(
    alloc: Global,
    map: &CrushMap<A>,
    step: &KeptStep,
    out: &mut Document,
) -> Result<(), AllocError>
    ensures { (t : List Row) → Stands map.now.forest t → OnOk result (out.new ≡ out.old
        ++ tokens_of (step_document t (step_data step.now))) }
{
    match step {
        KeptStep::Take(bucket, class) => push_take(alloc, map, *bucket, class, out),
        KeptStep::Choose {
            leaf,
            firstn,
            count,
            kind,
        } => push_choice(*leaf, *firstn, *count, kind, out),
        KeptStep::Set(word, value) => push_set(word, *value, out),
        KeptStep::Emit => push_emit(out),
    }
}

#[tactic(auto, unfolding(crate::specs::RuleDocument::take_document))]
fn push_take<A: Allocator>(
    alloc: Global,
    map: &CrushMap<A>,
    bucket: BucketId,
    class: &Option<Name<Global>>,
    out: &mut Document,
) -> Result<(), AllocError>
    ensures { (t : List Row) → Stands map.now.forest t → OnOk result (out.new ≡ out.old
        ++ tokens_of (take_document t bucket class.now)) }
{
    let name = taken_name(alloc, map, bucket, class)?;
    out.begin_object()?;
    out.whole_if("item", taken_number(map, bucket, class))?;
    out.text("item_name", name.as_str())?;
    out.text("op", "take")?;
    out.end_object()
}

/// Returns the name that the bucket has in this map, or an empty name if the map doesn't have the
/// bucket. If the step takes a class, `~` and the class follow the name.
fn taken_name<A: Allocator>(
    alloc: Global,
    map: &CrushMap<A>,
    bucket: BucketId,
    class: &Option<Name<Global>>,
) -> Result<String, AllocError>
    ensures { IfOk result (λ name. (t : List Row) → Stands map.now.forest t
        → string_bytes name ≡ taken_name t bucket class.now) }
{
    let name = bucket_name(map, bucket);
    match class {
        Some(class) => classed_name(alloc, name, class),
        None => String::from_str(alloc, name),
    }
}

fn classed_name(alloc: Global, name: &str, class: &Name<Global>) -> Result<String, AllocError>
    ensures { IfOk result (λ text. string_bytes text ≡ name.now ++ codes "~" ++ class.now) }
{
    format!(in alloc; "{name}~{class}")
}

#[tactic(auto, unfolding(crush_print::specs::RuleLines::bucket_name))]
fn bucket_name<A: Allocator>(map: &CrushMap<A>, bucket: BucketId) -> &str
    ensures { (t : List Row) → Stands map.now.forest t → result.now ≡ bucket_name t bucket }
{
    match map.name_of(ItemId::Bucket(bucket)) {
        Some(name) => name,
        None => "",
    }
}

fn taken_number<A: Allocator>(
    map: &CrushMap<A>,
    bucket: BucketId,
    class: &Option<Name<Global>>,
) -> Option<i32>
    ensures { (t : List Row) → Stands map.now.forest t
        → result ≡ option_map bucket_number (taken_id t bucket class.now) }
{
    match taken_id(map, bucket, class) {
        Some(id) => Some(id.number()),
        None => None,
    }
}

/// Returns the id of what a step takes. If the step takes a class, this is the id that the bucket
/// has for the class, or `None` if the bucket has no such id. Otherwise it is the id of the bucket.
fn taken_id<A: Allocator>(
    map: &CrushMap<A>,
    bucket: BucketId,
    class: &Option<Name<Global>>,
) -> Option<BucketId>
    ensures { (t : List Row) → Stands map.now.forest t
        → result ≡ taken_id t bucket class.now }
{
    match class {
        Some(class) => class_id_of(map, bucket, class),
        None => Some(bucket),
    }
}

fn class_id_of<A: Allocator>(
    map: &CrushMap<A>,
    bucket: BucketId,
    class: &Name<Global>,
) -> Option<BucketId>
    ensures { (t : List Row) → Stands map.now.forest t
        → result ≡ taken_id t bucket (Some class.now) }
{
    match map.class_ids(bucket) {
        Some(ids) => class_id_among(ids, class),
        None => None,
    }
}

fn class_id_among<A: Allocator>(ids: &[ShadowId<A>], class: &Name<Global>) -> Option<BucketId>
    ensures { result ≡ class_id_among (each shadow_data ids.now) class.now }
{
    for id in ids {
        if id.class.is(class.as_bytes()) {
            return Some(id.id);
        }
    }
    None
}

#[tactic(auto, unfolding(crate::specs::RuleDocument::choice_word))]
fn choice_word(leaf: bool, firstn: bool) -> &'static str
    ensures { result.now ≡ choice_word leaf firstn }
{
    if leaf {
        if firstn {
            "chooseleaf_firstn"
        } else {
            "chooseleaf_indep"
        }
    } else if firstn {
        "choose_firstn"
    } else {
        "choose_indep"
    }
}

#[tactic(auto, unfolding(crate::specs::RuleDocument::choose_document))]
fn push_choice(
    leaf: bool,
    firstn: bool,
    count: i32,
    kind: &Name<Global>,
    out: &mut Document,
) -> Result<(), AllocError>
    ensures { OnOk result (out.new ≡ out.old
        ++ tokens_of (choose_document leaf firstn count kind.now)) }
{
    out.begin_object()?;
    out.whole("num", count)?;
    out.text("op", choice_word(leaf, firstn))?;
    out.text("type", kind.as_str())?;
    out.end_object()
}

#[tactic(auto, unfolding(crate::specs::RuleDocument::set_document))]
fn push_set(word: &Name<Global>, value: u32, out: &mut Document) -> Result<(), AllocError>
    ensures { OnOk result (out.new ≡ out.old ++ tokens_of (set_document word.now value)) }
{
    out.begin_object()?;
    out.natural("num", value as u64)?;
    out.text("op", word.as_str())?;
    out.end_object()
}

#[tactic(auto, unfolding(crate::specs::RuleDocument::emit_document))]
fn push_emit(out: &mut Document) -> Result<(), AllocError>
    ensures { OnOk result (out.new ≡ out.old ++ tokens_of emit_document) }
{
    out.begin_object()?;
    out.text("op", "emit")?;
    out.end_object()
}
