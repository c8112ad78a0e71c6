//! Writes the buckets of a map as JSON values.

ghost use Rattle.std.specs.Prelude.{◌≡◌, ◌++◌, [], ◌∷◌, OnOk, None, codes, flat_map, map as each};
ghost use Rattle.std.specs.Option.{option_map_or};
ghost use Rattle.crush_nodes.specs.Seen.{items_of};
ghost use Rattle.crush_nodes.specs.SeenView.{view_data};
ghost use Rattle.crush_print.specs.MapText.{kind_text};
ghost use Rattle.crush_print.specs.WalkStep.{node_view};
ghost use Rattle.crush_units.specs.Alg.{alg_text};
ghost use Rattle.serde_json.specs.Data.{string};
ghost use Rattle.crush_json.specs.ItemDocuments.{own_document, placed_documents};
ghost use Rattle.crush_json.specs.MapDocument.{bucket_document, item_document};
ghost use Rattle.crush_json.specs.Tokens.{member_tokens, tokens_of, tokens_of_all};
ghost use Rattle.crush_json.specs.Values.{list, natural};

use crate::document::Document;
use crate::kinds::kind_name;
use crush_map::Setting;
use crush_tree::{Bucket, Node, View};
use crush_units::Alg;
use std::alloc::{AllocError, Allocator};

/// Writes a list with an object for each of these buckets, in their order. The object of a bucket
/// also has the bucket's items.
pub(crate) fn push_buckets<A: Allocator>(
    setting: &Setting,
    buckets: &[&Bucket<A>],
    out: &mut Document,
) -> Result<(), AllocError>
    ensures { OnOk result (out.new ≡ out.old
        ++ tokens_of (list (each (λ b. own_document setting.now b.now) buckets.now))) }
{
    out.begin_array()?;
    push_each(setting, buckets, out)?;
    out.end_array()
}

fn push_each<A: Allocator>(
    setting: &Setting,
    buckets: &[&Bucket<A>],
    out: &mut Document,
) -> Result<(), AllocError>
    ensures { OnOk result (out.new ≡ out.old
        ++ flat_map (λ b. tokens_of (own_document setting.now b.now)) buckets.now) }
{
    for bucket in buckets {
        push_bucket(setting, *bucket, out)?;
    }
    Ok(())
}

fn push_bucket<A: Allocator>(
    setting: &Setting,
    bucket: &Bucket<A>,
    out: &mut Document,
) -> Result<(), AllocError>
    ensures { OnOk result (out.new ≡ out.old ++ tokens_of (own_document setting.now bucket.now)) }
{
    let view = View::bucket(bucket, None);
    push_view(setting, &view, bucket.items.as_slice(), out)
}

#[tactic(auto, unfolding(crate::specs::MapDocument::bucket_document))]
fn push_view<A: Allocator>(
    setting: &Setting,
    bucket: &View<'_>,
    items: &[Node<A>],
    out: &mut Document,
) -> Result<(), AllocError>
    ensures { OnOk result (out.new ≡ out.old ++ tokens_of (bucket_document
        (kind_text setting.now (view_data bucket.now).kind)
        (placed_documents 0 (items_of items.now)) (view_data bucket.now))) }
{
    out.begin_object()?;
    out.text("alg", alg_name(bucket.alg))?;
    out.text("hash", "rjenkins1")?;
    out.id("id", bucket.id)?;
    out.key("items")?;
    push_items(items, out)?;
    push_kind(setting, bucket, out)?;
    out.natural("weight", bucket.weight.units() as u64)?;
    out.end_object()
}

/// Returns the name of the algorithm. Returns an empty text if there is no algorithm.
fn alg_name(alg: Option<Alg>) -> &'static str
    ensures { result.now ≡ option_map_or alg_text alg [] }
{
    match alg {
        Some(alg) => alg.name(),
        None => "",
    }
}

/// Writes three members: the item's name, the number of its type, and the name of its type.
fn push_kind(setting: &Setting, item: &View<'_>, out: &mut Document) -> Result<(), AllocError>
    ensures { OnOk result (out.new ≡ out.old
        ++ (member_tokens (codes "name") (string (view_data item.now).name)
        ++ member_tokens (codes "type_id") (natural (view_data item.now).kind)
        ++ member_tokens (codes "type_name")
        (string (kind_text setting.now (view_data item.now).kind)))) }
{
    out.text("name", item.name)?;
    out.natural("type_id", item.kind.number() as u64)?;
    out.text("type_name", kind_name(setting, item.kind))
}

fn push_items<A: Allocator>(items: &[Node<A>], out: &mut Document) -> Result<(), AllocError>
    ensures { OnOk result (out.new ≡ out.old
        ++ tokens_of (list (placed_documents 0 (items_of items.now)))) }
{
    out.begin_array()?;
    push_each_item(items, out)?;
    out.end_array()
}

fn push_each_item<A: Allocator>(items: &[Node<A>], out: &mut Document) -> Result<(), AllocError>
    ensures { OnOk result (out.new ≡ out.old
        ++ tokens_of_all (placed_documents 0 (items_of items.now))) }
{
    for (place, item) in items.iter().enumerate() {
        push_item(item, place as u64, out)?;
    }
    Ok(())
}

/// Writes an item of a bucket. `place` is the index of the item among the bucket's items, from 0.
fn push_item<A: Allocator>(item: &Node<A>, place: u64, out: &mut Document) -> Result<(), AllocError>
    ensures { OnOk result (out.new ≡ out.old
        ++ tokens_of (item_document place (node_view None item.now))) }
{
    let view = View::item(item, None);
    push_item_view(&view, place, out)
}

#[tactic(auto, unfolding(crate::specs::MapDocument::item_document))]
fn push_item_view(item: &View<'_>, place: u64, out: &mut Document) -> Result<(), AllocError>
    ensures { OnOk result (out.new ≡ out.old
        ++ tokens_of (item_document place (view_data item.now))) }
{
    out.begin_object()?;
    out.id("id", item.id)?;
    out.natural("pos", place)?;
    out.natural("weight", item.weight.units() as u64)?;
    out.end_object()
}
