//! Writes the tree of a map as a JSON value.

ghost use Rattle.std.specs.Prelude.{◌≡◌, ◌++◌, List, OnOk, flat_map, map as each};
ghost use Rattle.crush_nodes.specs.Seen.{node_id};
ghost use Rattle.crush_nodes.specs.SeenView.{view_data};
ghost use Rattle.crush_model.specs.Table.{Row};
ghost use Rattle.crush_units.specs.Id.{item_number};
ghost use Rattle.crush_print.specs.WalkStep.{walk_step_data};
ghost use Rattle.crush_json.specs.ItemDocuments.{AreBuckets};
ghost use Rattle.crush_json.specs.Tokens.{children_tokens, item_tokens, tokens_of, tokens_of_all};
ghost use Rattle.crush_json.specs.TreeDocument.{is_among, is_stray, node_document, node_documents, node_if, tree_document, type_word};
ghost use Rattle.crush_json.specs.Values.{list, whole};

use crate::document::Document;
use crate::items::children_of;
use crush_map::Setting;
use crush_print::WalkStep;
use crush_tree::{Bucket, Node, View};
use crush_units::{ItemId, TypeId};
use std::alloc::{AllocError, Allocator};

/// Writes the tree of these steps, which are the steps of a walk through the map's tree. `buckets`
/// are all buckets of the map, in the order in which
/// [`buckets_in_order`](crate::items::buckets_in_order) returns them. The member `children` of a
/// bucket's node has the ids of all items of the bucket, even of the items that are not among the
/// steps. Fails only if memory runs out.
#[tactic(auto, unfolding(crate::specs::TreeDocument::tree_document))]
pub(crate) fn push_tree<A: Allocator>(
    setting: &Setting,
    buckets: &[&Bucket<A>],
    steps: &[WalkStep<'_, A>],
    out: &mut Document,
) -> Result<(), AllocError>
    ensures { (t : List Row) → AreBuckets (λ b. b.now) t buckets.now
        → OnOk result (out.new ≡ out.old
        ++ tokens_of (tree_document setting.now t (each walk_step_data steps.now))) }
{
    out.begin_object()?;
    out.key("nodes")?;
    push_nodes(setting, buckets, false, steps, out)?;
    out.key("stray")?;
    push_nodes(setting, buckets, true, steps, out)?;
    out.end_object()
}

/// If `stray` is true, writes a list with a node for each step whose item is stray. If `stray` is
/// false, writes a list with a node for each step whose item isn't stray. [`is_stray`] says which
/// items are stray.
fn push_nodes<A: Allocator>(
    setting: &Setting,
    buckets: &[&Bucket<A>],
    stray: bool,
    steps: &[WalkStep<'_, A>],
    out: &mut Document,
) -> Result<(), AllocError>
    ensures { (t : List Row) → AreBuckets (λ b. b.now) t buckets.now
        → OnOk result (out.new ≡ out.old
        ++ tokens_of (list (node_documents setting.now t stray (each walk_step_data steps.now)))) }
{
    out.begin_array()?;
    push_each(setting, buckets, stray, steps, out)?;
    out.end_array()
}

fn push_each<A: Allocator>(
    setting: &Setting,
    buckets: &[&Bucket<A>],
    stray: bool,
    steps: &[WalkStep<'_, A>],
    out: &mut Document,
) -> Result<(), AllocError>
    ensures { (t : List Row) → AreBuckets (λ b. b.now) t buckets.now
        → OnOk result (out.new ≡ out.old
        ++ flat_map (λ x. tokens_of_all (node_if setting.now t stray (walk_step_data x)))
        steps.now) }
{
    for step in steps {
        push_step(setting, buckets, stray, step, out)?;
    }
    Ok(())
}

fn push_step<A: Allocator>(
    setting: &Setting,
    buckets: &[&Bucket<A>],
    stray: bool,
    step: &WalkStep<'_, A>,
    out: &mut Document,
) -> Result<(), AllocError>
    ensures { (t : List Row) → AreBuckets (λ b. b.now) t buckets.now
        → OnOk result (out.new ≡ out.old
        ++ tokens_of_all (node_if setting.now t stray (walk_step_data step.now))) }
{
    let item = step.view();
    if is_among(stray, &item) {
        push_node(setting, buckets, step.depth, &item, out)
    } else {
        Ok(())
    }
}

fn is_among(stray: bool, item: &View<'_>) -> bool
    ensures { result ≡ is_among stray (view_data item.now) }
{
    if stray {
        is_stray(item)
    } else {
        !is_stray(item)
    }
}

/// Whether the item is stray, which means that it is a device that no bucket holds.
fn is_stray(item: &View<'_>) -> bool
    ensures { result ≡ is_stray (view_data item.now) }
{
    match item.id {
        ItemId::Device(_) => item.parent.is_none(),
        ItemId::Bucket(_) => false,
    }
}

/// Writes the node of an item. `depth` says how many levels the item is below the top of the walk.
fn push_node<A: Allocator>(
    setting: &Setting,
    buckets: &[&Bucket<A>],
    depth: u32,
    item: &View<'_>,
    out: &mut Document,
) -> Result<(), AllocError>
    ensures { (t : List Row) → AreBuckets (λ b. b.now) t buckets.now
        → OnOk result (out.new ≡ out.old
        ++ tokens_of (node_document setting.now t depth (view_data item.now))) }
{
    out.begin_object()?;
    push_children(buckets, item.id, out)?;
    out.natural("depth", depth as u64)?;
    out.text_if("device_class", item.class)?;
    push_item(setting, item, out)?;
    out.end_object()
}

fn push_children<A: Allocator>(
    buckets: &[&Bucket<A>],
    id: ItemId,
    out: &mut Document,
) -> Result<(), AllocError>
    ensures { (t : List Row) → AreBuckets (λ b. b.now) t buckets.now
        → OnOk result (out.new ≡ out.old
        ++ children_tokens t id) }
{
    match id {
        ItemId::Device(_) => Ok(()),
        ItemId::Bucket(bucket) => {
            out.key("children")?;
            push_ids(children_of(buckets, bucket), out)
        }
    }
}

fn push_ids<A: Allocator>(nodes: &[Node<A>], out: &mut Document) -> Result<(), AllocError>
    ensures { OnOk result (out.new ≡ out.old
        ++ tokens_of (list (each (λ i. whole (item_number i)) (each node_id nodes.now)))) }
{
    out.begin_array()?;
    push_each_id(nodes, out)?;
    out.end_array()
}

fn push_each_id<A: Allocator>(nodes: &[Node<A>], out: &mut Document) -> Result<(), AllocError>
    ensures { OnOk result (out.new ≡ out.old
        ++ flat_map (λ n. tokens_of (whole (item_number (node_id n)))) nodes.now) }
{
    for node in nodes {
        out.push_id(node.id())?;
    }
    Ok(())
}

fn push_item(setting: &Setting, item: &View<'_>, out: &mut Document) -> Result<(), AllocError>
    ensures { OnOk result (out.new ≡ out.old
        ++ item_tokens setting.now (view_data item.now)) }
{
    out.id("id", item.id)?;
    out.text("name", item.name)?;
    out.text("type", type_name(setting, item.id, item.kind))?;
    out.natural("type_id", item.kind.number() as u64)?;
    out.natural("weight", item.weight.units() as u64)
}

/// Returns the name of an item's type. If the setting doesn't have the type, returns `osd` for a
/// device and an empty text for a bucket.
pub(crate) fn type_name(setting: &Setting, id: ItemId, kind: TypeId) -> &str
    ensures { result.now ≡ type_word setting.now id kind }
{
    match setting.kind_name(kind) {
        Some(name) => name.as_str(),
        None => match id {
            ItemId::Device(_) => "osd",
            ItemId::Bucket(_) => "",
        },
    }
}
