//! Writes the class ids of a bucket as JSON values. A class id is the id that the bucket has for
//! one device class.

ghost use Rattle.std.specs.Prelude.{◌≡◌, ◌++◌, OnOk, flat_map, map as each};
ghost use Rattle.crush_nodes.specs.Seen.{shadow_data};
ghost use Rattle.crush_json.specs.ClassIds.{class_id_document, class_ids_document};
ghost use Rattle.crush_json.specs.Tokens.{tokens_of};

use crate::document::Document;
use crush_tree::ShadowId;
use crush_units::ItemId;
use std::alloc::{AllocError, Allocator};

/// Writes a list with an object for each of these class ids, in their order.
pub(crate) fn push_class_ids<A: Allocator>(
    ids: &[ShadowId<A>],
    out: &mut Document,
) -> Result<(), AllocError>
    ensures { OnOk result (out.new ≡ out.old
        ++ tokens_of (class_ids_document (each shadow_data ids.now))) }
{
    out.begin_array()?;
    push_each(ids, out)?;
    out.end_array()
}

fn push_each<A: Allocator>(ids: &[ShadowId<A>], out: &mut Document) -> Result<(), AllocError>
    ensures { OnOk result (out.new ≡ out.old
        ++ flat_map (λ x. tokens_of (class_id_document (shadow_data x))) ids.now) }
{
    for id in ids {
        push_class_id(id, out)?;
    }
    Ok(())
}

#[tactic(auto, unfolding(crate::specs::ClassIds::class_id_document))]
fn push_class_id<A: Allocator>(id: &ShadowId<A>, out: &mut Document) -> Result<(), AllocError>
    ensures { OnOk result (out.new ≡ out.old
        ++ tokens_of (class_id_document (shadow_data id.now))) }
{
    out.begin_object()?;
    out.text("class", id.class.as_str())?;
    out.id("id", ItemId::Bucket(id.id))?;
    out.end_object()
}
