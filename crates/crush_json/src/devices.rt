//! Writes the devices of a map as JSON values.

ghost use Rattle.std.specs.Prelude.{◌≡◌, ◌++◌, OnOk, flat_map, map as each};
ghost use Rattle.crush_nodes.specs.Seen.{leaf_data};
ghost use Rattle.crush_nodes.specs.SeenView.{view_data};
ghost use Rattle.crush_json.specs.ItemDocuments.{leaf_document};
ghost use Rattle.crush_json.specs.MapDocument.{device_document};
ghost use Rattle.crush_json.specs.Tokens.{tokens_of};
ghost use Rattle.crush_json.specs.Values.{list};

use crate::document::Document;
use crush_tree::{Leaf, View};
use std::alloc::{AllocError, Allocator};

/// Writes a list with an object for each of these devices, in their order.
pub(crate) fn push_devices<A: Allocator>(
    devices: &[&Leaf<A>],
    out: &mut Document,
) -> Result<(), AllocError>
    ensures { OnOk result (out.new ≡ out.old
        ++ tokens_of (list (each (λ d. leaf_document (leaf_data d.now)) devices.now))) }
{
    out.begin_array()?;
    push_each(devices, out)?;
    out.end_array()
}

fn push_each<A: Allocator>(devices: &[&Leaf<A>], out: &mut Document) -> Result<(), AllocError>
    ensures { OnOk result (out.new ≡ out.old
        ++ flat_map (λ d. tokens_of (leaf_document (leaf_data d.now))) devices.now) }
{
    for device in devices {
        push_device(*device, out)?;
    }
    Ok(())
}

fn push_device<A: Allocator>(device: &Leaf<A>, out: &mut Document) -> Result<(), AllocError>
    ensures { OnOk result (out.new ≡ out.old ++ tokens_of (leaf_document (leaf_data device.now))) }
{
    let view = View::device(device, None);
    push_view(&view, out)
}

#[tactic(auto, unfolding(crate::specs::MapDocument::device_document))]
fn push_view(item: &View<'_>, out: &mut Document) -> Result<(), AllocError>
    ensures { OnOk result (out.new ≡ out.old ++ tokens_of (device_document (view_data item.now))) }
{
    out.begin_object()?;
    out.text_if("class", item.class)?;
    out.id("id", item.id)?;
    out.text("name", item.name)?;
    out.end_object()
}
