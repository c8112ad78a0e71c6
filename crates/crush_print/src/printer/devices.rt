//! Appends the section of the devices.

ghost use Rattle.std.specs.Prelude.{◌≡◌, List, ◌++◌, None, OnOk, flat_map};
ghost use Rattle.crush_model.specs.ItemRows.{device_row};
ghost use Rattle.crush_model.specs.Stands.{Stands};
ghost use Rattle.crush_model.specs.Table.{Row};
ghost use Rattle.crush_nodes.specs.Seen.{leaf_data};
ghost use Rattle.crush_print.specs.Lines.{device_line};
ghost use Rattle.crush_print.specs.MapText.{device_section};

use crate::lines;
use crate::order::devices_in_order;
use crush_tree::{Forest, Leaf};
use std::alloc::{AllocError, Allocator, Global};

/// Appends the heading of the section of the devices, and then the devices by ascending id.
#[tactic(auto, unfolding(crate::specs::MapText::device_section))]
pub(crate) fn push_devices<A: Allocator>(
    alloc: Global,
    forest: &Forest<A>,
    out: &mut Vec<u8>,
) -> Result<(), AllocError>
    ensures { (t : List Row) → Stands forest.now t
        → OnOk result (out.new.items ≡ out.old.items ++ device_section t) }
{
    out.extend_from_slice(b"\n# devices\n")?;
    let devices = devices_in_order(alloc, forest)?;
    push_leaves(devices.as_slice(), out)
}

fn push_leaves<A: Allocator>(devices: &[&Leaf<A>], out: &mut Vec<u8>) -> Result<(), AllocError>
    ensures { OnOk result (out.new.items ≡ out.old.items
        ++ flat_map (λ d. device_line (device_row None (leaf_data d.now))) devices.now) }
{
    for device in devices {
        lines::push_device(*device, out)?;
    }
    Ok(())
}
