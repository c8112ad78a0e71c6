//! Sets the class of a device.

ghost use Rattle.std.specs.Prelude.{◌≡◌};
ghost use Rattle.crush_units.specs.declared.id.ItemId.TheVariants.{Device};
ghost use Rattle.crush_walks.specs.Classed.{class_of_first, with_class};
ghost use Rattle.crush_nodes.specs.Ops.{part_of, StoresUpTo};
ghost use Rattle.crush_nodes.specs.Seen.{items_of};
ghost use Rattle.crush_walks.specs.DescendsTo.{DescendsTo};
ghost use Rattle.crush_units.specs.declared.limits.TheConstants.{HEAVIEST_BUCKET};

use crate::change::{SetClass, change_at};
use crush_nodes::descent::Descent;
use crush_nodes::node::Node;
use crush_units::{DeviceId, ItemId, Name};
use std::alloc::Allocator;

/// Gives a device another class, or no class if `class` is `None`. Returns the old class. `descent`
/// leads to the device.
pub fn set_class_in<A: Allocator, W: Descent>(
    items: &mut [Node<A>],
    descent: &W,
    id: DeviceId,
    class: Option<Name<A>>,
) -> Option<Name<A>>
    requires descent { DescendsTo (W.knows descent.now) (Device id) (items_of items.old) }
    requires stored { StoresUpTo HEAVIEST_BUCKET (items_of items.old) }
    ensures old { result ≡ class_of_first (part_of (Device id) (items_of items.old)) }
    ensures after { items_of items.new ≡ with_class id class (items_of items.old) }
{
    change_at(items, descent, &ItemId::Device(id), SetClass { class })
}
