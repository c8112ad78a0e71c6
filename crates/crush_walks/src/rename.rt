//! Gives an item another name.

ghost use Rattle.std.specs.Prelude.{◌≡◌, Some};
ghost use Rattle.crush_walks.specs.Named.{name_in, with_name};
ghost use Rattle.crush_nodes.specs.Ops.{StoresUpTo};
ghost use Rattle.crush_nodes.specs.Seen.{items_of};
ghost use Rattle.crush_walks.specs.DescendsTo.{DescendsTo};
ghost use Rattle.crush_units.specs.declared.limits.TheConstants.{HEAVIEST_BUCKET};

use crate::change::{Rename, change_at};
use crush_nodes::descent::Descent;
use crush_nodes::node::Node;
use crush_units::{ItemId, Name};
use std::alloc::Allocator;

/// Gives an item another name, and returns the old name. `descent` leads to the item.
pub fn rename_in<A: Allocator, W: Descent>(
    items: &mut [Node<A>],
    descent: &W,
    id: &ItemId,
    name: Name<A>,
) -> Name<A>
    requires descent { DescendsTo (W.knows descent.now) id.now (items_of items.old) }
    requires stored { StoresUpTo HEAVIEST_BUCKET (items_of items.old) }
    ensures old { Some result ≡ name_in id.now (items_of items.old) }
    ensures after { items_of items.new ≡ with_name id.now name (items_of items.old) }
{
    change_at(items, descent, id, Rename { name })
}
