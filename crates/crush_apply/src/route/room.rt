//! Tests whether the numbers of devices and buckets, and the sums, stay in range when an item is
//! put at a destination.

ghost use Rattle.std.specs.Prelude.{◌≡◌, ℕ, ◌≤◌, List, Some, None, false, not};
ghost use Rattle.crush_units.specs.declared.id.ItemId.TheVariants.{Device};
ghost use Rattle.crush_units.specs.declared.limits.TheConstants.{HEAVIEST_DEVICE};
ghost use Rattle.crush_model.specs.Items.{LeafData};
ghost use Rattle.crush_model.specs.ItemRows.{device_row};
ghost use Rattle.crush_model.specs.Lawful.{has_too_many, is_too_heavy};
ghost use Rattle.crush_model.specs.Stands.{Stands};
ghost use Rattle.crush_model.specs.Table.{Row, row_of, is_there};
ghost use Rattle.crush_edits.specs.Put.{put};
ghost use Rattle.crush_apply.specs.Coming.{CanMove};
ghost use Rattle.crush_apply.specs.Destination.{Leads};

use crate::route::destination::Destination;
use crush_hierarchy::Hierarchy;
use crush_units::limits::{MOST_BUCKETS, MOST_DEVICES};
use crush_units::{DeviceId, ItemId, Weight};
use std::alloc::Allocator;

/// Whether the map would have too many buckets after an item of the map is moved to the
/// destination.
pub(crate) fn lacks_room<A: Allocator>(hierarchy: &Hierarchy<A>, to: &Destination) -> bool
    ensures { (t : List Row) (r : Row) → Stands hierarchy.now t → Leads t to.now
        → row_of t r.id ≡ Some r → (w : ℕ)
        → result ≡ has_too_many (put t (record r { weight = w }) to.now.stops) }
{
    hierarchy.recall_invariant();
    hierarchy.counts().buckets as usize + to.fresh() > MOST_BUCKETS as usize
}

/// Whether the map would have too many devices or buckets after a device is created at the
/// destination.
pub(crate) fn lacks_room_for_new<A: Allocator>(hierarchy: &Hierarchy<A>, to: &Destination) -> bool
    ensures { (t : List Row) (d : LeafData) → Stands hierarchy.now t → Leads t to.now
        → is_there t (Device d.id) ≡ false
        → result ≡ has_too_many (put t (device_row None d) to.now.stops) }
{
    hierarchy.recall_invariant();
    let counts = hierarchy.counts();
    let fresh = to.fresh();
    counts.devices >= MOST_DEVICES || counts.buckets as usize + fresh > MOST_BUCKETS as usize
}

/// Whether all sums stay in range if an item is moved to the destination.
pub(crate) fn fits_put_item<A: Allocator>(
    hierarchy: &Hierarchy<A>,
    id: ItemId,
    to: &Destination,
) -> bool
    requires { (t : List Row) → Stands hierarchy.now t → CanMove t id to.now }
    ensures { (t : List Row) (r : Row) → Stands hierarchy.now t → row_of t id ≡ Some r
        → has_too_many (put t r to.now.stops) ≡ false
        → result ≡ not (is_too_heavy (put t r to.now.stops)) }
{
    hierarchy.recall_invariant();
    let id = &id;
    hierarchy.recall_part(*id);
    hierarchy.fits_move(*id, to.place(), None)
}

/// Whether all sums stay in range if a device is moved to the destination and gets this weight.
pub(crate) fn fits_put_device<A: Allocator>(
    hierarchy: &Hierarchy<A>,
    device: DeviceId,
    weight: Weight,
    to: &Destination,
) -> bool
    requires can { (t : List Row) → Stands hierarchy.now t → CanMove t (Device device) to.now }
    requires weight { weight ≤ HEAVIEST_DEVICE }
    ensures { (t : List Row) (r : Row) → Stands hierarchy.now t → row_of t (Device device) ≡ Some r
        → has_too_many (put t (record r { weight = weight }) to.now.stops) ≡ false
        → result ≡ not (is_too_heavy (put t (record r { weight = weight }) to.now.stops)) }
{
    hierarchy.recall_invariant();
    hierarchy.recall_part(ItemId::Device(device));
    hierarchy.fits_move(ItemId::Device(device), to.place(), Some(weight))
}

/// Whether all sums stay in range if a device of this weight is created at the destination.
pub(crate) fn fits_put_new<A: Allocator>(
    hierarchy: &Hierarchy<A>,
    weight: Weight,
    to: &Destination,
) -> bool
    requires leads { (t : List Row) → Stands hierarchy.now t → Leads t to.now }
    requires weight { weight ≤ HEAVIEST_DEVICE }
    ensures { (t : List Row) (d : LeafData) → Stands hierarchy.now t
        → is_there t (Device d.id) ≡ false → d.weight ≡ weight
        → result ≡ not (is_too_heavy (put t (device_row None d) to.now.stops)) }
{
    hierarchy.recall_invariant();
    hierarchy.fits_attach(to.place(), weight)
}
