//! The checks that a method of the builder makes before it changes the map. A function whose name
//! ends in `_fault` returns the first fault that the method has to report, or `None`.

ghost use Rattle.std.specs.Prelude.{◌≡◌, ◌∷◌, [], ℕ, true, false, not};
ghost use Rattle.crush_model.specs.Forest.{all_items, rows_of};
ghost use Rattle.crush_model.specs.Lawful.{is_too_heavy};
ghost use Rattle.crush_model.specs.Stored.{weight_sum};
ghost use Rattle.crush_model.specs.Table.{is_there, is_placed};
ghost use Rattle.crush_nodes.specs.Ops.{part_of};
ghost use Rattle.crush_map.specs.WrittenItems.{adjustment};
ghost use Rattle.crush_builder.specs.Built.{Draft, filling, table_with_item};
ghost use Rattle.crush_builder.specs.Building.{IsDraft};
ghost use Rattle.crush_builder.specs.declared.fault.BuildFault.TheVariants.{DuplicateId, DuplicateName, TooMany};
ghost use Rattle.crush_builder.specs.Faults.{first_fault, kind_fault, device_fault, begin_fault};
ghost use Rattle.crush_builder.specs.Faults.{is_closed, is_heavy_device, tunable_fault, class_id_fault};
ghost use Rattle.crush_builder.specs.Pending.{with_first_weight};

use super::MapBuilder;
use crate::fault::BuildFault;
use crush_tree::Place;
use crush_units::{BucketId, DeviceId, ItemId, TypeId, Weight};
use std::alloc::Allocator;

impl<A: Allocator> MapBuilder<A> {
    pub(super) fn kind_fault(&self, number: TypeId, name: &[u8]) -> Option<BuildFault>
        ensures { (d : Draft) → IsDraft self.now d → result ≡ kind_fault d number name.now }
    {
        duplicate_or_full(
            self.has_kind_number(number),
            self.has_kind_name(name),
            self.is_full_of_kinds(),
        )
    }

    pub(super) fn tunable_fault(&self, name: &[u8]) -> Option<BuildFault>
        ensures { (d : Draft) → IsDraft self.now d → result ≡ tunable_fault d name.now }
    {
        duplicate_or_full(false, self.has_tunable(name), self.is_full_of_tunables())
    }

    pub(super) fn device_fault(&self, id: DeviceId, name: &[u8]) -> Option<BuildFault>
        ensures { (d : Draft) → IsDraft self.now d → result ≡ device_fault d id name.now }
    {
        duplicate_or_full(
            self.has_device(id),
            self.has_name(name),
            self.is_full_of_devices(),
        )
    }

    pub(super) fn begin_fault(&self, kind: &[u8], name: &[u8]) -> Option<BuildFault>
        ensures { (d : Draft) → IsDraft self.now d → result ≡ begin_fault d kind.now name.now }
    {
        if self.has_name(name) {
            return Some(BuildFault::DuplicateName);
        }
        if !self.names_bucket_kind(kind) {
            return Some(BuildFault::UnknownType);
        }
        if self.is_full_of_buckets() {
            return Some(BuildFault::TooMany);
        }
        None
    }

    pub(super) fn class_id_fault(&self, id: BucketId, class: &[u8]) -> Option<BuildFault>
        ensures { (d : Draft) → IsDraft self.now d → result ≡ class_id_fault d id class.now }
    {
        duplicate_or_full(
            self.has_bucket_id(id),
            self.has_class(class),
            self.is_full_of_class_ids(),
        )
    }

    /// Whether the item is a device or a complete bucket of the map.
    pub(super) fn is_closed(&self, id: ItemId) -> bool
        ensures { (d : Draft) → IsDraft self.now d → result ≡ is_closed d id }
    {
        let item = &id;
        let open = match item {
            ItemId::Bucket(bucket) => self.fills(*bucket),
            ItemId::Device(_) => false,
        };
        self.hierarchy.kind(*item).is_some() && !open
    }

    /// Whether the weights of all buckets and of the whole map stay within their limits if the
    /// bucket gets the item. If the item is a device, `weight` is the weight that it gets.
    pub(super) fn fits_item(&self, bucket: BucketId, id: ItemId, weight: Weight) -> bool
        requires fills { self.now.pending ≡ filling bucket }
        requires closed { (d : Draft) → IsDraft self.now d → is_closed d id ≡ true }
        requires free { (d : Draft) → IsDraft self.now d → is_placed d.table id ≡ false }
        ensures { (d : Draft) → IsDraft self.now d
            → result ≡ not (is_too_heavy (table_with_item d.pending id weight d.table)) }
    {
        self.hierarchy.recall_invariant();
        let item = &id;
        let coming = self.weight_to_come(*item, weight);
        self.hierarchy
            .fits_move(*item, Place::Bucket(bucket), Some(coming))
    }

    /// Returns the weight that the item will have in the bucket: `weight` for a device, and the sum
    /// of the weights of the devices below it for a bucket.
    fn weight_to_come(&self, id: ItemId, weight: Weight) -> Weight
        requires { is_there (rows_of self.now.forest) id ≡ true }
        ensures { result
            ≡ weight_sum (with_first_weight weight (part_of id (all_items self.now.forest))) }
    {
        self.hierarchy.recall_invariant();
        let item = &id;
        self.hierarchy.recall_part(*item);
        match item {
            ItemId::Device(_) => weight,
            ItemId::Bucket(_) => match self.hierarchy.weight(*item) {
                Some(own) => own,
                None => unreachable!(),
            },
        }
    }

    /// Returns 1 if the item is a bucket and `written` is another weight than the sum of the
    /// weights of the devices below it. Returns 0 otherwise.
    pub(super) fn adjustment(&self, id: ItemId, written: Option<Weight>) -> u32
        ensures { (d : Draft) → IsDraft self.now d → is_there d.table id ≡ true
            → result ≡ adjustment d.table id written }
    {
        let item = &id;
        match item {
            ItemId::Device(_) => 0,
            ItemId::Bucket(_) => {
                let Some(written) = written else {
                    return 0;
                };
                let Some(own) = self.hierarchy.weight(*item) else {
                    return 0;
                };
                if written == own { 0 } else { 1 }
            }
        }
    }
}

/// Returns the fault that belongs to the first argument that is true, or `None` if all are false.
/// `id` says whether the id is taken, `name` whether the name is taken, and `full` whether the
/// limit is reached.
fn duplicate_or_full(id: bool, name: bool, full: bool) -> Option<BuildFault>
    ensures { result ≡ first_fault
        ((DuplicateId, id) ∷ ((DuplicateName, name) ∷ ((TooMany, full) ∷ []))) }
{
    if id {
        return Some(BuildFault::DuplicateId);
    }
    if name {
        return Some(BuildFault::DuplicateName);
    }
    if full {
        return Some(BuildFault::TooMany);
    }
    None
}

/// Whether the item is a device and its `written` weight is above 2147483647 units.
pub(super) fn is_heavy_device(id: ItemId, written: Option<Weight>) -> bool
    ensures { result ≡ is_heavy_device id written }
{
    let item = &id;
    match (item, written) {
        (ItemId::Device(_), Some(weight)) => !weight.is_device_weight(),
        _ => false,
    }
}
