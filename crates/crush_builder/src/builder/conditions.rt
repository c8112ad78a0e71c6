//! Tests of the map that is being built. `crush_text` uses many of them to find a fault before it
//! calls a method that changes the map. The methods of the builder use some of them, too.

ghost use Rattle.std.specs.Prelude.{◌≡◌, ◌==◌, ◌↔◌, IsTrue, IfSome, IfOk, map, bytes_eq, true, false};
ghost use Rattle.std.specs.Option.{ok_or};
ghost use Rattle.crush_builder.specs.declared.fault.BuildFault.TheVariants.{UnknownItem};
ghost use Rattle.crush_units.specs.declared.id.ItemId.TheVariants.{Device, Bucket};
ghost use Rattle.crush_model.specs.Table.{is_there, is_placed};
ghost use Rattle.crush_edits.specs.Setting.{kind_number, has_tunable};
ghost use Rattle.crush_builder.specs.Built.{Draft, nothing};
ghost use Rattle.crush_builder.specs.Building.{IsDraft, is_begun, is_numbered, is_filling, is_open};
ghost use Rattle.crush_builder.specs.Building.{has_kind_number, has_kind_name, has_name, has_bucket_id};
ghost use Rattle.crush_builder.specs.Building.{is_bucket_kind, item_named, is_full_of_devices};
ghost use Rattle.crush_builder.specs.Building.{is_full_of_buckets, is_full_of_kinds};
ghost use Rattle.crush_builder.specs.Building.{is_full_of_tunables, has_class};
ghost use Rattle.crush_builder.specs.Building.{is_full_of_class_ids, names_bucket_kind};
ghost use Rattle.crush_builder.specs.Building.{has_pending_id, pending_class_ids};
ghost use Rattle.crush_nodes.specs.Seen.{shadow_data};
ghost use Rattle.crush_nodes.specs.declared.node.ShadowId.{ShadowId as DeclaredShadow};
ghost use Rattle.std.specs.List.{list_any};

use super::{MapBuilder, Pending};
use crate::fault::BuildFault;
use crush_tree::ShadowId;
use crush_units::limits::{MOST_BUCKETS, MOST_CLASS_IDS, MOST_DEVICES, MOST_TUNABLES, MOST_TYPES};
use crush_units::{BucketId, DeviceId, ItemId, TypeId};
use std::alloc::Allocator;

impl<A: Allocator> MapBuilder<A> {
    /// Whether no statement is incomplete, so that a type, tunable, device, bucket or rule may come
    /// next.
    pub fn is_idle(&self) -> bool
        ensures { IsTrue result ↔ (self.now.pending ≡ nothing) }
    {
        matches!(self.pending, Pending::Nothing)
    }

    /// Whether the statement of a bucket has begun, and the bucket has no id yet.
    pub fn is_begun(&self) -> bool
        ensures { result ≡ is_begun self.now.pending }
    {
        matches!(self.pending, Pending::Begun(..))
    }

    /// Whether a bucket has its id but no algorithm yet, so that class ids or the algorithm may
    /// come next.
    pub fn is_numbered(&self) -> bool
        ensures { result ≡ is_numbered self.now.pending }
    {
        matches!(self.pending, Pending::Numbered(..))
    }

    /// Whether a bucket has its algorithm and isn't complete yet, so that an item or the end of the
    /// bucket may come next.
    pub fn is_filling(&self) -> bool
        ensures { result ≡ is_filling self.now.pending }
    {
        matches!(self.pending, Pending::Filling(_))
    }

    /// Whether a device has this id.
    pub fn has_device(&self, id: DeviceId) -> bool
        ensures { (d : Draft) → IsDraft self.now d → result ≡ is_there d.table (Device id) }
    {
        self.hierarchy.kind(ItemId::Device(id)).is_some()
    }

    /// Whether a bucket has this id, or one of a bucket's class ids is this id. The incomplete
    /// bucket also counts.
    pub fn has_bucket_id(&self, id: BucketId) -> bool
        ensures { (d : Draft) → IsDraft self.now d → result ≡ has_bucket_id d id }
    {
        self.hierarchy.is_used(id) || self.has_pending_id(id)
    }

    /// Whether the incomplete bucket, if it has no algorithm yet, has a class id for this class.
    ///
    /// Returns `false` if no bucket is incomplete, or if the incomplete bucket has its algorithm.
    pub fn has_class(&self, class: &[u8]) -> bool
        ensures { (d : Draft) → IsDraft self.now d → result ≡ has_class d class.now }
    {
        names_class(self.class_ids(), class)
    }

    /// Whether the incomplete bucket, if it has no algorithm yet, already has 16 class ids, which
    /// is the maximum.
    pub fn is_full_of_class_ids(&self) -> bool
        ensures { (d : Draft) → IsDraft self.now d → result ≡ is_full_of_class_ids d }
    {
        self.class_ids().len() >= MOST_CLASS_IDS
    }

    /// Whether an item has this name. The incomplete bucket also counts.
    pub fn has_name(&self, name: &[u8]) -> bool
        ensures { (d : Draft) → IsDraft self.now d → result ≡ has_name d name.now }
    {
        let pending = match &self.pending {
            Pending::Begun(_, own) => own.is(name),
            Pending::Numbered(_, own, _, _) => own.is(name),
            _ => false,
        };
        self.hierarchy.id_of_bytes(name).is_some() || pending
    }

    /// Whether a type has this number.
    pub fn has_kind_number(&self, number: TypeId) -> bool
        ensures { (d : Draft) → IsDraft self.now d → result ≡ has_kind_number d.setting number }
    {
        self.setting.kind_name(number).is_some()
    }

    /// Whether a type has this name.
    pub fn has_kind_name(&self, name: &[u8]) -> bool
        ensures { (d : Draft) → IsDraft self.now d → result ≡ has_kind_name d.setting name.now }
    {
        self.kind_number(name).is_some()
    }

    /// Whether a tunable has this name.
    pub fn has_tunable(&self, name: &[u8]) -> bool
        ensures { (d : Draft) → IsDraft self.now d → result ≡ has_tunable d.setting name.now }
    {
        self.setting.tunables().contains_key(name)
    }

    /// Whether a bucket can have the type with this number: the number isn't 0, and the map has the
    /// type.
    pub fn is_bucket_kind(&self, number: TypeId) -> bool
        ensures { (d : Draft) → IsDraft self.now d → result ≡ is_bucket_kind d.setting number }
    {
        number.number() > 0 && self.has_kind_number(number)
    }

    /// Whether a bucket can have the type of this name: the map has the type, and its number isn't
    /// 0.
    pub(super) fn names_bucket_kind(&self, name: &[u8]) -> bool
        ensures { (d : Draft) → IsDraft self.now d
            → result ≡ names_bucket_kind d.setting name.now }
    {
        match self.kind_number(name) {
            Some(number) => number.number() > 0,
            None => false,
        }
    }

    /// Returns the number of the type with this name, or `None` if the map has no such type.
    pub fn kind_number(&self, name: &[u8]) -> Option<TypeId>
        ensures { (d : Draft) → IsDraft self.now d → result ≡ kind_number d.setting name.now }
    {
        self.setting.kind_number(name)
    }

    /// Returns the id of the device or complete bucket with this name.
    ///
    /// Returns [`BuildFault::UnknownItem`] if there is none.
    pub fn item_named(&self, name: &[u8]) -> Result<ItemId, BuildFault>
        ensures value { (d : Draft) → IsDraft self.now d
            → result ≡ ok_or (item_named d name.now) UnknownItem }
        ensures there { IfOk result (λ i. (d : Draft) → IsDraft self.now d
            → is_there d.table i ≡ true) }
        ensures closed { IfOk result (λ i. is_open self.now.pending i ≡ false) }
    {
        self.closed_item(name).ok_or(BuildFault::UnknownItem)
    }

    /// Returns the id of the device or complete bucket with this name, or `None` if there is none.
    pub(super) fn closed_item(&self, name: &[u8]) -> Option<ItemId>
        ensures value { (d : Draft) → IsDraft self.now d → result ≡ item_named d name.now }
        ensures there { IfSome result (λ i. (d : Draft) → IsDraft self.now d
            → is_there d.table i ≡ true) }
        ensures closed { IfSome result (λ i. is_open self.now.pending i ≡ false) }
    {
        match self.hierarchy.id_of_bytes(name)? {
            ItemId::Device(device) => Some(ItemId::Device(device)),
            ItemId::Bucket(bucket) => {
                if self.fills(bucket) {
                    None
                } else {
                    Some(ItemId::Bucket(bucket))
                }
            }
        }
    }

    /// Whether a bucket holds the item with this id.
    pub fn is_placed(&self, id: ItemId) -> bool
        ensures { (d : Draft) → IsDraft self.now d → result ≡ is_placed d.table id }
    {
        self.hierarchy.parent(id).is_some()
    }

    /// Returns how often an item that is a bucket was written with another weight than the sum of
    /// the weights of the devices below it. The bucket kept this sum each time.
    pub fn adjusted(&self) -> u32
        ensures { (d : Draft) → IsDraft self.now d → result ≡ d.adjusted }
    {
        self.adjusted
    }

    /// Whether the map already has 65,536 devices, which is the maximum.
    pub fn is_full_of_devices(&self) -> bool
        ensures { (d : Draft) → IsDraft self.now d → result ≡ is_full_of_devices d }
    {
        self.hierarchy.counts().devices >= MOST_DEVICES
    }

    /// Whether the map already has 4,096 buckets, which is the maximum.
    pub fn is_full_of_buckets(&self) -> bool
        ensures { (d : Draft) → IsDraft self.now d → result ≡ is_full_of_buckets d }
    {
        self.hierarchy.counts().buckets >= MOST_BUCKETS
    }

    /// Whether the map already has 256 types, which is the maximum.
    pub fn is_full_of_kinds(&self) -> bool
        ensures { (d : Draft) → IsDraft self.now d → result ≡ is_full_of_kinds d }
    {
        self.setting.kinds().len() >= MOST_TYPES
    }

    /// Whether the map already has 64 tunables, which is the maximum.
    pub fn is_full_of_tunables(&self) -> bool
        ensures { (d : Draft) → IsDraft self.now d → result ≡ is_full_of_tunables d }
    {
        self.setting.tunables().len() >= MOST_TUNABLES
    }

    /// Whether the incomplete bucket, if it has no algorithm yet, has this id or has a class id
    /// that is this id.
    fn has_pending_id(&self, id: BucketId) -> bool
        ensures { result ≡ has_pending_id self.now.pending id }
    {
        match &self.pending {
            Pending::Numbered(_, _, own, _) => *own == id || numbers_class_id(self.class_ids(), id),
            _ => false,
        }
    }

    /// Returns the class ids of the incomplete bucket if it has no algorithm yet, and otherwise an
    /// empty list.
    fn class_ids(&self) -> &[ShadowId<A>]
        ensures { map shadow_data result.now ≡ pending_class_ids self.now.pending }
    {
        match &self.pending {
            Pending::Numbered(_, _, _, Some(class_ids)) => class_ids.as_slice(),
            _ => &[],
        }
    }

    /// Whether the bucket with this id is the incomplete bucket that receives items now.
    pub(super) fn fills(&self, id: BucketId) -> bool
        ensures { result ≡ is_open self.now.pending (Bucket id) }
    {
        match &self.pending {
            Pending::Filling(bucket) => *bucket == id,
            _ => false,
        }
    }
}

fn numbers_class_id<A: Allocator>(class_ids: &[ShadowId<A>], id: BucketId) -> bool
    ensures { result ≡ list_any (λ (c : DeclaredShadow _). c.id == id) class_ids.now }
{
    class_ids.iter().any(|class_id| class_id.id == id)
}

fn names_class<A: Allocator>(class_ids: &[ShadowId<A>], class: &[u8]) -> bool
    ensures { result
        ≡ list_any (λ (c : DeclaredShadow _). bytes_eq c.class class.now) class_ids.now }
{
    class_ids.iter().any(|class_id| class_id.class.is(class))
}
