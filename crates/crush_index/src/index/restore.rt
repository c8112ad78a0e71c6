//! Restores names and items that were removed. Memory that is enough for this is allocated before
//! the removal, so that the undo of an edit can't fail.

ghost use Rattle.std.specs.Prelude.{◌≡◌, ◌+◌, ◌<◌, ◌∷◌, [], ℕ, Option, IfOk, length, true};
ghost use Rattle.crush_model.specs.ItemRows.{device_row, bucket_row};
ghost use Rattle.crush_nodes.specs.Apart.{header_ids};
ghost use Rattle.crush_nodes.specs.Seen.{items_of, header_data, leaf_data};
ghost use Rattle.crush_index.specs.Hashings.{hashings, used_hashing};
ghost use Rattle.crush_index.specs.IndexAnswers.{answers, own_row, with_name, with_row};
ghost use Rattle.crush_index.specs.IndexLaw.{TakesRows};
ghost use Rattle.crush_index.specs.Restoring.{IsAlone, CanRestoreRow};
ghost use Rattle.crush_index.specs.UsedAnswers.{ComeIntoUse, UsesOne};

use super::Index;
use super::own::place_under;
use crate::chain::{Spare, spare};
use crate::key::Key;
use crate::slot::{Entry, Slot};
use crate::used::UsedIds;
use crush_nodes::guide::Position;
use crush_nodes::node::{Bucket, Header, Leaf, Node};
use crush_nodes::place::Place;
use crush_units::{BucketId, ItemId, Name};
use std::alloc::{AllocError, Allocator, Global};

/// A copy of a name, with the memory that is needed to put the name back into the index.
/// [`Index::name_memory`] returns this value, and [`Index::restore_name`] uses it.
#[derive(Drop)]
pub struct NameMemory {
    name: Name<Global>,
    spare: Spare<Key, ItemId>,
}

/// The memory that is needed to put the place of an item back into the index.
#[derive(Drop)]
pub(crate) enum PlaceMemory {
    Device {
        entry: Spare<u32, Entry>,
    },
    Bucket {
        number: Spare<u32, BucketId>,
        slot: Spare<u32, Slot>,
    },
}

/// What is needed to restore an item that has no items below it: a copy of the item's name, and
/// memory. [`Index::restore_memory`] returns this value, and [`Index::restore_node`] uses it.
#[derive(Drop)]
pub struct RestoreMemory {
    name: NameMemory,
    place: PlaceMemory,
    /// Memory to mark the ids of a bucket as used again, even if the set of used ids can't grow:
    /// one link of a linked list (`Chain`) for the bucket's id, and one for each of its class ids.
    /// For a device the vector is empty.
    ids: Vec<Spare<u32, ()>>,
}

impl Index {
    /// Copies a name, and allocates the memory with which [`Index::restore_name`] restores the
    /// name.
    ///
    /// Call this method before the name is removed. Returns an error if memory runs out.
    pub fn name_memory<A: Allocator>(&self, name: &Name<A>) -> Result<NameMemory, AllocError>
        ensures { IfOk result (λ memory. memory.name ≡ name.now) }
    {
        let name = name.try_copy(self.global)?;
        let spare = spare(self.global)?;
        Ok(NameMemory { name, spare })
    }

    /// Allocates the memory with which [`Index::restore_node`] restores an item.
    ///
    /// Call this method before the item is removed. The memory is enough for the item itself, but
    /// not for items below it. Returns an error if memory runs out.
    pub fn restore_memory<A: Allocator>(&self, node: &Node<A>) -> Result<RestoreMemory, AllocError>
        ensures { IfOk result (λ memory. (p : Option ℕ) → CanRestoreRow (own_row p node.now) memory) }
    {
        match node {
            Node::Device(leaf) => self.leaf_memory(leaf),
            Node::Bucket(bucket) => {
                let bucket: &Bucket<A> = bucket;
                self.header_memory(&bucket.header)
            }
        }
    }

    fn leaf_memory<A: Allocator>(&self, leaf: &Leaf<A>) -> Result<RestoreMemory, AllocError>
        ensures { IfOk result (λ memory. (p : Option ℕ) → CanRestoreRow (device_row p (leaf_data leaf.now)) memory) }
    {
        let name = self.name_memory(&leaf.name)?;
        let entry = spare(self.global)?;
        Ok(RestoreMemory {
            name,
            place: PlaceMemory::Device { entry },
            ids: Vec::new(self.global),
        })
    }

    fn header_memory<A: Allocator>(&self, header: &Header<A>) -> Result<RestoreMemory, AllocError>
        ensures { IfOk result (λ memory. (p : Option ℕ) → CanRestoreRow (bucket_row p (header_data header.now)) memory) }
    {
        let name = self.name_memory(&header.name)?;
        let number = spare(self.global)?;
        let slot = spare(self.global)?;
        let ids = spares(self.global, header.class_ids.len())?;
        Ok(RestoreMemory {
            name,
            place: PlaceMemory::Bucket { number, slot },
            ids,
        })
    }

    /// Gives a name back to an item. The call does the same as [`Index::add_name`], but it can't
    /// fail: if the index needs more memory and this memory can't be allocated, the index stores
    /// the name in `memory`.
    pub fn restore_name(&mut self, memory: NameMemory, id: ItemId)
        ensures answers { answers self.new ≡ with_name memory.name id (answers self.old) }
        ensures hashing { hashings self.new ≡ hashings self.old }
    {
        let NameMemory { name, spare } = memory;
        self.names.restore(name, id, spare);
    }

    /// Adds an item that has no items below it, as the last item of a place. The call does the same
    /// as [`Index::insert_node`], but it can't fail: if the index needs more memory and this memory
    /// can't be allocated, the index stores the entries in `memory`.
    ///
    /// `hint` is the item's index among the items of the place, from 0. A wrong hint changes no
    /// answer. `memory` must be the result of [`Index::restore_memory`] for this item. It then has
    /// the item's name, memory for an item of this kind, and memory for each id that the item uses.
    pub fn restore_node<A: Allocator>(
        &mut self,
        place: Place,
        hint: u32,
        node: &Node<A>,
        memory: RestoreMemory,
    )
        requires memory { (p : Option ℕ) → CanRestoreRow (own_row p node.now) memory }
        requires alone { IsAlone node.now }
        ensures takes { TakesRows place (items_of (node.now ∷ [])) self.old self.new }
        ensures hashing { hashings self.new ≡ hashings self.old }
    {
        self.restore_own(place.holder(), hint, node, memory);
    }

    fn restore_own<A: Allocator>(
        &mut self,
        parent: Option<BucketId>,
        hint: u32,
        node: &Node<A>,
        memory: RestoreMemory,
    )
        requires { CanRestoreRow (own_row parent node.now) memory }
        ensures answers { answers self.new ≡ with_row (own_row parent node.now) (answers self.old) }
        ensures hashing { hashings self.new ≡ hashings self.old }
    {
        match node {
            Node::Device(leaf) => self.restore_leaf(parent, hint, leaf, memory),
            Node::Bucket(bucket) => {
                let bucket: &Bucket<A> = bucket;
                self.restore_header(parent, hint, &bucket.header, memory);
            }
        }
    }

    fn restore_leaf<A: Allocator>(
        &mut self,
        parent: Option<BucketId>,
        hint: u32,
        leaf: &Leaf<A>,
        memory: RestoreMemory,
    )
        requires { CanRestoreRow (device_row parent (leaf_data leaf.now)) memory }
        ensures answers { answers self.new ≡ with_row (device_row parent (leaf_data leaf.now)) (answers self.old) }
        ensures hashing { hashings self.new ≡ hashings self.old }
    {
        let RestoreMemory {
            name,
            place,
            ids: _,
        } = memory;
        let PlaceMemory::Device { entry } = place else {
            unreachable!()
        };
        self.restore_name(name, ItemId::Device(leaf.id));
        let place = place_under(true, parent);
        self.places
            .restore_device(leaf.id, Position { place, hint }, entry);
    }

    fn restore_header<A: Allocator>(
        &mut self,
        parent: Option<BucketId>,
        hint: u32,
        header: &Header<A>,
        memory: RestoreMemory,
    )
        requires { CanRestoreRow (bucket_row parent (header_data header.now)) memory }
        ensures answers { answers self.new ≡ with_row (bucket_row parent (header_data header.now)) (answers self.old) }
        ensures hashing { hashings self.new ≡ hashings self.old }
    {
        let RestoreMemory { name, place, ids } = memory;
        let PlaceMemory::Bucket { number, slot } = place else {
            unreachable!()
        };
        self.restore_name(name, ItemId::Bucket(header.id));
        let place = place_under(false, parent);
        self.places
            .restore_bucket(header.id, Position { place, hint }, number, slot);
        restore_ids(&mut self.used, header, ids);
    }
}

/// Allocates `count + 1` links: one for the id of a bucket, and one for each of its `count` class
/// ids.
fn spares(global: Global, count: usize) -> Result<Vec<Spare<u32, ()>>, AllocError>
    ensures { IfOk result (λ spares. length spares.items ≡ count + 1) }
{
    let mut spares = Vec::new(global);
    while spares.len() <= count {
        spares.push(spare(global)?)?;
    }
    Ok(spares)
}

fn restore_ids<A: Allocator>(
    used: &mut UsedIds,
    header: &Header<A>,
    mut spares: Vec<Spare<u32, ()>>,
)
    requires { length spares.items ≡ length (header_ids (header_data header.now)) }
    ensures ids { ComeIntoUse (header_ids (header_data header.now)) used.old used.new }
    ensures hashing { used_hashing used.new ≡ used_hashing used.old }
{
    restore_id(used, header.id, &mut spares);
    for class_id in header.class_ids.as_slice() {
        restore_id(used, class_id.id, &mut spares);
    }
}

/// Marks an id as used, and can't fail. Takes one link out of `spares`. If no other memory can be
/// allocated, the id is stored in this link.
fn restore_id(used: &mut UsedIds, id: BucketId, spares: &mut Vec<Spare<u32, ()>>)
    requires { 0 < length spares.old.items }
    ensures answers { UsesOne used.old used.new id true }
    ensures hashing { used_hashing used.new ≡ used_hashing used.old }
    ensures spares { length spares.new.items + 1 ≡ length spares.old.items }
{
    let Some(spare) = spares.pop() else {
        unreachable!()
    };
    used.restore(id.distance(), spare);
}
