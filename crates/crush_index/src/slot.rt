//! The entries of items in the index. The entry of an item says which bucket holds the item. It
//! names this bucket by the bucket's *slot* instead of the bucket's id. A slot is a number that
//! each bucket has in addition to its id. The module `slots` stores which slot each bucket has.

use crush_units::BucketId;

/// The place of an item. If the place is a bucket, it is given by the slot of the bucket.
#[derive(Clone, Copy)]
pub(crate) enum SlotParent {
    /// The list of roots, which are the buckets that no bucket holds.
    Roots,
    /// The list of unplaced devices, which are the devices that no bucket holds.
    Unplaced,
    /// The items of the bucket that has this slot.
    Slot(BucketId),
}

/// What the index stores for an item: the item's place, and two hints.
#[derive(Clone, Copy)]
pub(crate) struct Entry {
    pub(crate) parent: SlotParent,
    /// A hint: the probable position of the parent's slot in the map `Slots::slots`, in which the
    /// bucket of a slot is looked up. A look-up tries this position first, and checks whether the
    /// slot is there. If `parent` names no slot, the hint is 0.
    pub(crate) slot_hint: u32,
    /// A hint: the item's probable index among its siblings, from 0. A search for the item tries
    /// this index first, and checks whether the item is there.
    pub(crate) hint: u32,
}

/// The bucket that has a slot, and the entry of this bucket, which is `None` if the bucket was
/// removed.
#[derive(Clone, Copy)]
pub(crate) struct Slot {
    pub(crate) bucket: BucketId,
    pub(crate) entry: Option<Entry>,
}
