//! The results of edits and batches: what was done, or why nothing was done.

ghost use Rattle.std.specs.Prelude.{◌≡◌};
ghost use Rattle.crush_edits.specs.Refusal.{refusal_name, refusal_sentence, refusal_number, refusal_error};

use std::alloc::AllocError;
use std::fmt::{self, Display, Formatter};
use thiserror::Error;

/// Why an edit is refused. If there are several reasons, the edit is refused with the one that is
/// listed first here, which has the lowest [`number`](Refusal::number).
///
/// A refused edit changes nothing. The numbers and their order are this editor's own, not Ceph's.
///
/// In the comments of the variants, a location *leads to* the item of the map that a pair of the
/// location names. If several pairs name items of the map, the pair with the lowest type counts.
#[derive(Clone, Copy, Debug, PartialEq, Eq)]
pub enum Refusal {
    /// The name of the device is also the name of a bucket in its location.
    BadName,
    /// The location has a type name or a bucket name twice, or has the name of type 0, the type of
    /// devices, as a type name.
    BadLocation,
    /// The location, or an `AddBucket`, names a type that the map doesn't have.
    NoSuchType,
    /// The location has no pairs.
    NoPlace,
    /// The weight is above 2147483647 units. The edit is refused even if it wouldn't use the
    /// weight.
    WeightTooLarge,
    /// The map doesn't have the item that the edit is to change, move or remove, or doesn't have
    /// one of the two items of a `Swap`. `Rename` is refused for this reason only if the map has
    /// neither the old nor the new name.
    NoSuchItem,
    /// The name already belongs to another item, or the device with the id of a `Place` has another
    /// name. `Rename` is refused for this reason if the map has both the old and the new name, even
    /// if the two names are the same.
    NameTaken,
    /// The device that is to be inserted is already in a bucket.
    AlreadyPlaced,
    /// The device whose weight a `Reweight` is to set is in no bucket.
    NotPlaced,
    /// The edit needs a device, and the named item is a bucket.
    NotADevice,
    /// The edit needs a bucket, and the named item, or the item that the location leads to, is a
    /// device.
    NotABucket,
    /// The bucket that the location leads to has another type than the location says, or the new
    /// bucket of an `AddBucket` would have type 0.
    WrongType,
    /// The bucket that the location leads to is the moved item itself, or is below it.
    Loop,
    /// The two buckets to be swapped are the same bucket, or one of them is below the other.
    Nested,
    /// The bucket that is to be removed holds items.
    NotEmpty,
    /// A rule takes the bucket that is to be removed.
    InUse,
    /// The item that is to be renamed is a device.
    NotDirectory,
    /// The map has an item with the new name, and no item with the old name. Perhaps the bucket was
    /// renamed before.
    AlreadyRenamed,
    /// The map would have more than 4,096 buckets or more than 65,536 devices.
    NoRoom,
    /// A bucket would weigh more than 4294967295 units, or all devices that are in buckets would
    /// together weigh more than 8796093022207 units.
    SumTooLarge,
    /// The device already has a class, which isn't the class that is to be set.
    ClassBound,
}

impl Refusal {
    /// Returns the name of the refusal, spelled like its variant.
    pub fn name(self) -> &'static str
        ensures { result.now ≡ refusal_name self }
    {
        match self {
            Refusal::BadName => "BadName",
            Refusal::BadLocation => "BadLocation",
            Refusal::NoSuchType => "NoSuchType",
            Refusal::NoPlace => "NoPlace",
            Refusal::WeightTooLarge => "WeightTooLarge",
            Refusal::NoSuchItem => "NoSuchItem",
            Refusal::NameTaken => "NameTaken",
            Refusal::AlreadyPlaced => "AlreadyPlaced",
            Refusal::NotPlaced => "NotPlaced",
            Refusal::NotADevice => "NotADevice",
            Refusal::NotABucket => "NotABucket",
            Refusal::WrongType => "WrongType",
            Refusal::Loop => "Loop",
            Refusal::Nested => "Nested",
            Refusal::NotEmpty => "NotEmpty",
            Refusal::InUse => "InUse",
            Refusal::NotDirectory => "NotDirectory",
            Refusal::AlreadyRenamed => "AlreadyRenamed",
            Refusal::NoRoom => "NoRoom",
            Refusal::SumTooLarge => "SumTooLarge",
            Refusal::ClassBound => "ClassBound",
        }
    }

    /// Returns a sentence that says why the edit is refused. The sentence names no item.
    pub fn sentence(self) -> &'static str
        ensures { result.now ≡ refusal_sentence self }
    {
        match self {
            Refusal::BadName => "the location uses the device's own name for a bucket",
            Refusal::BadLocation => {
                "a location names each type and each bucket at most once, and never the type of devices"
            }
            Refusal::NoSuchType => "the map has no type with this name",
            Refusal::NoPlace => "a location is required: one or more TYPE=BUCKET",
            Refusal::WeightTooLarge => "a device weighs at most 32767.99998",
            Refusal::NoSuchItem => "the map has no item with this name",
            Refusal::NameTaken =>
                "an item already has this name, or the device with this id has a different name",
            Refusal::AlreadyPlaced => {
                "the device is already in a bucket: use set or create-or-move to move it"
            }
            Refusal::NotPlaced => "the device is in no bucket: use add to place it",
            Refusal::NotADevice => "the item is a bucket, but a device is required",
            Refusal::NotABucket => "the item is a device, but a bucket is required",
            Refusal::WrongType => {
                "the bucket doesn't have the type that the location gives it, or a new bucket would have the type of devices"
            }
            Refusal::Loop => "a bucket can't be moved below itself",
            Refusal::Nested => "the two buckets are the same, or one of them is below the other",
            Refusal::NotEmpty => "the bucket isn't empty: move or remove its items first",
            Refusal::InUse => "a rule takes the bucket",
            Refusal::NotDirectory => "the item is a device: only buckets can be renamed",
            Refusal::AlreadyRenamed => {
                "no item has the old name, and an item has the new name: was it renamed before?"
            }
            Refusal::NoRoom => "a map has at most 4096 buckets and 65536 devices",
            Refusal::SumTooLarge => {
                "the total weight is too large: at most 65535.99998 for a bucket and 134217727.99998 for all devices"
            }
            Refusal::ClassBound =>
                "the device has a different class: remove this class first with rm-device-class",
        }
    }

    /// Returns the number of the refusal: the position of its variant, from 1 to 21.
    pub fn number(self) -> u8
        ensures { result ≡ refusal_number self }
    {
        match self {
            Refusal::BadName => 1,
            Refusal::BadLocation => 2,
            Refusal::NoSuchType => 3,
            Refusal::NoPlace => 4,
            Refusal::WeightTooLarge => 5,
            Refusal::NoSuchItem => 6,
            Refusal::NameTaken => 7,
            Refusal::AlreadyPlaced => 8,
            Refusal::NotPlaced => 9,
            Refusal::NotADevice => 10,
            Refusal::NotABucket => 11,
            Refusal::WrongType => 12,
            Refusal::Loop => 13,
            Refusal::Nested => 14,
            Refusal::NotEmpty => 15,
            Refusal::InUse => 16,
            Refusal::NotDirectory => 17,
            Refusal::AlreadyRenamed => 18,
            Refusal::NoRoom => 19,
            Refusal::SumTooLarge => 20,
            Refusal::ClassBound => 21,
        }
    }

    /// Returns the number of the Linux error (`errno`) whose meaning is nearest to the refusal, for
    /// example 2, which is `ENOENT`.
    pub fn error(self) -> u8
        ensures { result ≡ refusal_error self }
    {
        match self {
            Refusal::BadName
            | Refusal::BadLocation
            | Refusal::NoSuchType
            | Refusal::NoPlace
            | Refusal::NotADevice
            | Refusal::NotABucket
            | Refusal::WrongType
            | Refusal::Nested => 22,
            Refusal::WeightTooLarge => 75,
            Refusal::NoSuchItem | Refusal::NotPlaced => 2,
            Refusal::NameTaken | Refusal::AlreadyPlaced => 17,
            Refusal::Loop => 40,
            Refusal::NotEmpty => 39,
            Refusal::InUse | Refusal::ClassBound => 16,
            Refusal::NotDirectory => 20,
            Refusal::AlreadyRenamed => 114,
            Refusal::NoRoom => 28,
            Refusal::SumTooLarge => 34,
        }
    }
}

/// Prints the sentence of the refusal.
impl Display for Refusal {
    ghost use Rattle.std.specs.Prelude.{Some};
    ghost use Rattle.crush_edits.specs.Refusal.{refusal_sentence};

    ghost output = { λ refusal. Some (refusal_sentence refusal) };

    fn fmt<W: fmt::Write>(&self, f: &mut Formatter<W>) -> fmt::Result {
        f.write_str(self.sentence())
    }
}

impl std::error::Error for Refusal {}

/// What an edit has done, if it was not refused.
#[derive(Clone, Copy, Debug, PartialEq, Eq)]
pub struct Done {
    /// Whether the edit changed the map.
    pub changed: bool,
    /// The number of buckets that the edit created.
    pub made: u16,
}

/// What a batch has done, if none of its edits was refused.
#[derive(Clone, Copy, Debug, PartialEq, Eq)]
pub struct Dones {
    /// The number of edits in the batch.
    pub edits: u32,
    /// The number of edits that changed the map.
    pub changed: u32,
    /// The number of buckets that the edits created.
    pub made: u32,
}

/// Why an edit wasn't made: it is refused, or memory ran out. The map is then unchanged.
#[derive(Clone, Copy, Debug, PartialEq, Eq, Error)]
pub enum EditFault {
    /// The edit is refused for this reason.
    #[error("the edit is refused: {0}")]
    Refused(Refusal),
    /// Memory that the edit needs couldn't be allocated.
    #[error("out of memory")]
    OutOfMemory,
}

impl From<Refusal> for EditFault {
    ghost use Rattle.std.specs.Prelude.{◌≡◌};
    ghost use Rattle.crush_edits.specs.declared.refusal.EditFault.TheVariants.{Refused};

    ghost from_gives = { λ refusal fault. fault ≡ Refused refusal };

    fn from(refusal: Refusal) -> EditFault {
        EditFault::Refused(refusal)
    }
}

impl From<AllocError> for EditFault {
    ghost use Rattle.std.specs.Prelude.{◌≡◌};
    ghost use Rattle.crush_edits.specs.declared.refusal.EditFault.TheVariants.{OutOfMemory};

    ghost from_gives = { λ _ fault. fault ≡ OutOfMemory };

    fn from(_fault: AllocError) -> EditFault {
        EditFault::OutOfMemory
    }
}

/// Why a batch of edits wasn't made: an edit is refused, or memory ran out. The map is then
/// unchanged.
#[derive(Clone, Copy, Debug, PartialEq, Eq, Error)]
pub enum BatchFault {
    /// The index of the first edit that is refused, from 0, and the reason.
    #[error("edit {0} is refused: {1}")]
    Refused(u32, Refusal),
    /// Memory that the batch needs couldn't be allocated.
    #[error("out of memory")]
    OutOfMemory,
}
