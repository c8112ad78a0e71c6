//! The faults of a map's text, and their places.

ghost use Rattle.std.specs.Prelude.{◌≡◌, Some};
ghost use Rattle.crush_text.specs.Fault.{fault_name, fault_number};

use crate::expected::Expected;
use std::fmt::{self, Display, Formatter};
use thiserror::Error;

/// What is wrong at a place of a text. If a word has several faults, the fault with the smallest
/// number is reported. [`TextFaultKind::number`] returns this number.
#[derive(Clone, Copy, Debug, PartialEq, Eq)]
pub enum TextFaultKind {
    /// A byte that is allowed only in comments, or a word of more than 255 bytes.
    BadWord,
    /// The text ends inside a statement.
    Ended,
    /// A word or a brace that the grammar doesn't allow at this place. One example is a reserved
    /// word, such as `rule`, as the name of a type whose number isn't 0.
    Unexpected,
    /// The word isn't a number, or it isn't in the range that is allowed at this place.
    BadNumber,
    /// The word isn't a weight, or the weight is too large: above 2147483647 units for a device, or
    /// above 4294967295 units for a bucket. A weight of 1.0 has 65536 units.
    BadWeight,
    /// An earlier line gives the same number to a type, or the same id to a device or a rule. Or an
    /// earlier line gives the same id to a bucket, for the bucket itself or for a class.
    DuplicateId,
    /// An earlier line gives the same name to a thing of the same sort. The sorts are tunables,
    /// types, rules and items, and an item is a device or a bucket. Or the word is the class in a
    /// line such as `id -2 class hdd`, and an earlier line of the same bucket gives an id for the
    /// same class.
    DuplicateName,
    /// The word isn't the name of a declared type. Or the word is the first word of a statement,
    /// and is the name of type 0, which is the type of devices. No bucket can have this type.
    UnknownType,
    /// The word is neither the name of a declared device, nor the name of a bucket whose closing
    /// brace was read before.
    UnknownItem,
    /// A bucket already holds the item.
    SecondParent,
    /// The algorithm is not `straw`, `straw2` or `list`.
    OtherAlgorithm,
    /// A part of Ceph's grammar that isn't supported: `choose_args`, `choosemsr`, or `pos` after an
    /// item.
    LeftOut,
    /// The word after `take` isn't the name of a bucket whose closing brace was read before.
    UnknownBucketInRule,
    /// The text has more tunables, types, devices, buckets or rules than a map may have. Or a
    /// bucket has more class ids than a bucket may have, or a rule has more steps than a rule may
    /// have. docs/user/RULES.md lists the limits.
    TooMany,
    /// With this item, the weight of a bucket would be above 4294967295 units, or the total weight
    /// of the map would be above 8796093022207 units.
    SumTooLarge,
    /// Memory couldn't be allocated. The text has no fault up to the place that is reported.
    OutOfMemory,
}

/// A fault of a text, and its place.
#[derive(Clone, Copy, Debug, PartialEq, Eq, Error)]
#[error("byte {place}: {kind}")]
pub struct TextFault {
    /// What is wrong.
    pub kind: TextFaultKind,
    /// The index, from 0, of the first byte of the word at fault, or of the byte that isn't
    /// allowed. If the text ends inside a statement, this is the length of the text. If memory ran
    /// out, this is the index of the first byte of a word, and neither this word nor a word before
    /// it has a fault. If memory ran out and the text has no words, this is the length of the text.
    pub place: usize,
    /// What the grammar expects at this place, after the words that come before it.
    pub expected: Expected,
}

impl TextFaultKind {
    /// Returns the fault's name, which is the name of its variant.
    pub fn name(self) -> &'static str
        ensures { result.now ≡ fault_name self }
    {
        match self {
            TextFaultKind::BadWord => "BadWord",
            TextFaultKind::Ended => "Ended",
            TextFaultKind::Unexpected => "Unexpected",
            TextFaultKind::BadNumber => "BadNumber",
            TextFaultKind::BadWeight => "BadWeight",
            TextFaultKind::DuplicateId => "DuplicateId",
            TextFaultKind::DuplicateName => "DuplicateName",
            TextFaultKind::UnknownType => "UnknownType",
            TextFaultKind::UnknownItem => "UnknownItem",
            TextFaultKind::SecondParent => "SecondParent",
            TextFaultKind::OtherAlgorithm => "OtherAlgorithm",
            TextFaultKind::LeftOut => "LeftOut",
            TextFaultKind::UnknownBucketInRule => "UnknownBucketInRule",
            TextFaultKind::TooMany => "TooMany",
            TextFaultKind::SumTooLarge => "SumTooLarge",
            TextFaultKind::OutOfMemory => "OutOfMemory",
        }
    }

    /// Returns the fault's number, from 1 to 16.
    pub fn number(self) -> u8
        ensures { result ≡ fault_number self }
    {
        match self {
            TextFaultKind::BadWord => 1,
            TextFaultKind::Ended => 2,
            TextFaultKind::Unexpected => 3,
            TextFaultKind::BadNumber => 4,
            TextFaultKind::BadWeight => 5,
            TextFaultKind::DuplicateId => 6,
            TextFaultKind::DuplicateName => 7,
            TextFaultKind::UnknownType => 8,
            TextFaultKind::UnknownItem => 9,
            TextFaultKind::SecondParent => 10,
            TextFaultKind::OtherAlgorithm => 11,
            TextFaultKind::LeftOut => 12,
            TextFaultKind::UnknownBucketInRule => 13,
            TextFaultKind::TooMany => 14,
            TextFaultKind::SumTooLarge => 15,
            TextFaultKind::OutOfMemory => 16,
        }
    }
}

impl Display for TextFaultKind {
    ghost output = { λ kind. Some (fault_name kind) };

    fn fmt<W: fmt::Write>(&self, f: &mut Formatter<W>) -> fmt::Result {
        f.write_str(self.name())
    }
}

impl std::error::Error for TextFaultKind {}
