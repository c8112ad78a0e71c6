//! The errors of a [`MapBuilder`](crate::MapBuilder)'s calls.

ghost use Rattle.std.specs.Prelude.{◌≡◌};
ghost use Rattle.crush_builder.specs.Faults.{build_fault_number};

use std::alloc::AllocError;
use thiserror::Error;

/// Why the builder rejects a statement of a map's text, or a part of a statement.
#[derive(Clone, Copy, Debug, PartialEq, Eq, Error)]
pub enum BuildFault {
    /// The weight that the text gives a device is above 2147483647 units.
    #[error("a device weighs at most 2147483647 units")]
    BadWeight,
    /// The id or number is taken: another device, type or rule has it, or it is the id or a class
    /// id of a bucket.
    #[error("the id is taken")]
    DuplicateId,
    /// Another item, type, tunable or rule has this name; or the bucket already has a class id for
    /// this class.
    #[error("the name is taken")]
    DuplicateName,
    /// The map has no type with this name. A bucket can't have type 0 either, because type 0 is the
    /// type of devices.
    #[error("no such type")]
    UnknownType,
    /// No device and no complete bucket has this name or id.
    #[error("no such item")]
    UnknownItem,
    /// A bucket already holds the item; an item is in at most one bucket.
    #[error("a bucket holds the item already")]
    SecondParent,
    /// No complete bucket has the name that a rule's `take` step names.
    #[error("no bucket has the name that a rule takes")]
    UnknownBucketInRule,
    /// A limit is reached: the map already has the maximum number of devices, buckets, types,
    /// tunables or rules, the bucket already has 16 class ids, or the rule has more than 64 steps.
    #[error("more than a map has at most")]
    TooMany,
    /// With this item, a bucket would weigh more than 4294967295 units, or all placed devices
    /// together would weigh more than 8796093022207 units.
    #[error("a bucket or the whole map is too heavy with this item")]
    SumTooLarge,
    /// Memory ran out, and no other fault was found.
    #[error("out of memory")]
    OutOfMemory,
}

/// The part of a rule that has a fault. The variants are in the order of a rule's text.
#[derive(Clone, Copy, Debug, PartialEq, Eq)]
pub enum RulePart {
    /// The rule as a whole.
    Statement,
    /// The rule's name.
    Name,
    /// The rule's id.
    Id,
    /// The step with this index, from 0.
    Step(usize),
}

/// Why the builder rejects a rule, and at which part.
///
/// If several parts have a fault, the first of these parts is reported. If memory runs out, the
/// part is [`RulePart::Statement`].
#[derive(Clone, Copy, Debug, PartialEq, Eq, Error)]
#[error("{fault}")]
pub struct RuleFault {
    /// The part that has the fault.
    pub part: RulePart,
    /// What is wrong with the part.
    pub fault: BuildFault,
}

impl BuildFault {
    /// Returns the fault's number, from 5 to 16.
    ///
    /// If several faults are at the same place of a text, the one with the smallest number is
    /// reported. The other numbers from 1 to 16 belong to faults that only the parser finds.
    pub fn number(self) -> u8
        ensures { result ≡ build_fault_number self }
    {
        match self {
            BuildFault::BadWeight => 5,
            BuildFault::DuplicateId => 6,
            BuildFault::DuplicateName => 7,
            BuildFault::UnknownType => 8,
            BuildFault::UnknownItem => 9,
            BuildFault::SecondParent => 10,
            BuildFault::UnknownBucketInRule => 13,
            BuildFault::TooMany => 14,
            BuildFault::SumTooLarge => 15,
            BuildFault::OutOfMemory => 16,
        }
    }
}

impl From<AllocError> for BuildFault {
    ghost use Rattle.std.specs.Prelude.{◌≡◌};
    ghost use Rattle.crush_builder.specs.declared.fault.BuildFault.TheVariants.{OutOfMemory};

    ghost from_gives = { λ _ fault. fault ≡ OutOfMemory };

    fn from(_fault: AllocError) -> BuildFault {
        Self::OutOfMemory
    }
}

impl From<AllocError> for RuleFault {
    ghost use Rattle.std.specs.Prelude.{◌≡◌};
    ghost use Rattle.crush_builder.specs.declared.fault.BuildFault.TheVariants.{OutOfMemory};
    ghost use Rattle.crush_builder.specs.declared.fault.RulePart.TheVariants.{Statement};

    ghost from_gives = { λ _ fault. fault ≡ record { part = Statement; fault = OutOfMemory } };

    fn from(_fault: AllocError) -> RuleFault {
        RuleFault {
            part: RulePart::Statement,
            fault: BuildFault::OutOfMemory,
        }
    }
}
