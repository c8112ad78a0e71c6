//! The ids of devices and buckets, and the numbers of types.

ghost use Rattle.std.specs.Prelude.{◌≡◌, ◌≤◌, ◌<◌, ◌^◌, IsTrue, ◌↔◌};
ghost use Rattle.std.specs.Cmp.{partial_order_from_own_ties};
ghost use Rattle.std.specs.Cmp.Rules.{comparing};
ghost use Rattle.std.specs.Ordering.{nat_cmp, flip_args, as_partial_cmp};
ghost use Rattle.std.proofs.Common.{rules};
ghost use Rattle.crush_units.specs.Id.{device_of, device_from, bucket_of, bucket_below, bucket_number, item_number, same_id, IsItemId};
ghost use Rattle.crush_units.specs.declared.limits.TheConstants.{DEVICE_IDS, FARTHEST_BUCKET_ID};

use crate::limits::{FARTHEST_BUCKET_ID, LAST_DEVICE_ID};
use std::cmp::Ordering;
use std::marker::Model;

/// A device's id: a number from 0 to 2147483647. Ids of devices are ordered by their numbers.
#[derive(Clone, Copy, Debug, PartialEq, Eq, PartialOrd, Ord, Hash)]
pub struct DeviceId {
    raw: u32,
}

impl Model for DeviceId {
    ghost use Rattle.std.specs.Prelude.{ℕ, ◌<◌};
    ghost use Rattle.crush_units.specs.declared.limits.TheConstants.{DEVICE_IDS};

    ghost Value = { ℕ };

    ghost view = { λ d. d.raw };

    ghost invariant = { λ d. d.raw < DEVICE_IDS };

    ghost inverse = { λ n. record { raw = n } };
}

/// A bucket's id: a number from -1 down to -2147483648. In contracts the value of a bucket's id is
/// its distance below 0, for example 1 for the id -1. Ids of buckets are ordered by their numbers,
/// not by these distances: the id -2 is less than the id -1.
#[derive(Clone, Copy, Debug, PartialEq, Eq, Hash)]
pub struct BucketId {
    below: u32,
}

impl Model for BucketId {
    ghost use Rattle.std.specs.Prelude.{ℕ, ◌<◌, ◌≤◌};
    ghost use Rattle.crush_units.specs.declared.limits.TheConstants.{FARTHEST_BUCKET_ID};

    ghost Value = { ℕ };

    ghost view = { λ b. b.below };

    ghost invariant = { λ b. (0 < b.below) × (b.below ≤ FARTHEST_BUCKET_ID) };

    ghost inverse = { λ n. record { below = n } };
}

impl Ord for BucketId {
    ghost cmp = { flip_args nat_cmp };

    ghost total = { Prim.search (comparing, rules) };

    ghost matches_partial_cmp = { Prim.search (comparing, rules) };

    ghost matches_eq = { Prim.search (comparing, rules) };

    fn cmp(&self, other: &BucketId) -> Ordering {
        other.below.cmp(&self.below)
    }
}

impl PartialOrd for BucketId {
    ghost partial_cmp = { as_partial_cmp (flip_args nat_cmp) };

    ghost laws = { partial_order_from_own_ties (Prim.search (comparing, rules))
        (Prim.search (comparing, rules)) };

    fn partial_cmp(&self, other: &BucketId) -> Option<Ordering> {
        Some(self.cmp(other))
    }
}

/// The id of an item of a map. An item is a device or a bucket. Each id of a device is less than
/// each id of a bucket. Two ids of devices are ordered as [`DeviceId`] orders them, and two ids of
/// buckets are ordered as [`BucketId`] orders them. So the order isn't the order of the numbers,
/// because the numbers of buckets are below 0.
#[derive(Clone, Copy, Debug, PartialEq, Eq, PartialOrd, Ord, Hash)]
pub enum ItemId {
    /// The item is a device.
    Device(DeviceId),
    /// The item is a bucket.
    Bucket(BucketId),
}

/// The number of a type of items, from 0 to 65535. Devices have type 0, and every bucket has a type
/// above 0. Types are ordered by their numbers.
#[derive(Clone, Copy, Debug, PartialEq, Eq, PartialOrd, Ord, Hash)]
pub struct TypeId {
    kind: u16,
}

impl Model for TypeId {
    ghost use Rattle.std.specs.Prelude.{ℕ};

    ghost Value = { ℕ };

    ghost view = { λ t. t.kind };

    ghost inverse = { λ n. record { kind = n } };
}

impl DeviceId {
    /// Returns the device id with this number, or `None` if the number is below 0.
    pub fn new(number: i32) -> Option<DeviceId>
        ensures { result ≡ device_of number }
    {
        if number < 0 {
            return None;
        }
        Some(DeviceId { raw: number as u32 })
    }

    /// Returns the device id with this number, or `None` if the number is above 2147483647.
    pub fn from_number(number: u32) -> Option<DeviceId>
        ensures { result ≡ device_from number }
    {
        if number <= LAST_DEVICE_ID {
            Some(DeviceId { raw: number })
        } else {
            None
        }
    }

    /// Returns the id as a number from 0 to 2147483647.
    pub fn number(self) -> u32
        ensures value { result ≡ self }
        ensures range { self < DEVICE_IDS }
    {
        self.raw
    }
}

impl BucketId {
    /// Returns the bucket id with this number, or `None` if the number isn't below 0.
    pub fn new(number: i32) -> Option<BucketId>
        ensures { result ≡ bucket_of number }
    {
        if number >= 0 {
            return None;
        }
        Some(BucketId {
            below: number.unsigned_abs(),
        })
    }

    /// Returns the bucket id that is `distance` below 0: the id -1 for the distance 1. Returns
    /// `None` if the distance is 0 or above 2147483648.
    pub fn below_zero(distance: u32) -> Option<BucketId>
        ensures { result ≡ bucket_below distance }
    {
        if 0 < distance && distance <= FARTHEST_BUCKET_ID {
            Some(BucketId { below: distance })
        } else {
            None
        }
    }

    /// Returns the id's distance below 0, from 1 to 2147483648.
    pub fn distance(self) -> u32
        ensures value { result ≡ self }
        ensures some { 0 < self }
        ensures range { self ≤ FARTHEST_BUCKET_ID }
    {
        self.below
    }

    /// Returns the id as the number below 0 that a map's text shows.
    pub fn number(self) -> i32
        ensures { result ≡ bucket_number self }
    {
        -1 - (self.below - 1) as i32
    }
}

impl ItemId {
    /// Returns the id as the number that a map's text shows. The number is below 0 for a bucket,
    /// and 0 or above for a device.
    pub fn number(self) -> i32
        ensures value { result ≡ item_number self }
        ensures range { IsItemId self }
    {
        match self {
            ItemId::Device(device) => device.number() as i32,
            ItemId::Bucket(bucket) => -1 - (bucket.distance() - 1) as i32,
        }
    }

    /// Whether this id and `other` are the id of the same item.
    pub fn is_same(self, other: ItemId) -> bool
        ensures value { result ≡ same_id self other }
        ensures exact { IsTrue result ↔ (self ≡ other) }
    {
        self == other
    }
}

impl TypeId {
    /// Returns the type with this number.
    pub fn new(number: u16) -> TypeId
        ensures { result ≡ number }
    {
        TypeId { kind: number }
    }

    /// Returns the type's number, from 0 to 65535.
    pub fn number(self) -> u16
        ensures value { result ≡ self }
        ensures range { self < 2 ^ 16 }
    {
        self.kind
    }
}
