//! Implements conversion traits of the standard library, such as `FromStr` and `TryFrom`. The
//! conversions that can fail have the same results as methods of the types, such as
//! [`Weight::read`].

ghost use Rattle.std.specs.Prelude.{◌≡◌, Some, None, MatchResult};
ghost use Rattle.crush_units.specs.Alg.{alg_of_text};
ghost use Rattle.crush_units.specs.Id.{device_of, device_from, bucket_of};
ghost use Rattle.crush_units.specs.Weight.{weight_of_text};
ghost use Rattle.crush_units.specs.declared.convert.IdFault.TheVariants.{NotDevice, NotBucket};
ghost use Rattle.crush_units.specs.declared.id.ItemId.TheVariants.{Device, Bucket};

use crate::alg::Alg;
use crate::id::{BucketId, DeviceId, ItemId, TypeId};
use crate::weight::{Weight, WeightFault};
use std::str::FromStr;
use thiserror::Error;

/// The error of a conversion from a number to an id. It says why the number isn't an id.
#[derive(Clone, Copy, Debug, PartialEq, Eq, Error)]
pub enum IdFault {
    /// The number isn't the id of a device.
    #[error("a device's id is a number from 0 to 2147483647")]
    NotDevice,
    /// The number isn't the id of a bucket.
    #[error("a bucket's id is a number from -1 down to -2147483648")]
    NotBucket,
}

/// The error of reading a text as an algorithm. The text isn't `straw`, `straw2` or `list`.
#[derive(Clone, Copy, Debug, PartialEq, Eq, Error)]
#[error("not an algorithm: expected straw, straw2 or list")]
pub struct AlgFault;

/// Reads a weight as [`Weight::read`] does, with the same errors.
impl FromStr for Weight {
    type Err = WeightFault;

    ghost from_str_gives = { λ text r. r ≡ weight_of_text text };

    fn from_str(text: &str) -> Result<Weight, WeightFault> {
        Weight::read(text)
    }
}

/// Reads the word for an algorithm as [`Alg::read`] does. Fails with [`AlgFault`] if the word names
/// no algorithm.
impl FromStr for Alg {
    type Err = AlgFault;

    ghost from_str_gives = { λ word r. MatchResult r (λ alg. alg_of_text word ≡ Some alg)
        (λ _. alg_of_text word ≡ None) };

    fn from_str(word: &str) -> Result<Alg, AlgFault> {
        match Alg::read(word.as_bytes()) {
            Some(alg) => Ok(alg),
            None => Err(AlgFault),
        }
    }
}

/// Returns the same id as [`DeviceId::new`]. Fails with [`IdFault::NotDevice`] if the number isn't
/// the id of a device.
impl TryFrom<i32> for DeviceId {
    type Error = IdFault;

    ghost try_from_gives = { λ number r. MatchResult r (λ id. device_of number ≡ Some id)
        (λ fault. (device_of number ≡ None) × (fault ≡ NotDevice)) };

    fn try_from(number: i32) -> Result<DeviceId, IdFault> {
        match DeviceId::new(number) {
            Some(id) => Ok(id),
            None => Err(IdFault::NotDevice),
        }
    }
}

/// Returns the same id as [`DeviceId::from_number`]. Fails with [`IdFault::NotDevice`] if the
/// number isn't the id of a device.
impl TryFrom<u32> for DeviceId {
    type Error = IdFault;

    ghost try_from_gives = { λ number r. MatchResult r (λ id. device_from number ≡ Some id)
        (λ fault. (device_from number ≡ None) × (fault ≡ NotDevice)) };

    fn try_from(number: u32) -> Result<DeviceId, IdFault> {
        match DeviceId::from_number(number) {
            Some(id) => Ok(id),
            None => Err(IdFault::NotDevice),
        }
    }
}

/// Returns the same id as [`BucketId::new`]. Fails with [`IdFault::NotBucket`] if the number isn't
/// the id of a bucket.
impl TryFrom<i32> for BucketId {
    type Error = IdFault;

    ghost try_from_gives = { λ number r. MatchResult r (λ id. bucket_of number ≡ Some id)
        (λ fault. (bucket_of number ≡ None) × (fault ≡ NotBucket)) };

    fn try_from(number: i32) -> Result<BucketId, IdFault> {
        match BucketId::new(number) {
            Some(id) => Ok(id),
            None => Err(IdFault::NotBucket),
        }
    }
}

impl From<DeviceId> for ItemId {
    ghost from_gives = { λ device item. item ≡ Device device };

    fn from(device: DeviceId) -> ItemId {
        ItemId::Device(device)
    }
}

impl From<BucketId> for ItemId {
    ghost from_gives = { λ bucket item. item ≡ Bucket bucket };

    fn from(bucket: BucketId) -> ItemId {
        ItemId::Bucket(bucket)
    }
}

impl From<u16> for TypeId {
    ghost from_gives = { λ number kind. kind ≡ number };

    fn from(number: u16) -> TypeId {
        TypeId::new(number)
    }
}
