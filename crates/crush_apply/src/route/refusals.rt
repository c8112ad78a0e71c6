//! Tests that can lead to a refusal: the tests of a location, of a device that is to be put at a
//! location, and of the item that ends a route.

ghost use Rattle.std.specs.Prelude.{◌≡◌, ◌==◌, List, None, Some, IfOk, IfErr, OnOk, map, bytes_eq, not};
ghost use Rattle.std.specs.List.{list_any};
ghost use Rattle.crush_units.specs.declared.id.ItemId.TheVariants.{Device, Bucket};
ghost use Rattle.crush_units.specs.Id.{same_id};
ghost use Rattle.crush_model.specs.Table.{Row, id_named, kind_of, name_of};
ghost use Rattle.crush_model.specs.Stands.{Stands};
ghost use Rattle.crush_edits.specs.declared.location.Pair.{Pair};
ghost use Rattle.crush_edits.specs.Answer.{first_refusal, meets};
ghost use Rattle.crush_edits.specs.Located.{has_twice, is_type_zero, is_bad_location, has_no_kind, names_it, is_taken, location_tests, located_device_tests};
ghost use Rattle.crush_apply.specs.Destination.{end_item_tests};

use crate::route::NewDevice;
use crush_edits::{Location, Pair, Refusal, Setting};
use crush_hierarchy::Hierarchy;
use crush_units::{BucketId, DeviceId, ItemId, Name, TypeId};
use std::alloc::{Allocator, Global};

/// Makes the tests of a location that don't depend on the items of the map. Returns a refusal in
/// three cases. First, the location has a type name or a bucket name twice, or has the name of type
/// 0. Second, it has the name of a type that the setting doesn't have. Third, it has no pairs.
pub(crate) fn check_location(setting: &Setting, at: &Location) -> Result<(), Refusal>
    ensures passes { OnOk result (first_refusal (location_tests setting.now at.now) ≡ None) }
    ensures refused { IfErr result
        (λ r. first_refusal (location_tests setting.now at.now) ≡ Some r) }
{
    let pairs = at.pairs();
    if is_bad(setting, pairs) {
        return Err(Refusal::BadLocation);
    }
    if has_unknown_type(setting, pairs) {
        return Err(Refusal::NoSuchType);
    }
    if pairs.is_empty() {
        return Err(Refusal::NoPlace);
    }
    Ok(())
}

/// Makes the first tests of the edit `Place`: the tests of the device's name, of the location
/// without its route, and of the weight. Returns a refusal if a test fails.
pub(crate) fn check_device<A: Allocator>(
    hierarchy: &Hierarchy<A>,
    setting: &Setting,
    arrival: &NewDevice<'_>,
) -> Result<(), Refusal>
    ensures passes { OnOk result ((t : List Row) → Stands hierarchy.now t
        → first_refusal (located_device_tests setting.now t arrival.now.device arrival.now.name.now
        arrival.now.weight arrival.now.at.now) ≡ None) }
    ensures refused { IfErr result (λ r. (t : List Row) → Stands hierarchy.now t
        → first_refusal (located_device_tests setting.now t arrival.now.device arrival.now.name.now
        arrival.now.weight arrival.now.at.now) ≡ Some r) }
{
    if names_bucket(arrival.at.pairs(), arrival.name) {
        return Err(Refusal::BadName);
    }
    check_location(setting, arrival.at)?;
    if !arrival.weight.is_device_weight() {
        return Err(Refusal::WeightTooLarge);
    }
    if is_taken(hierarchy, arrival.device, arrival.name) {
        return Err(Refusal::NameTaken);
    }
    Ok(())
}

/// Tests the item that ends a route. If the item is a bucket of the type `kind`, returns this
/// bucket. If the item is a device, or a bucket of another type, returns a refusal.
pub(crate) fn check_end<A: Allocator>(
    hierarchy: &Hierarchy<A>,
    kind: TypeId,
    id: ItemId,
) -> Result<BucketId, Refusal>
    ensures passes { IfOk result (λ b. (t : List Row) → Stands hierarchy.now t
        → first_refusal (end_item_tests t kind (Bucket b)) ≡ None) }
    ensures bucket { IfOk result (λ b. id ≡ Bucket b) }
    ensures refused { IfErr result (λ r. (t : List Row) → Stands hierarchy.now t
        → first_refusal (end_item_tests t kind id) ≡ Some r) }
{
    let ItemId::Bucket(bucket) = id else {
        return Err(Refusal::NotABucket);
    };
    if is_of_other_type(hierarchy, id, kind) {
        return Err(Refusal::WrongType);
    }
    Ok(bucket)
}

fn is_bad(setting: &Setting, pairs: &[Pair]) -> bool
    ensures { result ≡ is_bad_location setting.now pairs.now }
{
    has_type_twice(pairs) || has_bucket_twice(pairs) || has_type_zero(setting, pairs)
}

fn has_type_twice(pairs: &[Pair]) -> bool
    ensures { result ≡ has_twice (map (λ (p : Pair). p.kind) pairs.now) }
{
    for (k, pair) in pairs.iter().enumerate() {
        let later = &pairs[k + 1..];
        if names_type(later, &pair.kind) {
            return true;
        }
    }
    false
}

fn has_bucket_twice(pairs: &[Pair]) -> bool
    ensures { result ≡ has_twice (map (λ (p : Pair). p.name) pairs.now) }
{
    for (k, pair) in pairs.iter().enumerate() {
        let later = &pairs[k + 1..];
        if names_bucket(later, &pair.name) {
            return true;
        }
    }
    false
}

pub(crate) fn names_type(pairs: &[Pair], name: &Name<Global>) -> bool
    ensures { result ≡ list_any (λ (p : Pair). bytes_eq p.kind name.now) pairs.now }
{
    pairs.iter().any(|pair| pair.kind == *name)
}

pub(crate) fn names_bucket(pairs: &[Pair], name: &Name<Global>) -> bool
    ensures { result ≡ names_it pairs.now name.now }
{
    pairs.iter().any(|pair| pair.name == *name)
}

fn has_type_zero(setting: &Setting, pairs: &[Pair]) -> bool
    ensures { result ≡ list_any (is_type_zero setting.now) pairs.now }
{
    pairs.iter().any(|pair| is_type_zero(setting, pair))
}

pub(crate) fn is_type_zero(setting: &Setting, pair: &Pair) -> bool
    ensures { result ≡ is_type_zero setting.now pair.now }
{
    match setting.kind_number(pair.kind.as_bytes()) {
        Some(kind) => kind.number() == 0,
        None => false,
    }
}

fn has_unknown_type(setting: &Setting, pairs: &[Pair]) -> bool
    ensures { result ≡ has_no_kind setting.now pairs.now }
{
    pairs
        .iter()
        .any(|pair| setting.kind_number(pair.kind.as_bytes()).is_none())
}

/// Whether an item other than the device has the name, or the map has the device with another name.
fn is_taken<A: Allocator>(hierarchy: &Hierarchy<A>, device: DeviceId, name: &Name<Global>) -> bool
    ensures { (t : List Row) → Stands hierarchy.now t
        → result ≡ is_taken t (Device device) name.now }
{
    is_name_of_other(hierarchy, device, name) || has_other_name(hierarchy, device, name)
}

fn is_name_of_other<A: Allocator>(
    hierarchy: &Hierarchy<A>,
    device: DeviceId,
    name: &Name<Global>,
) -> bool
    ensures { (t : List Row) → Stands hierarchy.now t
        → result ≡ meets (λ j. not (same_id j (Device device))) (id_named t name.now) }
{
    match hierarchy.id_of(name.as_str()) {
        Some(other) => !other.is_same(ItemId::Device(device)),
        None => false,
    }
}

fn has_other_name<A: Allocator>(
    hierarchy: &Hierarchy<A>,
    device: DeviceId,
    name: &Name<Global>,
) -> bool
    ensures { (t : List Row) → Stands hierarchy.now t
        → result ≡ meets (λ m. not (bytes_eq m name.now)) (name_of t (Device device)) }
{
    match hierarchy.name(ItemId::Device(device)) {
        Some(own) => own != name.as_str(),
        None => false,
    }
}

fn is_of_other_type<A: Allocator>(hierarchy: &Hierarchy<A>, id: ItemId, kind: TypeId) -> bool
    ensures { (t : List Row) → Stands hierarchy.now t
        → result ≡ meets (λ k. not (k == kind)) (kind_of t id) }
{
    match hierarchy.kind(id) {
        Some(own) => own.number() != kind.number(),
        None => false,
    }
}
