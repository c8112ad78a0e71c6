//! Finds the bucket that a location names, creates missing buckets, and puts an item into the
//! bucket of the location's lowest type.
//!
//! Each pair of a location has a type and the name of a bucket. The pairs, sorted by the numbers of
//! their types, lowest first, are the *stops* of the *route*. The route ends at the first stop
//! whose name is in the map. For each stop before the stop that ends the route, a bucket is
//! created, inside the bucket of the next stop. If no stop's name is in the map, a bucket is
//! created for each stop, and the bucket of the last stop becomes a root. The item is then put into
//! the bucket of the first stop. `stops` and `destination` find the stop that ends the route.
//! `refusals` and `room` test whether the item can be put at the location. `arrive`, `new_buckets`
//! and `put` then put the item there.

mod arrive;
mod culprit;
mod destination;
mod new_buckets;
mod put;
mod refusals;
mod room;
mod stops;

pub(crate) use arrive::{place_device, place_item};
use crush_edits::Location;
use crush_units::{DeviceId, Name, Weight};
pub(crate) use culprit::{bad_name, end_name, unknown_type};
pub(crate) use destination::{destination_of, is_held, is_loop};
pub(crate) use new_buckets::empty_bucket;
pub(crate) use refusals::{check_device, check_location};
use std::alloc::Global;

/// A device that an edit puts at a location, with the name, the weight and the location that the
/// edit gives.
#[derive(Clone, Copy)]
pub(crate) struct NewDevice<'a> {
    pub(crate) device: DeviceId,
    pub(crate) name: &'a Name<Global>,
    pub(crate) weight: Weight,
    pub(crate) at: &'a Location,
}
