//! Tests whether a line of a script can express an edit.

ghost use Rattle.std.specs.Prelude.{◌≡◌, ◌<◌, ◌^◌, Some, true};
ghost use Rattle.crush_edits.specs.Pushed.{IsLocation};
ghost use Rattle.crush_history.specs.Said.{IsSaid, IsSaidPlacing, device_named};
ghost use Rattle.crush_units.specs.Name.{IsName};

use crush_edits::{Edit, Location};
use crush_history::device_named;
use crush_units::{DeviceId, Name, Weight};
use std::alloc::Global;

/// Whether a line of a script can express the edit. An edit that places a device can be expressed
/// only if the name of the device is `osd.` followed by the id of the device. Every other edit can
/// be expressed.
pub(crate) fn is_expressible(edit: &Edit) -> bool
    ensures { result ≡ true → IsSaid edit.now }
{
    match edit {
        Edit::Place {
            device,
            name,
            weight,
            at,
            ..
        } => is_expressible_placing(*device, name, *weight, at),
        Edit::Move { name, at } => {
            recall_name(name);
            let _pairs = at.pairs();
            true
        }
        Edit::Swap { a, b } => {
            recall_names(a, b);
            true
        }
        Edit::Reweight { name, weight } => {
            recall_weighed(name, *weight);
            true
        }
        Edit::ReweightSubtree { name, weight } => {
            recall_weighed(name, *weight);
            true
        }
        Edit::Remove { name } => {
            recall_name(name);
            true
        }
        Edit::AddBucket { name, kind } => {
            recall_names(name, kind);
            true
        }
        Edit::Rename { from, to } => {
            recall_names(from, to);
            true
        }
        Edit::SetClass { name, class } => {
            recall_names(name, class);
            true
        }
        Edit::RemoveClass { name } => {
            recall_name(name);
            true
        }
    }
}

/// Whether a line of a script can express an edit that places this device.
fn is_expressible_placing(
    device: DeviceId,
    name: &Name<Global>,
    weight: Weight,
    at: &Location,
) -> bool
    ensures { result ≡ true → IsSaidPlacing device name.now weight at.now }
{
    recall_weighed(name, weight);
    let _pairs = at.pairs();
    match device_named(name.as_bytes()) {
        Some(named) => named == device,
        None => false,
    }
}

/// Tells the prover that the name is valid.
fn recall_name(name: &Name<Global>)
    ensures { IsName name.now }
{
    let _bytes = name.as_bytes();
}

/// Tells the prover that both names are valid.
fn recall_names(first: &Name<Global>, second: &Name<Global>)
    ensures first { IsName first.now }
    ensures second { IsName second.now }
{
    let _first = first.as_bytes();
    let _second = second.as_bytes();
}

/// Tells the prover that the name is valid, and that the weight is less than 2^32 units.
fn recall_weighed(name: &Name<Global>, weight: Weight)
    ensures name { IsName name.now }
    ensures weight { weight < 2 ^ 32 }
{
    let _bytes = name.as_bytes();
    let _units = weight.units();
}
