//! Tests how often the methods that read, test or set a weight use the `Guide` that is passed to
//! them.

ghost use Rattle.std.specs.Prelude.{◌≡◌};
ghost use Rattle.crush_model.specs.Forest.{rows_of};

use super::asked::{Asked, has_item, is_held};
use super::asked_changes::copy_of;
use super::items::{bucket, bucket_item, device, device_item};
use crush_tree::Forest;
use crush_units::{BucketId, DeviceId, ItemId, Weight};
use std::alloc::Global;
use std::process::Abort;

fn weighs(guide: &Asked<'_>, id: &ItemId, weight: Weight, often: u32) -> bool {
    guide.forest.weight_by(guide, *id) == Some(weight) && guide.was_asked(often)
}

/// Tests whether a device can have a weight, and sets this weight. Returns whether the guide was
/// used `often` times for the test, and `often` times for the change.
fn set_one(
    guide: &Asked<'_>,
    forest: &mut Forest<Global>,
    device: DeviceId,
    weight: Weight,
    often: u32,
) -> bool
    requires { rows_of forest.old ≡ rows_of guide.now.forest.now }
{
    forest.recall_invariant();
    if !weight.is_device_weight() {
        return false;
    }
    if !is_held(forest, &ItemId::Device(device)) {
        return false;
    }
    let total = forest.total();
    if !forest.fits_weight_by(guide, device, weight, total) {
        return false;
    }
    if !guide.was_asked(often) {
        return false;
    }
    forest.set_weight_by(guide, device, weight);
    guide.was_asked(often)
}

fn set_all(
    guide: &Asked<'_>,
    forest: &mut Forest<Global>,
    bucket: BucketId,
    weight: Weight,
    often: u32,
) -> bool
    requires { rows_of forest.old ≡ rows_of guide.now.forest.now }
{
    forest.recall_invariant();
    if !weight.is_device_weight() {
        return false;
    }
    if !has_item(forest, &ItemId::Bucket(bucket)) {
        return false;
    }
    let total = forest.total();
    if !forest.fits_subtree_by(guide, bucket, weight, total) {
        return false;
    }
    if !guide.was_asked(often) {
        return false;
    }
    forest.set_subtree_by(guide, bucket, weight);
    guide.was_asked(often)
}

fn sets_one(rt: &impl Abort, guide: &Asked<'_>, id: DeviceId, total: u64, often: u32) -> bool {
    let mut forest = copy_of(rt, guide);
    let is_set = set_one(guide, &mut forest, id, Weight::from_units(1), often);
    let is_summed = forest.total() == total;
    drop(forest);
    is_set && is_summed
}

fn sets_all(rt: &impl Abort, guide: &Asked<'_>, id: BucketId, total: u64, often: u32) -> bool {
    let mut forest = copy_of(rt, guide);
    let is_set = set_all(guide, &mut forest, id, Weight::from_units(1), often);
    let is_summed = forest.total() == total;
    drop(forest);
    is_set && is_summed
}

/// The guide is used once for the item, and once for each bucket above the item. Two buckets are
/// above osd.0, and one is above h1.
pub(super) fn weights_ask(rt: &impl Abort, guide: &Asked<'_>) -> bool {
    weighs(guide, &device_item(rt, 0), Weight::from_units(65536), 3)
        && weighs(guide, &bucket_item(rt, 2), Weight::from_units(131072), 2)
        && sets_one(rt, guide, device(rt, 0), 98305, 3)
        && sets_all(rt, guide, bucket(rt, 2), 32770, 2)
}
