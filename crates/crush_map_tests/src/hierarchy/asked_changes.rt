//! Tests how often the methods that change a forest use the `Guide` that is passed to them. Each
//! method changes a copy of the forest.

ghost use Rattle.std.specs.Prelude.{◌≡◌, ◌<◌, false, IsTrue};
ghost use Rattle.crush_units.specs.Name.{IsName};
ghost use Rattle.crush_units.specs.declared.id.ItemId.TheVariants.{Bucket as BucketItem};
ghost use Rattle.crush_model.specs.Columns.{is_part};
ghost use Rattle.crush_model.specs.Forest.{rows_of};
ghost use Rattle.crush_model.specs.Table.{are_nested, is_named};
ghost use Rattle.crush_nodes.specs.Room.{room};
ghost use Rattle.crush_nodes.specs.declared.place.Place.TheVariants.{Bucket as AtBucket};

use super::asked::{Asked, has_item, is_held};
use super::comes::can_come;
use super::items::{bucket, bucket_item, device, device_item, name};
use crush_hierarchy::Hierarchy;
use crush_tree::{Forest, Node, Place};
use crush_units::{BucketId, DeviceId, ItemId, Name, Weight};
use std::alloc::Global;
use std::process::Abort;

pub(super) fn copy_of(rt: &impl Abort, guide: &Asked<'_>) -> Forest<Global>
    ensures { rows_of result ≡ rows_of guide.now.forest.now }
{
    guide.forest.try_copy().expect(rt, "memory")
}

fn is_inside(forest: &Forest<Global>, own: BucketId, bucket: BucketId) -> bool
    ensures { result ≡ is_part (rows_of forest.now) (BucketItem own) (BucketItem bucket) }
{
    forest.recall_invariant();
    forest.contains(own, ItemId::Bucket(bucket))
}

fn are_nested(forest: &Forest<Global>, a: BucketId, b: BucketId) -> bool
    ensures { result ≡ are_nested (rows_of forest.now) a b }
{
    is_inside(forest, a, b) || is_inside(forest, b, a)
}

fn has_name(forest: &Forest<Global>, name: &Name<Global>) -> bool
    ensures named { result ≡ is_named (rows_of forest.now) name.now }
    ensures name { IsName name.now }
{
    forest.recall_invariant();
    forest.id_of(name.as_str()).is_some()
}

fn take_out(guide: &Asked<'_>, forest: &mut Forest<Global>, id: &ItemId) -> bool
    requires { rows_of forest.old ≡ rows_of guide.now.forest.now }
{
    match forest.detach_by(guide, *id) {
        Some((node, _)) => {
            drop(node);
            true
        }
        None => false,
    }
}

fn make_room(guide: &Asked<'_>, forest: &mut Forest<Global>, bucket: BucketId) -> bool
    requires { rows_of forest.old ≡ rows_of guide.now.forest.now }
    ensures same { rows_of forest.new ≡ rows_of guide.now.forest.now }
    ensures room { IsTrue result → (0 < room forest.new (AtBucket bucket)) }
{
    if !has_item(forest, &ItemId::Bucket(bucket)) {
        return false;
    }
    match forest.reserve_by(guide, Place::Bucket(bucket)) {
        Ok(()) => true,
        Err(_) => false,
    }
}

fn weigh(guide: &Asked<'_>, forest: &mut Forest<Global>, device: DeviceId, weight: Weight) -> bool
    requires { rows_of forest.old ≡ rows_of guide.now.forest.now }
{
    forest.recall_invariant();
    if !weight.is_device_weight() {
        return false;
    }
    if !is_held(forest, &ItemId::Device(device)) {
        return false;
    }
    let total = forest.total();
    forest
        .replace_weight_by(guide, device, weight, total)
        .is_some()
}

fn weigh_all(
    guide: &Asked<'_>,
    forest: &mut Forest<Global>,
    bucket: BucketId,
    weight: Weight,
) -> bool
    requires { rows_of forest.old ≡ rows_of guide.now.forest.now }
{
    forest.recall_invariant();
    if !weight.is_device_weight() {
        return false;
    }
    if !has_item(forest, &ItemId::Bucket(bucket)) {
        return false;
    }
    let total = forest.total();
    forest
        .replace_subtree_by(guide, bucket, weight, total)
        .is_some()
}

fn give_name(
    guide: &Asked<'_>,
    forest: &mut Forest<Global>,
    id: &ItemId,
    name: Name<Global>,
) -> bool
    requires { rows_of forest.old ≡ rows_of guide.now.forest.now }
{
    forest.recall_invariant();
    if !has_item(forest, id) {
        drop(name);
        return false;
    }
    if has_name(forest, &name) {
        drop(name);
        return false;
    }
    let old = forest.rename_by(guide, *id, name);
    drop(old);
    true
}

fn classify(
    guide: &Asked<'_>,
    forest: &mut Forest<Global>,
    device: DeviceId,
    class: Name<Global>,
) -> bool
    requires { rows_of forest.old ≡ rows_of guide.now.forest.now }
{
    forest.recall_invariant();
    if !has_item(forest, &ItemId::Device(device)) {
        drop(class);
        return false;
    }
    let old = forest.set_class_by(guide, device, Some(class));
    let is_first = old.is_none();
    drop(old);
    is_first
}

/// Tests whether two buckets can be exchanged, and exchanges them. Returns whether the guide was
/// used `often` times for the test, and `often` times for the exchange.
fn exchange(
    guide: &Asked<'_>,
    forest: &mut Forest<Global>,
    a: BucketId,
    b: BucketId,
    often: u32,
) -> bool
    requires { rows_of forest.old ≡ rows_of guide.now.forest.now }
{
    forest.recall_invariant();
    if !has_item(forest, &ItemId::Bucket(a)) {
        return false;
    }
    if !has_item(forest, &ItemId::Bucket(b)) {
        return false;
    }
    if are_nested(forest, a, b) {
        return false;
    }
    if !forest.fits_swap_by(guide, a, b) {
        return false;
    }
    if !guide.was_asked(often) {
        return false;
    }
    forest.swap_by(guide, a, b);
    guide.was_asked(often)
}

fn detach_asks(rt: &impl Abort, guide: &Asked<'_>, id: &ItemId, often: u32) -> bool {
    let mut forest = copy_of(rt, guide);
    let asks = take_out(guide, &mut forest, id) && guide.was_asked(often);
    drop(forest);
    asks
}

fn reserve_asks(rt: &impl Abort, guide: &Asked<'_>, bucket: BucketId, often: u32) -> bool {
    let mut forest = copy_of(rt, guide);
    let asks = make_room(guide, &mut forest, bucket) && guide.was_asked(often);
    drop(forest);
    asks
}

fn rename_asks(
    rt: &(impl Abort + AllocGlobal),
    guide: &Asked<'_>,
    id: &ItemId,
    often: u32,
) -> bool {
    let mut forest = copy_of(rt, guide);
    let asks = give_name(guide, &mut forest, id, name(rt, "h9")) && guide.was_asked(often);
    drop(forest);
    asks
}

fn weigh_asks(rt: &impl Abort, guide: &Asked<'_>, device: DeviceId, often: u32) -> bool {
    let mut forest = copy_of(rt, guide);
    let asks = weigh(guide, &mut forest, device, Weight::from_units(1)) && guide.was_asked(often);
    drop(forest);
    asks
}

fn weigh_all_asks(rt: &impl Abort, guide: &Asked<'_>, bucket: BucketId, often: u32) -> bool {
    let mut forest = copy_of(rt, guide);
    let asks = weigh_all(guide, &mut forest, bucket, Weight::from_units(1))
        && guide.was_asked(often);
    drop(forest);
    asks
}

fn class_asks(
    rt: &(impl Abort + AllocGlobal),
    guide: &Asked<'_>,
    device: DeviceId,
    often: u32,
) -> bool {
    let mut forest = copy_of(rt, guide);
    let asks = classify(guide, &mut forest, device, name(rt, "ssd")) && guide.was_asked(often);
    drop(forest);
    asks
}

fn exchange_asks(rt: &impl Abort, guide: &Asked<'_>, often: u32) -> bool {
    let mut forest = copy_of(rt, guide);
    let asks = exchange(guide, &mut forest, bucket(rt, 2), bucket(rt, 3), often);
    drop(forest);
    asks
}

/// The guide is used once for the item, and once for each bucket above the item. Two buckets are
/// above osd.0, one is above h1, one is above h2, and none is above osd.3. The test whether h1 and
/// h2 can be exchanged uses the guide 2 times for each of them, and so does the exchange.
pub(super) fn changes_ask(rt: &(impl Abort + AllocGlobal), guide: &Asked<'_>) -> bool {
    detach_asks(rt, guide, &device_item(rt, 0), 3)
        && detach_asks(rt, guide, &bucket_item(rt, 2), 2)
        && rename_asks(rt, guide, &device_item(rt, 0), 3)
        && rename_asks(rt, guide, &bucket_item(rt, 2), 2)
        && weigh_asks(rt, guide, device(rt, 0), 3)
        && weigh_all_asks(rt, guide, bucket(rt, 2), 2)
        && reserve_asks(rt, guide, bucket(rt, 2), 2)
        && class_asks(rt, guide, device(rt, 0), 3)
        && class_asks(rt, guide, device(rt, 3), 1)
        && exchange_asks(rt, guide, 4)
}

/// One bucket is above h1. So the guide is used 2 times to make room in h1, and 2 times to attach
/// the device to h1.
pub(super) fn attach_asks(
    rt: &(impl Abort + AllocGlobal),
    guide: &Asked<'_>,
    hierarchy: &Hierarchy<Global>,
) -> bool
    requires { rows_of guide.now.forest.now ≡ rows_of hierarchy.now }
{
    let mut forest = copy_of(rt, guide);
    let (h1, id, text) = (bucket(rt, 2), device(rt, 9), name(rt, "osd.9"));
    let asks = attaches(guide, &mut forest, hierarchy, h1, id, text);
    drop(forest);
    asks
}

fn attaches(
    guide: &Asked<'_>,
    forest: &mut Forest<Global>,
    hierarchy: &Hierarchy<Global>,
    bucket: BucketId,
    id: DeviceId,
    name: Name<Global>,
) -> bool
    requires guide { rows_of forest.old ≡ rows_of guide.now.forest.now }
    requires rows { rows_of guide.now.forest.now ≡ rows_of hierarchy.now }
{
    let weight = Weight::from_units(1);
    if !can_come(hierarchy, bucket, id, &name, weight) {
        drop(name);
        return false;
    }
    if !make_room(guide, forest, bucket) {
        drop(name);
        return false;
    }
    let has_asked = guide.was_asked(2);
    let node = Node::device(id, name, weight, None);
    forest.attach_by(guide, Place::Bucket(bucket), node);
    has_asked && guide.was_asked(2)
}
