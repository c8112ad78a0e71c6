//! Tests how often the methods of a forest use the `Guide` that is passed to them. A guide returns
//! the place of an item. A method that goes from an item up to its root should use the guide once
//! for the item, and once for each bucket above the item. If a method searched the forest instead,
//! it would use the guide less often. If a method went up twice, it would use the guide more often.

ghost use Rattle.std.specs.Option.{option_map};
ghost use Rattle.std.specs.Prelude.{◌≡◌};
ghost use Rattle.crush_units.specs.Id.{is_device_id};
ghost use Rattle.crush_model.specs.Forest.{rows_of};
ghost use Rattle.crush_model.specs.Table.{is_there, is_placed};
ghost use Rattle.crush_nodes.specs.Guides.{place_in, place_under};

use super::asked_changes::{attach_asks, changes_ask};
use super::asked_weights::weights_ask;
use super::calls::example;
use super::items::{bucket, bucket_item, device, device_item};
use crush_hierarchy::Hierarchy;
use crush_tree::{Forest, Guide, Place, Position};
use crush_units::{BucketId, DeviceId, ItemId, Weight};
use std::alloc::Global;
use std::cell::Cell;
use std::process::Abort;

/// A guide that counts how often it is used. It finds the place of an item by searching the forest.
/// Its hint is always 0, because it doesn't know the index of the item among the items of this
/// place.
#[derive(Drop)]
pub(super) struct Asked<'f> {
    pub(super) forest: &'f Forest<Global>,
    times: Cell<u32>,
}

impl Guide for Asked<'_> {
    ghost use Rattle.crush_model.specs.Forest.{rows_of};
    ghost use Rattle.crush_nodes.specs.Guides.{place_in};

    ghost place_of = { λ guide i. place_in (rows_of guide.forest.now) i };

    fn position(&self, id: ItemId) -> Option<Position> {
        self.times.set(self.times.get().saturating_add(1));
        position_in(self.forest, &id)
    }
}

impl Asked<'_> {
    /// Whether the guide was used exactly `often` times since the last call of this method. Resets
    /// the count.
    pub(super) fn was_asked(&self, often: u32) -> bool {
        let times = self.times.get();
        self.times.set(0);
        times == often
    }
}

pub(super) fn has_item(forest: &Forest<Global>, id: &ItemId) -> bool
    ensures { result ≡ is_there (rows_of forest.now) id.now }
{
    forest.recall_invariant();
    forest.find(*id).is_some()
}

pub(super) fn is_held(forest: &Forest<Global>, id: &ItemId) -> bool
    ensures { result ≡ is_placed (rows_of forest.now) id.now }
{
    forest.recall_invariant();
    forest.parent(*id).is_some()
}

fn place_under(id: &ItemId, parent: Option<BucketId>) -> Place
    ensures { result ≡ place_under (is_device_id id.now) parent }
{
    match parent {
        Some(bucket) => Place::Bucket(bucket),
        None => match id {
            ItemId::Device(_) => Place::Unplaced,
            ItemId::Bucket(_) => Place::Root,
        },
    }
}

fn position_in(forest: &Forest<Global>, id: &ItemId) -> Option<Position>
    ensures { option_map (λ position. position.place) result ≡ place_in (rows_of forest.now) id.now }
{
    forest.recall_invariant();
    if !has_item(forest, id) {
        return None;
    }
    let place = place_under(id, forest.parent(*id));
    Some(Position { place, hint: 0 })
}

fn finds(guide: &Asked<'_>, id: &ItemId) -> bool {
    guide.forest.find_by(guide, *id).is_some()
}

fn has_parent(guide: &Asked<'_>, id: &ItemId) -> bool {
    guide.forest.parent_by(guide, *id).is_some()
}

fn has_items(guide: &Asked<'_>, bucket: BucketId) -> bool {
    guide.forest.items_by(guide, bucket).is_some()
}

fn is_below(guide: &Asked<'_>, bucket: BucketId, id: &ItemId) -> bool {
    guide.forest.contains_by(guide, bucket, *id)
}

fn has_no_class_id(guide: &Asked<'_>, bucket: BucketId) -> bool {
    match guide.forest.class_ids_by(guide, bucket) {
        Some(ids) => ids.is_empty(),
        None => false,
    }
}

fn weighs_of_class(guide: &Asked<'_>, id: &ItemId, class: &str, weight: Weight) -> bool {
    guide.forest.class_weight_by(guide, *id, class) == Some(weight)
}

fn can_receive(guide: &Asked<'_>, bucket: BucketId, weight: Weight) -> bool {
    guide.forest.recall_invariant();
    let total = guide.forest.total();
    has_item(guide.forest, &ItemId::Bucket(bucket))
        && guide
            .forest
            .fits_attach_by(guide, Place::Bucket(bucket), weight, total)
}

fn can_move(guide: &Asked<'_>, device: DeviceId, bucket: BucketId, weight: Weight) -> bool {
    guide.forest.recall_invariant();
    let total = guide.forest.total();
    has_item(guide.forest, &ItemId::Bucket(bucket))
        && guide.forest.fits_move_by(
            guide,
            ItemId::Device(device),
            Place::Bucket(bucket),
            Some(weight),
            total,
        )
}

/// The way from osd.0 up to the root uses the guide 3 times: for osd.0, for h1 and for the root. A
/// look-up of the bucket that holds osd.0 uses the guide only once.
fn asks_for_a_device(rt: &impl Abort, guide: &Asked<'_>) -> bool {
    let id = device_item(rt, 0);
    finds(guide, &id)
        && guide.was_asked(3)
        && has_parent(guide, &id)
        && guide.was_asked(1)
        && is_below(guide, bucket(rt, 1), &id)
        && guide.was_asked(3)
        && weighs_of_class(guide, &id, "ssd", Weight::from_units(0))
        && guide.was_asked(3)
}

/// The way from h1 up to the root uses the guide 2 times: for h1 and for the root. The test whether
/// osd.0 can move to h2 uses the guide 3 times on the way up from osd.0, and 2 times on the way up
/// from h2.
fn asks_for_a_bucket(rt: &impl Abort, guide: &Asked<'_>) -> bool {
    let (h1, id, one) = (bucket(rt, 2), bucket_item(rt, 2), Weight::from_units(65536));
    finds(guide, &id)
        && guide.was_asked(2)
        && has_items(guide, h1)
        && guide.was_asked(2)
        && has_no_class_id(guide, h1)
        && guide.was_asked(2)
        && weighs_of_class(guide, &id, "ssd", Weight::from_units(0))
        && guide.was_asked(2)
        && can_receive(guide, h1, one)
        && guide.was_asked(2)
        && can_move(guide, device(rt, 0), bucket(rt, 3), one)
        && guide.was_asked(5)
}

fn asks_seldom(rt: &(impl Abort + AllocGlobal), hierarchy: &Hierarchy<Global>) -> bool {
    let guide = Asked {
        forest: hierarchy.forest(),
        times: Cell::new(0),
    };
    asks_for_a_device(rt, &guide)
        && asks_for_a_bucket(rt, &guide)
        && changes_ask(rt, &guide)
        && attach_asks(rt, &guide, hierarchy)
        && weights_ask(rt, &guide)
}

#[test]
fn guides_are_asked_once_for_each_bucket(rt: HostRuntime) {
    let hierarchy = example(&rt);
    let is_seldom = asks_seldom(&rt, &hierarchy);
    drop(hierarchy);
    assert!(rt; is_seldom);
}
