//! Attaches new items to a hierarchy. Before a function attaches an item, it tests whether the
//! contract of `Hierarchy::add` allows this. If not, or if memory runs out, it returns `false`.

ghost use Rattle.std.specs.Prelude.{◌≡◌, ◌++◌, ◌∷◌, [], true, Some, None, IfSome, IsTrue};
ghost use Rattle.crush_units.specs.Name.{IsName};
ghost use Rattle.crush_units.specs.declared.alg.Alg.TheVariants.{Straw2};
ghost use Rattle.crush_units.specs.declared.id.ItemId.TheVariants.{Bucket as BucketItem};
ghost use Rattle.crush_model.specs.Forest.{rows_of};
ghost use Rattle.crush_model.specs.ItemRows.{rows};
ghost use Rattle.crush_model.specs.Items.{bucket as bucket_with, device as device_with, none};
ghost use Rattle.crush_model.specs.Lawful.{Lawful};
ghost use Rattle.crush_model.specs.Table.{is_there};
ghost use Rattle.crush_tree.specs.Seen.{items_of};

use super::asks::{has_item, has_name};
use crush_hierarchy::Hierarchy;
use crush_tree::{Header, Node, Place};
use crush_units::limits::{MOST_BUCKETS, MOST_DEVICES};
use crush_units::{Alg, BucketId, DeviceId, ItemId, Name, TypeId, Weight};
use std::alloc::Global;

pub(super) fn can_come(
    hierarchy: &Hierarchy<Global>,
    bucket: BucketId,
    id: DeviceId,
    name: &Name<Global>,
    weight: Weight,
) -> bool
    ensures there { IsTrue result → (is_there (rows_of hierarchy.now) (BucketItem bucket) ≡ true) }
    ensures fits { IsTrue result → (Lawful (rows_of hierarchy.now ++ rows (Some bucket) (device_with
        (record { id = id; name = name.now; weight = weight; class = None }) none))) }
{
    hierarchy.recall_invariant();
    let _number = id.number();
    if !has_item(hierarchy, &ItemId::Bucket(bucket)) {
        return false;
    }
    if has_item(hierarchy, &ItemId::Device(id)) {
        return false;
    }
    if has_name(hierarchy, name) {
        return false;
    }
    if hierarchy.counts().devices >= MOST_DEVICES {
        return false;
    }
    if !weight.is_device_weight() {
        return false;
    }
    if !hierarchy.fits_attach(Place::Bucket(bucket), weight) {
        return false;
    }
    true
}

pub(super) fn put_placed(
    hierarchy: &mut Hierarchy<Global>,
    bucket: BucketId,
    id: DeviceId,
    name: Name<Global>,
    weight: Weight,
) -> bool {
    if !can_come(hierarchy, bucket, id, &name, weight) {
        drop(name);
        return false;
    }
    let node = Node::device(id, name, weight, None);
    hierarchy.add(Place::Bucket(bucket), node).is_ok()
}

pub(super) fn put_unplaced(
    hierarchy: &mut Hierarchy<Global>,
    id: DeviceId,
    name: Name<Global>,
) -> bool {
    hierarchy.recall_invariant();
    let _number = id.number();
    if has_item(hierarchy, &ItemId::Device(id)) {
        drop(name);
        return false;
    }
    if has_name(hierarchy, &name) {
        drop(name);
        return false;
    }
    if hierarchy.counts().devices >= MOST_DEVICES {
        drop(name);
        return false;
    }
    let node = Node::device(id, name, Weight::from_units(0), None);
    hierarchy.add(Place::Unplaced, node).is_ok()
}

fn empty_bucket(
    alloc: Global,
    id: BucketId,
    kind: TypeId,
    name: Name<Global>,
) -> Option<Node<Global>>
    ensures { IfSome result (λ node. items_of (node ∷ []) ≡ bucket_with
        (record { id = id; kind = kind; name = name; alg = Straw2; class_ids = [] }) 0 1 none none) }
{
    let header = Header {
        id,
        kind,
        name,
        alg: Alg::Straw2,
        class_ids: Vec::new(alloc),
    };
    match Node::bucket(alloc, header) {
        Ok(node) => Some(node),
        Err(header) => {
            drop(header);
            None
        }
    }
}

pub(super) fn put_root(
    hierarchy: &mut Hierarchy<Global>,
    alloc: Global,
    id: BucketId,
    kind: TypeId,
    name: Name<Global>,
) -> bool {
    hierarchy.recall_invariant();
    let _distance = id.distance();
    if has_name(hierarchy, &name) {
        drop(name);
        return false;
    }
    if kind.number() == 0 {
        drop(name);
        return false;
    }
    if hierarchy.is_used(id) {
        drop(name);
        return false;
    }
    if hierarchy.counts().buckets >= MOST_BUCKETS {
        drop(name);
        return false;
    }
    let Some(node) = empty_bucket(alloc, id, kind, name) else {
        return false;
    };
    hierarchy.add(Place::Root, node).is_ok()
}

pub(super) fn put_bucket(
    hierarchy: &mut Hierarchy<Global>,
    alloc: Global,
    bucket: BucketId,
    id: BucketId,
    kind: TypeId,
    name: Name<Global>,
) -> bool {
    hierarchy.recall_invariant();
    let _distance = id.distance();
    if !has_item(hierarchy, &ItemId::Bucket(bucket)) {
        drop(name);
        return false;
    }
    if has_name(hierarchy, &name) {
        drop(name);
        return false;
    }
    if kind.number() == 0 {
        drop(name);
        return false;
    }
    if hierarchy.is_used(id) {
        drop(name);
        return false;
    }
    if hierarchy.counts().buckets >= MOST_BUCKETS {
        drop(name);
        return false;
    }
    if !hierarchy.fits_attach(Place::Bucket(bucket), Weight::from_units(0)) {
        drop(name);
        return false;
    }
    let Some(node) = empty_bucket(alloc, id, kind, name) else {
        return false;
    };
    hierarchy.add(Place::Bucket(bucket), node).is_ok()
}
