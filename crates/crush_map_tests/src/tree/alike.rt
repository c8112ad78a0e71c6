//! Compares two forests: whether they have the same items with the ids that the example map uses,
//! in the same order.

use super::items::{bucket, bucket_item, device_item};
use crush_tree::{Forest, Node, View};
use crush_units::ItemId;
use std::alloc::{Allocator, Global};
use std::process::Abort;

pub(super) fn copy_of(rt: &impl Abort, forest: &Forest<Global>) -> Forest<Global> {
    forest.try_copy().expect(rt, "memory")
}

fn is_same_view(view: &View<'_>, other: &View<'_>) -> bool {
    let is_same_name = view.name == other.name;
    let is_same_class = view.class == other.class;
    let is_same_parent = view.parent == other.parent;
    let is_same_alg = view.alg == other.alg;
    let is_same_kind = view.kind == other.kind;
    let is_same_weight = view.weight == other.weight;
    is_same_name && is_same_class && is_same_parent && is_same_alg && is_same_kind && is_same_weight
}

fn is_seen<A: Allocator>(forest: &Forest<A>, id: ItemId, like: &View<'_>) -> bool {
    match forest.find(id) {
        Some(view) => is_same_view(&view, like),
        None => false,
    }
}

fn is_seen_alike<A: Allocator, B: Allocator>(
    forest: &Forest<A>,
    other: &Forest<B>,
    id: &ItemId,
) -> bool {
    match forest.find(*id) {
        Some(view) => is_seen(other, *id, &view),
        None => other.find(*id).is_none(),
    }
}

fn are_in_order<A: Allocator, B: Allocator>(items: &[Node<A>], others: &[Node<B>]) -> bool {
    items.len() == others.len()
        && items
            .iter()
            .zip(others)
            .all(|(item, other)| item.id() == other.id())
}

fn holds_alike<A: Allocator, B: Allocator>(
    rt: &impl Abort,
    forest: &Forest<A>,
    other: &Forest<B>,
    distance: u32,
) -> bool {
    let id = bucket(rt, distance);
    match (forest.items(id), other.items(id)) {
        (Some(items), Some(others)) => are_in_order(items, others),
        (None, None) => true,
        _ => false,
    }
}

pub(super) fn is_same<A: Allocator, B: Allocator>(
    rt: &impl Abort,
    forest: &Forest<A>,
    other: &Forest<B>,
) -> bool {
    for i in 0..4 {
        if !is_seen_alike(forest, other, &device_item(rt, i)) {
            return false;
        }
    }
    for i in 1..4 {
        if !is_seen_alike(forest, other, &bucket_item(rt, i))
            || !holds_alike(rt, forest, other, i)
        {
            return false;
        }
    }
    are_in_order(forest.roots(), other.roots()) && are_in_order(forest.unplaced(), other.unplaced())
}
