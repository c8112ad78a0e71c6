//! Compares the items of two maps. The items are found by a search of each forest, and not by the
//! index of a map.

use crate::map::looked_up::NAMES;
use crush_map::CrushMap;
use crush_tree::{Forest, Node, View};
use crush_units::{BucketId, ItemId};
use std::alloc::Allocator;

fn is_same_row(view: &View<'_>, other: &View<'_>) -> bool {
    let is_named = view.name == other.name;
    let is_classed = view.class == other.class;
    let is_held = view.parent == other.parent;
    let is_alike = view.alg == other.alg;
    is_named
        && is_classed
        && is_held
        && is_alike
        && view.id == other.id
        && view.kind == other.kind
        && view.weight == other.weight
}

fn are_same_ids<A: Allocator, B: Allocator>(items: &[Node<A>], others: &[Node<B>]) -> bool {
    items.len() == others.len()
        && items
            .iter()
            .zip(others)
            .all(|(item, other)| item.id() == other.id())
}

fn holds_the_same<A: Allocator, B: Allocator>(
    forest: &Forest<A>,
    other: &Forest<B>,
    bucket: BucketId,
) -> bool {
    match (forest.items(bucket), other.items(bucket)) {
        (Some(items), Some(others)) => are_same_ids(items, others),
        _ => false,
    }
}

fn is_same_item<A: Allocator, B: Allocator>(
    forest: &Forest<A>,
    other: &Forest<B>,
    id: &ItemId,
) -> bool {
    let is_row = match (forest.find(*id), other.find(*id)) {
        (Some(view), Some(other)) => is_same_row(&view, &other),
        _ => false,
    };
    is_row
        && match id {
            ItemId::Bucket(bucket) => holds_the_same(forest, other, *bucket),
            ItemId::Device(_) => true,
        }
}

fn is_same_name<A: Allocator, B: Allocator>(
    forest: &Forest<A>,
    other: &Forest<B>,
    name: &str,
) -> bool {
    match (forest.id_of(name), other.id_of(name)) {
        (Some(id), Some(_)) => is_same_item(forest, other, &id),
        (None, None) => true,
        _ => false,
    }
}

/// Whether the maps have the same items, in the same order. The list [`NAMES`] must have the name
/// of every item of `other`.
pub(super) fn has_the_same<A: Allocator, B: Allocator>(
    map: &CrushMap<A>,
    other: &CrushMap<B>,
) -> bool {
    let (forest, others) = (map.forest(), other.forest());
    map.counts() == other.counts()
        && are_same_ids(forest.roots(), others.roots())
        && are_same_ids(forest.unplaced(), others.unplaced())
        && NAMES.iter().all(|name| is_same_name(forest, others, name))
}
