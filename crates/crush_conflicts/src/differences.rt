//! In which aspects an item of one map differs from the same item of another map.

ghost use Rattle.std.specs.Prelude.{◌≡◌, List};
ghost use Rattle.std.specs.Option.{option_map};
ghost use Rattle.crush_model.specs.Stands.{Stands};
ghost use Rattle.crush_model.specs.Table.{Row};
ghost use Rattle.crush_items.specs.SeenItem.{seen_data};
ghost use Rattle.crush_units.specs.Id.{is_device_id};
ghost use Rattle.crush_conflicts.specs.Differences.{aspects_of, aspects_of_item, differences, differences_of_items, has_weight, same_bucket, same_holder, same_place};

use crate::aspects::Aspects;
use crate::items::KnownItems;
use crush_compare::same_text;
use crush_items::Seen;
use crush_units::{BucketId, ItemId, Weight};
use std::alloc::Allocator;

/// Returns the aspects of `here` that `there` doesn't have, or for which `there` has another value.
/// If a map doesn't have the item (`None`), then the item has only the aspect `presence` there: the
/// map says only that the item doesn't exist. `known` has the items of the map before the run.
/// `same_bucket` uses them to find out whether the two items are in the same bucket.
pub(crate) fn differences<A: Allocator>(
    known: &KnownItems<'_, A>,
    here: &Option<Seen<'_>>,
    there: &Option<Seen<'_>>,
) -> Aspects
    ensures { (t : List Row) → Stands known.now t
        → result ≡ differences t (option_map seen_data here.now) (option_map seen_data there.now) }
{
    match here {
        None => match there {
            None => Aspects::none(),
            Some(_) => Aspects::presence(),
        },
        Some(here) => match there {
            None => aspects_of_item(here),
            Some(there) => differences_of_items(known, here, there),
        },
    }
}

/// Returns the aspects that an item has. If a map doesn't have the item (`None`), then the item has
/// only the aspect `presence`.
pub(crate) fn aspects_of(item: &Option<Seen<'_>>) -> Aspects
    ensures { result ≡ aspects_of (option_map seen_data item.now) }
{
    match item {
        None => Aspects::presence(),
        Some(item) => aspects_of_item(item),
    }
}

fn aspects_of_item(item: &Seen<'_>) -> Aspects
    ensures { result ≡ aspects_of_item (seen_data item.now) }
{
    Aspects {
        presence: true,
        kind: true,
        place: true,
        weight: is_device(item.view.id),
        name: true,
        class: true,
    }
}

fn is_device(id: ItemId) -> bool
    ensures { result ≡ is_device_id id }
{
    match id {
        ItemId::Device(_) => true,
        ItemId::Bucket(_) => false,
    }
}

fn differences_of_items<A: Allocator>(
    known: &KnownItems<'_, A>,
    here: &Seen<'_>,
    there: &Seen<'_>,
) -> Aspects
    ensures { (t : List Row) → Stands known.now t
        → result ≡ differences_of_items t (seen_data here.now) (seen_data there.now) }
{
    let same_place = same_place(known, here, there);
    let (here, there) = (&here.view, &there.view);
    Aspects {
        presence: false,
        kind: here.kind.number() != there.kind.number(),
        place: !same_place,
        weight: !has_weight(here.id, there.id, here.weight, there.weight),
        name: here.name.as_bytes() != there.name.as_bytes(),
        class: !same_text(here.class, there.class),
    }
}

fn same_place<A: Allocator>(known: &KnownItems<'_, A>, here: &Seen<'_>, there: &Seen<'_>) -> bool
    ensures { (t : List Row) → Stands known.now t
        → result ≡ same_place t (seen_data here.now) (seen_data there.now) }
{
    match here.view.parent {
        None => there.view.parent.is_none(),
        Some(p) => match there.view.parent {
            None => false,
            Some(q) => same_bucket(known, p, q, here.holder, there.holder),
        },
    }
}

/// Whether two buckets of two maps are the same bucket. If `known` has at least one of the two ids,
/// the buckets are the same if their ids are equal. Otherwise they are the same if their names are
/// equal.
fn same_bucket<A: Allocator>(
    known: &KnownItems<'_, A>,
    here: BucketId,
    there: BucketId,
    here_name: Option<&str>,
    there_name: Option<&str>,
) -> bool
    ensures { (t : List Row) → Stands known.now t
        → result ≡ same_bucket t here there (option_map (λ n. n.now) here_name.entry)
        (option_map (λ n. n.now) there_name.entry) }
{
    if known.has(&ItemId::Bucket(here)) || known.has(&ItemId::Bucket(there)) {
        here.distance() == there.distance()
    } else {
        same_text(here_name, there_name)
    }
}

/// Whether the item `there` has the weight of the item `here`. If `here` is a bucket, this is true,
/// because a bucket has no weight of its own. If `here` is a device and `there` is a bucket, this
/// is false.
fn has_weight(here: ItemId, there: ItemId, weight: Weight, other: Weight) -> bool
    ensures { result ≡ has_weight here there weight other }
{
    match here {
        ItemId::Bucket(_) => true,
        ItemId::Device(_) => match there {
            ItemId::Bucket(_) => false,
            ItemId::Device(_) => weight.units() == other.units(),
        },
    }
}
