//! Tests whether two maps agree in one column of an item: its parent, type, class, algorithm or
//! class ids.

ghost use Rattle.std.specs.Prelude.{◌≡◌, map as each};
ghost use Rattle.std.specs.Option.{option_map};
ghost use Rattle.crush_nodes.specs.Seen.{shadow_data};
ghost use Rattle.std.specs.Cmp.Lexicographic.{pointwise};
ghost use Rattle.crush_compare.specs.Equal.{same_option, same_text};
ghost use Rattle.crush_nodes.specs.SeenView.{view_data};
ghost use Rattle.crush_compare.specs.NamedColumns.{same_type, type_name};
ghost use Rattle.crush_compare.specs.SameItem.{same_algs, same_class_id};

use crush_map::Setting;
use crush_tree::{ShadowId, View};
use crush_units::{Alg, BucketId, ItemId, TypeId};
use std::alloc::Allocator;

/// Whether an item has the same parent in two maps. `before` and `after` are the ids of the buckets
/// that hold the item in these maps, or `None` if no bucket holds it. The result is true if both
/// ids are equal, or if both are `None`.
pub fn same_parent(before: Option<BucketId>, after: Option<BucketId>) -> bool
    ensures { result ≡ same_option before after }
{
    match (before, after) {
        (Some(before), Some(after)) => before.distance() == after.distance(),
        (None, None) => true,
        _ => false,
    }
}

/// Whether both texts are present and equal, or both are `None`.
pub fn same_text(before: Option<&str>, after: Option<&str>) -> bool
    ensures { result ≡ same_text (option_map (λ x. x.now) before.entry)
        (option_map (λ x. x.now) after.entry) }
{
    match before {
        Some(before) => match after {
            Some(after) => before.as_bytes() == after.as_bytes(),
            None => false,
        },
        None => after.is_none(),
    }
}

/// Returns the name that a map's `Setting` has for a type, or an empty name if the setting doesn't
/// have this type.
fn type_name(setting: &Setting, kind: TypeId) -> &[u8]
    ensures { result.now ≡ type_name setting.now kind }
{
    match setting.kind_name(kind) {
        Some(name) => name.as_bytes(),
        None => b"".as_slice(),
    }
}

/// Whether the types of two items have the same name. The two items are matched by their names, so
/// both are devices or both are buckets. If they are devices, the result is always true. `old` and
/// `new` are the settings of the two maps, which have the names of the types.
pub(crate) fn same_type(old: &Setting, new: &Setting, before: &View<'_>, after: &View<'_>) -> bool
    ensures { result ≡ same_type (view_data before.now).id
        (type_name old.now (view_data before.now).kind)
        (type_name new.now (view_data after.now).kind) }
{
    match before.id {
        ItemId::Device(_) => true,
        ItemId::Bucket(_) => type_name(old, before.kind) == type_name(new, after.kind),
    }
}

/// Whether both items have the same algorithm, or both have none.
pub fn same_algs(before: Option<Alg>, after: Option<Alg>) -> bool
    ensures { result ≡ same_algs before after }
{
    match (before, after) {
        (Some(before), Some(after)) => before.is_same(after),
        (None, None) => true,
        _ => false,
    }
}

/// Whether both lists have the same class ids in the same order.
pub fn same_class_ids<A: Allocator, B: Allocator>(
    before: &[ShadowId<A>],
    after: &[ShadowId<B>],
) -> bool
    ensures { result
        ≡ pointwise same_class_id (each shadow_data before.now) (each shadow_data after.now) }
{
    if before.len() != after.len() {
        return false;
    }
    for index in 0..before.len() {
        if !same_class_id(&before[index], &after[index]) {
            return false;
        }
    }
    true
}

fn same_class_id<A: Allocator, B: Allocator>(before: &ShadowId<A>, after: &ShadowId<B>) -> bool
    ensures { result ≡ same_class_id (shadow_data before.now) (shadow_data after.now) }
{
    before.id.distance() == after.id.distance() && before.class.as_bytes() == after.class.as_bytes()
}
