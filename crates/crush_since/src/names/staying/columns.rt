//! Builds the parts of an item's line: one part for each column in which the two maps differ. If
//! the line is about a map and a wanted map, a part says `A, wanted B`. If the line is about an old
//! map and a new map, a part says `A to B`. The argument `between` has the text between the two
//! values.

ghost use Rattle.std.specs.Prelude.{◌≡◌, ◌++◌, OnOk};
ghost use Rattle.std.specs.Option.{option_map};
ghost use Rattle.crush_items.specs.SeenItem.{seen_data};
ghost use Rattle.crush_compare.specs.NamedColumns.{same_type};
ghost use Rattle.crush_since.specs.ItemParts.{behind};
ghost use Rattle.crush_since.specs.Stays.{both, both_algs, both_classes, both_places, both_types, both_weights, item_type, lacking, place_in, place_word, same_place, wanted_word, weight_part};

use crate::since::{alg_bytes, class_bytes, push_part, type_bytes, weight_of};
use crush_compare::{same_algs, same_text, same_weight};
use crush_items::Seen;
use crush_map::Setting;
use crush_units::{BucketId, ItemId, put_all};
use std::alloc::{AllocError, Global};

/// Returns the name of the bucket that holds an item. If no bucket holds the item, returns `(root)`
/// for a bucket, and `(unplaced)` for a device. `parent` is the id of the bucket that holds the
/// item, and `holder` is the name of this bucket.
pub fn place_in<'a>(id: ItemId, parent: Option<BucketId>, holder: Option<&'a str>) -> &'a [u8]
    ensures { result.now ≡ place_in id parent (option_map (λ n. n.now) holder.entry) }
{
    match parent {
        Some(_) => match holder {
            Some(name) => name.as_bytes(),
            None => b"".as_slice(),
        },
        None => match id {
            ItemId::Device(_) => b"(unplaced)".as_slice(),
            ItemId::Bucket(_) => b"(root)".as_slice(),
        },
    }
}

#[tactic(auto, unfolding(crate::specs::Stays::place_word))]
fn place_of<'a>(item: &Seen<'a>) -> &'a [u8]
    ensures { result.now ≡ place_word (seen_data item.now) }
{
    place_in(item.view.id, item.view.parent, item.holder)
}

fn type_of<'a>(setting: &'a Setting, item: &Seen<'_>) -> &'a [u8]
    ensures { result.now ≡ item_type setting.now (seen_data item.now) }
{
    type_bytes(setting, item.view.id, item.view.kind)
}

/// Whether the types of two items have the same name. For two devices, the result is always true.
/// `id` is the id of one of the items.
fn same_type(id: ItemId, here: &[u8], there: &[u8]) -> bool
    ensures { result ≡ same_type id here.now there.now }
{
    match id {
        ItemId::Device(_) => true,
        ItemId::Bucket(_) => here == there,
    }
}

pub(crate) fn push_lacking(
    wanted: &Setting,
    there: &Seen<'_>,
    parts: &mut Vec<u8>,
) -> Result<(), AllocError>
    ensures { OnOk result (parts.new.items ≡ parts.old.items
        ++ behind (lacking wanted.now (seen_data there.now))) }
{
    parts.extend_from_slice(b"; wanted as ")?;
    push_wanted_word(wanted, there, parts)
}

#[tactic(auto, unfolding(crate::specs::Stays::wanted_word))]
pub(crate) fn push_wanted_word(
    wanted: &Setting,
    there: &Seen<'_>,
    parts: &mut Vec<u8>,
) -> Result<(), AllocError>
    ensures { OnOk result (parts.new.items ≡ parts.old.items
        ++ wanted_word wanted.now (seen_data there.now)) }
{
    let kind = type_of(wanted, there);
    let place = place_of(there);
    put_all(parts, &[kind, b" in ".as_slice(), place]).map_err(|_| AllocError)
}

fn push_both(
    same: bool,
    word: &[u8],
    here: &[u8],
    between: &[u8],
    there: &[u8],
    parts: &mut Vec<u8>,
) -> Result<(), AllocError>
    ensures { OnOk result (parts.new.items ≡ parts.old.items
        ++ behind (both same word.now here.now between.now there.now)) }
{
    push_part(same, &[word, here, between, there], parts)
}

pub(crate) fn push_type(
    between: &[u8],
    map: &Setting,
    wanted: &Setting,
    here: &Seen<'_>,
    there: &Seen<'_>,
    parts: &mut Vec<u8>,
) -> Result<(), AllocError>
    ensures { OnOk result (parts.new.items ≡ parts.old.items ++ behind (both_types between.now
        map.now wanted.now (seen_data here.now) (seen_data there.now))) }
{
    let before = type_of(map, here);
    let after = type_of(wanted, there);
    push_both(
        same_type(here.view.id, before, after),
        b"type ",
        before,
        between,
        after,
        parts,
    )
}

#[tactic(auto, unfolding(crate::specs::Stays::same_place))]
pub(crate) fn same_place(here: &Seen<'_>, there: &Seen<'_>) -> bool
    ensures { result ≡ same_place (seen_data here.now) (seen_data there.now) }
{
    let here = place_of(here);
    let there = place_of(there);
    here == there
}

pub(crate) fn push_place(
    word: &[u8],
    between: &[u8],
    here: &Seen<'_>,
    there: &Seen<'_>,
    parts: &mut Vec<u8>,
) -> Result<(), AllocError>
    ensures { OnOk result (parts.new.items ≡ parts.old.items ++ behind (both_places word.now
        between.now (seen_data here.now) (seen_data there.now))) }
{
    let from = place_of(here);
    let to = place_of(there);
    push_both(same_place(here, there), word, from, between, to, parts)
}

pub(crate) fn push_weight(
    alloc: Global,
    same: bool,
    between: &[u8],
    here: &Seen<'_>,
    there: &Seen<'_>,
    parts: &mut Vec<u8>,
) -> Result<(), AllocError>
    ensures { OnOk result (parts.new.items ≡ parts.old.items ++ behind (both_weights same
        between.now (seen_data here.now) (seen_data there.now))) }
{
    if same {
        return Ok(());
    }
    let before = weight_of(alloc, here.view.weight)?;
    let after = weight_of(alloc, there.view.weight)?;
    push_both(
        false,
        b"weight ",
        before.as_slice(),
        between,
        after.as_slice(),
        parts,
    )
}

/// Appends a part with the weight that a device has and the weight that is wanted, if the two are
/// more than one unit (1/65536 TiB) apart.
pub(super) fn push_far_weight(
    alloc: Global,
    here: &Seen<'_>,
    there: &Seen<'_>,
    parts: &mut Vec<u8>,
) -> Result<(), AllocError>
    ensures { OnOk result (parts.new.items ≡ parts.old.items
        ++ behind (weight_part (seen_data here.now) (seen_data there.now))) }
{
    let same = same_weight(here.view.id, here.view.weight, there.view.weight);
    push_weight(alloc, same, b", wanted ".as_slice(), here, there, parts)
}

pub(crate) fn push_class(
    between: &[u8],
    here: &Seen<'_>,
    there: &Seen<'_>,
    parts: &mut Vec<u8>,
) -> Result<(), AllocError>
    ensures { OnOk result (parts.new.items ≡ parts.old.items ++ behind (both_classes between.now
        (seen_data here.now) (seen_data there.now))) }
{
    push_both(
        same_text(here.view.class, there.view.class),
        b"class ",
        class_bytes(here.view.class),
        between,
        class_bytes(there.view.class),
        parts,
    )
}

pub(crate) fn push_alg(
    between: &[u8],
    here: &Seen<'_>,
    there: &Seen<'_>,
    parts: &mut Vec<u8>,
) -> Result<(), AllocError>
    ensures { OnOk result (parts.new.items ≡ parts.old.items ++ behind (both_algs between.now
        (seen_data here.now) (seen_data there.now))) }
{
    push_both(
        same_algs(here.view.alg, there.view.alg),
        b"alg ",
        alg_bytes(here.view.alg),
        between,
        alg_bytes(there.view.alg),
        parts,
    )
}
