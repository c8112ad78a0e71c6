//! The weights that an item had and has in a place.

ghost use Rattle.std.specs.Prelude.{◌≡◌, ◌++◌, true, Some, IfOk, OnOk};
ghost use Rattle.std.specs.Option.{option_map};
ghost use Rattle.crush_since.specs.ChangeText.{class_word, item_class, weight_or_dash, weighed, weighed_here, weighs};
ghost use Rattle.crush_since.specs.SeenChange.{change_data};
ghost use Rattle.crush_items.specs.SeenItem.{seen_data};

use crate::changes::seen::Change;
use crate::since::columns::same_parent;
use crate::since::seen::Seen;
use crush_print::words::{bytes_of, push_all, push_weight};
use crush_units::Weight;
use std::alloc::{AllocError, Global};

/// Returns the class of a row's item, or an empty text if the item has no class. The class is the
/// one in the new map if the new map has the item in this place, and otherwise the one in the old
/// map.
pub(super) fn class_bytes<'a>(change: &Change<'a>) -> &'a [u8]
    ensures { result.now ≡ class_word (change_data change.now) }
{
    if change.stands {
        class_of(&change.after)
    } else {
        class_of(&change.before)
    }
}

fn class_of<'a>(item: &Option<Seen<'a>>) -> &'a [u8]
    ensures { result.now ≡ item_class (option_map seen_data item.now) }
{
    match item {
        Some(item) => bytes_of(item.view.class),
        None => b"".as_slice(),
    }
}

/// Returns what the item weighed in this place in the old map. Returns `None` if the old map had
/// the item in another place or didn't have it. If the new map has the item in this place, the old
/// map had the item in this place too if and only if the item has the same parent in both maps.
pub(super) fn weighed(change: &Change<'_>) -> Option<Weight>
    ensures { result ≡ weighed (change_data change.now) }
{
    match &change.before {
        Some(before) => {
            if change.stands {
                weighed_before(before, &change.after)
            } else {
                Some(before.view.weight)
            }
        }
        None => None,
    }
}

fn weighed_before(before: &Seen<'_>, after: &Option<Seen<'_>>) -> Option<Weight>
    ensures { result ≡ weighed_here true (Some (seen_data before.now)) (option_map seen_data after.now) }
{
    match after {
        Some(after) => {
            if same_parent(before.view.parent, after.view.parent) {
                Some(before.view.weight)
            } else {
                None
            }
        }
        None => None,
    }
}

pub(super) fn weighs(change: &Change<'_>) -> Option<Weight>
    ensures { result ≡ weighs (change_data change.now) }
{
    if !change.stands {
        return None;
    }
    match &change.after {
        Some(after) => Some(after.view.weight),
        None => None,
    }
}

fn push_weight_or_dash(weight: Option<Weight>, out: &mut Vec<u8>) -> Result<(), AllocError>
    ensures { OnOk result (out.new.items ≡ out.old.items ++ weight_or_dash weight) }
{
    match weight {
        Some(weight) => push_weight(weight, out),
        None => push_all(&[b"-".as_slice()], out),
    }
}

pub(super) fn weight_or_dash(alloc: Global, weight: Option<Weight>) -> Result<Vec<u8>, AllocError>
    ensures { IfOk result (λ text. text.items ≡ weight_or_dash weight) }
{
    let mut text = Vec::new(alloc);
    push_weight_or_dash(weight, &mut text)?;
    Ok(text)
}
