//! Builds the line about an item that differs, if items are matched by their ids.

ghost use Rattle.std.specs.Prelude.{◌≡◌, ◌≤◌, ◌++◌, OnOk, length, drop, flat_map};
ghost use Rattle.std.specs.Option.{option_map};
ghost use Rattle.crush_items.specs.SeenItem.{seen_data};
ghost use Rattle.crush_nodes.specs.SeenView.{view_data};
ghost use Rattle.crush_since.specs.ItemParts.{behind, part, change, name_part, type_part, place_part, weight_part, class_part, alg_part, class_ids_part, changes, line_text, listed_name, parts as all_parts, item_line};

use crate::since::columns::{same_algs, same_class, same_parent};
use crate::since::seen::Seen;
use crate::since::words::{
    alg_bytes, class_bytes, place_of, push_item_word, push_whole, type_bytes, weight_of,
};
use crush_map::Setting;
use crush_print::words::push_all;
use crush_tree::View;
use crush_units::ItemId;
use std::alloc::{AllocError, Global};

/// What two maps say about the item with a certain id. If the old map doesn't have the item,
/// `before` is `None`. If the new map doesn't have the item, `after` is `None`.
#[derive(Clone, Copy)]
pub(crate) struct Compared<'a> {
    pub old: &'a Setting,
    pub new: &'a Setting,
    pub before: Option<Seen<'a>>,
    pub after: Option<Seen<'a>>,
    pub same_class_ids: bool,
}

/// Appends the line of an item, or nothing if both maps say the same about its id.
pub(crate) fn push_line(
    alloc: Global,
    id: ItemId,
    item: &Compared<'_>,
    out: &mut Vec<u8>,
) -> Result<(), AllocError>
    ensures { OnOk result (out.new.items ≡ out.old.items
        ++ item_line item.now.old.now item.now.new.now id (option_map seen_data item.now.before)
        (option_map seen_data item.now.after) item.now.same_class_ids) }
{
    let mut parts = Vec::new(alloc);
    push_parts(alloc, item, &mut parts)?;
    let told = parts.as_slice();
    if told.is_empty() {
        return Ok(());
    }
    push_text(
        listed_name(&item.before, &item.after),
        id,
        after_mark(told),
        out,
    )?;
    Ok(())
}

/// Returns the parts without the semicolon and the space that come before the first part.
pub(crate) fn after_mark(parts: &[u8]) -> &[u8]
    requires { 2 ≤ length parts.now }
    ensures { result.now ≡ drop 2 parts.now }
{
    &parts[2..]
}

fn push_text(name: &[u8], id: ItemId, text: &[u8], out: &mut Vec<u8>) -> Result<(), AllocError>
    ensures { OnOk result (out.new.items ≡ out.old.items ++ line_text name.now id text.now) }
{
    push_item_word(name, id, out)?;
    push_all(&[b": ".as_slice(), text, b"\n".as_slice()], out)
}

/// Returns the name that the item has in the new map. If the new map doesn't have the item, returns
/// its name in the old map.
fn listed_name<'a>(before: &'a Option<Seen<'_>>, after: &'a Option<Seen<'_>>) -> &'a [u8]
    ensures { result.now
        ≡ listed_name (option_map seen_data before.now) (option_map seen_data after.now) }
{
    match after {
        Some(after) => after.view.name.as_bytes(),
        None => match before {
            Some(before) => before.view.name.as_bytes(),
            None => b"".as_slice(),
        },
    }
}

/// Appends the parts of an item's line. If both maps have the item, there is one part for each
/// column that differs. If only one map has the item, there is one part, which describes the item.
/// A semicolon and a space come before each part.
fn push_parts(alloc: Global, item: &Compared<'_>, parts: &mut Vec<u8>) -> Result<(), AllocError>
    ensures { OnOk result (parts.new.items ≡ parts.old.items
        ++ behind (all_parts item.now.old.now item.now.new.now
        (option_map seen_data item.now.before) (option_map seen_data item.now.after)
        item.now.same_class_ids)) }
{
    match &item.before {
        None => match &item.after {
            None => Ok(()),
            Some(after) => {
                push_all(&[b"; made as ".as_slice()], parts)?;
                push_whole(alloc, item.new, after, parts)
            }
        },
        Some(before) => match &item.after {
            None => {
                push_all(&[b"; removed, was ".as_slice()], parts)?;
                push_whole(alloc, item.old, before, parts)
            }
            Some(after) => push_changes(alloc, item, before, after, parts),
        },
    }
}

fn push_changes(
    alloc: Global,
    item: &Compared<'_>,
    before: &Seen<'_>,
    after: &Seen<'_>,
    parts: &mut Vec<u8>,
) -> Result<(), AllocError>
    ensures { OnOk result (parts.new.items ≡ parts.old.items
        ++ behind (changes item.now.old.now item.now.new.now (seen_data before.now)
        (seen_data after.now) item.now.same_class_ids)) }
{
    push_name(&before.view, &after.view, parts)?;
    push_type(item.old, item.new, &before.view, &after.view, parts)?;
    push_place(alloc, before, after, parts)?;
    push_weight(alloc, &before.view, &after.view, parts)?;
    push_class(&before.view, &after.view, parts)?;
    push_alg(&before.view, &after.view, parts)?;
    push_class_ids(item.same_class_ids, parts)?;
    Ok(())
}

/// Appends a part: a semicolon, a space, and the texts in `words`, one after the other. If `same`
/// is true, appends nothing.
pub(crate) fn push_part(same: bool, words: &[&[u8]], parts: &mut Vec<u8>) -> Result<(), AllocError>
    ensures { OnOk result (parts.new.items ≡ parts.old.items
        ++ behind (part same (flat_map (λ w. w.now) words.now))) }
{
    if same {
        return Ok(());
    }
    push_all(&[b"; ".as_slice()], parts)?;
    push_all(words, parts)
}

fn push_change(
    same: bool,
    word: &[u8],
    before: &[u8],
    after: &[u8],
    parts: &mut Vec<u8>,
) -> Result<(), AllocError>
    ensures { OnOk result (parts.new.items ≡ parts.old.items
        ++ behind (change same word.now before.now after.now)) }
{
    push_part(same, &[word, before, b" to ".as_slice(), after], parts)
}

pub(crate) fn push_class_ids(same: bool, parts: &mut Vec<u8>) -> Result<(), AllocError>
    ensures { OnOk result (parts.new.items ≡ parts.old.items ++ behind (class_ids_part same)) }
{
    push_part(same, &[b"class ids".as_slice()], parts)
}

pub(crate) fn push_name(
    before: &View<'_>,
    after: &View<'_>,
    parts: &mut Vec<u8>,
) -> Result<(), AllocError>
    ensures { OnOk result (parts.new.items ≡ parts.old.items
        ++ behind (name_part (view_data before.now) (view_data after.now))) }
{
    let name = before.name.as_bytes();
    push_part(
        name == after.name.as_bytes(),
        &[b"was ".as_slice(), name],
        parts,
    )
}

pub(crate) fn push_type(
    old: &Setting,
    new: &Setting,
    before: &View<'_>,
    after: &View<'_>,
    parts: &mut Vec<u8>,
) -> Result<(), AllocError>
    ensures { OnOk result (parts.new.items ≡ parts.old.items
        ++ behind (type_part old.now new.now (view_data before.now) (view_data after.now))) }
{
    push_change(
        before.kind.number() == after.kind.number(),
        b"type ".as_slice(),
        type_bytes(old, before.id, before.kind),
        type_bytes(new, after.id, after.kind),
        parts,
    )
}

fn push_place(
    alloc: Global,
    before: &Seen<'_>,
    after: &Seen<'_>,
    parts: &mut Vec<u8>,
) -> Result<(), AllocError>
    ensures { OnOk result (parts.new.items ≡ parts.old.items
        ++ behind (place_part (seen_data before.now) (seen_data after.now))) }
{
    if same_parent(before.view.parent, after.view.parent) {
        return Ok(());
    }
    let from = place_of(alloc, before)?;
    let to = place_of(alloc, after)?;
    push_change(
        false,
        b"from ".as_slice(),
        from.as_slice(),
        to.as_slice(),
        parts,
    )
}

fn push_weight(
    alloc: Global,
    before: &View<'_>,
    after: &View<'_>,
    parts: &mut Vec<u8>,
) -> Result<(), AllocError>
    ensures { OnOk result (parts.new.items ≡ parts.old.items
        ++ behind (weight_part (view_data before.now) (view_data after.now))) }
{
    if before.weight.units() == after.weight.units() {
        return Ok(());
    }
    let was = weight_of(alloc, before.weight)?;
    let is = weight_of(alloc, after.weight)?;
    push_change(
        false,
        b"weight ".as_slice(),
        was.as_slice(),
        is.as_slice(),
        parts,
    )
}

pub(crate) fn push_class(
    before: &View<'_>,
    after: &View<'_>,
    parts: &mut Vec<u8>,
) -> Result<(), AllocError>
    ensures { OnOk result (parts.new.items ≡ parts.old.items
        ++ behind (class_part (view_data before.now) (view_data after.now))) }
{
    push_change(
        same_class(before.class, after.class),
        b"class ".as_slice(),
        class_bytes(before.class),
        class_bytes(after.class),
        parts,
    )
}

pub(crate) fn push_alg(
    before: &View<'_>,
    after: &View<'_>,
    parts: &mut Vec<u8>,
) -> Result<(), AllocError>
    ensures { OnOk result (parts.new.items ≡ parts.old.items
        ++ behind (alg_part (view_data before.now) (view_data after.now))) }
{
    push_change(
        same_algs(before.alg, after.alg),
        b"alg ".as_slice(),
        alg_bytes(before.alg),
        alg_bytes(after.alg),
        parts,
    )
}
