//! The notes in brackets after an item. They say what has changed in the item besides its weight.

ghost use Rattle.std.specs.Prelude.{◌≡◌, ◌++◌, OnOk};
ghost use Rattle.std.specs.Option.{option_map};
ghost use Rattle.crush_since.specs.ChangeText.{brackets, brackets_text, column_notes, from_part, holder_word, notes as notes_of, stands_notes, stood_notes};
ghost use Rattle.crush_since.specs.ItemParts.{behind};
ghost use Rattle.crush_since.specs.SeenChange.{change_data};
ghost use Rattle.crush_items.specs.SeenItem.{seen_data};

use crate::changes::seen::Change;
use crate::since::columns::same_parent;
use crate::since::parts::{
    after_mark, push_alg, push_class, push_class_ids, push_name, push_part, push_type,
};
use crate::since::seen::Seen;
use crush_map::Setting;
use crush_print::words::{bytes_of, push_all};
use crush_units::ItemId;
use std::alloc::{AllocError, Global};

pub(super) fn push_brackets(
    alloc: Global,
    old: &Setting,
    new: &Setting,
    change: &Change<'_>,
    out: &mut Vec<u8>,
) -> Result<(), AllocError>
    ensures { OnOk result (out.new.items ≡ out.old.items
        ++ brackets (notes_of old.now new.now (change_data change.now))) }
{
    let mut notes = Vec::new(alloc);
    push_notes(old, new, change, &mut notes)?;
    let told = notes.as_slice();
    if told.is_empty() {
        return Ok(());
    }
    push_text(after_mark(told), out)?;
    Ok(())
}

fn push_text(text: &[u8], out: &mut Vec<u8>) -> Result<(), AllocError>
    ensures { OnOk result (out.new.items ≡ out.old.items ++ brackets_text text.now) }
{
    push_all(&[b" (".as_slice(), text, b")".as_slice()], out)
}

/// Appends the notes on a row. Before each note come a semicolon and a space.
fn push_notes(
    old: &Setting,
    new: &Setting,
    change: &Change<'_>,
    notes: &mut Vec<u8>,
) -> Result<(), AllocError>
    ensures { OnOk result (notes.new.items ≡ notes.old.items
        ++ behind (notes_of old.now new.now (change_data change.now))) }
{
    if change.stands {
        push_standing(old, new, change, notes)
    } else {
        push_stood(&change.after, notes)
    }
}

/// Appends the notes on an item that was in this place in the old map and isn't there any more.
/// They say whether the new map still has the item.
fn push_stood(after: &Option<Seen<'_>>, notes: &mut Vec<u8>) -> Result<(), AllocError>
    ensures { OnOk result (notes.new.items ≡ notes.old.items
        ++ behind (stood_notes (option_map seen_data after.now))) }
{
    match after {
        Some(_) => Ok(()),
        None => push_all(&[b"; removed".as_slice()], notes),
    }
}

/// Appends the notes on an item that is in this place in the new map.
fn push_standing(
    old: &Setting,
    new: &Setting,
    change: &Change<'_>,
    notes: &mut Vec<u8>,
) -> Result<(), AllocError>
    ensures { OnOk result (notes.new.items ≡ notes.old.items
        ++ behind (stands_notes old.now new.now (option_map seen_data change.now.before)
        (option_map seen_data change.now.after) change.now.same_class_ids)) }
{
    match &change.after {
        None => Ok(()),
        Some(after) => match &change.before {
            None => push_all(&[b"; made".as_slice()], notes),
            Some(before) => {
                push_changed(old, new, before, after, notes)?;
                push_class_ids(change.same_class_ids, notes)
            }
        },
    }
}

/// Appends a note for each column in which an item differs, except for its class ids and its
/// weight.
fn push_changed(
    old: &Setting,
    new: &Setting,
    before: &Seen<'_>,
    after: &Seen<'_>,
    notes: &mut Vec<u8>,
) -> Result<(), AllocError>
    ensures { OnOk result (notes.new.items ≡ notes.old.items
        ++ behind (column_notes old.now new.now (seen_data before.now) (seen_data after.now))) }
{
    push_name(&before.view, &after.view, notes)?;
    push_type(old, new, &before.view, &after.view, notes)?;
    push_from(before, after, notes)?;
    push_class(&before.view, &after.view, notes)?;
    push_alg(&before.view, &after.view, notes)?;
    Ok(())
}

fn push_from(before: &Seen<'_>, after: &Seen<'_>, notes: &mut Vec<u8>) -> Result<(), AllocError>
    ensures { OnOk result (notes.new.items ≡ notes.old.items
        ++ behind (from_part (seen_data before.now) (seen_data after.now))) }
{
    push_part(
        same_parent(before.view.parent, after.view.parent),
        &[b"from ".as_slice(), holder_bytes(before)],
        notes,
    )
}

fn holder_bytes<'a>(item: &Seen<'a>) -> &'a [u8]
    ensures { result.now ≡ holder_word (seen_data item.now).view.id (seen_data item.now).holder
        (seen_data item.now).view.parent }
{
    match item.view.parent {
        Some(_) => bytes_of(item.holder),
        None => match item.view.id {
            ItemId::Device(_) => b"(unplaced)".as_slice(),
            ItemId::Bucket(_) => b"(root)".as_slice(),
        },
    }
}
