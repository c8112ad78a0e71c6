//! Builds the line about an item that differs, if items are matched by their names.

ghost use Rattle.std.specs.Prelude.{◌≡◌, ◌++◌, OnOk, codes, flat_map};
ghost use Rattle.std.specs.Option.{option_map};
ghost use Rattle.crush_since.specs.ItemParts.{behind};
ghost use Rattle.crush_items.specs.SeenItem.{seen_data};
ghost use Rattle.crush_since.specs.SinceNames.{changed, changed_pair, changed_parts, other_weights, whole_word};
ghost use Rattle.crush_since.specs.Stays.{stay_text_line, text_of_lines};

use crate::names::staying::columns::{
    push_alg, push_class, push_place, push_type, push_wanted_word, push_weight,
};
use crate::names::staying::pair_name;
use crate::since::{push_with_class, weight_of};
use crush_items::Seen;
use crush_map::Setting;
use crush_units::put_all;
use std::alloc::{AllocError, Global};

pub(crate) fn push_changed_pair(
    alloc: Global,
    old: &Setting,
    new: &Setting,
    before: &Option<Seen<'_>>,
    after: &Option<Seen<'_>>,
    out: &mut Vec<u8>,
) -> Result<(), AllocError>
    ensures { OnOk result (out.new.items ≡ out.old.items ++ changed_pair old.now new.now
        (record {
          before = option_map seen_data before.now;
          after = option_map seen_data after.now;
        })) }
{
    let mut parts = Vec::new(alloc);
    push_parts(alloc, old, new, before, after, &mut parts)?;
    push_line(pair_name(before, after), parts.as_slice(), out)
}

/// Appends the line of an item: the item's name, a colon, a space, the parts, and a line feed.
/// Appends nothing if `parts` is empty. In `parts`, a semicolon and a space come before each part.
/// The line leaves out the first semicolon and the space after it.
fn push_line(name: &[u8], parts: &[u8], out: &mut Vec<u8>) -> Result<(), AllocError>
    ensures { OnOk result (out.new.items ≡ out.old.items
        ++ text_of_lines (stay_text_line name.now parts.now)) }
{
    match parts {
        [_, _, text @ ..] => put_all(
            out,
            &[name, b": ".as_slice(), text, b"\n".as_slice()],
        ).map_err(|_| AllocError),
        _ => Ok(()),
    }
}

/// Appends the parts of an item's line. If both maps have the item, there is one part for each
/// column that differs. If only one map has the item, there is one part, which describes the item.
/// A semicolon and a space come before each part.
fn push_parts(
    alloc: Global,
    old: &Setting,
    new: &Setting,
    before: &Option<Seen<'_>>,
    after: &Option<Seen<'_>>,
    parts: &mut Vec<u8>,
) -> Result<(), AllocError>
    ensures { OnOk result (parts.new.items ≡ parts.old.items ++ behind (changed_parts old.now
        new.now (option_map seen_data before.now) (option_map seen_data after.now))) }
{
    match before {
        None => match after {
            None => Ok(()),
            Some(after) => push_made(alloc, new, after, parts),
        },
        Some(before) => match after {
            None => push_removed(alloc, old, before, parts),
            Some(after) => push_changed(alloc, old, new, before, after, parts),
        },
    }
}

fn push_made(
    alloc: Global,
    setting: &Setting,
    item: &Seen<'_>,
    parts: &mut Vec<u8>,
) -> Result<(), AllocError>
    ensures { OnOk result (parts.new.items ≡ parts.old.items
        ++ (codes "; made as " ++ whole_word setting.now (seen_data item.now))) }
{
    parts.extend_from_slice(b"; made as ")?;
    push_whole(alloc, setting, item, parts)
}

fn push_removed(
    alloc: Global,
    setting: &Setting,
    item: &Seen<'_>,
    parts: &mut Vec<u8>,
) -> Result<(), AllocError>
    ensures { OnOk result (parts.new.items ≡ parts.old.items
        ++ (codes "; removed, was " ++ whole_word setting.now (seen_data item.now))) }
{
    parts.extend_from_slice(b"; removed, was ")?;
    push_whole(alloc, setting, item, parts)
}

fn push_changed(
    alloc: Global,
    old: &Setting,
    new: &Setting,
    before: &Seen<'_>,
    after: &Seen<'_>,
    parts: &mut Vec<u8>,
) -> Result<(), AllocError>
    ensures { OnOk result (parts.new.items ≡ parts.old.items
        ++ behind (changed old.now new.now (seen_data before.now) (seen_data after.now))) }
{
    push_type(b" to ", old, new, before, after, parts)?;
    push_place(b"from ", b" to ", before, after, parts)?;
    push_other_weight(alloc, before, after, parts)?;
    push_class(b" to ", before, after, parts)?;
    push_alg(b" to ", before, after, parts)?;
    Ok(())
}

fn push_other_weight(
    alloc: Global,
    before: &Seen<'_>,
    after: &Seen<'_>,
    parts: &mut Vec<u8>,
) -> Result<(), AllocError>
    ensures { OnOk result (parts.new.items ≡ parts.old.items
        ++ behind (other_weights (seen_data before.now) (seen_data after.now))) }
{
    let same = before.view.weight.units() == after.view.weight.units();
    push_weight(alloc, same, b" to ", before, after, parts)
}

#[tactic(auto, unfolding(crate::specs::SinceNames::whole_word))]
fn push_whole(
    alloc: Global,
    setting: &Setting,
    item: &Seen<'_>,
    parts: &mut Vec<u8>,
) -> Result<(), AllocError>
    ensures { OnOk result (parts.new.items ≡ parts.old.items
        ++ whole_word setting.now (seen_data item.now)) }
{
    push_wanted_word(setting, item, parts)?;
    let weight = weight_of(alloc, item.view.weight)?;
    push_bytes(&[b", weight ".as_slice(), weight.as_slice()], parts)?;
    push_with_class(item.view.class, parts)
}

fn push_bytes(words: &[&[u8]], parts: &mut Vec<u8>) -> Result<(), AllocError>
    ensures { OnOk result (parts.new.items ≡ parts.old.items
        ++ flat_map (λ w. w.now) words.now) }
{
    put_all(parts, words).map_err(|_| AllocError)
}
