//! Builds the words of the lines about what has changed.

ghost use Rattle.std.specs.Prelude.{◌≡◌, ◌++◌, OnOk, IfOk};
ghost use Rattle.std.specs.Option.{option_map};
ghost use Rattle.crush_units.specs.Weight.{weight_text};
ghost use Rattle.crush_items.specs.SeenItem.{seen_data};
ghost use Rattle.crush_since.specs.ItemWords.{item_word, place_in, place_word, type_word, class_or_none, alg_word, with_class, whole_word};
ghost use Rattle.crush_since.specs.Since.{totals_line};
ghost use Rattle.crush_since.specs.Tallies.{counted, first_counts, last_counts, counts_line};

use crate::since::seen::Seen;
use crate::since::tally::Tally;
use crush_map::Setting;
use crush_print::words::{bytes_of, push_all, push_id, push_weight};
use crush_units::{Alg, BucketId, ItemId, TypeId, Weight};
use itoa::Buffer;
use std::alloc::{AllocError, Global};

pub(crate) fn push_item_word(name: &[u8], id: ItemId, out: &mut Vec<u8>) -> Result<(), AllocError>
    ensures { OnOk result (out.new.items ≡ out.old.items ++ item_word name.now id) }
{
    push_all(&[name, b" (".as_slice()], out)?;
    push_id(id, out)?;
    push_all(&[b")".as_slice()], out)
}

fn push_place(
    id: ItemId,
    holder: Option<&str>,
    parent: Option<BucketId>,
    out: &mut Vec<u8>,
) -> Result<(), AllocError>
    ensures { OnOk result (out.new.items ≡ out.old.items
        ++ place_in id (option_map (λ n. n.now) holder.entry) parent) }
{
    match parent {
        Some(parent) => push_item_word(bytes_of(holder), ItemId::Bucket(parent), out),
        None => match id {
            ItemId::Device(_) => push_all(&[b"(unplaced)".as_slice()], out),
            ItemId::Bucket(_) => push_all(&[b"(root)".as_slice()], out),
        },
    }
}

pub(crate) fn place_of(alloc: Global, item: &Seen<'_>) -> Result<Vec<u8>, AllocError>
    ensures { IfOk result (λ place. place.items ≡ place_word (seen_data item.now)) }
{
    let mut place = Vec::new(alloc);
    push_place(item.view.id, item.holder, item.view.parent, &mut place)?;
    Ok(place)
}

/// Returns the text of a weight.
pub(crate) fn weight_of(alloc: Global, weight: Weight) -> Result<Vec<u8>, AllocError>
    ensures { IfOk result (λ text. text.items ≡ weight_text weight) }
{
    let mut text = Vec::new(alloc);
    push_weight(weight, &mut text)?;
    Ok(text)
}

/// Returns the name of an item's type. If the map's setting has no type with the number `kind`,
/// returns `osd` for a device, and an empty text for a bucket.
pub fn type_bytes(setting: &Setting, id: ItemId, kind: TypeId) -> &[u8]
    ensures { result.now ≡ type_word setting.now id kind }
{
    match setting.kind_name(kind) {
        Some(name) => name.as_bytes(),
        None => match id {
            ItemId::Device(_) => b"osd".as_slice(),
            ItemId::Bucket(_) => b"".as_slice(),
        },
    }
}

/// Returns the name of the class, or the text `(none)` if there is no class.
pub fn class_bytes<'a>(class: Option<&'a str>) -> &'a [u8]
    ensures { result.now ≡ class_or_none (option_map (λ c. c.now) class.entry) }
{
    match class {
        Some(class) => class.as_bytes(),
        None => b"(none)".as_slice(),
    }
}

/// Returns the name of an algorithm, or an empty text if there is no algorithm.
pub(crate) fn alg_bytes(alg: Option<Alg>) -> &'static [u8]
    ensures { result.now ≡ alg_word alg }
{
    match alg {
        Some(alg) => alg.name().as_bytes(),
        None => b"".as_slice(),
    }
}

/// Appends the words `, class ` and the class, if there is a class.
pub(crate) fn push_with_class(class: Option<&str>, out: &mut Vec<u8>) -> Result<(), AllocError>
    ensures { OnOk result (out.new.items ≡ out.old.items
        ++ with_class (option_map (λ c. c.now) class.entry)) }
{
    match class {
        Some(class) => push_all(&[b", class ".as_slice(), class.as_bytes()], out),
        None => Ok(()),
    }
}

pub(crate) fn push_whole(
    alloc: Global,
    setting: &Setting,
    item: &Seen<'_>,
    out: &mut Vec<u8>,
) -> Result<(), AllocError>
    ensures { OnOk result (out.new.items ≡ out.old.items
        ++ whole_word setting.now (seen_data item.now)) }
{
    let place = place_of(alloc, item)?;
    let weight = weight_of(alloc, item.view.weight)?;
    push_all(
        &[
            type_bytes(setting, item.view.id, item.view.kind),
            b" in ".as_slice(),
            place.as_slice(),
            b", weight ".as_slice(),
            weight.as_slice(),
        ],
        out,
    )?;
    push_with_class(item.view.class, out)
}

/// Appends the text of a weight. `units` is the weight in units of 1/65536, and may be larger than
/// the weight of any item.
#[tactic(auto, unfolding(crush_units::specs::Weight::weight_text))]
pub(crate) fn push_units(units: u128, out: &mut Vec<u8>) -> Result<(), AllocError>
    ensures { OnOk result (out.new.items ≡ out.old.items ++ weight_text units) }
{
    // The product `units * 200000` might not fit into 128 bits. So only `units % 65536`, the part
    // of the weight below 1.0, is multiplied. This product always fits.
    let parts = (units % 65536 * 200000 + 65536) / 131072;
    let mut buffer = Buffer::new();
    let whole = buffer.format(units / 65536 + parts / 100000).as_bytes();
    let fraction = [
        b'.',
        48 + (parts / 10000 % 10) as u8,
        48 + (parts / 1000 % 10) as u8,
        48 + (parts / 100 % 10) as u8,
        48 + (parts / 10 % 10) as u8,
        48 + (parts % 10) as u8,
    ];
    push_all(&[whole, &fraction], out)
}

/// Appends the line with the total weights of the old map and of the new map. The arguments are in
/// units of 1/65536.
#[tactic(auto, unfolding(crate::specs::Since::totals_line))]
pub(crate) fn push_totals(before: u64, after: u64, out: &mut Vec<u8>) -> Result<(), AllocError>
    ensures { OnOk result (out.new.items ≡ out.old.items ++ totals_line before after) }
{
    push_all(&[b"total ".as_slice()], out)?;
    push_units(before as u128, out)?;
    push_all(&[b" to ".as_slice()], out)?;
    push_units(after as u128, out)?;
    push_all(&[b"\n".as_slice()], out)
}

fn push_count(count: usize, what: &[u8], out: &mut Vec<u8>) -> Result<(), AllocError>
    ensures { OnOk result (out.new.items ≡ out.old.items ++ counted count what.now) }
{
    let mut buffer = Buffer::new();
    let number = buffer.format(count).as_bytes();
    push_all(&[number, what], out)
}

/// Appends the line with the number of items for each kind of difference.
#[tactic(auto, unfolding(crate::specs::Tallies::counts_line))]
pub(crate) fn push_counts(counts: &Tally, out: &mut Vec<u8>) -> Result<(), AllocError>
    ensures { OnOk result (out.new.items ≡ out.old.items ++ counts_line counts.now) }
{
    push_first_counts(counts, out)?;
    push_last_counts(counts, out)
}

#[tactic(auto, unfolding(crate::specs::Tallies::first_counts))]
fn push_first_counts(counts: &Tally, out: &mut Vec<u8>) -> Result<(), AllocError>
    ensures { OnOk result (out.new.items ≡ out.old.items ++ first_counts counts.now) }
{
    push_count(counts.made, b" made, ", out)?;
    push_count(counts.removed, b" removed, ", out)?;
    push_count(counts.renamed, b" renamed, ", out)?;
    Ok(())
}

#[tactic(auto, unfolding(crate::specs::Tallies::last_counts))]
fn push_last_counts(counts: &Tally, out: &mut Vec<u8>) -> Result<(), AllocError>
    ensures { OnOk result (out.new.items ≡ out.old.items ++ last_counts counts.now) }
{
    push_count(counts.moved, b" moved, ", out)?;
    push_count(counts.reweighed, b" of other weight, ", out)?;
    push_count(counts.reclassed, b" of other class\n", out)?;
    Ok(())
}
