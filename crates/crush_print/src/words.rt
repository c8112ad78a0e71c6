//! Appends the words of a line of a tree. A function here fails only if memory runs out.

ghost use Rattle.std.specs.Prelude.{◌≡◌, [], ◌++◌, OnOk, flat_map, unwrap_or};
ghost use Rattle.std.specs.Option.{option_map};
ghost use Rattle.crush_print.specs.Lines.{id_text};
ghost use Rattle.crush_print.specs.MapText.{kind_text};
ghost use Rattle.crush_units.specs.Weight.{weight_text};
ghost use Rattle.crush_print.specs.TreeText.{indent, kind_prefix, row_text};

use crate::columns::push_spaces;
use crush_map::Setting;
use crush_units::{ItemId, TypeId, Weight, put_all};
use itoa::Buffer;
use std::alloc::AllocError;

/// Appends all parts to `out`, one after the other.
pub fn push_all(parts: &[&[u8]], out: &mut Vec<u8>) -> Result<(), AllocError>
    ensures { OnOk result (out.new.items ≡ out.old.items ++ flat_map (λ part. part.now) parts.now) }
{
    put_all(out, parts).map_err(|_| AllocError)
}

/// Appends the id to `out` as a decimal number. The id of a bucket is negative.
pub fn push_id(id: ItemId, out: &mut Vec<u8>) -> Result<(), AllocError>
    ensures { OnOk result (out.new.items ≡ out.old.items ++ id_text id) }
{
    let mut buffer = Buffer::new();
    match id {
        ItemId::Device(device) => {
            let number = buffer.format(device.number()).as_bytes();
            push_all(&[number], out)
        }
        ItemId::Bucket(bucket) => {
            let number = buffer.format(bucket.distance()).as_bytes();
            push_all(&[b"-".as_slice(), number], out)
        }
    }
}

/// Returns the bytes of the text, or no bytes for `None`.
pub fn bytes_of<'a>(text: Option<&'a str>) -> &'a [u8]
    ensures { result.now ≡ unwrap_or (option_map (λ c. c.now) text.entry) [] }
{
    match text {
        Some(text) => text.as_bytes(),
        None => b"".as_slice(),
    }
}

/// Appends the weight to `out`, rounded to five digits after the point. For example, 65536 units
/// are printed as `1.00000`.
pub fn push_weight(weight: Weight, out: &mut Vec<u8>) -> Result<(), AllocError>
    ensures { OnOk result (out.new.items ≡ out.old.items ++ weight_text weight) }
{
    let mut room = [0; 16];
    let len = weight.text(&mut room);
    push_all(&[&room[..len]], out)
}

/// Returns the name of the type, or an empty name if the setting doesn't have the type.
#[tactic(auto, unfolding(crate::specs::MapText::kind_text))]
fn kind_name(setting: &Setting, number: TypeId) -> &[u8]
    ensures { result.now ≡ kind_text setting.now number }
{
    match setting.kind_name(number) {
        Some(name) => name.as_bytes(),
        None => b"".as_slice(),
    }
}

/// Appends the indent of an item of this depth to `out`: four spaces for each level, but never more
/// than 64 spaces.
pub fn push_indent(depth: u32, out: &mut Vec<u8>) -> Result<(), AllocError>
    ensures { OnOk result (out.new.items ≡ out.old.items ++ indent depth) }
{
    push_spaces(4 * depth.min(16) as usize, out)
}

/// Appends the name of a bucket's type and a space to `out`. Appends nothing for a device.
pub fn push_kind(
    setting: &Setting,
    id: ItemId,
    kind: TypeId,
    out: &mut Vec<u8>,
) -> Result<(), AllocError>
    ensures { OnOk result (out.new.items ≡ out.old.items ++ kind_prefix setting.now id kind) }
{
    match id {
        ItemId::Device(_) => push_all(&[], out),
        ItemId::Bucket(_) => push_all(&[kind_name(setting, kind), b" ".as_slice()], out),
    }
}

/// Appends a line with these four columns to `out`. Two spaces separate neighbouring columns, and a
/// line feed ends the line.
pub fn push_row(
    id: &[u8],
    class: &[u8],
    weight: &[u8],
    name: &[u8],
    out: &mut Vec<u8>,
) -> Result<(), AllocError>
    ensures { OnOk result (out.new.items ≡ out.old.items
        ++ row_text id.now class.now weight.now name.now) }
{
    let gap = b"  ".as_slice();
    push_all(
        &[id, gap, class, gap, weight, gap, name, b"\n".as_slice()],
        out,
    )
}
