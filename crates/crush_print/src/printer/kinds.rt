//! Appends the section of the types.

ghost use Rattle.std.specs.Prelude.{◌≡◌, ◌++◌, OnOk, IfOk, flat_map};
ghost use Rattle.indexmap.specs.IndexMap.{keys};
ghost use Rattle.crush_print.specs.Lines.{kind_line};
ghost use Rattle.crush_print.specs.MapText.{kind_text, kind_numbers, kind_section};

use crate::lines;
use crush_map::Setting;
use crush_units::{Name, TypeId};
use indexmap::IndexMap;
use std::alloc::{AllocError, Global};

/// Appends the heading of the section of the types, and then the types by ascending number.
#[tactic(auto, unfolding(crate::specs::MapText::kind_section))]
pub(crate) fn push_kinds(
    alloc: Global,
    setting: &Setting,
    out: &mut Vec<u8>,
) -> Result<(), AllocError>
    ensures { OnOk result (out.new.items ≡ out.old.items ++ kind_section setting.now) }
{
    out.extend_from_slice(b"\n# types\n")?;
    let numbers = numbers_in_order(alloc, setting)?;
    push_numbers(setting, numbers.as_slice(), out)
}

fn push_numbers(setting: &Setting, numbers: &[u16], out: &mut Vec<u8>) -> Result<(), AllocError>
    ensures { OnOk result (out.new.items ≡ out.old.items
        ++ flat_map (λ n. kind_line n (kind_text setting.now n)) numbers.now) }
{
    for number in numbers {
        lines::push_kind(*number, kind_name(setting, TypeId::new(*number)), out)?;
    }
    Ok(())
}

/// Returns the numbers of all types in ascending order.
fn numbers_in_order(alloc: Global, setting: &Setting) -> Result<Vec<u16>, AllocError>
    ensures { IfOk result (λ numbers. numbers.items ≡ kind_numbers setting.now) }
{
    let mut numbers = numbers_of(alloc, setting.kinds())?;
    numbers.sort_unstable();
    Ok(numbers)
}

fn numbers_of(alloc: Global, kinds: &IndexMap<TypeId, Name<Global>>) -> Result<Vec<u16>, AllocError>
    ensures { IfOk result (λ numbers. numbers.items ≡ keys kinds.now) }
{
    kinds.keys().map(|number| number.number()).collect(alloc)
}

/// Returns the name of the type, or an empty name if the setting doesn't have the type.
#[tactic(auto, unfolding(crate::specs::MapText::kind_text))]
pub(crate) fn kind_name(setting: &Setting, number: TypeId) -> &[u8]
    ensures { result.now ≡ kind_text setting.now number }
{
    match setting.kind_name(number) {
        Some(name) => name.as_bytes(),
        None => b"".as_slice(),
    }
}
