//! Writes the types of a map as JSON values.

ghost use Rattle.std.specs.Prelude.{◌≡◌, ◌++◌, OnOk, IfOk, flat_map};
ghost use Rattle.indexmap.specs.IndexMap.{keys};
ghost use Rattle.crush_print.specs.MapText.{kind_numbers, kind_text};
ghost use Rattle.crush_json.specs.MapDocument.{kind_document, kind_documents};
ghost use Rattle.crush_json.specs.Tokens.{tokens_of};
ghost use Rattle.crush_json.specs.Values.{list};

use crate::document::Document;
use crush_map::Setting;
use crush_units::{Name, TypeId};
use indexmap::IndexMap;
use std::alloc::{AllocError, Global};

/// Writes a list with an object for each type, by ascending number.
pub(crate) fn push_kinds(
    alloc: Global,
    setting: &Setting,
    out: &mut Document,
) -> Result<(), AllocError>
    ensures { OnOk result (out.new ≡ out.old ++ tokens_of (list (kind_documents setting.now))) }
{
    let numbers = numbers_in_order(alloc, setting)?;
    out.begin_array()?;
    push_each(setting, numbers.as_slice(), out)?;
    out.end_array()
}

fn push_each(setting: &Setting, numbers: &[u16], out: &mut Document) -> Result<(), AllocError>
    ensures { OnOk result (out.new ≡ out.old
        ++ flat_map (λ n. tokens_of (kind_document n (kind_text setting.now n))) numbers.now) }
{
    for number in numbers {
        push_kind(*number, kind_name(setting, TypeId::new(*number)), out)?;
    }
    Ok(())
}

#[tactic(auto, unfolding(crate::specs::MapDocument::kind_document))]
fn push_kind(number: u16, name: &str, out: &mut Document) -> Result<(), AllocError>
    ensures { OnOk result (out.new ≡ out.old ++ tokens_of (kind_document number name.now)) }
{
    out.begin_object()?;
    out.text("name", name)?;
    out.natural("type_id", number as u64)?;
    out.end_object()
}

fn numbers_in_order(alloc: Global, setting: &Setting) -> Result<Vec<u16>, AllocError>
    ensures { IfOk result (λ numbers. numbers.items ≡ kind_numbers setting.now) }
{
    let mut numbers = numbers_of(alloc, setting.kinds())?;
    numbers.sort_unstable();
    Ok(numbers)
}

fn numbers_of(alloc: Global, kinds: &IndexMap<TypeId, Name<Global>>) -> Result<Vec<u16>, AllocError>
    ensures { IfOk result (λ numbers. numbers.items ≡ keys kinds.now) }
{
    kinds.keys().map(|number| number.number()).collect(alloc)
}

/// Returns the name of the type. Returns an empty text if the setting doesn't have the type.
#[tactic(auto, unfolding(crush_print::specs::MapText::kind_text))]
pub(crate) fn kind_name(setting: &Setting, number: TypeId) -> &str
    ensures { result.now ≡ kind_text setting.now number }
{
    match setting.kind_name(number) {
        Some(name) => name.as_str(),
        None => "",
    }
}
