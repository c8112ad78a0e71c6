//! Searches the map after the scripts for the names of `--under` (an item), `--down-to` (a type)
//! and `--class` (a class of devices). For a tree of what has changed, it is enough that a device
//! of the old map has the class.

ghost use Rattle.std.specs.Prelude.{◌≡◌, ◌&&◌, List, IfErr, is_some};
ghost use Rattle.std.specs.Option.{option_map};
ghost use Rattle.crush_input.specs.Options.{name_text};
ghost use Rattle.crush_model.specs.Forest.{rows_of};
ghost use Rattle.crush_model.specs.Stands.{Stands};
ghost use Rattle.crush_model.specs.Table.{Row};
ghost use Rattle.crush_run.specs.Found.{IsFindFault, IsFound, class_of, down_to_of, has_class, had_class, has_class_of, has_item, has_kind, named_item, named_kind, part_of, under_of};

use crush_input::{Output, RunFault};
use crush_map::CrushMap;
use crush_options::TreePartSpec;
use crush_print::TreePart;
use crush_units::{ItemId, TypeId};
use std::alloc::Global;

pub(crate) fn name_of(name: &Option<String>) -> Option<&str>
    ensures { option_map (λ name. name.now) result ≡ name_text name.now }
{
    match name {
        Some(name) => Some(name.as_str()),
        None => None,
    }
}

fn under_of(output: &Output) -> Option<&str>
    ensures { option_map (λ name. name.now) result ≡ under_of output.now }
{
    match output {
        Output::Tree(part) => name_of(&part.under),
        Output::Since(old) => name_of(&old.under),
        Output::To(target) => name_of(&target.under),
        Output::Changes(old) => name_of(&old.part.under),
        Output::Map | Output::AsCeph => None,
    }
}

fn down_to_of(output: &Output) -> Option<&str>
    ensures { option_map (λ name. name.now) result ≡ down_to_of output.now }
{
    match output {
        Output::Tree(part) => name_of(&part.down_to),
        Output::Changes(old) => name_of(&old.part.down_to),
        _ => None,
    }
}

fn class_of(output: &Output) -> Option<&str>
    ensures { option_map (λ name. name.now) result ≡ class_of output.now }
{
    match output {
        Output::Tree(part) => name_of(&part.class),
        Output::Changes(old) => name_of(&old.part.class),
        _ => None,
    }
}

pub(crate) fn named_item(name: Option<&str>, map: &CrushMap<Global>) -> Option<ItemId>
    ensures { (t : List Row) → Stands map.now.forest t
        → result ≡ named_item t (option_map (λ name. name.now) name.entry) }
{
    match name {
        Some(name) => map.locate(name),
        None => None,
    }
}

fn named_kind(name: Option<&str>, map: &CrushMap<Global>) -> Option<TypeId>
    ensures { result
        ≡ named_kind map.now.setting (option_map (λ name. name.now) name.entry) }
{
    match name {
        Some(name) => map.setting().kind_number(name.as_bytes()),
        None => None,
    }
}

/// Returns the part of the tree that is printed. If the map has no item with the name of `--under`,
/// or no type with the name of `--down-to`, this name is ignored.
pub(crate) fn part_of(words: &TreePartSpec, map: &CrushMap<Global>) -> TreePart
    ensures { (t : List Row) → Stands map.now.forest t
        → result ≡ part_of words.now map.now.setting t }
{
    TreePart {
        under: named_item(name_of(&words.under), map),
        down_to: named_kind(name_of(&words.down_to), map),
    }
}

fn has_item(name: Option<&str>, map: &CrushMap<Global>) -> bool
    ensures { (t : List Row) → Stands map.now.forest t
        → result ≡ has_item (option_map (λ name. name.now) name.entry) t }
{
    match name {
        Some(name) => map.locate(name).is_some(),
        None => true,
    }
}

fn has_kind(name: Option<&str>, map: &CrushMap<Global>) -> bool
    ensures { result
        ≡ has_kind (option_map (λ name. name.now) name.entry) map.now.setting }
{
    match name {
        Some(name) => map.setting().kind_number(name.as_bytes()).is_some(),
        None => true,
    }
}

fn has_class(name: Option<&str>, map: &CrushMap<Global>) -> bool
    ensures { (t : List Row) → Stands map.now.forest t
        → result ≡ has_class (option_map (λ name. name.now) name.entry) t }
{
    match name {
        Some(name) => crush_print::has_class(map, name),
        None => true,
    }
}

/// Whether a class is given for a tree of what has changed, and a device of the old map has this
/// class.
fn had_class(output: &Output) -> bool
    ensures { result ≡ had_class output.now }
{
    match output {
        Output::Changes(old) => is_class_of(name_of(&old.part.class), &old.map),
        _ => false,
    }
}

/// Whether a class is given, and a device of the map has it.
fn is_class_of(name: Option<&str>, map: &CrushMap<Global>) -> bool
    ensures { result ≡ (is_some name.entry && has_class (option_map (λ name. name.now) name.entry) (rows_of map.now.forest)) }
{
    map.forest().recall_invariant();
    match name {
        Some(name) => crush_print::has_class(map, name),
        None => false,
    }
}

/// Whether a device of the map has the given class, or no class is given. For a tree of what has
/// changed, it is enough that a device of the old map has the class.
fn has_class_of(output: &Output, map: &CrushMap<Global>) -> bool
    ensures { (t : List Row) → Stands map.now.forest t → result ≡ has_class_of output.now t }
{
    has_class(class_of(output), map) || had_class(output)
}

/// The function fails if the map doesn't have an item, a type or a class that the output needs. The
/// item is looked up first, then the type, and then the class. The fault is about the first of them
/// that isn't found.
pub(crate) fn check_found(output: &Output, map: &CrushMap<Global>) -> Result<(), RunFault>
    ensures found { (t : List Row) → Stands map.now.forest t
        → IsFound output.now map.now.setting t result }
    ensures fault { IfErr result IsFindFault }
{
    if !has_item(under_of(output), map) {
        return Err(RunFault::NoItem);
    }
    if !has_kind(down_to_of(output), map) {
        return Err(RunFault::NoType);
    }
    if !has_class_of(output, map) {
        return Err(RunFault::NoClass);
    }
    Ok(())
}
