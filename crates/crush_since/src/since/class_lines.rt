//! Appends the lines about device classes.

ghost use Rattle.std.specs.Prelude.{◌≡◌, ◌++◌, OnOk, flat_map, length, get_or, ◌<◌, map as each};
ghost use Rattle.crush_since.specs.Classes.{class_line, lines_of_classes, reweighed_line, untaken_line, untaken_text};
ghost use Rattle.crush_since.specs.ClassesSeen.{class_change_data};

use crate::since::classes::{ClassChange, is_reweighed, is_untaken};
use crate::since::words::push_units;
use crush_print::words::push_all;
use std::alloc::AllocError;

/// Appends a line for each class whose total weight differs between the two maps. Then appends a
/// line for each class that is new and that no rule takes.
pub(crate) fn push_class_lines<'a>(
    changes: &[ClassChange<'a>],
    out: &mut Vec<u8>,
) -> Result<(), AllocError>
    ensures { OnOk result (out.new.items ≡ out.old.items
        ++ lines_of_classes (each class_change_data changes.now)) }
{
    push_reweighed(changes, out)?;
    push_untaken(changes, out)
}

fn push_reweighed<'a>(changes: &[ClassChange<'a>], out: &mut Vec<u8>) -> Result<(), AllocError>
    ensures { OnOk result (out.new.items ≡ out.old.items
        ++ flat_map reweighed_line (each class_change_data changes.now)) }
{
    for index in 0..changes.len() {
        let class = change_at(changes, index);
        push_reweighed_line(*class, out)?;
    }
    Ok(())
}

fn push_reweighed_line(class: ClassChange<'_>, out: &mut Vec<u8>) -> Result<(), AllocError>
    ensures { OnOk result (out.new.items ≡ out.old.items
        ++ reweighed_line (class_change_data class.entry)) }
{
    if is_reweighed(&class) {
        push_class_line(&class, out)
    } else {
        Ok(())
    }
}

#[tactic(auto, unfolding(crate::specs::Classes::class_line))]
fn push_class_line(class: &ClassChange<'_>, out: &mut Vec<u8>) -> Result<(), AllocError>
    ensures { OnOk result (out.new.items ≡ out.old.items
        ++ class_line (class_change_data class.now)) }
{
    push_all(
        &[
            b"class ".as_slice(),
            class.name.as_bytes(),
            b" weighed ".as_slice(),
        ],
        out,
    )?;
    push_units(class.was, out)?;
    push_all(&[b", weighs ".as_slice()], out)?;
    push_units(class.is, out)?;
    push_all(&[b"\n".as_slice()], out)
}

fn push_untaken<'a>(changes: &[ClassChange<'a>], out: &mut Vec<u8>) -> Result<(), AllocError>
    ensures { OnOk result (out.new.items ≡ out.old.items
        ++ flat_map untaken_line (each class_change_data changes.now)) }
{
    for index in 0..changes.len() {
        let class = change_at(changes, index);
        push_untaken_line(*class, out)?;
    }
    Ok(())
}

fn push_untaken_line(class: ClassChange<'_>, out: &mut Vec<u8>) -> Result<(), AllocError>
    ensures { OnOk result (out.new.items ≡ out.old.items
        ++ untaken_line (class_change_data class.entry)) }
{
    if is_untaken(&class) {
        push_untaken_text(class.name, out)
    } else {
        Ok(())
    }
}

#[tactic(auto, unfolding(crate::specs::Classes::untaken_text))]
fn push_untaken_text(name: &str, out: &mut Vec<u8>) -> Result<(), AllocError>
    ensures { OnOk result (out.new.items ≡ out.old.items ++ untaken_text name.now) }
{
    push_all(
        &[
            b"class ".as_slice(),
            name.as_bytes(),
            b" is new, and no rule takes it\n".as_slice(),
        ],
        out,
    )
}

fn change_at<'b, 'a>(changes: &'b [ClassChange<'a>], at: usize) -> &'b ClassChange<'a>
    requires { at < length changes.now }
    ensures { result.now ≡ get_or changes.now at result.now }
{
    &changes[at]
}
