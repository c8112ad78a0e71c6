//! Appends the section of the tunables.

ghost use Rattle.std.specs.Prelude.{◌≡◌, ◌++◌, OnOk, flat_map, map};
ghost use Rattle.crush_edits.specs.SettingSeen.{tunable_data};
ghost use Rattle.crush_print.specs.Lines.{tunable_line};
ghost use Rattle.crush_print.specs.MapText.{tunable_section};

use crate::lines::push_all;
use crush_edits::Setting;
use crush_units::Name;
use indexmap::IndexMap;
use itoa::Buffer;
use std::alloc::{AllocError, Global};

/// Appends the first line of the text, and the tunables in the order in which they were declared.
#[tactic(auto, unfolding(crate::specs::MapText::tunable_section))]
pub(crate) fn push_tunables(setting: &Setting, out: &mut Vec<u8>) -> Result<(), AllocError>
    ensures { OnOk result (out.new.items ≡ out.old.items ++ tunable_section setting.now) }
{
    out.extend_from_slice(b"# begin crush map\n")?;
    let tunables = setting.tunables();
    push_all_tunables(tunables, out)
}

fn push_all_tunables(
    tunables: &IndexMap<Name<Global>, u32>,
    out: &mut Vec<u8>,
) -> Result<(), AllocError>
    ensures { OnOk result (out.new.items
        ≡ out.old.items ++ flat_map tunable_line (map tunable_data tunables.now.entries)) }
{
    for (name, value) in tunables {
        push_tunable(name, *value, out)?;
    }
    Ok(())
}

#[tactic(auto, unfolding(crate::specs::Lines::tunable_line))]
fn push_tunable(name: &Name<Global>, value: u32, out: &mut Vec<u8>) -> Result<(), AllocError>
    ensures { OnOk result (out.new.items
        ≡ out.old.items ++ tunable_line (tunable_data (name.now, value))) }
{
    let mut buffer = Buffer::new();
    let value = buffer.format(value).as_bytes();
    push_all(
        &[
            b"tunable ".as_slice(),
            name.as_bytes(),
            b" ".as_slice(),
            value,
            b"\n".as_slice(),
        ],
        out,
    )
}
