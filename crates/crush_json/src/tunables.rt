//! Writes the tunables of a map as one JSON object. Its members are sorted by the names of the
//! tunables.

ghost use Rattle.std.specs.Prelude.{◌≡◌, ◌++◌, IfOk, OnOk, flat_map, map as each, string_bytes};
ghost use Rattle.crush_edits.specs.SettingSeen.{tunable_data};
ghost use Rattle.serde_json.specs.Data.{no_members};
ghost use Rattle.crush_json.specs.MapDocument.{tunables_document, with_tunables};
ghost use Rattle.crush_json.specs.Seen.{number_members};
ghost use Rattle.crush_json.specs.Tokens.{member_tokens, tokens_of};
ghost use Rattle.crush_json.specs.Values.{natural};

use crate::document::Document;
use crush_map::Setting;
use crush_units::Name;
use indexmap::IndexMap;
use std::alloc::{AllocError, Global};
use std::collections::BTreeMap;

pub(crate) fn push_tunables(
    alloc: Global,
    setting: &Setting,
    out: &mut Document,
) -> Result<(), AllocError>
    ensures { OnOk result (out.new ≡ out.old ++ tokens_of (tunables_document setting.now)) }
{
    let tunables = by_name(alloc, setting.tunables())?;
    out.begin_object()?;
    push_each(&tunables, out)?;
    out.end_object()
}

fn by_name(
    alloc: Global,
    tunables: &IndexMap<Name<Global>, u32>,
) -> Result<BTreeMap<String, u32>, AllocError>
    ensures { IfOk result (λ sorted. number_members sorted.entries
        ≡ with_tunables no_members (each tunable_data tunables.now.entries)) }
{
    let mut sorted = BTreeMap::new(alloc);
    for (name, value) in tunables {
        let name = String::from_str(alloc, name.as_str())?;
        sorted.insert(name, *value)?;
    }
    Ok(sorted)
}

fn push_each(numbers: &BTreeMap<String, u32>, out: &mut Document) -> Result<(), AllocError>
    ensures { OnOk result (out.new ≡ out.old
        ++ flat_map (λ e. member_tokens (string_bytes e.0) (natural e.1)) numbers.now.entries) }
{
    for (name, number) in numbers.iter() {
        out.natural(name.as_str(), *number as u64)?;
    }
    Ok(())
}
