//! Writes a map as a JSON value.

ghost use Rattle.std.specs.Prelude.{◌≡◌, ◌++◌, List, codes, OnOk};
ghost use Rattle.crush_model.specs.Stands.{Stands};
ghost use Rattle.crush_model.specs.Table.{Row};
ghost use Rattle.crush_json.specs.MapDocument.{bucket_documents, device_documents, kind_documents, map_document, tunables_document};
ghost use Rattle.crush_json.specs.RuleDocument.{rule_documents};
ghost use Rattle.crush_json.specs.Tokens.{member_tokens, tokens_of};
ghost use Rattle.crush_json.specs.Values.{list};

use crate::buckets::push_buckets;
use crate::devices::push_devices;
use crate::document::Document;
use crate::items::{buckets_in_order, devices_in_order};
use crate::kinds::push_kinds;
use crate::rules::push_rules;
use crate::tunables::push_tunables;
use crush_map::CrushMap;
use std::alloc::{AllocError, Allocator, Global};

/// Writes the map with the keys of Ceph's `crushtool --dump`. The members of each object are sorted
/// by name. Fails only if memory runs out.
pub(crate) fn push_map<A: Allocator>(
    alloc: Global,
    map: &CrushMap<A>,
    out: &mut Document,
) -> Result<(), AllocError>
    ensures { (t : List Row) → Stands map.now.forest t
        → OnOk result (out.new ≡ out.old ++ tokens_of (map_document map.now.setting t)) }
{
    out.begin_object()?;
    push_items(alloc, map, out)?;
    push_setting(alloc, map, out)?;
    out.end_object()
}

/// Writes two members of the map's object: the map's buckets and devices.
fn push_items<A: Allocator>(
    alloc: Global,
    map: &CrushMap<A>,
    out: &mut Document,
) -> Result<(), AllocError>
    ensures { (t : List Row) → Stands map.now.forest t → OnOk result (out.new ≡ out.old
        ++ (member_tokens (codes "buckets") (list (bucket_documents map.now.setting t))
        ++ member_tokens (codes "devices") (list (device_documents t)))) }
{
    let buckets = buckets_in_order(alloc, map.forest())?;
    let devices = devices_in_order(alloc, map.forest())?;
    out.key("buckets")?;
    push_buckets(map.setting(), buckets.as_slice(), out)?;
    out.key("devices")?;
    push_devices(devices.as_slice(), out)
}

/// Writes three members of the map's object: the map's rules, tunables and types.
fn push_setting<A: Allocator>(
    alloc: Global,
    map: &CrushMap<A>,
    out: &mut Document,
) -> Result<(), AllocError>
    ensures { (t : List Row) → Stands map.now.forest t → OnOk result (out.new ≡ out.old
        ++ (member_tokens (codes "rules") (list (rule_documents map.now.setting t))
        ++ member_tokens (codes "tunables") (tunables_document map.now.setting)
        ++ member_tokens (codes "types") (list (kind_documents map.now.setting)))) }
{
    let setting = map.setting();
    out.key("rules")?;
    push_rules(alloc, map, out)?;
    out.key("tunables")?;
    push_tunables(alloc, setting, out)?;
    out.key("types")?;
    push_kinds(alloc, setting, out)
}
