//! Tests whether anything has changed from one map to another.

ghost use Rattle.std.specs.Prelude.{◌≡◌, List, IfOk};
ghost use Rattle.crush_model.specs.Stands.{Stands};
ghost use Rattle.crush_model.specs.Table.{Row};
ghost use Rattle.crush_since.specs.Changes.{has_some};
ghost use Rattle.crush_since.specs.Settings.{setting_lines};
ghost use Rattle.crush_since.specs.Since.{plain_map};
ghost use Rattle.crush_since.specs.SincePart.{is_changed, is_part_changed};

use crate::since::pairs::is_different;
use crate::since::settings::{same_kinds, same_rules, same_tunables};
use crush_compare::Comparison;
use crush_map::{CrushMap, Setting};
use crush_units::ItemId;
use std::alloc::{AllocError, Allocator, Global};

/// Whether [`write_since`](crate::write_since) writes a line about an item, or a line which says
/// that tunables, types or rules differ, or that the order of rules differs. The other lines of
/// `write_since` don't count: those about rules that take nothing, classes, total weights and
/// counts. The call fails only if memory runs out.
pub fn is_changed<A: Allocator, B: Allocator>(
    alloc: Global,
    old: &CrushMap<A>,
    new: &CrushMap<B>,
) -> Result<bool, AllocError>
    ensures { IfOk result (λ changed. (t u : List Row) → Stands old.now.forest t
        → Stands new.now.forest u
        → changed ≡ is_changed (plain_map old.now.setting t) (plain_map new.now.setting u)) }
{
    if is_setting_listed(old.setting(), new.setting()) {
        return Ok(true);
    }
    let both = Comparison::by_ids(alloc, old, new)?;
    Ok(is_different(&both))
}

/// Whether [`since_part_text`](crate::since_part_text) returns any line. The call fails only if
/// memory runs out.
pub fn is_part_changed<A: Allocator, B: Allocator>(
    alloc: Global,
    old: &CrushMap<A>,
    new: &CrushMap<B>,
    under: ItemId,
) -> Result<bool, AllocError>
    ensures { IfOk result (λ changed. (t u : List Row) → Stands old.now.forest t
        → Stands new.now.forest u
        → changed ≡ is_part_changed under (plain_map old.now.setting t) (plain_map new.now.setting u)) }
{
    let both = Comparison::by_ids_below(alloc, old, new, under)?;
    Ok(is_different(&both))
}

fn is_setting_listed(old: &Setting, new: &Setting) -> bool
    ensures { result ≡ has_some (setting_lines old.now new.now) }
{
    if !same_tunables(old, new) {
        return true;
    }
    if !same_kinds(old, new) {
        return true;
    }
    !same_rules(old.rules(), new.rules())
}
