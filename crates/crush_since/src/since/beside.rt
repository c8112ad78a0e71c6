//! Appends the lines that aren't about single items. They are about tunables, types, rules and
//! classes that differ between two maps.

ghost use Rattle.std.specs.Prelude.{◌≡◌, ◌++◌, List, OnOk};
ghost use Rattle.std.specs.Option.{option_map};
ghost use Rattle.crush_model.specs.Stands.{Stands};
ghost use Rattle.crush_model.specs.Table.{Row};
ghost use Rattle.crush_since.specs.Classes.{class_lines};
ghost use Rattle.crush_since.specs.RuleChanges.{lines_beside, lines_beside_part, rule_changes};
ghost use Rattle.crush_since.specs.Rules.{rule_change_lines};
ghost use Rattle.crush_since.specs.Since.{plain_map};

use crate::since::class_lines::push_class_lines;
use crate::since::classes::class_changes;
use crate::since::rule_lines::push_rule_lines;
use crate::since::rules::rule_changes;
use crate::since::settings::{push_kinds, push_tunables};
use crush_compare::Identity;
use crush_map::CrushMap;
use std::alloc::{AllocError, Allocator};

/// Appends a line if the tunables differ, a line if the types differ, and then the lines about
/// rules and classes. `identity` says how the buckets that rules take are matched.
#[tactic(auto, unfolding(crate::specs::RuleChanges::lines_beside))]
pub(crate) fn push_lines_beside<A: Allocator, B: Allocator>(
    identity: Identity,
    old: &CrushMap<A>,
    new: &CrushMap<B>,
    out: &mut Vec<u8>,
) -> Result<(), AllocError>
    ensures { (t u : List Row) → Stands old.now.forest t → Stands new.now.forest u
        → OnOk result (out.new.items ≡ out.old.items
        ++ lines_beside identity (plain_map old.now.setting t) (plain_map new.now.setting u)) }
{
    push_tunables(old.setting(), new.setting(), out)?;
    push_kinds(old.setting(), new.setting(), out)?;
    push_rules(identity, old, new, out)?;
    push_classes(old, new, out)
}

/// If `under` is `None`, whole maps are compared, and the call appends the lines of
/// [`push_lines_beside`]. If `under` is a name, only a part of the maps is compared, and the call
/// appends nothing.
pub fn push_lines_beside_part<A: Allocator, B: Allocator>(
    identity: Identity,
    under: Option<&str>,
    old: &CrushMap<A>,
    new: &CrushMap<B>,
    out: &mut Vec<u8>,
) -> Result<(), AllocError>
    ensures { (t u : List Row) → Stands old.now.forest t → Stands new.now.forest u
        → OnOk result (out.new.items ≡ out.old.items
        ++ lines_beside_part identity (option_map (λ n. n.now) under.entry)
        (plain_map old.now.setting t) (plain_map new.now.setting u)) }
{
    match under {
        Some(_) => Ok(()),
        None => push_lines_beside(identity, old, new, out),
    }
}

fn push_rules<A: Allocator, B: Allocator>(
    identity: Identity,
    old: &CrushMap<A>,
    new: &CrushMap<B>,
    out: &mut Vec<u8>,
) -> Result<(), AllocError>
    ensures { (t u : List Row) → Stands old.now.forest t → Stands new.now.forest u
        → OnOk result (out.new.items ≡ out.old.items ++ rule_change_lines
        (rule_changes identity (plain_map old.now.setting t) (plain_map new.now.setting u))) }
{
    let changes = rule_changes(*out.allocator(), identity, old, new)?;
    push_rule_lines(changes.as_slice(), out)
}

#[tactic(auto, unfolding(crate::specs::Classes::class_lines))]
fn push_classes<A: Allocator, B: Allocator>(
    old: &CrushMap<A>,
    new: &CrushMap<B>,
    out: &mut Vec<u8>,
) -> Result<(), AllocError>
    ensures { (t u : List Row) → Stands old.now.forest t → Stands new.now.forest u
        → OnOk result (out.new.items ≡ out.old.items ++ class_lines t u new.now.setting) }
{
    let changes = class_changes(*out.allocator(), old, new)?;
    push_class_lines(changes.as_slice(), out)
}
