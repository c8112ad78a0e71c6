//! Compares the rules of two maps. The buckets that the rules take are compared by their names.

ghost use Rattle.std.specs.Prelude.{◌≡◌, ◌++◌, List, OnOk};
ghost use Rattle.crush_model.specs.Stands.{Stands};
ghost use Rattle.crush_model.specs.Table.{Row};
ghost use Rattle.crush_since.specs.Since.{plain_map};
ghost use Rattle.crush_since.specs.NamedRules.{named_rules_line};
ghost use Rattle.crush_since.specs.Stays.{line_texts};

use crate::names::lines::push_unless;
use crate::since::same_named_rules;
use crush_map::CrushMap;
use std::alloc::{AllocError, Allocator, Global};

#[tactic(auto, unfolding(crate::specs::NamedRules::named_rules_line))]
pub(super) fn push_rules<A: Allocator, B: Allocator>(
    alloc: Global,
    map: &CrushMap<A>,
    wanted: &CrushMap<B>,
    lines: &mut Vec<Vec<u8>>,
) -> Result<(), AllocError>
    ensures { (t u : List Row) → Stands map.now.forest t → Stands wanted.now.forest u
        → OnOk result (line_texts lines.new.items
        ≡ line_texts lines.old.items ++ named_rules_line (plain_map map.now.setting t) (plain_map wanted.now.setting u)) }
{
    let same = same_named_rules(map, wanted, map.setting().rules(), wanted.setting().rules());
    push_unless(alloc, same, b"rules differ", lines)
}
