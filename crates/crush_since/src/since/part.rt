//! Lists what has changed in one item, given by its id, and in the items below it.

ghost use Rattle.std.specs.Prelude.{◌≡◌, List, IfOk};
ghost use Rattle.crush_model.specs.Stands.{Stands};
ghost use Rattle.crush_model.specs.Table.{Row};
ghost use Rattle.crush_since.specs.Since.{plain_map};
ghost use Rattle.crush_since.specs.SincePart.{since_part_text};

use crate::since::pairs::push_lines;
use crush_compare::Comparison;
use crush_map::CrushMap;
use crush_units::ItemId;
use std::alloc::{AllocError, Allocator, Global};

/// Returns only some lines of [`write_since`](crate::write_since): those about the item `under`,
/// and about all items that are below this item in the old map or in the new map. The lines about
/// settings, rules, classes, total weights and counts are left out. The call fails only if memory
/// runs out.
#[tactic(auto, unfolding(crate::specs::SincePart::since_part_text))]
pub fn since_part_text<A: Allocator, B: Allocator>(
    alloc: Global,
    old: &CrushMap<A>,
    new: &CrushMap<B>,
    under: ItemId,
) -> Result<Vec<u8>, AllocError>
    ensures { IfOk result (λ text. (t u : List Row) → Stands old.now.forest t
        → Stands new.now.forest u → text.items
        ≡ since_part_text under (plain_map old.now.setting t) (plain_map new.now.setting u)) }
{
    let both = Comparison::by_ids_below(alloc, old, new, under)?;
    let mut text = Vec::new(alloc);
    push_lines(&both, &mut text)?;
    Ok(text)
}
