//! Counts the items that differ between two maps.

ghost use Rattle.std.specs.Prelude.{◌≡◌, List, IfOk};
ghost use Rattle.crush_model.specs.Stands.{Stands};
ghost use Rattle.crush_model.specs.Table.{Row};
ghost use Rattle.crush_since.specs.Since.{all_ids};
ghost use Rattle.crush_since.specs.Tallies.{tally_of};

use crate::since::tally::Tally;
use crush_compare::Comparison;
use crush_map::CrushMap;
use std::alloc::{AllocError, Allocator, Global};

/// Returns, for each kind of difference, the number of items that have it. The items of the two
/// maps are matched by their ids.
pub fn count_changes<A: Allocator, B: Allocator>(
    alloc: Global,
    old: &CrushMap<A>,
    new: &CrushMap<B>,
) -> Result<Tally, AllocError>
    ensures { IfOk result (λ tally. (t u : List Row) → Stands old.now.forest t
        → Stands new.now.forest u → tally ≡ tally_of t u (all_ids t u)) }
{
    let both = Comparison::by_ids(alloc, old, new)?;
    Ok(Tally::of(&both))
}
