//! Appends the line of each pair of a comparison, and tests whether any pair differs. If both maps
//! have an item with the same id, these two items are a pair. If only one of the maps has an item
//! with an id, this item alone is a pair.

ghost use Rattle.std.specs.Prelude.{◌≡◌, ◌++◌, List, OnOk, flat_map, map as each};
ghost use Rattle.std.specs.Option.{option_map};
ghost use Rattle.crush_units.specs.declared.id.ItemId.{ItemId as Id};
ghost use Rattle.crush_model.specs.Table.{Row};
ghost use Rattle.crush_items.specs.SeenItem.{seen_data};
ghost use Rattle.crush_compare.specs.Comparison.{pair_entries};
ghost use Rattle.crush_compare.specs.IdPairs.{id_entries};
ghost use Rattle.crush_compare.specs.declared.identity.Identity.TheVariants.{Ids};
ghost use Rattle.crush_since.specs.Changes.{has_some};
ghost use Rattle.crush_since.specs.PairLines.{pair_line, seen_line, told_id};
ghost use Rattle.crush_since.specs.Since.{id_line, plain_map};

use crate::since::parts::{Compared, push_line};
use crate::since::seen::Seen;
use crush_compare::{Comparison, Pair, Report};
use crush_units::ItemId;
use std::alloc::{AllocError, Allocator};

/// Appends the lines of all pairs of a comparison by ids. A pair in which nothing differs has no
/// line.
pub(crate) fn push_lines<A: Allocator, B: Allocator>(
    both: &Comparison<'_, A, B>,
    out: &mut Vec<u8>,
) -> Result<(), AllocError>
    ensures { (t u : List Row) (ids : List Id)
        → each (pair_entries both.now) both.now.pairs.items ≡ each (id_entries t u) ids
        → OnOk result (out.new.items ≡ out.old.items
        ++ flat_map (id_line (plain_map both.now.old.map.now.setting t)
        (plain_map both.now.new.map.now.setting u)) ids) }
{
    push_pairs(both, both.pairs.as_slice(), out)
}

fn push_pairs<A: Allocator, B: Allocator>(
    both: &Comparison<'_, A, B>,
    pairs: &[Pair],
    out: &mut Vec<u8>,
) -> Result<(), AllocError>
    ensures { OnOk result (out.new.items ≡ out.old.items
        ++ flat_map (λ p. pair_line both.now.old.map.now.setting both.now.new.map.now.setting
        (pair_entries both.now p)) pairs.now) }
{
    for pair in pairs {
        push_pair(both, pair, out)?;
    }
    Ok(())
}

#[tactic(auto, unfolding(crate::specs::PairLines::pair_line))]
fn push_pair<A: Allocator, B: Allocator>(
    both: &Comparison<'_, A, B>,
    pair: &Pair,
    out: &mut Vec<u8>,
) -> Result<(), AllocError>
    ensures { OnOk result (out.new.items ≡ out.old.items
        ++ pair_line both.now.old.map.now.setting both.now.new.map.now.setting
        (pair_entries both.now pair.now)) }
{
    let was = both.before(*pair);
    let is = both.after(*pair);
    let same = both.same_class_ids(*pair);
    let item = Compared {
        old: both.old.map.setting(),
        new: both.new.map.setting(),
        before: was,
        after: is,
        same_class_ids: same,
    };
    push_compared(&item, out)
}

fn push_compared(item: &Compared<'_>, out: &mut Vec<u8>) -> Result<(), AllocError>
    ensures { OnOk result (out.new.items ≡ out.old.items
        ++ seen_line item.now.old.now item.now.new.now (option_map seen_data item.now.before)
        (option_map seen_data item.now.after) item.now.same_class_ids) }
{
    match told_id(&item.before, &item.after) {
        Some(id) => push_line(*out.allocator(), id, item, out),
        None => Ok(()),
    }
}

/// Returns the id of the item, or `None` if neither map has the item. If both maps have the item,
/// it has the same id in both.
fn told_id(before: &Option<Seen<'_>>, after: &Option<Seen<'_>>) -> Option<ItemId>
    ensures { result
        ≡ told_id (option_map seen_data before.now) (option_map seen_data after.now) }
{
    match after {
        Some(after) => Some(after.view.id),
        None => match before {
            Some(before) => Some(before.view.id),
            None => None,
        },
    }
}

/// Whether anything differs in at least one pair of a comparison by ids.
pub(crate) fn is_different<A: Allocator, B: Allocator>(both: &Comparison<'_, A, B>) -> bool
    requires { both.now.identity ≡ Ids }
    ensures { (t u : List Row) (ids : List Id)
        → each (pair_entries both.now) both.now.pairs.items ≡ each (id_entries t u) ids
        → result ≡ has_some (flat_map (id_line (plain_map both.now.old.map.now.setting t)
        (plain_map both.now.new.map.now.setting u)) ids) }
{
    has_difference(both, both.pairs.as_slice())
}

#[tactic(auto, using(crate::proofs::LineLaws::none_more, crate::proofs::LineLaws::some_here))]
fn has_difference<A: Allocator, B: Allocator>(both: &Comparison<'_, A, B>, pairs: &[Pair]) -> bool
    requires { both.now.identity ≡ Ids }
    ensures { result ≡ has_some (flat_map
        (λ p. pair_line both.now.old.map.now.setting both.now.new.map.now.setting
        (pair_entries both.now p)) pairs.now) }
{
    for pair in pairs {
        if differs(both, pair) {
            return true;
        }
    }
    false
}

fn differs<A: Allocator, B: Allocator>(both: &Comparison<'_, A, B>, pair: &Pair) -> bool
    requires { both.now.identity ≡ Ids }
    ensures { result ≡ has_some (pair_line both.now.old.map.now.setting
        both.now.new.map.now.setting (pair_entries both.now pair.now)) }
{
    let found = both.difference(Report::Changes, *pair);
    found.is_some()
}
