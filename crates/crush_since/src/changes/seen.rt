//! What both maps say about the item of a row.

ghost use Rattle.std.specs.Prelude.{◌≡◌, is_some, map as each, option_and_then};
ghost use Rattle.std.specs.Cmp.Lexicographic.{pointwise};
ghost use Rattle.std.specs.List.{slice_get};
ghost use Rattle.std.specs.Option.{option_map};
ghost use Rattle.crush_compare.specs.Comparison.{pair_entries};
ghost use Rattle.crush_compare.specs.IdPairs.{class_ids_of};
ghost use Rattle.crush_edits.specs.Setting.{SettingData};
ghost use Rattle.crush_items.specs.Items.{item_entry};
ghost use Rattle.crush_items.specs.SeenItem.{seen_data};
ghost use Rattle.crush_nodes.specs.Seen.{shadow_data};
ghost use Rattle.crush_since.specs.Changes.{has_some};
ghost use Rattle.crush_since.specs.ItemParts.{item_line, same_class_id};
ghost use Rattle.crush_since.specs.SeenChange.{change_data, row_change};
ghost use Rattle.crush_units.specs.declared.id.ItemId.{ItemId as Id};

use crate::changes::rows::TreeRow;
use crate::since::columns::same_class_ids;
use crate::since::listed::is_listed;
use crate::since::seen::Seen;
use crush_compare::{Comparison, Pair};
use crush_items::Items;
use crush_tree::ShadowId;
use crush_units::ItemId;
use std::alloc::Allocator;

#[derive(Clone, Copy, Debug)]
pub(crate) struct Change<'a> {
    pub id: ItemId,
    pub depth: u32,
    pub stands: bool,
    pub before: Option<Seen<'a>>,
    pub after: Option<Seen<'a>>,
    pub same_class_ids: bool,
}

pub(super) fn change_of<'a, A: Allocator, B: Allocator>(
    maps: &Comparison<'a, A, B>,
    row: &TreeRow,
) -> Change<'a>
    ensures { change_data result ≡ row_change maps.now row.now }
{
    let was = maps.before(row.pair);
    let now = maps.after(row.pair);
    let same_class_ids = have_same_class_ids(maps, row.pair);
    Change {
        id: row.id,
        depth: row.depth,
        stands: row.stands,
        before: was,
        after: now,
        same_class_ids,
    }
}

/// Whether the item of a pair differs between the maps, or only one of the maps has it.
pub(super) fn is_told<A: Allocator, B: Allocator>(maps: &Comparison<'_, A, B>, pair: Pair) -> bool
    ensures { (s p : SettingData) (i : Id) → result ≡ has_some (item_line s p i
        (option_map (λ e. e.item) (pair_entries maps.now pair).before)
        (option_map (λ e. e.item) (pair_entries maps.now pair).after)
        (pointwise same_class_id (class_ids_of (pair_entries maps.now pair).before)
        (class_ids_of (pair_entries maps.now pair).after))) }
{
    let before = maps.before(pair);
    let after = maps.after(pair);
    is_listed(&before, &after, have_same_class_ids(maps, pair))
}

/// Whether the new map has the item of a pair.
pub(super) fn is_there<A: Allocator, B: Allocator>(maps: &Comparison<'_, A, B>, pair: Pair) -> bool
    ensures { result
        ≡ is_some (option_map (λ e. e.item) (pair_entries maps.now pair).after) }
{
    maps.after(pair).is_some()
}

fn have_same_class_ids<A: Allocator, B: Allocator>(maps: &Comparison<'_, A, B>, pair: Pair) -> bool
    ensures { result ≡ pointwise same_class_id (class_ids_of (pair_entries maps.now pair).before)
        (class_ids_of (pair_entries maps.now pair).after) }
{
    let before = class_ids_at(&maps.old, pair.before);
    let after = class_ids_at(&maps.new, pair.after);
    same_class_ids(before, after)
}

fn class_ids_at<'a, A: Allocator>(items: &Items<'a, A>, at: Option<u32>) -> &'a [ShadowId<A>]
    ensures { each shadow_data result.now ≡ class_ids_of
        (option_and_then (slice_get (each item_entry items.now.all.items)) at) }
{
    match at {
        Some(at) => items.class_ids(at),
        None => &[],
    }
}
