//! Counts the buckets whose ids differ between two maps. No command sets an id, so a plan can't
//! remove these differences. For this reason they are counted, but not listed.

ghost use Rattle.std.specs.Prelude.{◌≡◌, ◌+◌, ◌^◌, ◌<◌, ◌≤◌, ◌++◌, ◌&&◌, List, OnOk, IfOk, is_some, map as each};
ghost use Rattle.std.specs.List.{count_by};
ghost use Rattle.std.specs.Option.{option_map};
ghost use Rattle.crush_model.specs.Count.{one_if};
ghost use Rattle.crush_model.specs.Stands.{Stands};
ghost use Rattle.crush_model.specs.Table.{Row};
ghost use Rattle.crush_items.specs.Items.{HasEntries, item_entry};
ghost use Rattle.crush_items.specs.SeenItem.{seen_data};
ghost use Rattle.crush_compare.specs.Comparison.{pair_items};
ghost use Rattle.crush_since.specs.Aside.{CountsAsideOf, aside_line, aside_text, has_other_class_ids, has_other_id, of_pair};

use crush_compare::{Comparison, Devices, Pair};
use crush_items::Seen;
use crush_map::CrushMap;
use crush_units::put_all;
use itoa::Buffer;
use std::alloc::{AllocError, Allocator, Global};

/// The numbers of buckets that have different ids in two maps. The buckets are matched by their
/// names.
#[derive(Clone, Copy, Debug, PartialEq, Eq)]
pub struct Counts {
    /// The number of buckets that have different ids in the two maps.
    pub ids: usize,
    /// The number of buckets that have different class ids in the two maps.
    pub class_ids: usize,
}

/// Counts the buckets that both maps have and whose ids or class ids differ. The buckets are
/// matched by their names. If `under` is a name, the call counts only some buckets: the bucket with
/// this name, and the buckets that are below the bucket with this name in at least one of the maps.
/// The call fails only if memory runs out.
pub fn count_aside<A: Allocator, B: Allocator>(
    alloc: Global,
    under: Option<&str>,
    map: &CrushMap<A>,
    wanted: &CrushMap<B>,
) -> Result<Counts, AllocError>
    ensures { IfOk result (λ counts. (t u : List Row)
        → Stands map.now.forest t → Stands wanted.now.forest u
        → CountsAsideOf (option_map (λ n. n.now) under.entry) t u counts) }
{
    let both = Comparison::by_names_part(alloc, Devices::ById, under, map, wanted)?;
    Ok(counts_of(&both, both.pairs.as_slice()))
}

fn counts_of<A: Allocator, B: Allocator>(both: &Comparison<'_, A, B>, pairs: &[Pair]) -> Counts
    ensures ids { result.ids ≡ count_by (λ p. of_pair has_other_id (pair_items both.now p))
        pairs.now }
    ensures class_ids { (t u : List Row)
        → HasEntries t (each item_entry both.now.old.all.items)
        → HasEntries u (each item_entry both.now.new.all.items)
        → result.class_ids
        ≡ count_by (λ p. of_pair (has_other_class_ids t u) (pair_items both.now p)) pairs.now }
{
    let mut ids: usize = 0;
    let mut class_ids: usize = 0;
    for pair in pairs {
        ids = more(ids, has_other_id(both, pair));
        class_ids = more(class_ids, has_other_class_ids(both, pair));
    }
    Counts { ids, class_ids }
}

fn more(count: usize, test: bool) -> usize
    requires { count + 1 < 2 ^ 64 }
    ensures sum { result ≡ count + one_if test }
    ensures most { result ≤ count + 1 }
{
    if test { count + 1 } else { count }
}

/// Whether both maps have the item of a pair, with different ids. The result is always false for a
/// device, because this comparison (`Devices::ById`) matches two devices only if they have the same
/// id.
fn has_other_id<A: Allocator, B: Allocator>(both: &Comparison<'_, A, B>, pair: &Pair) -> bool
    ensures { result ≡ of_pair has_other_id (pair_items both.now pair.now) }
{
    is_other_id(&both.before(*pair), &both.after(*pair))
}

fn is_other_id(before: &Option<Seen<'_>>, after: &Option<Seen<'_>>) -> bool
    ensures { result ≡ of_pair has_other_id (record {
      before = option_map seen_data before.now;
      after = option_map seen_data after.now;
    }) }
{
    match after {
        Some(after) => match before {
            Some(before) => !before.view.id.is_same(after.view.id),
            None => false,
        },
        None => false,
    }
}

/// Whether both maps have the item of a pair, with different class ids. The result is always false
/// for a device, because a device has no class ids.
fn has_other_class_ids<A: Allocator, B: Allocator>(both: &Comparison<'_, A, B>, pair: &Pair) -> bool
    ensures { (t u : List Row)
        → HasEntries t (each item_entry both.now.old.all.items)
        → HasEntries u (each item_entry both.now.new.all.items)
        → result ≡ of_pair (has_other_class_ids t u) (pair_items both.now pair.now) }
{
    let same = both.same_class_ids(*pair);
    is_in_both(&both.before(*pair), &both.after(*pair)) && !same
}

fn is_in_both(before: &Option<Seen<'_>>, after: &Option<Seen<'_>>) -> bool
    ensures { result ≡ (is_some (option_map seen_data before.now)
        && is_some (option_map seen_data after.now)) }
{
    before.is_some() && after.is_some()
}

/// Appends a line for each of the counts that isn't 0. The call fails only if memory runs out.
#[tactic(auto, unfolding(crate::specs::Aside::aside_text))]
pub fn push_aside(counts: Counts, lines: &mut Vec<u8>) -> Result<(), AllocError>
    ensures { OnOk result (lines.new.items ≡ lines.old.items ++ aside_text counts) }
{
    push_count(b"ids of ".as_slice(), counts.ids, lines)?;
    push_count(b"class ids of ".as_slice(), counts.class_ids, lines)
}

fn push_count(what: &[u8], count: usize, lines: &mut Vec<u8>) -> Result<(), AllocError>
    ensures { OnOk result (lines.new.items ≡ lines.old.items ++ aside_line what.now count) }
{
    if count == 0 {
        return Ok(());
    }
    let mut buffer = Buffer::new();
    let number = buffer.format(count).as_bytes();
    put_all(lines, &[what, number, b" buckets differ\n".as_slice()]).map_err(|_| AllocError)
}
