//! Counts the items that differ, for each kind of difference, if items are matched by their names.

ghost use Rattle.std.specs.Prelude.{◌≡◌, ◌+◌, ◌<◌, ◌^◌};
ghost use Rattle.std.specs.Option.{option_map};
ghost use Rattle.crush_model.specs.Count.{one_if};
ghost use Rattle.crush_items.specs.SeenItem.{seen_data};
ghost use Rattle.crush_compare.specs.Comparison.{pair_items};
ghost use Rattle.crush_since.specs.CountedByName.{is_moved_by_name, pairs_tally, tally_plus};
ghost use Rattle.crush_since.specs.Tallies.{HasRoom};

use crate::names::staying::columns::same_place;
use crate::since::{Tally, is_made, is_reclassed, is_reweighed};
use crush_compare::{Comparison, Pair};
use crush_items::Seen;
use std::alloc::Allocator;

/// Returns, for each kind of difference, the number of pairs that have it. No item counts as
/// renamed, because the items are matched by their names.
pub(crate) fn tally_of<A: Allocator, B: Allocator>(
    both: &Comparison<'_, A, B>,
    pairs: &[Pair],
) -> Tally
    ensures { result ≡ pairs_tally (pair_items both.now) pairs.now }
{
    let mut tally = Tally::none();
    for pair in pairs {
        tally = count_one(both, pair, tally);
    }
    tally
}

fn count_one<A: Allocator, B: Allocator>(
    both: &Comparison<'_, A, B>,
    pair: &Pair,
    tally: Tally,
) -> Tally
    requires { HasRoom tally }
    ensures { result ≡ tally_plus tally (pair_items both.now pair.now).before
        (pair_items both.now pair.now).after }
{
    with(&tally, &both.before(*pair), &both.after(*pair))
}

fn with(tally: &Tally, before: &Option<Seen<'_>>, after: &Option<Seen<'_>>) -> Tally
    requires { HasRoom tally.now }
    ensures { result ≡ tally_plus tally.now (option_map seen_data before.now)
        (option_map seen_data after.now) }
{
    Tally {
        made: more(tally.made, is_made(before, after)),
        removed: more(tally.removed, is_made(after, before)),
        renamed: tally.renamed,
        moved: more(tally.moved, is_moved(before, after)),
        reweighed: more(tally.reweighed, is_reweighed(before, after)),
        reclassed: more(tally.reclassed, is_reclassed(before, after)),
    }
}

fn more(count: usize, test: bool) -> usize
    requires { count + 1 < 2 ^ 64 }
    ensures { result ≡ count + one_if test }
{
    if test { count + 1 } else { count }
}

/// Whether both maps have the item, in different places. The place of an item is the name of the
/// bucket that holds the item, or `(root)` or `(unplaced)` if no bucket holds the item.
fn is_moved(before: &Option<Seen<'_>>, after: &Option<Seen<'_>>) -> bool
    ensures { result
        ≡ is_moved_by_name (option_map seen_data before.now) (option_map seen_data after.now) }
{
    match before {
        Some(before) => match after {
            Some(after) => !same_place(before, after),
            None => false,
        },
        None => false,
    }
}
