//! Counts the items that differ, for each kind of difference.

ghost use Rattle.std.specs.Prelude.{◌≡◌, ◌+◌, ◌<◌, ◌^◌, List, map as each};
ghost use Rattle.std.specs.Option.{option_map};
ghost use Rattle.crush_units.specs.declared.id.ItemId.{ItemId as Id};
ghost use Rattle.crush_model.specs.Count.{one_if};
ghost use Rattle.crush_model.specs.Table.{Row};
ghost use Rattle.crush_items.specs.SeenItem.{seen_data};
ghost use Rattle.crush_compare.specs.Comparison.{pair_entries};
ghost use Rattle.crush_compare.specs.IdPairs.{id_entries};
ghost use Rattle.crush_since.specs.PairLines.{entry_item, pairs_tally};
ghost use Rattle.crush_since.specs.Tallies.{HasRoom, no_tally, tally_of, tally_with, is_made, is_renamed, is_moved, is_reweighed, is_reclassed};

use crate::since::columns::{same_class, same_parent};
use crate::since::seen::Seen;
use crush_compare::{Comparison, Pair};
use std::alloc::Allocator;

/// The number of items that have each kind of difference. The fields `renamed`, `moved`,
/// `reweighed` and `reclassed` count the items that both maps have, but with different names,
/// places, weights or classes. One item can count in several of these fields.
#[derive(Clone, Copy, Debug)]
pub struct Tally {
    /// The number of items that only the new map has.
    pub made: usize,
    /// The number of items that only the old map has.
    pub removed: usize,
    pub renamed: usize,
    pub moved: usize,
    pub reweighed: usize,
    pub reclassed: usize,
}

impl Tally {
    /// Returns, for each kind of difference, the number of items that have it. `both` must be a
    /// comparison by ids.
    pub fn of<A: Allocator, B: Allocator>(both: &Comparison<'_, A, B>) -> Tally
        ensures { (t u : List Row) (ids : List Id)
            → each (pair_entries both.now) both.now.pairs.items ≡ each (id_entries t u) ids
            → result ≡ tally_of t u ids }
    {
        count(both, both.pairs.as_slice())
    }

    pub(crate) fn none() -> Tally
        ensures { result ≡ no_tally }
    {
        Tally {
            made: 0,
            removed: 0,
            renamed: 0,
            moved: 0,
            reweighed: 0,
            reclassed: 0,
        }
    }

    pub(crate) fn with(self, before: &Option<Seen<'_>>, after: &Option<Seen<'_>>) -> Tally
        requires { HasRoom self }
        ensures { result
            ≡ tally_with self (option_map seen_data before.now) (option_map seen_data after.now) }
    {
        Tally {
            made: more(self.made, is_made(before, after)),
            removed: more(self.removed, is_made(after, before)),
            renamed: more(self.renamed, is_renamed(before, after)),
            moved: more(self.moved, is_moved(before, after)),
            reweighed: more(self.reweighed, is_reweighed(before, after)),
            reclassed: more(self.reclassed, is_reclassed(before, after)),
        }
    }
}

#[tactic(auto, using(crate::proofs::LineLaws::pairs_more, crate::proofs::TallyLaws::at_most_more))]
fn count<A: Allocator, B: Allocator>(both: &Comparison<'_, A, B>, pairs: &[Pair]) -> Tally
    ensures { result ≡ pairs_tally (pair_entries both.now) pairs.now }
{
    let mut tally = Tally::none();
    for pair in pairs {
        tally = count_one(both, pair, tally);
    }
    tally
}

fn count_one<A: Allocator, B: Allocator>(
    both: &Comparison<'_, A, B>,
    pair: &Pair,
    tally: Tally,
) -> Tally
    requires { HasRoom tally }
    ensures { result ≡ tally_with tally (entry_item (pair_entries both.now pair.now).before)
        (entry_item (pair_entries both.now pair.now).after) }
{
    let was = both.before(*pair);
    let is = both.after(*pair);
    tally.with(&was, &is)
}

fn more(count: usize, test: bool) -> usize
    requires { count + 1 < 2 ^ 64 }
    ensures { result ≡ count + one_if test }
{
    if test { count + 1 } else { count }
}

/// Whether `before` is `None` and `after` is an item, so that only the new map has the item.
pub(crate) fn is_made(before: &Option<Seen<'_>>, after: &Option<Seen<'_>>) -> bool
    ensures { result
        ≡ is_made (option_map seen_data before.now) (option_map seen_data after.now) }
{
    before.is_none() && after.is_some()
}

fn is_renamed(before: &Option<Seen<'_>>, after: &Option<Seen<'_>>) -> bool
    ensures { result
        ≡ is_renamed (option_map seen_data before.now) (option_map seen_data after.now) }
{
    match before {
        Some(before) => match after {
            Some(after) => !(before.view.name.as_bytes() == after.view.name.as_bytes()),
            None => false,
        },
        None => false,
    }
}

fn is_moved(before: &Option<Seen<'_>>, after: &Option<Seen<'_>>) -> bool
    ensures { result
        ≡ is_moved (option_map seen_data before.now) (option_map seen_data after.now) }
{
    match before {
        Some(before) => match after {
            Some(after) => !same_parent(before.view.parent, after.view.parent),
            None => false,
        },
        None => false,
    }
}

/// Whether both maps have the item, with different weights.
pub(crate) fn is_reweighed(before: &Option<Seen<'_>>, after: &Option<Seen<'_>>) -> bool
    ensures { result
        ≡ is_reweighed (option_map seen_data before.now) (option_map seen_data after.now) }
{
    match before {
        Some(before) => match after {
            Some(after) => before.view.weight.units() != after.view.weight.units(),
            None => false,
        },
        None => false,
    }
}

/// Whether both maps have the item, with different classes.
pub(crate) fn is_reclassed(before: &Option<Seen<'_>>, after: &Option<Seen<'_>>) -> bool
    ensures { result
        ≡ is_reclassed (option_map seen_data before.now) (option_map seen_data after.now) }
{
    match before {
        Some(before) => match after {
            Some(after) => !same_class(before.view.class, after.view.class),
            None => false,
        },
        None => false,
    }
}
