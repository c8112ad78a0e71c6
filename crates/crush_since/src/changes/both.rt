//! Two maps whose items are matched by ids, prepared for fast searches.

ghost use Rattle.std.specs.Prelude.{◌≡◌, List, IfOk};
ghost use Rattle.crush_compare.specs.Comparison.{pair_entries};
ghost use Rattle.crush_compare.specs.IdPairs.{id_entries};
ghost use Rattle.crush_compare.specs.Pairs.{position};
ghost use Rattle.crush_model.specs.Stands.{Stands};
ghost use Rattle.crush_model.specs.Table.{Row};
ghost use Rattle.crush_since.specs.SeenChange.{AreTables};

use crate::changes::buckets::Buckets;
use crush_compare::{Comparison, Pair};
use crush_items::{ById, Place};
use crush_map::CrushMap;
use crush_units::ItemId;
use std::alloc::{AllocError, Allocator, Global};

/// Two maps whose items are matched by ids. Each search for an item is a binary search.
#[derive(Drop)]
pub(crate) struct Both<'a, A: Allocator, B: Allocator> {
    pub maps: Comparison<'a, A, B>,
    /// The positions of the old map's items in the list of items, sorted by the items' ids.
    pub before: ById,
    /// The positions of the new map's items in the list of items, sorted by the items' ids.
    pub after: ById,
    /// The old map's buckets, sorted by id.
    pub buckets: Buckets<'a, A>,
}

impl<'a, A: Allocator, B: Allocator> Both<'a, A, B> {
    pub(super) fn of(
        alloc: Global,
        old: &'a CrushMap<A>,
        new: &'a CrushMap<B>,
    ) -> Result<Both<'a, A, B>, AllocError>
        ensures old { IfOk result (λ both. both.maps.old.map.now ≡ old.now) }
        ensures new { IfOk result (λ both. both.maps.new.map.now ≡ new.now) }
        ensures tables { IfOk result (λ both. (t u : List Row) → Stands old.now.forest t
            → Stands new.now.forest u → AreTables t u both) }
    {
        old.forest().recall_invariant();
        new.forest().recall_invariant();
        let maps = Comparison::by_ids(alloc, old, new)?;
        let before = maps.old.by_id(alloc)?;
        let after = maps.new.by_id(alloc)?;
        let buckets = Buckets::of(alloc, old)?;
        Ok(Both {
            maps,
            before,
            after,
            buckets,
        })
    }

    /// Returns the position of the item with this id in the old map's list of items, and its
    /// position in the new map's list of items.
    pub(super) fn pair_of(&self, id: &ItemId) -> Pair
        ensures { (t u : List Row) → AreTables t u self.now
            → pair_entries self.now.maps result ≡ id_entries t u id.now }
    {
        Pair {
            before: position(self.before.find(*id)),
            after: position(self.after.find(*id)),
        }
    }
}

fn position(place: Option<Place>) -> Option<u32>
    ensures { result ≡ position place }
{
    match place {
        Some(place) => Some(place.at),
        None => None,
    }
}
