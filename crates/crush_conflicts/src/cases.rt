//! What the maps of a run say about one item, and which changes of this item are lost.

ghost use Rattle.std.specs.Prelude.{◌≡◌, ◌||◌, List, is_some, not};
ghost use Rattle.std.specs.Option.{option_map};
ghost use Rattle.crush_model.specs.Stands.{Stands};
ghost use Rattle.crush_model.specs.Table.{Row};
ghost use Rattle.crush_items.specs.SeenItem.{seen_data};
ghost use Rattle.crush_conflicts.specs.Cases.{changes_of, is_gone, is_kept_of, is_some_kept, lost_aspects, lost_of, told_at_end, told_of, with_presence};
ghost use Rattle.crush_conflicts.specs.CasesSeen.{case_data, found_data};

use crate::aspects::Aspects;
use crate::differences::{aspects_of, differences};
use crate::items::{KnownItems, seen_of};
use crush_items::{Item, Seen};
use std::alloc::Allocator;

/// What one operator's map says about an item. An operator's map is the map that results if only
/// the operator's script runs.
#[derive(Drop)]
pub(crate) struct Found<'r, 'a, A: Allocator> {
    /// The name of the operator.
    pub name: &'a str,
    /// The item in this map, or `None` if the map doesn't have the item.
    pub item: Option<&'r Item<'a, A>>,
}

impl<'r, 'a, A: Allocator> Found<'r, 'a, A> {
    /// Returns what the map says about the item, or `None` if the map doesn't have the item.
    pub(crate) fn seen(&self) -> Option<Seen<'a>>
        ensures { option_map seen_data result ≡ (found_data self.now).item }
    {
        seen_of(self.item)
    }
}

/// An item, and what the maps of a run say about the item. If a map doesn't have the item, its
/// value is `None`.
#[derive(Drop)]
pub(crate) struct Case<'r, 'a, A: Allocator> {
    /// The name of the item, with which its line in the text of the lost changes begins.
    pub name: &'a str,
    /// What the map before the run says about the item.
    pub before: Option<Seen<'a>>,
    /// What each operator's map says about the item.
    pub alone: Vec<Found<'r, 'a, A>>,
    /// What the map after the run says about the item.
    pub after: Option<Seen<'a>>,
}

impl<'r, 'a, A: Allocator> Case<'r, 'a, A> {
    /// Returns the aspects that an operator changes: those in which the item in the operator's map
    /// differs from the item before the run.
    fn changes_of(&self, known: &KnownItems<'_, A>, found: &Found<'_, '_, A>) -> Aspects
        ensures { (t : List Row) → Stands known.now t
            → result ≡ changes_of t (case_data self.now) (found_data found.now) }
    {
        let item = found.seen();
        differences(known, &item, &self.before)
    }

    /// Returns the aspects in which an operator has lost a change. In these aspects, the item in
    /// the operator's map differs both from the item before the run and from the item after the
    /// run.
    fn lost_of(&self, known: &KnownItems<'_, A>, found: &Found<'_, '_, A>) -> Aspects
        ensures { (t : List Row) → Stands known.now t
            → result ≡ lost_of t (case_data self.now) (found_data found.now) }
    {
        let changes = self.changes_of(known, found);
        let item = found.seen();
        let missing = differences(known, &item, &self.after);
        changes.and(missing)
    }

    /// Returns the aspects in which at least one operator has lost a change.
    pub(crate) fn lost_aspects(&self, known: &KnownItems<'_, A>) -> Aspects
        ensures { (t : List Row) → Stands known.now t
            → result ≡ lost_aspects t (case_data self.now) }
    {
        let alone = self.alone.as_slice();
        let mut lost = Aspects::none();
        for found in alone {
            let more = self.lost_of(known, found);
            lost = lost.or(more);
        }
        lost
    }

    /// Returns the aspects whose values the item's line shows for an operator. These are the
    /// aspects in `lost` that the operator changes. If the operator removes the item, the aspect
    /// `presence` is also returned. `lost` must be what `lost_aspects` returns.
    pub(crate) fn told_of(
        &self,
        known: &KnownItems<'_, A>,
        lost: Aspects,
        found: &Found<'_, '_, A>,
    ) -> Aspects
        ensures { (t : List Row) → Stands known.now t
            → lost ≡ lost_aspects t (case_data self.now)
            → result ≡ told_of t (case_data self.now) (found_data found.now) }
    {
        let changes = self.changes_of(known, found);
        let item = found.seen();
        with_presence(is_gone(&self.before, &item), lost.and(changes))
    }

    /// Returns the aspects whose values the item's line shows after `in the end`. These are the
    /// aspects in `lost` that the item after the run has. If the map after the run doesn't have the
    /// item, the aspect `presence` is also returned. `lost` must be what `lost_aspects` returns.
    pub(crate) fn told_at_end(&self, lost: Aspects) -> Aspects
        ensures { (t : List Row) → lost ≡ lost_aspects t (case_data self.now)
            → result ≡ told_at_end t (case_data self.now) }
    {
        let aspects = aspects_of(&self.after);
        with_presence(is_missing(&self.after), lost.and(aspects))
    }

    /// Whether the item after the run has at least one of the values that the item's line shows for
    /// this operator.
    fn is_kept_of(&self, known: &KnownItems<'_, A>, lost: Aspects, found: &Found<'_, '_, A>) -> bool
        ensures { (t : List Row) → Stands known.now t
            → lost ≡ lost_aspects t (case_data self.now)
            → result ≡ is_kept_of t (case_data self.now) (found_data found.now) }
    {
        let told = self.told_of(known, lost, found);
        let item = found.seen();
        let missing = differences(known, &item, &self.after);
        told.without(missing).is_some()
    }

    /// Whether the item after the run has at least one of the values that the item's line shows for
    /// any operator.
    pub(crate) fn is_some_kept(&self, known: &KnownItems<'_, A>, lost: Aspects) -> bool
        ensures { (t : List Row) → Stands known.now t
            → lost ≡ lost_aspects t (case_data self.now)
            → result ≡ is_some_kept t (case_data self.now) }
    {
        let alone = self.alone.as_slice();
        let mut is_kept = false;
        for found in alone {
            let is_this = self.is_kept_of(known, lost, found);
            is_kept = is_either(is_kept, is_this);
        }
        is_kept
    }
}

fn is_either(first: bool, second: bool) -> bool
    ensures { result ≡ (first || second) }
{
    first || second
}

/// Whether one map has an item (`before`), and another map doesn't have it (`after`).
fn is_gone(before: &Option<Seen<'_>>, after: &Option<Seen<'_>>) -> bool
    ensures { result ≡ is_gone (option_map seen_data before.now) (option_map seen_data after.now) }
{
    match before {
        Some(_) => is_missing(after),
        None => false,
    }
}

fn is_missing(item: &Option<Seen<'_>>) -> bool
    ensures { result ≡ not (is_some (option_map seen_data item.now)) }
{
    match item {
        Some(_) => false,
        None => true,
    }
}

/// Returns the aspects. If `is_gone` is true, the aspect `presence` is added to them.
fn with_presence(is_gone: bool, aspects: Aspects) -> Aspects
    ensures { result ≡ with_presence is_gone aspects }
{
    Aspects {
        presence: aspects.presence || is_gone,
        ..aspects
    }
}
