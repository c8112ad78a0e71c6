//! The goal of a plan: the wanted map, and the part of the maps that the plan may change. The part
//! is the whole map, or one item and all items below it.

ghost use Rattle.std.specs.Prelude.{◌≡◌, List, IfOk, Some, false, true};
ghost use Rattle.std.specs.List.{list_all};
ghost use Rattle.std.specs.Option.{option_map, option_map_or};
ghost use Rattle.crush_model.specs.Stands.{Stands};
ghost use Rattle.crush_model.specs.Table.{Row, id_named, name_of};
ghost use Rattle.crush_compare.specs.Named.{is_in};
ghost use Rattle.crush_print.specs.WalkStep.{walk_step_data};
ghost use Rattle.crush_plan.specs.Draft.{MayWeigh, MayWeighBelow};
ghost use Rattle.crush_plan.specs.Part.{called, concerns, is_called_in, is_item_in_part, was_in_part, will_be_in_part};
ghost use Rattle.crush_units.specs.declared.id.ItemId.TheVariants.{Bucket};

use crate::identity::Identity;
use crate::item_table::ItemTable;
use crush_compare::is_in;
use crush_map::{CrushMap, Edit};
use crush_print::{WalkStep, walk_below};
use crush_units::{BucketId, ItemId, Name};
use std::alloc::{AllocError, Allocator, Global};

/// The two maps of a plan, and the part of them that the plan may change.
#[derive(Drop)]
pub(crate) struct PlanGoal<'a, A: Allocator, B: Allocator> {
    pub identity: Identity,
    /// If this is a name, the part that the plan may change is the item of this name and all items
    /// below it, in each of the two maps. If a map has no item of this name, its part is empty. If
    /// this is `None`, the part is the whole map.
    pub under: Option<&'a str>,
    /// The map before the plan's first edit.
    pub before: &'a CrushMap<A>,
    pub wanted: &'a CrushMap<B>,
    /// The items of the wanted map, in a table that finds an item by its id.
    pub there: ItemTable<'a, B>,
}

impl<A: Allocator, B: Allocator> PlanGoal<'_, A, B> {
    /// Whether the part of the map before the plan's first edit has an item of this id. If the part
    /// is the whole map, the result is true for every id.
    pub(crate) fn was_in_part(&self, id: ItemId) -> bool
        ensures { (t : List Row) → Stands self.now.before.now.forest t
            → result ≡ is_in (option_map (λ n. n.now) self.now.under) t id }
    {
        is_in(self.before, self.under, id)
    }

    /// Whether the wanted map has an item of this name, and this item is in the part of the wanted
    /// map.
    fn will_be_in_part(&self, name: &str) -> bool
        ensures { (u : List Row) → Stands self.now.wanted.now.forest u
            → result ≡ will_be_in_part u (option_map (λ n. n.now) self.now.under) name.now }
    {
        match self.wanted.locate(name) {
            Some(id) => is_in(self.wanted, self.under, id),
            None => false,
        }
    }

    /// Whether an edit that doesn't remove this item may change it. `name` is the item's name after
    /// the edit. [`PlanGoal::concerns`] explains the conditions.
    pub(crate) fn is_in_part(&self, id: ItemId, name: &str) -> bool {
        self.under.is_none() || self.was_in_part(id) || self.will_be_in_part(name)
    }

    /// Whether the edit is only about items that the plan may change. A swap is about two buckets,
    /// and any other edit is about one item. The buckets of a location don't count. `map` is the
    /// map to which the edit is to be applied.
    ///
    /// If the part is the whole map, every edit passes. Otherwise, each item that the edit is about
    /// must meet at least one of two conditions. First, the part of the map before the plan's first
    /// edit has an item with the item's id. Second, the part of the wanted map has an item with the
    /// name that the item has after the edit. An edit that removes an item passes only if the item
    /// meets the first condition.
    pub(crate) fn concerns(&self, map: &CrushMap<A>, edit: &Edit) -> bool
        ensures { (t u v : List Row) → Stands self.now.before.now.forest t
            → Stands self.now.wanted.now.forest u → Stands map.now.forest v
            → result ≡ concerns t u (option_map (λ n. n.now) self.now.under) v edit.now }
    {
        match self.under {
            Some(_) => self.are_called_in(map, edit),
            None => true,
        }
    }

    fn are_called_in(&self, map: &CrushMap<A>, edit: &Edit) -> bool
        ensures { (t u v : List Row) → Stands self.now.before.now.forest t
            → Stands self.now.wanted.now.forest u → Stands map.now.forest v
            → result ≡ list_all
            (is_called_in t u (option_map (λ n. n.now) self.now.under) v) (called edit.now) }
    {
        match edit {
            Edit::Place { name, .. } => self.is_called_in(map, name, name),
            Edit::Move { name, .. } => self.is_called_in(map, name, name),
            Edit::Swap { a, b } => self.is_called_in(map, a, b) && self.is_called_in(map, b, a),
            Edit::Reweight { name, .. } => self.is_called_in(map, name, name),
            Edit::ReweightSubtree { name, .. } => self.is_called_in(map, name, name),
            Edit::Remove { name } => self.was_called_in(map, name),
            Edit::AddBucket { name, .. } => self.is_called_in(map, name, name),
            Edit::Rename { from, to } => self.is_called_in(map, from, to),
            Edit::SetClass { name, .. } => self.is_called_in(map, name, name),
            Edit::RemoveClass { name } => self.is_called_in(map, name, name),
        }
    }

    fn was_called_in(&self, map: &CrushMap<A>, name: &Name<Global>) -> bool
        ensures { (t v : List Row) → Stands self.now.before.now.forest t → Stands map.now.forest v
            → result ≡ was_in_part t (option_map (λ n. n.now) self.now.under) v name.now }
    {
        match map.locate(name.as_str()) {
            Some(id) => self.was_in_part(id),
            None => false,
        }
    }

    fn is_called_in(&self, map: &CrushMap<A>, before: &Name<Global>, behind: &Name<Global>) -> bool
        ensures { (t u v : List Row) → Stands self.now.before.now.forest t
            → Stands self.now.wanted.now.forest u → Stands map.now.forest v
            → result ≡ is_called_in t u (option_map (λ n. n.now) self.now.under) v
            (record { before = before.now; behind = Some behind.now }) }
    {
        self.was_called_in(map, before) || self.will_be_in_part(behind.as_str())
    }

    /// Whether the edit sets no weight outside the part. Only an edit `reweight-subtree`, which
    /// sets the weights of all devices below a bucket, needs this test. Any other edit sets at most
    /// the weight of an item that it names, and [`PlanGoal::concerns`] tests this item.
    ///
    /// If the part is the whole map, every edit passes. Otherwise, an edit `reweight-subtree`
    /// passes if each item below the bucket that it names meets at least one of two conditions.
    /// First, the part of the map before the plan's first edit has an item with the item's id.
    /// Second, the part of the wanted map has an item with the item's name.
    ///
    /// The call fails only if memory runs out.
    pub(crate) fn weighs_part(
        &self,
        alloc: Global,
        map: &CrushMap<A>,
        edit: &Edit,
    ) -> Result<bool, AllocError>
        ensures { IfOk result (λ is_allowed. is_allowed ≡ true → (v : List Row)
            → Stands map.now.forest v → MayWeigh self.now v edit.now) }
    {
        match edit {
            Edit::Place { .. } => Ok(true),
            Edit::Move { .. } => Ok(true),
            Edit::Swap { .. } => Ok(true),
            Edit::Reweight { .. } => Ok(true),
            Edit::ReweightSubtree { name, .. } => self.has_part_below(alloc, map, name),
            Edit::Remove { .. } => Ok(true),
            Edit::AddBucket { .. } => Ok(true),
            Edit::Rename { .. } => Ok(true),
            Edit::SetClass { .. } => Ok(true),
            Edit::RemoveClass { .. } => Ok(true),
        }
    }

    fn has_part_below(
        &self,
        alloc: Global,
        map: &CrushMap<A>,
        name: &Name<Global>,
    ) -> Result<bool, AllocError>
        ensures { IfOk result (λ is_allowed. is_allowed ≡ true → (v : List Row)
            → Stands map.now.forest v → MayWeighBelow self.now v (id_named v name.now)) }
    {
        match map.locate(name.as_str()) {
            Some(id) => self.has_part_below_item(alloc, map, id),
            None => Ok(true),
        }
    }

    fn has_part_below_item(
        &self,
        alloc: Global,
        map: &CrushMap<A>,
        id: ItemId,
    ) -> Result<bool, AllocError>
        ensures { IfOk result (λ is_allowed. is_allowed ≡ true → (v : List Row)
            → Stands map.now.forest v → MayWeighBelow self.now v (Some id)) }
    {
        match id {
            ItemId::Device(_) => Ok(true),
            ItemId::Bucket(bucket) => self.has_part_below_bucket(alloc, map, bucket),
        }
    }

    fn has_part_below_bucket(
        &self,
        alloc: Global,
        map: &CrushMap<A>,
        bucket: BucketId,
    ) -> Result<bool, AllocError>
        ensures { IfOk result (λ is_allowed. is_allowed ≡ true → (v : List Row)
            → Stands map.now.forest v → MayWeighBelow self.now v (Some (Bucket bucket))) }
    {
        match self.under {
            Some(_) => self.has_listed_below(alloc, map, bucket),
            None => Ok(true),
        }
    }

    /// Whether each item below the bucket meets at least one of the two conditions of
    /// [`PlanGoal::weighs_part`]. To test this, the function lists the items below the bucket.
    fn has_listed_below(
        &self,
        alloc: Global,
        map: &CrushMap<A>,
        bucket: BucketId,
    ) -> Result<bool, AllocError>
        ensures { IfOk result (λ is_allowed. is_allowed ≡ true → (v : List Row)
            → Stands map.now.forest v → MayWeighBelow self.now v (Some (Bucket bucket))) }
    {
        let below = walk_below(alloc, map, bucket)?;
        Ok(self.are_in_part(map, below.as_slice()))
    }

    fn are_in_part(&self, map: &CrushMap<A>, steps: &[WalkStep<'_, A>]) -> bool
        ensures { (t u v : List Row) → Stands self.now.before.now.forest t
            → Stands self.now.wanted.now.forest u → Stands map.now.forest v
            → result ≡ list_all (λ s. is_item_in_part t u
            (option_map (λ n. n.now) self.now.under) v (walk_step_data s).item.id) steps.now }
    {
        for step in steps {
            if !self.is_item_in_part(map, &step.view().id) {
                return false;
            }
        }
        true
    }

    fn is_item_in_part(&self, map: &CrushMap<A>, id: &ItemId) -> bool
        ensures { (t u v : List Row) → Stands self.now.before.now.forest t
            → Stands self.now.wanted.now.forest u → Stands map.now.forest v
            → result ≡ is_item_in_part t u (option_map (λ n. n.now) self.now.under) v id.now }
    {
        self.was_in_part(*id) || self.is_named_in_part(map, *id)
    }

    fn is_named_in_part(&self, map: &CrushMap<A>, id: ItemId) -> bool
        ensures { (u v : List Row) → Stands self.now.wanted.now.forest u
            → Stands map.now.forest v → result
            ≡ option_map_or (will_be_in_part u (option_map (λ n. n.now) self.now.under))
            (name_of v id) false }
    {
        match map.name_of(id) {
            Some(name) => self.will_be_in_part(name),
            None => false,
        }
    }
}
