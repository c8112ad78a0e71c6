//! An unfinished plan: a map that is changed step by step, and the edits that have been applied to
//! it.

ghost use Rattle.std.specs.Prelude.{◌≡◌, ◌++◌, ◌∷◌, [], List, OnOk, IfOk, if◌then◌else◌, true};
ghost use Rattle.crush_model.specs.Stands.{Stands};
ghost use Rattle.crush_model.specs.Table.{Row};
ghost use Rattle.crush_plan.specs.Draft.{Allows, GoesOn, IsFork};
ghost use Rattle.crush_history.specs.Said.{IsSaid};
ghost use Rattle.crush_plan.specs.Part.{are_there, concerns, location_of};
ghost use Rattle.std.specs.Option.{option_map};

use crate::expressible::is_expressible;
use crate::goal::PlanGoal;
use crush_map::{CrushMap, Edit, EditFault, Location, Placing};
use crush_units::{BucketId, DeviceId, ItemId, Name, Weight};
use std::alloc::{AllocError, Allocator, Global};

#[derive(Drop)]
pub(crate) struct Draft<A: Allocator> {
    pub alloc: Global,
    /// The map after the edits.
    pub map: CrushMap<A>,
    /// The edits that were applied, in this order. Each of them was allowed, wasn't refused, and
    /// changed the map. [`Draft::give`] says which edits are allowed.
    pub edits: Vec<Edit>,
}

/// Copies the name of an item, a type or a class. The name must be valid. Then the call fails only
/// if memory runs out.
pub(crate) fn copy_name(alloc: Global, name: &[u8]) -> Result<Name<Global>, AllocError> {
    match Name::read(alloc, name) {
        Ok(name) => Ok(name),
        Err(_) => Err(AllocError),
    }
}

impl<A: Allocator + Clone> Draft<A> {
    /// Returns a new draft without edits. It starts from a copy of this draft's map.
    pub(crate) fn fork(&self) -> Result<Draft<A>, AllocError>
        ensures { IfOk result (IsFork self.now) }
    {
        Ok(Draft {
            alloc: self.alloc,
            map: self.map.try_copy()?,
            edits: Vec::new(self.alloc),
        })
    }

    /// Adopts `fork`, a draft that was forked from this one and then got edits. Appends the edits
    /// of `fork` to the edits of this draft, and replaces the map of this draft by the map of
    /// `fork`.
    pub(crate) fn adopt(&mut self, fork: Draft<A>) -> Result<(), AllocError>
        ensures map { OnOk result (self.new.map ≡ fork.map) }
        ensures edits { OnOk result (self.new.edits.items
            ≡ self.old.edits.items ++ fork.edits.items) }
    {
        let Draft { map, mut edits, .. } = fork;
        self.edits.append(&mut edits)?;
        self.map = map;
        Ok(())
    }

    /// Applies the edit to the draft's map if the edit is allowed. If the edit then isn't refused
    /// and changes the map, adds it to the edits of the draft.
    ///
    /// An edit is allowed if a line of a script can express it, if it creates no bucket that its
    /// location names, and if it is only about items in the part of the maps that the plan may
    /// change. The call fails only if memory runs out.
    pub(crate) fn give<B: Allocator>(
        &mut self,
        goal: &PlanGoal<'_, A, B>,
        edit: Edit,
    ) -> Result<(), AllocError>
        ensures { OnOk result (GoesOn goal.now self.old self.new) }
    {
        let is_allowed = self.allows(goal, &edit)?;
        if is_allowed {
            self.make(goal, edit)
        } else {
            Ok(())
        }
    }

    /// Whether the edit is allowed, as [`Draft::give`] explains. The call fails only if memory runs
    /// out.
    fn allows<B: Allocator>(
        &self,
        goal: &PlanGoal<'_, A, B>,
        edit: &Edit,
    ) -> Result<bool, AllocError>
        ensures { IfOk result (λ is_allowed. is_allowed ≡ true → (v : List Row)
            → Stands self.now.map.forest v → Allows goal.now v edit.now) }
    {
        if self.fits(goal, edit) {
            goal.weighs_part(self.alloc, &self.map, edit)
        } else {
            Ok(false)
        }
    }

    /// Whether the edit meets all conditions for allowed edits, except for the one condition that
    /// `PlanGoal::weighs_part` tests.
    fn fits<B: Allocator>(&self, goal: &PlanGoal<'_, A, B>, edit: &Edit) -> bool
        ensures said { result ≡ true → IsSaid edit.now }
        ensures there { result ≡ true → (v : List Row) → Stands self.now.map.forest v
            → are_there v (location_of edit.now) ≡ true }
        ensures concerned { result ≡ true → (t u v : List Row)
            → Stands goal.now.before.now.forest t → Stands goal.now.wanted.now.forest u
            → Stands self.now.map.forest v
            → concerns t u (option_map (λ n. n.now) goal.now.under) v edit.now ≡ true }
    {
        is_expressible(edit) && is_located(&self.map, edit) && goal.concerns(&self.map, edit)
    }

    /// Applies an allowed edit to the draft's map. If the edit isn't refused and changes the map,
    /// adds it to the edits of the draft.
    fn make<B: Allocator>(
        &mut self,
        goal: &PlanGoal<'_, A, B>,
        edit: Edit,
    ) -> Result<(), AllocError>
        requires allowed { (v : List Row) → Stands self.old.map.forest v → Allows goal.now v edit }
        ensures { OnOk result (GoesOn goal.now self.old self.new) }
    {
        match self.map.apply(&edit) {
            Ok(done) => self.keep(edit, done.changed),
            Err(EditFault::Refused(_)) => Ok(()),
            Err(EditFault::OutOfMemory) => Err(AllocError),
        }
    }

    /// Appends the edit to the draft's edits if `changed` is true. `changed` says whether the edit
    /// has changed the map, to which it has been applied already.
    fn keep(&mut self, edit: Edit, changed: bool) -> Result<(), AllocError>
        ensures map { self.new.map ≡ self.old.map }
        ensures edits { OnOk result (self.new.edits.items
            ≡ self.old.edits.items ++ (if changed then edit ∷ [] else [])) }
    {
        if changed {
            self.edits.push(edit)?;
        }
        Ok(())
    }

    /// Whether the draft's map has an item with this id and this name.
    pub(crate) fn has_item(&self, id: ItemId, name: &str) -> bool {
        self.map.locate(name) == Some(id)
    }

    /// Returns the location that consists of one bucket of the draft's map. `bucket` is the
    /// bucket's id, and `name` must be its name. If the draft's map has no bucket with this id,
    /// returns an empty location. An edit with an empty location isn't allowed.
    fn place(&self, bucket: BucketId, name: &str) -> Result<Location, AllocError> {
        let mut at = Location::new(self.alloc);
        let Some(kind) = self.map.kind_of(ItemId::Bucket(bucket)) else {
            return Ok(at);
        };
        let Some(kind) = self.map.setting().kind_name(kind) else {
            return Ok(at);
        };
        match at.push(kind.as_bytes(), name.as_bytes()) {
            Ok(()) => Ok(at),
            Err(_) => Err(AllocError),
        }
    }

    /// Calls [`Draft::give`] with an edit that removes the item with this name. The functions below
    /// call [`Draft::give`] with edits of other kinds. In each case, [`Draft::give`] applies the
    /// edit only if it is allowed.
    pub(crate) fn remove<B: Allocator>(
        &mut self,
        goal: &PlanGoal<'_, A, B>,
        name: &[u8],
    ) -> Result<(), AllocError>
        ensures { OnOk result (GoesOn goal.now self.old self.new) }
    {
        let name = copy_name(self.alloc, name)?;
        self.give(goal, Edit::Remove { name })
    }

    /// Calls [`Draft::give`] with an edit that swaps the two buckets with these names.
    pub(crate) fn swap<B: Allocator>(
        &mut self,
        goal: &PlanGoal<'_, A, B>,
        a: &[u8],
        b: &[u8],
    ) -> Result<(), AllocError>
        ensures { OnOk result (GoesOn goal.now self.old self.new) }
    {
        let a = copy_name(self.alloc, a)?;
        let b = copy_name(self.alloc, b)?;
        self.give(goal, Edit::Swap { a, b })
    }

    /// Calls [`Draft::give`] with an edit that renames the bucket `from` to `to`.
    pub(crate) fn rename_bucket<B: Allocator>(
        &mut self,
        goal: &PlanGoal<'_, A, B>,
        from: &[u8],
        to: &[u8],
    ) -> Result<(), AllocError>
        ensures { OnOk result (GoesOn goal.now self.old self.new) }
    {
        let from = copy_name(self.alloc, from)?;
        let to = copy_name(self.alloc, to)?;
        self.give(goal, Edit::Rename { from, to })
    }

    /// Calls [`Draft::give`] with an edit that creates an empty bucket with this name. `kind` is
    /// the name of the bucket's type.
    pub(crate) fn add_bucket<B: Allocator>(
        &mut self,
        goal: &PlanGoal<'_, A, B>,
        name: &[u8],
        kind: &[u8],
    ) -> Result<(), AllocError>
        ensures { OnOk result (GoesOn goal.now self.old self.new) }
    {
        let name = copy_name(self.alloc, name)?;
        let kind = copy_name(self.alloc, kind)?;
        self.give(goal, Edit::AddBucket { name, kind })
    }

    /// Calls [`Draft::give`] with an edit that moves the item with the name `name` into a bucket.
    /// `bucket` and `bucket_name` are the id and the name of this bucket in the draft's map.
    pub(crate) fn relocate<B: Allocator>(
        &mut self,
        goal: &PlanGoal<'_, A, B>,
        name: &[u8],
        bucket: BucketId,
        bucket_name: &str,
    ) -> Result<(), AllocError>
        ensures { OnOk result (GoesOn goal.now self.old self.new) }
    {
        let name = copy_name(self.alloc, name)?;
        let at = self.place(bucket, bucket_name)?;
        self.give(goal, Edit::Move { name, at })
    }

    /// Calls [`Draft::give`] with an edit that sets the weight of the device with this name.
    pub(crate) fn reweight<B: Allocator>(
        &mut self,
        goal: &PlanGoal<'_, A, B>,
        name: &[u8],
        weight: Weight,
    ) -> Result<(), AllocError>
        ensures { OnOk result (GoesOn goal.now self.old self.new) }
    {
        let name = copy_name(self.alloc, name)?;
        self.give(goal, Edit::Reweight { name, weight })
    }

    /// Calls [`Draft::give`] with an edit that sets the weight of each device below the bucket to
    /// `weight`. Does nothing if the draft's map doesn't have the bucket.
    pub(crate) fn reweight_below<B: Allocator>(
        &mut self,
        goal: &PlanGoal<'_, A, B>,
        bucket: BucketId,
        weight: Weight,
    ) -> Result<(), AllocError>
        ensures { OnOk result (GoesOn goal.now self.old self.new) }
    {
        let Some(name) = self.map.name_of(ItemId::Bucket(bucket)) else {
            return Ok(());
        };
        let name = copy_name(self.alloc, name.as_bytes())?;
        self.give(goal, Edit::ReweightSubtree { name, weight })
    }

    /// Calls [`Draft::give`] with an edit that adds the device to a bucket. `bucket` and
    /// `bucket_name` are the id and the name of this bucket in the draft's map.
    pub(crate) fn insert<B: Allocator>(
        &mut self,
        goal: &PlanGoal<'_, A, B>,
        device: NewDevice<'_>,
        bucket: BucketId,
        bucket_name: &str,
    ) -> Result<(), AllocError>
        ensures { OnOk result (GoesOn goal.now self.old self.new) }
    {
        let name = copy_name(self.alloc, device.name.as_bytes())?;
        let at = self.place(bucket, bucket_name)?;
        let edit = Edit::Place {
            how: Placing::Insert,
            device: device.id,
            name,
            weight: device.weight,
            at,
        };
        self.give(goal, edit)
    }

    /// Calls [`Draft::give`] with an edit that removes the class of the device with this name.
    pub(crate) fn remove_class<B: Allocator>(
        &mut self,
        goal: &PlanGoal<'_, A, B>,
        name: &[u8],
    ) -> Result<(), AllocError>
        ensures { OnOk result (GoesOn goal.now self.old self.new) }
    {
        let name = copy_name(self.alloc, name)?;
        self.give(goal, Edit::RemoveClass { name })
    }

    /// Calls [`Draft::give`] with an edit that sets the class of the device with this name.
    pub(crate) fn set_class<B: Allocator>(
        &mut self,
        goal: &PlanGoal<'_, A, B>,
        name: &[u8],
        class: &[u8],
    ) -> Result<(), AllocError>
        ensures { OnOk result (GoesOn goal.now self.old self.new) }
    {
        let name = copy_name(self.alloc, name)?;
        let class = copy_name(self.alloc, class)?;
        self.give(goal, Edit::SetClass { name, class })
    }
}

/// A device that an edit adds to the map, with the weight that the device gets.
#[derive(Drop)]
pub(crate) struct NewDevice<'a> {
    pub id: DeviceId,
    pub name: &'a str,
    pub weight: Weight,
}

/// Whether the edit creates no bucket that its location names. An edit that has a location passes
/// this test only if the location consists of exactly one bucket, and the map has an item with this
/// bucket's name. An edit of a kind that has no location always passes.
fn is_located<A: Allocator>(map: &CrushMap<A>, edit: &Edit) -> bool
    ensures { result ≡ true → (v : List Row) → Stands map.now.forest v
        → are_there v (location_of edit.now) ≡ true }
{
    match edit {
        Edit::Place { at, .. } => is_there(map, at),
        Edit::Move { at, .. } => is_there(map, at),
        Edit::Swap { .. } => true,
        Edit::Reweight { .. } => true,
        Edit::ReweightSubtree { .. } => true,
        Edit::Remove { .. } => true,
        Edit::AddBucket { .. } => true,
        Edit::Rename { .. } => true,
        Edit::SetClass { .. } => true,
        Edit::RemoveClass { .. } => true,
    }
}

/// Whether the location consists of exactly one bucket, and the map has an item with this bucket's
/// name. If this item is a device, or a bucket of another type, the map refuses the edit when it is
/// applied.
fn is_there<A: Allocator>(map: &CrushMap<A>, at: &Location) -> bool
    ensures { result ≡ true → (v : List Row) → Stands map.now.forest v
        → are_there v at.now ≡ true }
{
    match at.pairs() {
        [pair] => map.locate(pair.name.as_str()).is_some(),
        _ => false,
    }
}
