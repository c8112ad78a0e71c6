//! The calls that edit a map: one edit, or a batch of edits.

ghost use Rattle.std.specs.Prelude.{◌≡◌, ℕ, ◌≤◌, List, length, IfOk, OnErr, true, false};
ghost use Rattle.crush_units.specs.declared.limits.TheConstants.{MOST_EDITS};
ghost use Rattle.crush_model.specs.Table.{Row};
ghost use Rattle.crush_model.specs.Stands.{Stands};
ghost use Rattle.crush_edits.specs.declared.refusal.Refusal.{Refusal as DeclaredRefusal};
ghost use Rattle.crush_edits.specs.Answer.{refused};
ghost use Rattle.crush_edits.specs.Batch.{batch, batch_refused};
ghost use Rattle.crush_edits.specs.Edit.{edit, takes_memory, sets_weights};
ghost use Rattle.crush_apply.specs.Answered.{KeepsRooms};
ghost use Rattle.crush_apply.specs.AsBefore.{IsAsBefore};
ghost use Rattle.crush_apply.specs.Batched.{IsBatchDone};
ghost use Rattle.crush_apply.specs.Culprit.{culprit};
ghost use Rattle.crush_edits.specs.Outcome.{IsDone, IsChange};

use crate::map::CrushMap;
use crush_apply::{apply_batch, apply_edit, culprit};
use crush_edits::{BatchFault, Done, Dones, Edit, EditFault, Refusal};
use crush_units::Name;
use std::alloc::{Allocator, Global};

impl<A: Allocator> CrushMap<A> {
    /// Applies one edit to the map, and returns whether it changed the map and how many buckets it
    /// created.
    ///
    /// Returns [`EditFault::Refused`] if there is a reason to refuse the edit. If there are several
    /// reasons, the error names the reason that comes first in the list of [`Refusal`]. Returns
    /// [`EditFault::OutOfMemory`] only if there is no reason to refuse the edit and the edit would
    /// change the map. Edits that set weights, swap two buckets, or remove an item or a class never
    /// run out of memory. After an error the map is exactly as before, including the spare capacity
    /// of its vectors.
    pub fn apply(&mut self, requested: &Edit) -> Result<Done, EditFault>
    where
        A: Clone,
        ensures done { IfOk result (λ d. (t : List Row) → Stands self.old.forest t
            → IsDone (Stands self.new.forest) (edit self.old.setting t requested.now) d) }
        ensures refused { (r : DeclaredRefusal) → result ≡ Err (EditFault.Refused r)
            → (t : List Row) → Stands self.old.forest t
            → edit self.old.setting t requested.now ≡ refused r }
        ensures change { result ≡ Err EditFault.OutOfMemory
            → (t : List Row) → Stands self.old.forest t
            → IsChange (edit self.old.setting t requested.now) }
        ensures memory { result ≡ Err EditFault.OutOfMemory → takes_memory requested.now ≡ true }
        ensures rooms { sets_weights requested.now ≡ true
            → KeepsRooms self.old.forest self.new.forest }
        ensures unchanged { OnErr result (self.new ≡ self.old) }
        ensures still { IfOk result (λ d. d.changed ≡ false → self.new ≡ self.old) }
        ensures setting { self.new.setting ≡ self.old.setting }
    {
        apply_edit(&mut self.hierarchy, &self.setting, requested)
    }

    /// Returns the name in the edit that the refusal is about. A caller can print this name in a
    /// message.
    ///
    /// If a name in the edit's location is at fault, the result is this name. It is the name of a
    /// type, or the name that the location gives for a bucket. If the type of a new bucket is at
    /// fault, the result is the name of this type. For a swap, the result is the first name, unless
    /// only the second name is at fault. For a rename, the result is the new name if this name is
    /// at fault, and otherwise the old name. In all other cases the result is the name of the item
    /// to edit.
    ///
    /// Call this method on the map that refused the edit. For an edit of a batch, this is the map
    /// after the previous edits of the batch. A failed batch undoes these edits, so the caller has
    /// to apply them again before this call.
    pub fn culprit<'a>(&self, requested: &'a Edit, refusal: Refusal) -> &'a Name<Global>
        ensures { (t : List Row) → Stands self.now.forest t
            → result.now ≡ culprit self.now.setting t requested.now refusal }
    {
        culprit(&self.hierarchy, &self.setting, requested, refusal)
    }

    /// Applies a batch of at most 65,536 edits in order: either all of them, or none.
    ///
    /// Each edit is applied to the map that the previous edits of the batch have produced. Returns
    /// how many edits the batch has, how many of them changed the map, and how many buckets they
    /// created. If an edit is refused, returns [`BatchFault::Refused`] with the index of the first
    /// refused edit, from 0, and with the refusal. Returns [`BatchFault::OutOfMemory`] if memory
    /// runs out, even if a later edit would be refused. After an error the map is exactly as
    /// before, including the spare capacity of its vectors, because the edits that were already
    /// applied are undone.
    pub fn apply_batch(&mut self, edits: &[Edit]) -> Result<Dones, BatchFault>
    where
        A: Clone,
        requires few { length edits.now ≤ MOST_EDITS }
        ensures done { IfOk result (λ d. (t : List Row) → Stands self.old.forest t
            → IsBatchDone (Stands self.new.forest) (batch self.old.setting t edits.now) d) }
        ensures refused { (index : ℕ) (r : DeclaredRefusal)
            → result ≡ Err (BatchFault.Refused index r)
            → (t : List Row) → Stands self.old.forest t
            → batch self.old.setting t edits.now ≡ batch_refused index r }
        ensures memory { result ≡ Err BatchFault.OutOfMemory → self.new ≡ self.old }
        ensures unchanged { OnErr result (self.new ≡ self.old) }
        ensures as_before { OnErr result (IsAsBefore self.old.forest self.new.forest) }
        ensures single { length edits.now ≤ 1 → OnErr result (self.new ≡ self.old) }
        ensures setting { self.new.setting ≡ self.old.setting }
    {
        apply_batch(&mut self.hierarchy, &self.setting, edits)
    }
}
