//! Calls of operators, and the replies to them.

ghost use Rattle.std.specs.Prelude.{◌≡◌, ◌≤◌, ◌<◌, ◌++◌, ◌∷◌, [], length, nat_lt, IfOk, OnOk};
ghost use Rattle.crush_units.specs.declared.limits.TheConstants.{MOST_EDITS};
ghost use Rattle.crush_history.specs.SameEdits.{same_edits, same_edits_equiv};

use crush_edits::{Done, Dones, Edit, Refusal};
use crush_units::limits::MOST_EDITS;
use std::alloc::{AllocError, AllocFailed, Global};
use std::marker::Model;

/// The edits of a batch, at most 65,536.
#[derive(Debug, Drop)]
pub struct Edits {
    edits: Vec<Edit>,
}

impl Model for Edits {
    ghost use Rattle.std.specs.Prelude.{List, ◌≤◌, length};
    ghost use Rattle.crush_edits.specs.declared.edit.Edit.{Edit};
    ghost use Rattle.crush_units.specs.declared.limits.TheConstants.{MOST_EDITS};

    ghost Value = { List Edit };

    ghost view = { λ batch. batch.edits.items };

    ghost invariant = { λ batch. length batch.edits.items ≤ MOST_EDITS };
}

impl PartialEq for Edits {
    ghost use Rattle.std.specs.Cmp.{partial_equiv_from_equiv};

    ghost eq = { same_edits };

    ghost laws = { partial_equiv_from_equiv same_edits_equiv };

    fn eq(&self, other: &Edits) -> bool {
        self.edits == other.edits
    }
}

impl Eq for Edits {
    ghost laws = { same_edits_equiv };
}

/// One call of an operator: an edit or a batch, which is applied completely or not at all.
#[derive(Debug, PartialEq, Eq, Drop)]
pub enum Call {
    /// One edit.
    One(Edit),
    /// A batch. Each edit is applied to the result of the edits before it in the batch. Either all
    /// edits of the batch are applied, or none is.
    Batch(Edits),
    /// A guarded batch. If exactly `seen` earlier calls of the history have changed the map, the
    /// guarded batch is applied like a `Batch`. Otherwise the reply is [`Reply::Stale`].
    Guarded { seen: u32, edits: Edits },
}

/// The result of a call. Only a call with the reply `Done` or `Dones` can have changed the map.
#[derive(Clone, Copy, Debug, PartialEq, Eq)]
pub enum Reply {
    /// The edit was applied.
    Done(Done),
    /// All edits of the batch were applied.
    Dones(Dones),
    /// The edit was refused.
    Refused(Refusal),
    /// An edit of the batch was refused, so no edit of the batch was applied. The first value is
    /// the index of the first refused edit, from 0. The second value says why this edit was
    /// refused.
    BatchRefused(u32, Refusal),
    /// The guarded batch wasn't applied, because its `seen` isn't the number of earlier calls of
    /// the history that have changed the map. The value is this number of earlier calls.
    Stale(u32),
}

impl Edits {
    /// Returns a batch of the given edits, in the given order. The caller guarantees that there are
    /// at most 65,536 edits.
    pub fn new(edits: Vec<Edit>) -> Edits
        requires { length edits.items ≤ MOST_EDITS }
        ensures { result ≡ edits.items }
    {
        Edits { edits }
    }

    /// Returns the edits in order, at most 65,536.
    pub fn as_slice(&self) -> &[Edit]
        ensures value { result.now ≡ self.now }
        ensures few { length self.now ≤ MOST_EDITS }
    {
        self.edits.as_slice()
    }

    /// Whether the batch has fewer than 65,536 edits, so that another one can be added.
    pub fn has_room(&self) -> bool
        ensures { result ≡ nat_lt (length self.now) MOST_EDITS }
    {
        self.edits.len() < MOST_EDITS
    }

    /// Adds an edit at the end of the batch.
    ///
    /// The caller guarantees that the batch has fewer than 65,536 edits. If memory runs out,
    /// returns the edit in the error.
    pub fn push(&mut self, edit: Edit) -> Result<(), AllocFailed<Edit>>
        requires { length self.old < MOST_EDITS }
        ensures { OnOk result (self.new ≡ self.old ++ edit ∷ []) }
    {
        self.edits.push(edit)
    }

    /// Returns a copy of the batch, allocated with `alloc`, or an error if memory runs out.
    pub fn try_copy(&self, alloc: Global) -> Result<Edits, AllocError>
        ensures { IfOk result (λ copy. copy ≡ self.now) }
    {
        let edits = copy_edits(alloc, self.edits.as_slice())?;
        Ok(Edits { edits })
    }
}

impl Call {
    /// Returns a copy of the call, allocated with `alloc`, or an error if memory runs out.
    ///
    /// An operator owns its call and lends it only while the call runs, so a history keeps a copy.
    pub fn try_copy(&self, alloc: Global) -> Result<Call, AllocError>
        ensures { IfOk result (λ copy. copy ≡ self.now) }
    {
        match self {
            Call::One(edit) => Ok(Call::One(edit.try_copy(alloc)?)),
            Call::Batch(edits) => Ok(Call::Batch(edits.try_copy(alloc)?)),
            Call::Guarded { seen, edits } => Ok(Call::Guarded {
                seen: *seen,
                edits: edits.try_copy(alloc)?,
            }),
        }
    }
}

/// Returns copies of the edits, in the same order, in a vector that is allocated with `alloc`.
/// Returns an error if memory runs out.
pub fn copy_edits(alloc: Global, edits: &[Edit]) -> Result<Vec<Edit>, AllocError>
    ensures { IfOk result (λ copies. copies.items ≡ edits.now) }
{
    let mut copies = Vec::with_capacity(alloc, edits.len())?;
    for edit in edits {
        let copy = edit.try_copy(alloc)?;
        copies.push(copy)?;
    }
    Ok(copies)
}
