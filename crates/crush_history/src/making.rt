//! Makes one call on a map: applies the call's edit or batch.

ghost use Rattle.std.specs.Prelude.{◌≡◌, ◌≤◌, ℕ, length, IfOk, OnErr};
ghost use Rattle.crush_units.specs.declared.limits.TheConstants.{MOST_EDITS};
ghost use Rattle.crush_history.specs.Turns.{Makes};

use crate::call::{Call, Reply};
use crush_edits::{BatchFault, Edit, EditFault};
use crush_map::CrushMap;
use std::alloc::{AllocError, Allocator};

/// Applies one edit. If the edit is refused, the reply says why. If memory runs out, returns an
/// error, and the map is unchanged.
fn make_edit<A: Allocator + Clone>(map: &mut CrushMap<A>, edit: &Edit) -> Result<Reply, AllocError>
    ensures made { IfOk result (λ reply. (n : ℕ)
        → Makes n map.old map.new (Call.One edit.now) reply) }
    ensures unchanged { OnErr result (map.new ≡ map.old) }
{
    match map.apply(edit) {
        Ok(done) => Ok(Reply::Done(done)),
        Err(EditFault::Refused(refusal)) => Ok(Reply::Refused(refusal)),
        Err(EditFault::OutOfMemory) => Err(AllocError),
    }
}

/// Applies a batch of edits. If an edit is refused, the reply says which edit, and why. If memory
/// runs out, returns an error, and the map is unchanged.
fn make_batch<A: Allocator + Clone>(
    map: &mut CrushMap<A>,
    edits: &[Edit],
) -> Result<Reply, AllocError>
    requires { length edits.now ≤ MOST_EDITS }
    ensures made { IfOk result (λ reply. (n : ℕ)
        → Makes n map.old map.new (Call.Batch edits.now) reply) }
    ensures unchanged { OnErr result (map.new ≡ map.old) }
{
    match map.apply_batch(edits) {
        Ok(dones) => Ok(Reply::Dones(dones)),
        Err(BatchFault::Refused(index, refusal)) => Ok(Reply::BatchRefused(index, refusal)),
        Err(BatchFault::OutOfMemory) => Err(AllocError),
    }
}

/// Applies a batch if `count` equals `seen`. `count` is the number of earlier calls that have
/// changed the map. If the two numbers differ, the reply is [`Reply::Stale`].
fn make_guarded<A: Allocator + Clone>(
    map: &mut CrushMap<A>,
    count: u32,
    seen: u32,
    edits: &[Edit],
) -> Result<Reply, AllocError>
    requires { length edits.now ≤ MOST_EDITS }
    ensures made { IfOk result (Makes count map.old map.new (Call.Guarded seen edits.now)) }
    ensures unchanged { OnErr result (map.new ≡ map.old) }
{
    if seen != count {
        return Ok(Reply::Stale(count));
    }
    make_batch(map, edits)
}

/// Makes one call on a map, and returns its reply.
///
/// `count` is the number of calls in the history so far that have changed the map. A guarded batch
/// is applied only if its `seen` equals `count`. If the reply is a refusal or [`Reply::Stale`], the
/// map represents the same tables of the model as before, so the contents of the map haven't
/// changed. Returns an error only if memory runs out. Then the map is unchanged.
pub fn make_call<A: Allocator + Clone>(
    map: &mut CrushMap<A>,
    count: u32,
    call: &Call,
) -> Result<Reply, AllocError>
    ensures made { IfOk result (Makes count map.old map.new call.now) }
    ensures unchanged { OnErr result (map.new ≡ map.old) }
{
    match call {
        Call::One(edit) => make_edit(map, edit),
        Call::Batch(edits) => make_batch(map, edits.as_slice()),
        Call::Guarded { seen, edits } => make_guarded(map, count, *seen, edits.as_slice()),
    }
}
