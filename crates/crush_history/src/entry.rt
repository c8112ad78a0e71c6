//! The entries of a history, and which of them changed the map.

ghost use Rattle.std.specs.Prelude.{◌≡◌, ◌<◌, ◌^◌, length, IfOk};
ghost use Rattle.crush_history.specs.History.{changes, is_change};

use crate::call::{Call, Reply};
use std::alloc::{AllocError, Global};

/// One entry of a history: a call, its reply, and the operator that made the call.
#[derive(Debug, PartialEq, Eq, Drop)]
pub struct Entry {
    /// The operator's index, from 0. In a job, it is the position of the operator's script among
    /// the job's scripts.
    pub operator: usize,
    /// The call that the operator made.
    pub call: Call,
    /// The reply to the call.
    pub reply: Reply,
}

/// A call and its reply: an [`Entry`] without the operator's index. An operator stores its own
/// calls and their replies in this form.
#[derive(Debug, PartialEq, Eq, Drop)]
pub struct Slip {
    /// The call that the operator made.
    pub call: Call,
    /// The reply to the call.
    pub reply: Reply,
}

impl Entry {
    /// Returns a copy of the entry, allocated with `alloc`, or an error if memory runs out.
    pub fn try_copy(&self, alloc: Global) -> Result<Entry, AllocError>
        ensures { IfOk result (λ copy. copy ≡ self.now) }
    {
        Ok(Entry {
            operator: self.operator,
            call: self.call.try_copy(alloc)?,
            reply: self.reply,
        })
    }
}

impl Slip {
    /// Returns a copy of the call and its reply, allocated with `alloc`, or an error if memory runs
    /// out.
    pub fn try_copy(&self, alloc: Global) -> Result<Slip, AllocError>
        ensures { IfOk result (λ copy. copy ≡ self.now) }
    {
        Ok(Slip {
            call: self.call.try_copy(alloc)?,
            reply: self.reply,
        })
    }
}

/// Whether the reply says that the call changed the map. A batch counts as a change if at least one
/// edit of the batch changed the map.
pub fn is_change(reply: Reply) -> bool
    ensures { result ≡ is_change reply }
{
    match reply {
        Reply::Done(done) => done.changed,
        Reply::Dones(dones) => dones.changed > 0,
        Reply::Refused(_) => false,
        Reply::BatchRefused(_, _) => false,
        Reply::Stale(_) => false,
    }
}

/// Returns how many of the entries have a reply which says that the call changed the map
/// ([`is_change`]). Visits each entry. The caller guarantees that there are fewer than 2^32
/// entries.
pub fn count_changes(entries: &[Entry]) -> u32
    requires { length entries.now < 2 ^ 32 }
    ensures { result ≡ changes entries.now }
{
    let mut count: u32 = 0;
    for entry in entries {
        if is_change(entry.reply) {
            count += 1;
        }
    }
    count
}
