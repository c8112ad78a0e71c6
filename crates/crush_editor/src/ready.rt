//! The memory that an editor allocates for a call before it acquires its lock.

ghost use Rattle.std.specs.Prelude.{◌≡◌, ◌<◌, IfOk, OnOk, vec_len, vec_capacity};
ghost use Rattle.crush_editor.specs.History.{slip};

use crush_history::{Call, Reply, Slip};
use std::alloc::{AllocError, Global};

/// A copy of a call, for the call's slip. A slip is an answered call with its reply, and the
/// operator's [`Seat`](crate::Seat) keeps the slip. Only [`Ready::new`] creates a `Ready`, and it
/// first reserves room for one more slip in the seat's vector of slips. So when `Ready::new`
/// succeeds, there is both the copy and the room.
#[derive(Drop)]
pub(crate) struct Ready {
    for_slip: Call,
}

impl Ready {
    /// Reserves room for one more slip in `slips`, and copies the call for this slip. Returns an
    /// error if memory runs out. The slips that `slips` contains are unchanged in any case.
    pub(crate) fn new(
        alloc: Global,
        slips: &mut Vec<Slip>,
        call: &Call,
    ) -> Result<Ready, AllocError>
        ensures slips { slips.new.items ≡ slips.old.items }
        ensures copy { IfOk result (λ ready. ready.for_slip ≡ call.now) }
        ensures room { OnOk result (vec_len slips.new < vec_capacity slips.new) }
    {
        slips.reserve(1)?;
        let for_slip = call.try_copy(alloc)?;
        Ok(Ready { for_slip })
    }

    /// Returns the slip of the call with this reply, without allocating memory.
    pub(crate) fn into_slip(self, reply: Reply) -> Slip
        ensures { result ≡ slip self.for_slip reply }
    {
        let Ready { for_slip } = self;
        Slip {
            call: for_slip,
            reply,
        }
    }
}
