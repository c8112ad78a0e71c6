//! The lock of an editor. Only this file can acquire the lock. To acquire it, a function needs the
//! permission to wait ([`Wait`]). To acquire it for a call, a function also needs the memory for
//! the call's slip (the answered call with its reply).

ghost use Rattle.std.specs.Prelude.{◌≡◌, ◌<◌, ◌≤◌, length, vec_len, vec_capacity};
ghost use mathlib.Core.Logic.{◌↔◌};
ghost use mathlib.Core.List.{IsPrefix};
ghost use Rattle.crush_units.specs.declared.limits.TheConstants.{MOST_ENTRIES};
ghost use Rattle.crush_editor.specs.History.{IsLegalFrom};
ghost use Rattle.crush_editor.specs.Seat.{reads, seen_of};

use crate::book::SubmitFault;
use crate::law::{MapGauge, Reader};
use crate::locked::{Desk, Locked};
use crate::opening::KeptOpening;
use crate::ready::Ready;
use crush_history::Slip;
use std::sync::{Mutex, MutexGuard, Wait};

/// The lock, with what it protects: the book (the map with its history), and the number of answered
/// calls, which exists only in contracts.
#[derive(Drop)]
pub(crate) struct StateLock<N: Desk, O: KeptOpening> {
    state: Mutex<Locked<N, O>>,
}

impl<N: Desk, O: KeptOpening> StateLock<N, O> {
    pub(crate) fn new(locked: Locked<N, O>) -> StateLock<N, O> {
        StateLock {
            state: Mutex::new(locked),
        }
    }

    /// Acquires the lock for a call. The caller proves that memory for the call's slip is
    /// allocated: there is room in `slips`, and `ready` has the copy of the call.
    pub(crate) fn lock(
        &self,
        rt: &impl Wait,
        slips: &Vec<Slip>,
        ready: &Ready,
    ) -> MutexGuard<'_, Locked<N, O>>
        requires { vec_len slips.now < vec_capacity slips.now }
    {
        let _slips = slips;
        let _ready = ready;
        self.state.lock(rt)
    }

    /// Acquires the lock, and returns the fault of a call that couldn't be copied because memory
    /// ran out. The fault is `Full` if the history is full, and otherwise `OutOfMemory`. Afterwards
    /// `reader`, with which the operator reads the gauge, has seen the whole history. (The gauge is
    /// the word that contains the number of changes and the map's total weight.)
    pub(crate) fn refuse(
        &self,
        rt: &impl Wait,
        gauge: &MapGauge,
        reader: &mut Reader,
    ) -> SubmitFault
        requires gauge { gauge.now.table.shared.table_id ≡ N.gauge }
        requires reader { (reader.old.table ≡ N.gauge)
            × (reader.old.view ≡ reads N.opening (seen_of reader.old.view)) }
        ensures table { reader.new.table ≡ N.gauge }
        ensures reader { reader.new.view ≡ reads N.opening (seen_of reader.new.view) }
        ensures begins { IsPrefix (seen_of reader.old.view) (seen_of reader.new.view) }
        ensures legal { IsLegalFrom N.opening (seen_of reader.new.view) }
        ensures full { (result ≡ SubmitFault.Full)
            ↔ (length (seen_of reader.new.view) ≡ MOST_ENTRIES) }
        ensures few { length (seen_of reader.new.view) ≤ MOST_ENTRIES }
    {
        self.state.lock(rt).refuse(gauge, reader)
    }

    /// Returns what the lock protects. The caller owns the lock. So no other thread can hold it,
    /// and the method doesn't wait.
    pub(crate) fn into_inner(self) -> Locked<N, O> {
        let StateLock { state } = self;
        state.into_inner()
    }
}
