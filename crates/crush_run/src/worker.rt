//! The work of a worker, which makes the calls of one operator in order, and the values that all
//! workers share.

ghost use Rattle.std.specs.Prelude.{◌≡◌, []};
ghost use Rattle.crush_run.specs.Script.{HasRun};

use crate::gate::Gate;
use crush_editor::{Desk, Editor, Seat, SubmitFault, Unsubmitted, WithoutSnapshot};
use crush_history::Call;
use std::alloc::Global;
use std::snapshot::Snapshot;
use std::sync::Wait;
use std::thread::Promise;

/// The result of a worker. The seat has a slip for each answered call, that is, a copy of the call
/// with its reply. If a fault stopped the worker, the result also has this fault.
#[derive(Drop)]
pub(crate) struct Finished<N: Desk> {
    pub(crate) seat: Seat<N>,
    pub(crate) fault: Option<SubmitFault>,
}

/// The promise of a worker to make the calls of an operator's script with the operator's seat. The
/// worker itself owns the calls. The snapshot of the calls in this type is only for contracts, and
/// has no data when the program runs.
#[derive(Drop)]
pub(crate) struct Task {
    /// The operator's number, from 0.
    pub(crate) operator: usize,
    pub(crate) calls: Snapshot<Vec<Call>>,
}

impl<N: Desk> Promise<Finished<N>> for Task {
    ghost use Rattle.crush_run.specs.Script.{HasRun};

    ghost kept_by = { λ t r. HasRun t.operator t.calls.value.items r.seat r.fault };
}

/// The values that the workers of a run share.
#[derive(Drop)]
pub(crate) struct Crew<'s, N: Desk, G, R> {
    pub(crate) rt: &'s R,
    /// The memory in which the slips of the calls are stored.
    pub(crate) alloc: Global,
    pub(crate) editor: &'s Editor<N, WithoutSnapshot>,
    pub(crate) gate: &'s G,
}

impl<'s, N: Desk, G: Gate, R: Wait> Crew<'s, N, G, R> {
    /// Makes the calls in order with this seat. Stops at the first call that fails. A call that
    /// succeeds is moved into its entry of the history.
    pub(crate) fn work(&self, mut seat: Seat<N>, calls: Vec<Call>) -> Finished<N>
        requires { seat.slips ≡ [] }
        ensures { HasRun seat.operator calls.items result.seat result.fault }
    {
        let operator = seat.operator();
        let mut number = 0;
        for call in calls {
            self.gate.before(self.rt, operator, number);
            let outcome = self
                .editor
                .submit_copied(self.rt, self.alloc, &mut seat, call);
            self.gate.after(self.rt, operator, number);
            match outcome {
                Ok(_reply) => number += 1,
                Err(Unsubmitted { fault, .. }) => {
                    return Finished {
                        seat,
                        fault: Some(fault),
                    };
                }
            }
        }
        Finished { seat, fault: None }
    }
}
