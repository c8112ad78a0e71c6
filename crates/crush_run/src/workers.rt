//! Starts a worker for each operator, in a thread of its own, and waits for all of them.

ghost use Rattle.std.specs.Prelude.{◌≡◌, ℕ, ◌<◌, ◌≤◌, [], length, vec_len, IfSome, IfOk, IfErr, slice_index_or};
ghost use denote.Param.Send.{IsSync, IsSend};
ghost use Rattle.crush_run.specs.Script.{AreFresh, HasRun, HasRunScript, IsTask};
ghost use Rattle.crush_run.specs.Stages.{IsAtOnceFault};

use crate::gate::Gate;
use crate::worker::{Crew, Finished, Task};
use crush_editor::{Desk, Seat};
use crush_history::{Call, Script};
use crush_input::RunFault;
use std::alloc::Global;
use std::snapshot::Snapshot;
use std::sync::Wait;
use std::thread;
use std::thread::{PromisedHandle, Scope, Threads};

impl<'s, N: Desk + Send + Sync, G: Gate + Sync, R: Threads + Wait + Sync> Crew<'s, N, G, R> {
    /// Starts the thread of one operator, which makes its calls with its [`Seat`]. Returns `None`
    /// if no thread can be created.
    fn start<E>(
        &self,
        scope: &Scope<'s, E>,
        seat: Seat<N>,
        calls: Vec<Call>,
    ) -> Option<PromisedHandle<Finished<N>, Task>>
        requires { seat.slips ≡ [] }
        ensures { IfSome result (λ handle. (handle.promise.operator ≡ seat.operator)
            × (handle.promise.calls.value.items ≡ calls.items)) }
    {
        let task = Task {
            operator: seat.operator(),
            calls: Snapshot::of(&calls),
        };
        let (rt, alloc, editor, gate) = (self.rt, self.alloc, self.editor, self.gate);
        let job = move || -> Finished<N>
            requires { seat.slips ≡ [] }
            ensures { HasRun seat.operator calls.items result.seat result.fault }
        {
            let crew = Crew {
                rt,
                alloc,
                editor,
                gate,
            };
            crew.work(seat, calls)
        };
        scope.spawn_with(task, job).ok()
    }

    /// Starts a worker for each seat. The worker runs the script that has the same position as its
    /// seat. If a worker can't be started, fails with [`RunFault::Thread`], and the workers that
    /// were already started continue. If there is no memory for the list of workers, fails with
    /// [`RunFault::Memory`], and starts no worker.
    fn start_all<E>(
        &self,
        scope: &Scope<'s, E>,
        seats: Vec<Seat<N>>,
        scripts: Vec<Script>,
    ) -> Result<Vec<PromisedHandle<Finished<N>, Task>>, RunFault>
        requires count { vec_len seats ≡ vec_len scripts }
        requires fresh { AreFresh (vec_len seats) seats.items }
        ensures count { IfOk result (λ handles. vec_len handles ≡ vec_len scripts) }
        ensures each { IfOk result (λ handles. (k : ℕ) (d : _) (e : _) → k < vec_len handles
            → IsTask scripts.items e k (slice_index_or handles.items k d).promise.operator
            (slice_index_or handles.items k d).promise.calls.value.items) }
        ensures fault { IfErr result IsAtOnceFault }
    {
        let Ok(mut handles) = Vec::with_capacity(self.alloc, scripts.len()) else {
            return Err(RunFault::Memory);
        };
        let mut rest = scripts.into_iter();
        for seat in seats {
            let Some(script) = rest.next() else {
                unreachable!()
            };
            let Script { name: _, calls } = script;
            let Some(handle) = self.start(scope, seat, calls) else {
                return Err(RunFault::Thread);
            };
            handles.push_reserved(handle);
        }
        Ok(handles)
    }

    /// Starts a worker for each script, waits for all workers that were started, and returns their
    /// results in the order of the scripts. If a worker couldn't be started, the fault is
    /// [`RunFault::Thread`], even if other workers stopped with another fault. If memory runs out
    /// for the lists of workers and of their results, the fault is [`RunFault::Memory`].
    pub(crate) fn run_all(
        &self,
        seats: Vec<Seat<N>>,
        scripts: Vec<Script>,
    ) -> Result<Vec<Finished<N>>, RunFault>
        requires count { vec_len seats ≡ vec_len scripts }
        requires fresh { AreFresh (vec_len seats) seats.items }
        ensures count { IfOk result (λ done. vec_len done ≡ vec_len scripts) }
        ensures each { IfOk result (λ done. (k : ℕ) (d : _) (e : _) → k < vec_len scripts
            → HasRunScript scripts.items e k (slice_index_or done.items k d).seat
            (slice_index_or done.items k d).fault) }
        ensures fault { IfErr result IsAtOnceFault }
    {
        thread::scope(
            thread::scope_env(),
            self.rt,
            |scope| -> Result<Vec<Finished<N>>, RunFault>
                requires { IsSend N.row × IsSync N.row × IsSync G.row × IsSync R.row
                    × (vec_len seats ≡ vec_len scripts)
                    × AreFresh (vec_len seats) seats.items }
                ensures { IfOk result (λ done. (vec_len done ≡ vec_len scripts)
                    × ((k : ℕ) (d : _) (e : _) → k < vec_len scripts
                    → HasRunScript scripts.items e k (slice_index_or done.items k d).seat
                    (slice_index_or done.items k d).fault))
                    × IfErr result IsAtOnceFault }
            {
                let whole = Snapshot::of(&scripts);
                let handles = self.start_all(scope, seats, scripts)?;
                join_all(self.rt, handles, whole)
            },
        )
    }
}

/// Waits for the workers, and returns their results in the order of the scripts.
fn join_all<N: Desk, R: Threads>(
    rt: &R,
    handles: Vec<PromisedHandle<Finished<N>, Task>>,
    scripts: Snapshot<Vec<Script>>,
) -> Result<Vec<Finished<N>>, RunFault>
    requires count { vec_len handles ≡ length scripts.value.items }
    requires each { (k : ℕ) (d : _) (e : _) → k < vec_len handles
        → IsTask scripts.value.items e k (slice_index_or handles.items k d).promise.operator
        (slice_index_or handles.items k d).promise.calls.value.items }
    ensures count { IfOk result (λ done. vec_len done ≡ length scripts.value.items) }
    ensures each { IfOk result (λ done. (k : ℕ) (d : _) (e : _) → k < length scripts.value.items
        → HasRunScript scripts.value.items e k (slice_index_or done.items k d).seat
        (slice_index_or done.items k d).fault) }
    ensures fault { IfErr result (λ fault. fault ≡ RunFault.Memory) }
{
    let _scripts = scripts;
    match thread::join_promised(rt, handles) {
        Ok(finished) => Ok(finished),
        Err(_) => Err(RunFault::Memory),
    }
}
