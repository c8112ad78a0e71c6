//! Runs the scripts of all operators at the same time, each in a worker thread of its own.

ghost use Rattle.std.specs.Prelude.{◌≡◌, ℕ, ◌<◌, ◌≤◌, length, vec_len, IfOk, IfErr, None, slice_index_or};
ghost use Rattle.crush_units.specs.declared.limits.TheConstants.{MOST_ENTRIES, MOST_OPERATORS};
ghost use Rattle.crush_editor.specs.Book.{MakesAll};
ghost use Rattle.crush_run.specs.Script.{Carries};
ghost use Rattle.crush_run.specs.Stages.{IsAtOnceFault};

use crate::gate::Gate;
use crate::worker::{Crew, Finished};
use crush_editor::{Closed, Desk, Editor, Seat, Started, WithoutSnapshot};
use crush_history::Script;
use crush_input::RunFault;
use crush_map::CrushMap;
use std::alloc::Global;
use std::marker::Brand;
use std::sync::Wait;
use std::thread::Threads;

/// Runs the scripts at the same time, each in a thread of its own. Returns the history, and the map
/// after the scripts, but no copy of the map before them.
///
/// The operator of the script with index k has the number k in the history. The caller must pass
/// between 1 and [`MOST_OPERATORS`](crush_units::limits::MOST_OPERATORS) scripts. `gate` is called
/// before and after each call of an operator; [`NoGate`](crate::NoGate) does nothing.
///
/// If a thread can't be started, the function waits until the threads that are already running have
/// finished, and fails with [`RunFault::Thread`]. The only other fault is [`RunFault::Memory`]:
/// memory has run out, or the scripts together have more calls than a history can have,
/// [`MOST_ENTRIES`](crush_units::limits::MOST_ENTRIES). After a fault, the caller doesn't get the
/// map back.
pub fn run_at_once<G: Gate + Sync, R: Threads + Wait + Sync>(
    rt: &R,
    alloc: Global,
    gate: &G,
    map: CrushMap<Global>,
    scripts: Vec<Script>,
) -> Result<Closed<Global, WithoutSnapshot>, RunFault>
    requires some { 0 < length scripts.items }
    requires few { length scripts.items ≤ MOST_OPERATORS }
    ensures run { IfOk result (λ c. Carries map scripts.items c.map c.history.items) }
    ensures all { IfOk result (λ c. MakesAll map c.map c.history.items) }
    ensures few { IfOk result (λ c. length c.history.items ≤ MOST_ENTRIES) }
    ensures fault { IfErr result IsAtOnceFault }
{
    match Started::without_opening(alloc, map, scripts.len()) {
        Ok(started) => operate::<Brand, G, R>(rt, alloc, gate, started, scripts),
        Err(_) => Err(RunFault::Memory),
    }
}

/// Runs the scripts with an editor. `N` is the type that names this editor in contracts.
fn operate<N: Desk + Send + Sync, G: Gate + Sync, R: Threads + Wait + Sync>(
    rt: &R,
    alloc: Global,
    gate: &G,
    started: Started<Global, WithoutSnapshot>,
    scripts: Vec<Script>,
) -> Result<Closed<Global, WithoutSnapshot>, RunFault>
    requires gauge { started.table ≡ N.gauge }
    requires opening { started.opening ≡ N.opening }
    requires ledger { (started.name ≡ N.name) × (started.parts ≡ N.parts) }
    requires operators { (started.parts ≡ length scripts.items)
        × (length scripts.items ≤ MOST_OPERATORS) }
    ensures run { IfOk result (λ c. Carries N.opening scripts.items c.map c.history.items) }
    ensures all { IfOk result (λ c. MakesAll N.opening c.map c.history.items) }
    ensures few { IfOk result (λ c. length c.history.items ≤ MOST_ENTRIES) }
    ensures fault { IfErr result IsAtOnceFault }
{
    let Ok((editor, seats)) = Editor::<N, WithoutSnapshot>::open_unkept(alloc, started) else {
        return Err(RunFault::Memory);
    };
    let crew = Crew {
        rt,
        alloc,
        editor: &editor,
        gate,
    };
    let finished = crew.run_all(seats, scripts)?;
    let seats = gather(alloc, finished)?;
    Ok(editor.close(seats))
}

/// Returns the seats of the workers. If a worker stopped early, fails with [`RunFault::Memory`]. A
/// worker stops early only if memory runs out or if the history is full. The scripts of one job
/// never have more calls than a history has room for.
fn gather<N: Desk>(alloc: Global, finished: Vec<Finished<N>>) -> Result<Vec<Seat<N>>, RunFault>
    ensures count { IfOk result (λ seats. vec_len seats ≡ vec_len finished) }
    ensures each { IfOk result (λ seats. (k : ℕ) (d : _) (e : _) → k < vec_len seats
        → (slice_index_or seats.items k d ≡ (slice_index_or finished.items k e).seat)
        × ((slice_index_or finished.items k e).fault ≡ None)) }
    ensures fault { IfErr result (λ fault. fault ≡ RunFault.Memory) }
{
    let mut seats = Vec::new(alloc);
    for done in finished {
        let Finished { seat, fault } = done;
        if fault.is_some() {
            return Err(RunFault::Memory);
        }
        let Ok(()) = seats.push(seat) else {
            return Err(RunFault::Memory);
        };
    }
    Ok(seats)
}
