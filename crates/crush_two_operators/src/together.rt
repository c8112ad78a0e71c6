//! Lets two operators use one editor at the same time, each in a thread of its own.
//! [`crate::at_once`] and [`crate::plan`] define what the operators do.

ghost use Rattle.std.specs.Prelude.{◌≡◌, IfOk, IfSome, [], ◌∷◌};
ghost use Rattle.crush_editor.specs.Book.{MakesAll};
ghost use Rattle.crush_editor.specs.Seat.{SeatData, IsHistoryOfSeats, seat_data};

use anyhow::Context;
use crush::{Closed, Desk, Editor, Reading, Seat, Started};
use std::alloc::Global;
use std::sync::Wait;
use std::thread::{Threads, join};

/// The type of the elements of a list that an operator works through. Two types implement this
/// trait: `Call`, and `Edit`, which is a step of a plan.
pub(crate) trait Work {
    ghost use Rattle.std.specs.Prelude.{◌≡◌, IfSome, List};
    ghost use Rattle.crush_editor.specs.Seat.{SeatData};

    // The relation between a list, the seat before the work on this list, and the seat after the
    // work.
    ghost done: { List Self → SeatData → SeatData → Type 0 };

    /// Works through the list `given` for one operator, with the operator's seat. After each call,
    /// reads the number of changes and the total weight of the map. A reading acquires no lock, so
    /// it doesn't wait for a call of the other operator. Returns the seat and the last reading.
    /// Returns `None` if the work couldn't be finished.
    fn work<N: Desk, R: Wait>(
        rt: &R,
        alloc: Global,
        editor: &Editor<N>,
        seat: Seat<N>,
        given: &[Self],
    ) -> Option<Worked<N>>
        ensures operator { IfSome result (λ w. w.seat.operator ≡ seat.operator) }
        ensures done { IfSome result (λ w. done given.now seat w.seat) };
}

/// The result of an operator's work: the operator's seat, and the operator's last reading.
#[derive(Drop)]
pub(crate) struct Worked<N: Desk> {
    pub(crate) seat: Seat<N>,
    pub(crate) last: Reading,
}

/// Lets two operators work at the same time, each through its own list. Returns the map, the
/// history, and the later one of the two operators' last readings. Fails if memory runs out, or if
/// an operator couldn't finish its work.
///
/// The contract requires that `started` has two seats. The gauge (the word that is read without a
/// lock), the opening map (the map before the first call) and the ledger (which counts the calls of
/// all seats) of `started` must be those of `N`. The contract says two things about a success:
///
/// - `all`: the history is legal for the opening map, and the returned map is the map after this
/// history.
/// - `seats`: for each operator, the relation `done` holds between the operator's list, a new seat,
/// and the operator's seat after its work. In the history, each operator has exactly the calls and
/// replies that the operator's seat after its work has. (In a seat, a call with its reply is called
/// a *slip*.)
pub(crate) fn work_together<N: Desk + Send + Sync, R: Threads + Wait + Sync, W: Work + Sync>(
    rt: &R,
    alloc: Global,
    started: Started,
    first: &[W],
    second: &[W],
) -> anyhow::Result<(Closed<Global>, Reading)>
    requires gauge { started.table ≡ N.gauge }
    requires opening { started.opening ≡ N.opening }
    requires name { started.name ≡ N.name }
    requires parts { (started.parts ≡ N.parts) × (N.parts ≡ 2) }
    ensures all { IfOk result (λ r. MakesAll N.opening r.0.map r.0.history.items) }
    ensures seats { IfOk result (λ r. (one : SeatData) × (two : SeatData)
        × W.done first.now (seat_data 0 [] []) one × W.done second.now (seat_data 1 [] []) two
        × IsHistoryOfSeats N.opening r.0.map r.0.history.items (one ∷ two ∷ [])) }
{
    // `open` returns the editor, and a seat for each operator. An operator needs its seat for each
    // call and each reading.
    let (editor, mut seats) = Editor::<N>::open(alloc, started)?;
    let two = seats.pop().context("no seat")?;
    let one = seats.pop().context("no seat")?;

    // `join` runs the first operator's work in a new thread, runs the second operator's work in the
    // current thread, and waits for both. If no thread can be started, `join` runs the first
    // operator's work after the second operator's work. Both operators share the editor, and each
    // owns its seat during its work. proofs/Crossing.antt proves that everything that is passed to
    // the new thread may be sent to it.
    let shared = &editor;
    let (one, two) = join(
        rt,
        move || -> Option<Worked<N>>
            ensures { IfSome result (λ w. (w.seat.operator ≡ one.operator)
                × W.done first.entry.now one w.seat) }
        { W::work(rt, alloc, shared, one, first) },
        move || -> Option<Worked<N>>
            ensures { IfSome result (λ w. (w.seat.operator ≡ two.operator)
                × W.done second.entry.now two w.seat) }
        { W::work(rt, alloc, shared, two, second) },
    );
    let one = one.context("not all was made")?;
    let two = two.context("not all was made")?;
    let last = later(one.last, two.last);

    // `close` needs all seats, in the order in which `open` returned them. `close` returns the map
    // and the history.
    seats.push(one.seat)?;
    seats.push(two.seat)?;
    Ok((editor.close(seats), last))
}

/// Returns the later one of two readings, which is the reading with more changes. If both have the
/// same number of changes, returns the first one.
fn later(a: Reading, b: Reading) -> Reading {
    if a.changes < b.changes { b } else { a }
}
