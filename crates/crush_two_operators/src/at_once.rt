//! Lets two operators work at the same time. Each operator makes the calls of its own list.

ghost use Rattle.std.specs.Prelude.{◌≡◌, IfOk, IfSome};
ghost use Rattle.crush_editor.specs.Book.{MakesAll};
ghost use Rattle.crush_two_operators.specs.Calls.{AreTheirs, HasMade};

use crate::together::{Work, Worked, work_together};
use crush::{Call, Closed, CrushMap, Desk, Editor, Reading, Seat, Started};
use std::alloc::Global;
use std::marker::Brand;
use std::sync::Wait;
use std::thread::Threads;

/// Lets two operators make their calls at the same time. Operator 0 makes the calls of the list
/// `first`, and operator 1 makes the calls of the list `second`. Returns the map, the history, and
/// the later one of the two operators' last readings. A *reading* has two numbers: how many calls
/// have changed the map so far, and the map's total weight. The function fails if memory runs out,
/// or if the history is full.
///
/// The contract says two things about a success:
///
/// - `all`: the history is legal for the map that was given, which means that each reply is right
/// for the map after all earlier calls. The returned map is the map after this history.
/// - `calls`: the calls of operator 0 in the history are exactly the calls of `first`, in the same
/// order. The calls of operator 1 in the history are exactly the calls of `second`, in the same
/// order. The history has no other calls.
pub fn edit_at_once<R: Threads + Wait + Sync>(
    rt: &R,
    alloc: Global,
    map: CrushMap<Global>,
    first: &[Call],
    second: &[Call],
) -> anyhow::Result<(Closed<Global>, Reading)>
    ensures all { IfOk result (λ r. MakesAll map r.0.map r.0.history.items) }
    ensures calls { IfOk result (λ r. AreTheirs first.now second.now r.0.history.items) }
{
    // Prepares an editor for two operators. The editor will own the map.
    //
    // In contracts, a type `N` represents one editor. This type gives contracts access to three
    // things of the editor: its gauge (the word that is read without a lock), its opening map (the
    // map before the first call), and its ledger (which counts the calls of all seats). So
    // `work_together` is generic over `N`. The code passes the placeholder type `Brand` for `N`.
    // The file proofs/at_once/edit_at_once/Invariants.antt says that in this call the gauge, the
    // opening map and the ledger of `N` are those of `started`.
    let started = Started::new(alloc, map, 2)?;
    work_together::<Brand, R, Call>(rt, alloc, started, first, second)
}

/// The work on a list of calls is to make these calls in order. The work fails if memory runs out,
/// or if the history is full.
impl Work for Call {
    ghost use Rattle.crush_two_operators.specs.Calls.{HasMade};

    ghost done = { λ calls old new. HasMade old calls new };

    fn work<N: Desk, R: Wait>(
        rt: &R,
        alloc: Global,
        editor: &Editor<N>,
        seat: Seat<N>,
        given: &[Call],
    ) -> Option<Worked<N>> {
        make_each(rt, alloc, editor, seat, given)
    }
}

/// Makes the calls in order. Before the first call and after each call, reads the gauge, which has
/// the number of changes and the total weight. Returns `None` if a call fails.
fn make_each<N: Desk, R: Wait>(
    rt: &R,
    alloc: Global,
    editor: &Editor<N>,
    mut seat: Seat<N>,
    calls: &[Call],
) -> Option<Worked<N>>
    ensures { IfSome result (λ w. HasMade seat calls.now w.seat) }
{
    let mut last = editor.reading(&mut seat);
    for call in calls {
        editor.submit(rt, alloc, &mut seat, call).ok()?;
        last = editor.reading(&mut seat);
    }
    Some(Worked { seat, last })
}
