//! Lets two operators work through one plan together. Each operator reads how many steps have been
//! made, submits the next step, and reads again. If the other operator has already made this step,
//! then the submitted step changes nothing.

ghost use Rattle.std.specs.Prelude.{◌≡◌, ◌∷◌, [], IfOk, IfSome};
ghost use Rattle.crush_history.specs.declared.call.Call.TheVariants.{Guarded};
ghost use Rattle.crush_editor.specs.Book.{MakesAll};
ghost use Rattle.crush_two_operators.specs.Plan.{HasFollowed, IsFollowed};

use crate::together::{Work, Worked, work_together};
use crush::limits::MOST_ENTRIES;
use crush::{Call, Closed, CrushMap, Desk, Edit, Editor, Edits, Reply, Seat, Started, is_change};
use std::alloc::Global;
use std::marker::Brand;
use std::sync::Wait;
use std::thread::Threads;

/// Lets two operators work through one plan at the same time. The edits of `plan` are the plan's
/// steps. The steps are made in order, and each step is made once, by the operator that is the
/// first to submit it. Before an operator submits a step, it reads how many calls have changed the
/// map so far. The step is only made if this number is still the same. Returns the map and the
/// history. Fails if memory runs out, if the history is full, or if a step is refused or changes
/// nothing.
///
/// The contract says two things about a success:
///
/// - `all`: the history is legal for the map that was given, which means that each reply is right
/// for the map after all earlier calls. The returned map is the map after this history.
/// - `plan`: each call in the history is for a step of the plan. The calls that changed the map are
/// the calls for all steps of the plan, each once and in order.
pub fn follow_at_once<R: Threads + Wait + Sync>(
    rt: &R,
    alloc: Global,
    map: CrushMap<Global>,
    plan: &[Edit],
) -> anyhow::Result<Closed<Global>>
    ensures all { IfOk result (λ c. MakesAll map c.map c.history.items) }
    ensures plan { IfOk result (λ c. IsFollowed plan.now c.history.items) }
{
    let started = Started::new(alloc, map, 2)?;
    let (closed, _last) = work_together::<Brand, R, Edit>(rt, alloc, started, plan, plan)?;
    Ok(closed)
}

/// The work on a plan is to submit its steps until all of them have been made. The work fails if
/// memory runs out, if the history is full, or if a step is refused or changes nothing.
impl Work for Edit {
    ghost use Rattle.crush_two_operators.specs.Plan.{HasFollowed};

    ghost done = { λ plan old new. HasFollowed old plan new };

    fn work<N: Desk, R: Wait>(
        rt: &R,
        alloc: Global,
        editor: &Editor<N>,
        seat: Seat<N>,
        given: &[Edit],
    ) -> Option<Worked<N>> {
        follow(rt, alloc, editor, seat, given)
    }
}

/// Submits steps until all steps have been made. Each change of the map is a step of the plan. So
/// the number of changes so far is the index of the next step, from 0. The step is submitted as a
/// guarded batch. Such a batch is made only if the number of changes is still the number that the
/// operator has read. If the other operator has changed the map since then, the reply is `Stale`,
/// the batch changes nothing, and the loop reads again.
///
/// Returns `None` if memory runs out, if the history is full, or if a step is refused or changes
/// nothing.
fn follow<N: Desk, R: Wait>(
    rt: &R,
    alloc: Global,
    editor: &Editor<N>,
    mut seat: Seat<N>,
    plan: &[Edit],
) -> Option<Worked<N>>
    ensures { IfSome result (λ w. HasFollowed seat plan.now w.seat) }
{
    // Each iteration that doesn't return adds an entry to the history. The history can have at most
    // MOST_ENTRIES entries, so the last iteration always returns.
    for _ in 0..=MOST_ENTRIES {
        let last = editor.reading(&mut seat);
        let seen = last.changes;
        let number = seen as usize;
        if number >= plan.len() {
            return Some(Worked { seat, last });
        }
        let call = step(alloc, seen as u32, &plan[number])?;
        let reply = editor.submit(rt, alloc, &mut seat, &call).ok()?;
        if !is_change(reply) && !matches!(reply, Reply::Stale(_)) {
            return None;
        }
    }
    None
}

/// Returns the call for one step: a guarded batch with only this edit, which is made only if the
/// map has exactly `seen` changes. Returns `None` if memory runs out.
fn step(alloc: Global, seen: u32, edit: &Edit) -> Option<Call>
    ensures { IfSome result (λ call. call ≡ Guarded seen (edit.now ∷ [])) }
{
    let mut edits = Vec::new(alloc);
    edits.push(edit.try_copy(alloc).ok()?).ok()?;
    Some(Call::Guarded {
        seen,
        edits: Edits::new(edits),
    })
}
