//! Tests guarded batches of one seat, after another seat has submitted a call. A guarded batch
//! names a number of changes, and is applied only if exactly this many calls have changed the map.

ghost use Rattle.std.specs.Prelude.{◌≡◌};

use super::{assert_reads, opened, started, weigh_two, weight_two};
use crush_editor::{Desk, Editor, Seat, Started};
use crush_edits::Dones;
use crush_history::{Call, Edits, Reply};
use std::marker::Brand;
use std::process::Abort;
use std::sync::Wait;

fn assert_answered<N: Desk>(
    rt: &(impl Abort + AllocGlobal + Wait),
    editor: &Editor<N>,
    seat: &mut Seat<N>,
    seen: u32,
    reply: Reply,
) {
    let mut edits = Vec::new(rt.alloc());
    edits.push(weight_two(rt, b"osd.1")).expect(rt, "no memory");
    let call = Call::Guarded {
        seen,
        edits: Edits::new(edits),
    };
    let answer = editor.submit(rt, rt.alloc(), seat, &call);
    drop(call);
    assert_eq!(rt; answer, Ok(reply));
}

#[test]
fn a_batch_is_stale_that_names_fewer_changes_than_there_are(rt: HostRuntime) {
    two_operators::<Brand>(&rt, started(&rt, 2));
}

fn two_operators<N: Desk>(rt: &(impl Abort + AllocGlobal + Wait), started: Started)
    requires gauge { started.table ≡ N.gauge }
    requires opening { started.opening ≡ N.opening }
    requires name { started.name ≡ N.name }
    requires parts { started.parts ≡ N.parts }
{
    let (editor, mut seats) = opened::<N>(rt, started);
    let mut other = seats.pop().expect(rt, "no seat");
    let mut seat = seats.pop().expect(rt, "no seat");
    assert_reads(rt, editor.reading(&mut seat), 0, 163840);
    weigh_two(rt, &editor, &mut other, b"osd.0");
    assert_answered(rt, &editor, &mut seat, 0, Reply::Stale(1));
    assert_reads(rt, editor.reading(&mut seat), 1, 229376);
    let made = Reply::Dones(Dones {
        edits: 1,
        changed: 1,
        made: 0,
    });
    assert_answered(rt, &editor, &mut seat, 1, made);
    assert_reads(rt, editor.reading(&mut seat), 2, 294912);
}
