//! Tests lines of a history that are written for copies of calls. The tests choose the replies
//! freely, so most of these lines can't occur in a run.

use crush_edits::{Done, Dones, Edit, Refusal};
use crush_history::{Call, Edits, Line, Reply};
use crush_units::{Name, Weight};
use std::process::Abort;

fn reweight(rt: &(impl Abort + AllocGlobal), name: &[u8], units: u32) -> Edit {
    let name = Name::read(rt.alloc(), name).expect(rt, "no name");
    let weight = Weight::from_units(units);
    Edit::Reweight { name, weight }
}

fn batch_of(rt: &(impl Abort + AllocGlobal), edit: Edit) -> Call {
    let mut edits = Vec::new(rt.alloc());
    edits.push(edit).expect(rt, "no memory");
    Call::Batch(Edits::new(edits))
}

fn copied(rt: &(impl Abort + AllocGlobal), call: Call) -> Call {
    let copy = call.try_copy(rt.alloc()).expect(rt, "no memory");
    drop(call);
    copy
}

fn assert_line(
    rt: &(impl Abort + AllocGlobal),
    call: &Call,
    of: (u32, &str),
    reply: Reply,
    line: &str,
) {
    let (number, operator) = of;
    let shown = Line {
        number,
        operator,
        call,
        reply,
    };
    let text = format!(in rt.alloc(); "{shown}\n").expect(rt, "no memory");
    assert_eq!(rt; text.as_str(), line);
}

fn assert_single(rt: &(impl Abort + AllocGlobal), call: &Call) {
    let done = Reply::Done(Done {
        changed: false,
        made: 2,
    });
    let refused = Reply::Refused(Refusal::NotPlaced);
    let line = "# 4 b reweight osd.0 0.33299 = done changed 0 made 2\n";
    let last = "# 65536 op-1 reweight osd.0 0.33299 = refused NotPlaced 2\n";
    assert_line(rt, call, (4, "b"), done, line);
    assert_line(rt, call, (65536, "op-1"), refused, last);
}

/// Asserts that the right line is written for a batch with one edit whose reply is the reply to a
/// single edit that was refused.
fn assert_batch(rt: &(impl Abort + AllocGlobal), call: &Call) {
    let refused = Reply::Refused(Refusal::Loop);
    let line = "# 1 a begin ; reweight osd.2 1.00000 ; commit = refused Loop 40\n";
    assert_line(rt, call, (1, "a"), refused, line);
}

/// Asserts that the right line is written for an empty batch whose reply is the reply to a batch of
/// many edits.
fn assert_empty_batch(rt: &(impl Abort + AllocGlobal), call: &Call) {
    let done = Reply::Dones(Dones {
        edits: 65536,
        changed: 12,
        made: 4096,
    });
    let line = "# 65536 b begin ; commit = dones 65536 changed 12 made 4096\n";
    assert_line(rt, call, (65536, "b"), done, line);
}

#[test]
fn copies_of_calls_are_lines(rt: HostRuntime) {
    let single = copied(&rt, Call::One(reweight(&rt, b"osd.0", 21823)));
    let batch = copied(&rt, batch_of(&rt, reweight(&rt, b"osd.2", 65536)));
    let none = Call::Batch(Edits::new(Vec::new(rt.alloc())));
    assert_single(&rt, &single);
    assert_batch(&rt, &batch);
    assert_empty_batch(&rt, &none);
    drop(none);
    drop(batch);
    drop(single);
}

/// A weight of 21823 units is 0.332993 with six digits after the point. In a command, it has five
/// digits.
#[test]
fn an_edit_is_written_as_a_command(rt: HostRuntime) {
    let edit = reweight(&rt, b"osd.0", 21823);
    let text = format!(in rt.alloc(); "{edit}").expect(&rt, "no memory");
    drop(edit);
    assert_eq!(rt; text.as_str(), "reweight osd.0 0.33299");
}
