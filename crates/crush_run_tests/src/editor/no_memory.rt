//! Tests functions that allocate no memory. The tests come in pairs. One test of a pair calls the
//! functions once, and the other test calls the same functions many times.
//! `tests/refused_memory.py` requires that both tests request memory equally often.

ghost use Rattle.std.specs.Prelude.{◌≡◌};
ghost use Rattle.crush_run_tests.specs.Seats.{AreAll};

use super::{assert_reads, opened, read_map, started, submit_by, weigh_two, weight_two};
use crate::maps::PLAIN;
use crush_editor::{Desk, Editor, Seat, Started};
use crush_edits::Setting;
use crush_history::{Call, Line, Reply};
use crush_map::{CrushMap, Done};
use std::alloc::Global;
use std::marker::Brand;
use std::process::Abort;
use std::sync::Wait;

const OFTEN: u32 = 1000;

const EDITORS: u32 = 16;

fn is_example(map: &CrushMap<Global>) -> bool {
    map.forest().recall_invariant();
    map.locate("osd.1").is_some()
        && map.weight_of("h1").is_some()
        && has_plain_setting(map.setting())
        && map.forest().roots().len() == 1
        && map.counts().devices == 3
        && map.total() == 163840
}

fn has_plain_setting(setting: &Setting) -> bool {
    setting.kinds().len() == 4 && setting.tunables().len() == 0 && setting.rules().len() == 0
}

fn look_at_map(rt: &(impl Abort + AllocGlobal), times: u32) {
    let (map, _) = read_map(rt.alloc(), PLAIN).expect(rt, "no map");
    let mut same = true;
    for _ in 0..times {
        same = same && is_example(&map);
    }
    drop(map);
    assert!(rt; same);
}

#[test]
fn a_map_is_looked_at_once(rt: HostRuntime) {
    look_at_map(&rt, 1);
}

#[test]
fn a_map_is_looked_at_often(rt: HostRuntime) {
    look_at_map(&rt, OFTEN);
}

fn look_at_book(rt: &(impl Abort + AllocGlobal), times: u32) {
    let (gauge, mut book) = started(rt, 1).into_book();
    let call = Call::One(weight_two(rt, b"osd.0"));
    let mut same = book.commit_copied(&gauge, 0, call).is_ok();
    for _ in 0..times {
        book.recall_invariant();
        same = same
            && book.opening().total() == 163840
            && book.map().total() == 229376
            && book.history().len() == 1;
    }
    drop(book);
    assert!(rt; same);
}

#[test]
fn a_book_is_looked_at_once(rt: HostRuntime) {
    look_at_book(&rt, 1);
}

#[test]
fn a_book_is_looked_at_often(rt: HostRuntime) {
    look_at_book(&rt, OFTEN);
}

fn read_editor<N: Desk>(rt: &(impl Abort + AllocGlobal + Wait), started: Started, times: u32)
    requires gauge { started.table ≡ N.gauge }
    requires opening { started.opening ≡ N.opening }
    requires name { started.name ≡ N.name }
    requires parts { started.parts ≡ N.parts }
{
    let (editor, mut seats) = opened::<N>(rt, started);
    let mut last = seats.pop().expect(rt, "no seat");
    let mut first = seats.pop().expect(rt, "no seat");
    weigh_two(rt, &editor, &mut first, b"osd.0");
    for _ in 0..times {
        let note = editor.note(&mut first);
        editor.learn(&mut last, note);
        let _read = editor.reading(&mut last);
    }
    assert_reads(rt, editor.reading(&mut last), 1, 229376);
}

#[test]
fn an_editor_is_read_once(rt: HostRuntime) {
    read_editor::<Brand>(&rt, started(&rt, 2), 1);
}

#[test]
fn an_editor_is_read_often(rt: HostRuntime) {
    read_editor::<Brand>(&rt, started(&rt, 2), OFTEN);
}

/// Opens an editor and submits one call. Then closes the editor if `closes` is true, and otherwise
/// drops it.
fn end_editor<N: Desk>(rt: &(impl Abort + AllocGlobal + Wait), started: Started, closes: bool)
    requires gauge { started.table ≡ N.gauge }
    requires opening { started.opening ≡ N.opening }
    requires name { started.name ≡ N.name }
    requires parts { started.parts ≡ N.parts }
{
    let (editor, mut seats) = opened::<N>(rt, started);
    let call = Call::One(weight_two(rt, b"osd.0"));
    let answered = submit_by(rt, &editor, &mut seats, 0, &call).is_ok();
    drop(call);
    let ended = !closes || is_closed(editor, seats);
    assert!(rt; answered);
    assert!(rt; ended);
}

fn is_closed<N: Desk>(editor: Editor<N>, seats: Vec<Seat<N>>) -> bool
    requires { AreAll N.parts seats.items }
{
    editor.close(seats).history.len() == 1
}

/// Opens `EDITORS` editors one after the other. Closes the first `times` of them, and drops the
/// others. So the number of opened editors doesn't depend on `times`.
fn close_editors(rt: &(impl Abort + AllocGlobal + Wait), times: u32) {
    for number in 0..EDITORS {
        let started = started(rt, 2);
        end_editor::<Brand>(rt, started, number < times);
    }
}

#[test]
fn an_editor_is_closed_once(rt: HostRuntime) {
    close_editors(&rt, 1);
}

#[test]
fn an_editor_is_closed_often(rt: HostRuntime) {
    close_editors(&rt, EDITORS);
}

fn write_line(rt: &(impl Abort + AllocGlobal), times: u32) {
    let call = Call::One(weight_two(rt, b"osd.0"));
    let reply = Reply::Done(Done {
        changed: true,
        made: 0,
    });
    let line = Line {
        number: 1,
        operator: "a",
        call: &call,
        reply,
    };
    let mut text = String::with_capacity(rt.alloc(), 100).expect(rt, "no memory");
    let mut written = true;
    for _ in 0..times {
        text.clear();
        written = written && write!(text, "{line}\n").is_ok();
    }
    drop(call);
    assert!(rt; written);
    assert_eq!(rt;
        text.as_str(),
        "# 1 a reweight osd.0 2.00000 = done changed 1 made 0\n"
    );
}

#[test]
fn an_entry_is_written_once(rt: HostRuntime) {
    write_line(&rt, 1);
}

#[test]
fn an_entry_is_written_often(rt: HostRuntime) {
    write_line(&rt, OFTEN);
}
