//! Tests which history and which map an editor returns when it is closed.

ghost use Rattle.std.specs.Prelude.{◌≡◌};
ghost use Rattle.crush_run_tests.specs.Seats.{AreAll};

use super::{opened, started_with, submit_by};
use crate::maps::PLAIN;
use crate::texts::assert_text;
use crush_editor::{Closed, Desk, Editor, Seat, Started};
use crush_history::{Entry, Line, Script};
use crush_map::Hashing;
use crush_print::{WeightForm, write_map};
use crush_script::{Job, read_job};
use std::alloc::Global;
use std::io::Write;
use std::marker::Brand;
use std::process::Abort;
use std::sync::Wait;

const THREE: &[u8] = b"\
    %operator a\n\
    reweight osd.0 2\n\
    add osd.7 1 host=h1\n\
    %operator b\n\
    reweight osd.1 2\n\
    add osd.7 1 host=h2\n\
    %operator c\n\
    rm default\n\
    begin\n\
    add osd.3 1 host=h2\n\
    rename-bucket h1 hq\n\
    rm h2\n\
    commit\n";

/// The history and the map's text after the scripts of `THREE`, if each operator makes its first
/// call before any operator makes its second call.
const CLOSED: &[u8] = b"\
    # 1 a reweight osd.0 2.00000 = done changed 1 made 0\n\
    # 2 b reweight osd.1 2.00000 = done changed 1 made 0\n\
    # 3 c rm default = refused NotEmpty 39\n\
    # 4 a add osd.7 1.00000 host=h1 = done changed 1 made 0\n\
    # 5 b add osd.7 1.00000 host=h2 = refused AlreadyPlaced 17\n\
    # 6 c begin ; add osd.3 1.00000 host=h2 ; rename-bucket h1 hq ; rm h2 ; commit = refused at 2 NotEmpty 39\n\
    # begin crush map\n\
    \n\
    # devices\n\
    device 0 osd.0\n\
    device 1 osd.1\n\
    device 2 osd.2\n\
    device 7 osd.7\n\
    \n\
    # types\n\
    type 0 osd\n\
    type 1 host\n\
    type 3 rack\n\
    type 11 root\n\
    \n\
    # buckets\n\
    host h1 {\n\
    \tid -2\t\t# do not change unnecessarily\n\
    \t# weight 5.00000\n\
    \talg straw2\n\
    \thash 0\t# rjenkins1\n\
    \titem osd.0 weight 2.00000\n\
    \titem osd.1 weight 2.00000\n\
    \titem osd.7 weight 1.00000\n\
    }\n\
    host h2 {\n\
    \tid -3\t\t# do not change unnecessarily\n\
    \t# weight 0.50000\n\
    \talg straw2\n\
    \thash 0\t# rjenkins1\n\
    \titem osd.2 weight 0.50000\n\
    }\n\
    root default {\n\
    \tid -1\t\t# do not change unnecessarily\n\
    \t# weight 5.50000\n\
    \talg straw2\n\
    \thash 0\t# rjenkins1\n\
    \titem h1 weight 5.00000\n\
    \titem h2 weight 0.50000\n\
    }\n\
    \n\
    # rules\n\
    \n\
    # end crush map\n";

fn job(rt: &(impl Abort + AllocGlobal), scripts: &[u8]) -> Job {
    let parts = [PLAIN, scripts];
    let text = parts.concat(rt.alloc()).expect(rt, "no memory");
    read_job(rt.alloc(), Hashing::plain(), text.as_slice()).expect(rt, "no job")
}

#[test]
fn three_operators_by_turns(rt: HostRuntime) {
    let Job { map, scripts, .. } = job(&rt, THREE);
    let started = started_with(&rt, map, 3);
    let closed = close_after::<Brand>(&rt, started, scripts.as_slice());
    assert_written(&rt, &closed, CLOSED);
    assert_debug(&rt, &closed);
}

fn assert_debug(rt: &(impl Abort + AllocGlobal), closed: &Closed<Global>) {
    let text = format!(in rt.alloc(); "{closed:?}").expect(rt, "no memory");
    assert_eq!(rt;
        text.as_str(),
        "Closed { entries: 6, map: CrushMap { devices: 4, buckets: 3 } }"
    );
}

fn close_after<N: Desk>(
    rt: &(impl Abort + AllocGlobal + Wait),
    started: Started,
    scripts: &[Script],
) -> Closed<Global>
    requires gauge { started.table ≡ N.gauge }
    requires opening { started.opening ≡ N.opening }
    requires name { started.name ≡ N.name }
    requires parts { started.parts ≡ N.parts }
{
    let (editor, mut seats) = opened::<N>(rt, started);
    submit_each(rt, &editor, &mut seats, scripts, 0);
    submit_each(rt, &editor, &mut seats, scripts, 1);
    editor.close(seats)
}

fn submit_each<N: Desk>(
    rt: &(impl Abort + AllocGlobal + Wait),
    editor: &Editor<N>,
    seats: &mut Vec<Seat<N>>,
    scripts: &[Script],
    number: usize,
)
    requires { AreAll N.parts seats.old.items }
    ensures { AreAll N.parts seats.new.items }
{
    for (operator, script) in scripts.iter().enumerate() {
        let call = script.calls.get(number).expect(rt, "no call");
        let answered = submit_by(rt, editor, seats, operator, call).is_ok();
        assert!(rt; answered);
    }
}

fn assert_written(rt: &(impl Abort + AllocGlobal), closed: &Closed<Global>, text: &[u8]) {
    let mut out = Vec::new(rt.alloc());
    let is_put = put_history(&mut out, closed.history.as_slice());
    assert!(rt; is_put);
    write_map(rt.alloc(), &closed.map, WeightForm::Rounded, &mut out).expect(rt, "no text");
    assert_text(rt, out.as_slice(), text);
}

fn put_history(out: &mut Vec<u8>, history: &[Entry]) -> bool {
    let mut number = 0u32;
    for entry in history {
        number = number.saturating_add(1);
        let line = Line {
            number,
            operator: name_of(entry.operator),
            call: &entry.call,
            reply: entry.reply,
        };
        if write!(out, "{line}\n").is_err() {
            return false;
        }
    }
    true
}

fn name_of(operator: usize) -> &'static str {
    match operator {
        0 => "a",
        1 => "b",
        2 => "c",
        _ => "?",
    }
}
