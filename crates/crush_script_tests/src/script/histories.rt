//! Tests the text of a history, which has a line for each call.

ghost use Rattle.std.specs.Prelude.{◌<◌, length};
ghost use Rattle.crush_history.specs.Entries.{AreOf};

use super::{PLAIN_EXAMPLE_MAP, assert_command, job_of, joined};
use crate::histories::entries_of;
use crate::texts::assert_text;
use crush_edits::{Edit, Refusal};
use crush_history::{Call, Edits, Entry, Reply, Script, Slip, history_text};
use crush_map::CrushMap;
use crush_units::Name;
use std::alloc::Global;
use std::process::Abort;

const SCRIPT: &[u8] = b"\
    %operator a\n\
    reweight osd.2 1\n\
    begin\n\
    rename-bucket h1 hq\n\
    rm hq\n\
    commit\n\
    rm x\n";

/// The history of the script. The weight of osd.2 is 0.5 in the map, so the first call changes this
/// weight. In the batch, hq is the new name of the host h1. This host has two devices, so the
/// batch's second edit (with the index 1) can't remove it. The map has no item with the name x.
const LINES: &[u8] = b"\
    # 1 a reweight osd.2 1.00000 = done changed 1 made 0\n\
    # 2 a begin ; rename-bucket h1 hq ; rm hq ; commit = refused at 1 NotEmpty 39\n\
    # 3 a rm x = refused NoSuchItem 2\n";

fn assert_history(
    rt: &(impl Abort + AllocGlobal),
    scripts: &[Script],
    entries: &[Entry],
    lines: &[u8],
)
    requires few { length entries.now < 100 }
    requires operators { AreOf (length scripts.now) entries.now }
{
    let text = history_text(rt.alloc(), scripts, entries).expect(rt, "no memory");
    assert_text(rt, text.as_slice(), lines);
}

fn assert_run(
    rt: &(impl Abort + AllocGlobal),
    map: &mut CrushMap<Global>,
    scripts: &[Script],
    lines: &[u8],
) {
    assert_eq!(rt; scripts.len(), 1);
    let entries = entries_of(rt, map, scripts, 0);
    assert!(rt; entries.len() < 100);
    assert_history(rt, scripts, entries.as_slice(), lines);
    drop(entries);
}

#[test]
fn a_history_has_a_line_for_each_call(rt: HostRuntime) {
    let text = joined(&rt, &[PLAIN_EXAMPLE_MAP, SCRIPT]);
    let mut job = job_of(&rt, text.as_slice());
    assert_run(&rt, &mut job.map, job.scripts.as_slice(), LINES);
    drop(job);
}

#[test]
fn a_copy_of_a_script_makes_the_same_calls(rt: HostRuntime) {
    let text = joined(&rt, &[PLAIN_EXAMPLE_MAP, SCRIPT]);
    let mut job = job_of(&rt, text.as_slice());
    let script = job.scripts.pop().expect(&rt, "no script");
    let copy = script.try_copy(rt.alloc()).expect(&rt, "no memory");
    assert_eq!(rt; copy, script);
    drop(script);
    let scripts = [copy];
    assert_run(&rt, &mut job.map, scripts.as_slice(), LINES);
    drop(scripts);
    drop(job);
}

fn remove_x(rt: &(impl Abort + AllocGlobal)) -> Edit {
    Edit::Remove {
        name: Name::read(rt.alloc(), b"x").expect(rt, "no name"),
    }
}

#[test]
fn an_entry_is_copied(rt: HostRuntime) {
    let call = Call::One(remove_x(&rt));
    let reply = Reply::Refused(Refusal::NoSuchItem);
    let entry = Entry {
        operator: 3,
        call,
        reply,
    };
    let copy = entry.try_copy(rt.alloc()).expect(&rt, "no memory");
    assert_eq!(rt; copy, entry);
    drop(entry);
    assert_eq!(rt; copy.operator, 3);
    assert_command(&rt, &copy.call, "rm x");
    assert_eq!(rt; copy.reply, reply);
    drop(copy);
}

#[test]
fn entries_are_equal_if_each_field_is(rt: HostRuntime) {
    let call = Call::One(remove_x(&rt));
    let reply = Reply::Refused(Refusal::NoSuchItem);
    let entry = Entry {
        operator: 3,
        call,
        reply,
    };
    let mut other = entry.try_copy(rt.alloc()).expect(&rt, "no memory");
    other.operator = 4;
    assert_ne!(rt; entry, other);
    other.operator = 3;
    other.reply = Reply::Refused(Refusal::NotEmpty);
    assert_ne!(rt; entry, other);
    drop(other);
    drop(entry);
}

#[test]
fn a_slip_with_a_batch_is_copied(rt: HostRuntime) {
    let mut edits = Vec::new(rt.alloc());
    edits.push(remove_x(&rt)).expect(&rt, "no memory");
    let call = Call::Guarded {
        seen: 7,
        edits: Edits::new(edits),
    };
    let reply = Reply::Stale(8);
    let slip = Slip { call, reply };
    let copy = slip.try_copy(rt.alloc()).expect(&rt, "no memory");
    drop(slip);
    assert_command(&rt, &copy.call, "begin at 7 ; rm x ; commit");
    assert_eq!(rt; copy.reply, reply);
    drop(copy);
}
