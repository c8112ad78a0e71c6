//! Tests the commands of Ceph that are printed for a list of edits. The expected values follow the
//! rules of the option `--as-ceph` in docs/user/FORMATS.md.

use crush_ceph::{ceph_text, redo_edit};
use crush_edits::Edit;
use crush_history::{Call, Script, has_dash};
use crush_map::{CrushMap, Hashing};
use crush_script::{Job, read_job};
use std::alloc::Global;
use std::process::Abort;

/// The beginning of a job: a map, and the lines with which an operator's batch begins.
const BEFORE: &[u8] =
    b"device 0 osd.0 class hdd\ndevice 1 osd.1 class hdd\ndevice 2 osd.2\ntype 0 osd\ntype 1 host\ntype 3 rack\ntype 11 root\nhost h1 {\nid -2\nalg straw2\nitem osd.0 weight 1.00000\nitem osd.1 weight 1.00000\n}\nroot default {\nid -1\nalg straw2\nitem h1 weight 2.00000\n}\n%operator a\nbegin\n";

fn job_of(rt: &(impl Abort + AllocGlobal), batch: &[u8]) -> Job {
    let mut bytes = Vec::new(rt.alloc());
    bytes.extend_from_slice(BEFORE).expect(rt, "no memory");
    bytes.extend_from_slice(batch).expect(rt, "no memory");
    bytes.extend_from_slice(b"commit\n").expect(rt, "no memory");
    let job = read_job(rt.alloc(), Hashing::plain(), bytes.as_slice()).expect(rt, "no job");
    drop(bytes);
    job
}

fn edits_of(scripts: &[Script]) -> &[Edit] {
    match scripts {
        [Script { calls, .. }] => match calls.as_slice() {
            [Call::Batch(edits)] => edits.as_slice(),
            _ => &[],
        },
        _ => &[],
    }
}

fn is_told(rt: &(impl Abort + AllocGlobal), batch: &[u8], told: &[u8]) -> bool {
    let job = job_of(rt, batch);
    let opening = job.map.try_copy().expect(rt, "no memory");
    let edits = edits_of(job.scripts.as_slice());
    let text = ceph_text(rt.alloc(), opening, edits).expect(rt, "no memory");
    drop(job);
    text.as_slice() == told
}

#[test]
fn classes_of_several_devices_are_one_command(rt: HostRuntime) {
    assert!(rt;
        is_told(
            &rt,
            b"rm-device-class osd.0\nrm-device-class osd.1\nset-device-class ssd osd.0\nset-device-class ssd osd.2\nset-device-class nvme osd.1\n",
            b"# 3 commands\nceph osd crush rm-device-class osd.0 osd.1\nceph osd crush set-device-class ssd osd.0 osd.2\nceph osd crush set-device-class nvme osd.1\n"
        )
    );
}

#[test]
fn a_word_that_begins_with_a_dash_is_found(rt: HostRuntime) {
    let job = job_of(
        &rt,
        b"move h1 -t=default\nmove h1 root=-d\nrename-bucket h1 -h\n",
    );
    let found = match edits_of(job.scripts.as_slice()) {
        [kind, name, renamed] => has_dash(kind) && !has_dash(name) && has_dash(renamed),
        _ => false,
    };
    drop(job);
    assert!(rt; found);
}

fn are_made(rt: &(impl Abort + AllocGlobal), map: &mut CrushMap<Global>, edits: &[Edit]) {
    for edit in edits {
        redo_edit(map, edit).expect(rt, "no memory");
    }
}

#[test]
fn edits_are_made_if_they_are_not_refused(rt: HostRuntime) {
    let job = job_of(&rt, b"rm default\nrm osd.2\nadd-bucket r1 rack\n");
    let mut map = job.map.try_copy().expect(&rt, "no memory");
    are_made(&rt, &mut map, edits_of(job.scripts.as_slice()));
    let made = map.locate("default").is_some()
        && map.locate("osd.2").is_none()
        && map.locate("r1").is_some();
    drop(map);
    drop(job);
    assert!(rt; made);
}
