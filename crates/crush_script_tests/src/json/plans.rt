//! Tests the JSON documents of plans. In these documents, the commands have the form that a Ceph
//! monitor accepts.

use crush_history::Call;
use crush_json::write_plan_document;
use crush_map::{Edit, Hashing};
use crush_script::{Job, read_job};
use std::process::Abort;

const COMMANDS: &[u8] = b"\
    type 1 host\n\
    type 11 root\n\
    root default { id -1 alg straw2 hash 0 }\n\
    %operator a\n\
    add osd.3 0.333 host=h3 root=default\n\
    set osd.3 1.5 host=h3\n\
    create-or-move osd.12 2 root=default\n\
    move h2 rack=r1\n\
    swap-bucket h1 h2\n\
    reweight osd.0 0\n\
    reweight-subtree default 3\n\
    rm osd.3\n\
    add-bucket r1 rack\n\
    rename-bucket r1 r2\n\
    set-device-class ssd osd.0\n\
    rm-device-class osd.0\n";

const REST: &[&[u8]] = &[b"osd.1: class hdd, wanted (none)", b"tunables differ"];

/// The expected document. The members of its commands have the names that Ceph's own table of
/// commands uses.
const PLAN: &[u8] = b"\
    {\"aside\":{\"class_ids\":1,\"ids\":2},\"plan\":[\
    {\"args\":[\"host=h3\",\"root=default\"],\"id\":3,\"prefix\":\"osd crush add\",\"weight\":0.332993},\
    {\"args\":[\"host=h3\"],\"id\":3,\"prefix\":\"osd crush set\",\"weight\":1.500000},\
    {\"args\":[\"root=default\"],\"id\":12,\"prefix\":\"osd crush create-or-move\",\"weight\":2.000000},\
    {\"args\":[\"rack=r1\"],\"name\":\"h2\",\"prefix\":\"osd crush move\"},\
    {\"dest\":\"h2\",\"prefix\":\"osd crush swap-bucket\",\"source\":\"h1\",\"yes_i_really_mean_it\":true},\
    {\"name\":\"osd.0\",\"prefix\":\"osd crush reweight\",\"weight\":0.000000},\
    {\"name\":\"default\",\"prefix\":\"osd crush reweight-subtree\",\"weight\":3.000000},\
    {\"name\":\"osd.3\",\"prefix\":\"osd crush rm\"},\
    {\"name\":\"r1\",\"prefix\":\"osd crush add-bucket\",\"type\":\"rack\"},\
    {\"dstname\":\"r2\",\"prefix\":\"osd crush rename-bucket\",\"srcname\":\"r1\"},\
    {\"class\":\"ssd\",\"ids\":[\"osd.0\"],\"prefix\":\"osd crush set-device-class\"},\
    {\"ids\":[\"osd.0\"],\"prefix\":\"osd crush rm-device-class\"}],\
    \"stays\":[\"osd.1: class hdd, wanted (none)\",\"tunables differ\"]}\n";

fn edits_of(rt: &(impl Abort + AllocGlobal), calls: &[Call]) -> Vec<Edit> {
    let mut edits = Vec::new(rt.alloc());
    for call in calls {
        if let Call::One(edit) = call {
            let edit = edit.try_copy(rt.alloc()).expect(rt, "no memory");
            let Ok(()) = edits.push(edit) else {
                panic!(rt; "no memory")
            };
        }
    }
    edits
}

fn lines_of(rt: &(impl Abort + AllocGlobal), texts: &[&[u8]]) -> Vec<Vec<u8>> {
    let mut lines = Vec::new(rt.alloc());
    for text in texts {
        let mut line = Vec::new(rt.alloc());
        line.extend_from_slice(*text).expect(rt, "no memory");
        let Ok(()) = lines.push(line) else {
            panic!(rt; "no memory")
        };
    }
    lines
}

fn is_plan(
    rt: &(impl Abort + AllocGlobal),
    edits: &[Edit],
    rest: &[&[u8]],
    document: &[u8],
) -> bool {
    let mut told = Vec::new(rt.alloc());
    let rest = lines_of(rt, rest);
    write_plan_document(rt.alloc(), edits, rest.as_slice(), 2, 1, None, &mut told).expect(
        rt,
        "not written",
    );
    told.as_slice() == document
}

fn is_plan_of(rt: &(impl Abort + AllocGlobal), job: &Job, rest: &[&[u8]], document: &[u8]) -> bool {
    let scripts = job.scripts.as_slice();
    if scripts.len() != 1 {
        return false;
    }
    let edits = edits_of(rt, scripts[0].calls.as_slice());
    let is = is_plan(rt, edits.as_slice(), rest, document);
    drop(edits);
    is
}

#[test]
fn each_command_has_the_keys_of_ceph(rt: HostRuntime) {
    let job = read_job(rt.alloc(), Hashing::plain(), COMMANDS).expect(&rt, "no job");
    assert!(rt; is_plan_of(&rt, &job, REST, PLAN));
    drop(job);
}
