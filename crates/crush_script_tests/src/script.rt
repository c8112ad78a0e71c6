//! Tests how maps and jobs are read from texts, and how texts are written for them. The expected
//! values follow the forms in docs/user/FORMATS.md. The data of `crush_examples` has the cases that
//! a short file can show.

mod heaps;
mod histories;
mod jobs;
mod limits;
mod lines;
mod order;
mod prefixes;
mod reading;
mod weights;
mod words;
mod writing;

use crush_history::Call;
use crush_map::{CrushMap, Hashing};
use crush_print::{WeightForm, write_map};
use crush_script::{Job, JobFault, read_job};
use crush_text::{TextFault, TextFaultKind, read_map};
use std::alloc::Allocator;
use std::process::Abort;

fn joined(rt: &(impl Abort + AllocGlobal), parts: &[&[u8]]) -> Vec<u8> {
    parts.concat(rt.alloc()).expect(rt, "no memory")
}

fn put_behind(rt: &impl Abort, text: &mut Vec<u8>, bytes: &[u8]) {
    text.extend_from_slice(bytes).expect(rt, "no memory");
}

fn text_of<A: Allocator>(rt: &(impl Abort + AllocGlobal), map: &CrushMap<A>) -> Vec<u8> {
    let mut text = Vec::new(rt.alloc());
    write_map(rt.alloc(), map, WeightForm::Rounded, &mut text).expect(rt, "no text");
    text
}

fn fault_of(rt: &(impl Abort + AllocGlobal), text: &[u8]) -> TextFault {
    match read_map(rt.alloc(), text) {
        Ok((map, _)) => {
            drop(map);
            panic!(rt; "a map")
        }
        Err(fault) => fault,
    }
}

fn assert_refused_behind(
    rt: &(impl Abort + AllocGlobal),
    before: &[u8],
    words: &[u8],
    kind: TextFaultKind,
) {
    let text = joined(rt, &[before, words]);
    let fault = fault_of(rt, text.as_slice());
    assert_eq!(rt; fault.kind.name(), kind.name());
    assert_eq!(rt; fault.place, before.len());
}

const LONGEST: &[u8] = &[b'a'; 255];

const TOO_LONG: &[u8] = &[b'a'; 256];

fn job_of(rt: &(impl Abort + AllocGlobal), text: &[u8]) -> Job {
    read_job(rt.alloc(), Hashing::plain(), text).expect(rt, "no job")
}

fn assert_no_job(rt: &(impl Abort + AllocGlobal), text: &[u8], fault: JobFault) {
    match read_job(rt.alloc(), Hashing::plain(), text) {
        Ok(job) => {
            drop(job);
            panic!(rt; "a job")
        }
        Err(other) => assert_eq!(rt; other, fault),
    }
}

fn assert_command(rt: &(impl Abort + AllocGlobal), call: &Call, command: &str) {
    let text = format!(in rt.alloc(); "{call}").expect(rt, "no memory");
    assert_eq!(rt; text.as_str(), command);
    drop(text);
}

/// The printed text of the example map without its tunable and its rule.
const PLAIN_EXAMPLE_MAP: &[u8] = b"\
    # begin crush map\n\
    \n\
    # devices\n\
    device 0 osd.0\n\
    device 1 osd.1\n\
    device 2 osd.2\n\
    \n\
    # types\n\
    type 0 osd\n\
    type 1 host\n\
    type 3 rack\n\
    type 11 root\n\
    \n\
    # buckets\n\
    host h1 {\n\
    \tid -2\t\t# do not change unnecessarily\n\
    \t# weight 2.00000\n\
    \talg straw2\n\
    \thash 0\t# rjenkins1\n\
    \titem osd.0 weight 1.00000\n\
    \titem osd.1 weight 1.00000\n\
    }\n\
    host h2 {\n\
    \tid -3\t\t# do not change unnecessarily\n\
    \t# weight 0.50000\n\
    \talg straw2\n\
    \thash 0\t# rjenkins1\n\
    \titem osd.2 weight 0.50000\n\
    }\n\
    root default {\n\
    \tid -1\t\t# do not change unnecessarily\n\
    \t# weight 2.50000\n\
    \talg straw2\n\
    \thash 0\t# rjenkins1\n\
    \titem h1 weight 2.00000\n\
    \titem h2 weight 0.50000\n\
    }\n\
    \n\
    # rules\n\
    \n\
    # end crush map\n";
