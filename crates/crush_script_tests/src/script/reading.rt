//! Tests how the plain example map is read and printed, and how faults are printed.

use crate::script::{PLAIN_EXAMPLE_MAP, job_of, joined, text_of};
use crate::texts::assert_text;
use crush_map::CrushMap;
use crush_script::{BadLine, Due, JobFault, Misfit};
use crush_text::{Expected, TextFault, TextFaultKind, read_map};
use std::alloc::Global;
use std::process::Abort;

fn id_of(map: &CrushMap<Global>, name: &str) -> Option<i32> {
    match map.locate(name) {
        Some(id) => Some(id.number()),
        None => None,
    }
}

fn assert_plain_example_map(rt: &impl Abort, map: &CrushMap<Global>) {
    let counts = map.counts();
    assert_eq!(rt; map.total(), 163840);
    assert_eq!(rt; counts.devices, 3);
    assert_eq!(rt; counts.buckets, 3);
    assert_eq!(rt; id_of(map, "osd.2"), Some(2));
    assert_eq!(rt; id_of(map, "h2"), Some(-3));
    assert_eq!(rt; id_of(map, "h3"), None);
}

#[test]
fn the_plain_example_map_is_read_and_printed(rt: HostRuntime) {
    let (map, adjusted) = read_map(rt.alloc(), PLAIN_EXAMPLE_MAP).expect(&rt, "no map");
    assert_plain_example_map(&rt, &map);
    let text = text_of(&rt, &map);
    drop(map);
    assert_eq!(rt; adjusted.count(), 0);
    assert_text(&rt, text.as_slice(), PLAIN_EXAMPLE_MAP);
}

fn bad_line(why: BadLine) -> JobFault {
    JobFault::BadLine { line: 3, why }
}

#[test]
fn faults_are_told(rt: HostRuntime) {
    let kind = TextFaultKind::OutOfMemory;
    let text = TextFault {
        kind,
        place: 102,
        expected: Expected::Memory,
    };
    let line = JobFault::NoSuchCommand(3);
    let word = bad_line(BadLine::Word(Misfit {
        word: 2,
        due: Due::Weight,
    }));
    let batch = bad_line(BadLine::NoBatch);
    let whole = JobFault::TooLong;
    let told = format!(in rt.alloc(); "{text}, {line}, {whole}").expect(&rt, "no memory");
    let words = format!(in rt.alloc(); "{word}, {batch}").expect(&rt, "no memory");
    assert_eq!(rt; kind.number(), 16);
    assert_eq!(rt; kind.name(), "OutOfMemory");
    assert_eq!(rt;
        told.as_str(),
        "byte 102: OutOfMemory, line 3: NoSuchCommand, TooLong"
    );
    assert_eq!(rt;
        words.as_str(),
        "line 3: BadLine: word 2: expected a weight, line 3: BadLine: `commit` outside a batch"
    );
    assert!(rt; JobFault::Text(text).lacks_memory());
    assert!(rt; !line.lacks_memory());
}

#[test]
fn the_debug_text_of_a_job_has_its_counts(rt: HostRuntime) {
    let text = joined(
        &rt,
        &[PLAIN_EXAMPLE_MAP, b"%operator a\n%operator b\nrm x\n"],
    );
    let job = job_of(&rt, text.as_slice());
    let shown = format!(in rt.alloc(); "{job:?}").expect(&rt, "no memory");
    drop(job);
    assert_eq!(rt;
        shown.as_str(),
        "Job { map: CrushMap { devices: 3, buckets: 3 }, adjusted: 0, scripts: 2 }",
    );
}
