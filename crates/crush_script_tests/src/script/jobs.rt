//! Tests jobs, and runs in which their scripts are applied one after the other.

use crate::script::{PLAIN_EXAMPLE_MAP, assert_command, assert_no_job, job_of, joined};
use crate::texts::assert_text;
use crush_edits::{Keyword, Placing};
use crush_history::{Script, make_call, write_entry};
use crush_map::CrushMap;
use crush_script::{BadLine, Due, Form, Job, JobFault, Misfit, line_feeds, map_part, placed_word};
use std::alloc::Global;
use std::process::Abort;

fn assert_reweight(rt: &(impl Abort + AllocGlobal), scripts: &[Script]) {
    assert_eq!(rt; scripts.len(), 1);
    let script = &scripts[0];
    assert_eq!(rt; script.name.as_str(), "a");
    assert_eq!(rt; script.calls.len(), 1);
    assert_command(rt, &script.calls[0], "reweight osd.2 1.00000");
}

fn assert_read(rt: &(impl Abort + AllocGlobal), job: &Job) {
    assert_eq!(rt; job.map.total(), 163840);
    assert_eq!(rt; job.map.counts().devices, 3);
    assert_eq!(rt; job.adjusted.count(), 0);
    assert_reweight(rt, job.scripts.as_slice());
}

#[test]
fn a_job_is_read(rt: HostRuntime) {
    let script = b"%operator a\nreweight osd.2 1.0\n";
    let text = joined(&rt, &[PLAIN_EXAMPLE_MAP, script]);
    let job = job_of(&rt, text.as_slice());
    assert_read(&rt, &job);
    drop(job);
}

const CALLS: &[u8] =
    b"device 0 osd.0\ndevice 9 osd.9\ntype 0 osd\ntype 1 host\nhost h1 { id -1 alg straw2 hash 0 item osd.0 weight 1.00000 }\n%operator alice\nreweight osd.0 0.5\nreweight osd.0 0.50000\nreweight osd.9 1\nreweight osd.0 2\n";

const HISTORY: &[u8] =
    b"# 1 alice reweight osd.0 0.50000 = done changed 1 made 0\n# 2 alice reweight osd.0 0.50000 = done changed 0 made 0\n# 3 alice reweight osd.9 1.00000 = refused NotPlaced 2\n# 4 alice reweight osd.0 2.00000 = done changed 1 made 0\n";

fn lines_of(
    rt: &(impl Abort + AllocGlobal),
    map: &mut CrushMap<Global>,
    script: &Script,
) -> Vec<u8> {
    let mut lines = Vec::new(rt.alloc());
    let mut number = 0u32;
    for call in script.calls.as_slice() {
        let reply = make_call(map, 0, call).expect(rt, "no memory");
        number = number.saturating_add(1);
        let operator = script.name.as_str();
        write_entry(number, operator, call, reply, &mut lines).expect(rt, "no line");
    }
    lines
}

fn assert_answered(
    rt: &(impl Abort + AllocGlobal),
    map: &mut CrushMap<Global>,
    scripts: &[Script],
) {
    assert_eq!(rt; scripts.len(), 1);
    let lines = lines_of(rt, map, &scripts[0]);
    assert_text(rt, lines.as_slice(), HISTORY);
}

#[test]
fn calls_are_answered_in_turn(rt: HostRuntime) {
    let mut job = job_of(&rt, CALLS);
    assert_answered(&rt, &mut job.map, job.scripts.as_slice());
    let total = job.map.total();
    drop(job);
    assert_eq!(rt; total, 131072);
}

fn with_lines(rt: &(impl Abort + AllocGlobal), text: &[u8], line: &[u8]) -> Vec<u8> {
    let lines = line.repeat(rt.alloc(), 65536).expect(rt, "no memory");
    joined(rt, &[text, lines.as_slice()])
}

fn call_count(rt: &(impl Abort + AllocGlobal), text: &[u8]) -> Option<usize> {
    let job = job_of(rt, text);
    let count = match job.scripts.as_slice() {
        [script] => Some(script.calls.len()),
        _ => None,
    };
    drop(job);
    count
}

fn assert_no_job_with(rt: &(impl Abort + AllocGlobal), text: &[u8], line: &[u8], fault: JobFault) {
    let text = joined(rt, &[text, line]);
    assert_no_job(rt, text.as_slice(), fault);
}

fn misfit_in(line: usize, word: usize, due: Due) -> JobFault {
    JobFault::BadLine {
        line,
        why: BadLine::Word(Misfit { word, due }),
    }
}

/// Lines in which a word doesn't fit or is missing. For each line, the list has the line, the index
/// of this word from 0, and what is expected at this index.
const MISFITS: &[(&[u8], usize, Due)] = &[
    (b"add h1 1 host=h1", 1, Due::Device),
    (b"add \"osd.0\" 1 host=h1", 1, Due::Device),
    (b"add osd.0", 2, Due::Weight),
    (b"set osd.0 1,5 host", 2, Due::Weight),
    (b"set osd.0 1 host=h1 rack", 4, Due::Pair),
    (
        b"move h1 a=b a=b a=b a=b a=b a=b a=b a=b a=b a=b a=b a=b a=b a=b a=b a=b a",
        18,
        Due::NoMorePairs,
    ),
    (b"move", 1, Due::Name),
    (b"swap-bucket a b c", 3, Due::End),
    (b"reweight-subtree h1 x", 2, Due::Weight),
    (b"remove", 1, Due::Name),
    (b"add-bucket h1", 2, Due::Name),
    (b"set-device-class ssd osd,0", 2, Due::Name),
    (b"begin now", 1, Due::At),
    (b"begin at", 2, Due::Changes),
    (b"begin at 65537", 2, Due::Changes),
    (b"begin at 1 2", 3, Due::End),
    (b"commit now", 1, Due::End),
];

#[test]
fn a_fault_tells_the_word_that_does_not_fit(rt: HostRuntime) {
    for (line, word, due) in MISFITS {
        assert_no_job_with(&rt, b"%operator b\n", line, misfit_in(2, *word, *due));
    }
}

#[test]
fn a_fault_tells_why_a_line_is_misplaced(rt: HostRuntime) {
    let no_operator = JobFault::BadLine {
        line: 1,
        why: BadLine::NoOperator,
    };
    let open = JobFault::BadLine {
        line: 3,
        why: BadLine::BatchOpen,
    };
    let none = JobFault::BadLine {
        line: 2,
        why: BadLine::NoBatch,
    };
    assert_no_job(&rt, b"%operato a", no_operator);
    assert_no_job(&rt, b"%operator a\nbegin\nbegin", open);
    assert_no_job(&rt, b"%operator a\ncommit", none);
    assert_no_job(&rt, b"%operator a b", misfit_in(1, 2, Due::End));
    assert_no_job(&rt, b"%operator", misfit_in(1, 1, Due::Name));
}

const TWO_SCRIPTS: &[u8] =
    b"type 1 host\n%operator a\n# none\nrm x\nbegin\nrm y\n\nrm z\ncommit\n%operator b\n%operator c\nrm x";

fn assert_lines(rt: &impl Abort, lines: &[Vec<u32>]) {
    assert_eq!(rt; lines.len(), 3);
    assert_eq!(rt; lines[1].len(), 0);
    let first = lines[0].as_slice();
    assert_eq!(rt; first.len(), 3);
    assert_eq!(rt; first[0], 4);
    assert_eq!(rt; first[1], 6);
    assert_eq!(rt; first[2], 8);
    let last = lines[2].as_slice();
    assert_eq!(rt; last.len(), 1);
    assert_eq!(rt; last[0], 12);
}

#[test]
fn a_job_has_the_lines_of_its_edits(rt: HostRuntime) {
    let job = job_of(&rt, TWO_SCRIPTS);
    assert_lines(&rt, job.lines.as_slice());
    drop(job);
}

#[test]
fn a_word_of_a_line_has_its_place(rt: HostRuntime) {
    let line: &[u8] = b" rm\tosd.0 x#y\r";
    let last = placed_word(line, 2);
    let none = placed_word(line, 3);
    assert_eq!(rt; placed_word(line, 0).place, 1);
    assert_eq!(rt; last.place, 10);
    assert_text(&rt, last.text, b"x");
    assert_eq!(rt; none.place, 11);
    assert_text(&rt, none.text, b"");
}

#[test]
fn a_line_has_the_form_of_its_first_word(rt: HostRuntime) {
    let add = Keyword::Place(Placing::Insert);
    assert_eq!(rt; Keyword::read(b"remove"), Some(Keyword::Rm));
    assert_eq!(rt; Keyword::read(b"begin"), None);
    assert_eq!(rt; Keyword::Rm.word(), "rm");
    assert_eq!(rt; Form::read(b"add"), Some(Form::Edit(add)));
    assert_eq!(rt; Form::Edit(add).text(), "add osd.N WEIGHT TYPE=NAME ..");
    assert_eq!(rt; Form::read(b"fly"), None);
    assert_eq!(rt; Form::Begin.text(), "begin at N");
}

#[test]
fn a_job_has_at_most_65536_calls(rt: HostRuntime) {
    let text = with_lines(&rt, b"%operator a\n", b"reweight x 1\n");
    let text = text.as_slice();
    assert_eq!(rt; call_count(&rt, text), Some(65536));
    assert_no_job_with(
        &rt,
        text,
        b"\nreweight x\n",
        misfit_in(65539, 2, Due::Weight),
    );
    assert_no_job_with(&rt, text, b"\nreweight x 1", JobFault::TooManyCalls(65539));
    assert_no_job_with(&rt, text, b"\nbegin\nfly", JobFault::TooManyCalls(65539));
    assert_no_job_with(&rt, text, b"\nbegin x", misfit_in(65539, 1, Due::At));
}

#[test]
fn a_batch_has_at_most_65536_edits(rt: HostRuntime) {
    let open = with_lines(&rt, b"%operator a\nbegin\n", b"rm x\n");
    let open = open.as_slice();
    let text = joined(&rt, &[open, b"\ncommit"]);
    assert_eq!(rt; call_count(&rt, text.as_slice()), Some(1));
    assert_no_job_with(
        &rt,
        open,
        b"\nrm x",
        JobFault::BadLine {
            line: 65540,
            why: BadLine::BatchFull,
        },
    );
    assert_no_job_with(&rt, open, b"\nfly", JobFault::NoSuchCommand(65540));
}

#[test]
fn a_job_has_at_most_sixteen_mebibytes(rt: HostRuntime) {
    let text = vec![in rt.alloc(); b'\n'; 16_777_216].expect(&rt, "no memory");
    let text = text.as_slice();
    let job = job_of(&rt, text);
    let count = job.scripts.len();
    drop(job);
    assert_eq!(rt; count, 0);
    assert_no_job_with(&rt, text, b"%", JobFault::TooLong);
}

#[test]
fn a_job_is_cut_before_its_first_section(rt: HostRuntime) {
    let job: &[u8] = b"device 0 a # 100 %\n \r\n%operator b\nrm a\n";
    let text: &[u8] = b"device 0 a # 100 %\n \r\n";
    assert_text(&rt, map_part(job), text);
    assert_eq!(rt; line_feeds(job), 4);
}
