//! Tests what a run writes to standard error. Also tests what the program writes to standard output
//! and to standard error if a command line starts no run, for example because it requests help.

use crate::run::assert_listed;
use crate::texts::assert_text;
use crush_input::{Aborted, VerbMap, VerbMapFault, VerbMapRefusal, Words, report, report_options};
use crush_options::OptionsFault;
use crush_run::{RunFault, Summary};
use crush_script::JobFault;
use crush_units::WriteFault;
use std::alloc::AllocError;
use std::fmt::Display;
use std::io::{self, ErrorKind, Write};
use std::process::Abort;

#[test]
fn reports_what_no_run_here_comes_to(rt: HostRuntime) {
    let of_job = Err(RunFault::Job(JobFault::OutOfMemory));
    let line = b"crushedit: out of memory\n";
    assert_listed(&rt, &Err(RunFault::Memory), line, 4);
    assert_listed(&rt, &of_job, line, 4);
    assert_eq!(rt; RunFault::from(WriteFault::OutOfMemory), RunFault::Memory);
    assert_eq!(rt; RunFault::from(AllocError), RunFault::Memory);
}

fn assert_written<F: Display + Drop>(rt: &(impl Abort + AllocGlobal), fault: F, text: &str) {
    let told = format!(in rt.alloc(); "{fault}").expect(rt, "no memory");
    assert_eq!(rt; told.as_str(), text);
    drop(told);
}

#[test]
fn the_text_of_a_refusal_is_the_text_of_its_fault(rt: HostRuntime) {
    let refusal = VerbMapRefusal {
        map: VerbMap::Old,
        fault: VerbMapFault::TooLong,
        notes: Vec::new(rt.alloc()),
    };
    assert_written(&rt, refusal, "TooLong");
    let aborted = Aborted {
        fault: RunFault::Read,
        notes: Vec::new(rt.alloc()),
    };
    assert_written(&rt, aborted, "read fault");
}

#[test]
fn tells_of_a_thread_that_was_not_started(rt: HostRuntime) {
    assert_listed(&rt, &Err(RunFault::Thread), b"crushedit: no thread\n", 4);
}

fn differing(adjusted: u32) -> Summary {
    Summary {
        adjusted,
        calls: 2,
        changes: 1,
        differs: true,
    }
}

#[test]
fn counts_what_ended_a_run_and_has_a_status_of_what_differs(rt: HostRuntime) {
    let (made, stays) = (Err(RunFault::Made(3)), Err(RunFault::Differs(7)));
    assert_listed(&rt, &made, b"crushedit: made 3\n", 5);
    assert_listed(&rt, &stays, b"crushedit: differs 7\n", 5);
    assert_listed(&rt, &Ok(differing(0)), b"", 6);
    assert_listed(&rt, &Ok(differing(7)), b"crushedit: adjusted 7\n", 6);
}

fn assert_explained(
    rt: &(impl Abort + AllocGlobal),
    outcome: &Result<Summary, RunFault>,
    told: &[u8],
) {
    let mut err = Vec::new(rt.alloc());
    let words = Words {
        explain: true,
        under: "",
        down_to: "",
        class: "",
    };
    report(words, outcome, b"", &mut err);
    assert_text(rt, err.as_slice(), told);
}

#[test]
fn runs_that_were_not_done_are_told_with_reasons(rt: HostRuntime) {
    assert_explained(
        &rt,
        &Err(RunFault::Thread),
        b"crushedit: no thread\n  the system couldn't start a thread for an operator: try --in-turn\n",
    );
    assert_explained(
        &rt,
        &Err(RunFault::Memory),
        b"crushedit: out of memory\n  not enough memory for the job\n",
    );
}

#[derive(Drop)]
struct Closed;

impl Write for Closed {
    fn write(&mut self, _bytes: &[u8]) -> io::Result<usize> {
        Err(ErrorKind::Other.into())
    }

    fn flush(&mut self) -> io::Result<()> {
        Ok(())
    }
}

#[test]
fn keeps_the_status_where_standard_error_fails(rt: HostRuntime) {
    let mut held = [0u8; 14];
    let mut room = held.as_mut_slice();
    let told = report(Words::none(), &Err(RunFault::Read), b"", &mut room);
    assert_eq!(rt; told.status, 3);
    assert!(rt; told.written.is_err());
    assert_text(&rt, held.as_slice(), b"crushedit: rea");
    let closed = report(Words::none(), &Err(RunFault::Memory), b"", &mut Closed);
    assert_eq!(rt; closed.status, 4);
}

fn assert_ended(
    rt: &(impl Abort + AllocGlobal),
    fault: &OptionsFault,
    output: &str,
    error: &str,
    status: u8,
) {
    let mut out = Vec::new(rt.alloc());
    let mut err = Vec::new(rt.alloc());
    let told = report_options(fault, &mut out, &mut err);
    assert_eq!(rt; told, status);
    assert_text(rt, out.as_slice(), output.as_bytes());
    assert_text(rt, err.as_slice(), error.as_bytes());
}

const HELP: &str = "Usage: crushedit [OPTIONS] [FILE]\n\nOptions:\n  -h, --help  Print help\n";

const WRITE_FAULT: &[u8] = b"crushedit: write fault\n";

const REFUSAL: &str = "error: unexpected argument '--fly' found\n";

fn owned(rt: &(impl Abort + AllocGlobal), text: &str) -> String {
    String::from_str(rt.alloc(), text).expect(rt, "no memory")
}

#[test]
fn command_lines_without_a_run_are_told_whole(rt: HostRuntime) {
    let help = OptionsFault::Help(owned(&rt, HELP));
    let refused = OptionsFault::Refused(owned(&rt, REFUSAL));
    let memory = OptionsFault::Memory;
    assert_ended(&rt, &help, HELP, "", 0);
    assert_ended(&rt, &refused, "", REFUSAL, 2);
    assert_ended(&rt, &memory, "", "crushedit: out of memory\n", 4);
    let status = report_options(&refused, &mut Closed, &mut Closed);
    drop(help);
    drop(refused);
    assert_eq!(rt; status, 2);
}

fn assert_write_fault<W: Write>(
    rt: &(impl Abort + AllocGlobal),
    fault: &OptionsFault,
    out: &mut W,
) {
    let mut err = Vec::new(rt.alloc());
    let status = report_options(fault, out, &mut err);
    assert_eq!(rt; status, 3);
    assert_text(rt, err.as_slice(), WRITE_FAULT);
}

#[test]
fn help_that_cannot_be_written_is_a_write_fault(rt: HostRuntime) {
    let help = OptionsFault::Help(owned(&rt, HELP));
    let mut held = [0u8; 14];
    let mut room = held.as_mut_slice();
    assert_write_fault(&rt, &help, &mut Closed);
    assert_write_fault(&rt, &help, &mut room);
    drop(help);
    assert_text(&rt, held.as_slice(), b"Usage: crushed");
}

fn assert_told(rt: &(impl Abort + AllocGlobal), fault: RunFault, status: u8) {
    let line = format!(in rt.alloc(); "crushedit: {fault}\n").expect(rt, "no memory");
    assert_listed(rt, &Err(fault), line.as_bytes(), status);
    drop(line);
}

#[test]
fn the_line_of_a_fault_is_the_text_of_the_fault(rt: HostRuntime) {
    assert_told(&rt, RunFault::Read, 3);
    assert_told(&rt, RunFault::Write, 3);
    assert_told(&rt, RunFault::Memory, 4);
    assert_told(&rt, RunFault::Thread, 4);
    assert_told(&rt, RunFault::Refused(2), 5);
    assert_told(&rt, RunFault::Made(3), 5);
    assert_told(&rt, RunFault::Conflicts(4), 5);
    assert_told(&rt, RunFault::Differs(5), 5);
}

#[test]
fn the_line_of_a_fault_of_a_job_is_the_text_of_the_fault(rt: HostRuntime) {
    assert_told(&rt, RunFault::Job(JobFault::NoSuchCommand(6)), 1);
    assert_told(&rt, RunFault::Job(JobFault::OpenBatch(7)), 1);
    assert_told(&rt, RunFault::Job(JobFault::TooManyOperators(8)), 1);
    assert_told(&rt, RunFault::Job(JobFault::DuplicateOperator(9)), 1);
    assert_told(&rt, RunFault::Job(JobFault::TooManyCalls(10)), 1);
    assert_told(&rt, RunFault::Job(JobFault::TooLong), 1);
    assert_told(&rt, RunFault::Job(JobFault::OutOfMemory), 4);
}
