//! Writes the lines on standard error, and chooses the status with which the program ends.

ghost use Rattle.std.specs.Prelude.{◌≡◌, ◌++◌, [], codes, if◌then◌else◌};
ghost use Rattle.crush_units.specs.Writes.{Writes, AppendsPrefix};
ghost use Rattle.crush_input.specs.OptionsReport.{IsHelpWhole, IsOptionsStatus, options_error, options_output};
ghost use Rattle.crush_input.specs.Report.{adjusted_line, fault_reason, line_fault, text_fault, job_fault, made_line, outcome_reason, run_fault, refused_line, report_line, report_lines, report_text, status};
ghost use Rattle.crush_input.specs.Words.{no_words, words_data};
ghost use Rattle.crush_input.specs.Report.{conflicts_line, differs_line, lacking_line, long_reason, map_word, second_map_fault, second_map_reason, second_map_status, second_map_text_fault, unread_reason};

use crate::fault::{RunFault, SecondMap, SecondMapFault};
use crate::shown::put_shown;
use crate::summary::Summary;
use crate::words::Words;
use crush_options::OptionsFault;
use crush_script::JobFault;
use crush_text::TextFault;
use crush_units::{WriteFault, put, put_all};
use itoa::Buffer;
use std::io::Write;

const OUT_OF_MEMORY: &[u8] = b"crushedit: out of memory\n";

const MEMORY_REASON: &[u8] = b"  not enough memory for the job\n";

/// The reason that is printed if writing to standard output failed, or if the output couldn't be
/// stored.
const WRITE_REASON: &[u8] =
    b"  the output couldn't be written or stored completely: don't use it\n";

fn write_line_fault<E: Write>(number: usize, name: &str, err: &mut E) -> Result<(), WriteFault>
    ensures { Writes result (E.contents err.old) (E.contents err.new)
        (line_fault number name.now) }
{
    let mut buffer = Buffer::new();
    let number = buffer.format(number).as_bytes();
    put_all(
        err,
        &[
            b"crushedit: line ".as_slice(),
            number,
            b": ".as_slice(),
            name.as_bytes(),
            b"\n".as_slice(),
        ],
    )
}

fn write_text_fault<E: Write>(fault: TextFault, err: &mut E) -> Result<(), WriteFault>
    ensures { Writes result (E.contents err.old) (E.contents err.new) (text_fault fault) }
{
    let mut buffer = Buffer::new();
    let place = buffer.format(fault.place).as_bytes();
    let name = fault.kind.name().as_bytes();
    put_all(
        err,
        &[
            b"crushedit: byte ".as_slice(),
            place,
            b": ".as_slice(),
            name,
            b"\n".as_slice(),
        ],
    )
}

fn write_job_fault<E: Write>(fault: JobFault, err: &mut E) -> Result<(), WriteFault>
    ensures { Writes result (E.contents err.old) (E.contents err.new) (job_fault fault) }
{
    match fault {
        JobFault::BadLine { line, .. } => write_line_fault(line, "BadLine", err),
        JobFault::NoSuchCommand(number) => write_line_fault(number, "NoSuchCommand", err),
        JobFault::OpenBatch(number) => write_line_fault(number, "OpenBatch", err),
        JobFault::TooManyOperators(number) => write_line_fault(number, "TooManyOperators", err),
        JobFault::DuplicateOperator(number) => write_line_fault(number, "DuplicateOperator", err),
        JobFault::TooManyCalls(number) => write_line_fault(number, "TooManyCalls", err),
        JobFault::Text(fault) => write_text_fault(fault, err),
        JobFault::TooLong => put(err, b"crushedit: TooLong\n"),
        JobFault::OutOfMemory => put(err, OUT_OF_MEMORY),
    }
}

fn map_word(which: SecondMap) -> &'static [u8]
    ensures { result.now ≡ map_word which }
{
    match which {
        SecondMap::Since => b"since",
        SecondMap::To => b"to",
    }
}

fn write_second_map_text<E: Write>(
    which: SecondMap,
    fault: TextFault,
    err: &mut E,
) -> Result<(), WriteFault>
    ensures { Writes result (E.contents err.old) (E.contents err.new)
        (second_map_text_fault which fault) }
{
    let mut buffer = Buffer::new();
    let place = buffer.format(fault.place).as_bytes();
    let name = fault.kind.name().as_bytes();
    put_all(
        err,
        &[
            b"crushedit: ".as_slice(),
            map_word(which),
            b": byte ".as_slice(),
            place,
            b": ".as_slice(),
            name,
            b"\n".as_slice(),
        ],
    )
}

fn write_of_map<E: Write>(
    which: SecondMap,
    what: &'static [u8],
    err: &mut E,
) -> Result<(), WriteFault>
    ensures { Writes result (E.contents err.old) (E.contents err.new)
        (codes "crushedit: " ++ map_word which ++ what.now) }
{
    put_all(err, &[b"crushedit: ".as_slice(), map_word(which), what])
}

fn write_second_map_fault<E: Write>(
    which: SecondMap,
    fault: SecondMapFault,
    err: &mut E,
) -> Result<(), WriteFault>
    ensures { Writes result (E.contents err.old) (E.contents err.new)
        (second_map_fault which fault) }
{
    match fault {
        SecondMapFault::Text(fault) if JobFault::Text(fault).lacks_memory() => put(
            err,
            OUT_OF_MEMORY,
        ),
        SecondMapFault::Text(fault) => write_second_map_text(which, fault, err),
        SecondMapFault::TooLong => write_of_map(which, b": TooLong\n", err),
        SecondMapFault::Read => write_of_map(which, b": read fault\n", err),
    }
}

fn write_lacking<E: Write>(what: &'static [u8], name: &str, err: &mut E) -> Result<(), WriteFault>
    ensures { Writes result (E.contents err.old) (E.contents err.new)
        (lacking_line what.now name.now) }
{
    put_all(err, &[b"crushedit: no ".as_slice(), what])?;
    put_shown(name.as_bytes(), err)?;
    put(err, b"\n")
}

fn write_run_fault<E: Write>(
    words: Words<'_>,
    fault: RunFault,
    err: &mut E,
) -> Result<(), WriteFault>
    ensures { Writes result (E.contents err.old) (E.contents err.new)
        (run_fault (words_data words.entry) fault) }
{
    match fault {
        RunFault::Job(fault) if fault.lacks_memory() => put(err, OUT_OF_MEMORY),
        RunFault::Job(fault) => write_job_fault(fault, err),
        RunFault::Read => put(err, b"crushedit: read fault\n"),
        RunFault::Write => put(err, b"crushedit: write fault\n"),
        RunFault::Memory => put(err, OUT_OF_MEMORY),
        RunFault::Thread => put(err, b"crushedit: no thread\n"),
        RunFault::Refused(count) => write_refused(count, err),
        RunFault::Made(count) => write_made(count, err),
        RunFault::Conflicts(count) => write_conflicts(count, err),
        RunFault::Differs(count) => write_differs(count, err),
        RunFault::NoItem => write_lacking(b"item ", words.under, err),
        RunFault::NoType => write_lacking(b"type ", words.down_to, err),
        RunFault::NoClass => write_lacking(b"class ", words.class, err),
        RunFault::SecondMap(which, fault) => write_second_map_fault(which, fault, err),
    }
}

fn write_refused<E: Write>(count: u32, err: &mut E) -> Result<(), WriteFault>
    ensures { Writes result (E.contents err.old) (E.contents err.new)
        (refused_line count) }
{
    let mut buffer = Buffer::new();
    let count = buffer.format(count).as_bytes();
    put_all(
        err,
        &[b"crushedit: refused ".as_slice(), count, b"\n".as_slice()],
    )
}

pub(crate) fn write_made<E: Write>(count: usize, err: &mut E) -> Result<(), WriteFault>
    ensures { Writes result (E.contents err.old) (E.contents err.new)
        (made_line count) }
{
    let mut buffer = Buffer::new();
    let count = buffer.format(count).as_bytes();
    put_all(
        err,
        &[b"crushedit: made ".as_slice(), count, b"\n".as_slice()],
    )
}

pub(crate) fn write_conflicts<E: Write>(count: usize, err: &mut E) -> Result<(), WriteFault>
    ensures { Writes result (E.contents err.old) (E.contents err.new)
        (conflicts_line count) }
{
    let mut buffer = Buffer::new();
    let count = buffer.format(count).as_bytes();
    put_all(
        err,
        &[b"crushedit: conflicts ".as_slice(), count, b"\n".as_slice()],
    )
}

fn write_differs<E: Write>(count: usize, err: &mut E) -> Result<(), WriteFault>
    ensures { Writes result (E.contents err.old) (E.contents err.new)
        (differs_line count) }
{
    let mut buffer = Buffer::new();
    let count = buffer.format(count).as_bytes();
    put_all(
        err,
        &[b"crushedit: differs ".as_slice(), count, b"\n".as_slice()],
    )
}

fn write_adjusted<E: Write>(adjusted: u32, err: &mut E) -> Result<(), WriteFault>
    ensures { Writes result (E.contents err.old) (E.contents err.new)
        (adjusted_line adjusted) }
{
    let mut buffer = Buffer::new();
    let adjusted = buffer.format(adjusted).as_bytes();
    put_all(
        err,
        &[
            b"crushedit: adjusted ".as_slice(),
            adjusted,
            b"\n".as_slice(),
        ],
    )
}

fn write_report<E: Write>(
    words: Words<'_>,
    outcome: &Result<Summary, RunFault>,
    err: &mut E,
) -> Result<(), WriteFault>
    ensures { Writes result (E.contents err.old) (E.contents err.new)
        (report_line (words_data words.entry) outcome.now) }
{
    match outcome {
        Ok(summary) if summary.adjusted == 0 => put(err, b""),
        Ok(summary) => write_adjusted(summary.adjusted, err),
        Err(fault) => write_run_fault(words, *fault, err),
    }
}

fn put_fault<E: Write>(fault: RunFault, err: &mut E)
    ensures { AppendsPrefix (E.contents err.old) (E.contents err.new)
        (run_fault no_words fault) }
{
    let _ = write_run_fault(Words::none(), fault, err);
}

fn long_reason(which: SecondMap) -> &'static [u8]
    ensures { result.now ≡ long_reason which }
{
    match which {
        SecondMap::Since => b"  the file of --since has at most 16777216 bytes\n",
        SecondMap::To => b"  the file of --to has at most 16777216 bytes\n",
    }
}

fn unread_reason(which: SecondMap) -> &'static [u8]
    ensures { result.now ≡ unread_reason which }
{
    match which {
        SecondMap::Since => b"  the file of --since can't be opened or can't be read to its end\n",
        SecondMap::To => b"  the file of --to can't be opened or can't be read to its end\n",
    }
}

fn second_map_reason(which: SecondMap, fault: SecondMapFault) -> &'static [u8]
    ensures { result.now ≡ second_map_reason which fault }
{
    match fault {
        SecondMapFault::Text(fault) if JobFault::Text(fault).lacks_memory() => MEMORY_REASON,
        SecondMapFault::Text(_) => b"",
        SecondMapFault::TooLong => long_reason(which),
        SecondMapFault::Read => unread_reason(which),
    }
}

/// Returns the line that gives the reason why a run failed. The line is empty if the run's notes
/// have the reason.
fn fault_reason(fault: RunFault) -> &'static [u8]
    ensures { result.now ≡ fault_reason fault }
{
    match fault {
        RunFault::Job(fault) if fault.lacks_memory() => MEMORY_REASON,
        RunFault::Job(_) => b"",
        RunFault::Read => {
            b"  a file, or standard input, can't be opened or can't be read to its end\n"
        }
        RunFault::Write => WRITE_REASON,
        RunFault::Memory => MEMORY_REASON,
        RunFault::Thread =>
            b"  the system couldn't start a thread for an operator: try --in-turn\n",
        RunFault::Refused(_) | RunFault::Made(_) | RunFault::Conflicts(_) | RunFault::Differs(_) =>
            b"",
        RunFault::NoItem =>
            b"  --under needs the name of an item that the map has after the scripts\n",
        RunFault::NoType => b"  --down-to needs the name of a type of the map\n",
        RunFault::NoClass => { b"  --class needs a class that at least one device has\n" }
        RunFault::SecondMap(which, fault) => second_map_reason(which, fault),
    }
}

fn outcome_reason(outcome: &Result<Summary, RunFault>) -> &'static [u8]
    ensures { result.now ≡ outcome_reason outcome.now }
{
    match outcome {
        Ok(_) => b"",
        Err(fault) => fault_reason(*fault),
    }
}

fn reason_if_requested(words: Words<'_>, outcome: &Result<Summary, RunFault>) -> &'static [u8]
    ensures { result.now ≡ (if words.entry.explain then outcome_reason outcome.now else []) }
{
    if words.explain {
        outcome_reason(outcome)
    } else {
        b""
    }
}

fn write_lines<E: Write>(
    words: Words<'_>,
    outcome: &Result<Summary, RunFault>,
    err: &mut E,
) -> Result<(), WriteFault>
    ensures { Writes result (E.contents err.old) (E.contents err.new)
        (report_lines (words_data words.entry) outcome.now) }
{
    write_report(words, outcome, err)?;
    put(err, reason_if_requested(words, outcome))
}

fn write_ending<E: Write>(
    words: Words<'_>,
    outcome: &Result<Summary, RunFault>,
    notes: &[u8],
    err: &mut E,
) -> Result<(), WriteFault>
    ensures { Writes result (E.contents err.old) (E.contents err.new)
        (report_text (words_data words.entry) outcome.now notes.now) }
{
    write_lines(words, outcome, err)?;
    put(err, notes)
}

fn put_prefix<E: Write>(bytes: &[u8], err: &mut E)
    ensures { AppendsPrefix (E.contents err.old) (E.contents err.new) bytes.now }
{
    let _ = put(err, bytes);
}

fn second_map_status(fault: SecondMapFault) -> u8
    ensures { result ≡ second_map_status fault }
{
    match fault {
        SecondMapFault::Text(fault) if JobFault::Text(fault).lacks_memory() => 4,
        SecondMapFault::Text(_) | SecondMapFault::TooLong => 1,
        SecondMapFault::Read => 3,
    }
}

fn status_of(outcome: &Result<Summary, RunFault>) -> u8
    ensures { result ≡ status outcome.now }
{
    match outcome {
        Ok(summary) if summary.differs => 6,
        Ok(_) => 0,
        Err(RunFault::Memory | RunFault::Thread) => 4,
        Err(RunFault::Refused(_) | RunFault::Made(_)) => 5,
        Err(RunFault::Conflicts(_) | RunFault::Differs(_)) => 5,
        Err(RunFault::Job(fault)) if fault.lacks_memory() => 4,
        Err(RunFault::Job(_) | RunFault::NoItem | RunFault::NoType | RunFault::NoClass) => 1,
        Err(RunFault::SecondMap(_, fault)) => second_map_status(*fault),
        Err(RunFault::Read | RunFault::Write) => 3,
    }
}

/// The result of [`report`] and of [`report_verb_map`](crate::report_verb_map).
#[derive(Clone, Copy, Debug, PartialEq, Eq)]
pub struct ReportOutcome {
    /// The status with which the program ends.
    pub status: u8,
    /// Whether the whole text was written to standard error.
    pub written: Result<(), WriteFault>,
}

/// Writes the text for standard error about a run, and returns the status of the program.
///
/// The text begins with a line on the outcome of the run. If the run has succeeded and has replaced
/// no bucket weights, the text doesn't have this line. With `--explain`, a line with the reason for
/// a fault follows, unless the notes have the reason. The text ends with `notes`.
///
/// The status is:
///
/// - 0: The run has succeeded.
/// - 6: The run has succeeded, and with `--exit-code` there is something to report.
/// - 1: The input isn't a job, the file of `--since` or `--to` isn't a map, or the map after the
///   scripts lacks the item of `--under`, the type of `--down-to` or the class of `--class`. (For a
///   tree of what has changed, it is enough that the map of `--since` has the class.)
/// - 3: Reading or writing failed.
/// - 4: Memory ran out, or a thread couldn't be started.
/// - 5: The run ended because calls were refused, because calls created buckets in spite of
///   `--no-make`, because changes were lost, or because differences remain after the plan of a
///   strict run. The notes list these calls, changes or differences.
///
/// If writing to standard error fails, `written` says so, and the status doesn't change.
pub fn report<E: Write>(
    words: Words<'_>,
    outcome: &Result<Summary, RunFault>,
    notes: &[u8],
    err: &mut E,
) -> ReportOutcome
    ensures status { result.status ≡ status outcome.now }
    ensures text { Writes result.written (E.contents err.old) (E.contents err.new)
        (report_text (words_data words.entry) outcome.now notes.now) }
{
    let written = write_ending(words, outcome, notes, err);
    ReportOutcome {
        status: status_of(outcome),
        written,
    }
}

/// Writes the text for a command line that starts no run, and returns the status of the program:
///
/// - 0: The help or the version was requested, and all of it was written to standard output.
/// - 3: The help or the version was requested, but not all of it could be written. A line on
///   standard error says so.
/// - 2: The command line was rejected. The reason is written to standard error.
/// - 4: Memory ran out. A line on standard error says so.
///
/// A failed write to standard error is ignored.
pub fn report_options<W: Write, E: Write>(fault: &OptionsFault, out: &mut W, err: &mut E) -> u8
    ensures status { IsOptionsStatus fault.now result }
    ensures out { AppendsPrefix (W.contents out.old) (W.contents out.new)
        (options_output fault.now) }
    ensures line { AppendsPrefix (E.contents err.old) (E.contents err.new)
        (options_error fault.now) }
    ensures whole { IsHelpWhole fault.now result (W.contents out.old) (W.contents out.new)
        (E.contents err.old) (E.contents err.new) }
{
    match fault {
        OptionsFault::Help(text) => match put(out, text.as_bytes()) {
            Ok(()) => 0,
            Err(_) => {
                put_fault(RunFault::Write, err);
                3
            }
        },
        OptionsFault::Refused(text) => {
            put_prefix(text.as_bytes(), err);
            2
        }
        OptionsFault::Memory => {
            put_fault(RunFault::Memory, err);
            4
        }
    }
}
