//! The program `crushedit`: applies operators' scripts to the hierarchy of a CRUSH map, and prints
//! the result. `crush_options` parses the command line, `crush_run` does the work, and
//! `crush_input` reports how the run ended. This crate opens the files, checks that the output was
//! stored, and replaces the file that `--output` names.
#![tactic(auto)]

mod files;
mod output_file;
mod standard_output;

use crate::files::{Kept, ProgramFiles};
use crate::standard_output::Remembering;
use crush_input::{
    VerbMap, VerbMapFault, VerbMapRefusal, Words, check_verb_map, file_notes, may_precede_maps,
    read_verb_map, report, report_options, report_verb_map,
};
use crush_options::{MapForm, Options, OptionsFault, OutputSpec, options};
use crush_run::{Ending, RunFault, run_options};
use std::io::{self, ErrorKind, IsTerminal, Stdout, Write};
use std::process::ExitCode;
use std::random::RandomSource;
use std::sync::Wait;
use std::thread::Threads;

/// The name of standard output in messages about a failed write.
const STANDARD_OUTPUT: &str = "standard output";

fn main(rt: HostRuntime) -> ExitCode {
    let status = match read_options(&rt) {
        Ok(options) => run(&rt, &rt, &options),
        Err(fault) => end_without_run(&rt, &fault),
    };
    ExitCode::from(status)
}

/// Writes the help, the version, or the reason why the command line is rejected. Returns the exit
/// status.
fn end_without_run(rt: &HostRuntime, fault: &OptionsFault) -> u8 {
    if !matches!(fault, OptionsFault::Help(_)) {
        return report_options(fault, &mut io::sink(), &mut rt.stderr());
    }
    let mut output = Remembering::new(rt.stdout());
    let mut lines = Vec::new(rt.alloc());
    let status = report_options(fault, &mut output, &mut lines);
    if status == 0 && standard_output::store(rt).is_err() {
        return report(Words::none(), &Err(RunFault::Write), b"", &mut rt.stderr()).status;
    }
    if !output.lacks_reader() {
        let _ = rt.stderr().write_all(lines.as_slice());
    }
    status
}

/// Runs what the options of the command line ask for, and returns the exit status. If `--output`
/// names a file, a run that succeeds replaces this file by its output. If `--output` is missing or
/// names `-`, the output is written to standard output.
fn run(
    rt: &HostRuntime,
    workers: &(impl AllocGlobal + RandomSource + Threads + Wait + Sync),
    options: &Options,
) -> u8 {
    let kept = match read_maps(rt, options) {
        Ok(kept) => kept,
        Err(refusal) => return report_verb_map(&refusal, &mut rt.stderr()).status,
    };
    let files = ProgramFiles {
        rt,
        has_dash: is_verb(options),
        kept: kept.as_slice(),
    };
    match &options.output {
        Some(name) if name.as_str() != "-" => run_to_file(
            rt,
            workers,
            &files,
            options,
            name.as_str(),
        ),
        _ => run_to_stdout(rt, workers, &files, options),
    }
}

fn is_verb(options: &Options) -> bool {
    !matches!(options.maps, MapForm::Job)
}

/// If the command line has a verb, reads the maps of the verb. If the command line has no verb,
/// reads nothing, because the run itself then reads the files.
///
/// A map that the verb may be able to use isn't parsed here, because the run parses it. If the run
/// fails, [`check_maps`] finds the map that is the reason. There is one exception: the command line
/// may say that a script or the other map is read from standard input. Then the first map is parsed
/// before anything is read from standard input. So a person who types a script learns of a fault in
/// the map before typing, and no byte of the input is lost.
///
/// If the first map can't be read, returns no maps. The run then tries to read this map once more,
/// and reports the error. If the other map is refused, the first map is parsed too. If the verb
/// can't use the first map either, the reason for the first map is returned. If both maps have the
/// same file name, the file is read only once.
fn read_maps<'a>(rt: &HostRuntime, options: &'a Options) -> Result<Vec<Kept<'a>>, VerbMapRefusal> {
    let mut kept = Vec::new(rt.alloc());
    let (true, Some(name)) = (is_verb(options), &options.file) else {
        return Ok(kept);
    };
    let name = name.as_str();
    let shown = if options.scripts.is_empty() { "" } else { name };
    match read_map(rt, options, VerbMap::First, name, shown) {
        Ok(map) => keep(rt, &mut kept, map)?,
        Err(refusal) if matches!(refusal.fault, VerbMapFault::Read) => return Ok(kept),
        Err(refusal) => return Err(refusal),
    }
    if uses_input_later(options) {
        check_maps(rt, options, kept.as_slice())?;
    }
    match other_map(options) {
        Some((map, other)) if other != name => match read_map(rt, options, map, other, other) {
            Ok(read) => keep(rt, &mut kept, read)?,
            Err(refusal) => {
                check_maps(rt, options, kept.as_slice())?;
                return Err(refusal);
            }
        },
        _ => {}
    }
    Ok(kept)
}

/// Whether a script or the other map is read from standard input, after the first map.
fn uses_input_later(options: &Options) -> bool {
    for script in options.scripts.as_slice() {
        if script.as_str() == "-" {
            return true;
        }
    }
    matches!(other_map(options), Some((_, "-")))
}

/// Parses the maps of a verb in the order in which they were read. If the verb can't use one of
/// these maps, fails with the reason why it can't use the first such map.
fn check_maps(
    rt: &HostRuntime,
    options: &Options,
    kept: &[Kept<'_>],
) -> Result<(), VerbMapRefusal> {
    for file in kept {
        check_verb_map(
            rt,
            options.maps,
            file.map,
            file.shown,
            file.bytes.as_slice(),
        )?;
    }
    Ok(())
}

fn read_map<'a>(
    rt: &HostRuntime,
    options: &Options,
    map: VerbMap,
    name: &'a str,
    shown: &'a str,
) -> Result<Kept<'a>, VerbMapRefusal> {
    let files = ProgramFiles {
        rt,
        has_dash: true,
        kept: &[],
    };
    let bytes = read_verb_map(rt, &files, options.maps, map, name, shown)?;
    Ok(Kept {
        map,
        name,
        shown,
        bytes,
    })
}

fn keep<'a>(
    rt: &HostRuntime,
    kept: &mut Vec<Kept<'a>>,
    file: Kept<'a>,
) -> Result<(), VerbMapRefusal> {
    let map = file.map;
    match kept.push(file) {
        Ok(()) => Ok(()),
        Err(_) => Err(VerbMapRefusal {
            map,
            fault: VerbMapFault::Memory,
            notes: Vec::new(rt.alloc()),
        }),
    }
}

/// Returns which other map a run reads, and the name of that map's file. The other map is the old
/// map of a comparison, or the wanted map of a plan. Returns `None` if the run reads no other map.
fn other_map(options: &Options) -> Option<(VerbMap, &str)> {
    match &options.output_spec {
        OutputSpec::Since(since) => Some((VerbMap::Old, since.map.as_str())),
        OutputSpec::Changes(tree) => Some((VerbMap::Old, tree.map.as_str())),
        OutputSpec::To(target) => Some((VerbMap::Wanted, target.map.as_str())),
        OutputSpec::Map | OutputSpec::Tree(_) | OutputSpec::AsCeph => None,
    }
}

fn run_to_stdout(
    rt: &HostRuntime,
    workers: &(impl AllocGlobal + RandomSource + Threads + Wait + Sync),
    files: &ProgramFiles<'_>,
    options: &Options,
) -> u8 {
    let mut output = Remembering::new(rt.stdout());
    let Ending { outcome, notes } = run_options(
        workers,
        files,
        options,
        &mut rt.stdin(),
        &mut output,
    );
    let words = Words::of(options);
    let notes = notes.as_slice();
    match outcome {
        Ok(summary) => match standard_output::store(rt) {
            Ok(()) => report(words, &Ok(summary), notes, &mut rt.stderr()).status,
            Err(error) => report_unwritten(rt, options, words, STANDARD_OUTPUT, &error, notes),
        },
        Err(RunFault::Write) => report_write_fault(rt, options, &output, notes),
        Err(fault) => report_fault(rt, files, options, fault, notes),
    }
}

/// Reports why the run failed, and returns the exit status. If the run may have failed before it
/// parsed all of the verb's maps, parses these maps first. If the verb can't use one of them,
/// reports the reason for the first such map instead.
fn report_fault(
    rt: &HostRuntime,
    files: &ProgramFiles<'_>,
    options: &Options,
    fault: RunFault,
    notes: &[u8],
) -> u8 {
    if may_precede_maps(fault) {
        if let Err(refusal) = check_maps(rt, options, files.kept) {
            return report_verb_map(&refusal, &mut rt.stderr()).status;
        }
    }
    report(Words::of(options), &Err(fault), notes, &mut rt.stderr()).status
}

/// Reports that a write to standard output has failed, and returns the exit status. If standard
/// output is a pipe that nobody reads any more, prints no message, but returns the same status. For
/// example, `head` ends as soon as it has read enough, and nobody needs a message about that.
fn report_write_fault(
    rt: &HostRuntime,
    options: &Options,
    output: &Remembering<Stdout>,
    notes: &[u8],
) -> u8 {
    let words = Words::of(options);
    let unwritten = Err(RunFault::Write);
    if output.lacks_reader() {
        return report(words, &unwritten, notes, &mut io::sink()).status;
    }
    match output.error() {
        Some(error) => report_unwritten(rt, options, words, STANDARD_OUTPUT, error, notes),
        None => report(words, &unwritten, notes, &mut rt.stderr()).status,
    }
}

/// Runs what the options of the command line ask for, and keeps the output in memory. If the run
/// succeeds, replaces the file `name` by the output. Returns the exit status.
fn run_to_file(
    rt: &HostRuntime,
    workers: &(impl AllocGlobal + RandomSource + Threads + Wait + Sync),
    files: &ProgramFiles<'_>,
    options: &Options,
    name: &str,
) -> u8 {
    let mut output = Vec::new(rt.alloc());
    let Ending { outcome, notes } = run_options(
        workers,
        files,
        options,
        &mut rt.stdin(),
        &mut output,
    );
    let words = Words::of(options);
    let outcome = match outcome {
        Ok(summary) => match output_file::replace(rt, name, output.as_slice()) {
            Ok(()) => Ok(summary),
            Err(error) => {
                let notes = notes.as_slice();
                return report_unwritten(rt, options, Words::none(), name, &error, notes);
            }
        },
        // A write to a vector fails only if memory runs out.
        Err(RunFault::Write) => Err(RunFault::Memory),
        Err(fault) => return report_fault(rt, files, options, fault, notes.as_slice()),
    };
    report(words, &outcome, notes.as_slice(), &mut rt.stderr()).status
}

/// Reports that the output couldn't be written, and returns the exit status. `name` is the name of
/// the output's file. If the options ask for reasons, also reports the error that the operating
/// system returned.
fn report_unwritten(
    rt: &HostRuntime,
    options: &Options,
    words: Words<'_>,
    name: &str,
    error: &io::Error,
    notes: &[u8],
) -> u8 {
    let unwritten = Err(RunFault::Write);
    let Ok(mut lines) = file_notes(rt.alloc(), options.mode.explain, name, error) else {
        return report(words, &unwritten, notes, &mut rt.stderr()).status;
    };
    let _ = lines.extend_from_slice(notes);
    report(words, &unwritten, lines.as_slice(), &mut rt.stderr()).status
}

/// Parses the command line. If standard error is a terminal, a person reads the messages. So the
/// options then ask for reasons even without `--explain`.
fn read_options(rt: &HostRuntime) -> Result<Options, OptionsFault> {
    let words = words_behind_name(rt)?;
    let mut options = options(rt.alloc(), words.as_slice())?;
    options.mode.explain = options.mode.explain || rt.stderr().is_terminal();
    Ok(options)
}

/// Returns the words of the command line after the program's name. Fails if a word isn't UTF-8, or
/// if memory runs out.
fn words_behind_name(rt: &HostRuntime) -> Result<Vec<String>, OptionsFault> {
    let alloc = rt.alloc();
    match std::env::args(rt) {
        Ok(mut words) => {
            let _ = words.next();
            Ok(words.collect(alloc)?)
        }
        Err(error) if error.kind() == ErrorKind::InvalidData => {
            let text = "error: a word of the command line is not UTF-8\n";
            Err(OptionsFault::Refused(String::from_str(alloc, text)?))
        }
        Err(_) => Err(OptionsFault::Memory),
    }
}
