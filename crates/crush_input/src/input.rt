//! Reads the bytes of a job, from standard input and from files.

ghost use Rattle.std.specs.Prelude.{◌≡◌, ◌≤◌, ◌<◌, ◌≢◌, ◌++◌, ◌∷◌, ℕ, List, [], Option, None, OnOk, IfOk, IfErr, IfSome, length, map, take};
ghost use Rattle.std.specs.Io.KnownBytes.{Consumes};
ghost use Rattle.crush_input.specs.Input.{IsInput, IsJoined, IsReadAndAppended, first_bytes, job_bytes, job_script_spans, readable_bytes, TakesFew, TakesMost};
ghost use Rattle.crush_input.specs.Joined.{ScriptSpanData, joined, script_span_data, script_span_of, script_spans_of, with_scripts};
ghost use Rattle.crush_input.specs.Notes.{AreNotesOfFile};
ghost use Rattle.crush_input.specs.Options.{AreNotesOfInputFault};
ghost use Rattle.crush_input.specs.Stages.{IsInputFault};

use crate::aborted::Aborted;
use crate::fault::RunFault;
use crate::files::Opens;
use crate::joined::{ScriptSpan, push_script};
use crate::notes::unread;
use crush_options::Options;
use crush_units::limits::LONGEST_JOB;
use std::alloc::{AllocError, Global};
use std::io::{self, Read};

/// The largest number of bytes that are read from one reader. It is one more than a job may have,
/// so that a job with too many bytes is noticed.
pub const MOST_BYTES: usize = LONGEST_JOB + 1;

/// The largest number of bytes that one read requests.
const PIECE: usize = 65_536;

/// Reads the bytes of a job up to their end. If there are more bytes than a job may have, the
/// function reads one byte more than a job may have, and then stops.
///
/// The function reads at most [`MOST_BYTES`] (16,777,217) bytes, and calls `read` at most as many
/// times, even if it fails. If a read fails, the function doesn't repeat the read, and fails with
/// [`RunFault::Read`]. If memory runs out, it fails with [`RunFault::Memory`].
pub fn read_bytes<R: Read>(alloc: Global, reader: &mut R) -> Result<Vec<u8>, RunFault>
    ensures few { IfOk result (λ bytes. length bytes.items ≤ MOST_BYTES) }
    ensures fault { IfErr result IsInputFault }
    ensures consumed { IfOk result (λ bytes.
        Consumes (R.remaining reader.old) (R.remaining reader.new) bytes.items) }
    ensures taken { IfErr result (λ _.
        TakesFew (R.remaining reader.old) (R.remaining reader.new)) }
    ensures bytes { IfOk result (λ bytes. IfSome (R.remaining reader.old)
        (λ all. bytes.items ≡ take MOST_BYTES all)) }
{
    match read_most(alloc, MOST_BYTES, reader) {
        Ok(bytes) => Ok(bytes),
        Err(unread) => Err(unread.fault()),
    }
}

#[derive(Drop)]
enum ReadFailure {
    Error(io::Error),
    Memory,
}

impl ReadFailure {
    fn fault(self) -> RunFault
        ensures { IsInputFault result }
    {
        match self {
            ReadFailure::Error(_) => RunFault::Read,
            ReadFailure::Memory => RunFault::Memory,
        }
    }
}

impl From<AllocError> for ReadFailure {
    ghost use Rattle.crush_input.specs.declared.input.ReadFailure.TheVariants.{Memory};
    ghost use Rattle.std.specs.Prelude.{◌≡◌};

    ghost from_gives = { λ _ unread. unread ≡ Memory };

    fn from(_error: AllocError) -> ReadFailure {
        ReadFailure::Memory
    }
}

/// Reads at most `most` bytes, and calls `read` at most `most` times. The function isn't inlined,
/// so that its buffer `piece` isn't on the stack while a job runs.
#[inline(never)]
fn read_most<R: Read>(alloc: Global, most: usize, reader: &mut R) -> Result<Vec<u8>, ReadFailure>
    ensures few { IfOk result (λ bytes. length bytes.items ≤ most) }
    ensures consumed { IfOk result (λ bytes.
        Consumes (R.remaining reader.old) (R.remaining reader.new) bytes.items) }
    ensures taken { IfErr result (λ _.
        TakesMost most (R.remaining reader.old) (R.remaining reader.new)) }
    ensures bytes { IfOk result (λ bytes. IfSome (R.remaining reader.old)
        (λ all. bytes.items ≡ take most all)) }
{
    let mut bytes = Vec::new(alloc);
    if most == 0 {
        return Ok(bytes);
    }
    let mut piece = [0u8; PIECE];
    for _ in 0..most {
        let want = (most - bytes.len()).min(PIECE);
        let room = &mut piece[..want];
        match reader.read(room) {
            Ok(0) => return Ok(bytes),
            Ok(count) => bytes.extend_from_slice(&room[..count])?,
            Err(error) => return Err(ReadFailure::Error(error)),
        }
        if bytes.len() == most {
            return Ok(bytes);
        }
    }
    Ok(bytes)
}

fn read_without_notes<R: Read>(
    alloc: Global,
    most: usize,
    reader: &mut R,
) -> Result<Vec<u8>, Aborted>
    ensures few { IfOk result (λ bytes. length bytes.items ≤ most) }
    ensures bytes { IfOk result (λ bytes. IfSome (R.remaining reader.old)
        (λ all. bytes.items ≡ take most all)) }
    ensures fault { IfErr result (λ aborted. IsInputFault aborted.fault) }
    ensures quiet { IfErr result (λ aborted. aborted.notes.items ≡ []) }
    ensures taken { TakesMost most (R.remaining reader.old) (R.remaining reader.new) }
{
    match read_most(alloc, most, reader) {
        Ok(bytes) => Ok(bytes),
        Err(unread) => Err(Aborted::without_notes(alloc, unread.fault())),
    }
}

/// Reads at most `most` bytes of the open file `name`. If a read fails and `explain` is set, a note
/// has the file's name and the system's reason.
fn read_named<R: Read>(
    alloc: Global,
    explain: bool,
    name: &str,
    most: usize,
    file: &mut R,
) -> Result<Vec<u8>, Aborted>
    ensures few { IfOk result (λ bytes. length bytes.items ≤ most) }
    ensures bytes { IfOk result (λ bytes. IfSome (R.remaining file.old)
        (λ all. bytes.items ≡ take most all)) }
    ensures fault { IfErr result (λ aborted. IsInputFault aborted.fault) }
    ensures noted { IfErr result (λ aborted.
        AreNotesOfFile explain name.now aborted.fault aborted.notes.items) }
    ensures taken { TakesMost most (R.remaining file.old) (R.remaining file.new) }
{
    match read_most(alloc, most, file) {
        Ok(bytes) => Ok(bytes),
        Err(ReadFailure::Error(error)) => Err(unread(alloc, explain, name, error)),
        Err(ReadFailure::Memory) => Err(Aborted::without_notes(alloc, RunFault::Memory)),
    }
}

pub(crate) fn read_file<F: Opens>(
    alloc: Global,
    files: &F,
    explain: bool,
    name: &str,
) -> Result<Vec<u8>, Aborted>
    ensures few { IfOk result (λ bytes. length bytes.items ≤ MOST_BYTES) }
    ensures bytes { IfOk result (λ bytes. IfSome (F.content files.now name.now)
        (IsInput bytes.items)) }
    ensures fault { IfErr result (λ aborted. IsInputFault aborted.fault) }
    ensures noted { IfErr result (λ aborted.
        AreNotesOfFile explain name.now aborted.fault aborted.notes.items) }
{
    match files.open(name) {
        Ok(mut file) => read_named(alloc, explain, name, MOST_BYTES, &mut file),
        Err(error) => Err(unread(alloc, explain, name, error)),
    }
}

/// Reads the job's file. If the options name no file, reads standard input.
fn read_first<F: Opens, R: Read>(
    alloc: Global,
    files: &F,
    options: &Options,
    input: &mut R,
) -> Result<Vec<u8>, Aborted>
    ensures bytes { IfOk result (λ bytes.
        IfSome (first_bytes (F.content files.now) options.now.file (R.remaining input.old))
        (IsInput bytes.items)) }
    ensures input { options.now.file ≢ None → R.remaining input.new ≡ R.remaining input.old }
    ensures taken { TakesFew (R.remaining input.old) (R.remaining input.new) }
    ensures fault { IfErr result (λ aborted. IsInputFault aborted.fault) }
    ensures noted { IfErr result (λ aborted.
        AreNotesOfInputFault options.now aborted.fault aborted.notes.items) }
{
    match &options.file {
        None => read_without_notes(alloc, MOST_BYTES, input),
        Some(name) => read_file(alloc, files, options.mode.explain, name.as_str()),
    }
}

/// The bytes of a job, and for each file of scripts, which lines of the job come from this file.
#[derive(Drop)]
pub(crate) struct Joined<'a> {
    pub(crate) bytes: Vec<u8>,
    pub(crate) spans: Vec<ScriptSpan<'a>>,
}

impl<'a> Joined<'a> {
    fn readable_bytes(&self) -> usize
        ensures { result ≡ readable_bytes self.now.bytes.items }
    {
        MOST_BYTES.saturating_sub(self.bytes.len())
    }

    fn push(&mut self, name: &'a [u8], script: &[u8]) -> Result<(), AllocError>
        ensures bytes { OnOk result
            (self.new.bytes.items ≡ joined self.old.bytes.items name.now script.now) }
        ensures spans { OnOk result (map script_span_data self.new.spans.items
            ≡ map script_span_data self.old.spans.items
            ++ script_span_of self.old.bytes.items name.now script.now ∷ []) }
    {
        let span = push_script(name, script, &mut self.bytes)?;
        let Ok(()) = self.spans.push(span) else {
            return Err(AllocError);
        };
        Ok(())
    }

    fn read_and_append<R: Read>(
        &mut self,
        alloc: Global,
        explain: bool,
        name: &'a str,
        file: &mut R,
    ) -> Result<(), Aborted>
        ensures read { OnOk result
            (IsReadAndAppended self.old self.new name.now (R.remaining file.old)) }
        ensures taken { TakesMost (readable_bytes self.old.bytes.items) (R.remaining file.old)
            (R.remaining file.new) }
        ensures fault { IfErr result (λ aborted. IsInputFault aborted.fault) }
        ensures noted { IfErr result (λ aborted.
            AreNotesOfFile explain name.now aborted.fault aborted.notes.items) }
    {
        let script = read_named(alloc, explain, name, self.readable_bytes(), file)?;
        match self.push(name.as_bytes(), script.as_slice()) {
            Ok(()) => Ok(()),
            Err(_) => Err(Aborted::without_notes(alloc, RunFault::Memory)),
        }
    }
}

fn push_file<'a, F: Opens>(
    alloc: Global,
    files: &F,
    explain: bool,
    name: &'a str,
    job: &mut Joined<'a>,
) -> Result<(), Aborted>
    ensures read { OnOk result (IsReadAndAppended job.old job.new name.now
        (F.content files.now name.now)) }
    ensures fault { IfErr result (λ aborted. IsInputFault aborted.fault) }
    ensures noted { IfErr result (λ aborted.
        AreNotesOfFile explain name.now aborted.fault aborted.notes.items) }
{
    match files.open(name) {
        Ok(mut file) => job.read_and_append(alloc, explain, name, &mut file),
        Err(error) => Err(unread(alloc, explain, name, error)),
    }
}

fn push_files<'a, F: Opens>(
    alloc: Global,
    files: &F,
    options: &'a Options,
    job: &mut Joined<'a>,
) -> Result<(), Aborted>
    ensures job { OnOk result ((known : Option (List ℕ)) (spans : List ScriptSpanData)
        → IfSome known (λ all. IsJoined job.old all spans)
        → IfSome (with_scripts (F.content files.now) known options.now.scripts.items)
        (λ all. IsJoined job.new all
        (spans ++ script_spans_of (F.content files.now) known options.now.scripts.items))) }
    ensures fault { IfErr result (λ aborted. IsInputFault aborted.fault) }
    ensures noted { IfErr result (λ aborted.
        AreNotesOfInputFault options.now aborted.fault aborted.notes.items) }
{
    let names = options.scripts.as_slice();
    for name in names {
        push_file(alloc, files, options.mode.explain, name.as_str(), job)?;
    }
    Ok(())
}

pub(crate) fn read_all<'a, F: Opens, R: Read>(
    alloc: Global,
    files: &F,
    options: &'a Options,
    input: &mut R,
) -> Result<Joined<'a>, Aborted>
    ensures job { IfOk result (λ job.
        IfSome (job_bytes (F.content files.now) options.now (R.remaining input.old))
        (λ all. IsJoined job all
        (job_script_spans (F.content files.now) options.now (R.remaining input.old)))) }
    ensures input { options.now.file ≢ None → R.remaining input.new ≡ R.remaining input.old }
    ensures taken { TakesFew (R.remaining input.old) (R.remaining input.new) }
    ensures fault { IfErr result (λ aborted. IsInputFault aborted.fault) }
    ensures noted { IfErr result (λ aborted.
        AreNotesOfInputFault options.now aborted.fault aborted.notes.items) }
{
    let bytes = read_first(alloc, files, options, input)?;
    let mut job = Joined {
        bytes,
        spans: Vec::new(alloc),
    };
    push_files(alloc, files, options, &mut job)?;
    Ok(job)
}
