//! Reads the map files of a verb. A verb is the first word of a command line such as `diff` or
//! `plan`. These files have no scripts, and some verbs require them to be complete: the last line
//! that isn't blank must be `# end crush map`.
//!
//! The run of the verb parses the maps. Before the run, [`read_verb_map`] tests whether a map is
//! too long, whether it is complete if the verb requires this, and whether a line of it begins a
//! script. If a map passes these tests, [`read_verb_map`] doesn't parse the map. So if the run
//! succeeds, each map was parsed only once. If the run fails with a fault for which
//! [`may_precede_maps`] is true, the caller calls [`check_verb_map`] for each map. This function
//! parses the map again, and fails with the reason if the verb can't use the map.

ghost use Rattle.std.specs.Prelude.{◌≡◌, ◌≤◌, ◌<◌, ◌^◌, ◌++◌, ℕ, List, [], Option, Some, IfErr, IfOk, IfSome, false, length, slice_index, true};
ghost use Rattle.crush_text.specs.Flaw.{IsFlawOrOutOfMemory};
ghost use Rattle.crush_units.specs.Writes.{Writes};
ghost use Rattle.crush_input.specs.Input.{IsInput};
ghost use Rattle.crush_input.specs.Notes.{AreNotesOfFile};
ghost use Rattle.crush_input.specs.VerbMaps.{AreNotesOfVerbMap, CanBeShown, IsVerbMap, IsVerbMapFault, IsVerbTextFault, MayBeVerbMap, begins_script, is_bad_word, is_cut, is_cut_at, is_text_byte, is_whole, map_prefix, may_precede_maps, text_length, verb_flaw_notes, verb_map_line, verb_map_notes, verb_map_reason, verb_map_status};

use crate::aborted::Aborted;
use crate::ending::ReportOutcome;
use crate::fault::RunFault;
use crate::files::Opens;
use crate::input::read_file;
use crate::job::drawn_hashing;
use crate::joined::is_line_blank;
use crush_options::MapForm;
use crush_reasons::{Origin, fault_text, flaw_place_text};
use crush_script::{JobFault, line_feeds, map_part};
use crush_text::{TextFault, TextFaultKind, read_map_in};
use crush_units::limits::LONGEST_JOB;
use crush_units::{WriteFault, put, put_all};
use itoa::Buffer;
use std::alloc::{AllocError, Global};
use std::io::Write;
use std::random::RandomSource;
use thiserror::Error;

const END_LINE: &[u8] = b"# end crush map";

const END_LINE_BELOW: &[u8] = b"\n# end crush map";

const CUT_REASON: &[u8] =
    b"  the text doesn't end with `# end crush map`: was it cut? If it is whole, add that line\n";

const LONG_REASON: &[u8] = b"  the file of a map has at most 16777216 bytes\n";

const SCRIPT_REASON: &[u8] = b"  scripts are files of their own here: crushedit apply MAP SCRIPT\n";

/// Which map of a verb's command line a file contains.
#[derive(Clone, Copy, Debug, PartialEq, Eq)]
pub enum VerbMap {
    /// The map with which the run begins: MAP, or NEW of `diff`.
    First,
    /// The map OLD of `diff`.
    Old,
    /// The map WANTED of `plan`.
    Wanted,
}

/// Why a file doesn't contain a map that the verb can use.
#[derive(Clone, Copy, Debug, PartialEq, Eq, Error)]
pub enum VerbMapFault {
    /// The text has this fault. The fault is never that memory ran out.
    #[error("{0}")]
    Text(TextFault),
    /// The text seems to be cut: the verb requires the line `# end crush map` as the last line that
    /// isn't blank, but the text doesn't end in this way. If the text also has another fault, it
    /// seems to be cut only if no line feed is at the place of this fault or after the place.
    /// Otherwise the other fault is reported.
    #[error("cut")]
    Cut,
    /// The file has more than 16,777,216 bytes.
    #[error("TooLong")]
    TooLong,
    /// The file couldn't be opened or read.
    #[error("read fault")]
    Read,
    #[error("out of memory")]
    Memory,
}

/// A verb's map that could not be used, and why. `{}` prints the fault, without the notes.
#[derive(Debug, Drop, Error)]
#[error("{fault}")]
pub struct VerbMapRefusal {
    pub map: VerbMap,
    pub fault: VerbMapFault,
    /// The lines that follow the first line on standard error.
    pub notes: Vec<u8>,
}

fn is_text_byte(byte: u8) -> bool
    ensures { result ≡ is_text_byte byte }
{
    !(is_line_blank(byte) || byte == b'\n')
}

fn text_length(bytes: &[u8]) -> usize
    ensures length { result ≡ text_length 0 0 bytes.now }
    ensures within { result ≤ length bytes.now }
{
    let mut best = 0;
    for (place, byte) in bytes.iter().enumerate() {
        if is_text_byte(*byte) {
            best = place + 1;
        }
    }
    best
}

fn is_whole(bytes: &[u8]) -> bool
    ensures { result ≡ is_whole bytes.now }
{
    let (text, _) = bytes.split_at(text_length(bytes));
    text == END_LINE || text.ends_with(END_LINE_BELOW)
}

fn is_cut(maps: MapForm, bytes: &[u8]) -> bool
    ensures { result ≡ is_cut maps bytes.now }
{
    matches!(maps, MapForm::WholeMap) && !is_whole(bytes)
}

fn is_cut_at(maps: MapForm, bytes: &[u8], place: usize) -> bool
    ensures { result ≡ is_cut_at maps bytes.now place }
{
    let (_, rest) = bytes.split_at(place.min(bytes.len()));
    is_cut(maps, bytes) && line_feeds(rest) == 0
}

/// Checks that the text of a map ends in the line `# end crush map`, if `maps` requires this. If
/// the line is missing, the text seems to be cut, and the function fails.
fn check_end(maps: MapForm, bytes: &[u8]) -> Result<(), VerbMapFault>
    ensures whole { IfOk result (λ _. is_cut maps bytes.now ≡ false) }
    ensures cut { IfErr result (λ fault. (fault ≡ VerbMapFault.Cut)
        × (is_cut maps bytes.now ≡ true)) }
{
    if is_cut(maps, bytes) {
        return Err(VerbMapFault::Cut);
    }
    Ok(())
}

/// Returns the reason why a text with this fault can't be used. There are three possible reasons:
/// the text has the fault, the text seems to be cut, or memory ran out.
fn fault_of_flaw(maps: MapForm, bytes: &[u8], fault: TextFault) -> VerbMapFault
    requires few { length bytes.now ≤ LONGEST_JOB }
    requires flaw { IsFlawOrOutOfMemory bytes.now fault }
    ensures { IsVerbTextFault maps bytes.now result }
{
    if JobFault::Text(fault).lacks_memory() {
        return VerbMapFault::Memory;
    }
    if is_cut_at(maps, bytes, fault.place) {
        return VerbMapFault::Cut;
    }
    VerbMapFault::Text(fault)
}

/// Parses the text of a map. If the verb can't use this text as a map, the function fails with the
/// reason.
fn check_text<H: AllocGlobal + RandomSource>(
    rt: &H,
    maps: MapForm,
    bytes: &[u8],
) -> Result<(), VerbMapFault>
    ensures map { IfOk result (λ _. IsVerbMap maps bytes.now) }
    ensures fault { IfErr result (IsVerbTextFault maps bytes.now) }
{
    if bytes.len() > LONGEST_JOB {
        return Err(VerbMapFault::TooLong);
    }
    match read_map_in(rt.alloc(), drawn_hashing(rt), rt.alloc(), bytes) {
        Ok(read) => {
            drop(read);
            check_end(maps, bytes)
        }
        Err(fault) => Err(fault_of_flaw(maps, bytes, fault)),
    }
}

/// Returns the byte with the index `place`, or 0 if the text ends before this index.
fn byte_at(bytes: &[u8], place: usize) -> u8
    ensures { result ≡ slice_index bytes.now place }
{
    if place < bytes.len() { bytes[place] } else { 0 }
}

/// Whether the fault is a `%` at the beginning of a line. A text has such a fault if a script
/// follows the map.
fn begins_script(bytes: &[u8], fault: TextFault) -> bool
    ensures { result ≡ begins_script bytes.now fault }
{
    let place = fault.place;
    let begins_line = place == 0 || byte_at(bytes, place - 1) == b'\n';
    is_bad_word(fault.kind) && begins_line && byte_at(bytes, place) == b'%'
}

fn is_bad_word(kind: TextFaultKind) -> bool
    ensures { result ≡ is_bad_word kind }
{
    matches!(kind, TextFaultKind::BadWord)
}

fn flaw_notes(
    alloc: Global,
    shown: &str,
    bytes: &[u8],
    fault: TextFault,
) -> Result<Vec<u8>, AllocError>
    requires { length bytes.now < 2 ^ 32 }
    ensures { IfOk result (λ notes. notes.items ≡ verb_flaw_notes shown.now bytes.now fault) }
{
    let origin = Origin {
        name: shown.as_bytes(),
        before: 0,
    };
    if !begins_script(bytes, fault) {
        return fault_text(alloc, origin, bytes, JobFault::Text(fault));
    }
    let mut notes = flaw_place_text(alloc, origin, bytes, fault)?;
    notes.extend_from_slice(SCRIPT_REASON)?;
    Ok(notes)
}

fn reason_of(fault: VerbMapFault) -> &'static [u8]
    ensures { result.now ≡ verb_map_reason fault }
{
    match fault {
        VerbMapFault::Cut => CUT_REASON,
        VerbMapFault::TooLong => LONG_REASON,
        VerbMapFault::Text(_) | VerbMapFault::Read | VerbMapFault::Memory => b"",
    }
}

fn notes_of(
    alloc: Global,
    shown: &str,
    bytes: &[u8],
    fault: VerbMapFault,
) -> Result<Vec<u8>, AllocError>
    requires { CanBeShown fault bytes.now }
    ensures { IfOk result (λ notes. notes.items ≡ verb_map_notes shown.now bytes.now fault) }
{
    if let VerbMapFault::Text(fault) = fault {
        return flaw_notes(alloc, shown, bytes, fault);
    }
    let mut notes = Vec::new(alloc);
    notes.extend_from_slice(reason_of(fault))?;
    Ok(notes)
}

fn memory_refusal(alloc: Global, map: VerbMap) -> VerbMapRefusal
    ensures map { result.map ≡ map }
    ensures fault { result.fault ≡ VerbMapFault.Memory }
    ensures quiet { result.notes.items ≡ [] }
{
    VerbMapRefusal {
        map,
        fault: VerbMapFault::Memory,
        notes: Vec::new(alloc),
    }
}

/// Returns the [`VerbMapRefusal`] for a file that couldn't be read into memory. The fault is
/// [`VerbMapFault::Read`] if the file couldn't be opened or read, and [`VerbMapFault::Memory`] if
/// memory ran out.
fn aborted_refusal(alloc: Global, map: VerbMap, aborted: Aborted) -> VerbMapRefusal
    ensures map { result.map ≡ map }
    ensures fault { (maps : MapForm) (all : Option (List ℕ))
        → IsVerbMapFault maps all result.fault }
    ensures noted { (name shown : List ℕ) (all : Option (List ℕ))
        → AreNotesOfFile true name aborted.fault aborted.notes.items
        → AreNotesOfVerbMap name shown all result.fault result.notes.items }
{
    let Aborted { fault, notes } = aborted;
    match fault {
        RunFault::Read => VerbMapRefusal {
            map,
            fault: VerbMapFault::Read,
            notes,
        },
        _ => memory_refusal(alloc, map),
    }
}

/// Returns the [`VerbMapRefusal`] for bytes with this fault. If there is no memory for the notes,
/// the refusal has the fault [`VerbMapFault::Memory`] instead.
fn text_refusal(
    alloc: Global,
    map: VerbMap,
    shown: &str,
    bytes: &[u8],
    fault: VerbMapFault,
) -> VerbMapRefusal
    requires { CanBeShown fault bytes.now }
    ensures map { result.map ≡ map }
    ensures fault { (maps : MapForm) → IsVerbTextFault maps bytes.now fault
        → IsVerbTextFault maps bytes.now result.fault }
    ensures noted { (maps : MapForm) (name : List ℕ) → IsVerbTextFault maps bytes.now fault
        → AreNotesOfVerbMap name shown.now (Some bytes.now) result.fault result.notes.items }
{
    match notes_of(alloc, shown, bytes, fault) {
        Ok(notes) => VerbMapRefusal { map, fault, notes },
        Err(_) => memory_refusal(alloc, map),
    }
}

/// Parses the text of a verb's map. The function fails if the verb can't use the map, or if memory
/// runs out.
///
/// The text may have at most 16,777,216 bytes. It must be the text of a map without scripts, and it
/// must be complete if `maps` says so. If the text has a fault, the notes say where the fault is,
/// and why it is one. If the text seems to be cut or is too long, the notes say only why the verb
/// can't use it. The notes call the file `shown`, or give it no name if `shown` is empty.
///
/// If the run on the maps fails with a fault for which [`may_precede_maps`] is true, the caller of
/// [`read_verb_map`] calls this function for each map. If this function then fails, the caller
/// reports the refusal instead of the fault of the run.
pub fn check_verb_map<H: AllocGlobal + RandomSource>(
    rt: &H,
    maps: MapForm,
    map: VerbMap,
    shown: &str,
    bytes: &[u8],
) -> Result<(), VerbMapRefusal>
    ensures map { IfOk result (λ _. IsVerbMap maps bytes.now) }
    ensures which { IfErr result (λ refusal. refusal.map ≡ map) }
    ensures fault { IfErr result (λ refusal. IsVerbTextFault maps bytes.now refusal.fault) }
    ensures noted { IfErr result (λ refusal. (name : List ℕ)
        → AreNotesOfVerbMap name shown.now (Some bytes.now) refusal.fault refusal.notes.items) }
{
    match check_text(rt, maps, bytes) {
        Ok(()) => Ok(()),
        Err(fault) => Err(text_refusal(rt.alloc(), map, shown, bytes, fault)),
    }
}

/// Whether the bytes pass the tests that need no parser: there are at most 16,777,216 bytes, no
/// line of them begins with `%`, and the text is complete if `maps` requires this. If the bytes
/// pass these tests, but aren't a map that the verb can use, then a run on them fails.
fn may_be_map(maps: MapForm, bytes: &[u8]) -> bool
    ensures yes { result ≡ true → MayBeVerbMap maps bytes.now }
    ensures no { result ≡ false → IsVerbMap maps bytes.now → ⊥ }
{
    bytes.len() <= LONGEST_JOB && !is_cut(maps, bytes) && map_part(bytes).len() == bytes.len()
}

/// Returns the bytes of a verb's map unchanged. If [`may_be_map`] says that the verb can't use
/// them, parses them, and fails with the reason.
fn screened_map<H: AllocGlobal + RandomSource>(
    rt: &H,
    maps: MapForm,
    map: VerbMap,
    shown: &str,
    bytes: Vec<u8>,
) -> Result<Vec<u8>, VerbMapRefusal>
    ensures map { IfOk result (λ kept. MayBeVerbMap maps kept.items) }
    ensures same { IfOk result (λ kept. kept.items ≡ bytes.items) }
    ensures which { IfErr result (λ refusal. refusal.map ≡ map) }
    ensures fault { IfErr result (λ refusal. IsVerbTextFault maps bytes.items refusal.fault) }
    ensures noted { IfErr result (λ refusal. (name : List ℕ)
        → AreNotesOfVerbMap name shown.now (Some bytes.items) refusal.fault refusal.notes.items) }
{
    let text = bytes.as_slice();
    if may_be_map(maps, text) {
        return Ok(bytes);
    }
    match check_verb_map(rt, maps, map, shown, text) {
        Ok(()) => Ok(bytes),
        Err(refusal) => Err(refusal),
    }
}

/// Reads the file of a verb's map. The function parses the bytes of the file only to find out why a
/// verb can't use them. So if the function succeeds, the bytes may still have a fault. The run of
/// the verb finds this fault when it parses the bytes.
///
/// Returns the bytes of the file. There are at most 16,777,216 bytes, and no line of them begins
/// with `%`, because such a line would begin a script. If `maps` requires a complete map, their
/// last line that isn't blank is `# end crush map`. If a run on these bytes succeeds, they are the
/// text of a map, as the law [`maps_of_runs_are_verb_maps`](crate::maps_of_runs_are_verb_maps)
/// says. If the run fails, [`check_verb_map`] says whether the bytes have a fault.
///
/// The function fails if the file can't be opened or read, if its bytes don't have these
/// properties, or if memory runs out. If the bytes don't have these properties, the function parses
/// them with [`check_verb_map`], whose refusal says what is wrong. The note about a file that can't
/// be opened or read always has the file's name, even if `shown` is empty.
pub fn read_verb_map<H: AllocGlobal + RandomSource, F: Opens>(
    rt: &H,
    files: &F,
    maps: MapForm,
    map: VerbMap,
    name: &str,
    shown: &str,
) -> Result<Vec<u8>, VerbMapRefusal>
    ensures map { IfOk result (λ bytes. MayBeVerbMap maps bytes.items) }
    ensures bytes { IfOk result (λ bytes. IfSome (F.content files.now name.now)
        (IsInput bytes.items)) }
    ensures which { IfErr result (λ refusal. refusal.map ≡ map) }
    ensures fault { IfErr result (λ refusal.
        IsVerbMapFault maps (F.content files.now name.now) refusal.fault) }
    ensures noted { IfErr result (λ refusal. AreNotesOfVerbMap name.now shown.now
        (F.content files.now name.now) refusal.fault refusal.notes.items) }
{
    match read_file(rt.alloc(), files, true, name) {
        Ok(bytes) => screened_map(rt, maps, map, shown, bytes),
        Err(aborted) => Err(aborted_refusal(rt.alloc(), map, aborted)),
    }
}

/// Whether a run that ends with this fault may have ended before it parsed all of its maps. A run
/// that ends with one of these faults has written nothing.
pub fn may_precede_maps(fault: RunFault) -> bool
    ensures { result ≡ may_precede_maps fault }
{
    matches!(
        fault,
        RunFault::Job(_) | RunFault::Read | RunFault::Memory | RunFault::SecondMap(_, _)
    )
}

fn map_prefix(map: VerbMap) -> &'static [u8]
    ensures { result.now ≡ map_prefix map }
{
    match map {
        VerbMap::First => b"",
        VerbMap::Old => b"old: ",
        VerbMap::Wanted => b"to: ",
    }
}

fn write_line<E: Write>(map: VerbMap, fault: VerbMapFault, err: &mut E) -> Result<(), WriteFault>
    ensures { Writes result (E.contents err.old) (E.contents err.new) (verb_map_line map fault) }
{
    let start = b"crushedit: ".as_slice();
    match fault {
        VerbMapFault::Text(fault) => {
            let mut buffer = Buffer::new();
            let place = buffer.format(fault.place).as_bytes();
            let name = fault.kind.name().as_bytes();
            put_all(
                err,
                &[
                    start,
                    map_prefix(map),
                    b"byte ".as_slice(),
                    place,
                    b": ".as_slice(),
                    name,
                    b"\n".as_slice(),
                ],
            )
        }
        VerbMapFault::Cut => put_all(err, &[start, map_prefix(map), b"cut\n"]),
        VerbMapFault::TooLong => put_all(err, &[start, map_prefix(map), b"TooLong\n"]),
        VerbMapFault::Read => put_all(err, &[start, map_prefix(map), b"read fault\n"]),
        VerbMapFault::Memory => put(err, b"crushedit: out of memory\n"),
    }
}

fn status_of(fault: VerbMapFault) -> u8
    ensures { result ≡ verb_map_status fault }
{
    match fault {
        VerbMapFault::Text(_) | VerbMapFault::Cut | VerbMapFault::TooLong => 1,
        VerbMapFault::Read => 3,
        VerbMapFault::Memory => 4,
    }
}

fn write_refusal<E: Write>(refusal: &VerbMapRefusal, err: &mut E) -> Result<(), WriteFault>
    ensures { Writes result (E.contents err.old) (E.contents err.new)
        (verb_map_line refusal.now.map refusal.now.fault ++ refusal.now.notes.items) }
{
    write_line(refusal.map, refusal.fault, err)?;
    put(err, refusal.notes.as_slice())
}

/// Writes to `err` a line that says why the map can't be used. The line also says whether this is
/// the map OLD or WANTED, unless memory ran out. The notes follow after this line. Returns the
/// status of the program: 1 if the map can't be used, 3 if its file couldn't be opened or read, and
/// 4 if memory ran out. If writing to `err` fails, `written` says so, and the status doesn't
/// change.
pub fn report_verb_map<E: Write>(refusal: &VerbMapRefusal, err: &mut E) -> ReportOutcome
    ensures status { result.status ≡ verb_map_status refusal.now.fault }
    ensures writes { Writes result.written (E.contents err.old) (E.contents err.new)
        (verb_map_line refusal.now.map refusal.now.fault ++ refusal.now.notes.items) }
{
    let written = write_refusal(refusal, err);
    ReportOutcome {
        status: status_of(refusal.fault),
        written,
    }
}
