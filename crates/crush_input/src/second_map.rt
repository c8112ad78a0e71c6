//! Reads the second map of a command line: the map of `--since` or of `--to`.

ghost use Rattle.std.specs.Prelude.{◌≡◌, ◌≤◌, ℕ, Bool, List, Option, Some, IfOk, IfErr, IfSome, length};
ghost use Rattle.crush_text.specs.Flaw.{IsFlawOrOutOfMemory};
ghost use Rattle.crush_input.specs.Notes.{AreNotesOfFile, AreNotesOfSecondMap, flaw_notes};
ghost use Rattle.crush_input.specs.Options.{IsMapFault, IsTextOf};
ghost use Rattle.crush_input.specs.Stages.{IsInputFault};
ghost use Rattle.crush_units.specs.declared.limits.TheConstants.{LONGEST_JOB};

use crate::aborted::Aborted;
use crate::fault::{RunFault, SecondMap, SecondMapFault};
use crate::files::Opens;
use crate::input::read_file;
use crate::job::drawn_hashing;
use crush_map::CrushMap;
use crush_reasons::{Origin, fault_text};
use crush_script::JobFault;
use crush_text::{TextFault, read_map_in};
use crush_units::limits::LONGEST_JOB;
use std::alloc::{AllocError, Global};
use std::random::RandomSource;

fn flaw_notes(
    alloc: Global,
    explain: bool,
    name: &str,
    text: &[u8],
    fault: TextFault,
) -> Result<Vec<u8>, AllocError>
    requires { length text.now ≤ LONGEST_JOB }
    ensures { IfOk result (λ notes. notes.items ≡ flaw_notes explain name.now text.now fault) }
{
    if !explain {
        return Ok(Vec::new(alloc));
    }
    let origin = Origin {
        name: name.as_bytes(),
        before: 0,
    };
    fault_text(alloc, origin, text, JobFault::Text(fault))
}

fn stopped_at(
    alloc: Global,
    explain: bool,
    which: SecondMap,
    name: &str,
    text: &[u8],
    fault: TextFault,
) -> Aborted
    requires few { length text.now ≤ LONGEST_JOB }
    requires flaw { IsFlawOrOutOfMemory text.now fault }
    ensures fault { IsMapFault which (Some text.now) result.fault }
    ensures noted { AreNotesOfSecondMap explain name.now (Some text.now) result.fault result.notes.items }
{
    if JobFault::Text(fault).lacks_memory() {
        return Aborted::without_notes(alloc, RunFault::Memory);
    }
    match flaw_notes(alloc, explain, name, text, fault) {
        Ok(notes) => Aborted {
            fault: RunFault::SecondMap(which, SecondMapFault::Text(fault)),
            notes,
        },
        Err(_) => Aborted::without_notes(alloc, RunFault::Memory),
    }
}

/// Parses the text of the second map, which may be as long as a job.
fn map_of<H: AllocGlobal + RandomSource>(
    rt: &H,
    explain: bool,
    which: SecondMap,
    name: &str,
    text: &[u8],
) -> Result<CrushMap<Global>, Aborted>
    ensures map { IfOk result (λ m. IsTextOf m text.now) }
    ensures fault { IfErr result (λ aborted. IsMapFault which (Some text.now) aborted.fault) }
    ensures noted { IfErr result (λ aborted.
        AreNotesOfSecondMap explain name.now (Some text.now) aborted.fault aborted.notes.items) }
{
    let alloc = rt.alloc();
    if text.len() > LONGEST_JOB {
        return Err(Aborted::without_notes(
            alloc,
            RunFault::SecondMap(which, SecondMapFault::TooLong),
        ));
    }
    match read_map_in(alloc, drawn_hashing(rt), alloc, text) {
        Ok((map, _)) => Ok(map),
        Err(fault) => Err(stopped_at(alloc, explain, which, name, text, fault)),
    }
}

impl Aborted {
    fn of_second_map(self, which: SecondMap) -> Aborted
        requires { IsInputFault self.fault }
        ensures fault { (all : Option (List ℕ)) → IsMapFault which all result.fault }
        ensures noted { (explain : Bool) (name : List ℕ) (all : Option (List ℕ))
            → AreNotesOfFile explain name self.fault self.notes.items
            → AreNotesOfSecondMap explain name all result.fault result.notes.items }
    {
        let Aborted { fault, notes } = self;
        match fault {
            RunFault::Read => Aborted {
                fault: RunFault::SecondMap(which, SecondMapFault::Read),
                notes,
            },
            _ => Aborted { fault, notes },
        }
    }
}

pub(crate) fn read_second_map<H: AllocGlobal + RandomSource, F: Opens>(
    rt: &H,
    files: &F,
    explain: bool,
    which: SecondMap,
    name: &str,
) -> Result<CrushMap<Global>, Aborted>
    ensures map { IfOk result (λ m. IfSome (F.content files.now name.now) (IsTextOf m)) }
    ensures fault { IfErr result (λ aborted.
        IsMapFault which (F.content files.now name.now) aborted.fault) }
    ensures noted { IfErr result (λ aborted.
        AreNotesOfSecondMap explain name.now (F.content files.now name.now) aborted.fault
        aborted.notes.items) }
{
    match read_file(rt.alloc(), files, explain, name) {
        Ok(bytes) => map_of(rt, explain, which, name, bytes.as_slice()),
        Err(aborted) => Err(aborted.of_second_map(which)),
    }
}
