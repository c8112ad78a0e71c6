//! Reads the sections of a job. Each section is the script of one operator.

ghost use Rattle.std.specs.Prelude.{◌≡◌, ◌+◌, ◌<◌, ◌^◌, false, true, length};
ghost use Rattle.crush_script.specs.Lines.{lines, begins_section};
ghost use Rattle.crush_history.specs.Script.{scripts_data};
ghost use Rattle.crush_script.specs.Sections.{with_lines, no_sections, has_operator, bad_line, batch_call};
ghost use Rattle.crush_script.specs.Steps.{GivesSections};

use crate::command::Command;
use crate::fault::{BadLine, JobFault};
use crate::line::{LineWords, begins_section, cut_line};
use crush_edits::Edit;
use crush_history::{Call, Edits, Script};
use crush_units::Name;
use crush_units::limits::{MOST_CALLS, MOST_OPERATORS};
use std::alloc::Global;

/// A batch whose `commit` hasn't been read yet.
#[derive(Drop)]
pub(crate) struct BegunBatch {
    /// The number of the line with the batch's `begin`.
    pub(crate) line: usize,
    /// The number N if the batch begins with `begin at N`, and `None` if the batch begins with
    /// `begin`.
    pub(crate) seen: Option<u32>,
    pub(crate) edits: Edits,
}

/// What was read from the lines before the current line.
#[derive(Drop)]
pub(crate) struct Sections {
    /// One script for each section so far. The next call is appended to the last script.
    pub(crate) scripts: Vec<Script>,
    /// For each section so far, the numbers of the lines that have its edits.
    pub(crate) lines: Vec<Vec<u32>>,
    /// The number of calls in all scripts. A batch whose `commit` hasn't been read yet also counts
    /// as a call.
    pub(crate) calls: usize,
    pub(crate) begun: Option<BegunBatch>,
}

fn has_operator(scripts: &[Script], name: &Name<Global>) -> bool
    ensures { result ≡ has_operator (scripts_data scripts.now) name.now }
{
    for script in scripts {
        if script.name.is(name.as_bytes()) {
            return true;
        }
    }
    false
}

fn batch_call(seen: Option<u32>, edits: Edits) -> Call
    ensures { result ≡ batch_call seen edits }
{
    match seen {
        Some(seen) => Call::Guarded { seen, edits },
        None => Call::Batch(edits),
    }
}

fn bad_line(line: usize, why: BadLine) -> JobFault
    ensures { result ≡ bad_line line why }
{
    JobFault::BadLine { line, why }
}

impl Sections {
    ghost use Rattle.std.specs.Prelude.{◌≡◌, ◌<◌, None, length, OnOk};
    ghost use Rattle.crush_script.specs.Sections.{sections_data, closed, counted, with_section, with_call, with_number, with_edit, with_begin, with_commit, with_command, with_line};
    ghost use Rattle.crush_script.specs.Steps.{Steps};

    fn check_closed(&self) -> Result<(), JobFault>
        ensures { Steps result (sections_data self.now) (closed (sections_data self.now)) }
    {
        match &self.begun {
            Some(batch) => Err(JobFault::OpenBatch(batch.line)),
            None => Ok(()),
        }
    }

    /// Begins a section for the operator `name`. In this method and the following ones, `number` is
    /// the number of the current line.
    fn begin(&mut self, alloc: Global, number: usize, name: Name<Global>) -> Result<(), JobFault>
        ensures steps { Steps result (sections_data self.new)
            (with_section number (sections_data self.old) name) }
        ensures begun { OnOk result (0 < length self.new.scripts.items) }
    {
        if self.scripts.len() >= MOST_OPERATORS {
            return Err(JobFault::TooManyOperators(number));
        }
        if has_operator(self.scripts.as_slice(), &name) {
            return Err(JobFault::DuplicateOperator(number));
        }
        let calls = Vec::new(alloc);
        self.scripts.push(Script { name, calls })?;
        self.lines.push(Vec::new(alloc))?;
        Ok(())
    }

    fn count_call(&mut self, number: usize) -> Result<(), JobFault>
        ensures steps { Steps result (sections_data self.new)
            (counted number (sections_data self.old)) }
        ensures scripts { self.new.scripts ≡ self.old.scripts }
    {
        if self.calls >= MOST_CALLS {
            return Err(JobFault::TooManyCalls(number));
        }
        self.calls += 1;
        Ok(())
    }

    fn add_call(&mut self, call: Call) -> Result<(), JobFault>
        requires begun { 0 < length self.old.scripts.items }
        ensures steps { Steps result (sections_data self.new)
            (Ok (with_call call (sections_data self.old))) }
        ensures begun { OnOk result (0 < length self.new.scripts.items) }
    {
        let last = self.scripts.len() - 1;
        self.scripts[last].calls.push(call)?;
        Ok(())
    }

    /// Appends `number` to the list of the lines that have the edits of the last section.
    fn note_line(&mut self, number: usize) -> Result<(), JobFault>
        requires numbered { number < 2 ^ 32 }
        ensures steps { Steps result (sections_data self.new)
            (Ok (with_number number (sections_data self.old))) }
        ensures scripts { self.new.scripts ≡ self.old.scripts }
    {
        let count = self.lines.len();
        if count == 0 {
            return Ok(());
        }
        self.lines[count - 1].push(number as u32)?;
        Ok(())
    }

    fn add_edit(&mut self, number: usize, edit: Edit) -> Result<(), JobFault>
        requires numbered { number < 2 ^ 32 }
        requires begun { 0 < length self.old.scripts.items }
        ensures steps { Steps result (sections_data self.new)
            (with_edit number (sections_data self.old) self.old.begun edit) }
        ensures begun { OnOk result (0 < length self.new.scripts.items) }
    {
        if let Some(batch) = &mut self.begun {
            if !batch.edits.has_room() {
                return Err(bad_line(number, BadLine::BatchFull));
            }
            batch.edits.push(edit)?;
            return self.note_line(number);
        }
        self.add_single(number, edit)
    }

    fn add_single(&mut self, number: usize, edit: Edit) -> Result<(), JobFault>
        requires numbered { number < 2 ^ 32 }
        requires begun { 0 < length self.old.scripts.items }
        ensures steps { Steps result (sections_data self.new)
            (with_edit number (sections_data self.old) None edit) }
        ensures begun { OnOk result (0 < length self.new.scripts.items) }
    {
        self.count_call(number)?;
        self.add_call(Call::One(edit))?;
        self.note_line(number)
    }

    fn begin_batch(
        &mut self,
        alloc: Global,
        number: usize,
        seen: Option<u32>,
    ) -> Result<(), JobFault>
        requires begun { 0 < length self.old.scripts.items }
        ensures steps { Steps result (sections_data self.new)
            (with_begin number (sections_data self.old) self.old.begun seen) }
        ensures begun { OnOk result (0 < length self.new.scripts.items) }
    {
        if self.begun.is_some() {
            return Err(bad_line(number, BadLine::BatchOpen));
        }
        self.count_call(number)?;
        self.begun = Some(BegunBatch {
            line: number,
            seen,
            edits: Edits::new(Vec::new(alloc)),
        });
        Ok(())
    }

    fn commit_batch(&mut self, number: usize) -> Result<(), JobFault>
        requires begun { 0 < length self.old.scripts.items }
        ensures steps { Steps result (sections_data self.new)
            (with_commit number (sections_data self.old) self.old.begun) }
        ensures begun { OnOk result (0 < length self.new.scripts.items) }
    {
        let Some(batch) = self.begun.take() else {
            return Err(bad_line(number, BadLine::NoBatch));
        };
        self.add_call(batch_call(batch.seen, batch.edits))
    }

    fn execute(&mut self, alloc: Global, number: usize, command: Command) -> Result<(), JobFault>
        requires numbered { number < 2 ^ 32 }
        requires begun { 0 < length self.old.scripts.items }
        ensures steps { Steps result (sections_data self.new)
            (with_command number (sections_data self.old) command) }
        ensures begun { OnOk result (0 < length self.new.scripts.items) }
    {
        match command {
            Command::Nothing => Ok(()),
            Command::Edit(edit) => self.add_edit(number, edit),
            Command::Begin(seen) => self.begin_batch(alloc, number, seen),
            Command::Commit => self.commit_batch(number),
        }
    }

    #[tactic(auto, unfolding(crate::specs::Sections::with_line))]
    fn read_line(&mut self, alloc: Global, number: usize, line: &[u8]) -> Result<(), JobFault>
        requires numbered { number < 2 ^ 32 }
        requires begun { begins_section line.now ≡ false → 0 < length self.old.scripts.items }
        ensures steps { Steps result (sections_data self.new)
            (with_line number (sections_data self.old) line.now) }
        ensures begun { OnOk result (0 < length self.new.scripts.items) }
    {
        let mut words = LineWords::of_line(line);
        if begins_section(line) {
            self.check_closed()?;
            let name = words.operator(alloc).map_err(|fault| fault.at(number))?;
            return self.begin(alloc, number, name);
        }
        let command = words.command(alloc).map_err(|fault| fault.at(number))?;
        self.execute(alloc, number, command)
    }
}

/// Reads all lines of the sections. `text` has these lines, and `first` is the number of the first
/// of them. Lines are numbered from 1, beginning with the first line of the job.
#[tactic(auto, unfolding(crate::specs::Sections::with_lines))]
pub(crate) fn read_sections(alloc: Global, first: usize, text: &[u8]) -> Result<Sections, JobFault>
    requires begins { 0 < length text.now → begins_section text.now ≡ true }
    requires numbered { first + length text.now < 2 ^ 32 }
    ensures { GivesSections result (with_lines first no_sections (lines text.now)) }
{
    let mut sections = Sections {
        scripts: Vec::new(alloc),
        lines: Vec::new(alloc),
        calls: 0,
        begun: None,
    };
    let mut number = first;
    let mut rest = text;
    while !rest.is_empty() {
        let (line, others) = cut_line(rest);
        sections.read_line(alloc, number, line)?;
        number += 1;
        rest = others;
    }
    sections.check_closed()?;
    Ok(sections)
}
