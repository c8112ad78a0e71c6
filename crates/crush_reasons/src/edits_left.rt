//! Finds the line of a job that has the refused edit of a batch.

ghost use Rattle.std.specs.Prelude.{◌≡◌, ◌++◌, IfOk, OnOk, drop, map as each, slice_get, slice_index_or, []};
ghost use Rattle.crush_reasons.specs.EditsLeft.{head_left, left_behind, line_in, line_place, lines_left, refused_index, told_place};

use crate::locates::Locates;
use crate::place::{Origin, push_command_head};
use crate::replay::edits_of;
use crush_history::{Entry, Reply};
use std::alloc::{AllocError, Global};

#[derive(Clone, Copy)]
pub(crate) struct EditPlace<'a> {
    pub(crate) origin: Origin<'a>,
    /// The line's number in the whole job, from 1.
    pub(crate) line: usize,
}

pub(crate) fn push_place(
    place: &Option<EditPlace<'_>>,
    text: &mut Vec<u8>,
) -> Result<(), AllocError>
    ensures { OnOk result (text.new.items ≡ text.old.items ++ told_place place.now) }
{
    match place {
        None => Ok(()),
        Some(place) => push_command_head(place.origin, place.line, text),
    }
}

fn refused_index(reply: Reply) -> Option<usize>
    ensures { result ≡ refused_index reply }
{
    match reply {
        Reply::BatchRefused(index, _) => Some(index as usize),
        _ => None,
    }
}

/// For each script of a job, the numbers of the lines with those edits of the script that are left,
/// one number for each edit. A walk over the entries of a history calls `EditsLeft::pass` for each
/// entry, which removes the lines of the entry's edits. So the edits that are left are those of the
/// entries that the walk hasn't passed yet.
#[derive(Drop)]
pub(crate) struct EditsLeft<'a> {
    lines: Vec<&'a [u32]>,
}

impl<'a> EditsLeft<'a> {
    pub(crate) fn new(alloc: Global, sections: &'a [Vec<u32>]) -> Result<EditsLeft<'a>, AllocError>
        ensures { IfOk result (λ left. lines_left left
            ≡ each (λ numbers. numbers.items) sections.now) }
    {
        let mut lines = Vec::new(alloc);
        for section in sections {
            let Ok(()) = lines.push(section.as_slice()) else {
                return Err(AllocError);
            };
        }
        Ok(EditsLeft { lines })
    }

    fn of(&self, operator: usize) -> &'a [u32]
        ensures { result.now ≡ slice_index_or (lines_left self.now) operator [] }
    {
        if operator < self.lines.len() {
            self.lines[operator]
        } else {
            &[]
        }
    }

    /// Returns the number of the line that has one of the operator's edits that are left. `index`
    /// is the position of this edit among them, from 0. Returns `None` if fewer edits are left.
    fn line(&self, operator: usize, index: usize) -> Option<u32>
        ensures { result ≡ line_in (lines_left self.now) operator index }
    {
        line_of(self.of(operator), index)
    }

    pub(crate) fn pass(&mut self, entry: &Entry)
        ensures { lines_left self.new ≡ left_behind (lines_left self.old) entry.now }
    {
        let left = self.of(entry.operator);
        if entry.operator < self.lines.len() {
            self.lines[entry.operator] = from_line(edits_of(&entry.call).len(), left);
        }
    }
}

fn line_of(lines: &[u32], index: usize) -> Option<u32>
    ensures { result ≡ slice_get lines.now index }
{
    if index < lines.len() {
        Some(lines[index])
    } else {
        None
    }
}

fn from_line(index: usize, lines: &[u32]) -> &[u32]
    ensures { result.now ≡ drop index lines.now }
{
    if index < lines.len() {
        lines.split_at(index).1
    } else {
        &[]
    }
}

fn place_of<O: Locates>(origins: &O, line: Option<u32>) -> Option<EditPlace<'_>>
    ensures { told_place result ≡ line_place (O.origin origins.now) line }
{
    let line = line? as usize;
    Some(EditPlace {
        origin: origins.at(line),
        line,
    })
}

pub(crate) fn refused_place<'a, O: Locates>(
    origins: &'a O,
    left: &EditsLeft<'_>,
    entry: &Entry,
) -> Option<EditPlace<'a>>
    ensures { told_place result
        ≡ head_left (O.origin origins.now) (lines_left left.now) entry.now }
{
    let index = refused_index(entry.reply)?;
    place_of(origins, left.line(entry.operator, index))
}
