//! Explains a fault of a job: shows the place of the fault, and says what is expected there.

ghost use Rattle.std.specs.Prelude.{◌≡◌, ◌<◌, ◌^◌, ◌++◌, IfOk, OnOk, length};
ghost use Rattle.crush_text.specs.declared.fault.TextFault.{TextFault};
ghost use Rattle.crush_reasons.specs.Fault.{fault_line, fault_text, flaw_place_text, flaw_text, line_fault_index, line_fault_reason, line_shown, line_text, own_index, own_reason, put_reason, word_place};
ghost use Rattle.crush_reasons.specs.Place.{origin_data};

use crate::commands::push_no_command;
use crate::flaws::{flaw_place, push_flaw_reason};
use crate::misfit::{misfit_index, push_line_reason};
use crate::place::{Origin, first_line, last_line, line_at, push_at_line, push_place};
use crate::sentences::job_sentence;
use crate::words::{push_bytes, push_reason, up_to};
use crush_script::{JobFault, placed_word};
use crush_text::TextFault;
use std::alloc::{AllocError, Global};

/// Appends the reason for a fault of a line. The line comes from the input, and wasn't put there by
/// the program itself.
fn push_own_reason(fault: JobFault, line: &[u8], text: &mut Vec<u8>) -> Result<(), AllocError>
    ensures { OnOk result (text.new.items ≡ text.old.items ++ own_reason fault line.now) }
{
    let sentence = job_sentence(fault);
    match fault {
        JobFault::BadLine { why, .. } => push_line_reason(why, line, text),
        JobFault::NoSuchCommand(_) => push_no_command(line, text),
        _ => push_bytes(sentence.as_bytes(), text),
    }
}

/// Returns the reason for a fault of a line `%operator NAME` that the program itself put before a
/// file's script. The program made NAME from the name of the file.
fn put_reason(fault: JobFault) -> &'static str
    ensures { result.now ≡ put_reason fault }
{
    let sentence = job_sentence(fault);
    match fault {
        JobFault::BadLine { .. } => {
            "the file's name can't be used as an operator's name: begin the file with a line %operator NAME"
        }
        JobFault::DuplicateOperator(_) => {
            "another operator above has this name: give one of the two files a line %operator NAME"
        }
        _ => sentence,
    }
}

/// Appends the reason for a fault of a line. `own` is the number of the line in its file, or 0 if
/// the program itself put the line before the file.
#[tactic(auto, unfolding(crate::specs::Fault::line_fault_reason))]
fn push_line_fault_reason(
    own: usize,
    fault: JobFault,
    line: &[u8],
    text: &mut Vec<u8>,
) -> Result<(), AllocError>
    ensures { OnOk result (text.new.items
        ≡ text.old.items ++ line_fault_reason own fault line.now) }
{
    if own == 0 {
        push_bytes(put_reason(fault).as_bytes(), text)
    } else {
        push_own_reason(fault, line, text)
    }
}

fn own_index(fault: JobFault, line: &[u8]) -> Option<usize>
    ensures { result ≡ own_index fault line.now }
{
    match fault {
        JobFault::BadLine { why, .. } => misfit_index(why, line),
        JobFault::NoSuchCommand(_) => Some(0),
        _ => None,
    }
}

#[tactic(auto, unfolding(crate::specs::Fault::line_fault_index))]
fn line_fault_index(own: usize, fault: JobFault, line: &[u8]) -> Option<usize>
    ensures { result ≡ line_fault_index own fault line.now }
{
    if own == 0 {
        None
    } else {
        own_index(fault, line)
    }
}

/// Returns the place of a word of a line: the index in the job of the word's first byte. `index`
/// counts the words of the line from 0.
#[tactic(auto, unfolding(crate::specs::Fault::word_place))]
fn word_place(bytes: &[u8], line: usize, index: usize) -> usize
    requires { length bytes.now < 2 ^ 32 }
    ensures { result ≡ word_place bytes.now line index }
{
    let rest = line_at(bytes, line);
    bytes.len().saturating_sub(rest.len()) + placed_word(first_line(rest), index).place
}

/// Appends a line of the job with its number. If there is an `index`, also appends the column of
/// the word with this index, and a `^` below this word.
#[tactic(auto, unfolding(crate::specs::Fault::line_shown))]
fn push_line_shown(
    origin: Origin<'_>,
    bytes: &[u8],
    line: usize,
    index: Option<usize>,
    text: &mut Vec<u8>,
) -> Result<(), AllocError>
    requires { length bytes.now < 2 ^ 32 }
    ensures { OnOk result (text.new.items
        ≡ text.old.items ++ line_shown (origin_data origin.entry) bytes.now line index) }
{
    match index {
        None => push_at_line(origin, bytes, line, text),
        Some(index) => push_place(origin, bytes, word_place(bytes, line, index), text),
    }
}

fn push_line_fault(
    origin: Origin<'_>,
    bytes: &[u8],
    line: usize,
    fault: JobFault,
    text: &mut Vec<u8>,
) -> Result<(), AllocError>
    requires { length bytes.now < 2 ^ 32 }
    ensures { OnOk result (text.new.items
        ≡ text.old.items ++ line_text (origin_data origin.entry) bytes.now line fault) }
{
    let own = origin.own_line(line);
    let told = first_line(line_at(bytes, line));
    let index = line_fault_index(own, fault, told);
    push_line_shown(origin, bytes, line, index, text)?;
    text.extend_from_slice(b"  ")?;
    push_line_fault_reason(own, fault, told, text)?;
    text.extend_from_slice(b"\n")
}

fn push_flaw(
    origin: Origin<'_>,
    bytes: &[u8],
    fault: TextFault,
    text: &mut Vec<u8>,
) -> Result<(), AllocError>
    requires { length bytes.now < 2 ^ 32 }
    ensures { OnOk result (text.new.items
        ≡ text.old.items ++ flaw_text (origin_data origin.entry) bytes.now fault) }
{
    push_place(origin, bytes, flaw_place(bytes, fault), text)?;
    text.extend_from_slice(b"  ")?;
    push_flaw_reason(origin, bytes, fault, text)?;
    text.extend_from_slice(b"\n")
}

fn push_fault(
    origin: Origin<'_>,
    bytes: &[u8],
    fault: JobFault,
    text: &mut Vec<u8>,
) -> Result<(), AllocError>
    requires { length bytes.now < 2 ^ 32 }
    ensures { OnOk result (text.new.items
        ≡ text.old.items ++ fault_text (origin_data origin.entry) bytes.now fault) }
{
    let sentence = job_sentence(fault);
    match fault {
        JobFault::BadLine { line, .. }
        | JobFault::NoSuchCommand(line)
        | JobFault::OpenBatch(line)
        | JobFault::TooManyOperators(line)
        | JobFault::DuplicateOperator(line)
        | JobFault::TooManyCalls(line) => push_line_fault(origin, bytes, line, fault, text),
        JobFault::Text(fault) => push_flaw(origin, bytes, fault, text),
        JobFault::TooLong | JobFault::OutOfMemory => push_reason(sentence, text),
    }
}

/// Returns the number of the line that has a fault, or 0 if the fault has no line. Lines count from
/// 1 in the whole job.
///
/// If the map's text ends too early, the result is the number of the last line of this text that
/// has a word.
pub fn fault_line(bytes: &[u8], fault: JobFault) -> usize
    requires { length bytes.now < 2 ^ 32 }
    ensures { result ≡ fault_line bytes.now fault }
{
    match fault {
        JobFault::BadLine { line, .. }
        | JobFault::NoSuchCommand(line)
        | JobFault::OpenBatch(line)
        | JobFault::TooManyOperators(line)
        | JobFault::DuplicateOperator(line)
        | JobFault::TooManyCalls(line) => line,
        JobFault::Text(fault) => last_line(up_to(flaw_place(bytes, fault), bytes)),
        JobFault::TooLong | JobFault::OutOfMemory => 0,
    }
}

/// Returns the place of a fault of a job, followed by a sentence that says what is wrong or what is
/// expected.
///
/// The result depends on the kind of the fault. For a fault of the map's text, and for a word that
/// doesn't fit in a line of a script, the result shows the line's number, the column, a part of the
/// line, and `^` below the place. For any other fault of a line, and for a line that the program
/// put before a file's first line, the result shows the line's number and the line. For a fault
/// without a place, such as too many bytes, the result is only the sentence. If the map's text ends
/// too early, the place is the beginning of the text's last word.
///
/// `bytes` are the whole job, and `origin` is the file from which the line with the fault comes. If
/// the name of this file isn't empty, it comes before the line's number. The line's number counts
/// from 1 in this file, and is 0 for a line that the program put before the file's first line.
/// Columns count bytes, from 1. At most 72 bytes of the line are shown. They are shown from the
/// line's beginning, or from 40 bytes before the place if more than 40 bytes of the line come
/// before the place. `shown_byte` says how each byte of the line and of the file's name is shown.
/// The function fails only if memory runs out.
pub fn fault_text(
    alloc: Global,
    origin: Origin<'_>,
    bytes: &[u8],
    fault: JobFault,
) -> Result<Vec<u8>, AllocError>
    requires { length bytes.now < 2 ^ 32 }
    ensures { IfOk result (λ text. text.items
        ≡ fault_text (origin_data origin.entry) bytes.now fault) }
{
    let mut text = Vec::new(alloc);
    push_fault(origin, bytes, fault, &mut text)?;
    Ok(text)
}

/// Returns the lines with which [`fault_text`] shows the place of a fault of a map's text, without
/// the sentence that follows after them. `bytes` are the whole job. `origin` is the file from which
/// the line with the fault comes. The function fails only if memory runs out.
pub fn flaw_place_text(
    alloc: Global,
    origin: Origin<'_>,
    bytes: &[u8],
    fault: TextFault,
) -> Result<Vec<u8>, AllocError>
    requires { length bytes.now < 2 ^ 32 }
    ensures { IfOk result (λ text. text.items
        ≡ flaw_place_text (origin_data origin.entry) bytes.now fault) }
{
    let mut text = Vec::new(alloc);
    push_place(origin, bytes, flaw_place(bytes, fault), &mut text)?;
    Ok(text)
}
