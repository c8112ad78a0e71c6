//! Appends scripts from files to a job.

ghost use Rattle.std.specs.Prelude.{◌≡◌, ◌≤◌, ◌++◌, ◌==◌, ◌-◌, IfOk, OnOk, false, length, slice_index, true};
ghost use Rattle.std.specs.List.{position_or_len};
ghost use Rattle.crush_input.specs.Joined.{begins_section_in, folder_length, is_line_blank, joined, line_end, operator_line, operator_of, script_span_data, script_span_of, section_head};

use crush_script::line_feeds;
use crush_units::is_name;
use std::alloc::AllocError;

/// The lines of a job that come from the script of one file.
#[derive(Clone, Copy)]
pub(crate) struct ScriptSpan<'a> {
    pub(crate) name: &'a [u8],
    /// The number of the script's first line in the job, from 1. If a line `%operator NAME` was
    /// added before the script, this is the number of the added line.
    pub(crate) from: usize,
    /// The number of lines that the job has before the first line of the file itself.
    pub(crate) before: usize,
}

fn ends_line(bytes: &[u8]) -> bool
    ensures { result ≡ (slice_index bytes.now (length bytes.now - 1) == 10) }
{
    matches!(bytes, [.., b'\n'])
}

fn push_line_end(bytes: &mut Vec<u8>) -> Result<(), AllocError>
    ensures { OnOk result (bytes.new.items ≡ bytes.old.items ++ line_end bytes.old.items) }
{
    if ends_line(bytes.as_slice()) {
        return Ok(());
    }
    bytes.extend_from_slice(b"\n")
}

pub(crate) fn is_line_blank(byte: u8) -> bool
    ensures { result ≡ is_line_blank byte }
{
    byte == b' ' || byte == b'\t' || byte == b'\r'
}

/// Whether the script begins a section itself. This is so if its first line that isn't blank and
/// isn't only a comment begins with `%`.
fn begins_section(script: &[u8]) -> bool
    ensures { result ≡ begins_section_in true false script.now }
{
    let mut starts = true;
    let mut comment = false;
    for byte in script {
        let byte = *byte;
        if byte == b'\n' {
            starts = true;
            comment = false;
        } else if comment {
            starts = false;
        } else if byte == b'#' {
            starts = false;
            comment = true;
        } else if is_line_blank(byte) {
            starts = false;
        } else {
            return starts && byte == b'%';
        }
    }
    false
}

fn folder_length(name: &[u8]) -> usize
    ensures length { result ≡ folder_length 0 0 name.now }
    ensures within { result ≤ length name.now }
{
    let mut best = 0;
    for (place, byte) in name.iter().enumerate() {
        if *byte == b'/' {
            best = place + 1;
        }
    }
    best
}

fn dot_at(name: &[u8]) -> usize
    ensures place { result ≡ position_or_len (λ b. b == 46) name.now }
    ensures within { result ≤ length name.now }
{
    for (place, byte) in name.iter().enumerate() {
        if *byte == b'.' {
            return place;
        }
    }
    name.len()
}

/// Returns the operator's name for a script, which comes from the name of its file: the last part
/// of the path, up to the first `.`.
fn operator_of(name: &[u8]) -> &[u8]
    ensures { result.now ≡ operator_of name.now }
{
    let (_, part) = name.split_at(folder_length(name));
    let (operator, _) = part.split_at(dot_at(part));
    operator
}

/// Appends the line `%operator NAME`. If `operator` isn't a valid name, appends `%operator` alone,
/// which is rejected when the job is parsed.
fn push_section_head(operator: &[u8], bytes: &mut Vec<u8>) -> Result<(), AllocError>
    ensures { OnOk result (bytes.new.items ≡ bytes.old.items ++ section_head operator.now) }
{
    if !is_name(operator) {
        return bytes.extend_from_slice(b"%operator\n");
    }
    bytes.extend_from_slice(b"%operator ")?;
    bytes.extend_from_slice(operator)?;
    bytes.extend_from_slice(b"\n")
}

fn push_operator_line(name: &[u8], script: &[u8], bytes: &mut Vec<u8>) -> Result<(), AllocError>
    ensures { OnOk result (bytes.new.items
        ≡ bytes.old.items ++ operator_line name.now script.now) }
{
    if begins_section(script) {
        return Ok(());
    }
    push_section_head(operator_of(name), bytes)
}

/// Appends a script to the bytes of a job, on a new line. If the script doesn't begin a section
/// itself, adds a line `%operator NAME` before it. Returns which lines of the job come from the
/// script.
pub(crate) fn push_script<'a>(
    name: &'a [u8],
    script: &[u8],
    bytes: &mut Vec<u8>,
) -> Result<ScriptSpan<'a>, AllocError>
    ensures bytes { OnOk result (bytes.new.items ≡ joined bytes.old.items name.now script.now) }
    ensures part { IfOk result (λ part.
        script_span_data part ≡ script_span_of bytes.old.items name.now script.now) }
{
    push_line_end(bytes)?;
    let from = line_feeds(bytes.as_slice()) + 1;
    push_operator_line(name, script, bytes)?;
    let before = line_feeds(bytes.as_slice());
    bytes.extend_from_slice(script)?;
    Ok(ScriptSpan { name, from, before })
}
