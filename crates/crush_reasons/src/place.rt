//! Shows lines of a job, and places in a text. A place is the index of a byte of the text, from 0.

ghost use Rattle.std.specs.Prelude.{◌≡◌, ◌≤◌, ◌<◌, ◌^◌, ◌+◌, ◌++◌, ◌==◌, OnOk, if◌then◌else◌, length, replicate};
ghost use Rattle.crush_reasons.specs.Place.{at_place, behind_feed, behind_line, column_line, command_head, first_line, from_line, last_line, line_at, named_head, name_head, number_line, origin_data, own_line, place_text, shown_line, sign_line, to_feed};

use crate::shown::{MOST_SHOWN, push_shown};
use crate::words::{push_all, up_to};
use crush_script::line_feeds;
use itoa::Buffer;
use std::alloc::AllocError;

/// The largest number of bytes of a line that are shown before a place.
const MOST_BEFORE: usize = 40;

/// The file from which a line of a job comes.
#[derive(Clone, Copy)]
pub struct Origin<'a> {
    /// The name of the file. It is empty if messages name no file.
    pub name: &'a [u8],
    /// How many lines of the job come before the file's first line.
    pub before: usize,
}

impl<'a> Origin<'a> {
    /// Returns the number that a line of the job has in its file, from 1. Returns 0 for a line that
    /// the program put before the file's first line. `line` is the line's number in the job.
    pub(crate) fn own_line(self, line: usize) -> usize
        ensures { result ≡ own_line (origin_data self.entry) line }
    {
        line.saturating_sub(self.before)
    }
}

/// Returns how many bytes come before the first line feed. If there is no line feed, returns the
/// number of all bytes.
pub(crate) fn to_feed(bytes: &[u8]) -> usize
    ensures value { result ≡ to_feed bytes.now }
    ensures within { result ≤ length bytes.now }
{
    for (place, byte) in bytes.iter().enumerate() {
        if *byte == b'\n' {
            return place;
        }
    }
    bytes.len()
}

fn further(behind: usize, byte: u8) -> usize
    requires { behind < 2 ^ 32 }
    ensures value { result ≡ (if byte == 10 then 0 else behind + 1) }
    ensures most { result ≤ behind + 1 }
{
    if byte == b'\n' { 0 } else { behind + 1 }
}

/// Returns how many bytes come after the last line feed. If there is no line feed, returns the
/// number of all bytes.
pub(crate) fn behind_feed(bytes: &[u8]) -> usize
    requires { length bytes.now < 2 ^ 32 }
    ensures value { result ≡ behind_feed bytes.now }
    ensures within { result ≤ length bytes.now }
{
    let mut behind = 0;
    for byte in bytes {
        behind = further(behind, *byte);
    }
    behind
}

/// Returns the number of the line in which `before` ends. `before` is the beginning of a job. Lines
/// count from 1.
pub(crate) fn last_line(before: &[u8]) -> usize
    requires { length before.now < 2 ^ 32 }
    ensures { result ≡ last_line before.now }
{
    line_feeds(before) + 1
}

fn push_line(bytes: &[u8], text: &mut Vec<u8>) -> Result<(), AllocError>
    ensures { OnOk result (text.new.items ≡ text.old.items ++ shown_line bytes.now) }
{
    let (line, _) = bytes.split_at(to_feed(bytes).min(MOST_SHOWN));
    text.extend_from_slice(b"    ")?;
    push_shown(line, text)?;
    text.extend_from_slice(b"\n")
}

fn push_spaces(count: usize, text: &mut Vec<u8>) -> Result<(), AllocError>
    ensures { OnOk result (text.new.items ≡ text.old.items ++ replicate count 32) }
{
    for _done in 0..count {
        let Ok(()) = text.push(b' ') else {
            return Err(AllocError);
        };
    }
    Ok(())
}

fn push_sign(shown: usize, text: &mut Vec<u8>) -> Result<(), AllocError>
    requires { shown ≤ MOST_BEFORE }
    ensures { OnOk result (text.new.items ≡ text.old.items ++ sign_line shown) }
{
    push_spaces(shown + 4, text)?;
    text.extend_from_slice(b"^\n")
}

fn push_name(name: &[u8], text: &mut Vec<u8>) -> Result<(), AllocError>
    ensures { OnOk result (text.new.items ≡ text.old.items ++ name_head name.now) }
{
    if name.is_empty() {
        return Ok(());
    }
    push_shown(name, text)?;
    text.extend_from_slice(b" ")
}

#[tactic(auto, unfolding(crate::specs::Place::column_line))]
fn push_column_line(
    origin: Origin<'_>,
    line: usize,
    column: usize,
    text: &mut Vec<u8>,
) -> Result<(), AllocError>
    ensures { OnOk result (text.new.items
        ≡ text.old.items ++ column_line (origin_data origin.entry) line column) }
{
    let mut line_buffer = Buffer::new();
    let line = line_buffer.format(origin.own_line(line)).as_bytes();
    let mut column_buffer = Buffer::new();
    let column = column_buffer.format(column).as_bytes();
    text.extend_from_slice(b"  ")?;
    push_name(origin.name, text)?;
    push_all(
        &[
            b"line ".as_slice(),
            line,
            b", column ".as_slice(),
            column,
            b"\n".as_slice(),
        ],
        text,
    )
}

#[tactic(auto, unfolding(crate::specs::Place::number_line))]
fn push_number_line(origin: Origin<'_>, line: usize, text: &mut Vec<u8>) -> Result<(), AllocError>
    ensures { OnOk result (text.new.items
        ≡ text.old.items ++ number_line (origin_data origin.entry) line) }
{
    let mut buffer = Buffer::new();
    let line = buffer.format(origin.own_line(line)).as_bytes();
    text.extend_from_slice(b"  ")?;
    push_name(origin.name, text)?;
    push_all(&[b"line ".as_slice(), line, b"\n".as_slice()], text)
}

fn push_end_of(
    origin: Origin<'_>,
    bytes: &[u8],
    before: &[u8],
    text: &mut Vec<u8>,
) -> Result<(), AllocError>
    requires within { length before.now ≤ length bytes.now }
    requires short { length bytes.now < 2 ^ 32 }
    ensures { OnOk result (text.new.items
        ≡ text.old.items ++ at_place (origin_data origin.entry) bytes.now before.now) }
{
    let behind = behind_feed(before);
    let shown = behind.min(MOST_BEFORE);
    let (_, rest) = bytes.split_at(before.len() - shown);
    push_column_line(origin, last_line(before), behind + 1, text)?;
    push_line(rest, text)?;
    push_sign(shown, text)
}

pub(crate) fn push_place(
    origin: Origin<'_>,
    bytes: &[u8],
    place: usize,
    text: &mut Vec<u8>,
) -> Result<(), AllocError>
    requires { length bytes.now < 2 ^ 32 }
    ensures { OnOk result (text.new.items
        ≡ text.old.items ++ place_text (origin_data origin.entry) bytes.now place) }
{
    push_end_of(origin, bytes, up_to(place, bytes), text)
}

pub(crate) fn first_line(bytes: &[u8]) -> &[u8]
    ensures { result.now ≡ first_line bytes.now }
{
    bytes.split_at(to_feed(bytes)).0
}

pub(crate) fn behind_line(bytes: &[u8]) -> &[u8]
    ensures { result.now ≡ behind_line bytes.now }
{
    let (_, rest) = bytes.split_at(to_feed(bytes));
    match rest {
        [] => rest,
        [_, rest @ ..] => rest,
    }
}

/// Returns the bytes from the line with this number to the end, or no bytes if there are fewer
/// lines. Lines count from 0.
fn from_line(line: usize, bytes: &[u8]) -> &[u8]
    ensures { result.now ≡ from_line line bytes.now }
{
    let mut rest = bytes;
    for _done in 0..line {
        rest = behind_line(rest);
    }
    rest
}

/// Returns the bytes from the line with this number to the end, or no bytes if there are fewer
/// lines. Lines count from 1.
pub(crate) fn line_at(bytes: &[u8], line: usize) -> &[u8]
    ensures { result.now ≡ line_at bytes.now line }
{
    from_line(line.saturating_sub(1), bytes)
}

pub(crate) fn push_at_line(
    origin: Origin<'_>,
    bytes: &[u8],
    line: usize,
    text: &mut Vec<u8>,
) -> Result<(), AllocError>
    ensures { OnOk result (text.new.items ≡ text.old.items
        ++ (number_line (origin_data origin.entry) line ++ shown_line (line_at bytes.now line))) }
{
    push_number_line(origin, line, text)?;
    push_line(line_at(bytes, line), text)
}

fn push_named_head(name: &[u8], line: usize, text: &mut Vec<u8>) -> Result<(), AllocError>
    ensures { OnOk result (text.new.items ≡ text.old.items ++ named_head name.now line) }
{
    let mut buffer = Buffer::new();
    let line = buffer.format(line).as_bytes();
    match name {
        [] => push_all(&[b"line ".as_slice(), line, b": ".as_slice()], text),
        [_, ..] => {
            push_shown(name, text)?;
            push_all(&[b":".as_slice(), line, b": ".as_slice()], text)
        }
    }
}

/// Appends the place of a command, as `FILE:LINE: ` or `line LINE: `. `line` is the line's number
/// in the whole job.
#[tactic(auto, unfolding(crate::specs::Place::command_head))]
pub(crate) fn push_command_head(
    origin: Origin<'_>,
    line: usize,
    text: &mut Vec<u8>,
) -> Result<(), AllocError>
    ensures { OnOk result (text.new.items
        ≡ text.old.items ++ command_head (origin_data origin.entry) line) }
{
    push_named_head(origin.name, origin.own_line(line), text)
}
