//! Appends bytes, and finds words and parts of a text.

ghost use Rattle.std.specs.Prelude.{◌≡◌, ◌≤◌, ◌++◌, ◌∷◌, [], MatchOption, OnOk, drop, flat_map, length, take};
ghost use Rattle.crush_reasons.specs.Shown.{reason_line};

use crush_units::{Reader, Token, put_all};
use std::alloc::AllocError;

pub(crate) fn push_all(parts: &[&[u8]], text: &mut Vec<u8>) -> Result<(), AllocError>
    ensures { OnOk result (text.new.items
        ≡ text.old.items ++ flat_map (λ part. part.now) parts.now) }
{
    put_all(text, parts).map_err(|_| AllocError)
}

pub(crate) fn push_bytes(bytes: &[u8], text: &mut Vec<u8>) -> Result<(), AllocError>
    ensures { OnOk result (text.new.items ≡ text.old.items ++ bytes.now) }
{
    text.extend_from_slice(bytes)
}

pub(crate) fn push_reason(sentence: &str, text: &mut Vec<u8>) -> Result<(), AllocError>
    ensures { OnOk result (text.new.items ≡ text.old.items ++ reason_line sentence.now) }
{
    push_all(
        &[b"  ".as_slice(), sentence.as_bytes(), b"\n".as_slice()],
        text,
    )
}

/// Returns the bytes before a place, or all bytes if the place is beyond their end.
pub(crate) fn up_to(place: usize, bytes: &[u8]) -> &[u8]
    ensures value { result.now ≡ take place bytes.now }
    ensures within { length result.now ≤ length bytes.now }
{
    if place < bytes.len() {
        bytes.split_at(place).0
    } else {
        bytes
    }
}

/// Returns the bytes from a place to the end, or no bytes if the place is beyond their end.
pub(crate) fn from_place(place: usize, bytes: &[u8]) -> &[u8]
    ensures { result.now ≡ drop place bytes.now }
{
    if place < bytes.len() {
        bytes.split_at(place).1
    } else {
        b""
    }
}

#[derive(Clone, Copy)]
pub(crate) struct PlacedWord<'a> {
    pub(crate) place: usize,
    pub(crate) text: &'a [u8],
}

pub(crate) fn next_placed<'a>(reader: &mut Reader<'a>) -> Option<PlacedWord<'a>>
    ensures next { MatchOption result (reader.old.words ≡ [])
        (λ word. reader.old.words ≡ (record { place = word.place; text = word.text.now }) ∷ reader.new.words) }
{
    match reader.next() {
        Token::Word { place, text } => Some(PlacedWord { place, text }),
        _ => None,
    }
}
