//! The text of a name. A text of up to 30 bytes is stored in the value itself, so that no memory
//! has to be allocated for it.

ghost use Rattle.std.specs.Prelude.{◌≡◌, ◌≤◌, ◌<◌, IfOk, IfErr, OnErr, length};
ghost use Rattle.std.specs.Str.{IsUtf8};
ghost use Rattle.crush_units.specs.Text.{text_bytes};

use crate::limits::LONGEST_SHORT_NAME;
use std::alloc::{AllocError, Allocator};
use std::marker::Model;
use std::str;

/// A text of at most 30 bytes: the first `count` bytes of the array `bytes`.
#[derive(Drop)]
pub(crate) struct Short {
    count: u8,
    bytes: [u8; LONGEST_SHORT_NAME],
}

impl Model for Short {
    ghost use Rattle.std.specs.Prelude.{List, ℕ, ◌≤◌, take};
    ghost use Rattle.crush_units.specs.declared.limits.TheConstants.{LONGEST_SHORT_NAME};

    ghost Value = { List ℕ };

    ghost view = { λ short. take short.count short.bytes };

    ghost invariant = { λ short. short.count ≤ LONGEST_SHORT_NAME };
}

impl Short {
    pub(crate) fn new(bytes: &[u8]) -> Short
        requires { length bytes.now ≤ LONGEST_SHORT_NAME }
        ensures { result ≡ bytes.now }
    {
        let count = bytes.len();
        let mut inside = [0; LONGEST_SHORT_NAME];
        inside[..count].copy_from_slice(bytes);
        Short {
            count: count as u8,
            bytes: inside,
        }
    }

    fn copy(&self) -> Short
        ensures { result ≡ self.now }
    {
        Short {
            count: self.count,
            bytes: self.bytes,
        }
    }

    fn as_bytes(&self) -> &[u8]
        ensures { result.now ≡ self.now }
    {
        &self.bytes[..self.count as usize]
    }
}

/// A text. It is stored in the value itself or, if it is longer than 30 bytes, in allocated memory.
#[derive(Drop)]
pub(crate) enum Text<A: Allocator> {
    Short(Short),
    Long(String<A>),
}

impl<A: Allocator> Text<A> {
    pub(crate) fn new(alloc: A, bytes: &[u8]) -> Result<Text<A>, AllocError>
        requires { IsUtf8 bytes.now }
        ensures value { IfOk result (λ text. text_bytes text ≡ bytes.now) }
        ensures inside { IfErr result (λ _. LONGEST_SHORT_NAME < length bytes.now) }
    {
        if bytes.len() <= LONGEST_SHORT_NAME {
            return Ok(Text::Short(Short::new(bytes)));
        }
        Ok(Text::Long(String::from_str(alloc, utf8(bytes))?))
    }

    pub(crate) fn try_copy<B: Allocator>(&self, alloc: B) -> Result<Text<B>, AllocError>
        ensures value { IfOk result (λ copy. text_bytes copy ≡ text_bytes self.now) }
        ensures inside { OnErr result (LONGEST_SHORT_NAME < length (text_bytes self.now)) }
    {
        match self {
            Text::Short(short) => Ok(Text::Short(short.copy())),
            Text::Long(text) => Text::new(alloc, text.as_bytes()),
        }
    }

    pub(crate) fn as_bytes(&self) -> &[u8]
        ensures { result.now ≡ text_bytes self.now }
    {
        match self {
            Text::Short(short) => short.as_bytes(),
            Text::Long(text) => text.as_bytes(),
        }
    }

    pub(crate) fn as_str(&self) -> &str
        requires { IsUtf8 (text_bytes self.now) }
        ensures { result.now ≡ text_bytes self.now }
    {
        match self {
            Text::Short(short) => utf8(short.as_bytes()),
            Text::Long(text) => text.as_str(),
        }
    }
}

fn utf8(bytes: &[u8]) -> &str
    requires { IsUtf8 bytes.now }
    ensures { result.now ≡ bytes.now }
{
    let Ok(text) = str::from_utf8(bytes) else {
        unreachable!()
    };
    text
}
