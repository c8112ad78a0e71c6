//! Names of items, types, classes and rules. All of them have the same form.

ghost use Rattle.std.specs.Prelude.{◌≡◌, ◌<◌, length, IsTrue, ◌↔◌, OnOk, IfOk, IfErr, MatchOption, MatchResult, bytes_eq, true};
ghost use Rattle.std.specs.Cmp.Rules.{comparing, hashing};
ghost use Rattle.std.specs.Cmp.Lexicographic.{bytes_decides, nat_list_eq_equiv};
ghost use Rattle.std.specs.Hash as fed;
ghost use Rattle.std.proofs.Common.{ap, rules};
ghost use Rattle.crush_units.specs.Name.{IsName, is_name_byte, are_name_bytes, is_name, IsFirstBad, IsNameFault, name_fault_number};
ghost use Rattle.crush_units.specs.declared.name.NameFault.TheVariants.{OutOfMemory};

use crate::limits::{LONGEST_NAME, LONGEST_SHORT_NAME};
use crate::text::Text;
use indexmap::Equivalent;
use std::alloc::{AllocError, Allocator};
use std::hash::{Hash, Hasher};
use std::marker::Model;
use thiserror::Error;

mod osd;

/// The error of [`Name::read`]: why the bytes weren't read as a name.
#[derive(Clone, Copy, Debug, PartialEq, Eq, Error)]
pub enum NameFault {
    /// There are no bytes.
    #[error("a name is empty")]
    Empty,
    /// A byte isn't allowed in a name. The value is the index of the first such byte, from 0.
    #[error("byte {0} of a name is no letter, digit, `-`, `_` or `.`")]
    BadByte(usize),
    /// There are more than 255 bytes, all of them allowed in a name.
    #[error("a name has more than 255 bytes")]
    TooLong,
    /// The bytes are a name, but no memory could be allocated for it.
    #[error("out of memory")]
    OutOfMemory,
}

impl NameFault {
    /// Returns the fault's number: 1 for `Empty`, 2 for `BadByte`, 3 for `TooLong`, 4 for
    /// `OutOfMemory`.
    pub fn number(self) -> u8
        ensures { result ≡ name_fault_number self }
    {
        match self {
            NameFault::Empty => 1,
            NameFault::BadByte(_) => 2,
            NameFault::TooLong => 3,
            NameFault::OutOfMemory => 4,
        }
    }
}

/// A name: 1 to 255 bytes, each an ASCII letter, a digit, `-`, `_` or `.`. Memory is allocated only
/// for a name of more than 30 bytes. In contracts the value of a name is its bytes.
#[derive(Drop)]
pub struct Name<A: Allocator> {
    text: Text<A>,
}

impl<A: Allocator> Model for Name<A> {
    ghost use Rattle.std.specs.Prelude.{List, ℕ};

    ghost Value = { List ℕ };

    ghost use Rattle.crush_units.specs.Name.{IsName};
    ghost use Rattle.crush_units.specs.Text.{text_bytes};

    ghost view = { λ name. text_bytes name.text };

    ghost invariant = { λ name. IsName (text_bytes name.text) };
}

impl<A: Allocator> Name<A> {
    /// Returns the name that consists of these bytes. A name of more than 30 bytes is copied into
    /// memory of the allocator.
    ///
    /// Fails with the first of these faults that applies: `Empty` if there are no bytes; `BadByte`
    /// with the index of the first byte that isn't allowed in a name; `TooLong` if there are more
    /// than 255 bytes; `OutOfMemory` if the memory for more than 30 bytes can't be allocated. The
    /// cost is linear in the number of bytes.
    pub fn read(alloc: A, bytes: &[u8]) -> Result<Name<A>, NameFault>
        ensures value { IfOk result (λ name. name ≡ bytes.now) }
        ensures name { OnOk result (IsName bytes.now) }
        ensures fault { IfErr result (IsNameFault bytes.now) }
        ensures inside { IfErr result (λ fault. fault ≡ OutOfMemory → LONGEST_SHORT_NAME < length bytes.now) }
    {
        if bytes.is_empty() {
            return Err(NameFault::Empty);
        }
        if let Some(place) = first_bad(bytes) {
            return Err(NameFault::BadByte(place));
        }
        if bytes.len() > LONGEST_NAME {
            return Err(NameFault::TooLong);
        }
        match Text::new(alloc, bytes) {
            Ok(text) => Ok(Name { text }),
            Err(_) => Err(NameFault::OutOfMemory),
        }
    }

    /// Returns the name as a text of 1 to 255 bytes.
    pub fn as_str(&self) -> &str
        ensures value { result.now ≡ self.now }
        ensures name { IsName self.now }
    {
        self.text.as_str()
    }

    /// Returns the name's bytes, of which there are 1 to 255.
    pub fn as_bytes(&self) -> &[u8]
        ensures value { result.now ≡ self.now }
        ensures name { IsName self.now }
    {
        self.text.as_bytes()
    }

    /// Copies the name into memory of the given allocator, which may differ from the name's own.
    /// Fails only if the name has more than 30 bytes and no memory can be allocated for them. A
    /// shorter name needs no memory.
    pub fn try_copy<B: Allocator>(&self, alloc: B) -> Result<Name<B>, AllocError>
        ensures { MatchResult result (λ copy. copy ≡ self.now)
            (λ _. LONGEST_SHORT_NAME < length self.now) }
    {
        let text = self.text.try_copy(alloc)?;
        Ok(Name { text })
    }

    /// Whether the name consists of exactly these bytes.
    pub fn is(&self, bytes: &[u8]) -> bool
        ensures value { result ≡ bytes_eq self.now bytes.now }
        ensures exact { IsTrue result ↔ (self.now ≡ bytes.now) }
    {
        self.as_bytes() == bytes
    }
}

impl<A: Allocator> PartialEq for Name<A> {
    ghost eq = { bytes_eq };

    ghost laws = { Prim.search (comparing, rules) };

    fn eq(&self, other: &Name<A>) -> bool {
        self.as_bytes() == other.as_bytes()
    }
}

impl<A: Allocator> Eq for Name<A> {
    ghost laws = { Prim.search (comparing, rules) };
}

impl<A: Allocator> Hash for Name<A> {
    ghost hash_input = { fed.slice fed.u8 };

    ghost respects_eq = { Prim.search (hashing, rules) };

    fn hash<H: Hasher>(&self, state: &mut H) {
        self.as_bytes().hash(state);
    }
}

/// Lets code look up a name in an index by the name's bytes, without creating a [`Name`] first.
impl<A: Allocator> Equivalent<Name<A>> for &[u8] {
    ghost equivalent = { λ bytes. bytes_eq bytes.now };

    ghost respects_hash = { λ bytes name h.
        ap (fed.slice fed.u8) ((bytes_decides bytes.now name).0 h) };

    ghost respects_eq = { λ bytes. nat_list_eq_equiv.congr bytes.now };

    fn equivalent(&self, name: &Name<A>) -> bool {
        *self == name.as_bytes()
    }
}

/// Whether the bytes are a name: 1 to 255 bytes, each of which [`is_name_byte`] accepts.
pub fn is_name(bytes: &[u8]) -> bool
    ensures value { result ≡ is_name bytes.now }
    ensures exact { IsTrue result ↔ IsName bytes.now }
{
    !bytes.is_empty() && bytes.len() <= LONGEST_NAME && first_bad(bytes).is_none()
}

/// Whether the byte is allowed in a name: an ASCII letter, a digit, `-`, `_` or `.`.
pub fn is_name_byte(byte: u8) -> bool
    ensures { result ≡ is_name_byte byte }
{
    matches!(byte, b'0'..=b'9' | b'A'..=b'Z' | b'a'..=b'z' | b'-' | b'_' | b'.')
}

/// Returns the index of the first byte that isn't allowed in a name, or `None` if each byte is
/// allowed.
fn first_bad(bytes: &[u8]) -> Option<usize>
    ensures { MatchOption result (are_name_bytes bytes.now ≡ true) (IsFirstBad bytes.now) }
{
    for (place, byte) in bytes.iter().enumerate() {
        if !is_name_byte(*byte) {
            return Some(place);
        }
    }
    None
}
