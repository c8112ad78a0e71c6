//! Reads one word of a map's text.

ghost use Rattle.std.specs.Prelude.{◌≡◌, IfOk, IfErr, bytes_eq};
ghost use Rattle.crush_units.specs.Name.{IsName};
ghost use Rattle.crush_units.specs.Words.{is_brace_word};
ghost use Rattle.crush_text.specs.declared.fault.TextFaultKind.TheVariants.{OutOfMemory};
ghost use Rattle.crush_text.specs.declared.expected.Expected.TheVariants.{Memory};
ghost use Rattle.crush_text.specs.ReadsWords.{TakesWord};

use crate::expected::Expected;
use crate::fault::{TextFault, TextFaultKind};
use crush_builder::BuildFault;
use crush_units::{Name, Reader, Token};
use std::alloc::Global;

/// A word, and the index of its first byte in the text.
#[derive(Clone, Copy)]
pub(crate) struct PlacedWord<'a> {
    pub(crate) place: usize,
    pub(crate) text: &'a [u8],
}

/// Reads the next word, which may be a brace. Fails with `Ended` if the text ends here. Fails with
/// `BadWord` if the next byte isn't allowed or the next word is too long. `expected` says what the
/// grammar expects here.
#[tactic(auto, unfolding(crate::specs::Reads::next_at))]
pub(crate) fn next_word<'a>(
    reader: &mut Reader<'a>,
    expected: Expected,
) -> Result<PlacedWord<'a>, TextFault>
    ensures { TakesWord expected reader.old reader.new result }
{
    match reader.next() {
        Token::Word { place, text } => Ok(PlacedWord { place, text }),
        Token::End { place } => Err(TextFault {
            kind: TextFaultKind::Ended,
            place,
            expected,
        }),
        Token::Bad { place } => Err(TextFault {
            kind: TextFaultKind::BadWord,
            place,
            expected,
        }),
    }
}

/// Returns the fault that memory ran out at this place.
pub(crate) fn memory_at(place: usize) -> TextFault
    ensures { result ≡ record { kind = OutOfMemory; place = place; expected = Memory } }
{
    TextFault {
        kind: TextFaultKind::OutOfMemory,
        place,
        expected: Expected::Memory,
    }
}

/// Turns a fault of the builder into the fault of the text at this place. Before the builder was
/// called, the reader checked the word, so the only possible fault is that memory ran out.
pub(crate) fn out_of_memory_at(place: usize, fault: BuildFault) -> TextFault
    requires { fault ≡ BuildFault.OutOfMemory }
    ensures { result ≡ record { kind = OutOfMemory; place = place; expected = Memory } }
{
    let BuildFault::OutOfMemory = fault else {
        unreachable!()
    };
    memory_at(place)
}

impl<'a> PlacedWord<'a> {
    /// Returns a fault of this kind at the word's place. `expected` says what the grammar expects
    /// there.
    pub(crate) fn fault(self, kind: TextFaultKind, expected: Expected) -> TextFault
        ensures { result ≡ record { kind = kind; place = self.entry.place; expected = expected } }
    {
        TextFault {
            kind,
            place: self.place,
            expected,
        }
    }

    pub(crate) fn is(self, word: &[u8]) -> bool
        ensures { result ≡ bytes_eq self.entry.text.now word.now }
    {
        self.text == word
    }

    pub(crate) fn is_brace(self) -> bool
        ensures { result ≡ is_brace_word self.entry.text.now }
    {
        self.is(b"{") || self.is(b"}")
    }

    /// Returns a copy of the word as a name. If memory runs out, fails at the word's place.
    pub(crate) fn owned_name(self, global: Global) -> Result<Name<Global>, TextFault>
        requires { IsName self.text.now }
        ensures name { IfOk result (λ name. name ≡ self.entry.text.now) }
        ensures memory { IfErr result
            (λ f. f ≡ record { kind = OutOfMemory; place = self.entry.place; expected = Memory }) }
    {
        match Name::read(global, self.text) {
            Ok(name) => Ok(name),
            Err(_) => Err(memory_at(self.place)),
        }
    }
}
