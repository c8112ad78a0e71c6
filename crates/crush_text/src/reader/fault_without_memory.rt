//! Finds the fault to report if there isn't even enough memory for an empty map.

ghost use Rattle.std.specs.Prelude.{◌≡◌};
ghost use Rattle.crush_text.specs.ReadsStatements.{FailsText, FailsFirst, opens_alone};

use crate::expected::{Expected, Optional};
use crate::fault::{TextFault, TextFaultKind};
use crate::reader::statement::{comes_first, is_out_of_place};
use crate::reader::word::{PlacedWord, memory_at};
use crush_units::{Reader, Token};

/// Returns the fault of the text's first word. If this word has no fault, returns `OutOfMemory` at
/// the place of the word. If the text ends before a first word, returns `OutOfMemory` at the end of
/// the text. If the first word is too long, or if a byte that isn't allowed comes before any word,
/// returns `BadWord`.
pub(crate) fn fault_without_memory(reader: &mut Reader<'_>) -> TextFault
    ensures { FailsText result reader.old }
{
    match reader.next() {
        Token::Word { place, text } => unopened(PlacedWord { place, text }),
        Token::End { place } => memory_at(place),
        Token::Bad { place } => TextFault {
            kind: TextFaultKind::BadWord,
            place,
            expected: Expected::Statement {
                late: false,
                or: Optional::Nothing,
            },
        },
    }
}

/// Returns the fault of the text's first word. If this word has no fault, returns `OutOfMemory` at
/// the place of the word. No type is declared before the first word, so no bucket can begin here.
fn unopened(word: PlacedWord<'_>) -> TextFault
    ensures { FailsFirst result word.entry.place word.entry.text.now }
{
    let expected = Expected::Statement {
        late: false,
        or: Optional::Nothing,
    };
    if is_out_of_place(word, false) {
        word.fault(TextFaultKind::Unexpected, expected)
    } else if word.is(b"choose_args") {
        word.fault(TextFaultKind::LeftOut, expected)
    } else if opens_alone(word) {
        memory_at(word.place)
    } else {
        word.fault(TextFaultKind::UnknownType, expected)
    }
}

/// Whether the word can begin a statement before any type is declared.
fn opens_alone(word: PlacedWord<'_>) -> bool
    ensures { result ≡ opens_alone word.entry.text.now }
{
    comes_first(word) || word.is(b"rule")
}
