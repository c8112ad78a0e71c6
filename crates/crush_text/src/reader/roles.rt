//! Reads words that occur in several kinds of statements.

ghost use Rattle.crush_text.specs.Expected.{keyword_word};
ghost use Rattle.crush_text.specs.Role.{key, any_word, number, new_name};
ghost use Rattle.crush_text.specs.ReadsWords.{FindsWord, ReadsWord, ReadsValue, AnyDraft};

use crate::expected::{Expected, Keyword};
use crate::fault::{TextFault, TextFaultKind};
use crate::reader::MapReader;
use crate::reader::word::{PlacedWord, next_word};
use crush_units::Reader;
use crush_units::number::number_up_to;
use std::alloc::Allocator;

/// Reads the word of `keyword`. Any other word is a fault.
#[tactic(auto, unfolding(crate::specs::Reads::word_at))]
pub(crate) fn read_key(reader: &mut Reader<'_>, keyword: Keyword) -> Result<(), TextFault>
    ensures { ReadsValue (key (keyword_word keyword)) (λ x. x) AnyDraft reader.old reader.new result }
{
    let expected = Expected::Keyword(keyword);
    let word = next_word(reader, expected)?;
    if word.is(keyword.text().as_bytes()) {
        Ok(())
    } else {
        Err(word.fault(TextFaultKind::Unexpected, expected))
    }
}

/// Reads any word except for a brace. `expected` says what the grammar expects here.
#[tactic(auto, unfolding(crate::specs::Reads::word_at))]
pub(crate) fn read_word<'a>(
    reader: &mut Reader<'a>,
    expected: Expected,
) -> Result<PlacedWord<'a>, TextFault>
    ensures { ReadsWord (any_word expected) AnyDraft reader.old reader.new result }
{
    let word = next_word(reader, expected)?;
    if word.is_brace() {
        return Err(word.fault(TextFaultKind::Unexpected, expected));
    }
    Ok(word)
}

/// Reads a number from 0 to `most`.
#[tactic(auto, unfolding(crate::specs::Reads::word_at))]
pub(crate) fn read_number(reader: &mut Reader<'_>, most: u32) -> Result<u32, TextFault>
    ensures { ReadsValue (number most) (λ n. n) AnyDraft reader.old reader.new result }
{
    let expected = Expected::Number { most };
    let word = read_word(reader, expected)?;
    match number_up_to(most, word.text) {
        Some(number) => Ok(number),
        None => Err(word.fault(TextFaultKind::BadNumber, expected)),
    }
}

impl<'a, A: Allocator> MapReader<'a, A> {
    /// Reads a name that no device and no bucket has yet.
    #[tactic(auto, unfolding(crate::specs::Reads::word_at))]
    pub(crate) fn new_name(&mut self) -> Result<PlacedWord<'a>, TextFault>
        ensures { FindsWord new_name self.old self.new result }
    {
        let word = read_word(&mut self.text, Expected::NewName)?;
        if self.builder.has_name(word.text) {
            return Err(word.fault(TextFaultKind::DuplicateName, Expected::NewName));
        }
        Ok(word)
    }
}
