//! Writes which numbers the grammar of a map's text allows, for a word that isn't one of these
//! numbers.

ghost use Rattle.std.specs.Prelude.{◌≡◌, ◌++◌, OnOk};
ghost use Rattle.crush_reasons.specs.Ranges.{is_whole, is_zero_expected, range_head, range_of, range_text, range_words, up_to_most, without_minus};

use crate::misfit::all_digits;
use crate::words::{push_all, push_bytes};
use crush_text::Expected;
use itoa::Buffer;
use std::alloc::AllocError;

#[tactic(auto, unfolding(crate::specs::Ranges::up_to_most))]
fn push_up_to_most(most: u32, text: &mut Vec<u8>) -> Result<(), AllocError>
    ensures { OnOk result (text.new.items ≡ text.old.items ++ up_to_most most) }
{
    let mut buffer = Buffer::new();
    push_all(&[b"0 to ".as_slice(), buffer.format(most).as_bytes()], text)
}

/// Returns the first and the last number of the range that the grammar allows. The ids of buckets
/// go down from -1, so the first number of their range is the greatest. The result isn't used for
/// [`Expected::Number`], because `push_range_of` prints the range of this variant itself.
fn range_words(expected: Expected) -> &'static str
    ensures { result.now ≡ range_words expected }
{
    match expected {
        Expected::TypeNumber => "0 to 65535",
        Expected::BucketId => "-1 to -2147483648",
        Expected::Count => "-2147483648 to 2147483647",
        _ => "0 to 2147483647",
    }
}

fn push_range_of(expected: Expected, text: &mut Vec<u8>) -> Result<(), AllocError>
    ensures { OnOk result (text.new.items ≡ text.old.items ++ range_of expected) }
{
    match expected {
        Expected::Number { most } => push_up_to_most(most, text),
        _ => push_bytes(range_words(expected).as_bytes(), text),
    }
}

fn without_minus(word: &[u8]) -> &[u8]
    ensures { result.now ≡ without_minus word.now }
{
    match word {
        [b'-', rest @ ..] => rest,
        _ => word,
    }
}

fn is_whole(word: &[u8]) -> bool
    ensures { result ≡ is_whole word.now }
{
    let digits = without_minus(word);
    !digits.is_empty() && all_digits(digits)
}

fn range_head(word: &[u8]) -> &'static str
    ensures { result.now ≡ range_head word.now }
{
    if is_whole(word) {
        "number out of range: "
    } else {
        "expected a whole number from "
    }
}

fn is_zero_expected(expected: Expected) -> bool
    ensures { result ≡ is_zero_expected expected }
{
    match expected {
        Expected::Number { most } => most == 0,
        _ => false,
    }
}

/// Appends the sentence for a word that isn't one of the numbers that are expected at its place.
pub(crate) fn push_range(
    word: &[u8],
    expected: Expected,
    text: &mut Vec<u8>,
) -> Result<(), AllocError>
    ensures { OnOk result (text.new.items ≡ text.old.items ++ range_text word.now expected) }
{
    if is_zero_expected(expected) {
        return text.extend_from_slice(b"expected 0");
    }
    push_bytes(range_head(word).as_bytes(), text)?;
    push_range_of(expected, text)
}
