//! Writes the reason why a line of a script isn't allowed at its place. The reason names the first
//! word that doesn't fit, or says what else is wrong with the line.

ghost use Rattle.std.specs.Prelude.{◌≡◌, ◌++◌, ◌≤◌, OnOk, length};
ghost use Rattle.std.specs.List.{list_all};
ghost use Rattle.std.specs.Char.{is_ascii_alphabetic, is_ascii_digit};
ghost use Rattle.crush_units.specs.Weight.{are_digits, weight_of_text};
ghost use Rattle.crush_reasons.specs.Misfit.{bare, device_meant, digits_of, form_head, form_in_line, has_unit, index_in_line, is_fault_large, is_large, is_mistyped, is_of_number, is_quote, is_quoted, is_separator, is_weight, line_reason, misfit_index, misfit_text, mistyped, front_of, name_meant, no_device, no_name, number_meant, no_weight, parts_of, point_at, unit_at, weight_meant, weight_said, whole_of, with_point, word_reason, wrong_text};

use crate::shown::push_told;
use crate::words::{push_all, push_bytes};
use crush_script::{BadLine, Due, Form, Misfit, placed_word};
use crush_units::limits::LAST_DEVICE_ID;
use crush_units::number::number_up_to;
use crush_units::{Weight, WeightFault, is_name};
use itoa::Buffer;
use std::alloc::AllocError;

fn is_quote(byte: u8) -> bool
    ensures { result ≡ is_quote byte }
{
    byte == b'"' || byte == b'\''
}

fn is_quoted(word: &[u8]) -> bool
    ensures { result ≡ is_quoted word.now }
{
    if word.len() < 2 {
        return false;
    }
    is_quote(word[0]) && is_quote(word[word.len() - 1])
}

/// Returns a word without its first and its last byte if both are quotation marks, and otherwise
/// the whole word.
fn bare(word: &[u8]) -> &[u8]
    ensures { result.now ≡ bare word.now }
{
    if word.len() < 2 || !is_quoted(word) {
        return word;
    }
    let (_, rest) = word.split_at(1);
    rest.split_at(word.len() - 2).0
}

fn push_name_meant(meant: &[u8], text: &mut Vec<u8>) -> Result<(), AllocError>
    ensures { OnOk result (text.new.items ≡ text.old.items ++ name_meant meant.now) }
{
    if is_name(meant) {
        push_all(
            &[
                b" is not a name: did you mean ".as_slice(),
                meant,
                b"?".as_slice(),
            ],
            text,
        )
    } else {
        text.extend_from_slice(
            b" is not a name: use letters, digits, `-`, `_` and `.`, at most 255",
        )
    }
}

fn push_no_name(word: &[u8], text: &mut Vec<u8>) -> Result<(), AllocError>
    ensures { OnOk result (text.new.items ≡ text.old.items ++ no_name word.now) }
{
    push_told(word, text)?;
    push_name_meant(bare(word), text)
}

/// Returns the rest of the word after `osd.`, or the whole word if it doesn't begin with `osd.`.
fn digits_of(word: &[u8]) -> &[u8]
    ensures { result.now ≡ digits_of word.now }
{
    if word.len() < 4 {
        return word;
    }
    let (front, digits) = word.split_at(4);
    if front == b"osd.".as_slice() {
        digits
    } else {
        word
    }
}

fn push_number_meant(number: Option<u32>, text: &mut Vec<u8>) -> Result<(), AllocError>
    ensures { OnOk result (text.new.items ≡ text.old.items ++ number_meant number) }
{
    match number {
        Some(number) => {
            let mut buffer = Buffer::new();
            let number = buffer.format(number).as_bytes();
            push_all(
                &[b"did you mean osd.".as_slice(), number, b"?".as_slice()],
                text,
            )
        }
        None => push_bytes(b"write osd.N with N from 0 to 2147483647", text),
    }
}

fn push_device_meant(digits: &[u8], text: &mut Vec<u8>) -> Result<(), AllocError>
    ensures { OnOk result (text.new.items ≡ text.old.items ++ device_meant digits.now) }
{
    push_number_meant(number_up_to(LAST_DEVICE_ID, digits), text)
}

fn push_no_device(word: &[u8], text: &mut Vec<u8>) -> Result<(), AllocError>
    ensures { OnOk result (text.new.items ≡ text.old.items ++ no_device word.now) }
{
    push_told(word, text)?;
    text.extend_from_slice(b" is not a device: ")?;
    push_device_meant(digits_of(bare(word)), text)
}

fn is_separator(byte: u8) -> bool
    ensures { result ≡ is_separator byte }
{
    byte == b',' || byte == b'.'
}

/// Returns the place of the first comma or point, or the length of the word if it has none.
fn point_at(word: &[u8]) -> usize
    ensures place { result ≡ point_at word.now }
    ensures within { result ≤ length word.now }
{
    for (place, byte) in word.iter().enumerate() {
        if is_separator(*byte) {
            return place;
        }
    }
    word.len()
}

fn whole_of(word: &[u8]) -> &[u8]
    ensures { result.now ≡ whole_of word.now }
{
    word.split_at(point_at(word)).0
}

fn parts_of(word: &[u8]) -> &[u8]
    ensures { result.now ≡ parts_of word.now }
{
    let (_, rest) = word.split_at(point_at(word));
    match rest {
        [] => rest,
        [_, rest @ ..] => rest,
    }
}

pub(crate) fn all_digits(text: &[u8]) -> bool
    ensures { result ≡ list_all is_ascii_digit text.now }
{
    text.iter().all(|byte| byte.is_ascii_digit())
}

fn are_digits(most: usize, text: &[u8]) -> bool
    ensures { result ≡ are_digits most text.now }
{
    !text.is_empty() && text.len() <= most && all_digits(text)
}

/// Whether the word has three parts, one directly after the other: 0 to 10 digits, then a comma or
/// a point, and then 1 to 18 digits. If such a word is neither a weight nor too large a number, the
/// reason suggests the word with a point, and with `0` before the point if there is no digit.
#[tactic(auto, unfolding(crate::specs::Misfit::is_mistyped))]
fn is_mistyped(word: &[u8]) -> bool
    ensures { result ≡ is_mistyped word.now }
{
    let whole = whole_of(word);
    (whole.is_empty() || are_digits(10, whole)) && are_digits(18, parts_of(word))
}

fn front_of(whole: &[u8]) -> &[u8]
    ensures { result.now ≡ front_of whole.now }
{
    if whole.is_empty() { b"0" } else { whole }
}

#[tactic(auto, unfolding(crate::specs::Misfit::with_point))]
fn push_with_point(word: &[u8], text: &mut Vec<u8>) -> Result<(), AllocError>
    ensures { OnOk result (text.new.items ≡ text.old.items ++ with_point word.now) }
{
    let whole = front_of(whole_of(word));
    let parts = parts_of(word);
    push_all(
        &[
            b"did you mean ".as_slice(),
            whole,
            b".".as_slice(),
            parts,
            b"?".as_slice(),
        ],
        text,
    )
}

#[tactic(auto, unfolding(crate::specs::Misfit::is_weight))]
fn is_weight(word: &[u8]) -> bool
    ensures { result ≡ is_weight word.now }
{
    match Weight::read_bytes(word) {
        Ok(_) => true,
        Err(_) => false,
    }
}

fn is_of_number(byte: u8) -> bool
    ensures { result ≡ is_of_number byte }
{
    byte.is_ascii_digit() || byte == b'.'
}

/// Returns the place of the first byte that is neither a digit nor a point, or the length of the
/// word if it has no such byte.
fn unit_at(word: &[u8]) -> usize
    ensures place { result ≡ unit_at word.now }
    ensures within { result ≤ length word.now }
{
    for (place, byte) in word.iter().enumerate() {
        if !is_of_number(*byte) {
            return place;
        }
    }
    word.len()
}

fn all_letters(text: &[u8]) -> bool
    ensures { result ≡ list_all is_ascii_alphabetic text.now }
{
    text.iter().all(|byte| byte.is_ascii_alphabetic())
}

/// Whether the word is a weight followed by letters, such as `4T` or `3.6TiB`.
#[tactic(auto, unfolding(crate::specs::Misfit::has_unit))]
fn has_unit(word: &[u8]) -> bool
    ensures { result ≡ has_unit word.now }
{
    let place = unit_at(word);
    if place >= word.len() {
        return false;
    }
    let (number, unit) = word.split_at(place);
    is_weight(number) && all_letters(unit)
}

fn push_weight_meant(word: &[u8], text: &mut Vec<u8>) -> Result<(), AllocError>
    ensures { OnOk result (text.new.items ≡ text.old.items ++ weight_meant word.now) }
{
    if is_weight(word) {
        return push_all(&[b"did you mean ".as_slice(), word, b"?".as_slice()], text);
    }
    if is_mistyped(word) {
        return push_with_point(word, text);
    }
    if has_unit(word) {
        return push_bytes(
            b"weights are in TiB, without a unit: a disk sold as 4 TB weighs 3.63869",
            text,
        );
    }
    push_bytes(b"write a number such as 1.5", text)
}

fn is_too_large(word: &[u8]) -> bool
    ensures { result ≡ is_fault_large (weight_of_text word.now) }
{
    match Weight::read_bytes(word) {
        Ok(_) => false,
        Err(WeightFault::Syntax) => false,
        Err(WeightFault::TooLarge) => true,
    }
}

fn is_large(word: &[u8]) -> bool
    ensures { result ≡ is_large word.now }
{
    is_too_large(word) || (word.len() > 10 && all_digits(word))
}

fn push_mistyped(word: &[u8], text: &mut Vec<u8>) -> Result<(), AllocError>
    ensures { OnOk result (text.new.items ≡ text.old.items ++ mistyped word.now) }
{
    text.extend_from_slice(b" is not a weight: ")?;
    push_weight_meant(bare(word), text)
}

fn push_weight_said(word: &[u8], text: &mut Vec<u8>) -> Result<(), AllocError>
    ensures { OnOk result (text.new.items ≡ text.old.items ++ weight_said word.now) }
{
    if is_large(word) {
        text.extend_from_slice(b" is too large: weights are in TiB, at most 65535.99998")
    } else {
        push_mistyped(word, text)
    }
}

fn push_no_weight(word: &[u8], text: &mut Vec<u8>) -> Result<(), AllocError>
    ensures { OnOk result (text.new.items ≡ text.old.items ++ no_weight word.now) }
{
    push_told(word, text)?;
    push_weight_said(word, text)
}

fn push_no_pair(word: &[u8], text: &mut Vec<u8>) -> Result<(), AllocError>
    ensures { OnOk result (text.new.items ≡ text.old.items ++ wrong_text Due.Pair word.now) }
{
    push_told(word, text)?;
    text.extend_from_slice(b" is not a pair: write TYPE=NAME without spaces")
}

fn push_no_count(word: &[u8], text: &mut Vec<u8>) -> Result<(), AllocError>
    ensures { OnOk result (text.new.items ≡ text.old.items ++ wrong_text Due.Changes word.now) }
{
    push_told(word, text)?;
    text.extend_from_slice(b" is not a number of changes: expected 0 to 65536")
}

fn push_no_at(word: &[u8], text: &mut Vec<u8>) -> Result<(), AllocError>
    ensures { OnOk result (text.new.items ≡ text.old.items ++ wrong_text Due.At word.now) }
{
    text.extend_from_slice(b"unexpected word ")?;
    push_told(word, text)?;
    push_bytes(b": expected `at N` or the end of the line", text)
}

fn push_extra(word: &[u8], text: &mut Vec<u8>) -> Result<(), AllocError>
    ensures { OnOk result (text.new.items ≡ text.old.items ++ wrong_text Due.End word.now) }
{
    text.extend_from_slice(b"unexpected extra word ")?;
    push_told(word, text)
}

fn push_wrong(due: Due, word: &[u8], text: &mut Vec<u8>) -> Result<(), AllocError>
    ensures { OnOk result (text.new.items ≡ text.old.items ++ wrong_text due word.now) }
{
    match due {
        Due::Device => push_no_device(word, text),
        Due::Weight => push_no_weight(word, text),
        Due::Name => push_no_name(word, text),
        Due::Pair => push_no_pair(word, text),
        Due::NoMorePairs => text.extend_from_slice(b"too many pairs: at most 16"),
        Due::At => push_no_at(word, text),
        Due::Changes => push_no_count(word, text),
        Due::End => push_extra(word, text),
    }
}

#[tactic(auto, unfolding(crate::specs::Misfit::misfit_text))]
fn push_misfit(
    misfit: Misfit,
    form: &str,
    word: &[u8],
    text: &mut Vec<u8>,
) -> Result<(), AllocError>
    ensures { OnOk result (text.new.items
        ≡ text.old.items ++ misfit_text misfit form.now word.now) }
{
    if word.is_empty() {
        let missing = placed_word(form.as_bytes(), misfit.word).text;
        return push_all(&[missing, b" is missing".as_slice()], text);
    }
    push_wrong(misfit.due, word, text)
}

#[tactic(auto, unfolding(crate::specs::Misfit::form_in_line))]
fn form_in_line(line: &[u8]) -> &'static str
    ensures { result.now ≡ form_in_line line.now }
{
    match Form::read(placed_word(line, 0).text) {
        Some(form) => form.text(),
        None => "",
    }
}

#[tactic(auto, unfolding(crate::specs::Misfit::form_head))]
fn push_form_head(form: &str, text: &mut Vec<u8>) -> Result<(), AllocError>
    ensures { OnOk result (text.new.items ≡ text.old.items ++ form_head form.now) }
{
    if form.is_empty() {
        return Ok(());
    }
    push_all(&[form.as_bytes(), b": ".as_slice()], text)
}

fn push_word_reason(misfit: Misfit, line: &[u8], text: &mut Vec<u8>) -> Result<(), AllocError>
    ensures { OnOk result (text.new.items ≡ text.old.items ++ word_reason misfit line.now) }
{
    let form = form_in_line(line);
    push_form_head(form, text)?;
    push_misfit(misfit, form, placed_word(line, misfit.word).text, text)
}

/// Appends the reason why a line isn't allowed at its place.
pub(crate) fn push_line_reason(
    why: BadLine,
    line: &[u8],
    text: &mut Vec<u8>,
) -> Result<(), AllocError>
    ensures { OnOk result (text.new.items ≡ text.old.items ++ line_reason why line.now) }
{
    match why {
        BadLine::Word(misfit) => push_word_reason(misfit, line, text),
        BadLine::NoOperator => {
            text.extend_from_slice(b"a line that begins with % must be `%operator NAME`")
        }
        BadLine::BatchOpen => {
            text.extend_from_slice(b"a batch is already open: end it with `commit`")
        }
        BadLine::NoBatch => text.extend_from_slice(b"no batch is open: start one with `begin`"),
        BadLine::BatchFull => text.extend_from_slice(b"a batch has at most 65536 edits"),
    }
}

fn index_in_line(index: usize, line: &[u8]) -> Option<usize>
    ensures { result ≡ index_in_line index line.now }
{
    if placed_word(line, index).text.is_empty() {
        None
    } else {
        Some(index)
    }
}

/// Returns the index of the word that doesn't fit, from 0. Returns `None` if the line is too short
/// to have this word, or if the reason isn't about a word.
pub(crate) fn misfit_index(why: BadLine, line: &[u8]) -> Option<usize>
    ensures { result ≡ misfit_index why line.now }
{
    match why {
        BadLine::Word(misfit) => index_in_line(misfit.word, line),
        _ => None,
    }
}
