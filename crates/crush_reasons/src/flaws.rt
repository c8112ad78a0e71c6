//! Says what is wrong at a fault of a map's text, and what is expected there.

ghost use Rattle.std.specs.Prelude.{◌≡◌, ◌++◌, ◌<◌, ◌^◌, OnOk, [], ◌∷◌, codes, drop, length, nat_eq};
ghost use Rattle.std.specs.List.{list_all, starts_with};
ghost use Rattle.crush_units.specs.Words.{is_blank, words};
ghost use Rattle.crush_reasons.specs.Flaws.{bad_weight, bad_word, begins_at, begins_line, begins_word, below_at, can_be_class, defined_below, expected_text, expected_words, first_of, flaw_place, flaw_reason, inside, is_command, item_words, left_out, line_of, missing, most_statements, no_word, not_begun, not_closed, open_text, same_id, same_name, statement_words, step_words, too_early, too_many, two_of, type_hint, unclosed, unexpected, unknown_type, weight_range, word_at, word_sentence};
ghost use Rattle.crush_reasons.specs.Place.{origin_data};
ghost use Rattle.crush_reasons.specs.Shown.{told};

use crate::around::{Around, around_at, defined_at};
use crate::place::{Origin, behind_feed, last_line};
use crate::ranges::push_range;
use crate::shown::push_told;
use crate::words::{from_place, next_placed, push_all, push_bytes, up_to};
use crush_script::Form;
use crush_text::{Expected, Optional, TextFault, TextFaultKind};
use crush_units::{Reader, is_name_byte};
use itoa::Buffer;
use std::alloc::AllocError;

const NEGATIVE: &str =
    "crushtool -d prints a bucket's weight of 32768 and more as a negative number: write 0, and the sum of the bucket's items takes its place";

const NO_OPERATOR: &str = "this looks like a command: commands go below a line `%operator NAME`";

const TREE: &str =
    "this looks like the output of `ceph osd tree`: a text map is the output of `crushtool -d`";

fn word_at(bytes: &[u8], place: usize) -> &[u8]
    ensures { result.now ≡ word_at bytes.now place }
{
    let mut reader = Reader::new(from_place(place, bytes));
    match next_placed(&mut reader) {
        Some(word) => word.text,
        None => b"",
    }
}

fn push_two(bytes: &[u8], place: usize, text: &mut Vec<u8>) -> Result<(), AllocError>
    ensures { OnOk result (text.new.items
        ≡ text.old.items ++ two_of (words 0 (drop place bytes.now)).words) }
{
    let mut reader = Reader::new(from_place(place, bytes));
    let Some(first) = next_placed(&mut reader) else {
        return Ok(());
    };
    text.extend_from_slice(first.text)?;
    let Some(second) = next_placed(&mut reader) else {
        return Ok(());
    };
    push_all(&[b" ".as_slice(), second.text], text)
}

/// Returns the number of the line that has this place. Lines count from 1 in the file of `origin`.
fn line_of(origin: Origin<'_>, bytes: &[u8], place: usize) -> usize
    requires { length bytes.now < 2 ^ 32 }
    ensures { result ≡ line_of (origin_data origin.entry) bytes.now place }
{
    origin.own_line(last_line(up_to(place, bytes)))
}

#[tactic(auto, unfolding(crate::specs::Flaws::begins_at))]
fn push_begins_at(line: usize, text: &mut Vec<u8>) -> Result<(), AllocError>
    ensures { OnOk result (text.new.items ≡ text.old.items ++ begins_at line) }
{
    let mut buffer = Buffer::new();
    push_all(
        &[
            b", which begins at line ".as_slice(),
            buffer.format(line).as_bytes(),
        ],
        text,
    )
}

fn push_open(
    origin: Origin<'_>,
    bytes: &[u8],
    head: usize,
    text: &mut Vec<u8>,
) -> Result<(), AllocError>
    requires { length bytes.now < 2 ^ 32 }
    ensures { OnOk result (text.new.items
        ≡ text.old.items ++ open_text (origin_data origin.entry) bytes.now head) }
{
    let line = line_of(origin, bytes, head);
    push_two(bytes, head, text)?;
    push_begins_at(line, text)
}

fn statement_words(late: bool, or: Optional) -> &'static str
    ensures { result.now ≡ statement_words late or }
{
    if late {
        return "`rule` or the name of a type; tunables, devices and types must come before the first bucket or rule";
    }
    match or {
        Optional::Class => "`class`, `tunable`, `device`, `type`, `rule` or the name of a type",
        _ => "`tunable`, `device`, `type`, `rule` or the name of a type",
    }
}

fn item_words(or: Optional) -> &'static str
    ensures { result.now ≡ item_words or }
{
    match or {
        Optional::Hash => "`hash`, `item` or `}`",
        Optional::Weight => "`weight`, `item` or `}`",
        _ => "`item` or `}`",
    }
}

fn step_words(or: Optional) -> &'static str
    ensures { result.now ≡ step_words or }
{
    match or {
        Optional::Class => "`class`, `step` or `}`",
        Optional::MaxSize => "`max_size`, `step` or `}`",
        Optional::Sizes => "`min_size`, `max_size`, `step` or `}`",
        _ => "`step` or `}`",
    }
}

/// Returns a phrase that names the words or the kind of word that may be at the place of the fault.
/// Returns an empty phrase in two cases: if memory ran out, or if only one keyword may be there. In
/// the second case, `push_expected` itself prints the keyword.
fn expected_words(expected: Expected) -> &'static str
    ensures { result.now ≡ expected_words expected }
{
    match expected {
        Expected::Statement { late, or } => statement_words(late, or),
        Expected::Keyword(_) => "",
        Expected::Number { .. } => "a number",
        Expected::TunableName => "a name",
        Expected::TypeNumber => "a number",
        Expected::TypeName => {
            "a name other than tunable, device, type, rule, class and choose_args"
        }
        Expected::DeviceId => "a number",
        Expected::NewName => "a name",
        Expected::BucketId => "a negative id, such as -2",
        Expected::Class => "a device class",
        Expected::IdClass => "a device class",
        Expected::IdOrAlg => "`id` or `alg`",
        Expected::Algorithm => "`straw2`, `straw` or `list`",
        Expected::Weight { .. } => "a weight, such as 1.5",
        Expected::ItemName => "the name of a device or a bucket",
        Expected::ItemOrEnd { or } => item_words(or),
        Expected::RuleName => "a name",
        Expected::IdOrRuleset => "`id` or `ruleset`",
        Expected::RuleId => "a number",
        Expected::RuleType => "a rule type, such as replicated",
        Expected::StepOrEnd { or } => step_words(or),
        Expected::StepWord => "`take`, `choose`, `chooseleaf`, `emit` or `set_..`",
        Expected::TakenBucket => "the name of a bucket",
        Expected::FirstnOrIndep => "`firstn` or `indep`",
        Expected::Count => "a number",
        Expected::StepType => "the name of a type",
        Expected::Memory => "",
    }
}

fn push_expected(expected: Expected, text: &mut Vec<u8>) -> Result<(), AllocError>
    ensures { OnOk result (text.new.items ≡ text.old.items ++ expected_text expected) }
{
    match expected {
        Expected::Keyword(keyword) => push_told(keyword.text().as_bytes(), text),
        _ => push_bytes(expected_words(expected).as_bytes(), text),
    }
}

fn same_id(expected: Expected) -> &'static str
    ensures { result.now ≡ same_id expected }
{
    match expected {
        Expected::TypeNumber => "another type has this number",
        Expected::DeviceId => "another device has this id",
        Expected::RuleId => "another rule has this id",
        _ => "another `id` line has this id",
    }
}

fn same_name(expected: Expected) -> &'static str
    ensures { result.now ≡ same_name expected }
{
    match expected {
        Expected::TunableName => "this tunable is set above",
        Expected::TypeName => "another type has this name",
        Expected::IdClass => "another `id` line of this bucket has this class",
        Expected::RuleName => "another rule has this name",
        _ => "another device or bucket has this name",
    }
}

fn weight_range(expected: Expected) -> &'static str
    ensures { result.now ≡ weight_range expected }
{
    match expected {
        Expected::Weight { device: true } => "expected a weight from 0 to 32767.99998",
        _ => "expected a weight from 0 to 65535.99998",
    }
}

fn bad_weight(word: &[u8], expected: Expected) -> &'static str
    ensures { result.now ≡ bad_weight word.now expected }
{
    match word {
        [b'-', ..] => NEGATIVE,
        _ => weight_range(expected),
    }
}

fn left_out(expected: Expected) -> &'static str
    ensures { result.now ≡ left_out expected }
{
    match expected {
        Expected::StepWord => "maps with MSR rules (choosemsr) can't be edited here",
        Expected::ItemOrEnd { .. } => {
            "`pos` isn't supported: if the items are already in the order of these numbers, remove each `pos` and its number"
        }
        _ => "maps with weight sets (choose_args) can't be edited here; removing them moves data",
    }
}

#[tactic(auto, unfolding(crate::specs::Flaws::most_statements))]
fn most_statements(word: &[u8]) -> &'static str
    ensures { result.now ≡ most_statements word.now }
{
    if word == b"tunable".as_slice() {
        "a map has at most 64 tunables"
    } else if word == b"device".as_slice() {
        "a map has at most 65536 devices"
    } else if word == b"type".as_slice() {
        "a map has at most 256 types"
    } else if word == b"rule".as_slice() {
        "a map has at most 256 rules"
    } else {
        "a map has at most 4096 buckets"
    }
}

fn too_many(word: &[u8], expected: Expected) -> &'static str
    ensures { result.now ≡ too_many word.now expected }
{
    match expected {
        Expected::IdOrAlg => "a bucket has at most 16 class ids",
        Expected::StepOrEnd { .. } => "a rule has at most 64 steps",
        _ => most_statements(word),
    }
}

fn is_blank(byte: u8) -> bool
    ensures { result ≡ is_blank byte }
{
    byte == b' ' || byte == b'\t' || byte == b'\n' || byte == b'\r'
}

fn all_blank(text: &[u8]) -> bool
    ensures { result ≡ list_all is_blank text.now }
{
    text.iter().all(|byte| is_blank(*byte))
}

fn begins_line(before: &[u8]) -> bool
    requires { length before.now < 2 ^ 32 }
    ensures { result ≡ begins_line before.now }
{
    let (_, line) = before.split_at(before.len() - behind_feed(before));
    all_blank(line)
}

fn is_command(bytes: &[u8], place: usize) -> bool
    requires { length bytes.now < 2 ^ 32 }
    ensures { result ≡ is_command bytes.now place }
{
    begins_line(up_to(place, bytes)) && Form::read(word_at(bytes, place)).is_some()
}

/// Whether the text declares a device without a class just before the fault, so that the word
/// `class` may follow.
fn can_be_class(expected: Expected) -> bool
    ensures { result ≡ can_be_class expected }
{
    matches!(
        expected,
        Expected::Statement {
            or: Optional::Class,
            ..
        }
    )
}

fn type_hint(bytes: &[u8], place: usize, expected: Expected) -> &'static str
    requires { length bytes.now < 2 ^ 32 }
    ensures { result.now ≡ type_hint bytes.now place expected }
{
    if can_be_class(expected) && !begins_line(up_to(place, bytes)) {
        "; did you mean `class`?"
    } else {
        ""
    }
}

fn push_no_type(word: &[u8], hint: &str, text: &mut Vec<u8>) -> Result<(), AllocError>
    ensures { OnOk result (text.new.items ≡ text.old.items
        ++ (codes "no type named " ++ told word.now ++ codes " is declared above" ++ hint.now)) }
{
    text.extend_from_slice(b"no type named ")?;
    push_told(word, text)?;
    text.extend_from_slice(b" is declared above")?;
    push_bytes(hint.as_bytes(), text)
}

fn push_unknown_type(
    bytes: &[u8],
    place: usize,
    expected: Expected,
    text: &mut Vec<u8>,
) -> Result<(), AllocError>
    requires { length bytes.now < 2 ^ 32 }
    ensures { OnOk result (text.new.items
        ≡ text.old.items ++ unknown_type bytes.now place expected) }
{
    if is_command(bytes, place) {
        return text.extend_from_slice(NO_OPERATOR.as_bytes());
    }
    let word = word_at(bytes, place);
    if word == b"ID".as_slice() {
        return text.extend_from_slice(TREE.as_bytes());
    }
    push_no_type(word, type_hint(bytes, place, expected), text)
}

#[tactic(auto, unfolding(crate::specs::Flaws::below_at))]
fn push_below_at(line: usize, text: &mut Vec<u8>) -> Result<(), AllocError>
    ensures { OnOk result (text.new.items ≡ text.old.items ++ below_at line) }
{
    let mut buffer = Buffer::new();
    push_all(
        &[
            b" is defined below, at line ".as_slice(),
            buffer.format(line).as_bytes(),
            b": move that bucket up".as_slice(),
        ],
        text,
    )
}

fn push_defined_below(
    origin: Origin<'_>,
    bytes: &[u8],
    name: &[u8],
    at: usize,
    text: &mut Vec<u8>,
) -> Result<(), AllocError>
    requires { length bytes.now < 2 ^ 32 }
    ensures { OnOk result (text.new.items
        ≡ text.old.items ++ defined_below (origin_data origin.entry) bytes.now name.now at) }
{
    let line = line_of(origin, bytes, at);
    push_told(name, text)?;
    push_below_at(line, text)
}

/// If the word at the place is the name of a bucket that is defined further below in the text,
/// appends a sentence with the line of this definition. Otherwise appends `sentence`.
fn push_missing(
    origin: Origin<'_>,
    bytes: &[u8],
    place: usize,
    sentence: &str,
    text: &mut Vec<u8>,
) -> Result<(), AllocError>
    requires { length bytes.now < 2 ^ 32 }
    ensures { OnOk result (text.new.items
        ≡ text.old.items ++ missing (origin_data origin.entry) bytes.now place sentence.now) }
{
    let name = word_at(bytes, place);
    let at = defined_at(bytes, name);
    if place < at {
        push_defined_below(origin, bytes, name, at, text)
    } else {
        push_bytes(sentence.as_bytes(), text)
    }
}

fn has_mark(bytes: &[u8]) -> bool
    ensures { result ≡ starts_with nat_eq bytes.now (239 ∷ 187 ∷ 191 ∷ []) }
{
    matches!(bytes, [0xEF, 0xBB, 0xBF, ..])
}

fn is_zipped(bytes: &[u8]) -> bool
    ensures { result ≡ starts_with nat_eq bytes.now (31 ∷ 139 ∷ []) }
{
    matches!(bytes, [0x1F, 0x8B, ..])
}

/// Returns the sentence for a text that has its fault at the first byte. The text may begin with a
/// byte order mark, or may be compressed with `gzip`. Otherwise, it isn't the text of a map.
fn not_begun(bytes: &[u8]) -> &'static str
    ensures { result.now ≡ not_begun bytes.now }
{
    if has_mark(bytes) {
        "the text begins with a byte order mark: save it without one"
    } else if is_zipped(bytes) {
        "this file is compressed with gzip: unpack it first"
    } else {
        "this is not a text map: use `crushtool -d` to make one"
    }
}

fn begins_word(bytes: &[u8]) -> bool
    ensures { result ≡ begins_word bytes.now }
{
    match bytes {
        [] => false,
        [byte, ..] => is_name_byte(*byte),
    }
}

fn push_bad_word(
    bytes: &[u8],
    place: usize,
    expected: Expected,
    text: &mut Vec<u8>,
) -> Result<(), AllocError>
    ensures { OnOk result (text.new.items ≡ text.old.items ++ bad_word bytes.now place expected) }
{
    if place == 0 {
        return text.extend_from_slice(not_begun(bytes).as_bytes());
    }
    if begins_word(from_place(place, bytes)) {
        return text.extend_from_slice(b"a word has at most 255 characters");
    }
    text.extend_from_slice(
        b"this character can't be in a word: letters, digits, `-`, `_` and `.` only; expected ",
    )?;
    push_expected(expected, text)
}

fn push_inside(
    origin: Origin<'_>,
    bytes: &[u8],
    around: Around,
    text: &mut Vec<u8>,
) -> Result<(), AllocError>
    requires { length bytes.now < 2 ^ 32 }
    ensures { OnOk result (text.new.items
        ≡ text.old.items ++ inside (origin_data origin.entry) bytes.now around) }
{
    if !around.is_open {
        return Ok(());
    }
    text.extend_from_slice(b" (in ")?;
    push_open(origin, bytes, around.head, text)?;
    text.extend_from_slice(b")")
}

fn push_unexpected(
    origin: Origin<'_>,
    bytes: &[u8],
    expected: Expected,
    around: Around,
    text: &mut Vec<u8>,
) -> Result<(), AllocError>
    requires { length bytes.now < 2 ^ 32 }
    ensures { OnOk result (text.new.items
        ≡ text.old.items ++ unexpected (origin_data origin.entry) bytes.now expected around) }
{
    text.extend_from_slice(b"unexpected word: expected ")?;
    push_expected(expected, text)?;
    push_inside(origin, bytes, around, text)
}

fn push_no_word(
    origin: Origin<'_>,
    bytes: &[u8],
    place: usize,
    expected: Expected,
    text: &mut Vec<u8>,
) -> Result<(), AllocError>
    requires { length bytes.now < 2 ^ 32 }
    ensures { OnOk result (text.new.items
        ≡ text.old.items ++ no_word (origin_data origin.entry) bytes.now place expected) }
{
    if place == 0 {
        text.extend_from_slice(not_begun(bytes).as_bytes())
    } else {
        push_unexpected(origin, bytes, expected, around_at(bytes, place), text)
    }
}

fn push_too_early(expected: Expected, text: &mut Vec<u8>) -> Result<(), AllocError>
    ensures { OnOk result (text.new.items ≡ text.old.items ++ too_early expected) }
{
    text.extend_from_slice(b"the text ends too early: expected ")?;
    push_expected(expected, text)
}

fn push_not_closed(
    origin: Origin<'_>,
    bytes: &[u8],
    head: usize,
    text: &mut Vec<u8>,
) -> Result<(), AllocError>
    requires { length bytes.now < 2 ^ 32 }
    ensures { OnOk result (text.new.items
        ≡ text.old.items ++ not_closed (origin_data origin.entry) bytes.now head) }
{
    push_open(origin, bytes, head, text)?;
    push_bytes(b", is not closed", text)
}

fn push_unclosed(
    origin: Origin<'_>,
    bytes: &[u8],
    expected: Expected,
    around: Around,
    text: &mut Vec<u8>,
) -> Result<(), AllocError>
    requires { length bytes.now < 2 ^ 32 }
    ensures { OnOk result (text.new.items
        ≡ text.old.items ++ unclosed (origin_data origin.entry) bytes.now expected around) }
{
    if around.is_open {
        push_not_closed(origin, bytes, around.head, text)
    } else {
        push_too_early(expected, text)
    }
}

fn word_sentence(kind: TextFaultKind, word: &[u8], expected: Expected) -> &'static str
    ensures { result.now ≡ word_sentence kind word.now expected }
{
    match kind {
        TextFaultKind::BadWeight => bad_weight(word, expected),
        TextFaultKind::DuplicateId => same_id(expected),
        TextFaultKind::DuplicateName => same_name(expected),
        TextFaultKind::SecondParent => {
            "this item is already in a bucket; an item can be in only one"
        }
        TextFaultKind::OtherAlgorithm => {
            "expected `straw2`, `straw` or `list`; maps with other algorithms can't be edited here, and changing the algorithm moves data"
        }
        TextFaultKind::LeftOut => left_out(expected),
        TextFaultKind::TooMany => too_many(word, expected),
        TextFaultKind::SumTooLarge => {
            "the total weight is too large: at most 65535.99998 for a bucket and 134217727.99998 for all devices"
        }
        _ => "not enough memory for the map",
    }
}

pub(crate) fn push_flaw_reason(
    origin: Origin<'_>,
    bytes: &[u8],
    fault: TextFault,
    text: &mut Vec<u8>,
) -> Result<(), AllocError>
    requires { length bytes.now < 2 ^ 32 }
    ensures { OnOk result (text.new.items ≡ text.old.items
        ++ flaw_reason (origin_data origin.entry) bytes.now fault.kind fault.place fault.expected) }
{
    let place = fault.place;
    let expected = fault.expected;
    match fault.kind {
        TextFaultKind::BadWord => push_bad_word(bytes, place, expected, text),
        TextFaultKind::Ended => {
            push_unclosed(origin, bytes, expected, around_at(bytes, place), text)
        }
        TextFaultKind::Unexpected => push_no_word(origin, bytes, place, expected, text),
        TextFaultKind::BadNumber => push_range(word_at(bytes, place), expected, text),
        TextFaultKind::UnknownType => push_unknown_type(bytes, place, expected, text),
        TextFaultKind::UnknownItem => push_missing(
            origin,
            bytes,
            place,
            "no device or finished bucket above has this name",
            text,
        ),
        TextFaultKind::UnknownBucketInRule => push_missing(
            origin,
            bytes,
            place,
            "no finished bucket above has this name",
            text,
        ),
        kind => push_bytes(
            word_sentence(kind, word_at(bytes, place), expected).as_bytes(),
            text,
        ),
    }
}

/// Returns the place that messages show for a fault. If the text ends too early, this is the place
/// of the text's last word. Otherwise it is the place of the fault itself.
pub(crate) fn flaw_place(bytes: &[u8], fault: TextFault) -> usize
    ensures { result ≡ flaw_place bytes.now fault.kind fault.place }
{
    match fault.kind {
        TextFaultKind::Ended => around_at(bytes, fault.place).last,
        _ => fault.place,
    }
}
