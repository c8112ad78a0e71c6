//! Lists the buckets whose weight in a map's text isn't the sum of the weights of all devices below
//! them.

ghost use Rattle.std.specs.Prelude.{◌≡◌, ◌<◌, ◌==◌, ◌∷◌, ◌++◌, List, [], IfOk, IsTrue, MatchOption, OnOk, bytes_eq, if◌then◌else◌, length};
ghost use Rattle.std.specs.List.{list_any};
ghost use Rattle.crush_units.specs.Weight.{weight_of_text};
ghost use Rattle.crush_model.specs.Stands.{Stands};
ghost use Rattle.crush_model.specs.Table.{Row, id_named};
ghost use Rattle.crush_reasons.specs.Sums.{IsSummed};
ghost use Rattle.crush_reasons.specs.Written.{IsNextWord, bucket_sum, first_line, is_inside, item_line, line_of_sum, line_of_weight, lines_left, sum_told, unequal_line, has_returns_alone, returns_text, weights_text, written_text};

use crate::sums::SummedMap;
use crate::words::push_all;
use crush_map::CrushMap;
use crush_script::line_feeds;
use crush_units::{ItemId, Reader, Token, Weight};
use std::alloc::{AllocError, Global};

fn is(word: &[u8], key: &[u8]) -> bool
    ensures { result ≡ bytes_eq word.now key.now }
{
    word == key
}

/// Whether the text after a word is between braces. `inside` says whether the word itself is
/// between braces.
fn is_inside(inside: bool, word: &[u8]) -> bool
    ensures { result ≡ is_inside inside word.now }
{
    if is(word, b"{") {
        true
    } else if is(word, b"}") {
        false
    } else {
        inside
    }
}

fn sum_named(summed: &SummedMap<'_>, name: &str) -> Option<Weight>
    ensures { (t : List Row) → IsSummed summed.now t
        → result ≡ bucket_sum t (id_named t name.now) }
{
    let id = summed.map.locate(name)?;
    match id {
        ItemId::Bucket(bucket) => summed.sum_of(bucket),
        ItemId::Device(_) => None,
    }
}

fn bucket_sum(summed: &SummedMap<'_>, name: &[u8]) -> Option<Weight>
    ensures { (t : List Row) → IsSummed summed.now t
        → result ≡ bucket_sum t (id_named t name.now) }
{
    let Ok(name) = str::from_utf8(name) else {
        return None;
    };
    sum_named(summed, name)
}

fn push_sum(sum: Weight, text: &mut Vec<u8>) -> Result<(), AllocError>
    ensures { OnOk result (text.new.items ≡ text.old.items ++ sum_told sum) }
{
    let mut room = [0; 16];
    let len = sum.text(&mut room);
    push_all(
        &[
            b" was written, the sum is ".as_slice(),
            &room[..len],
            b"\n".as_slice(),
        ],
        text,
    )
}

fn push_unequal(
    name: &[u8],
    written: &[u8],
    sum: Weight,
    text: &mut Vec<u8>,
) -> Result<(), AllocError>
    ensures { OnOk result (text.new.items
        ≡ text.old.items ++ unequal_line name.now written.now sum) }
{
    push_all(&[name, b": ".as_slice(), written], text)?;
    push_sum(sum, text)
}

fn push_weighed(
    name: &[u8],
    written: &[u8],
    sum: Weight,
    text: &mut Vec<u8>,
) -> Result<(), AllocError>
    ensures { OnOk result (text.new.items ≡ text.old.items
        ++ line_of_weight name.now written.now sum (weight_of_text written.now)) }
{
    let Ok(weight) = Weight::read_bytes(written) else {
        return Ok(());
    };
    if weight.units() == sum.units() {
        return Ok(());
    }
    push_unequal(name, written, sum, text)
}

fn push_item(
    summed: &SummedMap<'_>,
    name: &[u8],
    written: &[u8],
    text: &mut Vec<u8>,
) -> Result<(), AllocError>
    ensures { OnOk result ((t : List Row) → IsSummed summed.now t → text.new.items
        ≡ text.old.items ++ line_of_sum name.now written.now (bucket_sum t (id_named t name.now))) }
{
    match bucket_sum(summed, name) {
        None => Ok(()),
        Some(sum) => push_weighed(name, written, sum, text),
    }
}

fn push_item_line(
    summed: &SummedMap<'_>,
    name: &[u8],
    key: &[u8],
    weight: &[u8],
    text: &mut Vec<u8>,
) -> Result<(), AllocError>
    ensures { OnOk result ((t : List Row) → IsSummed summed.now t → text.new.items
        ≡ text.old.items ++ item_line t (name.now ∷ key.now ∷ weight.now ∷ [])) }
{
    if !is(key, b"weight") {
        return Ok(());
    }
    push_item(summed, name, weight, text)
}

fn next_word<'a>(reader: &mut Reader<'a>) -> Option<&'a [u8]>
    ensures next { MatchOption result (reader.old.words ≡ [])
        (λ word. IsNextWord word.now reader.old.words reader.new.words) }
{
    match reader.next() {
        Token::Word { text, .. } => Some(text),
        _ => None,
    }
}

/// A position in a text. `item`, `name` and `key` are three consecutive words, `inside` says
/// whether the first of these words is between braces, and `reader` reads the words that follow
/// them. At the beginning of the text, the three words are empty.
#[derive(Drop)]
struct Scan<'a> {
    inside: bool,
    item: &'a [u8],
    name: &'a [u8],
    key: &'a [u8],
    reader: Reader<'a>,
}

impl<'a> Scan<'a> {
    #[tactic(auto, using(crate::proofs::Scanning::empty_first))]
    fn new(bytes: &'a [u8]) -> Scan<'a>
        ensures { (t : List Row) → lines_left t result ≡ weights_text t bytes.now }
    {
        Scan {
            inside: false,
            item: b"",
            name: b"",
            key: b"",
            reader: Reader::new(bytes),
        }
    }

    /// If the three words and `weight`, the word after them, are `item NAME weight W` between
    /// braces, compares W with the sum of the bucket NAME. If the two weights differ, appends the
    /// line for the bucket. Appends nothing if NAME isn't a bucket, or if W isn't a weight.
    fn push_first(
        &self,
        summed: &SummedMap<'_>,
        weight: &[u8],
        text: &mut Vec<u8>,
    ) -> Result<(), AllocError>
        ensures { OnOk result ((t : List Row) → IsSummed summed.now t → text.new.items
            ≡ text.old.items ++ first_line t self.now weight.now) }
    {
        if self.inside && is(self.item, b"item") {
            push_item_line(summed, self.name, self.key, weight, text)
        } else {
            Ok(())
        }
    }

    /// Moves on by one word. If an `item NAME weight W` between braces began at the old position,
    /// and W isn't the sum of the bucket NAME, appends the line for the bucket. Returns `false` if
    /// no word follows the three words.
    fn push_next(&mut self, summed: &SummedMap<'_>, text: &mut Vec<u8>) -> Result<bool, AllocError>
        ensures goes { IfOk result (λ more. (t : List Row) → IsSummed summed.now t
            → text.new.items ++ (if more then lines_left t self.new else [])
            ≡ text.old.items ++ lines_left t self.old) }
        ensures shorter { IfOk result (λ more. IsTrue more
            → length self.new.reader.words < length self.old.reader.words) }
    {
        let Some(word) = next_word(&mut self.reader) else {
            return Ok(false);
        };
        self.push_first(summed, word, text)?;
        self.inside = is_inside(self.inside, self.item);
        self.item = self.name;
        self.name = self.key;
        self.key = word;
        Ok(true)
    }

    fn push_left(&mut self, summed: &SummedMap<'_>, text: &mut Vec<u8>) -> Result<(), AllocError>
        ensures { OnOk result ((t : List Row) → IsSummed summed.now t
            → text.new.items ≡ text.old.items ++ lines_left t self.old) }
    {
        'words: while self.push_next(summed, text)? {}
        Ok(())
    }
}

fn has_return(bytes: &[u8]) -> bool
    ensures { result ≡ list_any (λ b. b == 13) bytes.now }
{
    bytes.iter().any(|byte| *byte == b'\r')
}

fn has_returns_alone(bytes: &[u8]) -> bool
    ensures { result ≡ has_returns_alone bytes.now }
{
    line_feeds(bytes) == 0 && has_return(bytes)
}

fn push_returns(bytes: &[u8], text: &mut Vec<u8>) -> Result<(), AllocError>
    ensures { OnOk result (text.new.items ≡ text.old.items ++ returns_text bytes.now) }
{
    if !has_returns_alone(bytes) {
        return Ok(());
    }
    text.extend_from_slice(
        b"the text has carriage returns but no line feeds, so its first comment never ends\n",
    )
}

/// Returns a line for each bucket whose weight in a map's text isn't the sum of the weights of all
/// devices below the bucket.
///
/// The line is `NAME: W was written, the sum is SUM`. There is a line for each `item NAME weight W`
/// between braces in which NAME is a bucket of the map, and W is a weight that isn't the bucket's
/// sum. The lines are in the order of the text. W is printed as in the text, and SUM has five
/// decimals. If the text has carriage returns and no line feed, the first line of the result says
/// so.
///
/// `bytes` are the text of a map without scripts, and `map` is the map that was read from this
/// text. The function fails only if memory runs out.
pub fn written_text(
    alloc: Global,
    map: &CrushMap<Global>,
    bytes: &[u8],
) -> Result<Vec<u8>, AllocError>
    ensures { IfOk result (λ text. (t : List Row) → Stands map.now.forest t
        → text.items ≡ written_text t bytes.now) }
{
    let mut text = Vec::new(alloc);
    push_returns(bytes, &mut text)?;
    let summed = SummedMap::new(alloc, map)?;
    let mut scan = Scan::new(bytes);
    scan.push_left(&summed, &mut text)?;
    Ok(text)
}
