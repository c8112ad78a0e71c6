//! Reads the items of a bucket.

ghost use Rattle.std.specs.Prelude.{◌≡◌, true, false, IfOk, IfSome, Some};
ghost use Rattle.crush_builder.specs.Built.{Draft};
ghost use Rattle.crush_builder.specs.Building.{IsDraft, is_filling, item_named};
ghost use Rattle.crush_builder.specs.Faults.{is_closed, is_heavy_device};
ghost use Rattle.crush_text.specs.declared.expected.Expected.TheVariants.{ItemName};
ghost use Rattle.crush_text.specs.declared.expected.Optional.TheVariants.{Nothing};
ghost use Rattle.crush_text.specs.Expected.{expected};
ghost use Rattle.crush_text.specs.Role.{item_or_end, item, weight};
ghost use Rattle.crush_text.specs.Form.{second, filling, at, passing};
ghost use Rattle.crush_text.specs.Grammar.{item_line, item_weight_line, line_forms};
ghost use Rattle.crush_text.specs.Flow.{between, placed};
ghost use Rattle.crush_text.specs.Tests.{word_for};
ghost use Rattle.crush_text.specs.Room.{IsFreeItem};
ghost use Rattle.crush_text.specs.Reads.{parsed_weight};
ghost use Rattle.crush_text.specs.ReadsWords.{ReadsValue, AnyDraft};
ghost use Rattle.crush_text.specs.ReadsLines.{IsAmid, behind_item, ReadsLine, ReadsOn, CanTake, PutsItem};

use crate::expected::{Expected, Optional};
use crate::fault::{TextFault, TextFaultKind};
use crate::reader::MapReader;
use crate::reader::word::{PlacedWord, next_word, out_of_memory_at};
use crush_builder::{BuildFault, MapBuilder};
use crush_units::{ItemId, Reader, Weight};
use std::alloc::Allocator;

impl<'a, A: Allocator + Clone> MapReader<'a, A> {
    /// Reads the items of a bucket, and then the bucket's closing brace. `or` is the optional part
    /// that could still follow before the first item.
    pub(crate) fn items(&mut self, or: Optional) -> Result<(), TextFault>
        requires { IsAmid is_filling self.old.builder }
        ensures { ReadsOn (λ d. between (passing or (at (filling false) d))) (λ _. (second, Nothing))
            self.old self.new result }
    {
        let mut any = false;
        let mut left = or;
        'items: while let Some(next) = self.item_or_end(any, left)? {
            any = true;
            left = next;
        }
        Ok(())
    }

    /// Reads an item, and returns the optional part that could still follow: `Optional::Weight` if
    /// the item has no weight, and otherwise `Optional::Nothing`. If the next word is the closing
    /// brace, reads this brace instead and returns `None`. `any` says whether the bucket has an
    /// item before this place. `or` is the optional part that could still follow at this place.
    #[tactic(auto, unfolding(crate::specs::Reads::line_at))]
    fn item_or_end(&mut self, any: bool, or: Optional) -> Result<Option<Optional>, TextFault>
        requires { IsAmid is_filling self.old.builder }
        ensures { ReadsLine (λ d. line_forms d or (filling any)) behind_item
            self.old self.new result }
    {
        let more = read_item_or_end(&mut self.text, any, or)?;
        if !more {
            self.builder.end();
            return Ok(None);
        }
        let left = self.item()?;
        Ok(Some(left))
    }

    /// Reads `NAME [weight WEIGHT]`. The word `item` was read before. Returns the optional part
    /// that could still follow: `Optional::Weight` if the item has no weight, and otherwise
    /// `Optional::Nothing`. If the weight of a bucket or of the whole map becomes too large, the
    /// fault is at the item's weight, or at the item's name if the item has no weight.
    fn item(&mut self) -> Result<Optional, TextFault>
        requires { IsAmid is_filling self.old.builder }
        ensures { ReadsLine item_line (λ k. (filling true, k)) self.old self.new result }
    {
        let name = next_word(&mut self.text, Expected::ItemName)?;
        let item = free_item(name, &self.builder)?;
        if self.text.take_key(b"weight") {
            self.weight(item)?;
            return Ok(Optional::Nothing);
        }
        add_item(name, item, (None, Expected::ItemName), &mut self.builder)?;
        Ok(Optional::Weight)
    }

    /// Reads the item's weight, and adds the item to the bucket.
    fn weight(&mut self, item: ItemId) -> Result<(), TextFault>
        requires { CanTake item self.old.builder }
        ensures { ReadsLine (λ d. item_weight_line d item) (λ _. (filling true, Nothing))
            self.old self.new result }
    {
        let expected = weight_of(&item);
        let word = next_word(&mut self.text, expected)?;
        let weight = parsed_weight(word, &item)?;
        add_item(word, item, (Some(weight), expected), &mut self.builder)
    }
}

/// Returns what the grammar expects at the place of the weight of this item.
fn weight_of(item: &ItemId) -> Expected
    ensures { result ≡ expected (weight item.now) }
{
    Expected::Weight {
        device: matches!(item, ItemId::Device(_)),
    }
}

/// Adds the item to the bucket that is being read. The first part of `weight` is the item's weight,
/// or `None` if the text gives no weight. The second part is what the grammar expects at `word`,
/// which is the last word of the item. If the weight of a bucket or of the whole map becomes too
/// large, or if memory runs out, the fault is at `word`.
fn add_item<A: Allocator>(
    word: PlacedWord<'_>,
    item: ItemId,
    weight: (Option<Weight>, Expected),
    builder: &mut MapBuilder<A>,
) -> Result<(), TextFault>
    requires can { CanTake item builder.old }
    requires light { is_heavy_device item weight.0 ≡ false }
    ensures { PutsItem item weight.0 word.entry.place weight.1 builder.old builder.new result }
{
    let (weight, expected) = weight;
    match builder.item_unchecked(item, weight) {
        Ok(()) => Ok(()),
        Err(BuildFault::SumTooLarge) => { Err(word.fault(TextFaultKind::SumTooLarge, expected)) },
        Err(fault) => Err(out_of_memory_at(word.place, fault)),
    }
}

/// Returns the weight that the word spells for this item. Fails if the word is a brace or isn't a
/// weight, or if the item is a device and the weight is above 2147483647 units.
fn parsed_weight(word: PlacedWord<'_>, item: &ItemId) -> Result<Weight, TextFault>
    ensures weighs { (d : Draft)
        → result ≡ placed word.entry.place (expected (weight item.now)) (parsed_weight d item.now word.entry.text.now) }
    ensures light { IfOk result (λ w. is_heavy_device item.now (Some w) ≡ false) }
{
    let expected = weight_of(item);
    if word.is_brace() {
        return Err(word.fault(TextFaultKind::Unexpected, expected));
    }
    let Ok(weight) = Weight::read_bytes(word.text) else {
        return Err(word.fault(TextFaultKind::BadWeight, expected));
    };
    if matches!(item, ItemId::Device(_)) && !weight.is_device_weight() {
        return Err(word.fault(TextFaultKind::BadWeight, expected));
    }
    Ok(weight)
}

/// Reads `item` or `}`, and returns true for `item`. Rejects `pos` after an item, because positions
/// aren't supported. `any` says whether the bucket has an item before this place. `or` is the
/// optional part that could still follow at this place.
#[tactic(auto, unfolding(crate::specs::Reads::word_at))]
fn read_item_or_end(reader: &mut Reader<'_>, any: bool, or: Optional) -> Result<bool, TextFault>
    ensures { ReadsValue (item_or_end any or) (λ more. more) AnyDraft
        reader.old reader.new result }
{
    let expected = Expected::ItemOrEnd { or };
    let word = next_word(reader, expected)?;
    if word.is(b"item") {
        Ok(true)
    } else if word.is(b"}") {
        Ok(false)
    } else if any && word.is(b"pos") {
        Err(word.fault(TextFaultKind::LeftOut, expected))
    } else {
        Err(word.fault(TextFaultKind::Unexpected, expected))
    }
}

/// Returns the item with this name: a device, or a bucket whose closing brace was read before.
/// Fails if there is no such item, or if a bucket already holds the item.
fn free_item<A: Allocator>(
    word: PlacedWord<'_>,
    builder: &MapBuilder<A>,
) -> Result<ItemId, TextFault>
    ensures gives { (d : Draft) → IsDraft builder.now d
        → result ≡ placed word.entry.place ItemName (word_for d item word.entry.text.now) }
    ensures free { IfOk result (λ i. (d : Draft) → IsDraft builder.now d → IsFreeItem d i) }
{
    if word.is_brace() {
        return Err(word.fault(TextFaultKind::Unexpected, Expected::ItemName));
    }
    match item_named(builder, word.text) {
        None => Err(word.fault(TextFaultKind::UnknownItem, Expected::ItemName)),
        Some(id) if builder.is_placed(id) => {
            Err(word.fault(TextFaultKind::SecondParent, Expected::ItemName))
        },
        Some(id) => Ok(id),
    }
}

/// Returns the device with this name, or the bucket with this name whose closing brace was read
/// before. Returns `None` if there is no such item.
fn item_named<A: Allocator>(builder: &MapBuilder<A>, name: &[u8]) -> Option<ItemId>
    ensures value { (d : Draft) → IsDraft builder.now d → result ≡ item_named d name.now }
    ensures closed { IfSome result (λ i. (d : Draft) → IsDraft builder.now d
        → is_closed d i ≡ true) }
{
    match builder.item_named(name) {
        Ok(id) => Some(id),
        Err(_) => None,
    }
}
