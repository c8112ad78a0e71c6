//! Writes the values of an item as text. The functions fail only if memory runs out.

ghost use Rattle.std.specs.Prelude.{◌≡◌, ◌++◌, List, OnOk, codes, flat_map};
ghost use Rattle.std.specs.Option.{option_map};
ghost use Rattle.crush_units.specs.Weight.{weight_text};
ghost use Rattle.crush_model.specs.Stands.{Stands};
ghost use Rattle.crush_model.specs.Table.{Row};
ghost use Rattle.crush_items.specs.SeenItem.{seen_data};
ghost use Rattle.crush_conflicts.specs.Lines.{holder_name, item_values, joined, place_word, value_if, values};

use crate::aspects::Aspects;
use crate::items::KnownItems;
use crush_items::Seen;
use crush_map::Setting;
use crush_print::words::push_all;
use crush_since::{class_bytes, place_in, type_bytes};
use crush_units::{BucketId, ItemId, Weight};
use std::alloc::{AllocError, Allocator};

/// The setting and the items of the map before the run. They give the names of types and of
/// buckets.
#[derive(Drop)]
pub(crate) struct Naming<'n, 'a, A: Allocator> {
    pub setting: &'n Setting,
    pub known: &'n KnownItems<'a, A>,
}

impl<'n, 'a, A: Allocator> Naming<'n, 'a, A> {
    /// Appends the values that an item has for the aspects in `told`, each after a comma and a
    /// space. If the item is `None`, the only possible value is `removed`, which is appended if
    /// `told` has the aspect `presence`.
    #[tactic(auto, unfolding(crate::specs::Lines::values))]
    pub(crate) fn push_values(
        &self,
        told: Aspects,
        item: &Option<Seen<'a>>,
        out: &mut Vec<u8>,
    ) -> Result<(), AllocError>
        ensures { (t : List Row) → Stands self.now.known.now t
            → OnOk result (out.new.items ≡ out.old.items
            ++ values self.now.setting.now t told (option_map seen_data item.now)) }
    {
        match item {
            None => push_value(told.presence, &[b"removed".as_slice()], out),
            Some(item) => self.push_item_values(told, item, out),
        }
    }

    fn push_item_values(
        &self,
        told: Aspects,
        item: &Seen<'a>,
        out: &mut Vec<u8>,
    ) -> Result<(), AllocError>
        ensures { (t : List Row) → Stands self.now.known.now t
            → OnOk result (out.new.items ≡ out.old.items
            ++ item_values self.now.setting.now t told (seen_data item.now)) }
    {
        let view = &item.view;
        let kind = type_bytes(self.setting, view.id, view.kind);
        push_value(told.presence, &[b"made".as_slice()], out)?;
        push_value(told.kind, &[b"as ".as_slice(), kind], out)?;
        push_value(told.place, &[b"in ".as_slice(), self.place_of(item)], out)?;
        push_weight(told.weight, view.weight, out)?;
        push_value(
            told.name,
            &[b"called ".as_slice(), view.name.as_bytes()],
            out,
        )?;
        push_value(
            told.class,
            &[b"class ".as_slice(), class_bytes(view.class)],
            out,
        )
    }

    #[tactic(auto, unfolding(crate::specs::Lines::place_word))]
    fn place_of(&self, item: &Seen<'a>) -> &'a [u8]
        ensures { (t : List Row) → Stands self.now.known.now t
            → result.now ≡ place_word t (seen_data item.now) }
    {
        let holder = self.holder_name(item.view.parent, item.holder);
        place_in(item.view.id, item.view.parent, holder)
    }

    /// Returns the name of the bucket that holds an item. If the map before the run has the bucket,
    /// this is the bucket's name in that map. Otherwise it is `holder`.
    fn holder_name(&self, parent: Option<BucketId>, holder: Option<&'a str>) -> Option<&'a str>
        ensures { (t : List Row) → Stands self.now.known.now t
            → option_map (λ n. n.now) result
            ≡ holder_name t parent (option_map (λ n. n.now) holder.entry) }
    {
        match parent {
            None => holder,
            Some(parent) => match self.known.name_of(ItemId::Bucket(parent)) {
                None => holder,
                Some(name) => Some(name),
            },
        }
    }
}

/// Appends a value after a comma and a space if `told` is true. Otherwise appends nothing. The
/// value is the words, one directly after the other.
fn push_value(told: bool, words: &[&[u8]], out: &mut Vec<u8>) -> Result<(), AllocError>
    ensures { OnOk result (out.new.items ≡ out.old.items
        ++ value_if told (flat_map (λ w. w.now) words.now)) }
{
    if !told {
        return Ok(());
    }
    push_all(&[b", ".as_slice()], out)?;
    push_all(words, out)
}

fn push_weight(told: bool, weight: Weight, out: &mut Vec<u8>) -> Result<(), AllocError>
    ensures { OnOk result (out.new.items ≡ out.old.items
        ++ value_if told (codes "weight " ++ weight_text weight)) }
{
    if !told {
        return Ok(());
    }
    push_all(&[b", weight ".as_slice()], out)?;
    crush_print::words::push_weight(weight, out)
}

/// Returns the text without its first two bytes, which are the separator before the first value. If
/// the text has fewer than two bytes, returns an empty text.
pub(crate) fn joined(text: &[u8]) -> &[u8]
    ensures { result.now ≡ joined text.now }
{
    match text {
        [_, _, rest @ ..] => rest,
        _ => &[],
    }
}
