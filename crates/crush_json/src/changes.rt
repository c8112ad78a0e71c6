//! Writes the differences between two maps as JSON values: what each map says about an item.

ghost use Rattle.std.specs.Prelude.{◌≡◌, ◌++◌, OnOk, flat_map, is_some, map as each, option_and_then};
ghost use Rattle.std.specs.List.{slice_get};
ghost use Rattle.std.specs.Option.{option_map};
ghost use Rattle.crush_units.specs.Alg.{alg_text};
ghost use Rattle.crush_units.specs.Id.{item_number};
ghost use Rattle.crush_nodes.specs.Seen.{shadow_data};
ghost use Rattle.crush_items.specs.Items.{item_entry};
ghost use Rattle.crush_items.specs.SeenItem.{seen_data};
ghost use Rattle.crush_compare.specs.Comparison.{pair_entries};
ghost use Rattle.crush_compare.specs.IdPairs.{pair_difference};
ghost use Rattle.crush_compare.specs.declared.difference.Report.TheVariants.{Changes};
ghost use Rattle.crush_json.specs.ChangeDocument.{seen_document};
ghost use Rattle.crush_json.specs.PairDocument.{class_ids_tokens_if, either_id, pair_change, pair_changes, pair_document, pair_id, seen_entry, seen_tokens_if};
ghost use Rattle.crush_json.specs.Tokens.{tokens_of, tokens_of_all};
ghost use Rattle.crush_json.specs.Values.{list};

use crate::class_ids::push_class_ids;
use crate::document::Document;
use crate::tree::type_name;
use crush_compare::{Comparison, Pair, Report};
use crush_items::{Items, Seen};
use crush_map::Setting;
use crush_tree::ShadowId;
use crush_units::{Alg, ItemId};
use std::alloc::{AllocError, Allocator};

/// Writes a list with an object for each pair of `both` for which [`differs`] is true, in the order
/// of the pairs. A pair has the positions of one item in the two maps.
pub(crate) fn push_changes<A: Allocator, B: Allocator>(
    both: &Comparison<'_, A, B>,
    out: &mut Document,
) -> Result<(), AllocError>
    ensures { OnOk result (out.new ≡ out.old ++ tokens_of (list (pair_changes both.now))) }
{
    out.begin_array()?;
    push_each(both, both.pairs.as_slice(), out)?;
    out.end_array()
}

fn push_each<A: Allocator, B: Allocator>(
    both: &Comparison<'_, A, B>,
    pairs: &[Pair],
    out: &mut Document,
) -> Result<(), AllocError>
    ensures { OnOk result (out.new ≡ out.old
        ++ flat_map (λ p. tokens_of_all (pair_change both.now.identity
        both.now.old.map.now.setting both.now.new.map.now.setting (pair_entries both.now p)))
        pairs.now) }
{
    for pair in pairs {
        push_pair(both, *pair, out)?;
    }
    Ok(())
}

fn push_pair<A: Allocator, B: Allocator>(
    both: &Comparison<'_, A, B>,
    pair: Pair,
    out: &mut Document,
) -> Result<(), AllocError>
    ensures { OnOk result (out.new ≡ out.old
        ++ tokens_of_all (pair_change both.now.identity
        both.now.old.map.now.setting both.now.new.map.now.setting (pair_entries both.now pair))) }
{
    if differs(both, pair) {
        push_change(both, pair, out)
    } else {
        Ok(())
    }
}

/// Whether the two maps say different things about the item of this pair. The result is also true
/// if only one of the maps has the item.
fn differs<A: Allocator, B: Allocator>(both: &Comparison<'_, A, B>, pair: Pair) -> bool
    ensures { result ≡ is_some (pair_difference both.now.identity Changes
        both.now.old.map.now.setting both.now.new.map.now.setting (pair_entries both.now pair)) }
{
    both.difference(Report::Changes, pair).is_some()
}

fn push_change<A: Allocator, B: Allocator>(
    both: &Comparison<'_, A, B>,
    pair: Pair,
    out: &mut Document,
) -> Result<(), AllocError>
    ensures { OnOk result (out.new ≡ out.old ++ tokens_of (pair_document
        both.now.old.map.now.setting both.now.new.map.now.setting (pair_entries both.now pair))) }
{
    let number = number_of(both, pair);
    out.begin_object()?;
    out.whole_if("id", number)?;
    push_at_if("is", &both.new, pair.after, out)?;
    push_at_if("was", &both.old, pair.before, out)?;
    out.end_object()
}

/// Returns the id of this pair's item as a number. If the new map doesn't have the item, this is
/// the id in the old map.
fn number_of<A: Allocator, B: Allocator>(both: &Comparison<'_, A, B>, pair: Pair) -> Option<i32>
    ensures { result ≡ option_map item_number (pair_id (pair_entries both.now pair)) }
{
    let before = both.before(pair);
    let after = both.after(pair);
    number_of_either(&before, &after)
}

fn number_of_either(before: &Option<Seen<'_>>, after: &Option<Seen<'_>>) -> Option<i32>
    ensures { result ≡ option_map item_number
        (either_id (option_map seen_data before.now) (option_map seen_data after.now)) }
{
    match after {
        Some(after) => Some(after.view.id.number()),
        None => match before {
            Some(before) => Some(before.view.id.number()),
            None => None,
        },
    }
}

/// If there is a position, writes a member with what the map says about the item at this position.
/// Otherwise writes nothing.
fn push_at_if<A: Allocator>(
    name: &str,
    items: &Items<'_, A>,
    at: Option<u32>,
    out: &mut Document,
) -> Result<(), AllocError>
    ensures { OnOk result (out.new ≡ out.old ++ seen_tokens_if name.now items.now.map.now.setting
        (option_and_then (slice_get (each item_entry items.now.all.items)) at)) }
{
    match at {
        Some(at) => push_at(name, items, at, out),
        None => Ok(()),
    }
}

fn push_at<A: Allocator>(
    name: &str,
    items: &Items<'_, A>,
    at: u32,
    out: &mut Document,
) -> Result<(), AllocError>
    ensures { OnOk result (out.new ≡ out.old ++ seen_tokens_if name.now items.now.map.now.setting
        (slice_get (each item_entry items.now.all.items) at)) }
{
    match items.seen(at) {
        Some(item) => {
            out.key(name)?;
            push_seen(items.map.setting(), &item, items.class_ids(at), out)
        }
        None => Ok(()),
    }
}

fn push_seen<A: Allocator>(
    setting: &Setting,
    item: &Seen<'_>,
    class_ids: &[ShadowId<A>],
    out: &mut Document,
) -> Result<(), AllocError>
    ensures { OnOk result (out.new ≡ out.old ++ tokens_of (seen_document setting.now
        (seen_entry (seen_data item.now) (each shadow_data class_ids.now)))) }
{
    out.begin_object()?;
    out.text_if("alg", alg_name(item.view.alg))?;
    out.text_if("class", item.view.class)?;
    push_class_ids_if(item.view.id, class_ids, out)?;
    out.text("name", item.view.name)?;
    out.text_if("parent", item.holder)?;
    out.text("type", type_name(setting, item.view.id, item.view.kind))?;
    out.natural("weight", item.view.weight.units() as u64)?;
    out.end_object()
}

fn alg_name(alg: Option<Alg>) -> Option<&'static str>
    ensures { option_map (λ name. name.now) result ≡ option_map alg_text alg }
{
    match alg {
        Some(alg) => Some(alg.name()),
        None => None,
    }
}

/// If the item is a bucket, writes its class ids as a member. If the item is a device, writes
/// nothing.
fn push_class_ids_if<A: Allocator>(
    id: ItemId,
    class_ids: &[ShadowId<A>],
    out: &mut Document,
) -> Result<(), AllocError>
    ensures { OnOk result (out.new ≡ out.old
        ++ class_ids_tokens_if id (each shadow_data class_ids.now)) }
{
    match id {
        ItemId::Device(_) => Ok(()),
        ItemId::Bucket(_) => {
            out.key("class_ids")?;
            push_class_ids(class_ids, out)
        }
    }
}
