//! Writes what has changed between two maps as a JSON value.

ghost use Rattle.std.specs.Prelude.{◌≡◌, ◌++◌, List, OnOk, None, Some, codes};
ghost use Rattle.crush_model.specs.Stands.{Stands};
ghost use Rattle.crush_model.specs.Table.{Row};
ghost use Rattle.crush_since.specs.Since.{plain_map};
ghost use Rattle.crush_json.specs.PairDocument.{pair_changes};
ghost use Rattle.crush_json.specs.RuleChanges.{class_change_documents, rule_change_documents};
ghost use Rattle.crush_json.specs.SinceDocument.{counts_document, since_document, totals_document};
ghost use Rattle.crush_json.specs.SinceTokens.{last_since_tokens};
ghost use Rattle.crush_json.specs.Tokens.{member_tokens, tokens_of};
ghost use Rattle.crush_json.specs.Values.{list};

use crate::changes::push_changes;
use crate::class_changes::push_class_changes;
use crate::document::Document;
use crate::rule_changes::push_rule_changes;
use crush_compare::Comparison;
use crush_map::CrushMap;
use crush_since::{Tally, same_kinds, same_tunables};
use crush_units::ItemId;
use std::alloc::{AllocError, Allocator, Global};

/// Writes an object with everything that has changed from the old map to the new map. If `under` is
/// an item, the object has only the changes of this item, and of the items that are below it in at
/// least one of the two maps. Fails only if memory runs out.
pub(crate) fn push_since<A: Allocator, B: Allocator>(
    alloc: Global,
    old: &CrushMap<A>,
    new: &CrushMap<B>,
    under: Option<ItemId>,
    out: &mut Document,
) -> Result<(), AllocError>
    ensures { (t u : List Row) → Stands old.now.forest t → Stands new.now.forest u
        → OnOk result (out.new ≡ out.old ++ tokens_of
        (since_document under (plain_map old.now.setting t) (plain_map new.now.setting u))) }
{
    match under {
        Some(item) => push_part(alloc, old, new, item, out),
        None => push_whole(alloc, old, new, out),
    }
}

fn push_part<A: Allocator, B: Allocator>(
    alloc: Global,
    old: &CrushMap<A>,
    new: &CrushMap<B>,
    under: ItemId,
    out: &mut Document,
) -> Result<(), AllocError>
    ensures { (t u : List Row) → Stands old.now.forest t → Stands new.now.forest u
        → OnOk result (out.new ≡ out.old ++ tokens_of
        (since_document (Some under) (plain_map old.now.setting t) (plain_map new.now.setting u))) }
{
    let both = Comparison::by_ids_below(alloc, old, new, under)?;
    out.begin_object()?;
    push_items(&both, out)?;
    out.end_object()
}

fn push_whole<A: Allocator, B: Allocator>(
    alloc: Global,
    old: &CrushMap<A>,
    new: &CrushMap<B>,
    out: &mut Document,
) -> Result<(), AllocError>
    ensures { (t u : List Row) → Stands old.now.forest t → Stands new.now.forest u
        → OnOk result (out.new ≡ out.old ++ tokens_of
        (since_document None (plain_map old.now.setting t) (plain_map new.now.setting u))) }
{
    let both = Comparison::by_ids(alloc, old, new)?;
    let counts = Tally::of(&both);
    out.begin_object()?;
    push_classes(alloc, old, new, out)?;
    push_counts(&counts, out)?;
    push_items(&both, out)?;
    push_last(alloc, old, new, out)?;
    out.end_object()
}

fn push_counts(counts: &Tally, out: &mut Document) -> Result<(), AllocError>
    ensures { OnOk result (out.new ≡ out.old
        ++ member_tokens (codes "counts") (counts_document counts.now)) }
{
    out.key("counts")?;
    out.begin_object()?;
    out.natural("class", counts.reclassed as u64)?;
    out.natural("made", counts.made as u64)?;
    out.natural("moved", counts.moved as u64)?;
    out.natural("removed", counts.removed as u64)?;
    out.natural("renamed", counts.renamed as u64)?;
    out.natural("weight", counts.reweighed as u64)?;
    out.end_object()
}

fn push_items<A: Allocator, B: Allocator>(
    both: &Comparison<'_, A, B>,
    out: &mut Document,
) -> Result<(), AllocError>
    ensures { OnOk result (out.new ≡ out.old
        ++ member_tokens (codes "items") (list (pair_changes both.now))) }
{
    out.key("items")?;
    push_changes(both, out)
}

fn push_classes<A: Allocator, B: Allocator>(
    alloc: Global,
    old: &CrushMap<A>,
    new: &CrushMap<B>,
    out: &mut Document,
) -> Result<(), AllocError>
    ensures { (t u : List Row) → Stands old.now.forest t → Stands new.now.forest u
        → OnOk result (out.new ≡ out.old ++ member_tokens (codes "classes") (list
        (class_change_documents (plain_map old.now.setting t) (plain_map new.now.setting u)))) }
{
    out.key("classes")?;
    push_class_changes(alloc, old, new, out)
}

fn push_last<A: Allocator, B: Allocator>(
    alloc: Global,
    old: &CrushMap<A>,
    new: &CrushMap<B>,
    out: &mut Document,
) -> Result<(), AllocError>
    ensures { (t u : List Row) → Stands old.now.forest t → Stands new.now.forest u
        → OnOk result (out.new ≡ out.old
        ++ last_since_tokens (plain_map old.now.setting t) (plain_map new.now.setting u)) }
{
    let before = old.setting();
    let after = new.setting();
    push_rules(alloc, old, new, out)?;
    push_totals(old.total(), new.total(), out)?;
    out.truth("tunables", !same_tunables(before, after))?;
    out.truth("types", !same_kinds(before, after))
}

fn push_rules<A: Allocator, B: Allocator>(
    alloc: Global,
    old: &CrushMap<A>,
    new: &CrushMap<B>,
    out: &mut Document,
) -> Result<(), AllocError>
    ensures { (t u : List Row) → Stands old.now.forest t → Stands new.now.forest u
        → OnOk result (out.new ≡ out.old ++ member_tokens (codes "rules") (list
        (rule_change_documents (plain_map old.now.setting t) (plain_map new.now.setting u)))) }
{
    out.key("rules")?;
    push_rule_changes(alloc, old, new, out)
}

/// Writes the total weights of all devices that buckets hold: first the total weight in the old
/// map, and then the total weight in the new map.
fn push_totals(before: u64, after: u64, out: &mut Document) -> Result<(), AllocError>
    ensures { OnOk result (out.new ≡ out.old
        ++ member_tokens (codes "total") (totals_document before after)) }
{
    out.key("total")?;
    out.begin_array()?;
    out.push_natural(before)?;
    out.push_natural(after)?;
    out.end_array()
}
