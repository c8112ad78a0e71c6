//! Writes the differences between the rules of two maps as JSON values.

ghost use Rattle.std.specs.Prelude.{◌≡◌, ◌<◌, ◌++◌, List, OnOk, codes, flat_map, get_or, length};
ghost use Rattle.std.specs.Option.{option_map};
ghost use Rattle.crush_model.specs.Stands.{Stands};
ghost use Rattle.crush_model.specs.Table.{Row};
ghost use Rattle.crush_since.specs.RulesSeen.{rule_change_data};
ghost use Rattle.crush_since.specs.Since.{plain_map};
ghost use Rattle.crush_json.specs.RuleChanges.{named_rule_document, order_document, rule_change_document, rule_change_documents, takes_nothing_document};
ghost use Rattle.crush_json.specs.Tokens.{tokens_of};
ghost use Rattle.crush_json.specs.Values.{list};

use crate::document::Document;
use crush_compare::Identity;
use crush_map::CrushMap;
use crush_since::{RuleChange, rule_changes};
use std::alloc::{AllocError, Allocator, Global};

/// Writes a list with an object for each rule that differs, or that only one of the maps has. If
/// only the order of the rules differs, the list has one object instead, which says that the order
/// differs. After these objects, the list has an object for each `take` step of the new map's rules
/// that takes nothing any more. A step takes nothing any more if the devices that it takes had a
/// total weight above 0 in the old map, and have the total weight 0 in the new map. Buckets of the
/// two maps are the same if their ids are equal. Fails only if memory runs out.
pub(crate) fn push_rule_changes<A: Allocator, B: Allocator>(
    alloc: Global,
    old: &CrushMap<A>,
    new: &CrushMap<B>,
    out: &mut Document,
) -> Result<(), AllocError>
    ensures { (t u : List Row) → Stands old.now.forest t → Stands new.now.forest u
        → OnOk result (out.new ≡ out.old ++ tokens_of (list
        (rule_change_documents (plain_map old.now.setting t) (plain_map new.now.setting u)))) }
{
    let changes = rule_changes(alloc, Identity::Ids, old, new)?;
    out.begin_array()?;
    push_each(changes.as_slice(), out)?;
    out.end_array()
}

fn push_each<'a>(changes: &[RuleChange<'a>], out: &mut Document) -> Result<(), AllocError>
    ensures { OnOk result (out.new ≡ out.old
        ++ flat_map (λ x. tokens_of (rule_change_document (rule_change_data x))) changes.now) }
{
    for index in 0..changes.len() {
        let change = change_at(changes, index);
        push_change(*change, out)?;
    }
    Ok(())
}

fn push_change(change: RuleChange<'_>, out: &mut Document) -> Result<(), AllocError>
    ensures { OnOk result (out.new ≡ out.old
        ++ tokens_of (rule_change_document (rule_change_data change.entry))) }
{
    match change {
        RuleChange::New(name) => push_named("new", name, out),
        RuleChange::Differs(name) => push_named("differs", name, out),
        RuleChange::Gone(name) => push_named("gone", name, out),
        RuleChange::OtherOrder => push_other_order(out),
        RuleChange::TakesNothing {
            rule,
            bucket,
            class,
        } => push_takes_nothing(rule, bucket, class, out),
    }
}

#[tactic(auto, unfolding(crate::specs::RuleChanges::named_rule_document))]
fn push_named(change: &str, name: &str, out: &mut Document) -> Result<(), AllocError>
    ensures { OnOk result (out.new ≡ out.old
        ++ tokens_of (named_rule_document change.now name.now)) }
{
    out.begin_object()?;
    out.text("change", change)?;
    out.text("name", name)?;
    out.end_object()
}

#[tactic(auto, unfolding(crate::specs::RuleChanges::order_document))]
fn push_other_order(out: &mut Document) -> Result<(), AllocError>
    ensures { OnOk result (out.new ≡ out.old ++ tokens_of order_document) }
{
    out.begin_object()?;
    out.text("change", "other order")?;
    out.end_object()
}

fn push_takes_nothing(
    rule: &str,
    bucket: &str,
    class: Option<&str>,
    out: &mut Document,
) -> Result<(), AllocError>
    ensures { OnOk result (out.new ≡ out.old ++ tokens_of (takes_nothing_document rule.now
        bucket.now (option_map (λ c. c.now) class.entry))) }
{
    out.begin_object()?;
    out.text("bucket", bucket)?;
    out.text("change", "takes nothing")?;
    out.text_if("class", class)?;
    out.text("name", rule)?;
    out.end_object()
}

fn change_at<'b, 'a>(changes: &'b [RuleChange<'a>], at: usize) -> &'b RuleChange<'a>
    requires { at < length changes.now }
    ensures { result.now ≡ get_or changes.now at result.now }
{
    &changes[at]
}
