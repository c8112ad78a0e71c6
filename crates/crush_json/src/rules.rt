//! Writes the rules of a map as JSON values.

ghost use Rattle.std.specs.Prelude.{◌≡◌, ◌++◌, ◌==◌, List, IfOk, OnOk, codes, find, flat_map, map as each};
ghost use Rattle.std.specs.Option.{option_map};
ghost use Rattle.crush_edits.specs.Setting.{RuleData};
ghost use Rattle.crush_edits.specs.SettingSeen.{rule_data, step_data};
ghost use Rattle.crush_print.specs.MapText.{ascending};
ghost use Rattle.crush_model.specs.Stands.{Stands};
ghost use Rattle.crush_model.specs.Table.{Row};
ghost use Rattle.crush_json.specs.RuleDocument.{rule_document, rule_documents, rule_ids, rules_at, served, step_document};
ghost use Rattle.crush_json.specs.Tokens.{member_tokens, tokens_of, tokens_of_all};
ghost use Rattle.crush_json.specs.Values.{list};

use crate::document::Document;
use crate::steps::push_step;
use crush_map::{CrushMap, KeptRule, KeptStep};
use crush_units::Name;
use std::alloc::{AllocError, Allocator, Global};

/// Writes a list with an object for each rule of the map, by ascending id. Fails only if memory
/// runs out.
pub(crate) fn push_rules<A: Allocator>(
    alloc: Global,
    map: &CrushMap<A>,
    out: &mut Document,
) -> Result<(), AllocError>
    ensures { (t : List Row) → Stands map.now.forest t → OnOk result (out.new ≡ out.old
        ++ tokens_of (list (rule_documents map.now.setting t))) }
{
    let ids = ids_in_order(alloc, map.setting().rules())?;
    out.begin_array()?;
    push_each(alloc, map, ids.as_slice(), out)?;
    out.end_array()
}

fn ids_in_order(alloc: Global, rules: &[KeptRule]) -> Result<Vec<u32>, AllocError>
    ensures { IfOk result (λ ids. ids.items
        ≡ ascending (each (λ (r : RuleData). r.id) (each rule_data rules.now))) }
{
    let mut ids = ids_of(alloc, rules)?;
    ids.sort_unstable();
    Ok(ids)
}

fn ids_of(alloc: Global, rules: &[KeptRule]) -> Result<Vec<u32>, AllocError>
    ensures { IfOk result (λ ids. ids.items ≡ each (λ r. (rule_data r).id) rules.now) }
{
    let mut ids = Vec::new(alloc);
    for rule in rules {
        ids.push(rule.id)?;
    }
    Ok(ids)
}

fn push_each<A: Allocator>(
    alloc: Global,
    map: &CrushMap<A>,
    ids: &[u32],
    out: &mut Document,
) -> Result<(), AllocError>
    ensures { (t : List Row) → Stands map.now.forest t → OnOk result (out.new ≡ out.old
        ++ flat_map (λ n. tokens_of_all (rules_at map.now.setting t n)) ids.now) }
{
    for id in ids {
        push_rule_of(alloc, map, *id, out)?;
    }
    Ok(())
}

fn push_rule_of<A: Allocator>(
    alloc: Global,
    map: &CrushMap<A>,
    id: u32,
    out: &mut Document,
) -> Result<(), AllocError>
    ensures { (t : List Row) → Stands map.now.forest t → OnOk result (out.new ≡ out.old
        ++ tokens_of_all (rules_at map.now.setting t id)) }
{
    match rule_of(map.setting().rules(), id) {
        Some(rule) => push_rule(alloc, map, rule, out),
        None => Ok(()),
    }
}

fn rule_of(rules: &[KeptRule], id: u32) -> Option<&KeptRule>
    ensures { option_map (λ r. rule_data r.now) result
        ≡ find (λ (r : RuleData). r.id == id) (each rule_data rules.now) }
{
    for rule in rules {
        if rule.id == id {
            return Some(rule);
        }
    }
    None
}

#[tactic(auto, unfolding(crate::specs::RuleDocument::rule_document))]
fn push_rule<A: Allocator>(
    alloc: Global,
    map: &CrushMap<A>,
    rule: &KeptRule,
    out: &mut Document,
) -> Result<(), AllocError>
    ensures { (t : List Row) → Stands map.now.forest t → OnOk result (out.new ≡ out.old
        ++ tokens_of (rule_document t (rule_data rule.now))) }
{
    out.begin_object()?;
    out.natural("rule_id", rule.id as u64)?;
    out.text("rule_name", rule.name.as_str())?;
    out.key("steps")?;
    push_steps(alloc, map, rule.steps.as_slice(), out)?;
    push_served(&rule.kind, out)?;
    out.end_object()
}

fn push_steps<A: Allocator>(
    alloc: Global,
    map: &CrushMap<A>,
    steps: &[KeptStep],
    out: &mut Document,
) -> Result<(), AllocError>
    ensures { (t : List Row) → Stands map.now.forest t → OnOk result (out.new ≡ out.old
        ++ tokens_of (list (each (step_document t) (each step_data steps.now)))) }
{
    out.begin_array()?;
    push_each_step(alloc, map, steps, out)?;
    out.end_array()
}

fn push_each_step<A: Allocator>(
    alloc: Global,
    map: &CrushMap<A>,
    steps: &[KeptStep],
    out: &mut Document,
) -> Result<(), AllocError>
    ensures { (t : List Row) → Stands map.now.forest t → OnOk result (out.new ≡ out.old
        ++ flat_map (λ x. tokens_of (step_document t (step_data x))) steps.now) }
{
    for step in steps {
        push_step(alloc, map, step, out)?;
    }
    Ok(())
}

/// Writes the member `type`, which is the kind of pools that a rule serves. The value is Ceph's
/// number for the kinds `replicated` (1) and `erasure` (3). For any other kind, the value is the
/// name of the kind.
#[tactic(auto, unfolding(crate::specs::RuleDocument::served))]
fn push_served(kind: &Name<Global>, out: &mut Document) -> Result<(), AllocError>
    ensures { OnOk result (out.new ≡ out.old ++ member_tokens (codes "type") (served kind.now)) }
{
    if kind.is(b"replicated") {
        out.natural("type", 1)
    } else if kind.is(b"erasure") {
        out.natural("type", 3)
    } else {
        out.text("type", kind.as_str())
    }
}
