//! Finds the differences between the rules of two maps.

ghost use Rattle.std.specs.Prelude.{◌≡◌, ◌++◌, List, OnOk, IfOk, find, flat_map, bytes_eq, map as each};
ghost use Rattle.std.specs.Option.{option_map};
ghost use Rattle.crush_edits.specs.Setting.{RuleData};
ghost use Rattle.crush_edits.specs.SettingSeen.{rule_data};
ghost use Rattle.crush_model.specs.Stands.{Stands};
ghost use Rattle.crush_model.specs.Table.{Row};
ghost use Rattle.crush_since.specs.RuleChanges.{rule_changes};
ghost use Rattle.crush_since.specs.Rules.{beside, change_unless, changed_rules, gone_rule, new_rule, or_order, rule_differences, rule_named};
ghost use Rattle.crush_since.specs.RulesByName.{same_rule_by};
ghost use Rattle.crush_since.specs.RulesSeen.{rule_change_data};
ghost use Rattle.crush_since.specs.Since.{plain_map};

use crate::since::emptied::push_emptied;
use crate::since::rules_by_name::{are_same_rules, is_same_rule};
use crush_compare::Identity;
use crush_map::{CrushMap, KeptRule};
use std::alloc::{AllocError, Allocator, Global};

/// A difference between the rules of two maps. Its names are borrowed from the maps.
#[derive(Clone, Copy, Debug)]
pub enum RuleChange<'a> {
    /// Only the new map has a rule of this name.
    New(&'a str),
    /// Both maps have a rule of this name, and the two rules differ.
    Differs(&'a str),
    /// Only the old map has a rule of this name.
    Gone(&'a str),
    /// Both maps have the same rules, but in another order.
    OtherOrder,
    /// The rule `rule` of the new map has a step that takes a bucket which has lost all its weight:
    /// its weight was above 0 in the old map, and is 0 in the new map. If the step takes a class,
    /// only the bucket's devices of this class count for both weights.
    TakesNothing {
        rule: &'a str,
        /// The bucket's name in the new map.
        bucket: &'a str,
        class: Option<&'a str>,
    },
}

/// Returns the differences between the rules of two maps. First come the rules of the new map that
/// are new or differ, in the new map's order, and then the rules that are gone, in the old map's
/// order. If there is no such rule, but the two maps have the same rules in different orders, the
/// list begins with `OtherOrder`. Last comes a `TakesNothing` for each step of the new map's rules
/// that takes a bucket which has lost all its weight. These elements are in the order of the rules
/// and of their steps.
///
/// `identity` says how buckets are matched: by their ids or by their names. Two steps that take a
/// bucket are the same only if the two buckets match, and if both steps take the same class or
/// neither takes a class. A bucket has lost all its weight if its weight in the new map is 0, and
/// the matching bucket of the old map had a weight above 0. If the step takes a class, only the
/// bucket's devices of this class count for both weights. The call fails only if memory runs out.
pub fn rule_changes<'a, A: Allocator, B: Allocator>(
    alloc: Global,
    identity: Identity,
    old: &'a CrushMap<A>,
    new: &'a CrushMap<B>,
) -> Result<Vec<RuleChange<'a>>, AllocError>
    ensures { IfOk result (λ changes. (t u : List Row) → Stands old.now.forest t
        → Stands new.now.forest u → each rule_change_data changes.items
        ≡ rule_changes identity (plain_map old.now.setting t) (plain_map new.now.setting u)) }
{
    let mut changes = rule_differences(alloc, identity, old, new)?;
    push_emptied(alloc, identity, old, new, &mut changes)?;
    Ok(changes)
}

/// Returns a difference for each rule that is new, differs or is gone. If there is no such rule,
/// but the rules are in another order, returns only `OtherOrder`.
fn rule_differences<'a, A: Allocator, B: Allocator>(
    alloc: Global,
    identity: Identity,
    old: &'a CrushMap<A>,
    new: &'a CrushMap<B>,
) -> Result<Vec<RuleChange<'a>>, AllocError>
    ensures { IfOk result (λ changes. (t u : List Row) → Stands old.now.forest t
        → Stands new.now.forest u → each rule_change_data changes.items
        ≡ rule_differences (same_rule_by identity t u) old.now.setting.rules new.now.setting.rules) }
{
    let before = old.setting().rules();
    let after = new.setting().rules();
    if are_same_rules(identity, old, new, before, after) {
        return Ok(Vec::new(alloc));
    }
    let mut changes = changed_rules(alloc, identity, old, new, before, after)?;
    push_order_if_none(&mut changes)?;
    Ok(changes)
}

/// Returns a difference for each rule that is new, differs or is gone. First come the rules of the
/// new map that are new or differ, in the new map's order, and then the rules that are gone, in the
/// old map's order.
fn changed_rules<'a, A: Allocator, B: Allocator>(
    alloc: Global,
    identity: Identity,
    old: &CrushMap<A>,
    new: &CrushMap<B>,
    before: &'a [KeptRule],
    after: &'a [KeptRule],
) -> Result<Vec<RuleChange<'a>>, AllocError>
    ensures { IfOk result (λ changes. (t u : List Row) → Stands old.now.forest t
        → Stands new.now.forest u → each rule_change_data changes.items
        ≡ changed_rules (same_rule_by identity t u) (each rule_data before.now) (each rule_data after.now)) }
{
    let mut changes = Vec::new(alloc);
    push_new_rules(identity, old, new, before, after, &mut changes)?;
    push_gone_rules(before, after, &mut changes)?;
    Ok(changes)
}

fn push_new_rules<'a, A: Allocator, B: Allocator>(
    identity: Identity,
    old: &CrushMap<A>,
    new: &CrushMap<B>,
    before: &'a [KeptRule],
    after: &'a [KeptRule],
    changes: &mut Vec<RuleChange<'a>>,
) -> Result<(), AllocError>
    ensures { (t u : List Row) → Stands old.now.forest t → Stands new.now.forest u
        → OnOk result (each rule_change_data changes.new.items
        ≡ each rule_change_data changes.old.items
        ++ flat_map (new_rule (same_rule_by identity t u) (each rule_data before.now)) (each rule_data after.now)) }
{
    for rule in after {
        push_new_rule(identity, old, new, before, rule, changes)?;
    }
    Ok(())
}

fn push_new_rule<'a, A: Allocator, B: Allocator>(
    identity: Identity,
    old: &CrushMap<A>,
    new: &CrushMap<B>,
    before: &'a [KeptRule],
    rule: &'a KeptRule,
    changes: &mut Vec<RuleChange<'a>>,
) -> Result<(), AllocError>
    ensures { (t u : List Row) → Stands old.now.forest t → Stands new.now.forest u
        → OnOk result (each rule_change_data changes.new.items
        ≡ each rule_change_data changes.old.items
        ++ new_rule (same_rule_by identity t u) (each rule_data before.now) (rule_data rule.now)) }
{
    let name = rule.name.as_str();
    match rule_named(before, name) {
        Some(found) => {
            let same = is_same_rule(identity, old, new, found, rule);
            push_unless(same, RuleChange::Differs(name), changes)
        }
        None => push_unless(false, RuleChange::New(name), changes),
    }
}

fn push_gone_rules<'a>(
    before: &'a [KeptRule],
    after: &'a [KeptRule],
    changes: &mut Vec<RuleChange<'a>>,
) -> Result<(), AllocError>
    ensures { OnOk result (each rule_change_data changes.new.items
        ≡ each rule_change_data changes.old.items
        ++ flat_map (gone_rule (each rule_data after.now)) (each rule_data before.now)) }
{
    for rule in before {
        push_gone_rule(after, rule, changes)?;
    }
    Ok(())
}

/// Appends a [`RuleChange::Gone`] if the new map has no rule with the name of `rule`, which is a
/// rule of the old map.
fn push_gone_rule<'a>(
    after: &'a [KeptRule],
    rule: &'a KeptRule,
    changes: &mut Vec<RuleChange<'a>>,
) -> Result<(), AllocError>
    ensures { OnOk result (each rule_change_data changes.new.items
        ≡ each rule_change_data changes.old.items
        ++ gone_rule (each rule_data after.now) (rule_data rule.now)) }
{
    let name = rule.name.as_str();
    let stays = rule_named(after, name).is_some();
    push_unless(stays, RuleChange::Gone(name), changes)
}

pub(crate) fn push_unless<'a>(
    same: bool,
    change: RuleChange<'a>,
    changes: &mut Vec<RuleChange<'a>>,
) -> Result<(), AllocError>
    ensures { OnOk result (each rule_change_data changes.new.items
        ≡ each rule_change_data changes.old.items ++ change_unless same (rule_change_data change.entry)) }
{
    if same {
        return Ok(());
    }
    changes.push(change)?;
    Ok(())
}

/// If `changes` is empty, appends [`RuleChange::OtherOrder`].
fn push_order_if_none(changes: &mut Vec<RuleChange<'_>>) -> Result<(), AllocError>
    ensures { OnOk result (each rule_change_data changes.new.items
        ≡ or_order (each rule_change_data changes.old.items)) }
{
    if changes.is_empty() {
        changes.push(RuleChange::OtherOrder)?;
    }
    Ok(())
}

/// Returns the first rule with this name, or `None` if no rule has the name.
fn rule_named<'a>(rules: &'a [KeptRule], name: &str) -> Option<&'a KeptRule>
    ensures { option_map (λ r. rule_data r.now) result
        ≡ rule_named name.now (each rule_data rules.now) }
{
    for rule in rules {
        if rule.name.is(name.as_bytes()) {
            return Some(rule);
        }
    }
    None
}
