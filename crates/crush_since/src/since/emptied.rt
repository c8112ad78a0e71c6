//! Finds the steps of rules that take a bucket which has lost all its weight.

ghost use Rattle.std.specs.Prelude.{◌≡◌, ◌++◌, List, IfOk, OnOk, flat_map, option_and_then, unwrap_or, map as each};
ghost use Rattle.std.specs.Option.{option_map};
ghost use Rattle.crush_edits.specs.SettingSeen.{rule_data, step_data};
ghost use Rattle.crush_print.specs.RuleLines.{bucket_name};
ghost use Rattle.crush_model.specs.Stands.{Stands};
ghost use Rattle.crush_model.specs.Table.{Row, id_named};
ghost use Rattle.crush_edits.specs.Stops.{bucket_named};
ghost use Rattle.crush_since.specs.Emptied.{emptied_by, emptied_of, emptied_rules, if_emptied, is_emptied, old_bucket, taken_weight, weight_as, weight_before};
ghost use Rattle.crush_since.specs.RulesSeen.{rule_change_data};
ghost use Rattle.crush_since.specs.TakenSeen.{AreRight};

use crate::since::classes::class_named;
use crate::since::rules::RuleChange;
use crate::since::taken::{Taken, cached_result, store};
use crush_compare::Identity;
use crush_map::{CrushMap, KeptRule, KeptStep};
use crush_units::{BucketId, ItemId, Weight};
use std::alloc::{AllocError, Allocator, Global};

/// Appends a difference for each step of the new map's rules that takes a bucket which has lost all
/// its weight: its weight was above 0 in the old map, and is 0 in the new map. If the step takes a
/// class, only the bucket's devices of this class count for both weights. `identity` says which
/// bucket of the old map is compared: the bucket with the same id, or the bucket with the same
/// name.
pub(crate) fn push_emptied<'a, A: Allocator, B: Allocator>(
    alloc: Global,
    identity: Identity,
    old: &CrushMap<A>,
    new: &'a CrushMap<B>,
    changes: &mut Vec<RuleChange<'a>>,
) -> Result<(), AllocError>
    ensures { (t u : List Row) → Stands old.now.forest t → Stands new.now.forest u
        → OnOk result (each rule_change_data changes.new.items
        ≡ each rule_change_data changes.old.items
        ++ emptied_rules identity t u new.now.setting.rules) }
{
    let mut cache = Vec::new(alloc);
    let rules = new.setting().rules();
    push_rules(identity, old, new, rules, &mut cache, changes)
}

fn push_rules<'a, A: Allocator, B: Allocator>(
    identity: Identity,
    old: &CrushMap<A>,
    new: &'a CrushMap<B>,
    rules: &'a [KeptRule],
    cache: &mut Vec<Taken<'a>>,
    changes: &mut Vec<RuleChange<'a>>,
) -> Result<(), AllocError>
    ensures changes { (t u : List Row) → Stands old.now.forest t → Stands new.now.forest u
        → AreRight identity t u cache.old.items
        → OnOk result (each rule_change_data changes.new.items
        ≡ each rule_change_data changes.old.items
        ++ emptied_rules identity t u (each rule_data rules.now)) }
    ensures cache { (t u : List Row) → Stands old.now.forest t → Stands new.now.forest u
        → AreRight identity t u cache.old.items
        → OnOk result (AreRight identity t u cache.new.items) }
{
    for rule in rules {
        push_rule(identity, old, new, rule, cache, changes)?;
    }
    Ok(())
}

fn push_rule<'a, A: Allocator, B: Allocator>(
    identity: Identity,
    old: &CrushMap<A>,
    new: &'a CrushMap<B>,
    rule: &'a KeptRule,
    cache: &mut Vec<Taken<'a>>,
    changes: &mut Vec<RuleChange<'a>>,
) -> Result<(), AllocError>
    ensures changes { (t u : List Row) → Stands old.now.forest t → Stands new.now.forest u
        → AreRight identity t u cache.old.items
        → OnOk result (each rule_change_data changes.new.items
        ≡ each rule_change_data changes.old.items
        ++ emptied_of identity t u (rule_data rule.now)) }
    ensures cache { (t u : List Row) → Stands old.now.forest t → Stands new.now.forest u
        → AreRight identity t u cache.old.items
        → OnOk result (AreRight identity t u cache.new.items) }
{
    push_steps(
        identity,
        old,
        new,
        rule.name.as_str(),
        rule.steps.as_slice(),
        cache,
        changes,
    )
}

fn push_steps<'a, A: Allocator, B: Allocator>(
    identity: Identity,
    old: &CrushMap<A>,
    new: &'a CrushMap<B>,
    rule: &'a str,
    steps: &'a [KeptStep],
    cache: &mut Vec<Taken<'a>>,
    changes: &mut Vec<RuleChange<'a>>,
) -> Result<(), AllocError>
    ensures changes { (t u : List Row) → Stands old.now.forest t → Stands new.now.forest u
        → AreRight identity t u cache.old.items
        → OnOk result (each rule_change_data changes.new.items
        ≡ each rule_change_data changes.old.items
        ++ flat_map (emptied_by identity t u rule.now) (each step_data steps.now)) }
    ensures cache { (t u : List Row) → Stands old.now.forest t → Stands new.now.forest u
        → AreRight identity t u cache.old.items
        → OnOk result (AreRight identity t u cache.new.items) }
{
    for step in steps {
        push_step(identity, old, new, rule, step, cache, changes)?;
    }
    Ok(())
}

fn push_step<'a, A: Allocator, B: Allocator>(
    identity: Identity,
    old: &CrushMap<A>,
    new: &'a CrushMap<B>,
    rule: &'a str,
    step: &'a KeptStep,
    cache: &mut Vec<Taken<'a>>,
    changes: &mut Vec<RuleChange<'a>>,
) -> Result<(), AllocError>
    ensures changes { (t u : List Row) → Stands old.now.forest t → Stands new.now.forest u
        → AreRight identity t u cache.old.items
        → OnOk result (each rule_change_data changes.new.items
        ≡ each rule_change_data changes.old.items
        ++ emptied_by identity t u rule.now (step_data step.now)) }
    ensures cache { (t u : List Row) → Stands old.now.forest t → Stands new.now.forest u
        → AreRight identity t u cache.old.items
        → OnOk result (AreRight identity t u cache.new.items) }
{
    match step {
        KeptStep::Take(bucket, class) => {
            let class = class_named(class);
            let is = is_emptied_cached(identity, old, new, *bucket, class, cache)?;
            let bucket = bucket_word(new, *bucket);
            push_if(is, rule, bucket, class, changes)
        }
        _ => Ok(()),
    }
}

/// If `is` is true, appends a [`RuleChange::TakesNothing`] for a step of a rule.
fn push_if<'a>(
    is: bool,
    rule: &'a str,
    bucket: &'a str,
    class: Option<&'a str>,
    changes: &mut Vec<RuleChange<'a>>,
) -> Result<(), AllocError>
    ensures { OnOk result (each rule_change_data changes.new.items
        ≡ each rule_change_data changes.old.items
        ++ if_emptied is rule.now bucket.now (option_map (λ c. c.now) class.entry)) }
{
    if is {
        changes.push(RuleChange::TakesNothing {
            rule,
            bucket,
            class,
        })?;
    }
    Ok(())
}

/// Whether the bucket has lost all its weight. If the cache has no result for this bucket and
/// class, computes the result and stores it in the cache. The cache saves time, because the code
/// visits each item below the bucket to add up the weights of a class.
fn is_emptied_cached<'a, A: Allocator, B: Allocator>(
    identity: Identity,
    old: &CrushMap<A>,
    new: &CrushMap<B>,
    bucket: BucketId,
    class: Option<&'a str>,
    cache: &mut Vec<Taken<'a>>,
) -> Result<bool, AllocError>
    ensures is { (t u : List Row) → Stands old.now.forest t → Stands new.now.forest u
        → AreRight identity t u cache.old.items → IfOk result (λ is. is
        ≡ is_emptied identity t u bucket (option_map (λ c. c.now) class.entry)) }
    ensures cache { (t u : List Row) → Stands old.now.forest t → Stands new.now.forest u
        → AreRight identity t u cache.old.items
        → OnOk result (AreRight identity t u cache.new.items) }
{
    match cached_result(cache.as_slice(), bucket, class) {
        Some(is) => Ok(is),
        None => {
            let is = is_emptied(identity, old, new, bucket, class);
            store(bucket, class, is, cache)?;
            Ok(is)
        }
    }
}

fn is_emptied<A: Allocator, B: Allocator>(
    identity: Identity,
    old: &CrushMap<A>,
    new: &CrushMap<B>,
    bucket: BucketId,
    class: Option<&str>,
) -> bool
    ensures { (t u : List Row) → Stands old.now.forest t → Stands new.now.forest u
        → result ≡ is_emptied identity t u bucket (option_map (λ c. c.now) class.entry) }
{
    taken_weight(new, bucket, class).units() == 0
        && !(weight_before(identity, old, new, bucket, class).units() == 0)
}

/// Returns the weight in the old map of the bucket that matches this bucket of the new map. If
/// `class` is `Some`, only the bucket's devices of this class count. Returns 0 if the old map has
/// no matching bucket.
fn weight_before<A: Allocator, B: Allocator>(
    identity: Identity,
    old: &CrushMap<A>,
    new: &CrushMap<B>,
    bucket: BucketId,
    class: Option<&str>,
) -> Weight
    ensures { (t u : List Row) → Stands old.now.forest t → Stands new.now.forest u
        → result ≡ weight_before identity t u bucket (option_map (λ c. c.now) class.entry) }
{
    match old_bucket(identity, old, new, bucket) {
        Some(before) => taken_weight(old, before, class),
        None => Weight::from_units(0),
    }
}

/// Returns the id of the old map's bucket that matches this bucket of the new map. With
/// `Identity::Ids` this is the same id, even if the old map has no bucket with this id. With
/// `Identity::Names`, returns `None` if the old map has no bucket with the same name.
fn old_bucket<A: Allocator, B: Allocator>(
    identity: Identity,
    old: &CrushMap<A>,
    new: &CrushMap<B>,
    bucket: BucketId,
) -> Option<BucketId>
    ensures { (t u : List Row) → Stands old.now.forest t → Stands new.now.forest u
        → result ≡ old_bucket identity t u bucket }
{
    match identity {
        Identity::Ids => Some(bucket),
        Identity::Names(_) => match new.name_of(ItemId::Bucket(bucket)) {
            Some(name) => bucket_named(old, name),
            None => None,
        },
    }
}

/// Returns the bucket with this name, or `None` if no bucket has the name.
pub fn bucket_named<A: Allocator>(map: &CrushMap<A>, name: &str) -> Option<BucketId>
    ensures { (t : List Row) → Stands map.now.forest t → result ≡ bucket_named t name.now }
{
    match map.locate(name) {
        Some(id) => match id {
            ItemId::Bucket(bucket) => Some(bucket),
            ItemId::Device(_) => None,
        },
        None => None,
    }
}

/// Returns the weight of the bucket. If `class` is a class, returns the weight of the bucket's
/// devices of this class. Returns 0 if the map doesn't have the bucket.
fn taken_weight<A: Allocator>(map: &CrushMap<A>, bucket: BucketId, class: Option<&str>) -> Weight
    ensures { (t : List Row) → Stands map.now.forest t
        → result ≡ taken_weight t bucket (option_map (λ c. c.now) class.entry) }
{
    match map.name_of(ItemId::Bucket(bucket)) {
        Some(name) => or_nothing(named_weight(map, name, class)),
        None => Weight::from_units(0),
    }
}

fn named_weight<A: Allocator>(map: &CrushMap<A>, name: &str, class: Option<&str>) -> Option<Weight>
    ensures { (t : List Row) → Stands map.now.forest t → result
        ≡ option_and_then (weight_as t (option_map (λ c. c.now) class.entry))
        (id_named t name.now) }
{
    match class {
        Some(class) => map.weight_of_class(name, class),
        None => map.weight_of(name),
    }
}

fn or_nothing(weight: Option<Weight>) -> Weight
    ensures { result ≡ unwrap_or weight 0 }
{
    match weight {
        Some(weight) => weight,
        None => Weight::from_units(0),
    }
}

/// Returns the bucket's name, or an empty text if the map has no such bucket.
#[tactic(auto, unfolding(crush_print::specs::RuleLines::bucket_name))]
fn bucket_word<A: Allocator>(map: &CrushMap<A>, bucket: BucketId) -> &str
    ensures { (t : List Row) → Stands map.now.forest t → result.now ≡ bucket_name t bucket }
{
    match map.name_of(ItemId::Bucket(bucket)) {
        Some(name) => name,
        None => "",
    }
}
