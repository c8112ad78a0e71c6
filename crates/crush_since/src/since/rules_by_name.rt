//! Compares the rules of two maps. The buckets that the rules take are compared by their ids or by
//! their names.

ghost use Rattle.std.specs.Prelude.{◌≡◌, List, map as each};
ghost use Rattle.std.specs.Cmp.Lexicographic.{pointwise};
ghost use Rattle.crush_edits.specs.SettingSeen.{rule_data, step_data};
ghost use Rattle.crush_model.specs.Stands.{Stands};
ghost use Rattle.crush_model.specs.Table.{Row};
ghost use Rattle.crush_since.specs.RulesByName.{named_rule, named_step, same_bucket, same_rule_by};

use crate::since::columns::same_class;
use crate::since::settings::{same_rule, same_rules, same_step};
use crush_compare::Identity;
use crush_map::{CrushMap, KeptRule, KeptStep};
use crush_units::{BucketId, ItemId};
use std::alloc::Allocator;

/// Whether two maps have the same rules in the same order. `identity` says how the buckets that
/// steps take are compared: by their ids or by their names.
pub(crate) fn are_same_rules<A: Allocator, B: Allocator>(
    identity: Identity,
    old: &CrushMap<A>,
    new: &CrushMap<B>,
    before: &[KeptRule],
    after: &[KeptRule],
) -> bool
    ensures { (t u : List Row) → Stands old.now.forest t → Stands new.now.forest u → result
        ≡ pointwise (same_rule_by identity t u) (each rule_data before.now) (each rule_data after.now) }
{
    match identity {
        Identity::Ids => same_rules(before, after),
        Identity::Names(_) => same_named_rules(old, new, before, after),
    }
}

pub(crate) fn is_same_rule<A: Allocator, B: Allocator>(
    identity: Identity,
    old: &CrushMap<A>,
    new: &CrushMap<B>,
    before: &KeptRule,
    after: &KeptRule,
) -> bool
    ensures { (t u : List Row) → Stands old.now.forest t → Stands new.now.forest u
        → result ≡ same_rule_by identity t u (rule_data before.now) (rule_data after.now) }
{
    match identity {
        Identity::Ids => same_rule(before, after),
        Identity::Names(_) => same_named_rule(old, new, before, after),
    }
}

/// Whether two maps have the same rules in the same order. The buckets that steps take are compared
/// by their names.
pub fn same_named_rules<A: Allocator, B: Allocator>(
    old: &CrushMap<A>,
    new: &CrushMap<B>,
    before: &[KeptRule],
    after: &[KeptRule],
) -> bool
    ensures { (t u : List Row) → Stands old.now.forest t → Stands new.now.forest u → result
        ≡ pointwise (named_rule t u) (each rule_data before.now) (each rule_data after.now) }
{
    if before.len() != after.len() {
        return false;
    }
    for index in 0..before.len() {
        if !same_named_rule(old, new, &before[index], &after[index]) {
            return false;
        }
    }
    true
}

fn same_named_rule<A: Allocator, B: Allocator>(
    old: &CrushMap<A>,
    new: &CrushMap<B>,
    before: &KeptRule,
    after: &KeptRule,
) -> bool
    ensures { (t u : List Row) → Stands old.now.forest t → Stands new.now.forest u
        → result ≡ named_rule t u (rule_data before.now) (rule_data after.now) }
{
    before.name == after.name
        && before.id == after.id
        && before.kind == after.kind
        && before.min_size == after.min_size
        && before.max_size == after.max_size
        && same_named_steps(old, new, before.steps.as_slice(), after.steps.as_slice())
}

fn same_named_steps<A: Allocator, B: Allocator>(
    old: &CrushMap<A>,
    new: &CrushMap<B>,
    before: &[KeptStep],
    after: &[KeptStep],
) -> bool
    ensures { (t u : List Row) → Stands old.now.forest t → Stands new.now.forest u → result
        ≡ pointwise (named_step t u) (each step_data before.now) (each step_data after.now) }
{
    if before.len() != after.len() {
        return false;
    }
    for index in 0..before.len() {
        if !same_named_step(old, new, &before[index], &after[index]) {
            return false;
        }
    }
    true
}

/// Whether two steps are the same. The buckets that steps take are compared by their names.
fn same_named_step<A: Allocator, B: Allocator>(
    old: &CrushMap<A>,
    new: &CrushMap<B>,
    before: &KeptStep,
    after: &KeptStep,
) -> bool
    ensures { (t u : List Row) → Stands old.now.forest t → Stands new.now.forest u
        → result ≡ named_step t u (step_data before.now) (step_data after.now) }
{
    match before {
        KeptStep::Take(bucket, class) => match after {
            KeptStep::Take(other, other_class) => {
                same_bucket(old, new, *bucket, *other) && *class == *other_class
            }
            _ => false,
        },
        _ => same_step(before, after),
    }
}

fn same_bucket<A: Allocator, B: Allocator>(
    old: &CrushMap<A>,
    new: &CrushMap<B>,
    before: BucketId,
    after: BucketId,
) -> bool
    ensures { (t u : List Row) → Stands old.now.forest t → Stands new.now.forest u
        → result ≡ same_bucket t u before after }
{
    let old_name = old.name_of(ItemId::Bucket(before));
    let new_name = new.name_of(ItemId::Bucket(after));
    same_class(old_name, new_name)
}
