//! Compares the settings of two maps (tunables, types and rules), and appends the lines about
//! tunables and types that differ.

ghost use Rattle.std.specs.Prelude.{◌≡◌, ◌++◌, OnOk, map as each};
ghost use Rattle.std.specs.Cmp.Lexicographic.{pointwise};
ghost use Rattle.crush_edits.specs.SettingSeen.{rule_data, step_data};
ghost use Rattle.crush_since.specs.Settings.{same_tunable, same_kinds, same_step, same_rule, listed_if_not, tunables_line, kinds_line};

use crush_map::{KeptRule, KeptStep, Setting};
use std::alloc::AllocError;

/// Appends a line if the tunables of the two maps differ, or if they are in different orders.
pub(crate) fn push_tunables(
    old: &Setting,
    new: &Setting,
    out: &mut Vec<u8>,
) -> Result<(), AllocError>
    ensures { OnOk result (out.new.items ≡ out.old.items ++ tunables_line old.now new.now) }
{
    tell_unless(same_tunables(old, new), b"tunables differ\n", out)?;
    Ok(())
}

/// Appends a line if the types of the two maps differ. The order of the types doesn't matter.
pub(crate) fn push_kinds(old: &Setting, new: &Setting, out: &mut Vec<u8>) -> Result<(), AllocError>
    ensures { OnOk result (out.new.items ≡ out.old.items ++ kinds_line old.now new.now) }
{
    tell_unless(same_kinds(old, new), b"types differ\n", out)?;
    Ok(())
}

/// Appends the line `text`, or nothing if `same` is true.
fn tell_unless(same: bool, text: &[u8], out: &mut Vec<u8>) -> Result<(), AllocError>
    ensures { OnOk result (out.new.items ≡ out.old.items ++ listed_if_not same text.now) }
{
    if same {
        return Ok(());
    }
    out.extend_from_slice(text)
}

/// Whether both maps have the same tunables in the same order.
pub fn same_tunables(old: &Setting, new: &Setting) -> bool
    ensures { result ≡ pointwise same_tunable old.now.tunables new.now.tunables }
{
    old.tunables().as_slice() == new.tunables().as_slice()
}

/// Whether both maps have the same types. The order of the types doesn't matter.
pub fn same_kinds(old: &Setting, new: &Setting) -> bool
    ensures { result ≡ same_kinds old.now new.now }
{
    old.kinds() == new.kinds()
}

/// Whether two lists have the same rules in the same order. The buckets that steps take are
/// compared by their ids.
pub fn same_rules(old: &[KeptRule], new: &[KeptRule]) -> bool
    ensures { result ≡ pointwise same_rule (each rule_data old.now) (each rule_data new.now) }
{
    if old.len() != new.len() {
        return false;
    }
    for index in 0..old.len() {
        if !same_rule(&old[index], &new[index]) {
            return false;
        }
    }
    true
}

pub(crate) fn same_rule(old: &KeptRule, new: &KeptRule) -> bool
    ensures { result ≡ same_rule (rule_data old.now) (rule_data new.now) }
{
    old.name == new.name
        && old.id == new.id
        && old.kind == new.kind
        && old.min_size == new.min_size
        && old.max_size == new.max_size
        && same_steps(old.steps.as_slice(), new.steps.as_slice())
}

fn same_steps(old: &[KeptStep], new: &[KeptStep]) -> bool
    ensures { result ≡ pointwise same_step (each step_data old.now) (each step_data new.now) }
{
    if old.len() != new.len() {
        return false;
    }
    for index in 0..old.len() {
        if !same_step(&old[index], &new[index]) {
            return false;
        }
    }
    true
}

/// Whether two steps are the same. The buckets that steps take are compared by their ids.
pub(crate) fn same_step(old: &KeptStep, new: &KeptStep) -> bool
    ensures { result ≡ same_step (step_data old.now) (step_data new.now) }
{
    match old {
        KeptStep::Take(bucket, class) => match new {
            KeptStep::Take(other, other_class) => {
                bucket.distance() == other.distance() && *class == *other_class
            }
            _ => false,
        },
        KeptStep::Choose {
            leaf,
            firstn,
            count,
            kind,
        } => match new {
            KeptStep::Choose {
                leaf: other_leaf,
                firstn: other_firstn,
                count: other_count,
                kind: other_kind,
            } => {
                *leaf == *other_leaf
                    && *firstn == *other_firstn
                    && *count == *other_count
                    && *kind == *other_kind
            }
            _ => false,
        },
        KeptStep::Set(word, value) => match new {
            KeptStep::Set(other, other_value) => *word == *other && *value == *other_value,
            _ => false,
        },
        KeptStep::Emit => match new {
            KeptStep::Emit => true,
            _ => false,
        },
    }
}
