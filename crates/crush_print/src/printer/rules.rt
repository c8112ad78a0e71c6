//! Appends the section of the rules.

ghost use Rattle.std.specs.Prelude.{◌≡◌, ◌++◌, List, OnOk, flat_map, map};
ghost use Rattle.crush_model.specs.Stands.{Stands};
ghost use Rattle.crush_model.specs.Table.{Row};
ghost use Rattle.crush_edits.specs.SettingSeen.{rule_data, step_data};
ghost use Rattle.crush_print.specs.MapText.{rule_section};
ghost use Rattle.crush_print.specs.RuleLines.{bucket_name, choice_text, choose_line, rule_head, rule_lines, set_line, size_line, step_line, take_line};

use crate::lines::push_all;
use crush_edits::{KeptRule, KeptStep, Setting};
use crush_map::CrushMap;
use crush_units::{BucketId, ItemId, Name};
use itoa::Buffer;
use std::alloc::{AllocError, Allocator, Global};

/// Appends the heading of the section of the rules, and then the rules in the order in which they
/// were declared. If a step takes a bucket, the printed step has the name that this bucket has in
/// the map `from`.
#[tactic(auto, unfolding(crate::specs::MapText::rule_section))]
pub(crate) fn push_rules<A: Allocator>(
    setting: &Setting,
    from: &CrushMap<A>,
    out: &mut Vec<u8>,
) -> Result<(), AllocError>
    ensures { (t : List Row) → Stands from.now.forest t
        → OnOk result (out.new.items ≡ out.old.items ++ rule_section setting.now t) }
{
    out.extend_from_slice(b"\n# rules\n")?;
    let rules = setting.rules();
    push_all_rules(rules, from, out)
}

fn push_all_rules<A: Allocator>(
    rules: &[KeptRule],
    from: &CrushMap<A>,
    out: &mut Vec<u8>,
) -> Result<(), AllocError>
    ensures { (t : List Row) → Stands from.now.forest t → OnOk result
        (out.new.items ≡ out.old.items ++ flat_map (rule_lines t) (map rule_data rules.now)) }
{
    for rule in rules {
        push_rule(rule, from, out)?;
    }
    Ok(())
}

#[tactic(auto, unfolding(crate::specs::RuleLines::rule_lines))]
fn push_rule<A: Allocator>(
    rule: &KeptRule,
    from: &CrushMap<A>,
    out: &mut Vec<u8>,
) -> Result<(), AllocError>
    ensures { (t : List Row) → Stands from.now.forest t
        → OnOk result (out.new.items ≡ out.old.items ++ rule_lines t (rule_data rule.now)) }
{
    push_head(rule, out)?;
    push_size(b"\tmin_size ", rule.min_size, out)?;
    push_size(b"\tmax_size ", rule.max_size, out)?;
    push_steps(rule.steps.as_slice(), from, out)?;
    out.extend_from_slice(b"}\n")
}

/// Appends `rule NAME {`, the line of the rule's id, and the line of its type.
#[tactic(auto, unfolding(crate::specs::RuleLines::rule_head))]
fn push_head(rule: &KeptRule, out: &mut Vec<u8>) -> Result<(), AllocError>
    ensures { OnOk result (out.new.items ≡ out.old.items ++ rule_head (rule_data rule.now)) }
{
    let mut buffer = Buffer::new();
    let id = buffer.format(rule.id).as_bytes();
    push_all(
        &[
            b"rule ".as_slice(),
            rule.name.as_bytes(),
            b" {\n\tid ".as_slice(),
            id,
            b"\n\ttype ".as_slice(),
            rule.kind.as_bytes(),
            b"\n".as_slice(),
        ],
        out,
    )
}

/// Appends a line with the word `key` and the number `size`. Appends nothing if `size` is `None`,
/// which means that the rule doesn't have this size.
#[tactic(auto, unfolding(crate::specs::RuleLines::size_line))]
fn push_size(key: &[u8], size: Option<u32>, out: &mut Vec<u8>) -> Result<(), AllocError>
    ensures { OnOk result (out.new.items ≡ out.old.items ++ size_line key.now size) }
{
    match size {
        Some(size) => {
            let mut buffer = Buffer::new();
            let size = buffer.format(size).as_bytes();
            push_all(&[key, size, b"\n".as_slice()], out)
        }
        None => Ok(()),
    }
}

fn push_steps<A: Allocator>(
    steps: &[KeptStep],
    from: &CrushMap<A>,
    out: &mut Vec<u8>,
) -> Result<(), AllocError>
    ensures { (t : List Row) → Stands from.now.forest t → OnOk result
        (out.new.items ≡ out.old.items ++ flat_map (step_line t) (map step_data steps.now)) }
{
    for step in steps {
        push_step(step, from, out)?;
    }
    Ok(())
}

fn push_step<A: Allocator>(
    step: &KeptStep,
    from: &CrushMap<A>,
    out: &mut Vec<u8>,
) -> Result<(), AllocError>
    ensures { (t : List Row) → Stands from.now.forest t
        → OnOk result (out.new.items ≡ out.old.items ++ step_line t (step_data step.now)) }
{
    match step {
        KeptStep::Take(bucket, class) => { push_take(name_of(from, *bucket), class, out) }
        KeptStep::Choose {
            leaf,
            firstn,
            count,
            kind,
        } => { push_choice(*leaf, *firstn, *count, kind, out) }
        KeptStep::Set(name, value) => push_set(name, *value, out),
        KeptStep::Emit => out.extend_from_slice(b"\tstep emit\n"),
    }
}

/// Returns the name that the bucket has in the map, or an empty name if the map doesn't have the
/// bucket.
#[tactic(auto, unfolding(crate::specs::RuleLines::bucket_name))]
fn name_of<A: Allocator>(from: &CrushMap<A>, bucket: BucketId) -> &[u8]
    ensures { (t : List Row) → Stands from.now.forest t → result.now ≡ bucket_name t bucket }
{
    match from.name_of(ItemId::Bucket(bucket)) {
        Some(name) => name.as_bytes(),
        None => b"".as_slice(),
    }
}

#[tactic(auto, unfolding(crate::specs::RuleLines::take_line))]
fn push_take(name: &[u8], class: &Option<Name<Global>>, out: &mut Vec<u8>) -> Result<(), AllocError>
    ensures { OnOk result (out.new.items ≡ out.old.items ++ take_line name.now class.now) }
{
    push_all(&[b"\tstep take ".as_slice(), name], out)?;
    match class {
        Some(class) => push_all(
            &[b" class ".as_slice(), class.as_bytes(), b"\n".as_slice()],
            out,
        ),
        None => push_all(&[b"\n".as_slice()], out),
    }
}

/// Returns the words with which a `choose` step or a `chooseleaf` step begins.
#[tactic(auto, unfolding(crate::specs::RuleLines::choice_text))]
fn choice(leaf: bool, firstn: bool) -> &'static [u8]
    ensures { result.now ≡ choice_text leaf firstn }
{
    if leaf {
        if firstn {
            b"\tstep chooseleaf firstn ".as_slice()
        } else {
            b"\tstep chooseleaf indep ".as_slice()
        }
    } else if firstn {
        b"\tstep choose firstn ".as_slice()
    } else {
        b"\tstep choose indep ".as_slice()
    }
}

#[tactic(auto, unfolding(crate::specs::RuleLines::choose_line))]
fn push_choice(
    leaf: bool,
    firstn: bool,
    count: i32,
    kind: &Name<Global>,
    out: &mut Vec<u8>,
) -> Result<(), AllocError>
    ensures { OnOk result (out.new.items
        ≡ out.old.items ++ choose_line leaf firstn count kind.now) }
{
    out.extend_from_slice(choice(leaf, firstn))?;
    let mut buffer = Buffer::new();
    let count = buffer.format(count).as_bytes();
    push_all(
        &[
            count,
            b" type ".as_slice(),
            kind.as_bytes(),
            b"\n".as_slice(),
        ],
        out,
    )
}

#[tactic(auto, unfolding(crate::specs::RuleLines::set_line))]
fn push_set(name: &Name<Global>, value: u32, out: &mut Vec<u8>) -> Result<(), AllocError>
    ensures { OnOk result (out.new.items ≡ out.old.items ++ set_line name.now value) }
{
    let mut buffer = Buffer::new();
    let value = buffer.format(value).as_bytes();
    push_all(
        &[
            b"\tstep ".as_slice(),
            name.as_bytes(),
            b" ".as_slice(),
            value,
            b"\n".as_slice(),
        ],
        out,
    )
}
