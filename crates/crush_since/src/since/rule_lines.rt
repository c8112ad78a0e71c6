//! Appends the lines about rules.

ghost use Rattle.std.specs.Prelude.{◌≡◌, ◌++◌, OnOk, flat_map, length, get_or, ◌<◌, map as each};
ghost use Rattle.std.specs.Option.{option_map};
ghost use Rattle.crush_since.specs.Rules.{emptied_line, other_order, rule_change_line, rule_change_lines, rule_line, rule_takes, taken_word, weighs_nothing};
ghost use Rattle.crush_since.specs.RulesSeen.{rule_change_data};

use crate::since::rules::RuleChange;
use crush_print::words::push_all;
use std::alloc::AllocError;

/// Appends a line for each difference between the rules of two maps.
pub(crate) fn push_rule_lines<'a>(
    changes: &[RuleChange<'a>],
    out: &mut Vec<u8>,
) -> Result<(), AllocError>
    ensures { OnOk result (out.new.items ≡ out.old.items
        ++ rule_change_lines (each rule_change_data changes.now)) }
{
    for index in 0..changes.len() {
        let change = change_at(changes, index);
        push_change(*change, out)?;
    }
    Ok(())
}

fn push_change(change: RuleChange<'_>, out: &mut Vec<u8>) -> Result<(), AllocError>
    ensures { OnOk result (out.new.items ≡ out.old.items
        ++ rule_change_line (rule_change_data change.entry)) }
{
    match change {
        RuleChange::New(name) => push_rule_line(name, b" is new\n", out),
        RuleChange::Differs(name) => push_rule_line(name, b" differs\n", out),
        RuleChange::Gone(name) => push_rule_line(name, b" is gone\n", out),
        RuleChange::OtherOrder => push_other_order(out),
        RuleChange::TakesNothing {
            rule,
            bucket,
            class,
        } => push_emptied_line(rule, bucket, class, out),
    }
}

fn push_rule_line(name: &str, state: &[u8], out: &mut Vec<u8>) -> Result<(), AllocError>
    ensures { OnOk result (out.new.items ≡ out.old.items ++ rule_line name.now state.now) }
{
    push_all(&[b"rule ".as_slice(), name.as_bytes(), state], out)
}

#[tactic(auto, unfolding(crate::specs::Rules::other_order))]
fn push_other_order(out: &mut Vec<u8>) -> Result<(), AllocError>
    ensures { OnOk result (out.new.items ≡ out.old.items ++ other_order) }
{
    push_all(&[b"rules stand in another order\n".as_slice()], out)
}

fn push_emptied_line(
    rule: &str,
    bucket: &str,
    class: Option<&str>,
    out: &mut Vec<u8>,
) -> Result<(), AllocError>
    ensures { OnOk result (out.new.items ≡ out.old.items
        ++ emptied_line rule.now bucket.now (option_map (λ c. c.now) class.entry)) }
{
    push_takes(rule, out)?;
    push_taken(bucket, class, out)?;
    push_weighs_nothing(out)?;
    Ok(())
}

#[tactic(auto, unfolding(crate::specs::Rules::rule_takes))]
fn push_takes(rule: &str, out: &mut Vec<u8>) -> Result<(), AllocError>
    ensures { OnOk result (out.new.items ≡ out.old.items ++ rule_takes rule.now) }
{
    push_all(
        &[
            b"rule ".as_slice(),
            rule.as_bytes(),
            b" takes nothing: ".as_slice(),
        ],
        out,
    )
}

fn push_taken(bucket: &str, class: Option<&str>, out: &mut Vec<u8>) -> Result<(), AllocError>
    ensures { OnOk result (out.new.items ≡ out.old.items
        ++ taken_word bucket.now (option_map (λ c. c.now) class.entry)) }
{
    match class {
        Some(class) => push_all(&[bucket.as_bytes(), b"~".as_slice(), class.as_bytes()], out),
        None => push_all(&[bucket.as_bytes()], out),
    }
}

#[tactic(auto, unfolding(crate::specs::Rules::weighs_nothing))]
fn push_weighs_nothing(out: &mut Vec<u8>) -> Result<(), AllocError>
    ensures { OnOk result (out.new.items ≡ out.old.items ++ weighs_nothing) }
{
    push_all(&[b" weighs 0.00000\n".as_slice()], out)
}

fn change_at<'b, 'a>(changes: &'b [RuleChange<'a>], at: usize) -> &'b RuleChange<'a>
    requires { at < length changes.now }
    ensures { result.now ≡ get_or changes.now at result.now }
{
    &changes[at]
}
