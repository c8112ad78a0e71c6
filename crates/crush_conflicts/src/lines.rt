//! Writes the line of an item with lost changes. The functions fail only if memory runs out.

ghost use Rattle.std.specs.Prelude.{◌≡◌, ◌++◌, List, OnOk, flat_map};
ghost use Rattle.crush_model.specs.Stands.{Stands};
ghost use Rattle.crush_model.specs.Table.{Row};
ghost use Rattle.crush_conflicts.specs.Cases.{lost_aspects};
ghost use Rattle.crush_conflicts.specs.CasesSeen.{case_data, found_data};
ghost use Rattle.crush_conflicts.specs.Lines.{case_line, end_text, end_values, line, operator_text, operator_values, told_operator};

use crate::aspects::Aspects;
use crate::cases::{Case, Found};
use crate::values::{Naming, joined};
use crush_print::words::push_all;
use std::alloc::{AllocError, Allocator, Global};

/// Appends the line of an item if at least one operator has lost a change of this item. Otherwise
/// appends nothing.
pub(crate) fn push_case<'a, A: Allocator>(
    alloc: Global,
    naming: &Naming<'_, 'a, A>,
    case: &Case<'_, 'a, A>,
    lines: &mut Vec<u8>,
) -> Result<(), AllocError>
    ensures { (t : List Row) → Stands naming.now.known.now t
        → OnOk result (lines.new.items ≡ lines.old.items
        ++ case_line naming.now.setting.now t (case_data case.now)) }
{
    let lost = case.lost_aspects(naming.known);
    if lost.is_some() {
        push_line(alloc, naming, lost, case, lines)
    } else {
        Ok(())
    }
}

#[tactic(auto, unfolding(crate::specs::Lines::line))]
fn push_line<'a, A: Allocator>(
    alloc: Global,
    naming: &Naming<'_, 'a, A>,
    lost: Aspects,
    case: &Case<'_, 'a, A>,
    lines: &mut Vec<u8>,
) -> Result<(), AllocError>
    ensures { (t : List Row) → Stands naming.now.known.now t
        → lost ≡ lost_aspects t (case_data case.now)
        → OnOk result (lines.new.items ≡ lines.old.items
        ++ line naming.now.setting.now t (case_data case.now)) }
{
    let mut operators = Vec::new(alloc);
    push_operators(alloc, naming, lost, case, &mut operators)?;
    push_all(
        &[
            case.name.as_bytes(),
            b": ".as_slice(),
            joined(operators.as_slice()),
        ],
        lines,
    )?;
    push_end(alloc, naming, lost, case, lines)?;
    push_all(&[b"\n".as_slice()], lines)
}

/// Appends `; `, the operator's name, `: ` and the operator's values, for each operator for which
/// the item's line shows at least one value.
fn push_operators<'a, A: Allocator>(
    alloc: Global,
    naming: &Naming<'_, 'a, A>,
    lost: Aspects,
    case: &Case<'_, 'a, A>,
    text: &mut Vec<u8>,
) -> Result<(), AllocError>
    ensures { (t : List Row) → Stands naming.now.known.now t
        → lost ≡ lost_aspects t (case_data case.now)
        → OnOk result (text.new.items ≡ text.old.items
        ++ flat_map (operator_text naming.now.setting.now t (case_data case.now))
        (case_data case.now).alone) }
{
    let alone = case.alone.as_slice();
    for found in alone {
        let told = case.told_of(naming.known, lost, found);
        push_if_told(alloc, naming, told, found, text)?;
    }
    Ok(())
}

fn push_if_told<'a, A: Allocator>(
    alloc: Global,
    naming: &Naming<'_, 'a, A>,
    told: Aspects,
    found: &Found<'_, 'a, A>,
    text: &mut Vec<u8>,
) -> Result<(), AllocError>
    ensures { (t : List Row) → Stands naming.now.known.now t
        → OnOk result (text.new.items ≡ text.old.items
        ++ told_operator naming.now.setting.now t told (found_data found.now)) }
{
    if told.is_some() {
        push_operator(alloc, naming, told, found, text)
    } else {
        Ok(())
    }
}

#[tactic(auto, unfolding(crate::specs::Lines::operator_values))]
fn push_operator<'a, A: Allocator>(
    alloc: Global,
    naming: &Naming<'_, 'a, A>,
    told: Aspects,
    found: &Found<'_, 'a, A>,
    text: &mut Vec<u8>,
) -> Result<(), AllocError>
    ensures { (t : List Row) → Stands naming.now.known.now t
        → OnOk result (text.new.items ≡ text.old.items
        ++ operator_values naming.now.setting.now t told (found_data found.now)) }
{
    let mut values = Vec::new(alloc);
    let item = found.seen();
    naming.push_values(told, &item, &mut values)?;
    push_all(
        &[
            b"; ".as_slice(),
            found.name.as_bytes(),
            b": ".as_slice(),
            joined(values.as_slice()),
        ],
        text,
    )
}

/// Appends `; in the end: ` and the values of the item after the run. If this item has one of the
/// values that the line shows for an operator, appends nothing.
fn push_end<'a, A: Allocator>(
    alloc: Global,
    naming: &Naming<'_, 'a, A>,
    lost: Aspects,
    case: &Case<'_, 'a, A>,
    text: &mut Vec<u8>,
) -> Result<(), AllocError>
    ensures { (t : List Row) → Stands naming.now.known.now t
        → lost ≡ lost_aspects t (case_data case.now)
        → OnOk result (text.new.items ≡ text.old.items
        ++ end_text naming.now.setting.now t (case_data case.now)) }
{
    if case.is_some_kept(naming.known, lost) {
        Ok(())
    } else {
        push_end_values(alloc, naming, lost, case, text)
    }
}

#[tactic(auto, unfolding(crate::specs::Lines::end_values))]
fn push_end_values<'a, A: Allocator>(
    alloc: Global,
    naming: &Naming<'_, 'a, A>,
    lost: Aspects,
    case: &Case<'_, 'a, A>,
    text: &mut Vec<u8>,
) -> Result<(), AllocError>
    ensures { (t : List Row) → Stands naming.now.known.now t
        → lost ≡ lost_aspects t (case_data case.now)
        → OnOk result (text.new.items ≡ text.old.items
        ++ end_values naming.now.setting.now t (case_data case.now)) }
{
    let mut values = Vec::new(alloc);
    naming.push_values(case.told_at_end(lost), &case.after, &mut values)?;
    push_all(
        &[b"; in the end: ".as_slice(), joined(values.as_slice())],
        text,
    )
}
