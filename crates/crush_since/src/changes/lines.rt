//! Appends the text of the tree that shows what has changed: the heading, and a line for each row.

ghost use Rattle.std.specs.Prelude.{◌≡◌, ◌++◌, IfOk, OnOk, flat_map, map as each};
ghost use Rattle.std.specs.Option.{option_map};
ghost use Rattle.crush_since.specs.ChangeText.{change_line, heading, kind_and_name, name_column, name_word, rows_text, side_by_side, weight_or_dash as dashed, weights_column};
ghost use Rattle.crush_since.specs.ClassChangesSeen.{shown_change};
ghost use Rattle.crush_since.specs.SeenChange.{change_data};
ghost use Rattle.crush_items.specs.SeenItem.{seen_data};
ghost use Rattle.crush_print.specs.TreeText.{at_left, at_right};

use crate::changes::notes::push_brackets;
use crate::changes::of_class::{ClassWeights, shown_change};
use crate::changes::rows::TreeRow;
use crate::changes::seen::Change;
use crate::changes::weights::{class_bytes, weighed, weighs, weight_or_dash};
use crate::changes::widths::{ChangeWidths, widths_of};
use crate::since::seen::Seen;
use crush_compare::Comparison;
use crush_map::Setting;
use crush_print::columns::{push_left, push_right};
use crush_print::id_column;
use crush_print::words::{push_all, push_indent, push_kind, push_row};
use crush_units::{ItemId, Weight};
use std::alloc::{AllocError, Allocator, Global};

/// Appends the headings and the lines of the rows. If `weights` has the weights of a class, the
/// lines show these weights in place of the items' own weights.
#[tactic(auto, unfolding(crate::specs::ChangeText::rows_text))]
pub(super) fn push_rows<A: Allocator, B: Allocator>(
    alloc: Global,
    maps: &Comparison<'_, A, B>,
    weights: &Option<ClassWeights>,
    rows: &[TreeRow],
    out: &mut Vec<u8>,
) -> Result<(), AllocError>
    ensures { OnOk result (out.new.items ≡ out.old.items
        ++ rows_text maps.now.old.map.now.setting maps.now.new.map.now.setting
        (each (shown_change maps.now weights.now) rows.now)) }
{
    let widths = widths_of(alloc, maps, weights, rows)?;
    push_heading(alloc, &widths, out)?;
    push_lines(alloc, maps, weights, &widths, rows, out)
}

#[tactic(auto, unfolding(crate::specs::ChangeText::heading))]
fn push_heading(alloc: Global, widths: &ChangeWidths, out: &mut Vec<u8>) -> Result<(), AllocError>
    ensures { OnOk result (out.new.items ≡ out.old.items ++ heading widths.now) }
{
    let id = left_column(alloc, widths.id, b"ID")?;
    let class = left_column(alloc, widths.class, b"CLASS")?;
    let was = left_column(alloc, widths.was, b"WAS")?;
    let weight = left_column(alloc, widths.weight, b"WEIGHT")?;
    let weights = side_by_side(alloc, was.as_slice(), weight.as_slice())?;
    push_row(
        id.as_slice(),
        class.as_slice(),
        weights.as_slice(),
        b"TYPE NAME",
        out,
    )
}

fn push_lines<A: Allocator, B: Allocator>(
    alloc: Global,
    maps: &Comparison<'_, A, B>,
    weights: &Option<ClassWeights>,
    widths: &ChangeWidths,
    rows: &[TreeRow],
    out: &mut Vec<u8>,
) -> Result<(), AllocError>
    ensures { OnOk result (out.new.items ≡ out.old.items
        ++ flat_map (λ row. change_line maps.now.old.map.now.setting
        maps.now.new.map.now.setting widths.now (shown_change maps.now weights.now row)) rows.now) }
{
    for row in rows {
        push_row_of(alloc, maps, weights, widths, row, out)?;
    }
    Ok(())
}

fn push_row_of<A: Allocator, B: Allocator>(
    alloc: Global,
    maps: &Comparison<'_, A, B>,
    weights: &Option<ClassWeights>,
    widths: &ChangeWidths,
    row: &TreeRow,
    out: &mut Vec<u8>,
) -> Result<(), AllocError>
    ensures { OnOk result (out.new.items ≡ out.old.items
        ++ change_line maps.now.old.map.now.setting maps.now.new.map.now.setting
        widths.now (shown_change maps.now weights.now row.now)) }
{
    let change = shown_change(maps, weights, row);
    let layout = Layout {
        old: maps.old.map.setting(),
        new: maps.new.map.setting(),
        widths: *widths,
    };
    push_line(alloc, &layout, &change, out)
}

#[derive(Clone, Copy)]
struct Layout<'a> {
    old: &'a Setting,
    new: &'a Setting,
    widths: ChangeWidths,
}

#[tactic(auto, unfolding(crate::specs::ChangeText::change_line))]
fn push_line(
    alloc: Global,
    layout: &Layout<'_>,
    change: &Change<'_>,
    out: &mut Vec<u8>,
) -> Result<(), AllocError>
    ensures { OnOk result (out.new.items ≡ out.old.items
        ++ change_line layout.now.old.now layout.now.new.now layout.now.widths
        (change_data change.now)) }
{
    let id = id_column(alloc, layout.widths.id, change.id)?;
    let class = right_column(alloc, layout.widths.class, class_bytes(change))?;
    let weights = weights_column(alloc, &layout.widths, change)?;
    let name = name_column(alloc, layout.old, layout.new, change)?;
    push_row(
        id.as_slice(),
        class.as_slice(),
        weights.as_slice(),
        name.as_slice(),
        out,
    )
}

#[tactic(auto, unfolding(crate::specs::ChangeText::weights_column))]
fn weights_column(
    alloc: Global,
    widths: &ChangeWidths,
    change: &Change<'_>,
) -> Result<Vec<u8>, AllocError>
    ensures { IfOk result (λ column. column.items
        ≡ weights_column widths.now (change_data change.now)) }
{
    let was = weight_column(alloc, widths.was, weighed(change))?;
    let weight = weight_column(alloc, widths.weight, weighs(change))?;
    side_by_side(alloc, was.as_slice(), weight.as_slice())
}

#[tactic(auto, unfolding(crate::specs::ChangeText::name_column))]
fn name_column(
    alloc: Global,
    old: &Setting,
    new: &Setting,
    change: &Change<'_>,
) -> Result<Vec<u8>, AllocError>
    ensures { IfOk result (λ column. column.items
        ≡ name_column old.now new.now (change_data change.now)) }
{
    let mut column = Vec::new(alloc);
    push_indent(change.depth, &mut column)?;
    push_name(old, new, change, &mut column)?;
    push_brackets(alloc, old, new, change, &mut column)?;
    Ok(column)
}

/// Appends the type and the name of a row's item. They are those in the new map if the new map has
/// the item in this place, and otherwise those in the old map.
fn push_name(
    old: &Setting,
    new: &Setting,
    change: &Change<'_>,
    out: &mut Vec<u8>,
) -> Result<(), AllocError>
    ensures { OnOk result (out.new.items ≡ out.old.items
        ++ name_word old.now new.now (change_data change.now)) }
{
    if change.stands {
        push_kind_and_name(new, change.id, &change.after, out)
    } else {
        push_kind_and_name(old, change.id, &change.before, out)
    }
}

/// Appends the type and the name of an item. Appends nothing if there is no item.
fn push_kind_and_name(
    setting: &Setting,
    id: ItemId,
    item: &Option<Seen<'_>>,
    out: &mut Vec<u8>,
) -> Result<(), AllocError>
    ensures { OnOk result (out.new.items ≡ out.old.items
        ++ kind_and_name setting.now id (option_map seen_data item.now)) }
{
    match item {
        Some(item) => {
            push_kind(setting, id, item.view.kind, out)?;
            push_all(&[item.view.name.as_bytes()], out)
        }
        None => Ok(()),
    }
}

fn weight_column(alloc: Global, width: usize, weight: Option<Weight>) -> Result<Vec<u8>, AllocError>
    ensures { IfOk result (λ column. column.items ≡ at_right width (dashed weight)) }
{
    let word = weight_or_dash(alloc, weight)?;
    right_column(alloc, width, word.as_slice())
}

fn right_column(alloc: Global, width: usize, word: &[u8]) -> Result<Vec<u8>, AllocError>
    ensures { IfOk result (λ column. column.items ≡ at_right width word.now) }
{
    let mut column = Vec::new(alloc);
    push_right(width, word, &mut column)?;
    Ok(column)
}

fn left_column(alloc: Global, width: usize, word: &[u8]) -> Result<Vec<u8>, AllocError>
    ensures { IfOk result (λ column. column.items ≡ at_left width word.now) }
{
    let mut column = Vec::new(alloc);
    push_left(width, word, &mut column)?;
    Ok(column)
}

fn side_by_side(alloc: Global, first: &[u8], second: &[u8]) -> Result<Vec<u8>, AllocError>
    ensures { IfOk result (λ columns. columns.items ≡ side_by_side first.now second.now) }
{
    let mut columns = Vec::new(alloc);
    push_all(&[first, b"  ".as_slice(), second], &mut columns)?;
    Ok(columns)
}
