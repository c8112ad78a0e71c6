//! Writes the tree of a map, or a part of it, as text in columns.

ghost use Rattle.std.specs.Prelude.{◌≡◌, ◌++◌, [], List, OnOk, IfOk, length, max, flat_map, unwrap_or, map as each};
ghost use Rattle.std.specs.Option.{option_map};
ghost use Rattle.std.specs.Io.KnownBytes.{Keeps};
ghost use Rattle.crush_units.specs.Writes.{Writes};
ghost use Rattle.crush_nodes.specs.SeenView.{view_data};
ghost use Rattle.crush_print.specs.Lines.{id_text};
ghost use Rattle.crush_model.specs.Stands.{Stands};
ghost use Rattle.crush_model.specs.Table.{Row};
ghost use Rattle.crush_units.specs.Weight.{weight_text};
ghost use Rattle.crush_print.specs.ClassTree.{class_tree_text};
ghost use Rattle.crush_print.specs.TreeLine.{line_data};
ghost use Rattle.crush_print.specs.TreePart.{WholeTreeIsAPart, tree_part_text};
ghost use Rattle.crush_print.specs.TreeText.{SameTablesHaveOneTree, at_right, heading, indent, kind_prefix, step_line, steps_text, tree_text, widths_of};

use crate::classes::weights_under;
use crate::columns::{push_left, push_right};
use crate::part::{TreePart, walk_part, walk_under};
use crate::steps::walk;
use crate::tree_line::{TreeLine, lines_of, weighed_lines};
use crate::words::{bytes_of, push_id, push_indent, push_kind, push_row, push_weight};
use crush_map::{CrushMap, Setting};
use crush_tree::View;
use crush_units::{ItemId, Weight, WriteFault, put};
use std::alloc::{AllocError, Allocator, Global};
use std::io::Write;

/// The widths, in bytes, of the three columns before the column of the names.
#[derive(Clone, Copy, Debug)]
pub(crate) struct Widths {
    pub id: usize,
    pub class: usize,
    pub weight: usize,
}

/// Writes the tree of a map as text: a heading, and a line for each item in the order of [`walk`].
/// The whole text is created in memory before anything is written. If this fails with
/// `OutOfMemory`, nothing is written. After any other fault, a proper prefix of the text has been
/// written: the text from its beginning up to some byte before its end.
pub fn write_tree<A: Allocator, W: Write>(
    alloc: Global,
    map: &CrushMap<A>,
    out: &mut W,
) -> Result<(), WriteFault>
    ensures writes { (t : List Row) → Stands map.now.forest t
        → Writes result (W.contents out.old) (W.contents out.new) (tree_text map.now.setting t) }
    ensures none { result ≡ Err WriteFault.OutOfMemory
        → Keeps (W.contents out.old) (W.contents out.new) }
{
    let mut text = Vec::new(alloc);
    if push_tree(alloc, map, &mut text).is_err() {
        return Err(WriteFault::OutOfMemory);
    }
    put(out, text.as_slice())
}

/// Writes a part of the tree of a map as text: a heading, and a line for each item in the order of
/// [`walk_part`]. After the fault `OutOfMemory`, nothing has been written. After any other fault, a
/// proper prefix of the text has been written (see [`write_tree`]).
pub fn write_tree_part<A: Allocator, W: Write>(
    alloc: Global,
    map: &CrushMap<A>,
    part: TreePart,
    out: &mut W,
) -> Result<(), WriteFault>
    ensures writes { (t : List Row) → Stands map.now.forest t → Writes result
        (W.contents out.old) (W.contents out.new) (tree_part_text map.now.setting part t) }
    ensures none { result ≡ Err WriteFault.OutOfMemory
        → Keeps (W.contents out.old) (W.contents out.new) }
{
    let mut text = Vec::new(alloc);
    if push_part(alloc, map, part, &mut text).is_err() {
        return Err(WriteFault::OutOfMemory);
    }
    put(out, text.as_slice())
}

/// Writes a part of the tree of a map as [`write_tree_part`] does, but counts only the devices of
/// one class. The weight in an item's line is the sum of the weights of all devices of the class
/// that are the item itself or below it. An item without such a device has no line. After the fault
/// `OutOfMemory`, nothing has been written. After any other fault, a proper prefix of the text has
/// been written (see [`write_tree`]).
pub fn write_tree_of_class<A: Allocator, W: Write>(
    alloc: Global,
    map: &CrushMap<A>,
    part: TreePart,
    class: &str,
    out: &mut W,
) -> Result<(), WriteFault>
    ensures writes { (t : List Row) → Stands map.now.forest t → Writes result
        (W.contents out.old) (W.contents out.new) (class_tree_text map.now.setting part class.now t) }
    ensures none { result ≡ Err WriteFault.OutOfMemory
        → Keeps (W.contents out.old) (W.contents out.new) }
{
    let mut text = Vec::new(alloc);
    if push_class_tree(alloc, map, part, class, &mut text).is_err() {
        return Err(WriteFault::OutOfMemory);
    }
    put(out, text.as_slice())
}

/// Proves that the part [`TreePart::whole`] is the whole tree. Does nothing at run time.
pub fn whole_tree_is_a_part()
    ensures { WholeTreeIsAPart }
{}

/// Proves that two lawful tables with the same rows have the same tree text for each setting, even
/// if their rows are in different orders. (A table is a list with one row for each item of a map.)
/// Does nothing at run time.
pub fn same_tables_have_one_tree()
    ensures { SameTablesHaveOneTree }
{}

#[tactic(auto, unfolding(crate::specs::TreeText::tree_text))]
fn push_tree<A: Allocator>(
    alloc: Global,
    map: &CrushMap<A>,
    out: &mut Vec<u8>,
) -> Result<(), AllocError>
    ensures { (t : List Row) → Stands map.now.forest t
        → OnOk result (out.new.items ≡ out.old.items ++ tree_text map.now.setting t) }
{
    let steps = walk(alloc, map)?;
    let lines = lines_of(alloc, steps.as_slice())?;
    push_text(alloc, map.setting(), lines.as_slice(), out)
}

#[tactic(auto, unfolding(crate::specs::TreePart::tree_part_text))]
fn push_part<A: Allocator>(
    alloc: Global,
    map: &CrushMap<A>,
    part: TreePart,
    out: &mut Vec<u8>,
) -> Result<(), AllocError>
    ensures { (t : List Row) → Stands map.now.forest t
        → OnOk result (out.new.items ≡ out.old.items ++ tree_part_text map.now.setting part t) }
{
    let steps = walk_part(alloc, map, part)?;
    let lines = lines_of(alloc, steps.as_slice())?;
    push_text(alloc, map.setting(), lines.as_slice(), out)
}

#[tactic(auto, unfolding(crate::specs::ClassTree::class_steps, crate::specs::ClassTree::class_tree_text, crate::specs::TreePart::part_steps))]
fn push_class_tree<A: Allocator>(
    alloc: Global,
    map: &CrushMap<A>,
    part: TreePart,
    class: &str,
    out: &mut Vec<u8>,
) -> Result<(), AllocError>
    ensures { (t : List Row) → Stands map.now.forest t
        → OnOk result (out.new.items ≡ out.old.items ++ class_tree_text map.now.setting part class.now t) }
{
    let steps = walk_under(alloc, map, part.under)?;
    let weights = weights_under(alloc, map, part.under, class)?;
    let lines = weighed_lines(alloc, steps.as_slice(), weights.as_slice(), part.down_to)?;
    push_text(alloc, map.setting(), lines.as_slice(), out)
}

#[tactic(auto, unfolding(crate::specs::TreeText::steps_text))]
fn push_text(
    alloc: Global,
    setting: &Setting,
    lines: &[TreeLine<'_>],
    out: &mut Vec<u8>,
) -> Result<(), AllocError>
    ensures { OnOk result (out.new.items ≡ out.old.items
        ++ steps_text setting.now (each line_data lines.now)) }
{
    let widths = widths_of(alloc, lines)?;
    push_heading(alloc, &widths, out)?;
    push_lines(alloc, setting, &widths, lines, out)
}

fn push_lines(
    alloc: Global,
    setting: &Setting,
    widths: &Widths,
    lines: &[TreeLine<'_>],
    out: &mut Vec<u8>,
) -> Result<(), AllocError>
    ensures { OnOk result (out.new.items ≡ out.old.items
        ++ flat_map (λ l. step_line setting.now widths.now (line_data l)) lines.now) }
{
    for line in lines {
        push_line(alloc, setting, widths, line, out)?;
    }
    Ok(())
}

#[tactic(auto, unfolding(crate::specs::TreeText::step_line))]
fn push_line(
    alloc: Global,
    setting: &Setting,
    widths: &Widths,
    line: &TreeLine<'_>,
    out: &mut Vec<u8>,
) -> Result<(), AllocError>
    ensures { OnOk result (out.new.items ≡ out.old.items
        ++ step_line setting.now widths.now (line_data line.now)) }
{
    let view = &line.view;
    let id = id_column(alloc, widths.id, view.id)?;
    let class = class_column(alloc, widths.class, view.class)?;
    let weight = weight_column(alloc, widths.weight, view.weight)?;
    let name = name_column(alloc, setting, line.depth, view)?;
    push_row(
        id.as_slice(),
        class.as_slice(),
        weight.as_slice(),
        name.as_slice(),
        out,
    )
}

/// Returns spaces and then the printed id, so that both together fill a column of this width in
/// bytes. If the id is longer than the column, returns the whole id without spaces. Fails only if
/// memory runs out.
pub fn id_column(alloc: Global, width: usize, id: ItemId) -> Result<Vec<u8>, AllocError>
    ensures { IfOk result (λ column. column.items ≡ at_right width (id_text id)) }
{
    let mut word = Vec::new(alloc);
    push_id(id, &mut word)?;
    let mut column = Vec::new(alloc);
    push_right(width, word.as_slice(), &mut column)?;
    Ok(column)
}

fn class_column(alloc: Global, width: usize, class: Option<&str>) -> Result<Vec<u8>, AllocError>
    ensures { IfOk result (λ column. column.items
        ≡ at_right width (unwrap_or (option_map (λ c. c.now) class.entry) [])) }
{
    let mut column = Vec::new(alloc);
    push_right(width, bytes_of(class), &mut column)?;
    Ok(column)
}

fn weight_column(alloc: Global, width: usize, weight: Weight) -> Result<Vec<u8>, AllocError>
    ensures { IfOk result (λ column. column.items ≡ at_right width (weight_text weight)) }
{
    let mut word = Vec::new(alloc);
    push_weight(weight, &mut word)?;
    let mut column = Vec::new(alloc);
    push_right(width, word.as_slice(), &mut column)?;
    Ok(column)
}

/// Returns the words of the last column: the indent, the name of the type if the item is a bucket,
/// and the name of the item.
fn name_column(
    alloc: Global,
    setting: &Setting,
    depth: u32,
    view: &View<'_>,
) -> Result<Vec<u8>, AllocError>
    ensures { IfOk result (λ column. column.items ≡ indent depth
        ++ kind_prefix setting.now (view_data view.now).id (view_data view.now).kind
        ++ (view_data view.now).name) }
{
    let mut column = Vec::new(alloc);
    push_indent(depth, &mut column)?;
    push_kind(setting, view.id, view.kind, &mut column)?;
    column.extend_from_slice(view.name.as_bytes())?;
    Ok(column)
}

#[tactic(auto, unfolding(crate::specs::TreeText::heading))]
fn push_heading(alloc: Global, widths: &Widths, out: &mut Vec<u8>) -> Result<(), AllocError>
    ensures { OnOk result (out.new.items ≡ out.old.items ++ heading widths.now) }
{
    let mut id = Vec::new(alloc);
    push_left(widths.id, b"ID", &mut id)?;
    let mut class = Vec::new(alloc);
    push_left(widths.class, b"CLASS", &mut class)?;
    let mut weight = Vec::new(alloc);
    push_left(widths.weight, b"WEIGHT", &mut weight)?;
    push_row(
        id.as_slice(),
        class.as_slice(),
        weight.as_slice(),
        b"TYPE NAME",
        out,
    )
}

/// Returns the greater of two numbers of bytes: `width` and the length of the word.
pub fn wider(width: usize, word: &[u8]) -> usize
    ensures { result ≡ max width (length word.now) }
{
    width.max(word.len())
}

/// Returns the greater of two numbers of bytes: `width` and the length of the printed id. Fails
/// only if memory runs out.
pub fn wider_id(alloc: Global, width: usize, id: ItemId) -> Result<usize, AllocError>
    ensures { IfOk result (λ wider. wider ≡ max width (length (id_text id))) }
{
    let mut word = Vec::new(alloc);
    push_id(id, &mut word)?;
    Ok(wider(width, word.as_slice()))
}

fn wider_weight(alloc: Global, width: usize, weight: Weight) -> Result<usize, AllocError>
    ensures { IfOk result (λ wider. wider ≡ max width (length (weight_text weight))) }
{
    let mut word = Vec::new(alloc);
    push_weight(weight, &mut word)?;
    Ok(wider(width, word.as_slice()))
}

/// Returns the smallest widths of the columns in which the headings and the words of all lines fit.
fn widths_of(alloc: Global, lines: &[TreeLine<'_>]) -> Result<Widths, AllocError>
    ensures { IfOk result (λ widths. widths ≡ widths_of (each line_data lines.now)) }
{
    let mut id = 2;
    let mut class = 5;
    let mut weight = 6;
    for line in lines {
        let view = &line.view;
        id = wider_id(alloc, id, view.id)?;
        class = wider(class, bytes_of(view.class));
        weight = wider_weight(alloc, weight, view.weight)?;
    }
    Ok(Widths { id, class, weight })
}
