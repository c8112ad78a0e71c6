//! The tree of what has changed from one map to another, as text.

ghost use Rattle.std.specs.Prelude.{◌≡◌, ◌++◌, List, OnOk, IfOk, map as each};
ghost use Rattle.std.specs.Io.KnownBytes.{Keeps};
ghost use Rattle.crush_units.specs.Writes.{Writes};
ghost use Rattle.crush_model.specs.Stands.{Stands};
ghost use Rattle.crush_model.specs.Table.{Row};
ghost use Rattle.crush_since.specs.ChangePart.{AllChangesAreAPart, changes_part_text, lines_behind, part_rows};
ghost use Rattle.crush_since.specs.ClassChanges.{class_changes_text};
ghost use Rattle.crush_since.specs.SeenChange.{AreTables, row_change};
ghost use Rattle.crush_since.specs.Since.{plain_map};
ghost use Rattle.crush_since.specs.SinceLaws.{NoRowSinceItself};

mod both;
mod buckets;
mod left;
mod lines;
mod notes;
mod of_class;
mod part;
mod rows;
mod seen;
mod weights;
mod widths;

use crate::since::counting::count_changes;
use crate::since::push_last;
use both::Both;
use crush_map::CrushMap;
use crush_print::TreePart;
use crush_units::{ItemId, WriteFault, put};
use lines::push_rows;
use of_class::{ClassWeights, rows_of_class};
use part::part_of;
use rows::{TreeRow, rows_of};
use std::alloc::{AllocError, Allocator, Global};
use std::io::Write;

/// Writes the tree of what has changed from the old map to the new map, or a part of this tree.
///
/// An item of the new map has a row if [`write_since`](crate::write_since) writes a line for the
/// item, or if any row is below the item. The tree also has rows for items in places where only the
/// old map has them. If a bucket held an item in the old map, and doesn't hold the item in the new
/// map, then the tree has a row for the item below this bucket, after the rows of the items that
/// the bucket holds in the new map. If a bucket was a root only in the old map, its row follows
/// after the rows of the new map's roots and of the items below them. If a device was unplaced only
/// in the old map, its row follows after the rows of the new map's unplaced devices.
///
/// Suppose that such a row is for a bucket that the new map doesn't have at all. Then a row for
/// each item that this bucket held in the old map follows. If one of these items is itself a bucket
/// that the new map doesn't have, then rows for the items that this bucket held follow after its
/// row, and so on.
///
/// Each row has two weights: the weight that the item had in this place in the old map, and the
/// weight that the item has in this place in the new map. If the item wasn't in this place in the
/// old map, or isn't in this place in the new map, the line has a `-` in place of this weight.
/// After the rows come the lines that `write_since` writes after its lines about items.
///
/// If the part has a top item, the text has only the headings, the row of this item with the depth
/// 0, and the rows below this row. The top item may have two rows in the whole tree: one in the
/// place where the old map had the item, and one in the place where the new map has it. Then the
/// part begins with the row in the new place. If the part has a type `down_to`, the rows below each
/// bucket of this type are left out. The bucket's own row stays, even if only the rows below the
/// bucket differ. The columns are as wide as the rows of the part need.
///
/// If a write fails, the writer has received a beginning of the text, but not the whole text. If
/// memory runs out, nothing is written.
pub fn write_changes<A: Allocator, B: Allocator, W: Write>(
    alloc: Global,
    old: &CrushMap<A>,
    new: &CrushMap<B>,
    part: TreePart,
    out: &mut W,
) -> Result<(), WriteFault>
    ensures writes { (t u : List Row) → Stands old.now.forest t → Stands new.now.forest u
        → Writes result (W.contents out.old) (W.contents out.new)
        (changes_part_text part (plain_map old.now.setting t) (plain_map new.now.setting u)) }
    ensures none { result ≡ Err WriteFault.OutOfMemory
        → Keeps (W.contents out.old) (W.contents out.new) }
{
    let mut text = Vec::new(alloc);
    match push_changes(alloc, old, new, &part, &mut text) {
        Ok(()) => put(out, text.as_slice()),
        Err(_) => Err(WriteFault::OutOfMemory),
    }
}

/// Writes the tree of [`write_changes`], or a part of this tree, but only the weights of the
/// devices of one class count.
///
/// Each weight in a row counts only devices of the class: it is the sum of the weights of those
/// that are the row's item or are below this item. The weight is 0 if there is no such device, and
/// `-` if the item wasn't or isn't in the row's place. A row of `write_changes` is left out if in
/// neither map the row's item is a device of the class or has such a device below it. But a row
/// stays if it is above a row that stays. The lines after the rows are those of `write_changes`,
/// and count all devices.
///
/// If a write fails, the writer has received a beginning of the text, but not the whole text. If
/// memory runs out, nothing is written.
pub fn write_changes_of_class<A: Allocator, B: Allocator, W: Write>(
    alloc: Global,
    old: &CrushMap<A>,
    new: &CrushMap<B>,
    part: TreePart,
    class: &str,
    out: &mut W,
) -> Result<(), WriteFault>
    ensures writes { (t u : List Row) → Stands old.now.forest t → Stands new.now.forest u
        → Writes result (W.contents out.old) (W.contents out.new)
        (class_changes_text part class.now (plain_map old.now.setting t)
        (plain_map new.now.setting u)) }
    ensures none { result ≡ Err WriteFault.OutOfMemory
        → Keeps (W.contents out.old) (W.contents out.new) }
{
    let mut text = Vec::new(alloc);
    match push_class_changes(alloc, old, new, &part, class, &mut text) {
        Ok(()) => put(out, text.as_slice()),
        Err(_) => Err(WriteFault::OutOfMemory),
    }
}

/// If a map is compared with itself, and its table is lawful (definition `Lawful` of crush_model),
/// the tree has no row. The text has only the headings, the line with the map's total weight, and
/// the line with counts that are all 0.
pub fn no_row_changes_since_itself()
    ensures { NoRowSinceItself }
{}

/// A part that has neither a top item nor a type is the whole tree of what has changed.
pub fn all_changes_are_a_part()
    ensures { AllChangesAreAPart }
{}

#[tactic(auto, unfolding(crate::specs::ChangePart::changes_part_text))]
fn push_changes<'a, A: Allocator, B: Allocator>(
    alloc: Global,
    old: &'a CrushMap<A>,
    new: &'a CrushMap<B>,
    part: &TreePart,
    out: &mut Vec<u8>,
) -> Result<(), AllocError>
    ensures { (t u : List Row) → Stands old.now.forest t → Stands new.now.forest u
        → OnOk result (out.new.items ≡ out.old.items
        ++ changes_part_text part.now (plain_map old.now.setting t) (plain_map new.now.setting u)) }
{
    let both = Both::of(alloc, old, new)?;
    let rows = part_rows(alloc, &both, part)?;
    push_rows(alloc, &both.maps, &None, rows.as_slice(), out)?;
    push_behind(alloc, old, new, &part.under, out)
}

#[tactic(auto, unfolding(crate::specs::ClassChanges::class_changes_text))]
fn push_class_changes<'a, A: Allocator, B: Allocator>(
    alloc: Global,
    old: &'a CrushMap<A>,
    new: &'a CrushMap<B>,
    part: &TreePart,
    class: &str,
    out: &mut Vec<u8>,
) -> Result<(), AllocError>
    ensures { (t u : List Row) → Stands old.now.forest t → Stands new.now.forest u
        → OnOk result (out.new.items ≡ out.old.items
        ++ class_changes_text part.now class.now (plain_map old.now.setting t)
        (plain_map new.now.setting u)) }
{
    let both = Both::of(alloc, old, new)?;
    let rows = part_rows(alloc, &both, part)?;
    let weights = ClassWeights::of(alloc, &both, class)?;
    let rows = rows_of_class(alloc, &weights, rows.as_slice())?;
    push_rows(alloc, &both.maps, &Some(weights), rows.as_slice(), out)?;
    push_behind(alloc, old, new, &part.under, out)
}

/// Returns the rows of the part.
fn part_rows<A: Allocator, B: Allocator>(
    alloc: Global,
    both: &Both<'_, A, B>,
    part: &TreePart,
) -> Result<Vec<TreeRow>, AllocError>
    ensures { IfOk result (λ rows. (t u : List Row) → AreTables t u both.now
        → each (row_change both.now.maps) rows.items
        ≡ part_rows part.now (plain_map both.now.maps.old.map.now.setting t)
        (plain_map both.now.maps.new.map.now.setting u)) }
{
    let rows = rows_of(alloc, both)?;
    part_of(alloc, &both.maps, rows, part)
}

/// Appends the lines that follow after the rows. If the part has a top item, appends nothing.
fn push_behind<A: Allocator, B: Allocator>(
    alloc: Global,
    old: &CrushMap<A>,
    new: &CrushMap<B>,
    under: &Option<ItemId>,
    out: &mut Vec<u8>,
) -> Result<(), AllocError>
    ensures { (t u : List Row) → Stands old.now.forest t → Stands new.now.forest u
        → OnOk result (out.new.items ≡ out.old.items
        ++ lines_behind under.now (plain_map old.now.setting t) (plain_map new.now.setting u)) }
{
    match under {
        Some(_) => Ok(()),
        None => {
            let counts = count_changes(alloc, old, new)?;
            push_last(old, new, &counts, out)
        }
    }
}
