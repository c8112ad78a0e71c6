//! Writes what has changed from one map to another, with one line for each item that differs.

ghost use Rattle.std.specs.Prelude.{◌≡◌, ◌++◌, List, OnOk};
ghost use Rattle.std.specs.Io.KnownBytes.{Keeps};
ghost use Rattle.crush_units.specs.Writes.{Writes};
ghost use Rattle.crush_model.specs.Stands.{Stands};
ghost use Rattle.crush_model.specs.Table.{Row};
ghost use Rattle.crush_since.specs.Since.{plain_map, last_lines, since_text};
ghost use Rattle.crush_since.specs.SinceLaws.{NothingSinceItself, NoItemWhereRowsAreEqual};

mod beside;
mod changed;
mod class_lines;
mod classes;
mod collected;
pub(crate) mod columns;
pub(crate) mod counting;
mod emptied;
pub(crate) mod listed;
mod pairs;
mod part;
pub(crate) mod parts;
mod rule_lines;
mod rules;
mod rules_by_name;
pub(crate) mod seen;
mod settings;
mod taken;
mod tally;
mod words;

use beside::push_lines_beside;
pub(crate) use beside::push_lines_beside_part;
pub use changed::{is_changed, is_part_changed};
pub use classes::{ClassChange, class_changes};
pub use columns::{same_algs, same_class, same_class_ids};
pub use counting::count_changes;
use crush_compare::{Comparison, Identity};
use crush_map::CrushMap;
use crush_units::{WriteFault, put};
pub use emptied::bucket_named;
use pairs::push_lines;
pub use part::since_part_text;
pub(crate) use parts::push_part;
pub use rules::{RuleChange, rule_changes};
pub(crate) use rules_by_name::same_named_rules;
pub use seen::Seen;
pub(crate) use settings::same_step;
pub use settings::{same_kinds, same_rules, same_tunables};
use std::alloc::{AllocError, Allocator, Global};
use std::io::Write;
pub use tally::Tally;
pub(crate) use tally::{is_made, is_reclassed, is_reweighed};
pub(crate) use words::{alg_bytes, push_counts, push_totals, push_with_class, weight_of};
pub use words::{class_bytes, type_bytes};

/// Writes what has changed from the old map to the new map. The items of the two maps are matched
/// by their ids. The output begins with a line for each item that differs: first the buckets by id
/// from -1 downward, and then the devices by ascending id. After these lines there may be a line
/// that says that the tunables differ, and a line that says that the types differ. Tunables also
/// differ if they are in different orders. The lines about rules and the lines about classes
/// follow. The second-to-last line has the total weight of each map, which is the sum of the
/// weights of all devices that a bucket holds. The last line has, for each kind of difference, the
/// number of items that have it. If a write fails, the writer has received a beginning of the text,
/// but not the whole text. If memory runs out, nothing is written.
pub fn write_since<A: Allocator, B: Allocator, W: Write>(
    alloc: Global,
    old: &CrushMap<A>,
    new: &CrushMap<B>,
    out: &mut W,
) -> Result<(), WriteFault>
    ensures writes { (t u : List Row) → Stands old.now.forest t → Stands new.now.forest u
        → Writes result (W.contents out.old) (W.contents out.new)
        (since_text (plain_map old.now.setting t) (plain_map new.now.setting u)) }
    ensures none { result ≡ Err WriteFault.OutOfMemory
        → Keeps (W.contents out.old) (W.contents out.new) }
{
    let mut text = Vec::new(alloc);
    match push_since(alloc, old, new, &mut text) {
        Ok(()) => put(out, text.as_slice()),
        Err(_) => Err(WriteFault::OutOfMemory),
    }
}

/// If a map is compared with itself, the text of [`write_since`] has only its last two lines: the
/// line with the map's total weight, and the line with counts that are all 0.
pub fn nothing_changes_since_itself()
    ensures { NothingSinceItself }
{}

/// If the tables of two maps are lawful (definition `Lawful` of crush_model), then [`write_since`]
/// writes no line about an item if and only if the two tables have equal rows. A table has a row
/// for each item of its map. The order of the rows doesn't matter.
pub fn no_item_is_told_where_rows_are_equal()
    ensures { NoItemWhereRowsAreEqual }
{}

fn push_since<A: Allocator, B: Allocator>(
    alloc: Global,
    old: &CrushMap<A>,
    new: &CrushMap<B>,
    out: &mut Vec<u8>,
) -> Result<(), AllocError>
    ensures { (t u : List Row) → Stands old.now.forest t → Stands new.now.forest u
        → OnOk result (out.new.items ≡ out.old.items
        ++ since_text (plain_map old.now.setting t) (plain_map new.now.setting u)) }
{
    let both = Comparison::by_ids(alloc, old, new)?;
    push_lines(&both, out)?;
    push_last(old, new, &Tally::of(&both), out)
}

pub(crate) fn push_last<A: Allocator, B: Allocator>(
    old: &CrushMap<A>,
    new: &CrushMap<B>,
    counts: &Tally,
    out: &mut Vec<u8>,
) -> Result<(), AllocError>
    ensures { (t u : List Row) → Stands old.now.forest t → Stands new.now.forest u
        → OnOk result (out.new.items ≡ out.old.items
        ++ last_lines (plain_map old.now.setting t) (plain_map new.now.setting u) counts.now) }
{
    push_lines_beside(Identity::Ids, old, new, out)?;
    push_totals(old.total(), new.total(), out)?;
    push_counts(counts, out)?;
    Ok(())
}
