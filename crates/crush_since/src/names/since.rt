//! Writes what has changed between two maps whose items are matched by their names.

ghost use Rattle.std.specs.Prelude.{◌≡◌, ◌++◌, ℕ, List, Option, Some, Err, OnOk, IfOk, flat_map};
ghost use Rattle.std.specs.Io.KnownBytes.{Keeps};
ghost use Rattle.std.specs.Option.{option_map};
ghost use Rattle.crush_units.specs.Writes.{Writes};
ghost use Rattle.crush_model.specs.Stands.{Stands};
ghost use Rattle.crush_model.specs.Table.{Row};
ghost use Rattle.crush_compare.specs.Comparison.{IsPartOfNames, pair_items};
ghost use Rattle.crush_compare.specs.declared.identity.Devices.TheVariants.{ByName};
ghost use Rattle.crush_since.specs.Since.{plain_map};
ghost use Rattle.crush_since.specs.SinceNames.{WritesOrNothing, changed_pair, is_changed_by_name, since_names_part, since_names_text};

mod counting;
mod parts;

use crate::since::{push_counts, push_lines_beside_part, push_totals};
use counting::tally_of;
use crush_compare::{Comparison, Devices, Identity, Pair};
use crush_map::CrushMap;
use crush_units::{WriteFault, put};
use parts::push_changed_pair;
use std::alloc::{AllocError, Allocator, Global};
use std::io::Write;

/// Writes what has changed from an old map to a new map. The items of the two maps are matched by
/// their names, and ids are neither compared nor written. A device and a bucket of the same name
/// don't match. The output begins with a line for each item of the new map that differs, in the
/// order of the new map's tree. A line for each item that only the old map has follows, in the
/// order of the old map's tree. After these lines there may be a line that says that the tunables
/// differ, and a line that says that the types differ. Tunables also differ if they are in
/// different orders. Lines about rules and lines about classes follow. The buckets that rules take
/// are compared by their names. The second-to-last line has the total weight of each map, which is
/// the sum of the weights of all devices that a bucket holds. The last line has, for each kind of
/// difference, the number of items that have it. If a write fails, the writer has received a
/// beginning of the text, but not the whole text. If memory runs out, nothing is written.
pub fn write_since_by_name<A: Allocator, B: Allocator, W: Write>(
    alloc: Global,
    old: &CrushMap<A>,
    new: &CrushMap<B>,
    out: &mut W,
) -> Result<(), WriteFault>
    ensures writes { (t u : List Row) → Stands old.now.forest t → Stands new.now.forest u
        → Writes result (W.contents out.old) (W.contents out.new)
        (since_names_text (plain_map old.now.setting t) (plain_map new.now.setting u)) }
    ensures none { result ≡ Err WriteFault.OutOfMemory
        → Keeps (W.contents out.old) (W.contents out.new) }
{
    let mut text = Vec::new(alloc);
    match push_text(alloc, old, new, &mut text) {
        Ok(()) => put(out, text.as_slice()),
        Err(_) => Err(WriteFault::OutOfMemory),
    }
}

/// Writes only some lines of [`write_since_by_name`]: those about the item with the name `under`,
/// and about all items that are below this item in at least one of the maps. The lines about
/// settings, classes, total weights and counts are left out. If nothing has changed in these items,
/// the text is empty. If a write fails, the writer has received a beginning of the text, but not
/// the whole text. If memory runs out, nothing is written.
pub fn write_since_by_name_part<A: Allocator, B: Allocator, W: Write>(
    alloc: Global,
    old: &CrushMap<A>,
    new: &CrushMap<B>,
    under: &str,
    out: &mut W,
) -> Result<(), WriteFault>
    ensures writes { (t u : List Row) → Stands old.now.forest t → Stands new.now.forest u
        → WritesOrNothing result (W.contents out.old) (W.contents out.new)
        (since_names_part (Some under.now) (plain_map old.now.setting t) (plain_map new.now.setting u)) }
    ensures none { result ≡ Err WriteFault.OutOfMemory
        → Keeps (W.contents out.old) (W.contents out.new) }
{
    let mut text = Vec::new(alloc);
    match push_part_text(alloc, Some(under), old, new, &mut text) {
        Ok(()) => put(out, text.as_slice()),
        Err(_) => Err(WriteFault::OutOfMemory),
    }
}

/// If `under` is a name, returns whether the item with this name, or an item below it in at least
/// one of the maps, has changed. If `under` is `None`, returns whether any item, tunable, type,
/// rule or class has changed. The call fails only if memory runs out.
pub fn is_changed_by_name<A: Allocator, B: Allocator>(
    alloc: Global,
    under: Option<&str>,
    old: &CrushMap<A>,
    new: &CrushMap<B>,
) -> Result<bool, AllocError>
    ensures { IfOk result (λ is_changed. (t u : List Row)
        → Stands old.now.forest t → Stands new.now.forest u
        → is_changed ≡ is_changed_by_name (option_map (λ n. n.now) under.entry)
        (plain_map old.now.setting t) (plain_map new.now.setting u)) }
{
    let mut text = Vec::new(alloc);
    push_part_text(alloc, under, old, new, &mut text)?;
    Ok(!text.is_empty())
}

fn push_text<A: Allocator, B: Allocator>(
    alloc: Global,
    old: &CrushMap<A>,
    new: &CrushMap<B>,
    out: &mut Vec<u8>,
) -> Result<(), AllocError>
    ensures { (t u : List Row) → Stands old.now.forest t → Stands new.now.forest u
        → OnOk result (out.new.items ≡ out.old.items
        ++ since_names_text (plain_map old.now.setting t) (plain_map new.now.setting u)) }
{
    let both = Comparison::by_names_part(alloc, Devices::ByName, None, old, new)?;
    push_part(alloc, None, &both, out)?;
    push_totals(old.total(), new.total(), out)?;
    let tally = tally_of(&both, both.pairs.as_slice());
    push_counts(&tally, out)
}

fn push_part_text<A: Allocator, B: Allocator>(
    alloc: Global,
    under: Option<&str>,
    old: &CrushMap<A>,
    new: &CrushMap<B>,
    out: &mut Vec<u8>,
) -> Result<(), AllocError>
    ensures { (t u : List Row) → Stands old.now.forest t → Stands new.now.forest u
        → OnOk result (out.new.items ≡ out.old.items
        ++ since_names_part (option_map (λ n. n.now) under.entry) (plain_map old.now.setting t)
        (plain_map new.now.setting u)) }
{
    let both = Comparison::by_names_part(alloc, Devices::ByName, under, old, new)?;
    push_part(alloc, under, &both, out)
}

fn push_part<A: Allocator, B: Allocator>(
    alloc: Global,
    under: Option<&str>,
    both: &Comparison<'_, A, B>,
    out: &mut Vec<u8>,
) -> Result<(), AllocError>
    ensures { (t u : List Row) → Stands both.now.old.map.now.forest t
        → Stands both.now.new.map.now.forest u
        → IsPartOfNames ByName (option_map (λ n. n.now) under.entry) t u both.now
        → OnOk result (out.new.items ≡ out.old.items
        ++ since_names_part (option_map (λ n. n.now) under.entry)
        (plain_map both.now.old.map.now.setting t) (plain_map both.now.new.map.now.setting u)) }
{
    push_pairs(alloc, both, both.pairs.as_slice(), out)?;
    let identity = Identity::Names(Devices::ByName);
    push_lines_beside_part(identity, under, both.old.map, both.new.map, out)
}

fn push_pairs<A: Allocator, B: Allocator>(
    alloc: Global,
    both: &Comparison<'_, A, B>,
    pairs: &[Pair],
    out: &mut Vec<u8>,
) -> Result<(), AllocError>
    ensures { OnOk result (out.new.items ≡ out.old.items ++ flat_map
        (λ p. changed_pair both.now.old.map.now.setting both.now.new.map.now.setting
        (pair_items both.now p)) pairs.now) }
{
    for pair in pairs {
        push_pair(alloc, both, pair, out)?;
    }
    Ok(())
}

fn push_pair<A: Allocator, B: Allocator>(
    alloc: Global,
    both: &Comparison<'_, A, B>,
    pair: &Pair,
    out: &mut Vec<u8>,
) -> Result<(), AllocError>
    ensures { OnOk result (out.new.items ≡ out.old.items
        ++ changed_pair both.now.old.map.now.setting both.now.new.map.now.setting
        (pair_items both.now pair.now)) }
{
    let old = both.old.map.setting();
    let new = both.new.map.setting();
    push_changed_pair(
        alloc,
        old,
        new,
        &both.before(*pair),
        &both.after(*pair),
        out,
    )
}
