//! Writes the history lines of the calls in which the location of an edit created a bucket, with
//! hints.
//!
//! A location says into which bucket an edit puts its item, with pairs such as `host=h1`. If a
//! location names a bucket that isn't in the map, the edit can create this bucket. If the name of
//! the created bucket is similar to the name of an item of the map, then the operator may have
//! mistyped the name of this item. A *hint* is a line that says so.

ghost use Rattle.std.specs.Prelude.{◌≡◌, ◌<◌, ◌^◌, ◌++◌, List, IfOk, OnOk, length};
ghost use Rattle.std.specs.Option.{option_map};
ghost use Rattle.crush_model.specs.Stands.{Stands};
ghost use Rattle.crush_model.specs.Table.{Row};
ghost use Rattle.crush_history.specs.Entries.{AreOf};
ghost use Rattle.crush_history.specs.HistoryText.{names_of};
ghost use Rattle.crush_history.specs.Script.{scripts_data};
ghost use Rattle.crush_reasons.specs.Created.{created_behind, created_line, created_text, edit_hints, edits_hints, ends_before, has_looks, hint_line, is_created, is_up_to, location_hints, looks_after, pair_hint};
ghost use Rattle.crush_reasons.specs.LawCreated.{CreatedAreFresh};
ghost use Rattle.crush_reasons.specs.Replay.{table_after_edits, table_after_entry};
ghost use Rattle.crush_reasons.specs.declared.near.TheConstants.{MOST_LOOKS};

use crate::made::{buckets_made, makes_more};
use crate::near::{MOST_LOOKS, near_name};
use crate::replay::{changing_edits, make_entry};
use crate::way::{location_of, push_asked};
use crate::words::push_bytes;
use crush_ceph::redo_edit;
use crush_edits::{Edit, Location, Pair, Setting};
use crush_history::{Entry, Script, operator_name, push_entry};
use crush_map::CrushMap;
use std::alloc::{AllocError, Global};

/// A law: if no two pairs of a location have the same type, then `is_created` holds for exactly
/// those pairs for which an edit creates a bucket. Hints are searched for these pairs. The law
/// leaves out pairs whose types the map doesn't have. An edit is refused if its location has such a
/// pair, or has a type twice.
pub fn created_buckets_are_new_stops()
    ensures { CreatedAreFresh }
{}

/// Whether the type of the pair `other` is the type of `pair`, or has a lower number. Returns
/// `false` if the map doesn't have one of the two types.
fn is_up_to(setting: &Setting, pair: &Pair, other: &Pair) -> bool
    ensures { result ≡ is_up_to setting.now pair.now other.now }
{
    let Some(kind) = setting.kind_number(pair.kind.as_bytes()) else {
        return false;
    };
    let Some(lower) = setting.kind_number(other.kind.as_bytes()) else {
        return false;
    };
    lower.number() <= kind.number()
}

/// Whether the map has an item with the name in `other`, and `is_up_to` holds for the two pairs. An
/// edit reads the pairs of its location from the lowest type upward, and stops at the first name
/// that the map has. So if the result is `true`, the edit creates no bucket for `pair`.
fn ends_before(map: &CrushMap<Global>, pair: &Pair, other: &Pair) -> bool
    ensures { (t : List Row) → Stands map.now.forest t
        → result ≡ ends_before map.now.setting t pair.now other.now }
{
    map.locate(other.name.as_str()).is_some() && is_up_to(map.setting(), pair, other)
}

/// Whether an edit with the location `pairs` creates a bucket for `pair`, which is one of these
/// pairs. The answer is right only for an edit that isn't refused.
fn is_created(map: &CrushMap<Global>, pairs: &[Pair], pair: &Pair) -> bool
    ensures { (t : List Row) → Stands map.now.forest t
        → result ≡ is_created map.now.setting t pairs.now pair.now }
{
    for other in pairs {
        if ends_before(map, pair, other) {
            return false;
        }
    }
    true
}

fn push_hint(name: &[u8], near: Option<&str>, text: &mut Vec<u8>) -> Result<(), AllocError>
    ensures { OnOk result (text.new.items ≡ text.old.items
        ++ hint_line name.now (option_map (λ near. near.now) near.entry)) }
{
    let Some(near) = near else {
        return Ok(());
    };
    text.extend_from_slice(b"  ")?;
    push_asked(name, b" was created", Some(near), text)?;
    push_bytes(b"\n", text)
}

fn push_pair_hint(
    alloc: Global,
    map: &CrushMap<Global>,
    pairs: &[Pair],
    pair: &Pair,
    text: &mut Vec<u8>,
) -> Result<(), AllocError>
    ensures { OnOk result ((t : List Row) → Stands map.now.forest t → text.new.items
        ≡ text.old.items ++ pair_hint map.now.setting t pairs.now pair.now) }
{
    if !is_created(map, pairs, pair) {
        return Ok(());
    }
    let near = near_name(alloc, map, pair.name.as_str())?;
    push_hint(pair.name.as_bytes(), near, text)
}

fn push_location_hints(
    alloc: Global,
    map: &CrushMap<Global>,
    at: &Location,
    text: &mut Vec<u8>,
) -> Result<(), AllocError>
    ensures { OnOk result ((t : List Row) → Stands map.now.forest t → text.new.items
        ≡ text.old.items ++ location_hints map.now.setting t at.now) }
{
    let pairs = at.pairs();
    for pair in pairs {
        push_pair_hint(alloc, map, pairs, pair, text)?;
    }
    Ok(())
}

fn push_edit_hints(
    alloc: Global,
    map: &CrushMap<Global>,
    edit: &Edit,
    text: &mut Vec<u8>,
) -> Result<(), AllocError>
    ensures { OnOk result ((t : List Row) → Stands map.now.forest t → text.new.items
        ≡ text.old.items ++ edit_hints map.now.setting t edit.now) }
{
    match location_of(edit) {
        Some(at) => push_location_hints(alloc, map, at, text),
        None => Ok(()),
    }
}

/// Appends the hints for edits, and applies the edits to `map`, one after the other. The hints for
/// each edit depend on the map just before this edit.
fn push_edits_hints(
    alloc: Global,
    map: &mut CrushMap<Global>,
    edits: &[Edit],
    text: &mut Vec<u8>,
) -> Result<(), AllocError>
    ensures stands { OnOk result ((t : List Row) → Stands map.old.forest t
        → Stands map.new.forest (table_after_edits map.old.setting t edits.now)) }
    ensures setting { map.new.setting ≡ map.old.setting }
    ensures hints { OnOk result ((t : List Row) → Stands map.old.forest t
        → text.new.items ≡ text.old.items ++ edits_hints map.old.setting t edits.now) }
{
    for edit in edits {
        push_edit_hints(alloc, map, edit, text)?;
        redo_edit(map, edit)?;
    }
    Ok(())
}

/// If the call of the entry created more buckets than it has `add-bucket` commands, appends the
/// history line of the entry. If `looks` is set, the hints for the call's edits follow after this
/// line. `map` must be the map before the call. If the call changed its map, this function applies
/// the call's edits to `map`, so that `map` is then the map after the call.
fn push_created(
    alloc: Global,
    looks: bool,
    map: &mut CrushMap<Global>,
    number: u32,
    operator: &str,
    entry: &Entry,
    text: &mut Vec<u8>,
) -> Result<(), AllocError>
    ensures stands { OnOk result ((t : List Row) → Stands map.old.forest t
        → Stands map.new.forest (table_after_entry map.old.setting t entry.now)) }
    ensures setting { map.new.setting ≡ map.old.setting }
    ensures lines { OnOk result ((t : List Row) → Stands map.old.forest t → text.new.items
        ≡ text.old.items ++ created_line looks map.old.setting t number operator.now entry.now) }
{
    if !makes_more(entry) {
        return make_entry(map, entry);
    }
    push_entry(number, operator, entry, text)?;
    if looks {
        push_edits_hints(alloc, map, changing_edits(entry), text)
    } else {
        make_entry(map, entry)
    }
}

/// Whether `left`, the number of searches that are left, is at least the number of buckets that the
/// call of the entry created.
fn has_looks(left: usize, entry: &Entry) -> bool
    ensures { result ≡ has_looks left entry.now }
{
    buckets_made(entry.reply) <= left
}

fn looks_after(left: usize, entry: &Entry) -> usize
    ensures { result ≡ looks_after left entry.now }
{
    if makes_more(entry) {
        left.saturating_sub(buckets_made(entry.reply))
    } else {
        left
    }
}

fn push_entries(
    alloc: Global,
    map: &mut CrushMap<Global>,
    scripts: &[Script],
    entries: &[Entry],
    text: &mut Vec<u8>,
) -> Result<(), AllocError>
    requires few { length entries.now < 2 ^ 32 }
    requires operators { AreOf (length scripts.now) entries.now }
    ensures { OnOk result ((t : List Row) → Stands map.old.forest t
        → text.new.items ≡ text.old.items ++ created_behind map.old.setting t
        (names_of (scripts_data scripts.now)) 1 MOST_LOOKS entries.now) }
{
    let mut left = MOST_LOOKS;
    for (place, entry) in entries.iter().enumerate() {
        let number = place as u32 + 1;
        let name = operator_name(scripts, entry.operator);
        push_created(
            alloc,
            has_looks(left, entry),
            map,
            number,
            name,
            entry,
            text,
        )?;
        left = looks_after(left, entry);
    }
    Ok(())
}

/// Returns the history lines of the calls that created more buckets than they have `add-bucket`
/// commands. The hints for a call follow after its line.
///
/// A history line has the number that the call has in the whole history. There is a hint for each
/// bucket that a location of the call created, if the map just before the edit with this location
/// has an item with a similar name. A hint is a line that begins with two spaces. It has the name
/// of the created bucket, and the name of the first similar item in the order of the map's tree.
///
/// Each search for a similar name goes through all names of the map, so the number of searches is
/// limited. The function adds up how many buckets the calls of the result created, in the order of
/// the history. The call at which this sum first exceeds 256 has no hints, and neither has any
/// later call.
///
/// `opening` is the map before the first call. `scripts` are the scripts of the job in their order,
/// and the operator of each entry is the index of one of them. The function fails only if memory
/// runs out.
pub fn created_text(
    alloc: Global,
    opening: CrushMap<Global>,
    scripts: &[Script],
    entries: &[Entry],
) -> Result<Vec<u8>, AllocError>
    requires few { length entries.now < 2 ^ 32 }
    requires operators { AreOf (length scripts.now) entries.now }
    ensures { IfOk result (λ text. (t : List Row) → Stands opening.forest t → text.items
        ≡ created_text opening.setting t (names_of (scripts_data scripts.now)) entries.now) }
{
    let mut map = opening;
    let mut text = Vec::new(alloc);
    push_entries(alloc, &mut map, scripts, entries, &mut text)?;
    Ok(text)
}
