//! Writes the history lines of refused entries, each followed by the reason for the refusal.

ghost use Rattle.std.specs.Prelude.{◌≡◌, ◌<◌, ◌^◌, ◌++◌, List, [], IfOk, OnOk, drop, length, map as each, take};
ghost use Rattle.crush_model.specs.Stands.{Stands};
ghost use Rattle.crush_model.specs.Table.{Row};
ghost use Rattle.crush_history.specs.Entries.{AreOf};
ghost use Rattle.crush_history.specs.HistoryText.{names_of};
ghost use Rattle.crush_history.specs.Script.{scripts_data};
ghost use Rattle.crush_reasons.specs.Explained.{AreExplained, batched_reason, call_reason, explained_behind, explained_job, explained_line, explained_text, first_reason, refused_reason, so_far, stale_reason, too_high};
ghost use Rattle.crush_reasons.specs.EditsLeft.{head_data, head_in};
ghost use Rattle.crush_reasons.specs.Shown.{reason_line};
ghost use Rattle.crush_reasons.specs.Replay.{table_after_entry};

use crate::edits_left::{EditPlace, EditsLeft, push_place, refused_place};
use crate::locates::{JobLines, Locates, Nowhere};
use crate::named::push_edit_reason;
use crate::near::MOST_LOOKS;
use crate::replay::{make_edits, make_entry};
use crate::sentences::{STALE, reply_sentence};
use crate::words::push_all;
use crush_edits::{Edit, Refusal};
use crush_history::{Call, Entry, Reply, Script, is_refused, operator_name, push_edit, push_entry};
use crush_map::CrushMap;
use itoa::Buffer;
use std::alloc::{AllocError, Global};

fn from_edit(index: usize, edits: &[Edit]) -> &[Edit]
    ensures { result.now ≡ drop index edits.now }
{
    if index < edits.len() {
        edits.split_at(index).1
    } else {
        &[]
    }
}

fn before_edit(index: usize, edits: &[Edit]) -> &[Edit]
    ensures { result.now ≡ take index edits.now }
{
    if index < edits.len() {
        edits.split_at(index).0
    } else {
        edits
    }
}

/// The values that are needed for the history line of an entry and for the reason for its refusal,
/// besides the entry and the map. `number` is the entry's number in the history, from 1. `operator`
/// is the name of the entry's operator. `place` is the place of the refused edit of a batch, or
/// `None` if no place is known. `looks` says whether to search the map for similar names.
#[derive(Clone, Copy)]
struct EntryHead<'a> {
    number: u32,
    operator: &'a str,
    place: Option<EditPlace<'a>>,
    looks: bool,
}

fn push_refused(
    alloc: Global,
    looks: bool,
    map: &CrushMap<Global>,
    edit: &Edit,
    refusal: Refusal,
    text: &mut Vec<u8>,
) -> Result<(), AllocError>
    ensures { OnOk result ((t : List Row) → Stands map.now.forest t → text.new.items
        ≡ text.old.items ++ refused_reason looks map.now.setting t edit.now refusal) }
{
    push_edit(edit, text)?;
    text.extend_from_slice(b": ")?;
    push_edit_reason(alloc, looks, map, edit, refusal, text)
}

fn push_first(
    alloc: Global,
    map: &CrushMap<Global>,
    head: &EntryHead<'_>,
    edits: &[Edit],
    refusal: Refusal,
    text: &mut Vec<u8>,
) -> Result<(), AllocError>
    ensures { OnOk result ((t : List Row) → Stands map.now.forest t → text.new.items
        ≡ text.old.items ++ first_reason map.now.setting t (head_data head.now) edits.now refusal) }
{
    match edits {
        [] => text.extend_from_slice(refusal.sentence().as_bytes()),
        [edit, ..] => {
            push_place(&head.place, text)?;
            push_refused(alloc, head.looks, map, edit, refusal, text)
        }
    }
}

/// Appends the reason for a batch in which an edit was refused. This reason depends on the map just
/// before the refused edit, so the edits before it are first applied to a copy of the map.
fn push_batched(
    alloc: Global,
    map: &CrushMap<Global>,
    head: &EntryHead<'_>,
    edits: &[Edit],
    index: u32,
    refusal: Refusal,
    text: &mut Vec<u8>,
) -> Result<(), AllocError>
    ensures { OnOk result ((t : List Row) → Stands map.now.forest t → text.new.items
        ≡ text.old.items ++ batched_reason map.now.setting t (head_data head.now) edits.now index refusal) }
{
    let index = index as usize;
    let mut copy = map.try_copy()?;
    make_edits(&mut copy, before_edit(index, edits))?;
    push_first(alloc, &copy, head, from_edit(index, edits), refusal, text)
}

#[tactic(auto, unfolding(crate::specs::Explained::so_far))]
fn push_so_far(count: u32, text: &mut Vec<u8>) -> Result<(), AllocError>
    ensures { OnOk result (text.new.items ≡ text.old.items ++ so_far count) }
{
    let mut buffer = Buffer::new();
    push_all(
        &[
            b" changes of this run were expected, but there have been ".as_slice(),
            buffer.format(count).as_bytes(),
        ],
        text,
    )
}

fn push_too_high(seen: u32, count: u32, text: &mut Vec<u8>) -> Result<(), AllocError>
    ensures { OnOk result (text.new.items ≡ text.old.items ++ too_high seen count) }
{
    let mut buffer = Buffer::new();
    text.extend_from_slice(buffer.format(seen).as_bytes())?;
    push_so_far(count, text)
}

/// Appends the reason for a refused guarded batch. Such a batch begins with `begin at N`, and is
/// refused if the number of earlier calls that changed the map isn't N. `seen` is N, and `count` is
/// the number of these calls.
fn push_stale(seen: u32, count: u32, text: &mut Vec<u8>) -> Result<(), AllocError>
    ensures { OnOk result (text.new.items ≡ text.old.items ++ stale_reason seen count) }
{
    if count < seen {
        push_too_high(seen, count, text)
    } else {
        text.extend_from_slice(STALE.as_bytes())
    }
}

fn push_call_reason(
    alloc: Global,
    map: &CrushMap<Global>,
    head: &EntryHead<'_>,
    call: &Call,
    reply: Reply,
    text: &mut Vec<u8>,
) -> Result<(), AllocError>
    ensures { OnOk result ((t : List Row) → Stands map.now.forest t
        → text.new.items ≡ text.old.items ++ call_reason map.now.setting t (head_data head.now) call.now reply) }
{
    match (call, reply) {
        (Call::One(edit), Reply::Refused(refusal)) => {
            push_edit_reason(alloc, head.looks, map, edit, refusal, text)
        }
        (Call::Batch(edits), Reply::BatchRefused(index, refusal))
        | (Call::Guarded { edits, .. }, Reply::BatchRefused(index, refusal)) => {
            push_batched(alloc, map, head, edits.as_slice(), index, refusal, text)
        }
        (Call::Guarded { seen, .. }, Reply::Stale(count)) => push_stale(*seen, count, text),
        _ => text.extend_from_slice(reply_sentence(reply).as_bytes()),
    }
}

fn push_reply(
    alloc: Global,
    map: &CrushMap<Global>,
    head: &EntryHead<'_>,
    call: &Call,
    reply: Reply,
    text: &mut Vec<u8>,
) -> Result<(), AllocError>
    ensures { OnOk result ((t : List Row) → Stands map.now.forest t → text.new.items
        ≡ text.old.items ++ reason_line (call_reason map.now.setting t (head_data head.now) call.now reply)) }
{
    text.extend_from_slice(b"  ")?;
    push_call_reason(alloc, map, head, call, reply, text)?;
    text.extend_from_slice(b"\n")
}

fn push_explained(
    alloc: Global,
    map: &CrushMap<Global>,
    head: &EntryHead<'_>,
    entry: &Entry,
    text: &mut Vec<u8>,
) -> Result<(), AllocError>
    ensures { OnOk result ((t : List Row) → Stands map.now.forest t → text.new.items
        ≡ text.old.items ++ explained_line map.now.setting t head.now.number head.now.operator.now
        (head_data head.now) entry.now) }
{
    if !is_refused(entry.reply) {
        return Ok(());
    }
    push_entry(head.number, head.operator, entry, text)?;
    push_reply(alloc, map, head, &entry.call, entry.reply, text)
}

/// If the call of the entry was refused, appends the history line of the entry and the reason. If
/// the call changed the map, applies the edits of the call to `map`.
fn push_made(
    alloc: Global,
    map: &mut CrushMap<Global>,
    head: &EntryHead<'_>,
    entry: &Entry,
    text: &mut Vec<u8>,
) -> Result<(), AllocError>
    ensures stands { OnOk result ((t : List Row) → Stands map.old.forest t
        → Stands map.new.forest (table_after_entry map.old.setting t entry.now)) }
    ensures setting { map.new.setting ≡ map.old.setting }
    ensures lines { OnOk result ((t : List Row) → Stands map.old.forest t → text.new.items
        ≡ text.old.items ++ explained_line map.old.setting t head.now.number head.now.operator.now
        (head_data head.now) entry.now) }
{
    push_explained(alloc, map, head, entry, text)?;
    make_entry(map, entry)
}

fn push_entries<O: Locates>(
    alloc: Global,
    map: &mut CrushMap<Global>,
    told: &Subject<'_, O>,
    entries: &[Entry],
    text: &mut Vec<u8>,
) -> Result<(), AllocError>
    requires few { length entries.now < 2 ^ 32 }
    requires operators { AreOf (length told.now.scripts.now) entries.now }
    ensures { OnOk result (AreExplained
        (head_in (O.origin told.now.origins.now)
        (each (λ numbers. numbers.items) told.now.sections.now))
        (names_of (scripts_data told.now.scripts.now)) map.old map.new
        text.old.items text.new.items entries.now) }
{
    let mut left = EditsLeft::new(alloc, told.sections)?;
    let mut refused = 0;
    for (place, entry) in entries.iter().enumerate() {
        let head = EntryHead {
            number: place as u32 + 1,
            operator: operator_name(told.scripts, entry.operator),
            place: refused_place(told.origins, &left, entry),
            looks: refused < MOST_LOOKS,
        };
        push_made(alloc, map, &head, entry, text)?;
        left.pass(entry);
        if is_refused(entry.reply) {
            refused += 1;
        }
    }
    Ok(())
}

#[derive(Clone, Copy)]
struct Subject<'a, O> {
    scripts: &'a [Script],
    sections: &'a [Vec<u32>],
    origins: &'a O,
}

/// Returns the history lines of the refused entries, each with its reason on the next line.
///
/// A history line has the number that the entry has in the whole history. The line with the reason
/// begins with two spaces. If the refusal is about a name, the reason has this name, and says what
/// is wrong with it in the map just before the refused edit. If the map has no item or no type with
/// the name, the reason can suggest a similar name. The map is searched for similar names only for
/// the first 256 refused entries.
///
/// If an edit of a batch was refused, the reason begins with the place of this edit and with its
/// command. The place is `FILE:LINE: `, or `line LINE: ` if no file is named. LINE is the number of
/// the line in its file, from 1.
///
/// `opening` is the map before the first call. `scripts` are the scripts of the job in their order,
/// and the operator of each entry is the index of one of them. `lines` describes the lines of this
/// job. The function fails only if memory runs out.
pub fn explained_job<O: Locates>(
    alloc: Global,
    lines: JobLines<'_, O>,
    opening: CrushMap<Global>,
    scripts: &[Script],
    entries: &[Entry],
) -> Result<Vec<u8>, AllocError>
    requires few { length entries.now < 2 ^ 32 }
    requires operators { AreOf (length scripts.now) entries.now }
    ensures { IfOk result (λ text. (t : List Row) → Stands opening.forest t → text.items
        ≡ explained_job (O.origin lines.entry.origins.now)
        (each (λ numbers. numbers.items) lines.entry.edits.now) opening.setting t
        (names_of (scripts_data scripts.now)) entries.now) }
{
    let told = Subject {
        scripts,
        sections: lines.edits,
        origins: lines.origins,
    };
    explained(alloc, opening, &told, entries)
}

/// Returns the same lines as [`explained_job`], but without the places of refused edits. Use this
/// function if the text of the job isn't known.
pub fn explained_text(
    alloc: Global,
    opening: CrushMap<Global>,
    scripts: &[Script],
    entries: &[Entry],
) -> Result<Vec<u8>, AllocError>
    requires few { length entries.now < 2 ^ 32 }
    requires operators { AreOf (length scripts.now) entries.now }
    ensures { IfOk result (λ text. (t : List Row) → Stands opening.forest t → text.items
        ≡ explained_text opening.setting t (names_of (scripts_data scripts.now)) 1 entries.now) }
{
    let told = Subject {
        scripts,
        sections: &[],
        origins: &Nowhere,
    };
    explained(alloc, opening, &told, entries)
}

fn explained<O: Locates>(
    alloc: Global,
    opening: CrushMap<Global>,
    told: &Subject<'_, O>,
    entries: &[Entry],
) -> Result<Vec<u8>, AllocError>
    requires few { length entries.now < 2 ^ 32 }
    requires operators { AreOf (length told.now.scripts.now) entries.now }
    ensures { IfOk result (λ text. (t : List Row) → Stands opening.forest t → text.items
        ≡ explained_behind (head_in (O.origin told.now.origins.now)
        (each (λ numbers. numbers.items) told.now.sections.now)) opening.setting t
        (names_of (scripts_data told.now.scripts.now)) 1 [] entries.now) }
{
    let mut map = opening;
    let mut text = Vec::new(alloc);
    push_entries(alloc, &mut map, told, entries, &mut text)?;
    Ok(text)
}
