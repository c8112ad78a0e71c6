//! Finds the calls that created more buckets than they have `add-bucket` commands. A location in
//! such a call named a bucket that wasn't in the map, so the call also created this bucket.

ghost use Rattle.std.specs.Prelude.{◌≡◌, ◌≤◌, ◌^◌, ◌<◌, ◌++◌, IfOk, OnOk, length};
ghost use Rattle.std.specs.List.{count_by};
ghost use Rattle.crush_history.specs.Entries.{AreOf};
ghost use Rattle.crush_history.specs.HistoryText.{names_of};
ghost use Rattle.crush_history.specs.Script.{scripts_data};
ghost use Rattle.crush_reasons.specs.Made.{is_add_bucket, add_bucket_count, buckets_made, made_line, made_text, makes_more, makings};

use crush_edits::Edit;
use crush_history::{Call, Entry, Reply, Script, operator_name, push_entry};
use std::alloc::{AllocError, Global};

fn is_add_bucket(edit: &Edit) -> bool
    ensures { result ≡ is_add_bucket edit.now }
{
    matches!(edit, Edit::AddBucket { .. })
}

fn count_add_buckets(edits: &[Edit]) -> usize
    ensures { result ≡ count_by is_add_bucket edits.now }
{
    let mut count = 0;
    for edit in edits {
        if is_add_bucket(edit) {
            count += 1;
        }
    }
    count
}

fn add_bucket_count(call: &Call) -> usize
    ensures { result ≡ add_bucket_count call.now }
{
    match call {
        Call::One(edit) => is_add_bucket(edit) as usize,
        Call::Batch(edits) => count_add_buckets(edits.as_slice()),
        Call::Guarded { seen: _, edits } => count_add_buckets(edits.as_slice()),
    }
}

/// Returns the number of buckets that a call created, according to the reply to the call.
pub(crate) fn buckets_made(reply: Reply) -> usize
    ensures { result ≡ buckets_made reply }
{
    match reply {
        Reply::Done(done) => done.made as usize,
        Reply::Dones(dones) => dones.made as usize,
        Reply::Refused(_) => 0,
        Reply::BatchRefused(_, _) => 0,
        Reply::Stale(_) => 0,
    }
}

/// Whether the call of the entry created more buckets than it has `add-bucket` commands.
pub(crate) fn makes_more(entry: &Entry) -> bool
    ensures { result ≡ makes_more entry.now }
{
    buckets_made(entry.reply) > add_bucket_count(&entry.call)
}

/// Returns the number of calls that created more buckets than they have `add-bucket` commands.
pub fn count_makings(entries: &[Entry]) -> usize
    ensures { result ≡ makings entries.now }
{
    let mut count = 0;
    for entry in entries {
        if makes_more(entry) {
            count += 1;
        }
    }
    count
}

fn push_made(
    number: u32,
    operator: &str,
    entry: &Entry,
    text: &mut Vec<u8>,
) -> Result<(), AllocError>
    ensures { OnOk result (text.new.items ≡ text.old.items
        ++ made_line number operator.now entry.now) }
{
    if !makes_more(entry) {
        return Ok(());
    }
    push_entry(number, operator, entry, text)
}

/// Returns the history lines of the calls that created more buckets than they have `add-bucket`
/// commands. Each line has the number that its call has in the whole history.
///
/// `scripts` are the scripts of the job in their order, and the operator of each entry is the index
/// of one of them. The function fails only if memory runs out.
pub fn made_text(
    alloc: Global,
    scripts: &[Script],
    entries: &[Entry],
) -> Result<Vec<u8>, AllocError>
    requires few { length entries.now < 2 ^ 32 }
    requires operators { AreOf (length scripts.now) entries.now }
    ensures { IfOk result (λ text. text.items
        ≡ made_text (names_of (scripts_data scripts.now)) 1 entries.now) }
{
    let mut text = Vec::new(alloc);
    for (place, entry) in entries.iter().enumerate() {
        let number = place as u32 + 1;
        let name = operator_name(scripts, entry.operator);
        push_made(number, name, entry, &mut text)?;
    }
    Ok(text)
}
