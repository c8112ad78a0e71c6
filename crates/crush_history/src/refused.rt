//! The entries of a history that were refused.

ghost use Rattle.std.specs.Prelude.{◌≡◌, ◌<◌, ◌^◌, ◌++◌, IfOk, OnOk, length};
ghost use Rattle.crush_history.specs.Entries.{AreOf};
ghost use Rattle.crush_history.specs.HistoryText.{names_of};
ghost use Rattle.crush_history.specs.Refused.{is_refused, refusals, refused_line, refused_text};
ghost use Rattle.crush_history.specs.Script.{scripts_data};

use crate::call::Reply;
use crate::entry::Entry;
use crate::history::operator_name;
use crate::push::push_entry;
use crate::script::Script;
use std::alloc::{AllocError, Global};

/// Whether the reply refuses an edit or a batch, or says that a guarded batch is stale.
pub fn is_refused(reply: Reply) -> bool
    ensures { result ≡ is_refused reply }
{
    match reply {
        Reply::Done(_) => false,
        Reply::Dones(_) => false,
        Reply::Refused(_) => true,
        Reply::BatchRefused(_, _) => true,
        Reply::Stale(_) => true,
    }
}

/// Returns how many of the entries were refused or stale ([`is_refused`]). Visits each entry. The
/// caller guarantees that there are fewer than 2^32 entries.
pub fn count_refused(entries: &[Entry]) -> u32
    requires { length entries.now < 2 ^ 32 }
    ensures { result ≡ refusals entries.now }
{
    let mut count: u32 = 0;
    for entry in entries {
        if is_refused(entry.reply) {
            count += 1;
        }
    }
    count
}

/// Appends the entry's line to the text if the entry was refused or stale. Otherwise appends
/// nothing. `number` is the entry's number in its history, from 1.
fn push_refused(
    number: u32,
    operator: &str,
    entry: &Entry,
    text: &mut Vec<u8>,
) -> Result<(), AllocError>
    ensures { OnOk result (text.new.items ≡ text.old.items
        ++ refused_line number operator.now entry.now) }
{
    if !is_refused(entry.reply) {
        return Ok(());
    }
    push_entry(number, operator, entry, text)
}

/// Returns the lines of the entries that were refused or stale. Each line has the entry's number in
/// the whole history, from 1.
///
/// The lines have the form that [`push_entry`] appends. The field `operator` of an entry is an
/// index in `scripts`: the script with this index has the operator's name. The caller guarantees
/// that each index is in range, and that there are fewer than 2^32 entries. Returns an error if
/// memory runs out.
pub fn refused_text(
    alloc: Global,
    scripts: &[Script],
    entries: &[Entry],
) -> Result<Vec<u8>, AllocError>
    requires few { length entries.now < 2 ^ 32 }
    requires operators { AreOf (length scripts.now) entries.now }
    ensures { IfOk result (λ text. text.items
        ≡ refused_text (names_of (scripts_data scripts.now)) 1 entries.now) }
{
    let mut text = Vec::new(alloc);
    for (place, entry) in entries.iter().enumerate() {
        let number = place as u32 + 1;
        let name = operator_name(scripts, entry.operator);
        push_refused(number, name, entry, &mut text)?;
    }
    Ok(text)
}
