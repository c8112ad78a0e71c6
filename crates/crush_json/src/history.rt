//! Writes a history as a JSON value.

ghost use Rattle.std.specs.Prelude.{◌≡◌, ◌++◌, Some, codes, IfSome, OnOk};
ghost use Rattle.std.specs.Option.{option_map};
ghost use Rattle.serde_json.specs.Data.{member, object, string};
ghost use Rattle.crush_model.specs.Count.{one_if};
ghost use Rattle.crush_edits.specs.Refusal.{refusal_error, refusal_name};
ghost use Rattle.crush_history.specs.HistoryText.{names_of, reply_text};
ghost use Rattle.crush_history.specs.Script.{scripts_data};
ghost use Rattle.crush_json.specs.HistoryDocument.{answered_document, entry_document, entry_documents, made_document, refused_members, stale_document};
ghost use Rattle.crush_json.specs.Seen.{IsHistory, history_data};
ghost use Rattle.crush_json.specs.Tokens.{history_tokens_if, last_tokens, member_tokens, tokens_of, tokens_of_all};
ghost use Rattle.crush_json.specs.Values.{natural};

use crate::document::Document;
use crush_edits::{Done, Refusal};
use crush_history::{Entry, Reply, Script, operator_name};
use std::alloc::{AllocError, Global};

/// A history: the calls that operators have made on a map, each with its reply.
#[derive(Clone, Copy)]
pub struct History<'a> {
    /// The scripts from which the calls come, one script for each operator.
    pub scripts: &'a [Script],
    /// The calls with their replies, in the order in which they were made. The functions that write
    /// a history require fewer than 2^32 entries, and a script for the operator of each entry.
    pub entries: &'a [Entry],
}

/// The members that the objects of all entries have. Depending on its reply, an object also has
/// other members, such as counts or an error number.
#[derive(Clone, Copy)]
struct Reported<'a> {
    /// The number of the entry in the history, from 1.
    number: u32,
    operator: &'a str,
    /// The call as text, as a line of the history shows it.
    call: &'a str,
    /// The reply as text, as a line of the history shows it.
    reply: &'a str,
}

/// Writes the member `history`, which is a list with an object for each entry. If there is no
/// history, writes nothing. Fails only if memory runs out.
pub(crate) fn push_history_if(
    alloc: Global,
    history: Option<History<'_>>,
    out: &mut Document,
) -> Result<(), AllocError>
    requires { IfSome history IsHistory }
    ensures { OnOk result (out.new ≡ out.old
        ++ history_tokens_if (option_map history_data history.entry)) }
{
    match history {
        Some(history) => {
            out.key("history")?;
            push_history(alloc, history, out)
        }
        None => Ok(()),
    }
}

fn push_history(alloc: Global, history: History<'_>, out: &mut Document) -> Result<(), AllocError>
    requires { IsHistory history }
    ensures { OnOk result (out.new ≡ out.old ++ tokens_of (history_data history.entry)) }
{
    out.begin_array()?;
    push_entries(alloc, history, out)?;
    out.end_array()
}

fn push_entries(alloc: Global, history: History<'_>, out: &mut Document) -> Result<(), AllocError>
    requires { IsHistory history }
    ensures { OnOk result (out.new ≡ out.old ++ tokens_of_all (entry_documents
        (names_of (scripts_data history.entry.scripts.now)) 1 history.entry.entries.now)) }
{
    let entries = history.entries;
    for (place, entry) in entries.iter().enumerate() {
        let operator = operator_name(history.scripts, entry.operator);
        push_entry(alloc, place as u32 + 1, operator, entry, out)?;
    }
    Ok(())
}

fn push_entry(
    alloc: Global,
    number: u32,
    operator: &str,
    entry: &Entry,
    out: &mut Document,
) -> Result<(), AllocError>
    ensures { OnOk result (out.new ≡ out.old
        ++ tokens_of (entry_document number operator.now entry.now)) }
{
    let call = &entry.call;
    let call = format!(in alloc; "{call}")?;
    let reply = entry.reply;
    let reply = format!(in alloc; "{reply}")?;
    let reported = Reported {
        number,
        operator,
        call: call.as_str(),
        reply: reply.as_str(),
    };
    push_told(&reported, entry.reply, out)
}

#[tactic(auto, unfolding(crate::specs::HistoryDocument::answered_document))]
fn push_told(reported: &Reported<'_>, reply: Reply, out: &mut Document) -> Result<(), AllocError>
    ensures { reported.now.reply.now ≡ reply_text reply → OnOk result (out.new ≡ out.old
        ++ tokens_of (answered_document reported.now.number reported.now.operator.now reported.now.call.now
        reply)) }
{
    match reply {
        Reply::Done(done) => push_done(reported, done, out),
        Reply::Dones(done) => push_made(reported, done.changed, done.made, out),
        Reply::Refused(refusal) => push_refused(reported, refusal, out),
        Reply::BatchRefused(index, refusal) => push_refused_at(reported, index, refusal, out),
        Reply::Stale(changes) => push_stale(reported, changes, out),
    }
}

fn push_done(reported: &Reported<'_>, done: Done, out: &mut Document) -> Result<(), AllocError>
    ensures { OnOk result (out.new ≡ out.old ++ tokens_of (made_document reported.now.number
        reported.now.operator.now reported.now.call.now (one_if done.changed) done.made
        reported.now.reply.now)) }
{
    if done.changed {
        push_made(reported, 1, done.made as u32, out)
    } else {
        push_made(reported, 0, done.made as u32, out)
    }
}

fn push_made(
    reported: &Reported<'_>,
    changed: u32,
    made: u32,
    out: &mut Document,
) -> Result<(), AllocError>
    ensures { OnOk result (out.new ≡ out.old ++ tokens_of (made_document reported.now.number
        reported.now.operator.now reported.now.call.now changed made reported.now.reply.now)) }
{
    out.begin_object()?;
    out.text("call", reported.call)?;
    out.natural("changed", changed as u64)?;
    out.natural("made", made as u64)?;
    push_last(reported, None, out)?;
    out.end_object()
}

fn push_refused(
    reported: &Reported<'_>,
    refusal: Refusal,
    out: &mut Document,
) -> Result<(), AllocError>
    ensures { OnOk result (out.new ≡ out.old ++ tokens_of (object (refused_members
        reported.now.number reported.now.operator.now reported.now.call.now refusal reported.now.reply.now))) }
{
    out.begin_object()?;
    push_refusal(reported, refusal, out)?;
    out.end_object()
}

/// Writes an entry for a batch in which an edit was refused. `index` is the index of this edit in
/// the batch, from 0.
fn push_refused_at(
    reported: &Reported<'_>,
    index: u32,
    refusal: Refusal,
    out: &mut Document,
) -> Result<(), AllocError>
    ensures { OnOk result (out.new ≡ out.old ++ tokens_of (object (member (codes "at")
        (natural index) (refused_members reported.now.number reported.now.operator.now
        reported.now.call.now refusal reported.now.reply.now)))) }
{
    out.begin_object()?;
    out.natural("at", index as u64)?;
    push_refusal(reported, refusal, out)?;
    out.end_object()
}

fn push_refusal(
    reported: &Reported<'_>,
    refusal: Refusal,
    out: &mut Document,
) -> Result<(), AllocError>
    ensures { OnOk result (out.new ≡ out.old
        ++ (member_tokens (codes "call") (string reported.now.call.now)
        ++ member_tokens (codes "errno") (natural (refusal_error refusal))
        ++ last_tokens reported.now.number reported.now.operator.now (Some (refusal_name refusal))
        reported.now.reply.now)) }
{
    out.text("call", reported.call)?;
    out.natural("errno", refusal.error() as u64)?;
    push_last(reported, Some(refusal.name()), out)
}

/// Writes an entry for a guarded batch (a batch that begins with `begin at N`) that was refused,
/// because the number of earlier calls that changed the map isn't N. `changes` is the number of
/// these earlier calls. The error number of such an entry is 11 (EAGAIN).
fn push_stale(reported: &Reported<'_>, changes: u32, out: &mut Document) -> Result<(), AllocError>
    ensures { OnOk result (out.new ≡ out.old ++ tokens_of (stale_document reported.now.number
        reported.now.operator.now reported.now.call.now changes reported.now.reply.now)) }
{
    out.begin_object()?;
    out.text("call", reported.call)?;
    out.natural("changes", changes as u64)?;
    out.natural("errno", 11)?;
    push_last(reported, Some("Stale"), out)?;
    out.end_object()
}

fn push_last(
    reported: &Reported<'_>,
    refusal: Option<&str>,
    out: &mut Document,
) -> Result<(), AllocError>
    ensures { OnOk result (out.new ≡ out.old ++ last_tokens reported.now.number
        reported.now.operator.now (option_map (λ name. name.now) refusal.entry)
        reported.now.reply.now) }
{
    out.natural("number", reported.number as u64)?;
    out.text("operator", reported.operator)?;
    out.text_if("refusal", refusal)?;
    out.text("reply", reported.reply)
}
