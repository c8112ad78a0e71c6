//! Writes the line of an entry to a writer. No memory is allocated.

ghost use Rattle.std.specs.Prelude.{◌≡◌, ◌++◌, codes, IfErr};
ghost use Rattle.crush_units.specs.Writes.{Writes};
ghost use Rattle.crush_edits.specs.EditText.{edit_text};
ghost use Rattle.crush_history.specs.HistoryText.{call_text, edits_text, guard_text, line_head, line_text, reply_text, rest_text};

use crate::call::{Call, Reply};
use arrayvec::ArrayString;
use crush_edits::Edit;
use crush_units::limits::{LONGEST_NAME, MOST_PAIRS};
use crush_units::{WriteFault, put, put_all};
use itoa::Buffer;
use std::fmt::Write as _;
use std::io::Write;

/// The text of an edit, followed by ` ; `, always has fewer bytes. Each pair of a location has at
/// most `2 * LONGEST_NAME + 2` bytes, and the rest of the text is shorter than one more such pair.
const MOST_BYTES_OF_EDIT: usize = (MOST_PAIRS + 1) * (2 * LONGEST_NAME + 2);

/// The text of a reply, with ` = ` before it and a line feed behind it, always has fewer bytes.
const MOST_BYTES_OF_REPLY: usize = 128;

/// Writes `# NUMBER OPERATOR ` to `out`.
#[tactic(auto, unfolding(crate::specs::HistoryText::line_head))]
fn put_head<W: Write>(number: u32, operator: &str, out: &mut W) -> Result<(), WriteFault>
    ensures writes { Writes result (W.contents out.old) (W.contents out.new)
        (line_head number operator.now) }
    ensures fault { IfErr result (λ fault. fault ≡ WriteFault.Write) }
{
    let mut digits = Buffer::new();
    let number = digits.format(number).as_bytes();
    put_all(
        out,
        &[
            b"# ".as_slice(),
            number,
            b" ".as_slice(),
            operator.as_bytes(),
            b" ".as_slice(),
        ],
    )
}

/// Writes the edit's command to `out`, and then `end`, which is empty or ` ; `.
fn put_edit<W: Write>(edit: &Edit, end: &str, out: &mut W) -> Result<(), WriteFault>
    ensures writes { Writes result (W.contents out.old) (W.contents out.new)
        (edit_text edit.now ++ end.now) }
    ensures fault { IfErr result (λ fault. fault ≡ WriteFault.Write) }
{
    let mut text = ArrayString::<MOST_BYTES_OF_EDIT>::new();
    if write!(text, "{edit}{end}").is_err() {
        return Err(WriteFault::Write);
    }
    put(out, text.as_str().as_bytes())
}

fn put_edits<W: Write>(edits: &[Edit], out: &mut W) -> Result<(), WriteFault>
    ensures writes { Writes result (W.contents out.old) (W.contents out.new)
        (edits_text edits.now) }
    ensures fault { IfErr result (λ fault. fault ≡ WriteFault.Write) }
{
    for edit in edits {
        put_edit(edit, " ; ", out)?;
    }
    Ok(())
}

fn put_rest<W: Write>(edits: &[Edit], out: &mut W) -> Result<(), WriteFault>
    ensures writes { Writes result (W.contents out.old) (W.contents out.new)
        (rest_text edits.now) }
    ensures fault { IfErr result (λ fault. fault ≡ WriteFault.Write) }
{
    put_edits(edits, out)?;
    put(out, b"commit")
}

fn put_batch<W: Write>(edits: &[Edit], out: &mut W) -> Result<(), WriteFault>
    ensures writes { Writes result (W.contents out.old) (W.contents out.new)
        (codes "begin ; " ++ rest_text edits.now) }
    ensures fault { IfErr result (λ fault. fault ≡ WriteFault.Write) }
{
    put(out, b"begin ; ")?;
    put_rest(edits, out)
}

fn put_guard<W: Write>(seen: u32, out: &mut W) -> Result<(), WriteFault>
    ensures writes { Writes result (W.contents out.old) (W.contents out.new) (guard_text seen) }
    ensures fault { IfErr result (λ fault. fault ≡ WriteFault.Write) }
{
    let mut digits = Buffer::new();
    let seen = digits.format(seen).as_bytes();
    put_all(out, &[b"begin at ".as_slice(), seen, b" ; ".as_slice()])
}

fn put_guarded<W: Write>(seen: u32, edits: &[Edit], out: &mut W) -> Result<(), WriteFault>
    ensures writes { Writes result (W.contents out.old) (W.contents out.new)
        (guard_text seen ++ rest_text edits.now) }
    ensures fault { IfErr result (λ fault. fault ≡ WriteFault.Write) }
{
    put_guard(seen, out)?;
    put_rest(edits, out)
}

fn put_call<W: Write>(call: &Call, out: &mut W) -> Result<(), WriteFault>
    ensures writes { Writes result (W.contents out.old) (W.contents out.new) (call_text call.now) }
    ensures fault { IfErr result (λ fault. fault ≡ WriteFault.Write) }
{
    match call {
        Call::One(edit) => put_edit(edit, "", out),
        Call::Batch(edits) => put_batch(edits.as_slice(), out),
        Call::Guarded { seen, edits } => put_guarded(*seen, edits.as_slice(), out),
    }
}

/// Writes ` = `, the reply and a line feed to `out`.
fn put_reply<W: Write>(reply: Reply, out: &mut W) -> Result<(), WriteFault>
    ensures writes { Writes result (W.contents out.old) (W.contents out.new)
        (codes " = " ++ reply_text reply ++ codes "\n") }
    ensures fault { IfErr result (λ fault. fault ≡ WriteFault.Write) }
{
    let mut text = ArrayString::<MOST_BYTES_OF_REPLY>::new();
    if write!(text, " = {reply}\n").is_err() {
        return Err(WriteFault::Write);
    }
    put(out, text.as_str().as_bytes())
}

/// Writes a line of a history, as `Line` prints it, and a line feed to `out`. No memory is
/// allocated. `number` is the number of the call in its history, from 1, and `operator` is the name
/// of the operator.
///
/// Fails with `Write` if `out` returns an error or accepts no byte. A proper prefix of the line and
/// its line feed has then been written: perhaps nothing, but not all of it.
pub fn write_entry<W: Write>(
    number: u32,
    operator: &str,
    call: &Call,
    reply: Reply,
    out: &mut W,
) -> Result<(), WriteFault>
    ensures writes { Writes result (W.contents out.old) (W.contents out.new)
        (line_text number operator.now call.now reply) }
    ensures fault { IfErr result (λ fault. fault ≡ WriteFault.Write) }
{
    put_head(number, operator, out)?;
    put_call(call, out)?;
    put_reply(reply, out)
}
