//! Prints a history, with one line for each entry.

ghost use Rattle.std.specs.Prelude.{◌≡◌, ◌<◌, ◌^◌, ◌++◌, [], length, slice_index_or, string_bytes, IfOk, OnOk};
ghost use Rattle.crush_history.specs.Entries.{AreOf};
ghost use Rattle.crush_history.specs.HistoryText.{line_text, entries_text, names_of};
ghost use Rattle.crush_history.specs.Script.{scripts_data};

use crate::display::Line;
use crate::entry::Entry;
use crate::script::Script;
use std::alloc::{AllocError, Global};

/// Appends a line of a history and a line feed.
fn push_line(line: &Line<'_>, text: &mut String) -> Result<(), AllocError>
    ensures { OnOk result (string_bytes text.new ≡ string_bytes text.old
        ++ line_text line.now.number line.now.operator.now line.now.call.now line.now.reply) }
{
    write!(text, "{line}\n")
}

/// Returns the name of the operator whose script has the index `operator` in `scripts`. The caller
/// guarantees that this index is in range.
pub fn operator_name(scripts: &[Script], operator: usize) -> &str
    requires { operator < length scripts.now }
    ensures { result.now ≡ slice_index_or (names_of (scripts_data scripts.now)) operator [] }
{
    let script = &scripts[operator];
    script.name.as_str()
}

/// Returns the text of a history, with one line for each entry. Each line has the form that
/// [`Line`] prints, and ends with a line feed.
///
/// The lines are numbered from 1. The field `operator` of an entry is an index in `scripts`: the
/// script with this index has the operator's name. The caller guarantees that each index is in
/// range, and that there are fewer than 2^32 entries.
///
/// Returns an error if memory runs out. The function returns the whole text at once, so if memory
/// runs out, the caller hasn't yet written any part of the text.
pub fn history_text(
    alloc: Global,
    scripts: &[Script],
    entries: &[Entry],
) -> Result<Vec<u8>, AllocError>
    requires few { length entries.now < 2 ^ 32 }
    requires operators { AreOf (length scripts.now) entries.now }
    ensures { IfOk result (λ text. text.items
        ≡ entries_text (names_of (scripts_data scripts.now)) 1 entries.now) }
{
    let mut text = String::new(alloc);
    for (place, entry) in entries.iter().enumerate() {
        let number = place as u32 + 1;
        let name = operator_name(scripts, entry.operator);
        let line = Line {
            number,
            operator: name,
            call: &entry.call,
            reply: entry.reply,
        };
        push_line(&line, &mut text)?;
    }
    Ok(text.into_bytes())
}
