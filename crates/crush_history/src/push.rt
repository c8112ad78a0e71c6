//! Appends the text of an edit or the line of an entry to a vector of bytes.

ghost use Rattle.std.specs.Prelude.{◌≡◌, ◌++◌, OnOk};
ghost use Rattle.crush_edits.specs.EditText.{edit_text};
ghost use Rattle.crush_history.specs.HistoryText.{entry_text};

use crate::display::Line;
use crate::entry::Entry;
use crush_edits::Edit;
use std::alloc::AllocError;
use std::io::Write;

/// Appends the edit's command in the form that scripts use, without a line feed. Weights have five
/// decimals. Returns an error if memory runs out.
pub fn push_edit(edit: &Edit, text: &mut Vec<u8>) -> Result<(), AllocError>
    ensures { OnOk result (text.new.items ≡ text.old.items ++ edit_text edit.now) }
{
    write!(text, "{edit}").map_err(|_| AllocError)
}

/// Appends the entry's line, as [`Line`] prints it, and a line feed. `number` is the entry's number
/// in its history, from 1, and `operator` is the name of the operator. Returns an error if memory
/// runs out.
pub fn push_entry(
    number: u32,
    operator: &str,
    entry: &Entry,
    text: &mut Vec<u8>,
) -> Result<(), AllocError>
    ensures { OnOk result (text.new.items
        ≡ text.old.items ++ entry_text number operator.now entry.now) }
{
    let line = Line {
        number,
        operator,
        call: &entry.call,
        reply: entry.reply,
    };
    write!(text, "{line}\n").map_err(|_| AllocError)
}
