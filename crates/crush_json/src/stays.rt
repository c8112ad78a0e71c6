//! Writes the differences that remain after a plan as a JSON list, with one text for each line.

ghost use Rattle.std.specs.Prelude.{◌≡◌, ◌++◌, OnOk, map as each};
ghost use Rattle.crush_since.specs.Stays.{line_texts};
ghost use Rattle.crush_json.specs.PlanDocument.{line_value, stays_document};
ghost use Rattle.crush_json.specs.Tokens.{tokens_of, tokens_of_all};

use crate::document::Document;
use std::alloc::{AllocError, Global};

/// Writes a list with a text for each line of `rest`. If a line has bytes that aren't UTF-8, U+FFFD
/// replaces these bytes in the text. Fails only if memory runs out.
pub(crate) fn push_stays(
    alloc: Global,
    rest: &[Vec<u8>],
    out: &mut Document,
) -> Result<(), AllocError>
    ensures { OnOk result (out.new
        ≡ out.old ++ tokens_of (stays_document (line_texts rest.now))) }
{
    out.begin_array()?;
    push_lines(alloc, rest, out)?;
    out.end_array()
}

fn push_lines(alloc: Global, rest: &[Vec<u8>], out: &mut Document) -> Result<(), AllocError>
    ensures { OnOk result (out.new ≡ out.old
        ++ tokens_of_all (each line_value (line_texts rest.now))) }
{
    for line in rest {
        push_line(alloc, line.as_slice(), out)?;
    }
    Ok(())
}

fn push_line(alloc: Global, line: &[u8], out: &mut Document) -> Result<(), AllocError>
    ensures { OnOk result (out.new ≡ out.old ++ tokens_of (line_value line.now)) }
{
    let text = String::from_utf8_lossy(alloc, line)?;
    out.push_text(text.as_str())
}
