//! Appends lines to a list of lines, and appends a list of lines to a text. In a list, the lines
//! have no line feeds.

ghost use Rattle.std.specs.Prelude.{◌≡◌, ◌∷◌, [], ◌++◌, OnOk, codes, flat_map};
ghost use Rattle.crush_since.specs.ItemParts.{part};
ghost use Rattle.crush_since.specs.Stays.{line_texts, stay_text_line, text_of_lines};

use crush_units::put_all;
use std::alloc::{AllocError, Global};

/// Appends the line of an item: the item's name, a colon, a space, and the parts. Appends no line
/// if `parts` is empty. In `parts`, a semicolon and a space come before each part. The line leaves
/// out the first semicolon and the space after it.
pub(crate) fn push_item_line(
    alloc: Global,
    name: &[u8],
    parts: &[u8],
    lines: &mut Vec<Vec<u8>>,
) -> Result<(), AllocError>
    ensures { OnOk result (line_texts lines.new.items ≡ line_texts lines.old.items
        ++ stay_text_line name.now parts.now) }
{
    match parts {
        [_, _, text @ ..] => push_joined(alloc, &[name, b": ".as_slice(), text], lines),
        _ => Ok(()),
    }
}

/// Appends one line, which consists of these parts.
fn push_joined(alloc: Global, parts: &[&[u8]], lines: &mut Vec<Vec<u8>>) -> Result<(), AllocError>
    ensures { OnOk result (line_texts lines.new.items ≡ line_texts lines.old.items
        ++ flat_map (λ part. part.now) parts.now ∷ []) }
{
    let mut line = Vec::new(alloc);
    put_all(&mut line, parts).map_err(|_| AllocError)?;
    lines.push(line)?;
    Ok(())
}

/// Appends the line `text`, or no line if `same` is true.
pub(crate) fn push_unless(
    alloc: Global,
    same: bool,
    text: &[u8],
    lines: &mut Vec<Vec<u8>>,
) -> Result<(), AllocError>
    ensures { OnOk result (line_texts lines.new.items ≡ line_texts lines.old.items
        ++ part same text.now) }
{
    if same {
        return Ok(());
    }
    push_joined(alloc, &[text], lines)
}

/// Appends the lines of [`stays`](crate::stays) to a text. A line feed follows each line. The call
/// fails only if memory runs out.
pub fn push_stays(lines: &[Vec<u8>], text: &mut Vec<u8>) -> Result<(), AllocError>
    ensures { OnOk result (text.new.items ≡ text.old.items
        ++ text_of_lines (line_texts lines.now)) }
{
    for line in lines {
        push_ended(line.as_slice(), text)?;
    }
    Ok(())
}

fn push_ended(line: &[u8], text: &mut Vec<u8>) -> Result<(), AllocError>
    ensures { OnOk result (text.new.items ≡ text.old.items ++ (line.now ++ codes "\n")) }
{
    text.extend_from_slice(line)?;
    text.extend_from_slice(b"\n")
}
