//! Appends words to a line, in columns of a fixed width. All widths are in bytes.

ghost use Rattle.std.specs.Prelude.{◌≡◌, ◌++◌, ◌-◌, OnOk, length};
ghost use Rattle.crush_print.specs.TreeText.{spaces, at_left, at_right};

use std::alloc::AllocError;

/// Appends `count` spaces to `out`. Fails only if memory runs out. After a failure, `out` may have
/// some of the spaces.
pub fn push_spaces(count: usize, out: &mut Vec<u8>) -> Result<(), AllocError>
    ensures { OnOk result (out.new.items ≡ out.old.items ++ spaces count) }
{
    for _done in 0..count {
        let Ok(()) = out.push(b' ') else {
            return Err(AllocError);
        };
    }
    Ok(())
}

/// Appends spaces and then the word to `out`, so that both together fill a column of this width. A
/// word that is longer than the column is appended whole, without spaces. Fails only if memory runs
/// out.
#[tactic(auto, unfolding(crate::specs::TreeText::at_right))]
pub fn push_right(width: usize, word: &[u8], out: &mut Vec<u8>) -> Result<(), AllocError>
    ensures { OnOk result (out.new.items ≡ out.old.items ++ at_right width word.now) }
{
    push_spaces(width.saturating_sub(word.len()), out)?;
    out.extend_from_slice(word)
}

/// Appends the word and then spaces to `out`, so that both together fill a column of this width. A
/// word that is longer than the column is appended whole, without spaces. Fails only if memory runs
/// out.
#[tactic(auto, unfolding(crate::specs::TreeText::at_left))]
pub fn push_left(width: usize, word: &[u8], out: &mut Vec<u8>) -> Result<(), AllocError>
    ensures { OnOk result (out.new.items ≡ out.old.items ++ at_left width word.now) }
{
    out.extend_from_slice(word)?;
    push_spaces(width.saturating_sub(word.len()), out)
}
