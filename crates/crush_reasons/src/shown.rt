//! Shows bytes of a job, of a map or of the command line without control characters.

ghost use Rattle.std.specs.Prelude.{◌≡◌, ◌++◌, OnOk, map};
ghost use Rattle.crush_reasons.specs.Shown.{shown_byte, told};

use crate::words::push_all;
use std::alloc::AllocError;

/// The largest number of bytes of a line or of a word that are shown.
pub(crate) const MOST_SHOWN: usize = 72;

/// Returns the byte that a message shows in place of `byte`, so that no message sends a control
/// character to a terminal. A byte from 32 to 126 is shown as it is, a tab or a carriage return as
/// a space, and any other byte as `?`.
pub fn shown_byte(byte: u8) -> u8
    ensures { result ≡ shown_byte byte }
{
    match byte {
        32..=126 => byte,
        b'\t' | b'\r' => b' ',
        _ => b'?',
    }
}

pub(crate) fn push_shown(bytes: &[u8], text: &mut Vec<u8>) -> Result<(), AllocError>
    ensures { OnOk result (text.new.items ≡ text.old.items ++ map shown_byte bytes.now) }
{
    for byte in bytes {
        let Ok(()) = text.push(shown_byte(*byte)) else {
            return Err(AllocError);
        };
    }
    Ok(())
}

/// Appends a word in backquotes. Only the first 72 bytes of the word are shown.
#[tactic(auto, unfolding(crate::specs::Shown::told))]
pub(crate) fn push_told(word: &[u8], text: &mut Vec<u8>) -> Result<(), AllocError>
    ensures { OnOk result (text.new.items ≡ text.old.items ++ told word.now) }
{
    let (front, _) = word.split_at(word.len().min(MOST_SHOWN));
    text.extend_from_slice(b"`")?;
    push_shown(front, text)?;
    text.extend_from_slice(b"`")
}
