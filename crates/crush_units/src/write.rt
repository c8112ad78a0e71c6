//! Writes bytes to a writer, up to the first failure.

ghost use Rattle.std.specs.Prelude.{◌≡◌, flat_map, IfErr};
ghost use Rattle.crush_units.specs.Writes.{Writes, write_fault_number};

use std::io::Write;
use thiserror::Error;

/// Why a text wasn't written as a whole.
#[derive(Clone, Copy, Debug, PartialEq, Eq, Error)]
pub enum WriteFault {
    /// The writer failed, or it accepted no byte. A prefix of the text may have been written.
    #[error("the writer failed")]
    Write,
    /// No memory could be allocated. Nothing has been written.
    #[error("out of memory")]
    OutOfMemory,
}

impl WriteFault {
    /// Returns the fault's number: 1 for `Write`, 2 for `OutOfMemory`.
    pub fn number(self) -> u8
        ensures { result ≡ write_fault_number self }
    {
        match self {
            WriteFault::Write => 1,
            WriteFault::OutOfMemory => 2,
        }
    }
}

/// Writes all bytes to `out`, without flushing `out`.
///
/// Fails with `Write` if `out` returns an error or accepts no byte. An interrupted write is also
/// such an error: the function doesn't try it again. A proper prefix of the bytes has then been
/// written: a beginning, but not all of them. The function never fails with `OutOfMemory`.
pub fn put<W: Write>(out: &mut W, bytes: &[u8]) -> Result<(), WriteFault>
    ensures writes { Writes result (W.contents out.old) (W.contents out.new) bytes.now }
    ensures fault { IfErr result (λ fault. fault ≡ WriteFault.Write) }
{
    let mut done = 0;
    while done < bytes.len() {
        let (_, rest) = bytes.split_at(done);
        match out.write(rest) {
            Ok(0) => return Err(WriteFault::Write),
            Ok(count) => done += count,
            Err(_) => return Err(WriteFault::Write),
        }
    }
    Ok(())
}

/// Writes the parts to `out`, one after the other, in the same way as [`put`].
///
/// Fails with `Write` in the same cases as [`put`]. A proper prefix of the joined parts has then
/// been written: a beginning, but not all of them.
pub fn put_all<W: Write>(out: &mut W, parts: &[&[u8]]) -> Result<(), WriteFault>
    ensures writes { Writes result (W.contents out.old) (W.contents out.new)
        (flat_map (λ part. part.now) parts.now) }
    ensures fault { IfErr result (λ fault. fault ≡ WriteFault.Write) }
{
    for part in parts {
        put(out, *part)?;
    }
    Ok(())
}
