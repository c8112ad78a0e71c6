//! Writes names from the command line in the form in which messages show them.

ghost use Rattle.std.specs.Prelude.{map};
ghost use Rattle.crush_units.specs.Writes.{Writes};
ghost use Rattle.crush_reasons.specs.Shown.{shown_byte};

use crush_reasons::shown_byte;
use crush_units::{WriteFault, put};
use std::io::Write;

/// Writes the bytes of a name to `out`, each in the form that [`shown_byte`] returns. If writing
/// fails, a proper prefix of these bytes has been written: a beginning, but not all of them.
pub(crate) fn put_shown<W: Write>(name: &[u8], out: &mut W) -> Result<(), WriteFault>
    ensures { Writes result (W.contents out.old) (W.contents out.new) (map shown_byte name.now) }
{
    for byte in name {
        put(out, &[shown_byte(*byte)])?;
    }
    Ok(())
}
