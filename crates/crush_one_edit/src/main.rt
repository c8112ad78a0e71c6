//! An example of a program with one thread that uses the library. The program makes two edits. For
//! each edit, the program reads the same text of a map, applies the edit to the map, and prints the
//! text of the edited map. Then it prints a line with the result of the edit. The first edit
//! succeeds. The second edit is refused, so the program prints only the line with the result.
#![tactic(auto)]

ghost use Rattle.std.specs.Prelude.{◌≡◌, ℕ, List, IfOk};
ghost use Rattle.std.specs.Io.KnownBytes.{Appends, Keeps};
ghost use Rattle.crush_model.specs.Table.{Row};
ghost use Rattle.crush_edits.specs.declared.refusal.EditFault.{EditFault as DeclaredFault};
ghost use Rattle.crush_edits.specs.declared.refusal.Refusal.{Refusal as DeclaredRefusal};
ghost use Rattle.crush_edits.specs.Answer.{done, refused};
ghost use Rattle.crush_edits.specs.Edit.{edit};
ghost use Rattle.crush_edits.specs.Setting.{SettingData};
ghost use Rattle.crush_text.specs.declared.fault.TextFault.{TextFault as DeclaredFlaw};
ghost use Rattle.crush_text.specs.Document.{IsMapText};
ghost use Rattle.crush_text.specs.Flaw.{IsFlawOrOutOfMemory};
ghost use Rattle.crush_print.specs.MapText.{map_text};

use crush::{
    Done, Edit, EditFault, Name, TextFault, Weight, WeightForm, WriteFault, read_map, write_map,
};
use std::alloc::Global;
use std::io::Write;
use thiserror::Error;

/// The text of the map that is edited. The program prints an edited map in a longer form than this
/// text. For example, the printed text has comment lines, and a line `hash 0` in each bucket.
const MAP: &[u8] = b"device 0 osd.0
device 1 osd.1
type 1 host
type 11 root
host h1 { id -2 alg straw2 item osd.0 weight 1.0 item osd.1 weight 1.5 }
root default { id -1 alg straw2 item h1 }
";

/// The reason why an edit of a text failed.
#[derive(Clone, Copy, Debug, PartialEq, Eq, Error)]
enum Fault {
    /// The text isn't the text of a map, or there was no memory for the map.
    #[error("{0}")]
    Text(TextFault),
    /// The edit was refused, or there was no memory for the edit.
    #[error("{0}")]
    Edit(EditFault),
    /// The writer failed, or there was no memory for the text that is printed.
    #[error("{0}")]
    Write(WriteFault),
}

fn main(rt: HostRuntime) -> anyhow::Result<()> {
    // An edit is a plain value. Its names and weights are checked when they are created from text.
    let osd = Name::read(rt.alloc(), b"osd.1")?;
    let weight = Weight::read("0.5")?;
    print_edited(&rt, MAP, &Edit::Reweight { name: osd, weight })?;
    // Only an empty bucket can be removed. The bucket h1 has two devices, so this edit is refused.
    let host = Name::read(rt.alloc(), b"h1")?;
    print_edited(&rt, MAP, &Edit::Remove { name: host })
}

/// Edits the map of the text, and prints the result. A refusal is an expected result, and it is
/// printed like a success. Any other fault is returned, and ends the program with an error.
fn print_edited(rt: &HostRuntime, text: &[u8], asked: &Edit) -> anyhow::Result<()> {
    match edit_text(rt.alloc(), text, asked, &mut rt.stdout()) {
        Ok(done) => {
            println!(rt; "# done changed {} made {}", done.changed as u8, done.made)?;
        }
        Err(Fault::Edit(EditFault::Refused(refusal))) => {
            println!(rt; "# refused {} {}", refusal.name(), refusal.error())?;
        }
        Err(fault) => return Err(fault.into()),
    }
    Ok(())
}

/// Reads a map from `text`, applies the edit `asked` to this map, and writes the text of the edited
/// map to `out`. Returns whether the edit changed the map, and how many buckets it created. If the
/// text has a fault, or if the edit is refused or fails, nothing is written. If a write fails, a
/// part of the text may be written.
///
/// The clauses of the contract say what a caller can rely on. They describe a map by its setting
/// (types, tunables and rules) and its table (a row for each device and each bucket):
///
/// - `done`: if the text is the text of a map and the call succeeds, then the definition `edit`,
/// which states the rules of edits, gives the same result for this map and this edit. Exactly the
/// text of the edited map has been appended to `out`, with weights rounded to five digits after the
/// point. The edited map has the new table and the old setting.
/// - `refused`: if the text is the text of a map and the call fails with a refusal, then the
/// definition `edit` refuses this edit of this map for the same reason.
/// - `flaw`: if the call fails with `Fault::Text`, then the text has this fault, or memory has run
/// out.
/// - `nothing`: if the edit was refused, or memory for the edit ran out, then `out` is unchanged.
fn edit_text<W: Write>(alloc: Global, text: &[u8], asked: &Edit, out: &mut W) -> Result<Done, Fault>
    ensures done { (s : SettingData) (t : List Row) (n : ℕ) → IsMapText text.now s t n
        → IfOk result (λ d. (u : List Row) × (edit s t asked.now ≡ done d.changed d.made u)
        × Appends (W.contents out.old) (W.contents out.new) (map_text WeightForm.Rounded s u)) }
    ensures refused { (r : DeclaredRefusal) → result ≡ Err (Fault.Edit (EditFault.Refused r))
        → (s : SettingData) (t : List Row) (n : ℕ) → IsMapText text.now s t n
        → edit s t asked.now ≡ refused r }
    ensures flaw { (f : DeclaredFlaw) → result ≡ Err (Fault.Text f) → IsFlawOrOutOfMemory text.now f }
    ensures nothing { (f : DeclaredFault) → result ≡ Err (Fault.Edit f)
        → Keeps (W.contents out.old) (W.contents out.new) }
{
    // Parses the text. `_adjusted` counts the buckets whose weight in the text isn't the sum of the
    // weights of their items. In the map, the weight of each bucket is this sum.
    let (mut map, _adjusted) = match read_map(alloc, text) {
        Ok(read) => read,
        Err(fault) => return Err(Fault::Text(fault)),
    };
    // Changes the map. If the edit is refused or fails, `apply` leaves the map unchanged.
    let done = match map.apply(asked) {
        Ok(done) => done,
        Err(fault) => return Err(Fault::Edit(fault)),
    };
    // Prints the map as a text that can be read again.
    match write_map(alloc, &map, WeightForm::Rounded, out) {
        Ok(()) => Ok(done),
        Err(fault) => Err(Fault::Write(fault)),
    }
}
