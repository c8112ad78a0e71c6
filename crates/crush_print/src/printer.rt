//! The printer of a map's text. Each submodule appends one section of this text.

ghost use Rattle.std.specs.Prelude.{IfOk, ◌≡◌, List, ◌++◌, OnOk};
ghost use Rattle.std.specs.Io.KnownBytes.{Keeps};
ghost use Rattle.crush_model.specs.Stands.{Stands};
ghost use Rattle.crush_model.specs.Table.{Row};
ghost use Rattle.crush_print.specs.MapText.{map_text, SameTablesPrintAlike, TakenBucketsAreNamed};
ghost use Rattle.crush_units.specs.Writes.{Writes};

mod buckets;
mod devices;
mod kinds;
mod rules;
mod tunables;

use crate::weight_form::WeightForm;
use buckets::push_roots;
use crush_map::CrushMap;
use crush_units::{WriteFault, put};
use devices::push_devices;
use kinds::push_kinds;
use rules::push_rules;
use std::alloc::{AllocError, Allocator, Global};
use std::io::Write;
use tunables::push_tunables;

/// Writes the text of a map in Ceph's form: its tunables, devices, types, buckets and rules, with
/// fixed lines between them. `form` is the form of all weights. docs/user/FORMATS.md describes the
/// text.
///
/// If a step of a rule takes a bucket, the printed step has the name that the bucket has now. The
/// whole text is created in memory of `alloc` before anything is written. If this fails with
/// `OutOfMemory`, nothing is written. After any other fault, a proper prefix of the text has been
/// written: the text from its beginning up to some byte before its end.
pub fn write_map<A: Allocator, W: Write>(
    alloc: Global,
    map: &CrushMap<A>,
    form: WeightForm,
    out: &mut W,
) -> Result<(), WriteFault>
    ensures writes { (t : List Row) → Stands map.now.forest t
        → Writes result (W.contents out.old) (W.contents out.new)
        (map_text form map.now.setting t) }
    ensures none { result ≡ Err WriteFault.OutOfMemory
        → Keeps (W.contents out.old) (W.contents out.new) }
{
    let Ok(text) = map_text(alloc, map, form) else {
        return Err(WriteFault::OutOfMemory);
    };
    put(out, text.as_slice())
}

/// Proves that two lawful tables with the same rows have the same text for each setting, even if
/// their rows are in different orders. (A table is a list with one row for each item of a map. A
/// setting consists of types, tunables and rules.) Does nothing at run time.
pub fn same_tables_print_alike()
    ensures { SameTablesPrintAlike }
{}

/// Proves a law about a setting that fits a table (the definition `Fits` of crush_edits). If a rule
/// of the setting takes a bucket, then the table has this bucket, and the rule is printed with the
/// name that the bucket has in the table. Does nothing at run time.
pub fn taken_buckets_are_named()
    ensures { TakenBucketsAreNamed }
{}

/// How many bytes a typical device adds to the text.
const USUAL_DEVICE: usize = 56;

/// How many bytes a typical bucket adds to the text.
const USUAL_BUCKET: usize = 112;

/// Returns the text of the map, with weights in the form `form`. The memory for the text is
/// allocated once, for the length that is typical for a map with so many devices and buckets. Only
/// a longer text needs more memory.
fn map_text<A: Allocator>(
    alloc: Global,
    map: &CrushMap<A>,
    form: WeightForm,
) -> Result<Vec<u8>, AllocError>
    ensures { IfOk result (λ text. (t : List Row) → Stands map.now.forest t
        → text.items ≡ map_text form map.now.setting t) }
{
    let counts = map.counts();
    let usual = counts.devices as usize * USUAL_DEVICE + counts.buckets as usize * USUAL_BUCKET;
    let mut text = Vec::with_capacity(alloc, usual)?;
    push_map(alloc, map, form, &mut text)?;
    Ok(text)
}

/// Appends the text of the map, with weights in the form `form`.
fn push_map<A: Allocator>(
    alloc: Global,
    map: &CrushMap<A>,
    form: WeightForm,
    out: &mut Vec<u8>,
) -> Result<(), AllocError>
    ensures { (t : List Row) → Stands map.now.forest t
        → OnOk result (out.new.items ≡ out.old.items ++ map_text form map.now.setting t) }
{
    let setting = map.setting();
    let forest = map.forest();
    push_tunables(setting, out)?;
    push_devices(alloc, forest, out)?;
    push_kinds(alloc, setting, out)?;
    push_roots(alloc, form, setting, forest, out)?;
    push_rules(setting, map, out)?;
    out.extend_from_slice(b"\n# end crush map\n")
}
