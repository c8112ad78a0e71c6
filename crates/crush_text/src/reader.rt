//! The reader of a map's text. The submodule `statement` reads the statements one after the other.
//! To read the rest of a statement after its first word, `statement` calls the submodule for this
//! kind of statement, for example `bucket`. The submodules `roles` and `word` read single words.

ghost use Rattle.std.specs.Prelude.{◌≡◌, ℕ, List, IfOk, IfErr};
ghost use Rattle.crush_edits.specs.Setting.{SettingData};
ghost use Rattle.crush_model.specs.Table.{Row};
ghost use Rattle.crush_model.specs.Stands.{Stands};
ghost use Rattle.crush_map.specs.MapData.{MapStands};
ghost use Rattle.crush_text.specs.Document.{IsMapText};
ghost use Rattle.crush_text.specs.Flaw.{IsOutOfMemory, IsFlawOrOutOfMemory};
ghost use Rattle.crush_text.specs.InTime.{IsFoundInTime};

mod bucket;
mod device;
mod fault_without_memory;
mod items;
mod roles;
mod rule;
mod statement;
mod step;
mod tunable;
mod type_line;
mod word;

use crate::adjusted::Adjusted;
use crate::fault::TextFault;
use crate::reader::fault_without_memory::fault_without_memory;
use crush_builder::MapBuilder;
use crush_map::{CrushMap, Hashing};
use crush_units::Reader;
use std::alloc::{Allocator, Global};

/// Reads the text of a map. `text` is the part of the text that hasn't been read yet. `builder` has
/// the map as far as the text before this part describes it. The builder doesn't have a rule whose
/// closing brace hasn't been read: such a rule is stored separately, in memory of `global`. Each
/// method reads the part of the text that its name says. If this part has a fault, the method fails
/// with the first fault. If memory runs out, the method can fail with `OutOfMemory` instead.
#[derive(Drop)]
struct MapReader<'a, A: Allocator> {
    text: Reader<'a>,
    builder: MapBuilder<A>,
    global: Global,
}

/// Reads the text of a map in the form that `crushtool` prints, and returns the map.
///
/// The second value of the result counts the buckets for which the text gives a weight that isn't
/// the sum of the weights of the devices below the bucket. In the returned map, each of these
/// buckets has this sum instead.
///
/// If the text isn't the text of a map, the call fails with the first fault of the text. If memory
/// runs out, the call can fail with [`TextFaultKind::OutOfMemory`] instead. In this case, the text
/// has no fault up to the place of this error. Three parts of Ceph's grammar aren't supported:
/// weight sets (`choose_args`), the steps of MSR rules (`choosemsr`) and the positions of items
/// (`pos`). At such a part, the call fails with [`TextFaultKind::LeftOut`]. docs/user/FORMATS.md
/// describes the grammar, and docs/user/RULES.md lists the faults, each with its place.
pub fn read_map(alloc: Global, text: &[u8]) -> Result<(CrushMap<Global>, Adjusted), TextFault>
    ensures map { IfOk result (λ m. (t : List Row)
        × IsMapText text.now m.0.setting t m.1 × Stands m.0.forest t) }
    ensures spelled { (s : SettingData) (t : List Row) (n : ℕ) → IsMapText text.now s t n
        → IfOk result (λ m. MapStands m.0 s t × (m.1 ≡ n)) }
    ensures only { (s : SettingData) (t : List Row) (n : ℕ) → IsMapText text.now s t n
        → IfErr result IsOutOfMemory }
    ensures flaw { IfErr result (IsFlawOrOutOfMemory text.now) }
    ensures memory { IfErr result (IsFoundInTime text.now) }
{
    read_map_in(alloc, Hashing::plain(), alloc, text)
}

/// Reads the text of a map as [`read_map`] does, but with a given allocator and hashing. The call
/// makes the same promises about its result as [`read_map`]. The types, tunables and rules of the
/// map are stored in memory of `global`, and the rest of the map in memory of `alloc`. `hashing`
/// says how the indexes of the map hash names and ids. Pass a `hashing` with random keys if the
/// text comes from an untrusted source. Without random keys, the author of the text can choose
/// names that all have the same hash, and then look-ups are slow.
pub fn read_map_in<A: Allocator + Clone>(
    global: Global,
    hashing: Hashing,
    alloc: A,
    text: &[u8],
) -> Result<(CrushMap<A>, Adjusted), TextFault>
    ensures map { IfOk result (λ m. (t : List Row)
        × IsMapText text.now m.0.setting t m.1 × Stands m.0.forest t) }
    ensures spelled { (s : SettingData) (t : List Row) (n : ℕ) → IsMapText text.now s t n
        → IfOk result (λ m. MapStands m.0 s t × (m.1 ≡ n)) }
    ensures only { (s : SettingData) (t : List Row) (n : ℕ) → IsMapText text.now s t n
        → IfErr result IsOutOfMemory }
    ensures flaw { IfErr result (IsFlawOrOutOfMemory text.now) }
    ensures memory { IfErr result (IsFoundInTime text.now) }
{
    let mut words = Reader::new(text);
    let Ok(builder) = MapBuilder::with_hashing(global, hashing, alloc) else {
        return Err(fault_without_memory(&mut words));
    };
    let mut reader = MapReader {
        text: words,
        builder,
        global,
    };
    reader.statements()?;
    let adjusted = reader.builder.adjusted();
    Ok((reader.builder.finish(), Adjusted { buckets: adjusted }))
}
