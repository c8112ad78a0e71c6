//! The output that a run prints. For this output, the run may need the map of `--since` or `--to`,
//! which this module reads.

ghost use Rattle.std.specs.Prelude.{◌≡◌, IfErr, IfOk, []};
ghost use Rattle.crush_input.specs.Notes.{AreNotesOfSecondMap};
ghost use Rattle.crush_input.specs.Options.{IsOutputFault, AreNotesOfOutputFault, IsOutputOf, IsMapFault, IsOldOf, IsOldTreeOf, IsPartOf, IsTreeOf, IsTargetOf, name_text};

use crate::aborted::Aborted;
use crate::fault::{RunFault, SecondMap};
use crate::files::Opens;
use crate::second_map::read_second_map;
use crush_map::CrushMap;
use crush_options::{ChangeTree, Mode, OutputSpec, Since, Target, TreePartSpec};
use std::alloc::{AllocError, Global};
use std::random::RandomSource;

/// The map of `--since`, for a list of what has changed since this map.
#[derive(Drop)]
pub struct OldMap {
    pub map: CrushMap<Global>,
    /// Whether the items of both maps are matched by their names and not by their ids.
    pub by_name: bool,
    /// The name of an item. Only the changes of this item are printed, and the changes of all items
    /// that are or were below it. If this is `None`, the changes of all items are printed.
    pub under: Option<String>,
}

/// The map of `--since`, for a tree of what has changed since this map, and the part of this tree
/// that is printed.
#[derive(Drop)]
pub struct OldTree {
    pub map: CrushMap<Global>,
    pub part: TreePartSpec,
}

/// The wanted map of `--to`, to which a plan leads, and how the plan is found and printed.
#[derive(Drop)]
pub struct TargetMap {
    pub map: CrushMap<Global>,
    /// Whether the commands are printed as Ceph's own commands.
    pub as_ceph: bool,
    /// Whether the buckets of both maps are matched by their names alone, and not by their ids.
    pub by_name: bool,
    /// The name of an item. The plan is limited to this item and to all items that are below it in
    /// either map. If this is `None`, the plan is for all items.
    pub under: Option<String>,
}

/// What is printed after the scripts have run.
#[derive(Drop)]
pub enum Output {
    /// The text of the map.
    Map,
    /// The tree of the map, or a part of it.
    Tree(TreePartSpec),
    /// What has changed since this old map, as a list of items.
    Since(OldMap),
    /// What has changed since this old map, as a tree or a part of a tree.
    Changes(OldTree),
    /// The commands of the scripts that changed the map, as Ceph's own commands.
    AsCeph,
    /// The commands of a plan, which lead from the map toward this wanted map.
    To(TargetMap),
}

/// How the job is run, and what is printed after the run.
#[derive(Drop)]
pub struct Request {
    pub mode: Mode,
    pub output: Output,
}

fn name_of(alloc: Global, name: &Option<String>) -> Result<Option<String>, AllocError>
    ensures { IfOk result (λ copy. name_text copy ≡ name_text name.now) }
{
    match name {
        Some(name) => Ok(Some(String::from_str(alloc, name.as_str())?)),
        None => Ok(None),
    }
}

fn part_of(alloc: Global, part: &TreePartSpec) -> Result<TreePartSpec, AllocError>
    ensures { IfOk result (IsPartOf part.now) }
{
    let under = name_of(alloc, &part.under)?;
    let down_to = name_of(alloc, &part.down_to)?;
    let class = name_of(alloc, &part.class)?;
    Ok(TreePartSpec {
        under,
        down_to,
        class,
    })
}

fn tree_of(alloc: Global, part: &TreePartSpec) -> Result<Output, Aborted>
    ensures output { IfOk result (IsTreeOf part.now) }
    ensures fault { IfErr result (λ aborted. aborted.fault ≡ RunFault.Memory) }
    ensures quiet { IfErr result (λ aborted. aborted.notes.items ≡ []) }
{
    match part_of(alloc, part) {
        Ok(part) => Ok(Output::Tree(part)),
        Err(_) => Err(Aborted::without_notes(alloc, RunFault::Memory)),
    }
}

fn old_of<H: AllocGlobal + RandomSource, F: Opens>(
    rt: &H,
    files: &F,
    explain: bool,
    since: &Since,
) -> Result<OldMap, Aborted>
    ensures old { IfOk result (IsOldOf (F.content files.now) since.now) }
    ensures fault { IfErr result (λ aborted.
        IsMapFault SecondMap.Since (F.content files.now since.now.map.bytes.items) aborted.fault) }
    ensures noted { IfErr result (λ aborted.
        AreNotesOfSecondMap explain since.now.map.bytes.items
        (F.content files.now since.now.map.bytes.items) aborted.fault aborted.notes.items) }
{
    let Ok(under) = name_of(rt.alloc(), &since.under) else {
        return Err(Aborted::without_notes(rt.alloc(), RunFault::Memory));
    };
    match read_second_map(rt, files, explain, SecondMap::Since, since.map.as_str()) {
        Ok(map) => Ok(OldMap {
            map,
            by_name: since.by_name,
            under,
        }),
        Err(aborted) => Err(aborted),
    }
}

fn old_tree_of<H: AllocGlobal + RandomSource, F: Opens>(
    rt: &H,
    files: &F,
    explain: bool,
    tree: &ChangeTree,
) -> Result<OldTree, Aborted>
    ensures old { IfOk result (IsOldTreeOf (F.content files.now) tree.now) }
    ensures fault { IfErr result (λ aborted.
        IsMapFault SecondMap.Since (F.content files.now tree.now.map.bytes.items) aborted.fault) }
    ensures noted { IfErr result (λ aborted.
        AreNotesOfSecondMap explain tree.now.map.bytes.items
        (F.content files.now tree.now.map.bytes.items) aborted.fault aborted.notes.items) }
{
    let Ok(part) = part_of(rt.alloc(), &tree.part) else {
        return Err(Aborted::without_notes(rt.alloc(), RunFault::Memory));
    };
    match read_second_map(rt, files, explain, SecondMap::Since, tree.map.as_str()) {
        Ok(map) => Ok(OldTree { map, part }),
        Err(aborted) => Err(aborted),
    }
}

fn target_of<H: AllocGlobal + RandomSource, F: Opens>(
    rt: &H,
    files: &F,
    explain: bool,
    target: &Target,
) -> Result<TargetMap, Aborted>
    ensures target { IfOk result (IsTargetOf (F.content files.now) target.now) }
    ensures fault { IfErr result (λ aborted.
        IsMapFault SecondMap.To (F.content files.now target.now.map.bytes.items) aborted.fault) }
    ensures noted { IfErr result (λ aborted.
        AreNotesOfSecondMap explain target.now.map.bytes.items
        (F.content files.now target.now.map.bytes.items) aborted.fault aborted.notes.items) }
{
    let Ok(under) = name_of(rt.alloc(), &target.under) else {
        return Err(Aborted::without_notes(rt.alloc(), RunFault::Memory));
    };
    match read_second_map(rt, files, explain, SecondMap::To, target.map.as_str()) {
        Ok(map) => Ok(TargetMap {
            map,
            as_ceph: target.as_ceph,
            by_name: target.by_name,
            under,
        }),
        Err(aborted) => Err(aborted),
    }
}

/// Returns the output that a run prints. If the command line names a second map (`--since` or
/// `--to`), this function reads that map.
///
/// If the second map's file can't be opened or read, is too long, or isn't a map, the function
/// fails with [`RunFault::SecondMap`]. With `explain`, notes then say where the fault in the map is
/// and why it is one, or why the file can't be read. If the file is too long, there are no notes.
/// If memory runs out, the function fails with [`RunFault::Memory`], without notes.
pub fn output_of<H: AllocGlobal + RandomSource, F: Opens>(
    rt: &H,
    files: &F,
    explain: bool,
    output_spec: &OutputSpec,
) -> Result<Output, Aborted>
    ensures output { IfOk result (IsOutputOf (F.content files.now) output_spec.now) }
    ensures fault { IfErr result (λ aborted.
        IsOutputFault (F.content files.now) output_spec.now aborted.fault) }
    ensures noted { IfErr result (λ aborted.
        AreNotesOfOutputFault (F.content files.now) explain output_spec.now aborted.fault aborted.notes.items) }
{
    match output_spec {
        OutputSpec::Map => Ok(Output::Map),
        OutputSpec::Tree(part) => tree_of(rt.alloc(), part),
        OutputSpec::Since(since) => match old_of(rt, files, explain, since) {
            Ok(old) => Ok(Output::Since(old)),
            Err(aborted) => Err(aborted),
        },
        OutputSpec::Changes(tree) => match old_tree_of(rt, files, explain, tree) {
            Ok(old) => Ok(Output::Changes(old)),
            Err(aborted) => Err(aborted),
        },
        OutputSpec::AsCeph => Ok(Output::AsCeph),
        OutputSpec::To(target) => match target_of(rt, files, explain, target) {
            Ok(target) => Ok(Output::To(target)),
            Err(aborted) => Err(aborted),
        },
    }
}
