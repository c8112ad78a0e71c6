//! The lost changes of a run with several scripts.

ghost use Rattle.std.specs.Prelude.{◌≡◌, ◌++◌, [], IfOk, List, None, Some, OnOk, if◌then◌else◌, map as each};
ghost use Rattle.std.specs.Option.{option_map};
ghost use Rattle.crush_model.specs.Stands.{Stands};
ghost use Rattle.crush_model.specs.Table.{Row};
ghost use Rattle.crush_edits.specs.Setting.{SettingData};
ghost use Rattle.crush_map.specs.MapData.{MapStands};
ghost use Rattle.crush_history.specs.HistoryText.{names_of};
ghost use Rattle.crush_history.specs.Script.{scripts_data};
ghost use Rattle.crush_compare.specs.Equal.{same_text};
ghost use Rattle.crush_conflicts.specs.Conflicts.{AreConflicts, OperatorData, new_case, new_lines, old_lines, operators_from};
ghost use Rattle.crush_conflicts.specs.Lines.{case_line};
ghost use Rattle.crush_conflicts.specs.MapsSeen.{IsMapAlone, IsOperator};
ghost use Rattle.crush_conflicts.specs.NewItems.{each_once};
ghost use Rattle.crush_conflicts.specs.Pairwise.{Pairwise};

use crate::alone::map_alone;
use crate::items::KnownItems;
use crate::lines::push_case;
use crate::maps::{Operator, RunItems};
use crate::values::Naming;
use crush_compare::same_text;
use crush_history::{Entry, Script};
use crush_map::{CrushMap, Setting};
use std::alloc::{AllocError, Allocator, Global};

/// An operator's name, and the map that results if only this operator's script runs.
#[derive(Drop)]
pub(crate) struct MapAlone<'a, A: Allocator> {
    pub name: &'a str,
    pub map: CrushMap<A>,
}

/// Returns the text of the lost changes, which has a line for each item with a lost change. A
/// change is lost if an operator's script makes the change when only this script runs, and the map
/// after the run doesn't have the change.
///
/// `before` is the map before the run, and `after` is the map after the run. In this run, the
/// operators of `scripts` made the calls of `entries`. The function uses the name of each script,
/// but not its calls. The lines of the items of `before` come first, in the order of the tree of
/// `before`. The lines of new items follow, in ascending order of their names. `specs/Lines.antt`
/// describes the form of a line. The function fails only if memory runs out.
///
/// For each operator, the function applies the operator's calls to a copy of `before`. Then it
/// looks up each item of `before` by its id, once in each of these maps and once in `after`. Each
/// of these lookups is a binary search. The function looks up new items by their names.
pub fn lost_changes<'a, A: Allocator + Clone>(
    alloc: Global,
    before: &'a CrushMap<A>,
    after: &'a CrushMap<A>,
    scripts: &'a [Script],
    entries: &[Entry],
) -> Result<Vec<u8>, AllocError>
    ensures { IfOk result (λ lines. (s : SettingData) (t z : List Row) → MapStands before.now s t
        → Stands after.now.forest z
        → AreConflicts s t (operators_from s t entries.now 0 (names_of (scripts_data scripts.now))) z
        lines.items) }
{
    let maps = maps_alone(alloc, before, scripts, entries)?;
    lines_of(alloc, before, after, maps.as_slice())
}

/// Returns the text of the lost changes. `maps` has the map of each operator, which results if only
/// this operator's script runs.
///
/// This function borrows all maps for the same lifetime `'a`. [`lost_changes`] can't do this in its
/// own body, because there it owns the maps of the operators.
fn lines_of<'a, A: Allocator>(
    alloc: Global,
    before: &'a CrushMap<A>,
    after: &'a CrushMap<A>,
    maps: &'a [MapAlone<'_, A>],
) -> Result<Vec<u8>, AllocError>
    ensures { IfOk result (λ lines. (s : SettingData) (t z : List Row) (os : List OperatorData)
        → MapStands before.now s t → Stands after.now.forest z → Pairwise IsMapAlone os maps.now
        → AreConflicts s t os z lines.items) }
{
    let items = RunItems {
        before: KnownItems::of(alloc, before)?,
        operators: operators_of(alloc, maps)?,
        after: KnownItems::of(alloc, after)?,
    };
    conflict_lines(alloc, before.setting(), &items)
}

/// Returns the map of each operator, in the order of `scripts`. An operator's map results if only
/// this operator's script runs.
fn maps_alone<'a, A: Allocator + Clone>(
    alloc: Global,
    before: &CrushMap<A>,
    scripts: &'a [Script],
    entries: &[Entry],
) -> Result<Vec<MapAlone<'a, A>>, AllocError>
    ensures { IfOk result (λ maps. (s : SettingData) (t : List Row) → MapStands before.now s t
        → Pairwise IsMapAlone (operators_from s t entries.now 0 (names_of (scripts_data scripts.now)))
        maps.items) }
{
    let mut maps = Vec::new(alloc);
    for (operator, script) in scripts.iter().enumerate() {
        let map = map_alone(before, operator, entries)?;
        let own = MapAlone {
            name: script.name.as_str(),
            map,
        };
        let Ok(()) = maps.push(own) else {
            return Err(AllocError);
        };
    }
    Ok(maps)
}

/// Returns each operator with the items of its map.
fn operators_of<'a, A: Allocator>(
    alloc: Global,
    maps: &'a [MapAlone<'_, A>],
) -> Result<Vec<Operator<'a, A>>, AllocError>
    ensures { IfOk result (λ operators. (os : List OperatorData) → Pairwise IsMapAlone os maps.now
        → Pairwise IsOperator os operators.items) }
{
    let mut operators = Vec::new(alloc);
    for alone in maps {
        let items = KnownItems::of(alloc, &alone.map)?;
        let own = Operator {
            name: alone.name,
            items,
        };
        let Ok(()) = operators.push(own) else {
            return Err(AllocError);
        };
    }
    Ok(operators)
}

fn conflict_lines<A: Allocator>(
    alloc: Global,
    setting: &Setting,
    items: &RunItems<'_, A>,
) -> Result<Vec<u8>, AllocError>
    ensures { IfOk result (λ lines. (t z : List Row) (os : List OperatorData)
        → Stands items.now.before t → Stands items.now.after z
        → Pairwise IsOperator os items.now.operators.items
        → AreConflicts setting.now t os z lines.items) }
{
    let naming = Naming {
        setting,
        known: &items.before,
    };
    let names = items.new_names(alloc)?;
    let mut lines = Vec::new(alloc);
    push_old_lines(alloc, &naming, items, &mut lines)?;
    push_new_lines(alloc, &naming, items, names.as_slice(), &mut lines)?;
    Ok(lines)
}

/// Appends a line for each item of the map before the run that has a lost change. The lines are in
/// the order of this map's tree.
fn push_old_lines<'a, A: Allocator>(
    alloc: Global,
    naming: &Naming<'_, 'a, A>,
    items: &RunItems<'a, A>,
    lines: &mut Vec<u8>,
) -> Result<(), AllocError>
    ensures { (t z : List Row) (os : List OperatorData) → Stands naming.now.known.now t
        → Stands items.now.before t → Stands items.now.after z
        → Pairwise IsOperator os items.now.operators.items
        → OnOk result (lines.new.items ≡ lines.old.items
        ++ old_lines naming.now.setting.now t os z) }
{
    let all = items.before.in_order();
    for item in all {
        let Ok(case) = items.old_case(alloc, item) else {
            return Err(AllocError);
        };
        push_case(alloc, naming, &case, lines)?;
    }
    Ok(())
}

/// Appends a line for each new item whose name is in `names` and that has a lost change. If equal
/// names follow one another in `names`, only the first of them counts.
fn push_new_lines<'a, A: Allocator>(
    alloc: Global,
    naming: &Naming<'_, 'a, A>,
    items: &RunItems<'a, A>,
    names: &[&'a str],
    lines: &mut Vec<u8>,
) -> Result<(), AllocError>
    ensures { (t z : List Row) (os : List OperatorData) → Stands naming.now.known.now t
        → Stands items.now.before t → Stands items.now.after z
        → Pairwise IsOperator os items.now.operators.items
        → OnOk result (lines.new.items ≡ lines.old.items
        ++ new_lines naming.now.setting.now t os z (each_once None (each (λ n. n.now) names.now))) }
{
    let mut last = None;
    for name in names {
        push_new_line(alloc, naming, items, last, *name, lines)?;
        last = Some(*name);
    }
    Ok(())
}

/// Appends the line of the new item with this name if the item has a lost change. If `last` is the
/// same name, appends nothing. `last` is the name before this one in the list.
fn push_new_line<'a, A: Allocator>(
    alloc: Global,
    naming: &Naming<'_, 'a, A>,
    items: &RunItems<'a, A>,
    last: Option<&str>,
    name: &'a str,
    lines: &mut Vec<u8>,
) -> Result<(), AllocError>
    ensures { (t z : List Row) (os : List OperatorData) → Stands naming.now.known.now t
        → Stands items.now.before t → Stands items.now.after z
        → Pairwise IsOperator os items.now.operators.items
        → OnOk result (lines.new.items ≡ lines.old.items
        ++ (if same_text (option_map (λ n. n.now) last.entry) (Some name.now) then []
        else case_line naming.now.setting.now t (new_case t os z name.now))) }
{
    if same_text(last, Some(name)) {
        return Ok(());
    }
    let Ok(case) = items.new_case(alloc, name) else {
        return Err(AllocError);
    };
    push_case(alloc, naming, &case, lines)
}
