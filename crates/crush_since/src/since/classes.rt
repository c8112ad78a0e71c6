//! Finds the classes whose total weights differ between two maps, and the new classes that no rule
//! takes.

ghost use Rattle.std.specs.Prelude.{◌≡◌, ◌++◌, List, OnOk, IfOk, flat_map, length, get_or, ◌<◌, map as each};
ghost use Rattle.std.specs.Option.{option_map};
ghost use Rattle.crush_edits.specs.Setting.{RuleData};
ghost use Rattle.crush_edits.specs.SettingSeen.{rule_data, step_data};
ghost use Rattle.crush_model.specs.Stands.{Stands};
ghost use Rattle.crush_model.specs.Table.{Row};
ghost use Rattle.crush_items.specs.Items.{item_entry};
ghost use Rattle.crush_since.specs.Classes.{change_of_class, class_change, class_changes, class_of, classes, entry_class, if_changed, is_reweighed, is_untaken, rule_classes, step_class};
ghost use Rattle.crush_since.specs.ClassesSeen.{class_change_data};
ghost use Rattle.crush_since.specs.Collected.{collected};
ghost use Rattle.crush_since.specs.CollectedSeen.{added, item_data, use_data};
ghost use Rattle.crush_since.specs.declared.since.collected.Source.TheVariants.{Old, New, Rule};

use crate::since::collected::{ClassItem, ClassUse, Source, collected};
use crush_items::{Item, Items};
use crush_map::{CrushMap, KeptRule, KeptStep};
use crush_units::Name;
use std::alloc::{AllocError, Allocator, Global};

/// A class that has changed: either the total weight of its devices differs between the two maps,
/// or the class is new and no rule takes it.
#[derive(Clone, Copy, Debug)]
pub struct ClassChange<'a> {
    pub name: &'a str,
    /// The total weight of the class's devices in the old map, in units of 1/65536.
    pub was: u128,
    /// The total weight of the class's devices in the new map, in units of 1/65536.
    pub is: u128,
    /// Whether the class is new: a device of the new map has the class, and no device of the old
    /// map has it.
    pub is_new: bool,
    /// Whether a rule of the new map has a step that takes the class.
    pub is_taken: bool,
}

/// Returns the classes that have changed, by name in ascending order. A class has changed if the
/// total weight of its devices differs between the two maps. A class has also changed if a device
/// of the new map has it, no device of the old map has it, and no rule of the new map takes it.
/// Devices that no bucket holds count, too. The call fails only if memory runs out.
pub fn class_changes<'a, A: Allocator, B: Allocator>(
    alloc: Global,
    old: &'a CrushMap<A>,
    new: &'a CrushMap<B>,
) -> Result<Vec<ClassChange<'a>>, AllocError>
    ensures { IfOk result (λ changes. (t u : List Row) → Stands old.now.forest t
        → Stands new.now.forest u
        → each class_change_data changes.items ≡ class_changes t u new.now.setting.rules) }
{
    let uses = classes_of(alloc, old, new)?;
    let mut changes = Vec::new(alloc);
    push_changes(uses.as_slice(), &mut changes)?;
    Ok(changes)
}

fn push_changes<'a>(
    uses: &[ClassUse<'a>],
    changes: &mut Vec<ClassChange<'a>>,
) -> Result<(), AllocError>
    ensures { OnOk result (each class_change_data changes.new.items
        ≡ each class_change_data changes.old.items
        ++ flat_map change_of_class (each use_data uses.now)) }
{
    for index in 0..uses.len() {
        let class = class_at(uses, index);
        push_if_changed(change_of(class), changes)?;
    }
    Ok(())
}

fn change_of<'a>(class: &ClassUse<'a>) -> ClassChange<'a>
    ensures { class_change_data result ≡ class_change (use_data class.now) }
{
    ClassChange {
        name: class.name,
        was: class.old_weight,
        is: class.new_weight,
        is_new: class.old_devices == 0 && class.new_devices != 0,
        is_taken: class.takes != 0,
    }
}

fn push_if_changed<'a>(
    class: ClassChange<'a>,
    changes: &mut Vec<ClassChange<'a>>,
) -> Result<(), AllocError>
    ensures { OnOk result (each class_change_data changes.new.items
        ≡ each class_change_data changes.old.items ++ if_changed (class_change_data class.entry)) }
{
    if is_reweighed(&class) || is_untaken(&class) {
        changes.push(class)?;
    }
    Ok(())
}

/// Whether the total weight of the class's devices differs between the two maps.
pub(crate) fn is_reweighed(class: &ClassChange<'_>) -> bool
    ensures { result ≡ is_reweighed (class_change_data class.now) }
{
    class.was != class.is
}

/// Whether the class is new and no rule takes it: a device of the new map has the class, and no
/// device of the old map has it.
pub(crate) fn is_untaken(class: &ClassChange<'_>) -> bool
    ensures { result ≡ is_untaken (class_change_data class.now) }
{
    class.is_new && !class.is_taken
}

/// Returns each class that a device of at least one map has, or that a rule of the new map takes.
/// Each class comes once, in ascending order of the names.
fn classes_of<'a, A: Allocator, B: Allocator>(
    alloc: Global,
    old: &'a CrushMap<A>,
    new: &'a CrushMap<B>,
) -> Result<Vec<ClassUse<'a>>, AllocError>
    ensures { IfOk result (λ uses. (t u : List Row) → Stands old.now.forest t
        → Stands new.now.forest u
        → each use_data uses.items ≡ classes t u new.now.setting.rules) }
{
    let before = Items::of(alloc, old)?;
    let after = Items::of(alloc, new)?;
    let mut items = Vec::new(alloc);
    push_devices(before.all.as_slice(), Source::Old, &mut items)?;
    push_devices(after.all.as_slice(), Source::New, &mut items)?;
    push_rules(new.setting().rules(), &mut items)?;
    collected(alloc, items)
}

fn push_devices<'a, A: Allocator>(
    listed: &[Item<'a, A>],
    source: Source,
    items: &mut Vec<ClassItem<'a>>,
) -> Result<(), AllocError>
    ensures { OnOk result (each item_data items.new.items ≡ each item_data items.old.items
        ++ flat_map (λ l. entry_class source (item_entry l)) listed.now) }
{
    for item in listed {
        push_device(item, source, items)?;
    }
    Ok(())
}

fn push_device<'a, A: Allocator>(
    item: &Item<'a, A>,
    source: Source,
    items: &mut Vec<ClassItem<'a>>,
) -> Result<(), AllocError>
    ensures { OnOk result (each item_data items.new.items ≡ each item_data items.old.items
        ++ entry_class source (item_entry item.now)) }
{
    let view = item.seen().view;
    push_class(view.class, source, view.weight.units(), items)
}

fn push_rules<'a>(rules: &'a [KeptRule], items: &mut Vec<ClassItem<'a>>) -> Result<(), AllocError>
    ensures { OnOk result (each item_data items.new.items ≡ each item_data items.old.items
        ++ rule_classes (each rule_data rules.now)) }
{
    for rule in rules {
        push_steps(rule.steps.as_slice(), items)?;
    }
    Ok(())
}

fn push_steps<'a>(steps: &'a [KeptStep], items: &mut Vec<ClassItem<'a>>) -> Result<(), AllocError>
    ensures { OnOk result (each item_data items.new.items ≡ each item_data items.old.items
        ++ flat_map step_class (each step_data steps.now)) }
{
    for step in steps {
        push_step(step, items)?;
    }
    Ok(())
}

fn push_step<'a>(step: &'a KeptStep, items: &mut Vec<ClassItem<'a>>) -> Result<(), AllocError>
    ensures { OnOk result (each item_data items.new.items ≡ each item_data items.old.items
        ++ step_class (step_data step.now)) }
{
    match step {
        KeptStep::Take(_, class) => push_class(class_named(class), Source::Rule, 0, items),
        _ => Ok(()),
    }
}

/// Returns the class that a step takes, or `None` if the step takes no class.
pub(crate) fn class_named(class: &Option<Name<Global>>) -> Option<&str>
    ensures { option_map (λ c. c.now) result ≡ class.now }
{
    match class {
        Some(class) => Some(class.as_str()),
        None => None,
    }
}

fn push_class<'a>(
    class: Option<&'a str>,
    source: Source,
    weight: u32,
    items: &mut Vec<ClassItem<'a>>,
) -> Result<(), AllocError>
    ensures { OnOk result (each item_data items.new.items ≡ each item_data items.old.items
        ++ class_of (added source weight) (option_map (λ c. c.now) class.entry)) }
{
    match class {
        Some(name) => {
            items.push(ClassItem {
                name,
                source,
                weight,
            })?;
            Ok(())
        }
        None => Ok(()),
    }
}

fn class_at<'b, 'a>(uses: &'b [ClassUse<'a>], at: usize) -> &'b ClassUse<'a>
    requires { at < length uses.now }
    ensures { result.now ≡ get_or uses.now at result.now }
{
    &uses[at]
}
