//! The names of the items that the operators' scripts add. The map before the run doesn't have the
//! ids of these new items.

ghost use Rattle.std.specs.Prelude.{◌≡◌, ◌++◌, IfOk, List, OnOk, flat_map, map as each};
ghost use Rattle.crush_model.specs.Stands.{Stands};
ghost use Rattle.crush_model.specs.Table.{Row};
ghost use Rattle.crush_items.specs.Items.{item_step};
ghost use Rattle.crush_conflicts.specs.Conflicts.{OperatorData, tables_of};
ghost use Rattle.crush_conflicts.specs.MapsSeen.{IsOperator};
ghost use Rattle.crush_conflicts.specs.Pairwise.{Pairwise};
ghost use Rattle.crush_conflicts.specs.NewItems.{AreNewNames, new_name, new_names};

use crate::items::KnownItems;
use crate::maps::{Operator, RunItems};
use crush_items::Item;
use std::alloc::{AllocError, Allocator, Global};

impl<'a, A: Allocator> RunItems<'a, A> {
    /// Returns the names of all new items of the operators' maps, in ascending order. If new items
    /// of several maps have the same name, the list has this name several times. The function fails
    /// only if memory runs out.
    pub(crate) fn new_names(&self, alloc: Global) -> Result<Vec<&'a str>, AllocError>
        ensures { IfOk result (λ names. (t : List Row) (os : List OperatorData)
            → Stands self.now.before t → Pairwise IsOperator os self.now.operators.items
            → AreNewNames t (tables_of os) (each (λ n. n.now) names.items)) }
    {
        let mut names = all_new_names(alloc, &self.before, self.operators.as_slice())?;
        names.sort_unstable_by_key(|name| *name);
        Ok(names)
    }
}

/// Returns the names of the new items of all operators' maps. The names from one map are in the
/// order of the map's tree.
fn all_new_names<'a, A: Allocator>(
    alloc: Global,
    before: &KnownItems<'_, A>,
    operators: &[Operator<'a, A>],
) -> Result<Vec<&'a str>, AllocError>
    ensures { IfOk result (λ names. (t : List Row) (os : List OperatorData)
        → Stands before.now t → Pairwise IsOperator os operators.now
        → each (λ n. n.now) names.items ≡ flat_map (new_names t) (tables_of os)) }
{
    let mut names = Vec::new(alloc);
    for operator in operators {
        push_new_names(before, operator.items.in_order(), &mut names)?;
    }
    Ok(names)
}

/// Appends the names of those items whose ids the map before the run doesn't have.
fn push_new_names<'a, A: Allocator>(
    before: &KnownItems<'_, A>,
    items: &[Item<'a, A>],
    names: &mut Vec<&'a str>,
) -> Result<(), AllocError>
    ensures { (t : List Row) → Stands before.now t
        → OnOk result (each (λ n. n.now) names.new.items ≡ each (λ n. n.now) names.old.items
        ++ flat_map (λ x. new_name t (item_step x)) items.now) }
{
    for item in items {
        push_if_new(before, item, names)?;
    }
    Ok(())
}

fn push_if_new<'a, A: Allocator>(
    before: &KnownItems<'_, A>,
    item: &Item<'a, A>,
    names: &mut Vec<&'a str>,
) -> Result<(), AllocError>
    ensures { (t : List Row) → Stands before.now t
        → OnOk result (each (λ n. n.now) names.new.items ≡ each (λ n. n.now) names.old.items
        ++ new_name t (item_step item.now)) }
{
    let view = item.view();
    if !before.has(&view.id) {
        names.push(view.name)?;
    }
    Ok(())
}
