//! Looks up an item in all maps of a run: the map before the run, the map of each operator, and the
//! map after the run. An operator's map results if only this operator's script runs.

ghost use Rattle.std.specs.Prelude.{◌≡◌, ◌++◌, ◌∷◌, [], IfOk, List, OnOk, map as each};
ghost use Rattle.std.specs.Option.{option_map};
ghost use Rattle.crush_model.specs.Stands.{Stands};
ghost use Rattle.crush_model.specs.Table.{Row};
ghost use Rattle.crush_items.specs.ItemData.{item_of};
ghost use Rattle.crush_items.specs.Items.{item_entry, item_step};
ghost use Rattle.crush_conflicts.specs.CasesSeen.{case_data, found_data, found_of};
ghost use Rattle.crush_conflicts.specs.Conflicts.{OperatorData, found_by, new_case, old_case};
ghost use Rattle.crush_conflicts.specs.MapsSeen.{IsOperator};
ghost use Rattle.crush_conflicts.specs.Pairwise.{Pairwise};
ghost use Rattle.crush_conflicts.specs.NewItems.{new_item};

use crate::cases::{Case, Found};
use crate::items::{KnownItems, seen_of};
use crush_items::Item;
use crush_units::ItemId;
use std::alloc::{AllocError, Allocator, Global};

/// An operator's name, and the items of the map that results if only this operator's script runs.
#[derive(Drop)]
pub(crate) struct Operator<'a, A: Allocator> {
    pub name: &'a str,
    pub items: KnownItems<'a, A>,
}

/// The items of all maps of a run.
#[derive(Drop)]
pub(crate) struct RunItems<'a, A: Allocator> {
    pub before: KnownItems<'a, A>,
    pub operators: Vec<Operator<'a, A>>,
    pub after: KnownItems<'a, A>,
}

impl<'a, A: Allocator> RunItems<'a, A> {
    /// Looks up an item of the map before the run in all maps by its id, and returns what these
    /// maps say about the item. The function fails only if memory runs out.
    pub(crate) fn old_case<'r>(
        &'r self,
        alloc: Global,
        item: &Item<'a, A>,
    ) -> Result<Case<'r, 'a, A>, AllocError>
        ensures { IfOk result (λ case. (t z : List Row) (os : List OperatorData)
            → Stands self.now.before t → Stands self.now.after z
            → Pairwise IsOperator os self.now.operators.items
            → case_data case ≡ old_case t os z (item_step item.now)) }
    {
        let view = item.view();
        let alone = self.found_by_id(alloc, &view.id)?;
        Ok(Case {
            name: view.name,
            before: self.before.find(view.id),
            alone,
            after: self.after.find(view.id),
        })
    }

    /// Returns what each operator's map says about the item with this id.
    fn found_by_id<'r>(
        &'r self,
        alloc: Global,
        id: &ItemId,
    ) -> Result<Vec<Found<'r, 'a, A>>, AllocError>
        ensures { IfOk result (λ found. (os : List OperatorData)
            → Pairwise IsOperator os self.now.operators.items
            → each found_data found.items ≡ each (found_by (λ u. item_of u id.now)) os) }
    {
        let operators = self.operators.as_slice();
        let mut found = Vec::new(alloc);
        for operator in operators {
            let item = operator.items.item(*id);
            push_found(operator.name, item, &mut found)?;
        }
        Ok(found)
    }

    /// Looks up the new item with this name in each operator's map and in the map after the run,
    /// and returns what these maps say about the item. The function fails only if memory runs out.
    pub(crate) fn new_case<'r>(
        &'r self,
        alloc: Global,
        name: &'a str,
    ) -> Result<Case<'r, 'a, A>, AllocError>
        ensures { IfOk result (λ case. (t z : List Row) (os : List OperatorData)
            → Stands self.now.before t → Stands self.now.after z
            → Pairwise IsOperator os self.now.operators.items
            → case_data case ≡ new_case t os z name.now) }
    {
        let alone = self.found_by_name(alloc, name)?;
        Ok(Case {
            name,
            before: None,
            alone,
            after: seen_of(self.new_item(&self.after, name)),
        })
    }

    /// Returns what each operator's map says about the new item with this name.
    fn found_by_name<'r>(
        &'r self,
        alloc: Global,
        name: &str,
    ) -> Result<Vec<Found<'r, 'a, A>>, AllocError>
        ensures { IfOk result (λ found. (t : List Row) (os : List OperatorData)
            → Stands self.now.before t → Pairwise IsOperator os self.now.operators.items
            → each found_data found.items ≡ each (found_by (λ u. new_item t u name.now)) os) }
    {
        let operators = self.operators.as_slice();
        let mut found = Vec::new(alloc);
        for operator in operators {
            let item = self.new_item(&operator.items, name);
            push_found(operator.name, item, &mut found)?;
        }
        Ok(found)
    }

    /// Returns the item of `items` that has this name. Returns `None` if there is no such item, or
    /// if the item isn't new, which means that the map before the run has the item's id.
    #[tactic(auto, unfolding(crate::specs::NewItems::new_item))]
    fn new_item<'r>(&self, items: &'r KnownItems<'a, A>, name: &str) -> Option<&'r Item<'a, A>>
        ensures { (t u : List Row) → Stands self.now.before t → Stands items.now u
            → option_map (λ x. (item_entry x.now).item) result ≡ new_item t u name.now }
    {
        match items.locate(name) {
            None => None,
            Some(id) => {
                if self.before.has(&id) {
                    None
                } else {
                    items.item(id)
                }
            }
        }
    }
}

/// Appends what an operator's map says about an item. `name` is the operator's name.
fn push_found<'r, 'a, A: Allocator>(
    name: &'a str,
    item: Option<&'r Item<'a, A>>,
    found: &mut Vec<Found<'r, 'a, A>>,
) -> Result<(), AllocError>
    ensures { OnOk result (each found_data found.new.items ≡ each found_data found.old.items
        ++ found_of name.now (option_map (λ x. (item_entry x.now).item) item.entry) ∷ []) }
{
    let own = Found { name, item };
    let Ok(()) = found.push(own) else {
        return Err(AllocError);
    };
    Ok(())
}
