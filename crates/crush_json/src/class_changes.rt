//! Writes the differences between the classes of two maps as JSON values.

ghost use Rattle.std.specs.Prelude.{◌≡◌, ◌<◌, ◌++◌, List, OnOk, flat_map, get_or, length};
ghost use Rattle.crush_model.specs.Stands.{Stands};
ghost use Rattle.crush_model.specs.Table.{Row};
ghost use Rattle.crush_since.specs.ClassesSeen.{class_change_data};
ghost use Rattle.crush_since.specs.Since.{plain_map};
ghost use Rattle.crush_json.specs.RuleChanges.{class_change_document, class_change_documents};
ghost use Rattle.crush_json.specs.Tokens.{tokens_of};
ghost use Rattle.crush_json.specs.Values.{list};

use crate::document::Document;
use crush_map::CrushMap;
use crush_since::{ClassChange, class_changes};
use std::alloc::{AllocError, Allocator, Global};

/// Writes a list with an object for each class whose devices have another total weight in the new
/// map than in the old map. The list also has an object for each class that only devices of the new
/// map have, and that no rule of the new map takes. The classes are in ascending order of their
/// names. Fails only if memory runs out.
pub(crate) fn push_class_changes<A: Allocator, B: Allocator>(
    alloc: Global,
    old: &CrushMap<A>,
    new: &CrushMap<B>,
    out: &mut Document,
) -> Result<(), AllocError>
    ensures { (t u : List Row) → Stands old.now.forest t → Stands new.now.forest u
        → OnOk result (out.new ≡ out.old ++ tokens_of (list
        (class_change_documents (plain_map old.now.setting t) (plain_map new.now.setting u)))) }
{
    let changes = class_changes(alloc, old, new)?;
    out.begin_array()?;
    push_each(changes.as_slice(), out)?;
    out.end_array()
}

fn push_each<'a>(changes: &[ClassChange<'a>], out: &mut Document) -> Result<(), AllocError>
    ensures { OnOk result (out.new ≡ out.old
        ++ flat_map (λ x. tokens_of (class_change_document (class_change_data x))) changes.now) }
{
    for index in 0..changes.len() {
        let change = change_at(changes, index);
        push_change(change, out)?;
    }
    Ok(())
}

#[tactic(auto, unfolding(crate::specs::RuleChanges::class_change_document))]
fn push_change(change: &ClassChange<'_>, out: &mut Document) -> Result<(), AllocError>
    ensures { OnOk result (out.new ≡ out.old
        ++ tokens_of (class_change_document (class_change_data change.now))) }
{
    out.begin_object()?;
    out.large("is", change.is)?;
    out.text("name", change.name)?;
    out.truth("taken", change.is_taken)?;
    out.large("was", change.was)?;
    out.end_object()
}

fn change_at<'b, 'a>(changes: &'b [ClassChange<'a>], at: usize) -> &'b ClassChange<'a>
    requires { at < length changes.now }
    ensures { result.now ≡ get_or changes.now at result.now }
{
    &changes[at]
}
