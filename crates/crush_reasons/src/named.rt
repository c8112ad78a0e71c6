//! Writes the reason for a refused edit: the name because of which the edit was refused, and what
//! is wrong with this name.

ghost use Rattle.std.specs.Prelude.{◌≡◌, ◌++◌, List, None, OnOk, Some, MatchOption};
ghost use Rattle.crush_model.specs.Stands.{Stands};
ghost use Rattle.crush_model.specs.Table.{Row};
ghost use Rattle.crush_reasons.specs.Named.{edit_reason, named_or, reason_of, said_by, said_of, said_of_class};
ghost use Rattle.crush_edits.specs.Refusal.{refusal_sentence};

use crate::way::{
    class_named, holder_name, moved_name, push_absent, push_bound, push_holding, push_loop,
    push_no_kind, push_placed, push_taken, push_type, taking_rule,
};
use crush_edits::{Edit, Refusal};
use crush_map::CrushMap;
use crush_units::Name;
use std::alloc::{AllocError, Global};

/// Returns the words that follow the name in the reason. Returns `None` if the refusal isn't about
/// a name, or if the rest of the reason depends on the map or on more names of the edit.
fn said_of(refusal: Refusal) -> Option<&'static str>
    ensures { MatchOption result (said_of refusal ≡ None) (λ said. said_of refusal ≡ Some said.now) }
{
    match refusal {
        Refusal::BadName => Some(
            " is the device's own name, and the location uses it for a bucket",
        ),
        Refusal::BadLocation => {
            Some(
                ": a location names each type and each bucket at most once, and never the type of devices",
            )
        }
        Refusal::NoPlace => Some(" needs a location: one or more TYPE=BUCKET"),
        Refusal::NameTaken => Some(
            ": an item already has this name, or the device with this id has a different name",
        ),
        Refusal::NotPlaced => Some(" is in no bucket: use add to place it"),
        Refusal::NotADevice => Some(" is a bucket: reweight-subtree sets the weights below it"),
        Refusal::NotABucket => Some(" is a device, but a bucket is required"),
        Refusal::Nested => Some(
            " and the other bucket are the same, or one of them is below the other",
        ),
        Refusal::NotDirectory => Some(" is a device: only buckets can be renamed"),
        Refusal::AlreadyRenamed => {
            Some(" exists and no item has the old name: was it renamed before?")
        }
        _ => None,
    }
}

fn said_of_class(refusal: Refusal) -> Option<&'static str>
    ensures { MatchOption result (said_of_class refusal ≡ None)
        (λ said. said_of_class refusal ≡ Some said.now) }
{
    match refusal {
        Refusal::NotADevice => Some(" is a bucket: only devices have a class"),
        _ => said_of(refusal),
    }
}

fn said_by(edit: &Edit, refusal: Refusal) -> Option<&'static str>
    ensures { MatchOption result (said_by edit.now refusal ≡ None)
        (λ said. said_by edit.now refusal ≡ Some said.now) }
{
    match edit {
        Edit::SetClass { .. } | Edit::RemoveClass { .. } => said_of_class(refusal),
        _ => said_of(refusal),
    }
}

fn push_said(
    edit: &Edit,
    name: &[u8],
    refusal: Refusal,
    text: &mut Vec<u8>,
) -> Result<(), AllocError>
    ensures { OnOk result (text.new.items ≡ text.old.items
        ++ named_or name.now (said_by edit.now refusal) (refusal_sentence refusal)) }
{
    let Some(said) = said_by(edit, refusal) else {
        return text.extend_from_slice(refusal.sentence().as_bytes());
    };
    text.extend_from_slice(name)?;
    text.extend_from_slice(said.as_bytes())
}

fn push_reason_of(
    alloc: Global,
    looks: bool,
    map: &CrushMap<Global>,
    edit: &Edit,
    name: &Name<Global>,
    refusal: Refusal,
    text: &mut Vec<u8>,
) -> Result<(), AllocError>
    ensures { OnOk result ((t : List Row) → Stands map.now.forest t → text.new.items
        ≡ text.old.items ++ reason_of looks map.now.setting t edit.now name.now refusal) }
{
    let bytes = name.as_bytes();
    match refusal {
        Refusal::NoSuchType => push_no_kind(looks, map, name, text),
        Refusal::NoSuchItem => push_absent(alloc, looks, map, name, text),
        Refusal::NotEmpty => push_holding(map, name, text),
        Refusal::InUse => push_taken(bytes, taking_rule(map, name), text),
        Refusal::AlreadyPlaced => push_placed(bytes, holder_name(map, name), text),
        Refusal::ClassBound => push_bound(bytes, class_named(map, name), text),
        Refusal::Loop => push_loop(moved_name(edit), bytes, text),
        Refusal::WrongType => push_type(map, edit, name, text),
        _ => push_said(edit, bytes, refusal, text),
    }
}

/// Appends the reason for a refused edit. If the edit names an item or a type that the map doesn't
/// have, `looks` says whether to search the map for a similar name.
pub(crate) fn push_edit_reason(
    alloc: Global,
    looks: bool,
    map: &CrushMap<Global>,
    edit: &Edit,
    refusal: Refusal,
    text: &mut Vec<u8>,
) -> Result<(), AllocError>
    ensures { OnOk result ((t : List Row) → Stands map.now.forest t → text.new.items
        ≡ text.old.items ++ edit_reason looks map.now.setting t edit.now refusal) }
{
    let name = map.culprit(edit, refusal);
    push_reason_of(alloc, looks, map, edit, name, refusal, text)
}
