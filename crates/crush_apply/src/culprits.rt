//! Finds the *culprit* of a refusal: the name in the refused edit that the refusal is about. A
//! message can show this name.

ghost use Rattle.std.specs.Prelude.{◌≡◌, List};
ghost use Rattle.crush_model.specs.Stands.{Stands};
ghost use Rattle.crush_model.specs.Table.{Row, id_named};
ghost use Rattle.crush_edits.specs.Answer.{is_a_device};
ghost use Rattle.crush_apply.specs.Culprit.{culprit, put_culprit, swap_culprit, bucket_culprit, name_culprit};

use crate::route::{bad_name, end_name, unknown_type};
use crush_edits::{Edit, Location, Refusal, Setting};
use crush_hierarchy::Hierarchy;
use crush_units::{ItemId, Name};
use std::alloc::{Allocator, Global};

/// Returns the name that a refusal is about. The name is one of the names in the refused edit.
///
/// The refusal can be about a type name, about a bucket name in a location, about the second name
/// of a swap but not the first, or about the new name of a rename. Then the result is this name.
/// Otherwise the result is the name of the item that the edit is for. For a swap, this is the first
/// name. `hierarchy` and `setting` must be the values for which the edit was refused.
pub fn culprit<'a, A: Allocator>(
    hierarchy: &Hierarchy<A>,
    setting: &Setting,
    requested: &'a Edit,
    refusal: Refusal,
) -> &'a Name<Global>
    ensures { (t : List Row) → Stands hierarchy.now t
        → result.now ≡ culprit setting.now t requested.now refusal }
{
    match requested {
        Edit::Place { name, at, .. } | Edit::Move { name, at } => put_culprit(
            hierarchy, setting, name, at, refusal,
        ),
        Edit::Swap { a, b } => swap_culprit(hierarchy, a, b, refusal),
        Edit::AddBucket { name, kind } => bucket_culprit(name, kind, refusal),
        Edit::Rename { from, to } => name_culprit(from, to, refusal),
        Edit::Reweight { name, .. }
        | Edit::ReweightSubtree { name, .. }
        | Edit::Remove { name }
        | Edit::SetClass { name, .. }
        | Edit::RemoveClass { name } => name,
    }
}

/// Returns the culprit of an edit that has a location: a type name or a bucket name in the location
/// if this name is at fault, and otherwise the name of the item.
fn put_culprit<'a, A: Allocator>(
    hierarchy: &Hierarchy<A>,
    setting: &Setting,
    item: &'a Name<Global>,
    at: &'a Location,
    refusal: Refusal,
) -> &'a Name<Global>
    ensures { (t : List Row) → Stands hierarchy.now t
        → result.now ≡ put_culprit setting.now t item.now at.now refusal }
{
    let there = match refusal {
        Refusal::BadLocation => bad_name(setting, at),
        Refusal::NoSuchType => unknown_type(setting, at),
        Refusal::NotABucket | Refusal::WrongType | Refusal::Loop => {
            end_name(hierarchy, setting, at)
        }
        _ => None,
    };
    match there {
        Some(name) => name,
        None => item,
    }
}

/// Returns the culprit of a swap: the second name if only the second name is at fault, and
/// otherwise the first name.
fn swap_culprit<'a, A: Allocator>(
    hierarchy: &Hierarchy<A>,
    a: &'a Name<Global>,
    b: &'a Name<Global>,
    refusal: Refusal,
) -> &'a Name<Global>
    ensures { (t : List Row) → Stands hierarchy.now t
        → result.now ≡ swap_culprit t a.now b.now refusal }
{
    match refusal {
        Refusal::NoSuchItem => match hierarchy.id_of(a.as_str()) {
            Some(_) => b,
            None => a,
        },
        Refusal::NotABucket => { if is_device(hierarchy, a) { a } else { b } }
        _ => a,
    }
}

fn is_device<A: Allocator>(hierarchy: &Hierarchy<A>, name: &Name<Global>) -> bool
    ensures { (t : List Row) → Stands hierarchy.now t
        → result ≡ is_a_device (id_named t name.now) }
{
    let Some(id) = hierarchy.id_of(name.as_str()) else {
        return false;
    };
    match id {
        ItemId::Device(_) => true,
        ItemId::Bucket(_) => false,
    }
}

/// Returns the culprit of an edit that adds a bucket: the name of the bucket's type if the refusal
/// is `NoSuchType` or `WrongType`, and otherwise the name of the bucket.
fn bucket_culprit<'a>(
    name: &'a Name<Global>,
    kind: &'a Name<Global>,
    refusal: Refusal,
) -> &'a Name<Global>
    ensures { result.now ≡ bucket_culprit name.now kind.now refusal }
{
    match refusal {
        Refusal::NoSuchType | Refusal::WrongType => kind,
        _ => name,
    }
}

/// Returns the culprit of a rename: the new name if the refusal is `NameTaken` or `AlreadyRenamed`,
/// and otherwise the old name.
fn name_culprit<'a>(
    from: &'a Name<Global>,
    to: &'a Name<Global>,
    refusal: Refusal,
) -> &'a Name<Global>
    ensures { result.now ≡ name_culprit from.now to.now refusal }
{
    match refusal {
        Refusal::NameTaken | Refusal::AlreadyRenamed => to,
        _ => from,
    }
}
