//! Finds an item or a type of the map whose name is similar to a name that the map doesn't have.
//! Two names are similar if at most one byte differs, one byte is missing or extra, or two
//! neighbouring bytes are exchanged, or if the names differ only in upper and lower case. A name is
//! also similar to another name if it is `osd.` followed by the other name, as `osd.0` is for `0`.

ghost use Rattle.std.specs.Prelude.{◌≡◌, ◌≤◌, ◌<◌, List, IfOk, IsTrue, drop, length, map as each};
ghost use Rattle.std.specs.Option.{option_map};
ghost use Rattle.std.specs.Str.{str_eq_ignore_ascii_case};
ghost use Rattle.crush_model.specs.Stands.{Stands};
ghost use Rattle.crush_model.specs.Table.{Row};
ghost use Rattle.crush_print.specs.WalkStep.{walk_step_data};
ghost use Rattle.crush_reasons.specs.Near.{first_near, first_near_kind, is_near, is_numbered, is_one_off, is_swapped, near_if, near_kind_if, near_name, same_heads, shared};

use crate::words::from_place;
use crush_map::{CrushMap, Setting};
use crush_print::{WalkStep, walk};
use std::alloc::{AllocError, Global};

/// The map is searched for similar names for at most this many refused entries, and for at most
/// this many created buckets. There is a limit because each search goes through all names of the
/// map, and up to 65,536 entries may be refused.
pub(crate) const MOST_LOOKS: usize = 256;

fn same_at(a: &[u8], b: &[u8], place: usize) -> bool
    ensures value { result ≡ same_heads (drop place a.now) (drop place b.now) }
    ensures within { IsTrue result → place < length a.now }
{
    place < a.len() && place < b.len() && a[place] == b[place]
}

/// Returns how many bytes the two names have in common before the first byte that differs.
pub(crate) fn shared(a: &[u8], b: &[u8]) -> usize
    ensures value { result ≡ shared a.now b.now }
    ensures within { result ≤ length a.now }
{
    let mut count = 0;
    'bytes: while same_at(a, b, count) {
        count += 1;
    }
    count
}

/// Whether the two names differ in at most one byte, or one name is the other name with one more
/// byte.
pub(crate) fn is_one_off(a: &[u8], b: &[u8]) -> bool
    ensures { result ≡ is_one_off a.now b.now }
{
    let same = shared(a, b);
    let (behind_a, behind_b) = (from_place(same + 1, a), from_place(same + 1, b));
    behind_a == behind_b || behind_a == from_place(same, b) || from_place(same, a) == behind_b
}

fn same_heads(a: &[u8], b: &[u8]) -> bool
    ensures { result ≡ same_heads a.now b.now }
{
    match a {
        [] => false,
        [first, ..] => match b {
            [] => false,
            [other, ..] => *first == *other,
        },
    }
}

/// Whether the words are the same, except that two neighbouring bytes are exchanged.
pub(crate) fn is_swapped(a: &[u8], b: &[u8]) -> bool
    ensures { result ≡ is_swapped a.now b.now }
{
    let same = shared(a, b);
    same_heads(from_place(same, a), from_place(same + 1, b))
        && same_heads(from_place(same + 1, a), from_place(same, b))
        && from_place(same + 2, a) == from_place(same + 2, b)
}

fn is_other_case(a: &str, b: &str) -> bool
    ensures { result ≡ str_eq_ignore_ascii_case a.now b.now }
{
    a.eq_ignore_ascii_case(b)
}

/// Whether the second name is `osd.` followed by the first name.
fn is_numbered(a: &[u8], b: &[u8]) -> bool
    ensures { result ≡ is_numbered a.now b.now }
{
    b.starts_with(b"osd.") && from_place(4, b) == a
}

fn is_near(a: &str, b: &str) -> bool
    ensures { result ≡ is_near a.now b.now }
{
    is_one_off(a.as_bytes(), b.as_bytes())
        || is_swapped(a.as_bytes(), b.as_bytes())
        || is_other_case(a, b)
        || is_numbered(a.as_bytes(), b.as_bytes())
}

fn name_of<'a>(step: &WalkStep<'a, Global>) -> &'a str
    ensures { result.now ≡ (walk_step_data step.now).item.name }
{
    step.view().name
}

fn first_near<'a>(steps: &[WalkStep<'a, Global>], name: &str) -> Option<&'a str>
    ensures { option_map (λ near. near.now) result
        ≡ first_near name.now (each walk_step_data steps.now) }
{
    for step in steps {
        let near = name_of(step);
        if is_near(name, near) {
            return Some(near);
        }
    }
    None
}

/// Returns the name of the first item whose name is similar to this name, in the order of the map's
/// tree. Returns `None` if there is no such item.
pub(crate) fn near_name<'a>(
    alloc: Global,
    map: &'a CrushMap<Global>,
    name: &str,
) -> Result<Option<&'a str>, AllocError>
    ensures { IfOk result (λ near. (t : List Row) → Stands map.now.forest t
        → option_map (λ near. near.now) near ≡ near_name t name.now) }
{
    let steps = walk(alloc, map)?;
    Ok(first_near(steps.as_slice(), name))
}

/// Returns the name of the first item of the map whose name is similar to this name. Returns `None`
/// if there is no such item, or if `looks` is false, which means that the map isn't searched.
pub(crate) fn near_if<'a>(
    alloc: Global,
    looks: bool,
    map: &'a CrushMap<Global>,
    name: &str,
) -> Result<Option<&'a str>, AllocError>
    ensures { IfOk result (λ near. (t : List Row) → Stands map.now.forest t
        → option_map (λ near. near.now) near ≡ near_if looks t name.now) }
{
    if looks {
        return near_name(alloc, map, name);
    }
    Ok(None)
}

fn near_kind<'a>(setting: &'a Setting, name: &str) -> Option<&'a str>
    ensures { option_map (λ near. near.now) result ≡ first_near_kind name.now setting.now.kinds }
{
    for (_, kind) in setting.kinds() {
        let near = kind.as_str();
        if is_near(name, near) {
            return Some(near);
        }
    }
    None
}

/// Returns the name of the first type of the map whose name is similar to this name. Returns `None`
/// if there is no such type, or if `looks` is false, which means that the types aren't searched.
pub(crate) fn near_kind_if<'a>(looks: bool, setting: &'a Setting, name: &str) -> Option<&'a str>
    ensures { option_map (λ near. near.now) result ≡ near_kind_if looks setting.now name.now }
{
    if looks {
        return near_kind(setting, name);
    }
    None
}
