//! Writes the reasons for refusals that depend on the map, such as which bucket holds an item.

ghost use Rattle.std.specs.Prelude.{◌≡◌, ◌++◌, List, OnOk, find, map as each, option_and_then};
ghost use Rattle.std.specs.List.{list_any};
ghost use Rattle.std.specs.Option.{option_copied, option_map};
ghost use Rattle.crush_model.specs.Stands.{Stands};
ghost use Rattle.crush_model.specs.Table.{Row, id_named, kind_of, member};
ghost use Rattle.crush_edits.specs.Setting.{bucket_taken, kind_name};
ghost use Rattle.crush_edits.specs.SettingSeen.{rule_data, step_data};
ghost use Rattle.crush_edits.specs.Stops.{bucket_named};
ghost use Rattle.crush_reasons.specs.Way.{absent_reason, asked_reason, below_reason, bound_said, class_named, end_reason, held_count, held_said, holder_name, items_said, kind_reason, location_of, loop_reason, moved_name, near_asked, no_kind_reason, placed_said, taken_reason, takes_it, taking_rule, type_of_item, type_of_pair, type_reason, types_reason};

use crate::near::{near_if, near_kind_if};
use crate::words::{push_all, push_bytes};
use crush_edits::{Edit, KeptRule, KeptStep, Location};
use crush_map::CrushMap;
use crush_units::{BucketId, ItemId, Name};
use itoa::Buffer;
use std::alloc::{AllocError, Global};

fn push_near(near: Option<&str>, text: &mut Vec<u8>) -> Result<(), AllocError>
    ensures { OnOk result (text.new.items
        ≡ text.old.items ++ near_asked (option_map (λ near. near.now) near.entry)) }
{
    let Some(near) = near else {
        return Ok(());
    };
    push_all(
        &[
            b": did you mean ".as_slice(),
            near.as_bytes(),
            b"?".as_slice(),
        ],
        text,
    )
}

pub(crate) fn push_asked(
    name: &[u8],
    said: &[u8],
    near: Option<&str>,
    text: &mut Vec<u8>,
) -> Result<(), AllocError>
    ensures { OnOk result (text.new.items ≡ text.old.items
        ++ asked_reason name.now said.now (option_map (λ near. near.now) near.entry)) }
{
    text.extend_from_slice(name)?;
    text.extend_from_slice(said)?;
    push_near(near, text)
}

pub(crate) fn push_absent(
    alloc: Global,
    looks: bool,
    map: &CrushMap<Global>,
    name: &Name<Global>,
    text: &mut Vec<u8>,
) -> Result<(), AllocError>
    ensures { OnOk result ((t : List Row) → Stands map.now.forest t
        → text.new.items ≡ text.old.items ++ absent_reason looks t name.now) }
{
    let near = near_if(alloc, looks, map, name.as_str())?;
    push_asked(name.as_bytes(), b" doesn't exist", near, text)
}

pub(crate) fn push_no_kind(
    looks: bool,
    map: &CrushMap<Global>,
    name: &Name<Global>,
    text: &mut Vec<u8>,
) -> Result<(), AllocError>
    ensures { OnOk result (text.new.items
        ≡ text.old.items ++ no_kind_reason looks map.now.setting name.now) }
{
    let near = near_kind_if(looks, map.setting(), name.as_str());
    push_asked(name.as_bytes(), b" is not a type of the map", near, text)
}

fn bucket_named(map: &CrushMap<Global>, name: &Name<Global>) -> Option<BucketId>
    ensures { (t : List Row) → Stands map.now.forest t → result ≡ bucket_named t name.now }
{
    match map.locate(name.as_str())? {
        ItemId::Bucket(bucket) => Some(bucket),
        ItemId::Device(_) => None,
    }
}

fn held_count(map: &CrushMap<Global>, name: &Name<Global>) -> usize
    ensures { (t : List Row) → Stands map.now.forest t → result ≡ held_count t name.now }
{
    let Some(bucket) = bucket_named(map, name) else {
        return 0;
    };
    match map.items(bucket) {
        Some(items) => items.len(),
        None => 0,
    }
}

#[tactic(auto, unfolding(crate::specs::Way::items_said))]
fn push_items(count: usize, text: &mut Vec<u8>) -> Result<(), AllocError>
    ensures { OnOk result (text.new.items ≡ text.old.items ++ items_said count) }
{
    let mut buffer = Buffer::new();
    push_all(
        &[
            b" holds ".as_slice(),
            buffer.format(count).as_bytes(),
            b" items: move or remove them first".as_slice(),
        ],
        text,
    )
}

fn push_held(count: usize, text: &mut Vec<u8>) -> Result<(), AllocError>
    ensures { OnOk result (text.new.items ≡ text.old.items ++ held_said count) }
{
    if count == 1 {
        return text.extend_from_slice(b" holds 1 item: move or remove it first");
    }
    push_items(count, text)
}

pub(crate) fn push_holding(
    map: &CrushMap<Global>,
    name: &Name<Global>,
    text: &mut Vec<u8>,
) -> Result<(), AllocError>
    ensures { OnOk result ((t : List Row) → Stands map.now.forest t
        → text.new.items ≡ text.old.items ++ (name.now ++ held_said (held_count t name.now))) }
{
    text.extend_from_slice(name.as_bytes())?;
    push_held(held_count(map, name), text)
}

fn step_takes(step: &KeptStep, bucket: BucketId) -> bool
    ensures { result ≡ member bucket (bucket_taken (step_data step.now)) }
{
    match step {
        KeptStep::Take(taken, _) => *taken == bucket,
        _ => false,
    }
}

fn steps_take(steps: &[KeptStep], bucket: BucketId) -> bool
    ensures { result ≡ list_any (λ step. member bucket (bucket_taken (step_data step))) steps.now }
{
    steps.iter().any(|step| step_takes(step, bucket))
}

/// Whether a step of the rule takes this bucket, with or without a class.
fn takes_it(rule: &KeptRule, bucket: BucketId) -> bool
    ensures { result ≡ takes_it bucket (rule_data rule.now) }
{
    steps_take(rule.steps.as_slice(), bucket)
}

fn first_taking(rules: &[KeptRule], bucket: BucketId) -> Option<&KeptRule>
    ensures { option_map (λ rule. rule_data rule.now) result
        ≡ find (takes_it bucket) (each rule_data rules.now) }
{
    for rule in rules {
        if takes_it(rule, bucket) {
            return Some(rule);
        }
    }
    None
}

pub(crate) fn taking_rule<'a>(map: &'a CrushMap<Global>, name: &Name<Global>) -> Option<&'a [u8]>
    ensures { (t : List Row) → Stands map.now.forest t → option_map (λ rule. rule.now) result
        ≡ option_and_then (taking_rule map.now.setting) (bucket_named t name.now) }
{
    let bucket = bucket_named(map, name)?;
    let rule = first_taking(map.setting().rules(), bucket)?;
    Some(rule.name.as_bytes())
}

pub(crate) fn push_taken(
    name: &[u8],
    rule: Option<&[u8]>,
    text: &mut Vec<u8>,
) -> Result<(), AllocError>
    ensures { OnOk result (text.new.items ≡ text.old.items
        ++ taken_reason name.now (option_map (λ rule. rule.now) rule.entry)) }
{
    let Some(rule) = rule else {
        return push_all(&[name, b" is taken by a rule".as_slice()], text);
    };
    push_all(
        &[b"the rule ".as_slice(), rule, b" takes ".as_slice(), name],
        text,
    )
}

pub(crate) fn holder_name<'a>(map: &'a CrushMap<Global>, name: &Name<Global>) -> Option<&'a str>
    ensures { (t : List Row) → Stands map.now.forest t
        → option_map (λ holder. holder.now) result ≡ holder_name t name.now }
{
    let id = map.locate(name.as_str())?;
    let holder = map.parent(id)?;
    map.name_of(ItemId::Bucket(holder))
}

pub(crate) fn push_placed(
    name: &[u8],
    holder: Option<&str>,
    text: &mut Vec<u8>,
) -> Result<(), AllocError>
    ensures { OnOk result (text.new.items ≡ text.old.items
        ++ (name.now ++ placed_said (option_map (λ holder. holder.now) holder.entry))) }
{
    let Some(holder) = holder else {
        return push_all(
            &[
                name,
                b" is already in a bucket: use set or create-or-move to move it".as_slice(),
            ],
            text,
        );
    };
    push_all(
        &[
            name,
            b" is already in ".as_slice(),
            holder.as_bytes(),
            b": use set or create-or-move to move it".as_slice(),
        ],
        text,
    )
}

pub(crate) fn class_named<'a>(map: &'a CrushMap<Global>, name: &Name<Global>) -> Option<&'a str>
    ensures { (t : List Row) → Stands map.now.forest t
        → option_map (λ class. class.now) result ≡ class_named t name.now }
{
    map.class_of(map.locate(name.as_str())?)
}

pub(crate) fn push_bound(
    name: &[u8],
    class: Option<&str>,
    text: &mut Vec<u8>,
) -> Result<(), AllocError>
    ensures { OnOk result (text.new.items ≡ text.old.items
        ++ (name.now ++ bound_said (option_map (λ class. class.now) class.entry))) }
{
    let Some(class) = class else {
        return push_all(
            &[
                name,
                b" has a different class: remove this class first with rm-device-class".as_slice(),
            ],
            text,
        );
    };
    push_all(
        &[
            name,
            b" has the class ".as_slice(),
            class.as_bytes(),
            b": remove this class first with rm-device-class".as_slice(),
        ],
        text,
    )
}

pub(crate) fn moved_name(edit: &Edit) -> &[u8]
    ensures { result.now ≡ moved_name edit.now }
{
    match edit {
        Edit::Move { name, .. } => name.as_bytes(),
        _ => b"",
    }
}

fn push_below(name: &[u8], end: &[u8], text: &mut Vec<u8>) -> Result<(), AllocError>
    ensures { OnOk result (text.new.items ≡ text.old.items ++ below_reason name.now end.now) }
{
    text.extend_from_slice(end)?;
    text.extend_from_slice(b" is below ")?;
    text.extend_from_slice(name)?;
    push_bytes(b": a bucket can't be moved below itself", text)
}

pub(crate) fn push_loop(name: &[u8], end: &[u8], text: &mut Vec<u8>) -> Result<(), AllocError>
    ensures { OnOk result (text.new.items ≡ text.old.items ++ loop_reason name.now end.now) }
{
    if name == end {
        push_all(&[name, b" can't be moved into itself".as_slice()], text)
    } else {
        push_below(name, end, text)
    }
}

/// Returns the name of the item's type. Returns an empty name if the map has no such item or type.
fn type_of_item<'a>(map: &'a CrushMap<Global>, name: &Name<Global>) -> &'a [u8]
    ensures { (t : List Row) → Stands map.now.forest t
        → result.now ≡ type_of_item map.now.setting t name.now }
{
    match kind_name_of(map, name) {
        Some(kind) => kind.as_bytes(),
        None => b"",
    }
}

fn kind_name_of<'a>(map: &'a CrushMap<Global>, name: &Name<Global>) -> Option<&'a Name<Global>>
    ensures { (t : List Row) → Stands map.now.forest t → option_copied result
        ≡ option_and_then (kind_name map.now.setting)
        (option_and_then (kind_of t) (id_named t name.now)) }
{
    let id = map.locate(name.as_str())?;
    map.setting().kind_name(map.kind_of(id)?)
}

/// Returns the type in the first pair `TYPE=NAME` of the location that names this bucket. Returns
/// an empty name if no pair names it.
fn type_of_pair<'a>(at: &'a Location, name: &Name<Global>) -> &'a [u8]
    ensures { result.now ≡ type_of_pair at.now name.now }
{
    let pairs = at.pairs();
    for pair in pairs {
        if pair.name.is(name.as_bytes()) {
            return pair.kind.as_bytes();
        }
    }
    b""
}

fn push_types(end: &[u8], own: &[u8], wanted: &[u8], text: &mut Vec<u8>) -> Result<(), AllocError>
    ensures { OnOk result (text.new.items
        ≡ text.old.items ++ types_reason end.now own.now wanted.now) }
{
    text.extend_from_slice(end)?;
    text.extend_from_slice(b" is of type ")?;
    text.extend_from_slice(own)?;
    text.extend_from_slice(b", not ")?;
    push_bytes(wanted, text)
}

fn push_end(
    map: &CrushMap<Global>,
    at: &Location,
    end: &Name<Global>,
    text: &mut Vec<u8>,
) -> Result<(), AllocError>
    ensures { OnOk result ((t : List Row) → Stands map.now.forest t → text.new.items
        ≡ text.old.items ++ end_reason map.now.setting t at.now end.now) }
{
    push_types(
        end.as_bytes(),
        type_of_item(map, end),
        type_of_pair(at, end),
        text,
    )
}

pub(crate) fn location_of(edit: &Edit) -> Option<&Location>
    ensures { option_map (λ at. at.now) result ≡ location_of edit.now }
{
    match edit {
        Edit::Place { at, .. } | Edit::Move { at, .. } => Some(at),
        _ => None,
    }
}

fn push_kind(kind: &[u8], text: &mut Vec<u8>) -> Result<(), AllocError>
    ensures { OnOk result (text.new.items ≡ text.old.items ++ kind_reason kind.now) }
{
    push_all(&[kind, b" is the type of devices".as_slice()], text)
}

pub(crate) fn push_type(
    map: &CrushMap<Global>,
    edit: &Edit,
    name: &Name<Global>,
    text: &mut Vec<u8>,
) -> Result<(), AllocError>
    ensures { OnOk result ((t : List Row) → Stands map.now.forest t → text.new.items
        ≡ text.old.items ++ type_reason map.now.setting t (location_of edit.now) name.now) }
{
    match location_of(edit) {
        Some(at) => push_end(map, at, name, text),
        None => push_kind(name.as_bytes(), text),
    }
}
