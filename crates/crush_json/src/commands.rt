//! Writes edits as JSON values, in the form in which a monitor of Ceph accepts commands.

ghost use Rattle.std.specs.Prelude.{◌≡◌, ◌++◌, OnOk, flat_map};
ghost use Rattle.json.specs.Tree.{json_tokens};
ghost use Rattle.serde_json.specs.Data.{string};
ghost use Rattle.crush_edits.specs.EditText.{pair_word};
ghost use Rattle.crush_json.specs.PlanDocument.{adding, classing, command, declassing, moving, one_name, pair_values, placing, prefixed, removing, renaming, swapping, weighing};
ghost use Rattle.crush_json.specs.Tokens.{tokens_of};
ghost use Rattle.crush_json.specs.Values.{list};

use crate::document::Document;
use crush_map::{Edit, Location, Pair};
use crush_units::{DeviceId, Name, Weight};
use std::alloc::{AllocError, Global};

/// Writes the edit as a command, with the keys of Ceph's own table of commands. Fails only if
/// memory runs out.
pub(crate) fn push_command(alloc: Global, edit: &Edit, out: &mut Document) -> Result<(), AllocError>
    ensures { OnOk result (out.new ≡ out.old ++ json_tokens (command edit.now)) }
{
    let word = edit.keyword().word();
    let prefix = format!(in alloc; "osd crush {word}")?;
    push_prefixed(alloc, prefix.as_str(), edit, out)
}

/// Writes the edit as a command. `prefix` has the words with which the command begins, for example
/// `osd crush move`.
fn push_prefixed(
    alloc: Global,
    prefix: &str,
    edit: &Edit,
    out: &mut Document,
) -> Result<(), AllocError>
    ensures { OnOk result (out.new ≡ out.old ++ json_tokens (prefixed prefix.now edit.now)) }
{
    match edit {
        Edit::Place {
            device,
            weight,
            at,
            ..
        } => push_placing(alloc, prefix, *device, *weight, at, out),
        Edit::Move { name, at } => push_moving(alloc, prefix, name, at, out),
        Edit::Swap { a, b } => push_swapping(prefix, a, b, out),
        Edit::Reweight { name, weight } => push_weighing(prefix, name, *weight, out),
        Edit::ReweightSubtree { name, weight } => push_weighing(prefix, name, *weight, out),
        Edit::Remove { name } => push_removing(prefix, name, out),
        Edit::AddBucket { name, kind } => push_adding(prefix, name, kind, out),
        Edit::Rename { from, to } => push_renaming(prefix, from, to, out),
        Edit::SetClass { name, class } => push_classing(prefix, name, class, out),
        Edit::RemoveClass { name } => push_declassing(prefix, name, out),
    }
}

fn push_placing(
    alloc: Global,
    prefix: &str,
    device: DeviceId,
    weight: Weight,
    at: &Location,
    out: &mut Document,
) -> Result<(), AllocError>
    ensures { OnOk result (out.new ≡ out.old
        ++ json_tokens (placing prefix.now device weight at.now)) }
{
    out.begin_object()?;
    out.key("args")?;
    push_pairs(alloc, at.pairs(), out)?;
    out.natural("id", device.number() as u64)?;
    out.text("prefix", prefix)?;
    out.weight(weight)?;
    out.end_object()
}

fn push_moving(
    alloc: Global,
    prefix: &str,
    name: &Name<Global>,
    at: &Location,
    out: &mut Document,
) -> Result<(), AllocError>
    ensures { OnOk result (out.new ≡ out.old ++ json_tokens (moving prefix.now name.now at.now)) }
{
    out.begin_object()?;
    out.key("args")?;
    push_pairs(alloc, at.pairs(), out)?;
    out.text("name", name.as_str())?;
    out.text("prefix", prefix)?;
    out.end_object()
}

/// Writes a swap, which exchanges the items and the names of two buckets. The command always has
/// the member `yes_i_really_mean_it`, even if the two buckets are in the same bucket.
fn push_swapping(
    prefix: &str,
    a: &Name<Global>,
    b: &Name<Global>,
    out: &mut Document,
) -> Result<(), AllocError>
    ensures { OnOk result (out.new ≡ out.old ++ json_tokens (swapping prefix.now a.now b.now)) }
{
    out.begin_object()?;
    out.text("dest", b.as_str())?;
    out.text("prefix", prefix)?;
    out.text("source", a.as_str())?;
    out.truth("yes_i_really_mean_it", true)?;
    out.end_object()
}

fn push_weighing(
    prefix: &str,
    name: &Name<Global>,
    weight: Weight,
    out: &mut Document,
) -> Result<(), AllocError>
    ensures { OnOk result (out.new ≡ out.old
        ++ json_tokens (weighing prefix.now name.now weight)) }
{
    out.begin_object()?;
    out.text("name", name.as_str())?;
    out.text("prefix", prefix)?;
    out.weight(weight)?;
    out.end_object()
}

fn push_removing(prefix: &str, name: &Name<Global>, out: &mut Document) -> Result<(), AllocError>
    ensures { OnOk result (out.new ≡ out.old ++ json_tokens (removing prefix.now name.now)) }
{
    out.begin_object()?;
    out.text("name", name.as_str())?;
    out.text("prefix", prefix)?;
    out.end_object()
}

fn push_adding(
    prefix: &str,
    name: &Name<Global>,
    kind: &Name<Global>,
    out: &mut Document,
) -> Result<(), AllocError>
    ensures { OnOk result (out.new ≡ out.old ++ json_tokens (adding prefix.now name.now kind.now)) }
{
    out.begin_object()?;
    out.text("name", name.as_str())?;
    out.text("prefix", prefix)?;
    out.text("type", kind.as_str())?;
    out.end_object()
}

fn push_renaming(
    prefix: &str,
    from: &Name<Global>,
    to: &Name<Global>,
    out: &mut Document,
) -> Result<(), AllocError>
    ensures { OnOk result (out.new ≡ out.old ++ json_tokens (renaming prefix.now from.now to.now)) }
{
    out.begin_object()?;
    out.text("dstname", to.as_str())?;
    out.text("prefix", prefix)?;
    out.text("srcname", from.as_str())?;
    out.end_object()
}

fn push_classing(
    prefix: &str,
    name: &Name<Global>,
    class: &Name<Global>,
    out: &mut Document,
) -> Result<(), AllocError>
    ensures { OnOk result (out.new ≡ out.old ++ json_tokens (classing prefix.now name.now class.now)) }
{
    out.begin_object()?;
    out.text("class", class.as_str())?;
    out.key("ids")?;
    push_one_name(name, out)?;
    out.text("prefix", prefix)?;
    out.end_object()
}

fn push_declassing(prefix: &str, name: &Name<Global>, out: &mut Document) -> Result<(), AllocError>
    ensures { OnOk result (out.new ≡ out.old ++ json_tokens (declassing prefix.now name.now)) }
{
    out.begin_object()?;
    out.key("ids")?;
    push_one_name(name, out)?;
    out.text("prefix", prefix)?;
    out.end_object()
}

/// Writes a list with one name, because Ceph's command takes a list of names.
fn push_one_name(name: &Name<Global>, out: &mut Document) -> Result<(), AllocError>
    ensures { OnOk result (out.new ≡ out.old ++ tokens_of (one_name name.now)) }
{
    out.begin_array()?;
    out.push_text(name.as_str())?;
    out.end_array()
}

/// Writes a list with a text `TYPE=NAME` for each pair of a location.
fn push_pairs(alloc: Global, pairs: &[Pair], out: &mut Document) -> Result<(), AllocError>
    ensures { OnOk result (out.new ≡ out.old ++ tokens_of (list (pair_values pairs.now))) }
{
    out.begin_array()?;
    push_each_pair(alloc, pairs, out)?;
    out.end_array()
}

fn push_each_pair(alloc: Global, pairs: &[Pair], out: &mut Document) -> Result<(), AllocError>
    ensures { OnOk result (out.new ≡ out.old
        ++ flat_map (λ p. tokens_of (string (pair_word p))) pairs.now) }
{
    for pair in pairs {
        push_pair(alloc, pair, out)?;
    }
    Ok(())
}

fn push_pair(alloc: Global, pair: &Pair, out: &mut Document) -> Result<(), AllocError>
    ensures { OnOk result (out.new ≡ out.old ++ tokens_of (string (pair_word pair.now))) }
{
    let word = format!(in alloc; "{pair}")?;
    out.push_text(word.as_str())
}
