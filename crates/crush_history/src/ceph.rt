//! Prints an edit as the command of Ceph that makes the same change.

ghost use Rattle.std.specs.Prelude.{◌≡◌, ◌++◌, OnOk, codes, flat_map};
ghost use Rattle.crush_edits.specs.EditText.{pairs_text};
ghost use Rattle.crush_history.specs.Ceph.{assent, ceph_head, ceph_heading, ceph_line, ceph_words, has_dash, has_dashed_type, is_dashed, name_and_exact};

use crate::push::push_edit;
use crush_edits::{Edit, Keyword, Location, Pair};
use crush_units::{Name, Weight, put_all};
use itoa::Buffer;
use std::alloc::{AllocError, Global};
use std::io::Write;

/// Returns ` --yes-i-really-mean-it` if the edit swaps two buckets. Ceph requires this option if
/// the two buckets have different parents. Returns an empty text for any other edit.
fn assent(edit: &Edit) -> &'static [u8]
    ensures { result.now ≡ assent edit.now }
{
    match edit {
        Edit::Swap { .. } => b" --yes-i-really-mean-it",
        _ => b"",
    }
}

fn is_dashed(word: &Name<Global>) -> bool
    ensures { result ≡ is_dashed word.now }
{
    matches!(word.as_bytes(), [b'-', ..])
}

fn has_dashed_type(pairs: &[Pair]) -> bool
    ensures { result ≡ has_dashed_type pairs.now }
{
    pairs.iter().any(|pair| is_dashed(&pair.kind))
}

/// Whether the edit's command has, after its first word, a word that begins with `-`. Ceph would
/// read such a word as an option.
pub fn has_dash(edit: &Edit) -> bool
    ensures { result ≡ has_dash edit.now }
{
    match edit {
        Edit::Place { name, at, .. } | Edit::Move { name, at } => is_dashed(name)
            || has_dashed_type(at.pairs()),
        Edit::Swap { a, b } => is_dashed(a) || is_dashed(b),
        Edit::Rename { from, to } => is_dashed(from) || is_dashed(to),
        Edit::AddBucket { name, kind } => is_dashed(name) || is_dashed(kind),
        Edit::SetClass { name, class } => is_dashed(class) || is_dashed(name),
        Edit::Reweight { name, .. }
        | Edit::ReweightSubtree { name, .. }
        | Edit::Remove { name }
        | Edit::RemoveClass { name } => is_dashed(name),
    }
}

/// Returns the words that come before the edit's command: `ceph osd crush `, and then `-- ` if
/// [`has_dash`] is true.
fn ceph_head(edit: &Edit) -> &'static [u8]
    ensures { result.now ≡ ceph_head edit.now }
{
    if has_dash(edit) {
        b"ceph osd crush -- "
    } else {
        b"ceph osd crush "
    }
}

/// Appends the words of the edit's command. The words are the same as in a script, except that
/// weights are in exact form: they have six decimals, and are rounded up. Ceph rounds a weight down
/// to whole units of 1/65536. So Ceph reads exactly the edit's weight from this form.
fn push_words(edit: &Edit, text: &mut Vec<u8>) -> Result<(), AllocError>
    ensures { OnOk result (text.new.items ≡ text.old.items ++ ceph_words edit.now) }
{
    match edit {
        Edit::Place {
            how,
            name,
            weight,
            at,
            ..
        } => push_placing(how.word().as_bytes(), name, *weight, at, text),
        Edit::Reweight { name, weight } => {
            push_weighing(Keyword::Reweight.word().as_bytes(), name, *weight, text)
        }
        Edit::ReweightSubtree { name, weight } => {
            push_weighing(
                Keyword::ReweightSubtree.word().as_bytes(),
                name,
                *weight,
                text,
            )
        }
        Edit::Move { .. }
        | Edit::Swap { .. }
        | Edit::Remove { .. }
        | Edit::AddBucket { .. }
        | Edit::Rename { .. }
        | Edit::SetClass { .. }
        | Edit::RemoveClass { .. } => push_edit(edit, text),
    }
}

/// Appends a command that puts a device at a location: the command's first word, the device's name,
/// its weight in exact form, and the pairs of the location.
fn push_placing(
    first: &[u8],
    name: &Name<Global>,
    weight: Weight,
    at: &Location,
    text: &mut Vec<u8>,
) -> Result<(), AllocError>
    ensures { OnOk result (text.new.items ≡ text.old.items
        ++ (name_and_exact first.now name.now weight ++ pairs_text at.now)) }
{
    push_weighing(first, name, weight, text)?;
    push_pairs(at, text)
}

/// Appends a command's first word, a name, and a weight in exact form.
fn push_weighing(
    first: &[u8],
    name: &Name<Global>,
    weight: Weight,
    text: &mut Vec<u8>,
) -> Result<(), AllocError>
    ensures { OnOk result (text.new.items
        ≡ text.old.items ++ name_and_exact first.now name.now weight) }
{
    let mut digits = [0u8; 16];
    let len = weight.exact_text(&mut digits);
    let (weight, _) = digits.split_at(len);
    push_all(
        &[
            first,
            b" ".as_slice(),
            name.as_bytes(),
            b" ".as_slice(),
            weight,
        ],
        text,
    )
}

fn push_pairs(at: &Location, text: &mut Vec<u8>) -> Result<(), AllocError>
    ensures { OnOk result (text.new.items ≡ text.old.items ++ pairs_text at.now) }
{
    write!(text, "{at}").map_err(|_| AllocError)
}

fn push_end(edit: &Edit, text: &mut Vec<u8>) -> Result<(), AllocError>
    ensures { OnOk result (text.new.items ≡ text.old.items ++ (assent edit.now ++ codes "\n")) }
{
    text.extend_from_slice(assent(edit))?;
    text.extend_from_slice(b"\n")
}

/// Appends an edit as a line for a shell: `ceph osd crush`, the edit's command, and a line feed. If
/// the edit swaps two buckets, `--yes-i-really-mean-it` comes after the command. Weights are in
/// exact form: they have six decimals, and Ceph reads exactly the edit's weight from them. Returns
/// an error if memory runs out.
///
/// If a word of the command begins with `-`, the line has `--` before the command, so that Ceph
/// doesn't read this word as an option. However, Ceph refuses a name that begins with two dashes,
/// even after `--`.
pub fn push_ceph_line(edit: &Edit, text: &mut Vec<u8>) -> Result<(), AllocError>
    ensures { OnOk result (text.new.items ≡ text.old.items ++ ceph_line edit.now) }
{
    text.extend_from_slice(ceph_head(edit))?;
    push_words(edit, text)?;
    push_end(edit, text)
}

fn push_all(parts: &[&[u8]], text: &mut Vec<u8>) -> Result<(), AllocError>
    ensures { OnOk result (text.new.items
        ≡ text.old.items ++ flat_map (λ part. part.now) parts.now) }
{
    put_all(text, parts).map_err(|_| AllocError)
}

/// Appends the line `# N commands` with a line feed. N is `count`, the number of commands. Returns
/// an error if memory runs out.
#[tactic(auto, unfolding(crate::specs::Ceph::ceph_heading))]
pub fn push_ceph_heading(count: u64, text: &mut Vec<u8>) -> Result<(), AllocError>
    ensures { OnOk result (text.new.items ≡ text.old.items ++ ceph_heading count) }
{
    let mut buffer = Buffer::new();
    let count = buffer.format(count).as_bytes();
    push_all(&[b"# ".as_slice(), count, b" commands\n".as_slice()], text)
}
