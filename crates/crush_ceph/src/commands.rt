//! Which steps one command of Ceph does, and the line of this command. A step is an edit, or
//! `reweight-all`.

ghost use Rattle.std.specs.Prelude.{◌≡◌, ◌≤◌, ◌<◌, ◌+◌, ◌∷◌, ◌++◌, OnOk, codes, drop, flat_map, length, take, true};
ghost use Rattle.std.specs.List.{list_any};
ghost use Rattle.crush_ceph.specs.Commands.{command_line, cut, edits_join, first_words, gives_class, has_option, joined_head, joined_line, joins, joins_edit, more_words, moves, second_joins, step_line, takes_class_away, words_added};

use crate::steps::CephStep;
use crush_edits::Edit;
use crush_history::{has_dash, push_ceph_line};
use crush_units::Name;
use std::alloc::{AllocError, Global};
use std::io::Write;

fn moves(name: &Name<Global>, edit: &Edit) -> bool
    ensures { result ≡ moves name.now edit.now }
{
    match edit {
        Edit::Move { name: moved, .. } => name.is(moved.as_bytes()),
        _ => false,
    }
}

fn takes_class_away(edit: &Edit) -> bool
    ensures { result ≡ takes_class_away edit.now }
{
    matches!(edit, Edit::RemoveClass { .. })
}

fn gives_class(class: &Name<Global>, edit: &Edit) -> bool
    ensures { result ≡ gives_class class.now edit.now }
{
    match edit {
        Edit::SetClass { class: given, .. } => class.is(given.as_bytes()),
        _ => false,
    }
}

/// Whether one command of Ceph can do both edits, the first edit before the second.
fn edits_join(first: &Edit, second: &Edit) -> bool
    ensures { result ≡ edits_join first.now second.now }
{
    match first {
        Edit::AddBucket { name, .. } => moves(name, second),
        Edit::RemoveClass { .. } => takes_class_away(second),
        Edit::SetClass { class, .. } => gives_class(class, second),
        _ => false,
    }
}

fn joins_edit(edit: &Edit, step: &CephStep) -> bool
    ensures { result ≡ joins_edit edit.now step.now }
{
    match step {
        CephStep::Does(next) => edits_join(edit, next),
        CephStep::ReweightAll => false,
    }
}

fn joins(first: &CephStep, second: &CephStep) -> bool
    ensures { result ≡ joins first.now second.now }
{
    match first {
        CephStep::Does(edit) => joins_edit(edit, second),
        CephStep::ReweightAll => false,
    }
}

/// Whether one command of Ceph can do both the step at the index and the next step. If no step
/// follows, the result is false.
fn joins_next(steps: &[CephStep], index: usize) -> bool
    requires { index < length steps.now }
    ensures value { result ≡ second_joins (drop index steps.now) }
    ensures next { result ≡ true → index + 1 < length steps.now }
{
    let next = index + 1;
    if next < steps.len() {
        joins(&steps[index], &steps[next])
    } else {
        false
    }
}

/// Returns how many steps the first command does. The steps are divided into commands, each of
/// which does one step or several steps that follow one another. The first command does the steps
/// at the beginning of the list.
pub(crate) fn first_command(steps: &[CephStep]) -> usize
    requires { 0 < length steps.now }
    ensures some { 0 < result }
    ensures bound { result ≤ length steps.now }
    ensures cut { cut steps.now ≡ take result steps.now ∷ cut (drop result steps.now) }
{
    let mut last: usize = 0;
    'steps: while joins_next(steps, last) {
        last += 1;
    }
    last + 1
}

/// Whether the step is an edit that has a word, after its first word, that begins with `-`. Ceph
/// would read such a word as an option.
fn has_option(step: &CephStep) -> bool
    ensures { result ≡ has_option step.now }
{
    match step {
        CephStep::Does(edit) => has_dash(edit),
        CephStep::ReweightAll => false,
    }
}

fn have_option(command: &[CephStep]) -> bool
    ensures { result ≡ list_any has_option command.now }
{
    command.iter().any(|step| has_option(step))
}

fn joined_head(command: &[CephStep]) -> &'static [u8]
    ensures { result.now ≡ joined_head command.now }
{
    if have_option(command) {
        b"ceph osd crush -- "
    } else {
        b"ceph osd crush "
    }
}

fn push_first(step: &CephStep, text: &mut Vec<u8>) -> Result<(), AllocError>
    ensures { OnOk result (text.new.items ≡ text.old.items ++ first_words step.now) }
{
    match step {
        CephStep::Does(edit) => write!(text, "{edit}").map_err(|_| AllocError),
        CephStep::ReweightAll => Ok(()),
    }
}

fn push_word(word: &Name<Global>, text: &mut Vec<u8>) -> Result<(), AllocError>
    ensures { OnOk result (text.new.items ≡ text.old.items ++ (codes " " ++ word.now)) }
{
    text.extend_from_slice(b" ")?;
    text.extend_from_slice(word.as_bytes())
}

fn push_added(edit: &Edit, text: &mut Vec<u8>) -> Result<(), AllocError>
    ensures { OnOk result (text.new.items ≡ text.old.items ++ words_added edit.now) }
{
    match edit {
        Edit::Move { at, .. } => write!(text, "{at}").map_err(|_| AllocError),
        Edit::RemoveClass { name } => push_word(name, text),
        Edit::SetClass { name, .. } => push_word(name, text),
        _ => Ok(()),
    }
}

fn push_more(step: &CephStep, text: &mut Vec<u8>) -> Result<(), AllocError>
    ensures { OnOk result (text.new.items ≡ text.old.items ++ more_words step.now) }
{
    match step {
        CephStep::Does(edit) => push_added(edit, text),
        CephStep::ReweightAll => Ok(()),
    }
}

fn push_all_more(steps: &[CephStep], text: &mut Vec<u8>) -> Result<(), AllocError>
    ensures { OnOk result (text.new.items ≡ text.old.items ++ flat_map more_words steps.now) }
{
    for step in steps {
        push_more(step, text)?;
    }
    Ok(())
}

fn push_feed(text: &mut Vec<u8>) -> Result<(), AllocError>
    ensures { OnOk result (text.new.items ≡ text.old.items ++ codes "\n") }
{
    text.extend_from_slice(b"\n")
}

/// Appends the line of a command that does several steps. `head` is the beginning of the line, up
/// to the space before the command. `first` is the first step, and `more` are the other steps.
fn push_joined(
    head: &[u8],
    first: &CephStep,
    more: &[CephStep],
    text: &mut Vec<u8>,
) -> Result<(), AllocError>
    ensures { OnOk result (text.new.items ≡ text.old.items
        ++ (head.now ++ (first_words first.now ++ (flat_map more_words more.now ++ codes "\n")))) }
{
    text.extend_from_slice(head)?;
    push_first(first, text)?;
    push_all_more(more, text)?;
    push_feed(text)
}

fn push_step_line(step: &CephStep, text: &mut Vec<u8>) -> Result<(), AllocError>
    ensures { OnOk result (text.new.items ≡ text.old.items ++ step_line step.now) }
{
    match step {
        CephStep::Does(edit) => push_ceph_line(edit, text),
        CephStep::ReweightAll => text.extend_from_slice(b"ceph osd crush reweight-all\n"),
    }
}

/// Appends the line of the command that does these steps. If there is no step, appends nothing.
pub(crate) fn push_command(command: &[CephStep], text: &mut Vec<u8>) -> Result<(), AllocError>
    ensures { OnOk result (text.new.items ≡ text.old.items ++ command_line command.now) }
{
    match command {
        [] => Ok(()),
        [step] => push_step_line(step, text),
        [first, more @ ..] => push_joined(joined_head(command), first, more, text),
    }
}
